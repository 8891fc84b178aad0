//! Why there is no reply.

use rt_value::NoMemory;

/// Why there is no reply.
#[derive(Clone, Copy)]
pub(crate) enum Silence {
    /// The request is no frame.
    Malformed,
    /// A text of the reply has 4 GiB or more.
    TooLong,
    NoMemory,
}

impl From<NoMemory> for Silence {
    ghost use Rattle.std.specs.Prelude.{◌≡◌};
    ghost use Rattle.ratest_c.specs.declared.silence.Silence.TheVariants.{NoMemory};

    ghost from_gives = { λ _ e. e ≡ NoMemory };

    fn from(_e: NoMemory) -> Silence {
        Silence::NoMemory
    }
}
