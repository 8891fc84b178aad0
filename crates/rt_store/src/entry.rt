//! An entry of a list of watches.

ghost use Rattle.std.specs.Prelude.{◌≡◌, ◌<◌, ◌^◌, false};
ghost use Rattle.rt_clause.specs.Packed.{packed};
ghost use Rattle.rt_store.specs.Watching.{noted};

use crate::short::Short;
use crate::watch::Watch;
use rt_clause::Lit;
use std::marker::Model;

const _: () = prove!(size_of::<Entry>() == 8);

/// A watch, whether its clause has two literals only, and another literal of the clause: where that
/// is true, the clause is met. Propagation waits for memory, so all is in one machine word.
#[derive(Clone, Copy)]
pub struct Entry {
    // twice the watch, and one more where there are two literals
    mark: u32,
    other: Short,
}

impl Model for Entry {
    ghost use Rattle.rt_clause.specs.Packed.{packed, unpacked, packed-unpacked};
    ghost use Rattle.rt_store.specs.Watching.{Listed};
    ghost use Rattle.std.proofs.Common.{ap};

    ghost Value = { Listed };

    ghost view = { λ e. record { watch = (unpacked e.mark).var; two = (unpacked e.mark).on; other = e.other } };

    ghost inverse = { λ e. record { mark = packed (record { var = e.watch; on = e.two }); other = e.other } };

    ghost inverse_ok = { λ e h. ap (λ w. record { mark = w; other = e.other }) (packed-unpacked e.mark) };
}

impl Entry {
    /// The entry of a watch, whether its clause has two literals only, and another literal of it.
    pub fn new(watch: Watch, two: bool, other: Lit) -> Entry
        requires watch { watch < 2 ^ 31 }
        requires other { packed other < 2 ^ 32 }
        ensures { result ≡ record { watch = watch; two = two; other = other } }
    {
        let twice = 2 * watch.number();
        let mark = if two { twice + 1 } else { twice };
        Entry {
            mark: mark as u32,
            other: Short::new(other),
        }
    }

    /// Whose entry it is.
    pub fn watch(self) -> Watch
        ensures is { result ≡ self.watch }
        ensures small { result < 2 ^ 31 }
    {
        Watch::of(self.mark as usize / 2)
    }

    /// Whether the clause has two literals only.
    pub fn is_two(self) -> bool
        ensures { result ≡ self.two }
    {
        self.mark % 2 == 1
    }

    /// Another literal of the clause.
    pub fn other(self) -> Lit
        ensures { result ≡ self.other }
    {
        self.other.lit()
    }

    /// An entry of the same watch with another literal.
    pub fn noting(self, other: Lit) -> Entry
        requires { packed other < 2 ^ 32 }
        ensures { result ≡ noted self other }
    {
        Entry::new(self.watch(), false, other)
    }
}
