//! The encoding of an input as a value, for the steps to go on from.

ghost use Rattle.std.specs.Prelude.{◌≡◌, length, IfOk};
ghost use Rattle.std.specs.Option.{ForSome};
ghost use Rattle.rt_schema.specs.Given.{places};
ghost use Rattle.rt_cert.specs.Encoding.{IsEncoding};

use crate::input::encode;
use rt_input::Input;
use rt_recorder::Encoded;
use rt_value::{Keep, NoMemory};
use std::alloc::Global;

/// The lines of an input and of a choice of its rows, with the literal that is assumed.
pub(crate) fn encoding(
    alloc: Global,
    input: &Input,
    keep: &Option<Keep>,
) -> Result<Encoded, NoMemory>
    requires { ForSome keep.now (λ k. length k ≡ places input.now.given.tables) }
    ensures { IfOk result (λ e. IsEncoding input.now keep.now e.lines e.assume) }
{
    let mut encoded = Encoded::new(alloc);
    let assume = encode(alloc, input, keep.as_ref(), &mut encoded)?;
    encoded.assume = assume;
    Ok(encoded)
}
