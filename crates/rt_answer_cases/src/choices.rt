//! Choices of rows, and the inputs that they are of.

ghost use Rattle.std.specs.Prelude.{◌≡◌, length};

use rt_cases::{FOUR, words};
use rt_input::{Input, Outcome, read_input};
use rt_io::MemFiles;
use rt_value::Keep;
use std::alloc::Global;
use std::process::Abort;

/// The choice of a number's binary digits, the lowest for the first place.
pub(crate) fn choice(rt: &impl Abort, alloc: Global, places: usize, number: usize) -> Keep
    ensures { length result ≡ places }
{
    let mut keep = Keep::all(alloc, places, false).expect(rt, "memory");
    let mut digits = number;
    for place in 0..places {
        keep.set(place, digits % 2 == 1);
        digits /= 2;
    }
    keep
}

/// The input of four files, if it is accepted. The files are dropped here.
pub(crate) fn input(rt: &impl Abort, alloc: Global, mut files: MemFiles) -> Option<Input> {
    let command = words(alloc, &FOUR).expect(rt, "memory");
    let read = read_input(alloc, command.as_slice(), &mut files);
    drop(command);
    drop(files);
    accepted(read)
}

/// What was read, if it is an input.
pub(crate) fn accepted(read: Result<Input, Outcome>) -> Option<Input> {
    match read {
        Ok(input) => Some(input),
        Err(outcome) => {
            drop(outcome);
            None
        }
    }
}
