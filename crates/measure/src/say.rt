//! The writing of measurements.

use rt_input::Outcome;
use rt_io::{Sink, SinkFail, write_text};
use std::alloc::Global;

/// Writes a text; an error of the sink is the outcome.
pub fn say_text<S: Sink>(out: &mut S, text: &[u8]) -> Result<(), Outcome> {
    match write_text(out, text) {
        Ok(()) => Ok(()),
        Err(SinkFail::Failed) => Err(Outcome::WriteFault),
        Err(SinkFail::NoMemory) => Err(Outcome::NoMemory),
    }
}

/// Writes a line of a name and a number.
pub fn say<S: Sink>(alloc: Global, out: &mut S, name: &str, number: u64) -> Result<(), Outcome> {
    let Ok(line) = format!(in alloc; "{name} {number}\n") else {
        return Err(Outcome::NoMemory);
    };
    say_text(out, line.as_bytes())
}
