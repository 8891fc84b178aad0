//! Calls of `ratest` in memory.

use crate::held::words;
use rt_input::Outcome;
use rt_io::{MemFiles, MemSink};
use rt_top::ratest;
use rt_value::{NoMemory, Txt};
use std::alloc::Global;

/// The status of an outcome, which is dropped here.
pub fn status_of(outcome: Outcome) -> u8 {
    let status = outcome.status();
    drop(outcome);
    status
}

/// Whether the command ends with this status and writes just these texts.
pub fn ends(
    alloc: Global,
    files: &mut MemFiles,
    command: &[&str],
    status: u8,
    out: &str,
    err: &str,
) -> Result<bool, NoMemory> {
    let command = words(alloc, command)?;
    Ok(words_end(alloc, files, command.as_slice(), status, out, err))
}

/// The same for arguments as the program has them.
pub fn words_end(
    alloc: Global,
    files: &mut MemFiles,
    words: &[Txt],
    status: u8,
    out: &str,
    err: &str,
) -> bool {
    let (mut to_out, mut to_err) = (MemSink::new(alloc), MemSink::new(alloc));
    let outcome = ratest(alloc, words, files, &mut to_out, &mut to_err);
    let ended = status_of(outcome);
    ended == status && to_out.bytes() == out.as_bytes() && to_err.bytes() == err.as_bytes()
}

/// Whether the text is cut to this, and the outcome is an error of writing, for a sink that takes
/// ten bytes.
pub fn is_write_fault(alloc: Global, words: &[Txt], files: &mut MemFiles, held: &[u8]) -> bool {
    let (mut out, mut err) = (MemSink::new(alloc), MemSink::new(alloc));
    out.room(10);
    let outcome = ratest(alloc, words, files, &mut out, &mut err);
    let is_fault = matches!(outcome, Outcome::WriteFault);
    drop(outcome);
    is_fault && out.bytes() == held && err.bytes().is_empty()
}
