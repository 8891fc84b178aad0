//! The program `ratest`: the command of `rt_top` over the files and sinks of the system.

#![tactic(auto)]

use rt_io::{RealFiles, RealSink, given_words, refuse};
use rt_top::{USAGE, ratest};
use std::process::ExitCode;

fn main(rt: HostRuntime) -> ExitCode {
    let mut out = RealSink::new(rt.stdout());
    let mut err = RealSink::new(rt.stderr());
    let words = match given_words(&rt) {
        Ok(words) => words,
        Err(error) => return ExitCode::from(refuse(&mut err, &error, USAGE)),
    };
    let alloc = rt.alloc();
    let mut files = RealFiles::new(rt);
    let outcome = ratest(alloc, words.as_slice(), &mut files, &mut out, &mut err);
    let status = outcome.status();
    drop(outcome);
    ExitCode::from(status)
}
