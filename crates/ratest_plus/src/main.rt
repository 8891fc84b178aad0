//! The program `ratest_plus`: five more commands, over the files and sinks of the system. The
//! first argument says which (`plus_command`).

#![tactic(auto)]

use rt_cert::cert_run;
use rt_io::{Files, PlusCommand, RealFiles, RealSink, Sink, given_words, plus_command, refuse};
use rt_ra_run::{RA_USAGE, ra_run};
use rt_tools::tool_run;
use rt_value::Txt;
use std::alloc::Global;
use std::process::ExitCode;

// Runs a command of certificates, and gives its status.
fn run_certs<F: Files, O: Sink, E: Sink>(
    alloc: Global,
    words: &[Txt],
    files: &mut F,
    out: &mut O,
    err: &mut E,
) -> u8 {
    let outcome = cert_run(alloc, words, files, out, err);
    let status = outcome.status();
    drop(outcome);
    status
}

// Runs a command of the tools, and gives its status.
fn run_tool<F: Files, O: Sink, E: Sink>(
    alloc: Global,
    words: &[Txt],
    files: &mut F,
    out: &mut O,
    err: &mut E,
) -> u8 {
    let outcome = tool_run(alloc, words, files, out, err);
    let status = outcome.status();
    drop(outcome);
    status
}

// Runs a command on algebra texts, and gives its status.
fn run_ra<F: Files, O: Sink, E: Sink>(
    alloc: Global,
    words: &[Txt],
    files: &mut F,
    out: &mut O,
    err: &mut E,
) -> u8 {
    let outcome = ra_run(alloc, words, files, out, err);
    let status = outcome.status();
    drop(outcome);
    status
}

// Runs the command of these arguments, and gives its status.
fn run<F: Files, O: Sink, E: Sink>(
    alloc: Global,
    words: &[Txt],
    files: &mut F,
    out: &mut O,
    err: &mut E,
) -> u8 {
    match plus_command(words) {
        PlusCommand::Ra => run_ra(alloc, words, files, out, err),
        PlusCommand::Row | PlusCommand::Grade => run_tool(alloc, words, files, out, err),
        PlusCommand::Prove | PlusCommand::Check => run_certs(alloc, words, files, out, err),
    }
}

fn main(rt: HostRuntime) -> ExitCode {
    let mut out = RealSink::new(rt.stdout());
    let mut err = RealSink::new(rt.stderr());
    let words = match given_words(&rt) {
        Ok(words) => words,
        Err(error) => return ExitCode::from(refuse(&mut err, &error, RA_USAGE)),
    };
    let alloc = rt.alloc();
    let mut files = RealFiles::new(rt);
    let status = run(alloc, words.as_slice(), &mut files, &mut out, &mut err);
    ExitCode::from(status)
}
