//! The five commands of the second program, each called as its arguments say.

use crate::held::{files, list_of};
use rt_cert::cert_run;
use rt_io::{MemFiles, MemSink, PlusCommand, plus_command};
use rt_ra_run::{RA_USAGE, ra_run};
use rt_tools::tool_run;
use rt_value::Txt;
use std::alloc::Global;
use std::process::Abort;

fn certs_end(
    alloc: Global,
    words: &[Txt],
    files: &mut MemFiles,
    out: &mut MemSink,
    err: &mut MemSink,
) -> u8 {
    let outcome = cert_run(alloc, words, files, out, err);
    let status = outcome.status();
    drop(outcome);
    status
}

fn tool_ends(
    alloc: Global,
    words: &[Txt],
    files: &mut MemFiles,
    out: &mut MemSink,
    err: &mut MemSink,
) -> u8 {
    let outcome = tool_run(alloc, words, files, out, err);
    let status = outcome.status();
    drop(outcome);
    status
}

fn ra_ends(
    alloc: Global,
    words: &[Txt],
    files: &mut MemFiles,
    out: &mut MemSink,
    err: &mut MemSink,
) -> u8 {
    let outcome = ra_run(alloc, words, files, out, err);
    let status = outcome.status();
    drop(outcome);
    status
}

fn run(
    alloc: Global,
    words: &[Txt],
    files: &mut MemFiles,
    out: &mut MemSink,
    err: &mut MemSink,
) -> u8 {
    match plus_command(words) {
        PlusCommand::Ra => ra_ends(alloc, words, files, out, err),
        PlusCommand::Row | PlusCommand::Grade => tool_ends(alloc, words, files, out, err),
        PlusCommand::Prove | PlusCommand::Check => certs_end(alloc, words, files, out, err),
    }
}

// Whether the arguments end with this status and write a text that begins so.
fn ends(rt: &impl Abort, alloc: Global, words: &[&str], status: u8, out: &str, err: &str) -> bool {
    let mut held = files(rt, alloc);
    held.hold("list", b"a.sql").expect(rt, "memory");
    held.hold("1.ra", b"reg").expect(rt, "memory");
    let words = list_of(rt, alloc, words);
    let (mut to_out, mut to_err) = (MemSink::new(alloc), MemSink::new(alloc));
    let ended = run(alloc, words.as_slice(), &mut held, &mut to_out, &mut to_err);
    drop(words);
    drop(held);
    ended == status
        && to_out.bytes().starts_with(out.as_bytes())
        && to_err.bytes().starts_with(err.as_bytes())
}

const COMMANDS: [(&[&str], u8, &str, &str); 7] = [
    (&["ra", "s", "d", "1.ra", "1.ra"], 0, "agree\n", ""),
    (
        &["row", "'John'", "s", "d", "a.sql", "b.sql"],
        0,
        "never\n",
        "",
    ),
    (
        &["grade", "s", "d", "a.sql", "list"],
        0,
        "a.sql: agree\ngraded: 1\n",
        "",
    ),
    (
        &["prove", "s", "d", "a.sql", "b.sql"],
        0,
        "ratest certificate 1\nverdict witness 2\n",
        "",
    ),
    (
        &["check", "a.sql", "s", "d", "a.sql", "b.sql"],
        3,
        "",
        "ratest: certificate: malformed at line 1\n",
    ),
    (&[], 2, "", RA_USAGE),
    (&["rows"], 2, "", RA_USAGE),
];

#[test]
fn five_commands(rt: HostRuntime) {
    for (words, status, out, err) in &COMMANDS {
        assert!(rt;
            ends(&rt, rt.alloc(), words, *status, out, err),
            "{out}{err}"
        );
    }
}
