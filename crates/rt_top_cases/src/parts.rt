//! The parts of a command that other commands use, each called by itself.

use rt_cases::{ALL, SCHEMA, TABLE, files, words};
use rt_input::{Fault, First, Limit, Part, Tables, query_of, read_first, stopped_text};
use rt_io::{MemSink, Place, Words, write_at};
use rt_load::LoadFault;
use rt_resolve::NameFault;
use rt_schema::Schema;
use rt_top::{Outcome, fault_text, read_tables, read_text, read_words, refusal_line};
use rt_value::{Bytes, Txt};
use std::alloc::Global;
use std::process::Abort;

// The work limit that the arguments name, and none for arguments that are no command.
fn limit_named(rt: &impl Abort, alloc: Global, command: &[&str]) -> Option<u64> {
    let command = words(alloc, command).expect(rt, "memory");
    let read = read_words(alloc, command.as_slice());
    drop(command);
    match read {
        Ok(words) => {
            let limit = words.work_limit;
            drop(words);
            Some(limit)
        }
        Err(outcome) => {
            let is_usage = matches!(outcome, Outcome::Usage);
            drop(outcome);
            assert!(rt; is_usage);
            None
        }
    }
}

#[test]
fn words_of_a_command(rt: HostRuntime) {
    let four = limit_named(&rt, rt.alloc(), &["s", "d", "--work=7", "p", "q"]);
    assert!(rt; matches!(four, Some(7)));
    let three = limit_named(&rt, rt.alloc(), &["s", "d", "p"]);
    assert!(rt; three.is_none());
}

// The text of a file that begins with a byte order mark, or the line of the error.
fn marked_text(rt: &impl Abort, alloc: Global, name: &str) -> Bytes {
    let mut held = files(alloc, SCHEMA, &[TABLE], "\u{feff}SELECT", "").expect(rt, "memory");
    let name = Txt::of(alloc, name).expect(rt, "memory");
    let read = read_text(alloc, Part::Query1, &name, &mut held);
    drop(name);
    drop(held);
    text_or_line(rt, alloc, read)
}

fn text_or_line(rt: &impl Abort, alloc: Global, read: Result<Bytes, Outcome>) -> Bytes {
    match read {
        Ok(text) => text,
        Err(outcome) => {
            let line = refusal_line(alloc, &outcome, 1).expect(rt, "memory");
            drop(outcome);
            line
        }
    }
}

fn is_text(rt: &impl Abort, alloc: Global, name: &str, wanted: &str) -> bool {
    let text = marked_text(rt, alloc, name);
    let found = text.as_slice() == wanted.as_bytes();
    drop(text);
    found
}

#[test]
fn text_of_a_file(rt: HostRuntime) {
    assert!(rt; is_text(&rt, rt.alloc(), "p", "SELECT"));
    assert!(rt; is_text(&rt, rt.alloc(), "x", "ratest: cannot read query 1\n"));
}

fn rows_or_none(rt: &impl Abort, read: Result<Tables, Outcome>) -> Option<usize> {
    match read {
        Ok(tables) => {
            let rows = tables.given.total();
            drop(tables);
            Some(rows)
        }
        Err(outcome) => {
            let is_unread = matches!(outcome, Outcome::ReadFault(Part::Table(0, _)));
            drop(outcome);
            assert!(rt; is_unread);
            None
        }
    }
}

// The number of rows of the tables in this folder, and none if the first can't be read.
fn rows_in(rt: &impl Abort, alloc: Global, dir: &str) -> Option<usize> {
    let mut held = files(alloc, SCHEMA, &[TABLE], "", "").expect(rt, "memory");
    let schema = Txt::of(alloc, "s").expect(rt, "memory");
    let dir = Txt::of(alloc, dir).expect(rt, "memory");
    let read = read_tables(alloc, &schema, &dir, &mut held);
    drop(dir);
    drop(schema);
    drop(held);
    rows_or_none(rt, read)
}

#[test]
fn tables_of_a_folder(rt: HostRuntime) {
    assert!(rt; matches!(rows_in(&rt, rt.alloc(), "d"), Some(3)));
    assert!(rt; rows_in(&rt, rt.alloc(), "e").is_none());
}

fn is_said(rt: &impl Abort, alloc: Global, fault: Fault, wanted: &str) -> bool {
    let told = fault_text(alloc, &fault).expect(rt, "memory");
    drop(fault);
    let found = told.as_slice() == wanted.as_bytes();
    drop(told);
    found
}

// A limit and out of memory have no text among the errors, and a usage no line.
#[test]
fn texts_of_faults(rt: HostRuntime) {
    let alloc = rt.alloc();
    let fields = Fault::Load(LoadFault::FieldCount(2));
    assert!(rt; is_said(&rt, alloc, fields, "record 2 has another number of fields"));
    assert!(rt; is_said(&rt, alloc, Fault::Load(LoadFault::TooManyRows), ""));
    assert!(rt; is_said(&rt, alloc, Fault::Name(NameFault::NoMemory), ""));
    let usage = refusal_line(alloc, &Outcome::Usage, 1).expect(&rt, "memory");
    assert!(rt; usage.is_empty());
}

// Whether a query's text is refused for an unknown column, over a schema.
fn is_column_unknown(alloc: Global, schema: &Schema, text: &str) -> bool {
    match query_of(alloc, Part::Query2, schema, text.as_bytes()) {
        Ok(query) => {
            drop(query);
            false
        }
        Err(outcome) => {
            let found = matches!(
                &outcome,
                Outcome::Refused(Part::Query2, Fault::Name(NameFault::UnknownColumn(_)))
            );
            drop(outcome);
            found
        }
    }
}

fn first_is_read(alloc: Global, read: Result<First, Outcome>) -> bool {
    match read {
        Ok(first) => {
            let found = first.given.total() == 3
                && !is_column_unknown(alloc, &first.schema, ALL)
                && is_column_unknown(alloc, &first.schema, "SELECT c FROM t");
            drop(first);
            found
        }
        Err(outcome) => {
            drop(outcome);
            false
        }
    }
}

// The second query's file is not there.
fn first_of_words(rt: &impl Abort, alloc: Global, words: &Words) -> bool {
    let mut held = files(alloc, SCHEMA, &[TABLE], ALL, "").expect(rt, "memory");
    let read = read_first(alloc, words, &mut held);
    drop(held);
    first_is_read(alloc, read)
}

#[test]
fn what_comes_before_a_second_query(rt: HostRuntime) {
    let alloc = rt.alloc();
    let command = words(alloc, &["s", "d", "p", "x"]).expect(&rt, "memory");
    let read = rt_io::read_words(alloc, command.as_slice());
    drop(command);
    let words = read.expect(&rt, "words");
    assert!(rt; first_of_words(&rt, alloc, &words));
    drop(words);
}

fn is_stopped(rt: &impl Abort, alloc: Global, outcome: Outcome, wanted: &str) -> bool {
    let command = words(alloc, &["made", "3", "--work=5"]).expect(rt, "memory");
    let text = stopped_text(alloc, "usage\n", command.as_slice(), &outcome).expect(rt, "memory");
    drop(command);
    drop(outcome);
    let found = text.as_slice() == wanted.as_bytes();
    drop(text);
    found
}

#[test]
fn texts_of_what_stops(rt: HostRuntime) {
    let alloc = rt.alloc();
    let past = "ratest: limit: work 7 is above 5\n";
    assert!(rt; is_stopped(&rt, alloc, Outcome::Limit(Limit::Work(7)), past));
    assert!(rt; is_stopped(&rt, alloc, Outcome::Usage, "usage\n"));
}

#[test]
fn one_of_two_sinks(rt: HostRuntime) {
    let (mut out, mut err) = (MemSink::new(rt.alloc()), MemSink::new(rt.alloc()));
    write_at(&mut out, &mut err, Place::Err, b"no".as_slice()).expect(&rt, "memory");
    write_at(&mut out, &mut err, Place::Out, b"yes".as_slice()).expect(&rt, "memory");
    assert!(rt; out.bytes() == b"yes".as_slice() && err.bytes() == b"no".as_slice());
}
