//! Reading and writing, over the system's files and over those in memory, with calls that fail.

ghost use Rattle.std.specs.Prelude.{◌<◌, ◌^◌};

use rt_io::{
    BeginFail, Files, MemFiles, MemSink, ReadFail, RealFiles, RealSink, Sink, SinkFail, SureFiles,
    SureSink, read_file, write_text,
};
use std::alloc::Global;
use std::fs;

// Whether the file of this name is read, at this length at most, as these bytes.
fn is_read(alloc: Global, files: &mut impl Files, name: &str, max: usize, want: &[u8]) -> bool
    requires { max < 2 ^ 62 }
{
    match read_file(alloc, files, name, max) {
        Ok(bytes) => bytes.as_slice() == want,
        Err(_) => false,
    }
}

fn is_too_long(alloc: Global, files: &mut impl Files, name: &str, max: usize) -> bool
    requires { max < 2 ^ 62 }
{
    matches!(read_file(alloc, files, name, max), Err(ReadFail::TooLong))
}

#[test]
fn real_files_and_sinks(rt: HostRuntime) {
    let file = fs::create(&rt, "real.txt").expect(&rt, "a file");
    let mut sink = RealSink::new(file);
    let is_written = write_text(&mut sink, b"some text").is_ok();
    drop(sink);
    let mut files = RealFiles::new(rt.clone().expect(&rt, "a runtime"));
    let is_read = is_read(rt.alloc(), &mut files, "real.txt", 9, b"some text");
    let is_longer = is_too_long(rt.alloc(), &mut files, "real.txt", 8);
    fs::remove_file(&rt, "real.txt").expect(&rt, "no file");
    let is_gone = files.begin("real.txt") == Err(BeginFail::Failed);
    drop(files);
    assert!(rt; is_written && is_read && is_longer && is_gone);
}

// A writer that takes no more bytes answers so, and raises no error of its own.
#[test]
fn a_full_writer_is_a_fault(rt: HostRuntime) {
    let mut room = [0u8; 4];
    let mut sink = RealSink::new(room.as_mut_slice());
    assert!(rt; write_text(&mut sink, b"12345") == Err(SinkFail::Failed));
    drop(sink);
    assert!(rt; room.as_slice() == b"1234".as_slice());
}

// Whether a file is read, in pieces of this length, and not above its length.
fn is_read_in(alloc: Global, piece: usize) -> bool
    requires { 0 < piece }
{
    let mut files = MemFiles::new(alloc);
    let is_held = files.hold("f", b"12345").is_ok();
    files.piece(piece);
    is_held
        && is_read(alloc, &mut files, "f", 5, b"12345")
        && is_too_long(alloc, &mut files, "f", 4)
}

// Whether a sink takes texts, in pieces of this length, up to its room.
fn is_written_in(alloc: Global, piece: usize) -> bool
    requires { 0 < piece }
{
    let mut sink = MemSink::new(alloc);
    sink.piece(piece);
    let is_whole = write_text(&mut sink, b"12345").is_ok() && sink.bytes() == b"12345".as_slice();
    sink.room(8);
    is_whole
        && write_text(&mut sink, b"6789") == Err(SinkFail::Failed)
        && sink.bytes() == b"12345678".as_slice()
}

#[test]
fn no_answer_changes_with_the_pieces(rt: HostRuntime) {
    for piece in &[1, 2, 3, 100] {
        assert!(rt; is_read_in(rt.alloc(), *piece), "{piece}");
        assert!(rt; is_written_in(rt.alloc(), *piece), "{piece}");
    }
}

// Whether the file, begun, gives two pieces of two bytes and then fails.
fn fails_at_the_third(files: &mut MemFiles) -> bool {
    let mut buf = [0u8; 8];
    files.begin("f").is_ok()
        && files.read(&mut buf) == Ok(2)
        && files.read(&mut buf) == Ok(2)
        && files.read(&mut buf).is_err()
}

#[test]
fn calls_fail_where_they_are_to(rt: HostRuntime) {
    let mut files = MemFiles::new(rt.alloc());
    files.hold("f", b"12345").expect(&rt, "memory");
    files.piece(2);
    files.fail_read("f", 3).expect(&rt, "memory");
    let mut buf = [0u8; 8];
    assert!(rt; files.read(&mut buf) == Ok(0));
    for _ in 0..2 {
        assert!(rt; fails_at_the_third(&mut files));
    }
    files.fail_begin("f").expect(&rt, "memory");
    assert!(rt; files.begin("f") == Err(BeginFail::Failed));
    assert!(rt; files.begin("g") == Err(BeginFail::Failed));
}

#[test]
fn sure_files_and_sinks(rt: HostRuntime) {
    let alloc = rt.alloc();
    let mut files = SureFiles::new(alloc);
    files.hold("f", b"one").expect(&rt, "memory");
    files.hold("f", b"two").expect(&rt, "memory");
    assert!(rt; is_read(alloc, &mut files, "f", 9, b"two"));
    assert!(rt; is_read(alloc, &mut files, "g", 0, b""));
    drop(files);
    let mut sink = SureSink::new(alloc);
    assert!(rt; sink.write(b"one") == Ok(3));
    assert!(rt; sink.bytes() == b"one".as_slice());
}
