//! The outside: files that are read, sinks that are written, and what is known of both.
//!
//! A call of the outside may fail at any time. So each object counts its failed calls, and a
//! contract says of an error that this count rose. Contracts know the contents of files and sinks
//! in memory, and nothing of the contents of the system's files and writers.
//!
//! Also here: the arguments of the command line, read with the crate `clap`, and what the programs
//! answer to arguments that can't be read. What arguments mean is a definition that names nothing
//! of `clap`.

#![tactic(auto)]

mod commands;
mod counts;
mod files;
mod gave;
mod held;
mod laws;
mod limits;
mod matches;
mod mem_files;
mod mem_sink;
mod place;
mod program;
mod real_files;
mod real_sink;
mod sink;
mod sinks;
mod sure_files;
mod sure_sink;
mod word_fault;
mod words;
mod words_read;

pub use commands::{PlusCommand, plus_command};
pub use files::{BeginFail, Failed, Files, ReadFail, read_file};
pub use gave::{Gave, Note, is_end};
pub use laws::given_fits;
pub use mem_files::MemFiles;
pub use mem_sink::MemSink;
pub use place::Place;
pub use program::{given_words, refuse};
pub use real_files::RealFiles;
pub use real_sink::RealSink;
pub use sink::{Sink, SinkFail, write_text};
pub use sinks::write_at;
pub use sure_files::SureFiles;
pub use sure_sink::SureSink;
pub use word_fault::WordFault;
pub use words::Words;
pub use words_read::read_words;
