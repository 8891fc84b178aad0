//! What both `main`s share: the arguments of the process, and the answer to unreadable ones.

ghost use Rattle.std.specs.Prelude.{◌≡◌, ◌⊎◌};

use crate::real_sink::RealSink;
use crate::sink::write_text;
use rt_value::{List, NoMemory, Txt};
use std::alloc::Global;
use std::{env, io};

fn put(words: &mut List<Txt>, alloc: Global, word: String) -> Result<(), NoMemory> {
    words.push(Txt::from_string(alloc, word)?)
}

/// The arguments after the program's name. One that isn't UTF-8 is an error.
pub fn given_words(rt: &HostRuntime) -> io::Result<List<Txt>> {
    let mut words = List::new(rt.alloc());
    for word in env::args(rt)?.skip(1) {
        if put(&mut words, rt.alloc(), word).is_err() {
            return Err(io::Error::from(io::ErrorKind::OutOfMemory));
        }
    }
    Ok(words)
}

/// The status where the arguments can't be read: 7 when out of memory, and else 2, after writing
/// the usage text.
pub fn refuse<W: io::Write>(err: &mut RealSink<W>, error: &io::Error, usage: &str) -> u8
    ensures { (result ≡ 2) ⊎ (result ≡ 7) }
{
    if error.kind() == io::ErrorKind::OutOfMemory {
        return 7;
    }
    let _ = write_text(err, usage.as_bytes());
    2
}
