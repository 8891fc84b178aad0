//! A text as a list of paths, one a line.

ghost use Rattle.std.specs.Prelude.{◌≡◌, [], ◌∷◌, ◌++◌, IfOk, OnOk};
ghost use Rattle.std.specs.Str.Lines.{strip_carriage_return};
ghost use Rattle.rt_value.specs.Gives.{Gives};
ghost use Rattle.rt_grade.specs.Listed.{few, is_memory, listed, paths_in, paths_read};

use crate::paths_fault::PathsFault;
use rt_value::{List, NoMemory, Txt};
use std::alloc::Global;

// The most paths of a list.
const MOST_PATHS: usize = 256;

// The line without one carriage return at its end.
fn without_return(line: &str) -> &str
    ensures { result.now ≡ strip_carriage_return line.now }
{
    line.strip_suffix('\r').unwrap_or(line)
}

// Puts the path of a line after the others, if the line isn't empty.
fn put_path(alloc: Global, paths: &mut List<Txt>, line: &str) -> Result<(), NoMemory>
    ensures { OnOk result (paths.new ≡ paths.old ++ paths_in (line.now ∷ [])) }
{
    let path = without_return(line);
    if path.is_empty() {
        return Ok(());
    }
    paths.push(Txt::of(alloc, path)?)
}

fn paths_of(alloc: Global, text: &str) -> Result<List<Txt>, NoMemory>
    ensures { IfOk result (λ paths. paths ≡ listed text.now) }
{
    let mut paths = List::new(alloc);
    'lines: for line in text.split('\n') {
        put_path(alloc, &mut paths, line)?;
    }
    Ok(paths)
}

fn few(alloc: Global, text: &str) -> Result<List<Txt>, PathsFault>
    ensures { Gives is_memory result (few (listed text.now)) }
{
    let paths = paths_of(alloc, text)?;
    if paths.len() > MOST_PATHS {
        return Err(PathsFault::TooMany);
    }
    Ok(paths)
}

/// The paths of a text, one a line, without empty lines. A carriage return at the end of a line
/// is dropped. There are at most 256.
pub fn read_paths(alloc: Global, text: &[u8]) -> Result<List<Txt>, PathsFault>
    ensures { Gives is_memory result (paths_read text.now) }
{
    match str::from_utf8(text) {
        Ok(text) => few(alloc, text),
        Err(e) => Err(PathsFault::NotUtf8(e.valid_up_to())),
    }
}
