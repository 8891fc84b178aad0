//! Commands and their files in memory.

use rt_io::MemFiles;
use rt_value::{List, NoMemory, Txt};
use std::alloc::Global;

/// The arguments that name the files.
pub const FOUR: [&str; 4] = ["s", "d", "p", "q"];

/// The arguments as the program has them.
pub fn words(alloc: Global, words: &[&str]) -> Result<List<Txt>, NoMemory> {
    let mut list = List::new(alloc);
    for word in words {
        list.push(Txt::of(alloc, word)?)?;
    }
    Ok(list)
}

fn hold_all(
    files: &mut MemFiles,
    schema: &str,
    tables: &[(&str, &str)],
    query1: &str,
    query2: &str,
) -> Result<(), NoMemory> {
    files.hold("s", schema.as_bytes())?;
    for (name, rows) in tables {
        files.hold(name, rows.as_bytes())?;
    }
    files.hold("p", query1.as_bytes())?;
    files.hold("q", query2.as_bytes())
}

/// The files of a command: a schema, tables by the names of their files, and two queries.
pub fn files(
    alloc: Global,
    schema: &str,
    tables: &[(&str, &str)],
    query1: &str,
    query2: &str,
) -> Result<MemFiles, NoMemory> {
    let mut files = MemFiles::new(alloc);
    hold_all(&mut files, schema, tables, query1, query2)?;
    Ok(files)
}
