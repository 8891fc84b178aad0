//! Where the texts of a command come from: the files that it names, or a generated input.

ghost use Rattle.std.specs.Prelude.{◌≡◌, IfOk};
ghost use Rattle.rt_input.specs.Source.{file_name, made_part, paths_in, source_of, table_file, table_paths};

use crate::part::Part;
use rt_io::Words;
use rt_load::{Made, made};
use rt_value::{Bytes, List, NoMemory, Txt};
use std::alloc::Global;

/// The paths of a command.
pub struct Paths {
    pub schema: Txt,
    /// The folder of the table files.
    pub dir: Txt,
    /// The queries' files; none for a command that reads no query.
    pub query1: Option<Txt>,
    pub query2: Option<Txt>,
}

impl Drop for Paths {
    fn drop(self) {
        let Paths {
            schema: _,
            dir: _,
            query1: _,
            query2: _,
        } = self;
    }
}

/// The files that a command names, or the texts of a generated input.
pub enum Source {
    Files(Paths),
    Made(Made),
}

impl Drop for Source {
    fn drop(self) {
        match self {
            Source::Files(_) => {}
            Source::Made(_) => {}
        }
    }
}

impl Source {
    /// The source of a command: generated if it asks for that, else its files.
    pub fn of(alloc: Global, words: &Words) -> Result<Source, NoMemory>
        ensures { IfOk result (λ source. source ≡ source_of words.now) }
    {
        match words.made {
            Some(n) => Ok(Source::Made(made(alloc, n)?)),
            None => Ok(Source::Files(Paths::of(alloc, words.paths.as_slice())?)),
        }
    }
}

impl Paths {
    fn of(alloc: Global, words: &[Txt]) -> Result<Paths, NoMemory>
        ensures { IfOk result (λ paths. paths ≡ paths_in words.now) }
    {
        match words {
            [schema, dir, query1, query2] => Ok(Paths {
                schema: schema.copy(alloc)?,
                dir: dir.copy(alloc)?,
                query1: Some(query1.copy(alloc)?),
                query2: Some(query2.copy(alloc)?),
            }),
            _ => Ok(Paths {
                schema: Txt::of(alloc, "")?,
                dir: Txt::of(alloc, "")?,
                query1: None,
                query2: None,
            }),
        }
    }

    /// The paths of a command that reads no query.
    pub fn of_tables(alloc: Global, schema: &Txt, dir: &Txt) -> Result<Paths, NoMemory>
        ensures { IfOk result (λ paths. paths ≡ table_paths schema.now dir.now) }
    {
        Ok(Paths {
            schema: schema.copy(alloc)?,
            dir: dir.copy(alloc)?,
            query1: None,
            query2: None,
        })
    }

    /// The name of the file of a part, if it has one: the comparison of the two queries has none.
    pub fn file(&self, alloc: Global, part: &Part) -> Result<Option<Txt>, NoMemory>
        ensures { IfOk result (λ name. name ≡ file_name self.now part.now) }
    {
        match part {
            Part::Schema => Ok(Some(self.schema.copy(alloc)?)),
            Part::Table(_, name) => Ok(Some(self.table_file(alloc, name)?)),
            Part::Query1 => copied(alloc, &self.query1),
            Part::Query2 => copied(alloc, &self.query2),
            Part::Queries => Ok(None),
        }
    }

    fn table_file(&self, alloc: Global, name: &Txt) -> Result<Txt, NoMemory>
        ensures { IfOk result (λ path. path ≡ table_file self.now name.now) }
    {
        let dir = self.dir.as_str();
        let name = name.as_str();
        let path = format!(in alloc; "{dir}/{name}.csv")?;
        Txt::from_string(alloc, path)
    }
}

fn copied(alloc: Global, name: &Option<Txt>) -> Result<Option<Txt>, NoMemory>
    ensures { IfOk result (λ copy. copy ≡ name.now) }
{
    match name {
        Some(name) => Ok(Some(name.copy(alloc)?)),
        None => Ok(None),
    }
}

/// The generated text of a part.
pub(crate) fn made_part(alloc: Global, texts: &Made, part: &Part) -> Result<Bytes, NoMemory>
    ensures { IfOk result (λ text. text ≡ made_part texts.now part.now) }
{
    match part {
        Part::Schema => List::from_slice(alloc, texts.schema.as_slice()),
        Part::Table(at, _) => match texts.files.as_slice().get(*at) {
            Some(text) => List::from_slice(alloc, text.as_slice()),
            None => Ok(List::new(alloc)),
        },
        Part::Query1 => List::from_slice(alloc, texts.query1.as_slice()),
        Part::Query2 => List::from_slice(alloc, texts.query2.as_slice()),
        Part::Queries => Ok(List::new(alloc)),
    }
}
