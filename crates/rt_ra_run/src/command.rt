//! The arguments of `ratest_plus ra`: the keyword, then what `ratest` takes for files.

ghost use Rattle.std.specs.Prelude.{◌≡◌, IfOk, IfErr, Some, option_and_then};
ghost use Rattle.rt_io.specs.Command.{command};
ghost use Rattle.rt_ra_run.specs.Words.{IsInRange, WordsStop, over_files, query_path, ra_command};

use rt_input::{Outcome, QueryPart, read_words};
use rt_io::Words;
use rt_value::Txt;
use std::alloc::Global;

/// What the arguments ask for: two algebra texts over the tables of a folder.
pub(crate) struct RaCommand {
    pub(crate) schema: Txt,
    /// The folder of the table files.
    pub(crate) dir: Txt,
    pub(crate) query1: Txt,
    pub(crate) query2: Txt,
    pub(crate) conflicts: Option<u64>,
    pub(crate) work_limit: u64,
}

impl Drop for RaCommand {
    fn drop(self) {
        let RaCommand {
            schema: _,
            dir: _,
            query1: _,
            query2: _,
            conflicts: _,
            work_limit: _,
        } = self;
    }
}

impl RaCommand {
    /// The path of the file of a query.
    pub(crate) fn query(&self, part: QueryPart) -> &Txt
        ensures { result.now ≡ query_path self.now part }
    {
        match part {
            QueryPart::First => &self.query1,
            QueryPart::Second => &self.query2,
        }
    }
}

// The command over files of these arguments, unless its schema is called `made`.
fn over_files(alloc: Global, words: &Words) -> Result<RaCommand, Outcome>
    ensures ok { IfOk result (λ k. over_files words.now ≡ Some k) }
    ensures range { IfOk result IsInRange }
    ensures err { IfErr result (WordsStop (over_files words.now)) }
{
    match words.paths.as_slice() {
        [schema, dir, query1, query2] => {
            if *schema.as_str() == *"made" {
                return Err(Outcome::Usage);
            }
            Ok(RaCommand {
                schema: schema.copy(alloc)?,
                dir: dir.copy(alloc)?,
                query1: query1.copy(alloc)?,
                query2: query2.copy(alloc)?,
                conflicts: words.conflicts,
                work_limit: words.work_limit,
            })
        }
        _ => Err(Outcome::Usage),
    }
}

// The command over files that the arguments mean.
fn read_files(alloc: Global, words: &[Txt]) -> Result<RaCommand, Outcome>
    ensures ok { IfOk result (λ k. option_and_then over_files (command words.now) ≡ Some k) }
    ensures range { IfOk result IsInRange }
    ensures err { IfErr result (WordsStop (option_and_then over_files (command words.now))) }
{
    let words = read_words(alloc, words)?;
    over_files(alloc, &words)
}

/// The command that the arguments mean, `ra` first; Usage where they mean none.
pub(crate) fn read_command(alloc: Global, words: &[Txt]) -> Result<RaCommand, Outcome>
    ensures ok { IfOk result (λ k. ra_command words.now ≡ Some k) }
    ensures range { IfOk result IsInRange }
    ensures err { IfErr result (WordsStop (ra_command words.now)) }
{
    match words {
        [first, rest @ ..] => {
            if *first.as_str() == *"ra" {
                read_files(alloc, rest)
            } else {
                Err(Outcome::Usage)
            }
        }
        [] => Err(Outcome::Usage),
    }
}
