//! What a command reads before its second query. A command that compares one query with many
//! reads this once.

ghost use Rattle.std.specs.Prelude.{◌≡◌, IfOk, IfErr, OnOk, Ok};
ghost use Rattle.rt_io.specs.Edge.{NoneFell};
ghost use Rattle.rt_io.specs.Gave.{Adds, Fits};
ghost use Rattle.rt_algebra.specs.Typed.{IsTypedOf};
ghost use Rattle.rt_input.specs.Accepted.{IsAccepted};
ghost use Rattle.rt_input.specs.First.{IsFirst, data_in, first_judged};
ghost use Rattle.rt_input.specs.Judged.{accepted, ReachesFirst};
ghost use Rattle.rt_input.specs.Held.{Holding, text_of};
ghost use Rattle.rt_input.specs.Placed.{Placed};
ghost use Rattle.rt_input.specs.Source.{IsKnown, IsMade, source_of};
ghost use Rattle.rt_input.specs.Begun.{AddsAll, AddsSome, EndsAt, first_files, first_reached};
ghost use Rattle.rt_input.specs.Steps.{over, IsFirstPart, SpeaksOf, Stops};

use crate::input::Input;
use crate::outcome::Outcome;
use crate::part::QueryPart;
use crate::read::read_query;
use crate::source::Source;
use crate::tables::tables_of;
use rt_algebra::Typed;
use rt_io::{Files, Words};
use rt_schema::{Given, Schema};
use std::alloc::Global;

/// A schema, the rows given for it, and a query over it.
pub struct First {
    pub schema: Schema,
    pub given: Given,
    pub left: Typed,
}

impl Drop for First {
    fn drop(self) {
        let First {
            schema: _,
            given: _,
            left: _,
        } = self;
    }
}

impl First {
    /// The input with a second query and the numbers of the command.
    pub(crate) fn input_of(self, words: &Words, right: Typed) -> Input
        requires sound { IsFirst self }
        requires right { IsTypedOf self.schema right }
        requires kinds { right.kinds ≡ self.left.kinds }
        ensures same { result ≡ accepted words.now (data_in self) self.left right }
        ensures sound { IsAccepted result }
    {
        let First {
            schema,
            given,
            left,
        } = self;
        Input {
            schema,
            given,
            left,
            right,
            conflicts: words.conflicts,
            work_limit: words.work_limit,
            made: words.made,
        }
    }
}

/// The schema, the rows and the first query of a source, in the order of reading. Its second
/// query isn't read.
pub(crate) fn first_of<F: Files>(
    alloc: Global,
    files: &mut F,
    source: &Source,
) -> Result<First, Outcome>
    ensures sound { IfOk result IsFirst }
    ensures ok { IfOk result (λ first. IsKnown F.tells source.now → first_judged source.now (F.held files.old) ≡ Ok first) }
    ensures err { IfErr result (Stops (over F.Files files.old files.new) source.now (first_judged source.now (F.held files.old)) (ReachesFirst source.now (F.held files.old))) }
    ensures place { IfErr result (λ o. IsKnown F.tells source.now → Placed (text_of source.now (F.held files.old)) o) }
    ensures speaks { IfErr result (SpeaksOf IsFirstPart) }
    ensures given { IfOk result (λ first. (h : Holding) → Fits h (F.gave files.old) (F.gave files.new) → first_judged source.now h ≡ Ok first) }
    ensures adds { Adds (F.gave files.old) (F.gave files.new) }
    ensures begun { AddsSome (IsKnown F.tells source.now) (first_files source.now) (first_reached source.now (F.held files.old)) (F.begun files.old) (F.begun files.new) }
    ensures begun_ok { OnOk result (AddsAll (IsKnown F.tells source.now) (first_files source.now) (first_reached source.now (F.held files.old)) (F.begun files.old) (F.begun files.new)) }
    ensures last { IfErr result (λ o. EndsAt source.now o (F.begun files.old) (F.begun files.new)) }
    ensures made { IsMade source.now → files.new ≡ files.old }
    ensures has { F.has files.new ≡ F.has files.old }
    ensures held { F.held files.new ≡ F.held files.old }
    ensures rises { NoneFell (F.faults files.old) (F.faults files.new) }
{
    let tables = tables_of(alloc, files, source)?;
    let left = read_query(alloc, files, source, QueryPart::First, &tables.schema)?;
    let (schema, given) = tables.into_parts();
    Ok(First {
        schema,
        given,
        left,
    })
}

/// The schema, the rows and the first query of a command.
pub fn read_first<F: Files>(alloc: Global, words: &Words, files: &mut F) -> Result<First, Outcome>
    ensures sound { IfOk result IsFirst }
    ensures ok { IfOk result (λ first. IsKnown F.tells (source_of words.now) → first_judged (source_of words.now) (F.held files.old) ≡ Ok first) }
    ensures err { IfErr result (Stops (over F.Files files.old files.new) (source_of words.now) (first_judged (source_of words.now) (F.held files.old)) (ReachesFirst (source_of words.now) (F.held files.old))) }
    ensures place { IfErr result (λ o. IsKnown F.tells (source_of words.now) → Placed (text_of (source_of words.now) (F.held files.old)) o) }
    ensures speaks { IfErr result (SpeaksOf IsFirstPart) }
    ensures given { IfOk result (λ first. (h : Holding) → Fits h (F.gave files.old) (F.gave files.new) → first_judged (source_of words.now) h ≡ Ok first) }
    ensures adds { Adds (F.gave files.old) (F.gave files.new) }
    ensures begun { AddsSome (IsKnown F.tells (source_of words.now)) (first_files (source_of words.now)) (first_reached (source_of words.now) (F.held files.old)) (F.begun files.old) (F.begun files.new) }
    ensures begun_ok { OnOk result (AddsAll (IsKnown F.tells (source_of words.now)) (first_files (source_of words.now)) (first_reached (source_of words.now) (F.held files.old)) (F.begun files.old) (F.begun files.new)) }
    ensures last { IfErr result (λ o. EndsAt (source_of words.now) o (F.begun files.old) (F.begun files.new)) }
    ensures made { IsMade (source_of words.now) → files.new ≡ files.old }
    ensures has { F.has files.new ≡ F.has files.old }
    ensures held { F.held files.new ≡ F.held files.old }
    ensures rises { NoneFell (F.faults files.old) (F.faults files.new) }
{
    let source = Source::of(alloc, words)?;
    let first = first_of(alloc, files, &source);
    drop(source);
    first
}
