//! The reading of a command's input, in a fixed order: arguments, schema, tables, queries, and
//! then the work. The first refusal in that order is the answer.

ghost use Rattle.std.specs.Prelude.{◌≡◌, ◌++◌, IfOk, IfErr, OnOk, Ok, Some};
ghost use Rattle.rt_io.specs.Edge.{AddsPrefix, NoneFell};
ghost use Rattle.rt_io.specs.Gave.{Adds, Fits};
ghost use Rattle.rt_schema.specs.Given.{IsOf};
ghost use Rattle.rt_algebra.specs.Typed.{IsTypedOf};
ghost use Rattle.rt_io.specs.Command.{command};
ghost use Rattle.rt_input.specs.Source.{IsKnown, IsMade, query_part, source_of};
ghost use Rattle.rt_input.specs.Judged.{query_judged, right_judged, input_judged, total_work, within_limit, work_between, Reaches};
ghost use Rattle.rt_input.specs.Held.{Holding, text_of};
ghost use Rattle.rt_input.specs.Placed.{IsPlaceless, Placed};
ghost use Rattle.rt_input.specs.Begun.{AddsAll, AddsSome, BeganFor, Begins, EndsAt, EndsFor, input_files, input_reached, part_files};
ghost use Rattle.rt_input.specs.Steps.{over, Refuses, SpeaksOf, Stops};
ghost use Rattle.rt_input.specs.Reading.{call, IsMadeCall, IsRead, Stop, WordsStop};
ghost use Rattle.rt_input.specs.declared.part.Part.TheVariants as parts;
ghost use Rattle.rt_input.specs.Accepted.{HasOptions, IsAccepted};

use crate::first::first_of;
use crate::input::Input;
use crate::outcome::{Limit, Outcome};
use crate::part::QueryPart;
use crate::query::{like_left, query_of};
use crate::source::Source;
use crate::text::source_text;
use rt_algebra::{Typed, work};
use rt_io::{Files, WordFault, Words};
use rt_schema::{Given, Schema, capped_add, law_work};
use rt_value::Txt;
use std::alloc::Global;

/// The command of the arguments, or the outcome `Usage`.
pub fn read_words(alloc: Global, words: &[Txt]) -> Result<Words, Outcome>
    ensures ok { IfOk result (λ k. command words.now ≡ Some k) }
    ensures err { IfErr result (WordsStop (command words.now)) }
{
    match rt_io::read_words(alloc, words) {
        Ok(command) => Ok(command),
        Err(WordFault::Usage) => Err(Outcome::Usage),
        Err(WordFault::NoMemory) => Err(Outcome::NoMemory),
    }
}

/// A query over the tables of the schema.
pub(crate) fn read_query<F: Files>(
    alloc: Global,
    files: &mut F,
    source: &Source,
    part: QueryPart,
    schema: &Schema,
) -> Result<Typed, Outcome>
    ensures typed { IfOk result (IsTypedOf schema.now) }
    ensures ok { IfOk result (λ typed. IsKnown F.tells source.now → query_judged source.now (F.held files.old) (query_part part) schema.now ≡ Ok typed) }
    ensures err { IfErr result (Stops (over F.Files files.old files.new) source.now (query_judged source.now (F.held files.old) (query_part part) schema.now) (λ p. p ≡ query_part part)) }
    ensures place { IfErr result (λ o. IsKnown F.tells source.now → Placed (text_of source.now (F.held files.old)) o) }
    ensures speaks { IfErr result (SpeaksOf (λ p. p ≡ query_part part)) }
    ensures given { IfOk result (λ typed. (h : Holding) → Fits h (F.gave files.old) (F.gave files.new) → query_judged source.now h (query_part part) schema.now ≡ Ok typed) }
    ensures adds { Adds (F.gave files.old) (F.gave files.new) }
    ensures begun { AddsPrefix (F.begun files.old) (F.begun files.new) (part_files source.now (query_part part)) }
    ensures begun_ok { OnOk result (F.begun files.new ≡ F.begun files.old ++ part_files source.now (query_part part)) }
    ensures last { IfErr result (λ o. EndsAt source.now o (F.begun files.old) (F.begun files.new)) }
    ensures made { IsMade source.now → files.new ≡ files.old }
    ensures has { F.has files.new ≡ F.has files.old }
    ensures held { F.held files.new ≡ F.held files.old }
    ensures rises { NoneFell (F.faults files.old) (F.faults files.new) }
{
    let text = source_text(alloc, files, source, part.part())?;
    query_of(alloc, part.part(), schema, text.as_slice())
}

// The second query, whose columns are of the same kinds as the first's.
fn read_right<F: Files>(
    alloc: Global,
    files: &mut F,
    source: &Source,
    schema: &Schema,
    left: &Typed,
) -> Result<Typed, Outcome>
    ensures typed { IfOk result (IsTypedOf schema.now) }
    ensures kinds { IfOk result (λ right. right.kinds ≡ left.now.kinds) }
    ensures ok { IfOk result (λ right. IsKnown F.tells source.now → right_judged source.now (F.held files.old) schema.now left.now ≡ Ok right) }
    ensures err { IfErr result (Stops (over F.Files files.old files.new) source.now (right_judged source.now (F.held files.old) schema.now left.now) (λ p. p ≡ parts.Query2)) }
    ensures place { IfErr result (λ o. IsKnown F.tells source.now → Placed (text_of source.now (F.held files.old)) o) }
    ensures given { IfOk result (λ right. (h : Holding) → Fits h (F.gave files.old) (F.gave files.new) → right_judged source.now h schema.now left.now ≡ Ok right) }
    ensures adds { Adds (F.gave files.old) (F.gave files.new) }
    ensures begun { AddsPrefix (F.begun files.old) (F.begun files.new) (part_files source.now parts.Query2) }
    ensures begun_ok { OnOk result (F.begun files.new ≡ F.begun files.old ++ part_files source.now parts.Query2) }
    ensures last { IfErr result (λ o. EndsAt source.now o (F.begun files.old) (F.begun files.new)) }
    ensures made { IsMade source.now → files.new ≡ files.old }
    ensures has { F.has files.new ≡ F.has files.old }
    ensures held { F.held files.new ≡ F.held files.old }
    ensures rises { NoneFell (F.faults files.old) (F.faults files.new) }
{
    let right = read_query(alloc, files, source, QueryPart::Second, schema)?;
    like_left(left, right)
}

/// The work of two queries over given rows and of the rules of the schema, in the unit of `work`.
/// It stops at 2^127 - 1.
pub fn work_between(schema: &Schema, given: &Given, left: &Typed, right: &Typed) -> u128
    requires { IsOf schema.now given.now }
    ensures { result ≡ work_between schema.now given.now left.now right.now }
{
    let queries = capped_add(work(left, given), work(right, given));
    capped_add(queries, law_work(schema, given))
}

fn total_work(input: &Input) -> u128
    ensures value { result ≡ total_work input.now }
    ensures sound { IsAccepted input.now }
{
    let schema = input.schema();
    work_between(schema, input.given(), input.left(), input.right())
}

/// The input, if its work is within its limit.
pub fn within_limit(input: Input) -> Result<Input, Outcome>
    ensures sound { IfOk result IsAccepted }
    ensures ok { IfOk result (λ same. (same ≡ input) × (within_limit input ≡ Ok same)) }
    ensures err { IfErr result (Refuses (within_limit input)) }
    ensures place { IfErr result IsPlaceless }
{
    let work = total_work(&input);
    if work <= u128::from(input.work_limit()) {
        Ok(input)
    } else {
        Err(Outcome::Limit(Limit::Work(work)))
    }
}

// What the texts of a source say, with the numbers of the command.
fn read_source<F: Files>(
    alloc: Global,
    words: &Words,
    files: &mut F,
    source: &Source,
) -> Result<Input, Outcome>
    requires { source.now ≡ source_of words.now }
    ensures sound { IfOk result IsAccepted }
    ensures options { IfOk result (HasOptions words.now) }
    ensures ok { IfOk result (λ input. IsKnown F.tells source.now → input_judged (F.held files.old) words.now ≡ Ok input) }
    ensures err { IfErr result (Stops (over F.Files files.old files.new) source.now (input_judged (F.held files.old) words.now) (Reaches source.now (F.held files.old))) }
    ensures place { IfErr result (λ o. IsKnown F.tells source.now → Placed (text_of source.now (F.held files.old)) o) }
    ensures given { IfOk result (λ input. (h : Holding) → Fits h (F.gave files.old) (F.gave files.new) → input_judged h words.now ≡ Ok input) }
    ensures adds { Adds (F.gave files.old) (F.gave files.new) }
    ensures begun { AddsSome (IsKnown F.tells source.now) (input_files source.now) (input_reached source.now (F.held files.old)) (F.begun files.old) (F.begun files.new) }
    ensures begun_ok { OnOk result (AddsAll (IsKnown F.tells source.now) (input_files source.now) (input_reached source.now (F.held files.old)) (F.begun files.old) (F.begun files.new)) }
    ensures last { IfErr result (λ o. EndsAt source.now o (F.begun files.old) (F.begun files.new)) }
    ensures made { IsMade source.now → files.new ≡ files.old }
    ensures has { F.has files.new ≡ F.has files.old }
    ensures held { F.held files.new ≡ F.held files.old }
    ensures rises { NoneFell (F.faults files.old) (F.faults files.new) }
{
    let first = first_of(alloc, files, source)?;
    match read_right(alloc, files, source, &first.schema, &first.left) {
        Ok(right) => within_limit(first.input_of(words, right)),
        Err(outcome) => {
            drop(first);
            Err(outcome)
        }
    }
}

// What the texts of a command say.
fn read_command<F: Files>(alloc: Global, words: &Words, files: &mut F) -> Result<Input, Outcome>
    ensures sound { IfOk result IsAccepted }
    ensures options { IfOk result (HasOptions words.now) }
    ensures ok { IfOk result (λ input. IsKnown F.tells (source_of words.now) → input_judged (F.held files.old) words.now ≡ Ok input) }
    ensures err { IfErr result (Stops (over F.Files files.old files.new) (source_of words.now) (input_judged (F.held files.old) words.now) (Reaches (source_of words.now) (F.held files.old))) }
    ensures place { IfErr result (λ o. IsKnown F.tells (source_of words.now) → Placed (text_of (source_of words.now) (F.held files.old)) o) }
    ensures given { IfOk result (λ input. (h : Holding) → Fits h (F.gave files.old) (F.gave files.new) → input_judged h words.now ≡ Ok input) }
    ensures adds { Adds (F.gave files.old) (F.gave files.new) }
    ensures begun { AddsSome (IsKnown F.tells (source_of words.now)) (input_files (source_of words.now)) (input_reached (source_of words.now) (F.held files.old)) (F.begun files.old) (F.begun files.new) }
    ensures begun_ok { OnOk result (AddsAll (IsKnown F.tells (source_of words.now)) (input_files (source_of words.now)) (input_reached (source_of words.now) (F.held files.old)) (F.begun files.old) (F.begun files.new)) }
    ensures last { IfErr result (λ o. EndsAt (source_of words.now) o (F.begun files.old) (F.begun files.new)) }
    ensures made { IsMade (source_of words.now) → files.new ≡ files.old }
    ensures has { F.has files.new ≡ F.has files.old }
    ensures held { F.held files.new ≡ F.held files.old }
    ensures rises { NoneFell (F.faults files.old) (F.faults files.new) }
{
    let source = Source::of(alloc, words)?;
    let input = read_source(alloc, words, files, &source);
    drop(source);
    input
}

/// The input of a command, or the first refusal.
pub fn read_input<F: Files>(alloc: Global, words: &[Txt], files: &mut F) -> Result<Input, Outcome>
    ensures ok { IfOk result (IsRead (call F.Files words.now files.old files.new)) }
    ensures err { IfErr result (Stop (call F.Files words.now files.old files.new)) }
    // The files that are begun are first ones of those that the command names, and none after the
    // first refusal. If there is an input, they are all of them.
    ensures begun { Begins F.Files (command words.now) files.old files.new }
    ensures begun_ok { OnOk result (BeganFor F.tells (F.held files.old) (command words.now) (F.begun files.old) (F.begun files.new)) }
    // None is begun behind the part that a refusal or an error of reading names.
    ensures last { IfErr result (λ o. EndsFor (command words.now) o (F.begun files.old) (F.begun files.new)) }
    ensures adds { Adds (F.gave files.old) (F.gave files.new) }
    // A generated input begins no file.
    ensures made { IsMadeCall (command words.now) → files.new ≡ files.old }
    ensures has { F.has files.new ≡ F.has files.old }
    ensures held { F.held files.new ≡ F.held files.old }
    ensures rises { NoneFell (F.faults files.old) (F.faults files.new) }
{
    let command = read_words(alloc, words)?;
    read_command(alloc, &command, files)
}
