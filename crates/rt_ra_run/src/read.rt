//! Reading a command's files in their order: schema, tables, query 1, query 2. The first refusal
//! ends the reading.

ghost use Rattle.std.specs.Prelude.{◌≡◌, ◌≤◌, [], ◌∷◌, ◌++◌, IsTrue, IfOk, IfErr, OnOk, Ok};
ghost use Rattle.rt_io.specs.Edge.{AddsPrefix, NoneFell};
ghost use Rattle.rt_input.specs.Begun.{AddsAll, AddsSome, data_files, data_reached};
ghost use Rattle.rt_ra_run.specs.Begun.{asked_files, asked_reached, queries_reached, query_files, tables_of};
ghost use Rattle.rt_schema.specs.Given.{IsOf, places, row_limit};
ghost use Rattle.rt_input.specs.Source.{query_part};
ghost use Rattle.rt_input.specs.Steps.{over};
ghost use Rattle.rt_input.specs.declared.part.Part.TheVariants as parts;
ghost use Rattle.rt_ra_run.specs.Asked.{HasNumbers, IsAsked, IsLowered, IsMeant};
ghost use Rattle.rt_ra_run.specs.Judged.{QueryReached, Reaches, asked_judged, asked_of, beside, data_in, data_judged, queries_judged, query_judged, right_judged, text_judged, within_judged};
ghost use Rattle.rt_ra_run.specs.Placed.{Placed, IsPlaceless};
ghost use Rattle.rt_ra_run.specs.Steps.{Refuses, Stops};
ghost use Rattle.rt_ra_run.specs.Words.{IsInRange, query_path};

use crate::asked::Asked;
use crate::command::RaCommand;
use crate::outcome::RaOutcome;
use crate::query::{Lowered, query_of};
use rt_input::{Input, QueryPart, Tables, like_left, read_tables, read_text, within_limit};
use rt_io::Files;
use rt_schema::Schema;
use rt_value::Bytes;
use std::alloc::Global;

// The schema and the rows of its tables.
fn read_data<F: Files>(
    alloc: Global,
    command: &RaCommand,
    files: &mut F,
) -> Result<Tables, RaOutcome>
    ensures of_schema { IfOk result (λ t. IsOf t.schema t.given) }
    ensures few { IfOk result (λ t. places t.given.tables ≤ row_limit) }
    ensures ok { IfOk result (λ t. IsTrue F.tells → data_judged command.now (F.held files.old) ≡ Ok (data_in t)) }
    ensures err { IfErr result (Stops (over F.Files files.old files.new) command.now (data_judged command.now (F.held files.old)) (Reaches command.now (F.held files.old))) }
    ensures place { IfErr result (λ o. IsTrue F.tells → Placed command.now (F.held files.old) o) }
    ensures begun { AddsSome (IsTrue F.tells) (data_files (tables_of command.now)) (data_reached (tables_of command.now) (F.held files.old)) (F.begun files.old) (F.begun files.new) }
    ensures begun_ok { OnOk result (AddsAll (IsTrue F.tells) (data_files (tables_of command.now)) (data_reached (tables_of command.now) (F.held files.old)) (F.begun files.old) (F.begun files.new)) }
    ensures has { F.has files.new ≡ F.has files.old }
    ensures held { F.held files.new ≡ F.held files.old }
    ensures rises { NoneFell (F.faults files.old) (F.faults files.new) }
{
    match read_tables(alloc, &command.schema, &command.dir, files) {
        Ok(tables) => Ok(tables),
        Err(outcome) => Err(RaOutcome::Verdict(outcome)),
    }
}

// The text of a query.
fn query_text<F: Files>(
    alloc: Global,
    command: &RaCommand,
    part: QueryPart,
    files: &mut F,
) -> Result<Bytes, RaOutcome>
    ensures ok { IfOk result (λ text. IsTrue F.tells → text_judged command.now (F.held files.old) (query_part part) ≡ Ok text) }
    ensures err { IfErr result (Stops (over F.Files files.old files.new) command.now (text_judged command.now (F.held files.old) (query_part part)) (λ p. p ≡ query_part part)) }
    ensures place { IfErr result IsPlaceless }
    ensures begun { AddsPrefix (F.begun files.old) (F.begun files.new) (query_path command.now part ∷ []) }
    ensures begun_ok { OnOk result (F.begun files.new ≡ F.begun files.old ++ query_path command.now part ∷ []) }
    ensures has { F.has files.new ≡ F.has files.old }
    ensures held { F.held files.new ≡ F.held files.old }
    ensures rises { NoneFell (F.faults files.old) (F.faults files.new) }
{
    match read_text(alloc, part.part(), command.query(part), files) {
        Ok(text) => Ok(text),
        Err(outcome) => Err(RaOutcome::Verdict(outcome)),
    }
}

// A query over the tables of the schema.
fn read_query<F: Files>(
    alloc: Global,
    command: &RaCommand,
    part: QueryPart,
    schema: &Schema,
    files: &mut F,
) -> Result<Lowered, RaOutcome>
    ensures sound { IfOk result (IsLowered schema.now) }
    ensures ok { IfOk result (λ q. IsTrue F.tells → query_judged command.now (F.held files.old) (query_part part) schema.now ≡ Ok q) }
    ensures err { IfErr result (Stops (over F.Files files.old files.new) command.now (query_judged command.now (F.held files.old) (query_part part) schema.now) (λ p. p ≡ query_part part)) }
    ensures place { IfErr result (λ o. IsTrue F.tells → Placed command.now (F.held files.old) o) }
    ensures begun { AddsPrefix (F.begun files.old) (F.begun files.new) (query_path command.now part ∷ []) }
    ensures begun_ok { OnOk result (F.begun files.new ≡ F.begun files.old ++ query_path command.now part ∷ []) }
    ensures has { F.has files.new ≡ F.has files.old }
    ensures held { F.held files.new ≡ F.held files.old }
    ensures rises { NoneFell (F.faults files.old) (F.faults files.new) }
{
    let text = query_text(alloc, command, part, files)?;
    query_of(alloc, part.part(), schema, text.as_slice())
}

// The second query, where its columns are as the first's.
fn beside(left: &Lowered, right: Lowered) -> Result<Lowered, RaOutcome>
    ensures kinds { IfOk result (λ q. q.typed.kinds ≡ left.now.typed.kinds) }
    ensures ok { IfOk result (λ q. (q ≡ right) × (beside left.now right ≡ Ok q)) }
    ensures err { IfErr result (Refuses (beside left.now right)) }
    ensures place { IfErr result IsPlaceless }
{
    let Lowered { text, typed } = right;
    match like_left(&left.typed, typed) {
        Ok(typed) => Ok(Lowered { text, typed }),
        Err(outcome) => Err(RaOutcome::Verdict(outcome)),
    }
}

// The second query over the tables of the schema, whose columns are as the first's.
fn read_right<F: Files>(
    alloc: Global,
    command: &RaCommand,
    schema: &Schema,
    left: &Lowered,
    files: &mut F,
) -> Result<Lowered, RaOutcome>
    ensures sound { IfOk result (IsLowered schema.now) }
    ensures kinds { IfOk result (λ q. q.typed.kinds ≡ left.now.typed.kinds) }
    ensures ok { IfOk result (λ q. IsTrue F.tells → right_judged command.now (F.held files.old) schema.now left.now ≡ Ok q) }
    ensures err { IfErr result (Stops (over F.Files files.old files.new) command.now (right_judged command.now (F.held files.old) schema.now left.now) (λ p. p ≡ parts.Query2)) }
    ensures place { IfErr result (λ o. IsTrue F.tells → Placed command.now (F.held files.old) o) }
    ensures begun { AddsPrefix (F.begun files.old) (F.begun files.new) (command.now.query2 ∷ []) }
    ensures has { F.has files.new ≡ F.has files.old }
    ensures held { F.held files.new ≡ F.held files.old }
    ensures rises { NoneFell (F.faults files.old) (F.faults files.new) }
{
    let right = read_query(alloc, command, QueryPart::Second, schema, files)?;
    beside(left, right)
}

// What is asked, where its work is within its limit.
fn within(asked: Asked) -> Result<Asked, RaOutcome>
    ensures ok { IfOk result (λ a. (a ≡ asked) × (within_judged asked ≡ Ok a)) }
    ensures err { IfErr result (Refuses (within_judged asked)) }
    ensures place { IfErr result IsPlaceless }
{
    let Asked { input, left, right } = asked;
    match within_limit(input) {
        Ok(input) => Ok(Asked { input, left, right }),
        Err(outcome) => Err(RaOutcome::Verdict(outcome)),
    }
}

// What is asked of the two queries over these tables.
fn asked_of(command: &RaCommand, tables: Tables, left: Lowered, right: Lowered) -> Asked
    requires of_schema { IsOf tables.schema tables.given }
    requires few { places tables.given.tables ≤ row_limit }
    requires left { IsLowered tables.schema left }
    requires right { IsLowered tables.schema right }
    requires kinds { right.typed.kinds ≡ left.typed.kinds }
    requires range { IsInRange command.now }
    ensures value { result ≡ asked_of command.now (data_in tables) left right }
    ensures sound { IsAsked result }
    ensures means { IsMeant result }
{
    // The rows suit their tables: the contract of `tables` says so.
    let _rows = tables.given.tables();
    Asked {
        input: Input::new(
            tables,
            left.typed,
            right.typed,
            command.conflicts,
            command.work_limit,
            None,
        ),
        left: left.text,
        right: right.text,
    }
}

// What is asked over these tables.
fn read_queries<F: Files>(
    alloc: Global,
    command: &RaCommand,
    tables: Tables,
    files: &mut F,
) -> Result<Asked, RaOutcome>
    requires of_schema { IsOf tables.schema tables.given }
    requires few { places tables.given.tables ≤ row_limit }
    requires range { IsInRange command.now }
    ensures sound { IfOk result IsAsked }
    ensures means { IfOk result IsMeant }
    ensures numbers { IfOk result (HasNumbers command.now) }
    ensures ok { IfOk result (λ a. IsTrue F.tells → queries_judged command.now (F.held files.old) (data_in tables) ≡ Ok a) }
    ensures err { IfErr result (Stops (over F.Files files.old files.new) command.now (queries_judged command.now (F.held files.old) (data_in tables)) (QueryReached command.now (F.held files.old) (data_in tables))) }
    ensures place { IfErr result (λ o. IsTrue F.tells → Placed command.now (F.held files.old) o) }
    ensures begun { AddsPrefix (F.begun files.old) (F.begun files.new) (query_files command.now) }
    ensures reached { IsTrue F.tells → AddsPrefix (F.begun files.old) (F.begun files.new) (queries_reached command.now (F.held files.old) (data_in tables)) }
    ensures has { F.has files.new ≡ F.has files.old }
    ensures held { F.held files.new ≡ F.held files.old }
    ensures rises { NoneFell (F.faults files.old) (F.faults files.new) }
{
    let left = read_query(alloc, command, QueryPart::First, &tables.schema, files)?;
    let right = read_right(alloc, command, &tables.schema, &left, files)?;
    within(asked_of(command, tables, left, right))
}

/// What a command asks, or the first refusal in the order of its files.
pub(crate) fn read_asked<F: Files>(
    alloc: Global,
    command: &RaCommand,
    files: &mut F,
) -> Result<Asked, RaOutcome>
    requires range { IsInRange command.now }
    ensures sound { IfOk result IsAsked }
    ensures means { IfOk result IsMeant }
    ensures numbers { IfOk result (HasNumbers command.now) }
    ensures ok { IfOk result (λ a. IsTrue F.tells → asked_judged command.now (F.held files.old) ≡ Ok a) }
    ensures err { IfErr result (Stops (over F.Files files.old files.new) command.now (asked_judged command.now (F.held files.old)) (Reaches command.now (F.held files.old))) }
    ensures place { IfErr result (λ o. IsTrue F.tells → Placed command.now (F.held files.old) o) }
    ensures begun { AddsSome (IsTrue F.tells) (asked_files command.now) (asked_reached command.now (F.held files.old)) (F.begun files.old) (F.begun files.new) }
    ensures has { F.has files.new ≡ F.has files.old }
    ensures held { F.held files.new ≡ F.held files.old }
    ensures rises { NoneFell (F.faults files.old) (F.faults files.new) }
{
    let tables = read_data(alloc, command, files)?;
    read_queries(alloc, command, tables, files)
}
