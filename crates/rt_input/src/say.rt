//! The texts of refusals and errors. `specs/Texts.antt` has them byte by byte.

ghost use Rattle.std.specs.Prelude.{◌≡◌, ◌++◌, IfOk, codes, decimal, string_bytes};
ghost use Rattle.rt_input.specs.Texts.{part_text, fault_text, lex_text, limit_text, load_text, name_text, refusal_line, schema_text, sql_text, syntax_text};

use crate::outcome::{Fault, Limit, Outcome};
use crate::part::Part;
use rt_ddl::SchemaFault;
use rt_load::LoadFault;
use rt_scope::NameFault;
use rt_sql::SqlFault;
use rt_token::LexFault;
use rt_value::{Bytes, List, NoMemory};
use std::alloc::{AllocError, Global};

// A text after a label.
fn labelled(alloc: Global, label: &str, text: &str) -> Result<String, AllocError>
    ensures { IfOk result (λ s. string_bytes s ≡ label.now ++ text.now) }
{
    format!(in alloc; "{label}{text}")
}

// A number after a label.
fn numbered(alloc: Global, label: &str, number: usize) -> Result<String, AllocError>
    ensures { IfOk result (λ s. string_bytes s ≡ label.now ++ decimal number) }
{
    format!(in alloc; "{label}{number}")
}

// A text between two others.
fn between(alloc: Global, before: &str, text: &str, after: &str) -> Result<String, AllocError>
    ensures { IfOk result (λ s. string_bytes s ≡ before.now ++ (text.now ++ after.now)) }
{
    format!(in alloc; "{before}{text}{after}")
}

/// The name of a part in the line of a refusal, such as `table beers`.
pub fn part_text(alloc: Global, part: &Part) -> Result<String, AllocError>
    ensures { IfOk result (λ s. string_bytes s ≡ part_text part.now) }
{
    match part {
        Part::Schema => String::from_str(alloc, "schema"),
        Part::Table(_, name) => labelled(alloc, "table ", name.as_str()),
        Part::Query1 => String::from_str(alloc, "query 1"),
        Part::Query2 => String::from_str(alloc, "query 2"),
        Part::Queries => String::from_str(alloc, "queries"),
    }
}

fn fault_words(alloc: Global, fault: &Fault) -> Result<String, AllocError>
    ensures { IfOk result (λ s. string_bytes s ≡ fault_text fault.now) }
{
    match fault {
        Fault::Lex(fault) => lex_text(alloc, fault),
        Fault::Schema(fault) => schema_text(alloc, fault),
        Fault::Load(fault) => load_text(alloc, fault),
        Fault::Sql(fault) => sql_text(alloc, fault),
        Fault::Name(fault) => name_text(alloc, fault),
    }
}

/// Why a text has no tokens, without a line end; empty for out of memory. Bytes count from 0.
pub fn lex_text(alloc: Global, fault: &LexFault) -> Result<String, AllocError>
    ensures { IfOk result (λ s. string_bytes s ≡ lex_text fault.now) }
{
    match fault {
        LexFault::NotUtf8(at) => numbered(alloc, "not UTF-8 at byte ", *at),
        LexFault::BadByte(at) => numbered(alloc, "unexpected byte at ", *at),
        LexFault::OpenText(at) => numbered(alloc, "text without end from byte ", *at),
        LexFault::OpenComment(at) => numbered(alloc, "comment without end from byte ", *at),
        LexFault::BigNumber(at) => numbered(alloc, "number past 128 bits at byte ", *at),
        LexFault::NoMemory => Ok(String::new(alloc)),
    }
}

fn syntax_text(alloc: Global, at: usize) -> Result<String, AllocError>
    ensures { IfOk result (λ s. string_bytes s ≡ syntax_text at) }
{
    numbered(alloc, "syntax fault near byte ", at)
}

fn schema_text(alloc: Global, fault: &SchemaFault) -> Result<String, AllocError>
    ensures { IfOk result (λ s. string_bytes s ≡ schema_text fault.now) }
{
    match fault {
        SchemaFault::Lex(fault) => lex_text(alloc, fault),
        SchemaFault::Syntax(at) => syntax_text(alloc, *at),
        SchemaFault::DuplicateName(name) => labelled(alloc, "name twice: ", name.as_str()),
        SchemaFault::UnknownName(name) => labelled(alloc, "unknown name: ", name.as_str()),
        SchemaFault::KeyTypes(table) => {
            between(alloc, "foreign key of ", table.as_str(), " does not match")
        }
        SchemaFault::CheckTypes(table) => {
            between(alloc, "check of ", table.as_str(), " does not type")
        }
        SchemaFault::TooMany(_) | SchemaFault::NoMemory => Ok(String::new(alloc)),
    }
}

// A field, and what is wrong with it.
fn field_text(
    alloc: Global,
    number: usize,
    column: usize,
    wrong: &str,
) -> Result<String, AllocError>
    ensures { IfOk result (λ s. string_bytes s ≡ codes "record " ++ (decimal number ++ (codes ", column " ++ (decimal column ++ wrong.now)))) }
{
    format!(in alloc; "record {number}, column {column}{wrong}")
}

fn load_text(alloc: Global, fault: &LoadFault) -> Result<String, AllocError>
    ensures { IfOk result (λ s. string_bytes s ≡ load_text fault.now) }
{
    match fault {
        LoadFault::BadHeader => String::from_str(alloc, "header differs from the schema"),
        LoadFault::FieldCount(record) => {
            format!(in alloc; "record {record} has another number of fields")
        }
        LoadFault::BadInteger(record, column) => {
            field_text(alloc, *record, *column, ": not an integer")
        }
        LoadFault::BadText(record, column) => field_text(alloc, *record, *column, ": not UTF-8"),
        LoadFault::TooManyRows | LoadFault::NoMemory => Ok(String::new(alloc)),
    }
}

fn sql_text(alloc: Global, fault: &SqlFault) -> Result<String, AllocError>
    ensures { IfOk result (λ s. string_bytes s ≡ sql_text fault.now) }
{
    match fault {
        SqlFault::Unsupported(word, _) => labelled(alloc, "not supported: ", word.as_str()),
        SqlFault::TooDeep => String::from_str(alloc, "nested too deep"),
        SqlFault::Syntax(at) => syntax_text(alloc, *at),
        SqlFault::NoMemory => Ok(String::new(alloc)),
    }
}

fn name_text(alloc: Global, fault: &NameFault) -> Result<String, AllocError>
    ensures { IfOk result (λ s. string_bytes s ≡ name_text fault.now) }
{
    match fault {
        NameFault::UnknownTable(name) => labelled(alloc, "unknown table: ", name.as_str()),
        NameFault::UnknownColumn(name) => labelled(alloc, "unknown column: ", name.as_str()),
        NameFault::Ambiguous(name) => labelled(alloc, "ambiguous column: ", name.as_str()),
        NameFault::DuplicateAlias(name) => labelled(alloc, "alias twice: ", name.as_str()),
        NameFault::TypeMismatch => String::from_str(alloc, "types do not match"),
        NameFault::Columns => String::from_str(alloc, "numbers of columns differ"),
        NameFault::ArithWidth => String::from_str(alloc, "arithmetic past 128 bits"),
        NameFault::NoMemory => Ok(String::new(alloc)),
    }
}

// The text of a limit; `most` is the work limit in force.
fn limit_text(alloc: Global, most: u64, limit: &Limit) -> Result<String, AllocError>
    ensures { IfOk result (λ s. string_bytes s ≡ limit_text most limit.now) }
{
    match limit {
        Limit::TooLong(part) => {
            let part = part_text(alloc, part)?;
            format!(in alloc; "{part} is longer than 4194304 bytes")
        }
        Limit::Tables => String::from_str(alloc, "more than 64 tables"),
        Limit::Columns(table) => {
            between(alloc, "table ", table.as_str(), " has more than 64 columns")
        }
        Limit::Rules(table) => between(alloc, "table ", table.as_str(), " has more than 64 rules"),
        Limit::Rows => String::from_str(alloc, "more than 2000 rows"),
        Limit::Work(work) => format!(in alloc; "work {work} is above {most}"),
    }
}

/// The error in a text, without a line end; empty for out of memory and for what is a limit.
pub fn fault_text(alloc: Global, fault: &Fault) -> Result<Bytes, NoMemory>
    ensures { IfOk result (λ text. text ≡ fault_text fault.now) }
{
    let text = fault_words(alloc, fault)?;
    List::from_slice(alloc, text.as_bytes())
}

/// The line of a refusal, a limit or an error of reading. `work_limit` is the one in force. Empty
/// for every other outcome.
pub fn refusal_line(alloc: Global, outcome: &Outcome, work_limit: u64) -> Result<Bytes, NoMemory>
    ensures { IfOk result (λ text. text ≡ refusal_line work_limit outcome.now) }
{
    let text = line(alloc, work_limit, outcome)?;
    List::from_slice(alloc, text.as_bytes())
}

fn line(alloc: Global, most: u64, outcome: &Outcome) -> Result<String, AllocError>
    ensures { IfOk result (λ s. string_bytes s ≡ refusal_line most outcome.now) }
{
    match outcome {
        Outcome::Refused(part, fault) => {
            let part = part_text(alloc, part)?;
            let fault = fault_words(alloc, fault)?;
            format!(in alloc; "ratest: {part}: {fault}\n")
        }
        Outcome::Limit(limit) => {
            let limit = limit_text(alloc, most, limit)?;
            between(alloc, "ratest: limit: ", limit.as_str(), "\n")
        }
        Outcome::ReadFault(part) => {
            let part = part_text(alloc, part)?;
            between(alloc, "ratest: cannot read ", part.as_str(), "\n")
        }
        Outcome::Agree
        | Outcome::Witness(_)
        | Outcome::Usage
        | Outcome::Spent(_)
        | Outcome::WriteFault
        | Outcome::NoMemory => Ok(String::new(alloc)),
    }
}
