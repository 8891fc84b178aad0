//! The texts of a command, from its files or generated.

ghost use Rattle.std.specs.Prelude.{◌≡◌, ◌≢◌, ◌≤◌, [], ◌∷◌, ◌++◌, IsTrue, IfOk, IfErr, OnOk, Ok};
ghost use Rattle.rt_io.specs.Edge.{AddsPrefix, NoneFell, OnlyRises};
ghost use Rattle.rt_io.specs.Gave.{Adds, Fits};
ghost use Rattle.rt_input.specs.Begun.{EndsAt, part_files};
ghost use Rattle.rt_input.specs.Source.{IsKnown, IsMade, file_name};
ghost use Rattle.rt_input.specs.Held.{Holding, most_bytes, text_read, file_text, text_of, without_mark};
ghost use Rattle.rt_input.specs.Placed.{IsPlaceless};
ghost use Rattle.rt_input.specs.Steps.{over, SpeaksOf, Stops, TextStops};
ghost use Rattle.rt_input.specs.declared.outcome.Outcome.TheVariants as outcomes;
ghost use Rattle.rt_input.specs.declared.source.Source.TheVariants as sources;

use crate::outcome::{Limit, Outcome};
use crate::part::Part;
use crate::source::{Paths, Source, made_part};
use rt_io::{Files, ReadFail, read_file};
use rt_value::{Bytes, List, NoMemory, Txt};
use std::alloc::Global;

// The most bytes of a file.
const MOST_BYTES: usize = 4_194_304;

/// The text of the named file, without a byte order mark (EF BB BF) at its start. An error names
/// the part.
pub fn read_text<F: Files>(
    alloc: Global,
    part: Part,
    name: &Txt,
    files: &mut F,
) -> Result<Bytes, Outcome>
    ensures ok { IfOk result (λ text. IsTrue F.tells → text_read part (F.held files.old name.now) ≡ Ok text) }
    ensures err { IfErr result (TextStops (over F.Files files.old files.new) name.now part) }
    // A file is too long exactly if more bytes of it were taken than it may have.
    ensures within { OnOk result (F.taken files.new ≤ most_bytes) }
    ensures given { IfOk result (λ text. (h : Holding) → Fits h (F.gave files.old) (F.gave files.new) → text_read part (h name.now) ≡ Ok text) }
    ensures adds { Adds (F.gave files.old) (F.gave files.new) }
    ensures begun { AddsPrefix (F.begun files.old) (F.begun files.new) (name.now ∷ []) }
    ensures begun_ok { OnOk result (F.begun files.new ≡ F.begun files.old ++ name.now ∷ []) }
    ensures begun_err { IfErr result (λ o. o ≢ outcomes.NoMemory → F.begun files.new ≡ F.begun files.old ++ name.now ∷ []) }
    ensures has { F.has files.new ≡ F.has files.old }
    ensures held { F.held files.new ≡ F.held files.old }
    ensures rises { OnlyRises name.now (F.faults files.old) (F.faults files.new) }
{
    match read_file(alloc, files, name.as_str(), MOST_BYTES) {
        Ok(bytes) => Ok(without_mark(alloc, bytes)?),
        Err(ReadFail::Failed) => Err(Outcome::ReadFault(part)),
        Err(ReadFail::TooLong) => Err(Outcome::Limit(Limit::TooLong(part))),
        Err(ReadFail::NoMemory) => Err(Outcome::NoMemory),
    }
}

/// The bytes without a byte order mark at their start.
pub fn without_mark(alloc: Global, bytes: Bytes) -> Result<Bytes, NoMemory>
    ensures { IfOk result (λ text. text ≡ without_mark bytes) }
{
    match bytes.as_slice() {
        [0xEF, 0xBB, 0xBF, rest @ ..] => List::from_slice(alloc, rest),
        _ => Ok(bytes),
    }
}

fn file_text<F: Files>(
    alloc: Global,
    files: &mut F,
    paths: &Paths,
    part: Part,
) -> Result<Bytes, Outcome>
    ensures ok { IfOk result (λ text. IsTrue F.tells → file_text part (F.held files.old) (file_name paths.now part) ≡ Ok text) }
    ensures err { IfErr result (Stops (over F.Files files.old files.new) (sources.Files paths.now) (file_text part (F.held files.old) (file_name paths.now part)) (λ p. p ≡ part)) }
    ensures place { IfErr result IsPlaceless }
    ensures speaks { IfErr result (SpeaksOf (λ p. p ≡ part)) }
    ensures given { IfOk result (λ text. (h : Holding) → Fits h (F.gave files.old) (F.gave files.new) → file_text part h (file_name paths.now part) ≡ Ok text) }
    ensures adds { Adds (F.gave files.old) (F.gave files.new) }
    ensures begun { AddsPrefix (F.begun files.old) (F.begun files.new) (part_files (sources.Files paths.now) part) }
    ensures begun_ok { OnOk result (F.begun files.new ≡ F.begun files.old ++ part_files (sources.Files paths.now) part) }
    ensures last { IfErr result (λ o. EndsAt (sources.Files paths.now) o (F.begun files.old) (F.begun files.new)) }
    ensures has { F.has files.new ≡ F.has files.old }
    ensures held { F.held files.new ≡ F.held files.old }
    ensures rises { NoneFell (F.faults files.old) (F.faults files.new) }
{
    match paths.file(alloc, &part)? {
        Some(name) => read_text(alloc, part, &name, files),
        None => Ok(List::new(alloc)),
    }
}

/// The text of a part: that of its file, or the generated one.
pub(crate) fn source_text<F: Files>(
    alloc: Global,
    files: &mut F,
    source: &Source,
    part: Part,
) -> Result<Bytes, Outcome>
    ensures ok { IfOk result (λ text. IsKnown F.tells source.now → text_of source.now (F.held files.old) part ≡ Ok text) }
    ensures err { IfErr result (Stops (over F.Files files.old files.new) source.now (text_of source.now (F.held files.old) part) (λ p. p ≡ part)) }
    ensures place { IfErr result IsPlaceless }
    ensures speaks { IfErr result (SpeaksOf (λ p. p ≡ part)) }
    ensures given { IfOk result (λ text. (h : Holding) → Fits h (F.gave files.old) (F.gave files.new) → text_of source.now h part ≡ Ok text) }
    ensures adds { Adds (F.gave files.old) (F.gave files.new) }
    ensures begun { AddsPrefix (F.begun files.old) (F.begun files.new) (part_files source.now part) }
    ensures begun_ok { OnOk result (F.begun files.new ≡ F.begun files.old ++ part_files source.now part) }
    ensures last { IfErr result (λ o. EndsAt source.now o (F.begun files.old) (F.begun files.new)) }
    ensures made { IsMade source.now → files.new ≡ files.old }
    ensures has { F.has files.new ≡ F.has files.old }
    ensures held { F.held files.new ≡ F.held files.old }
    ensures rises { NoneFell (F.faults files.old) (F.faults files.new) }
{
    match source {
        Source::Files(paths) => file_text(alloc, files, paths, part),
        Source::Made(texts) => Ok(made_part(alloc, texts, &part)?),
    }
}
