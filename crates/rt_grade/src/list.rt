//! The list of candidates in a file.

ghost use Rattle.std.specs.Prelude.{◌≡◌, [], ◌∷◌, ◌++◌, IsTrue, IfOk, IfErr, OnOk, Ok};
ghost use Rattle.rt_io.specs.Edge.{AddsPrefix, OnlyRises};
ghost use Rattle.rt_input.specs.Steps.{over};
ghost use Rattle.rt_grade.specs.Begun.{FailsLast};
ghost use Rattle.rt_grade.specs.Listing.{ListStops, PathsStop, list_judged, paths_judged};

use crate::grade_fault::GradeFault;
use crate::paths::read_paths;
use crate::paths_fault::PathsFault;
use rt_input::{Outcome, Part, read_text};
use rt_io::Files;
use rt_value::{List, Txt};
use std::alloc::Global;

fn paths_of(alloc: Global, text: &[u8]) -> Result<List<Txt>, GradeFault>
    ensures ok { IfOk result (λ paths. paths_judged text.now ≡ Ok paths) }
    ensures err { IfErr result (PathsStop (paths_judged text.now)) }
{
    match read_paths(alloc, text) {
        Ok(paths) => Ok(paths),
        Err(PathsFault::NotUtf8(at)) => Err(GradeFault::BadList(at)),
        Err(PathsFault::TooMany) => Err(GradeFault::TooManyPaths),
        Err(PathsFault::NoMemory) => Err(GradeFault::Verdict(Outcome::NoMemory)),
    }
}

/// The paths in the list of that name.
pub(crate) fn read_list<F: Files>(
    alloc: Global,
    list: &Txt,
    files: &mut F,
) -> Result<List<Txt>, GradeFault>
    ensures ok { IfOk result (λ paths. IsTrue F.tells → list_judged (F.held files.old list.now) ≡ Ok paths) }
    ensures err { IfErr result (ListStops (over F.Files files.old files.new) list.now) }
    ensures begun { AddsPrefix (F.begun files.old) (F.begun files.new) (list.now ∷ []) }
    ensures begun_ok { OnOk result (F.begun files.new ≡ F.begun files.old ++ list.now ∷ []) }
    ensures last { IfErr result (λ fault. FailsLast fault (F.begun files.old) (F.begun files.new)) }
    ensures has { F.has files.new ≡ F.has files.old }
    ensures held { F.held files.new ≡ F.held files.old }
    ensures rises { OnlyRises list.now (F.faults files.old) (F.faults files.new) }
{
    // The part is in none of the answers.
    match read_text(alloc, Part::Query2, list, files) {
        Ok(text) => paths_of(alloc, text.as_slice()),
        Err(Outcome::ReadFault(_)) => Err(GradeFault::FileRead(list.copy(alloc)?)),
        Err(Outcome::Limit(_)) => Err(GradeFault::ListLong),
        Err(_) => Err(GradeFault::Verdict(Outcome::NoMemory)),
    }
}
