//! How a tool ends, with its exit status.

ghost use Rattle.std.specs.Prelude.{◌≡◌};
ghost use Rattle.rt_tools.specs.Texts.{place, status_of};

use rt_grade::{Grade, GradeFault};
use rt_input::{Outcome, Spent};
use rt_io::Place;
use rt_row::{RowFault, RowVerdict};
use rt_value::{Keep, List, Txt};

/// How a call of `tool_run` ends.
#[derive(Drop)]
pub enum ToolOutcome {
    /// The first of the smallest lawful choices of rows at which the first query alone answers
    /// with the row.
    RowWitness(Keep),
    /// There is no such choice.
    RowNever,
    /// The budget of conflicts for the row is spent.
    RowSpent(Spent),
    /// The text is no row of the first query's columns.
    RowRefused(RowFault),
    /// The list isn't UTF-8; its longest prefix that is has this many bytes.
    BadList(usize),
    /// The list has too many paths.
    TooManyPaths,
    /// The list has too many bytes.
    ListLong,
    /// The file of this name, the list or a candidate, could not be read.
    FileRead(Txt),
    /// The grades of the list's candidates, in its order.
    Grades(List<Grade>),
    /// An outcome that `ratest` has too, other than a verdict.
    Verdict(Outcome),
}

impl ToolOutcome {
    /// The exit status of the program: 0 to 7.
    pub fn status(&self) -> u8
        ensures { result ≡ status_of self.now }
    {
        match self {
            ToolOutcome::RowNever | ToolOutcome::Grades(_) => 0,
            ToolOutcome::RowWitness(_) => 1,
            ToolOutcome::RowRefused(_) | ToolOutcome::BadList(_) => 3,
            ToolOutcome::RowSpent(_) => 4,
            ToolOutcome::TooManyPaths | ToolOutcome::ListLong => 5,
            ToolOutcome::FileRead(_) => 6,
            ToolOutcome::Verdict(outcome) => outcome.status(),
        }
    }

    /// The sink of its text: answers go to standard output, the rest to standard error.
    pub(crate) fn place(&self) -> Place
        ensures { result ≡ place self.now }
    {
        match self {
            ToolOutcome::RowWitness(_)
            | ToolOutcome::RowNever
            | ToolOutcome::RowSpent(_)
            | ToolOutcome::Grades(_) => Place::Out,
            _ => Place::Err,
        }
    }
}

impl From<RowVerdict> for ToolOutcome {
    ghost use Rattle.std.specs.Prelude.{◌≡◌};
    ghost use Rattle.rt_tools.specs.Outcomes.{of_verdict};

    ghost from_gives = { λ verdict outcome. outcome ≡ of_verdict verdict };

    fn from(verdict: RowVerdict) -> ToolOutcome {
        match verdict {
            RowVerdict::Witness(keep) => ToolOutcome::RowWitness(keep),
            RowVerdict::Never => ToolOutcome::RowNever,
            RowVerdict::Spent(spent) => ToolOutcome::RowSpent(spent),
            RowVerdict::Refused(fault) => ToolOutcome::RowRefused(fault),
        }
    }
}

impl From<GradeFault> for ToolOutcome {
    ghost use Rattle.std.specs.Prelude.{◌≡◌};
    ghost use Rattle.rt_tools.specs.Outcomes.{of_fault};

    ghost from_gives = { λ fault outcome. outcome ≡ of_fault fault };

    fn from(fault: GradeFault) -> ToolOutcome {
        match fault {
            GradeFault::BadList(at) => ToolOutcome::BadList(at),
            GradeFault::TooManyPaths => ToolOutcome::TooManyPaths,
            GradeFault::ListLong => ToolOutcome::ListLong,
            GradeFault::FileRead(name) => ToolOutcome::FileRead(name),
            GradeFault::Verdict(outcome) => ToolOutcome::Verdict(outcome),
        }
    }
}
