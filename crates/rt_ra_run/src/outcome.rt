//! How a call ends, its status and where its text goes.

ghost use Rattle.std.specs.Prelude.{◌≡◌};
ghost use Rattle.rt_ra_run.specs.Texts.{place, status_of};

use rt_input::{Outcome, Part};
use rt_io::Place;
use rt_ra_tree::RaFault;

/// How a call of `ra_run` ends.
#[derive(Drop)]
pub enum RaOutcome {
    /// As a call of `ratest` does. A refusal is one of the schema, of a table, or of the pair of
    /// queries.
    Verdict(Outcome),
    /// The first refusal is that of an algebra text.
    Refused(Part, RaFault),
}

impl RaOutcome {
    /// The status that the program ends with: 3 for a refused algebra text, and else that of the
    /// verdict.
    pub fn status(&self) -> u8
        ensures { result ≡ status_of self.now }
    {
        match self {
            RaOutcome::Verdict(outcome) => outcome.status(),
            RaOutcome::Refused(_, _) => 3,
        }
    }

    /// The sink of its text: the one for answers where two texts were decided on, else the other.
    pub(crate) fn place(&self) -> Place
        ensures { result ≡ place self.now }
    {
        match self {
            RaOutcome::Verdict(Outcome::Agree | Outcome::Witness(_) | Outcome::Spent(_)) =>
                Place::Out,
            _ => Place::Err,
        }
    }
}
