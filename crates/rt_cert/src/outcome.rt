//! How the command of certificates ends, with its exit status.

ghost use Rattle.std.specs.Prelude.{◌≡◌};
ghost use Rattle.rt_cert.specs.Texts.{of_judgement, place, status_of};

use crate::judgement::{Judgement, Why};
use rt_input::Outcome;
use rt_io::Place;
use rt_recorder::{Cert, CertFault, Encoded};
use rt_value::Keep;

/// How a call of `cert_run` ends.
#[derive(Drop)]
pub enum CertOutcome {
    /// A certificate of the verdict on the input, and the encoding that its steps go on from.
    Proved(Cert, Encoded),
    /// The certificate is accepted: its choice of rows has the least size, or the queries agree.
    Valid(Option<Keep>),
    /// The file is no certificate.
    Malformed(CertFault),
    /// The certificate is rejected.
    Wrong(Why),
    /// The file of the certificate has too many bytes.
    CertLong,
    /// The file of the certificate could not be read.
    CertRead,
    /// An outcome that `ratest` has too: one that is no verdict, or the spent budget.
    Verdict(Outcome),
}

impl CertOutcome {
    /// The exit status of the program: 0 to 8.
    pub fn status(&self) -> u8
        ensures { result ≡ status_of self.now }
    {
        match self {
            CertOutcome::Proved(_, _) | CertOutcome::Valid(_) => 0,
            CertOutcome::Malformed(_) => 3,
            CertOutcome::Wrong(_) => 8,
            CertOutcome::CertLong => 5,
            CertOutcome::CertRead => 6,
            CertOutcome::Verdict(outcome) => outcome.status(),
        }
    }

    /// The sink of its text: standard output for what is asked for, standard error for the rest.
    pub(crate) fn place(&self) -> Place
        ensures { result ≡ place self.now }
    {
        match self {
            CertOutcome::Proved(_, _) | CertOutcome::Valid(_) => Place::Out,
            CertOutcome::Verdict(Outcome::Agree | Outcome::Witness(_) | Outcome::Spent(_)) => {
                Place::Out
            }
            _ => Place::Err,
        }
    }

    /// The outcome of a check.
    pub(crate) fn of(judgement: Judgement) -> CertOutcome
        ensures { result ≡ of_judgement judgement }
    {
        match judgement {
            Judgement::Valid(keep) => CertOutcome::Valid(keep),
            Judgement::Wrong(why) => CertOutcome::Wrong(why),
        }
    }
}
