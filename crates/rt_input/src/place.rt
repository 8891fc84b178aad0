//! Where an outcome is printed.

ghost use Rattle.std.specs.Prelude.{◌≡◌};
ghost use Rattle.rt_input.specs.Texts.{place};

use crate::outcome::Outcome;
use rt_io::Place;

impl Outcome {
    /// The sink of its text: verdicts go to standard output, the rest to standard error.
    pub fn place(&self) -> Place
        ensures { result ≡ place self.now }
    {
        match self {
            Outcome::Agree | Outcome::Witness(_) | Outcome::Spent(_) => Place::Out,
            _ => Place::Err,
        }
    }
}
