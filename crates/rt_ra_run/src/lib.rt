//! The command `ra`: two algebra texts over the same tables, compared as two queries of SQL are.
//!
//! `specs/Judged.antt` says what is asked or refused, and `specs/Smallest.antt` what a
//! counterexample of two texts is. `specs/Answers.antt` says when each outcome comes and what is
//! written.

#![tactic(auto)]

mod asked;
mod command;
mod faults;
pub mod laws;
mod outcome;
mod query;
mod read;
mod run;
mod say;
mod verdicts;

pub use outcome::RaOutcome;
pub use run::ra_run;
pub use say::RA_USAGE;
