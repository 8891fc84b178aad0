//! Certificates of an input: that a choice of rows is a counterexample of the least size, or that
//! the queries agree on every lawful sub-instance.
//!
//! One is written by a search, and checked without any: the checker encodes the input anew and
//! goes along the steps. What it accepts holds, whoever wrote the certificate.
//!
//! The clauses are those of the formula of the counterexamples. If a choice of rows is to be
//! beaten, those of a counter of the kept rows follow, up to that choice's number. Nothing of
//! them comes from a search, so that whoever writes a certificate and whoever checks it have the
//! same lines.
//!
//! The command of certificates does both: it writes one of an input, or checks one.

#![tactic(auto)]

mod check_told;
mod checking;
mod claim;
mod encoding;
mod file;
mod goal;
mod input;
mod judgement;
mod lines;
mod outcome;
mod places;
mod prove_told;
mod proving;
mod refutation;
mod run;
mod say;
mod told;

pub use checking::check;
pub use input::encode;
pub use judgement::{Judgement, Why};
pub use outcome::CertOutcome;
pub use proving::{Proof, prove};
pub use rt_recorder::{Encoded, Recorder, cert_text, check_steps, read_cert};
pub use run::cert_run;
pub use say::CERT_USAGE;
