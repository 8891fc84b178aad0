//! Certificates as texts, a checker that records its accepted steps, and the check of recorded
//! steps.
//!
//! A certificate says which rows make a smallest witness, or that there is none. It has the steps
//! of a proof by reverse unit propagation, as in LRAT, that there is none with fewer rows.

#![tactic(auto)]

mod cert;
mod check;
mod claim;
mod encoded;
mod fault;
mod lines;
mod pieces;
mod reader;
mod reading;
mod recorder;
mod writer;

pub use cert::{Cert, Step};
pub use check::{Checked, check_steps};
pub use encoded::Encoded;
pub use fault::CertFault;
pub use reader::read_cert;
pub use recorder::Recorder;
pub use writer::cert_text;
