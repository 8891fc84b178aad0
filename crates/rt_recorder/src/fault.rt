//! The errors of reading a certificate.

ghost use Rattle.std.specs.Prelude.{◌≡◌};
ghost use Rattle.rt_recorder.specs.declared.fault.CertFault.TheVariants as faults;

use rt_value::NoMemory;

/// Why a text is no certificate.
#[derive(Clone, Copy, PartialEq, Eq, Debug)]
pub enum CertFault {
    /// The first line that no certificate has there, counted from 1. If the text ends too early,
    /// it is the line after the last one.
    BadLine(usize),
    NoMemory,
}

impl From<NoMemory> for CertFault {
    ghost from_gives = { λ _ fault. fault ≡ faults.NoMemory };

    fn from(_e: NoMemory) -> CertFault {
        CertFault::NoMemory
    }
}
