//! The certificate in a file: at most 64 MiB, and read before anything is said of it.

ghost use Rattle.std.specs.Prelude.{◌≡◌, [], ◌∷◌, IsTrue, IfOk, IfErr};
ghost use Rattle.rt_io.specs.Edge.{AddsPrefix, OnlyRises};
ghost use Rattle.rt_io.specs.Gave.{Adds};
ghost use Rattle.rt_recorder.specs.Certificate.{IsCert, cert_text};
ghost use Rattle.rt_input.specs.Steps.{over};
ghost use Rattle.rt_cert.specs.CertFile.{FileStops, IsFileOf, IsTextOf, TextStops};

use rt_input::without_mark;
use rt_io::{Files, ReadFail, read_file};
use rt_recorder::{Cert, CertFault, read_cert};
use rt_value::{Bytes, NoMemory, Txt};
use std::alloc::Global;

// The most bytes of the file: 64 MiB.
const MOST_BYTES: usize = 67_108_864;

/// Why a file has no certificate.
#[derive(Clone, Copy, PartialEq, Eq, Debug)]
pub(crate) enum FileFault {
    /// The first line that no certificate has there, counted from 1.
    BadLine(usize),
    /// The file has too many bytes.
    Long,
    /// The file could not be read.
    Unread,
    NoMemory,
}

impl From<NoMemory> for FileFault {
    ghost use Rattle.std.specs.Prelude.{◌≡◌};
    ghost use Rattle.rt_cert.specs.declared.file.FileFault.TheVariants.{NoMemory as memory};

    ghost from_gives = { λ _ fault. fault ≡ memory };

    fn from(_e: NoMemory) -> FileFault {
        FileFault::NoMemory
    }
}

// The text of the named file, without a byte order mark at its start.
fn read_text<F: Files>(alloc: Global, name: &Txt, files: &mut F) -> Result<Bytes, FileFault>
    ensures ok { IfOk result (λ text. IsTrue F.tells → IsTextOf (F.held files.old name.now) text) }
    ensures err { IfErr result (FileStops (over F.Files files.old files.new) name.now) }
    ensures adds { Adds (F.gave files.old) (F.gave files.new) }
    ensures begun { AddsPrefix (F.begun files.old) (F.begun files.new) (name.now ∷ []) }
    ensures has { F.has files.new ≡ F.has files.old }
    ensures held { F.held files.new ≡ F.held files.old }
    ensures rises { OnlyRises name.now (F.faults files.old) (F.faults files.new) }
{
    match read_file(alloc, files, name.as_str(), MOST_BYTES) {
        Ok(bytes) => Ok(without_mark(alloc, bytes)?),
        Err(ReadFail::Failed) => Err(FileFault::Unread),
        Err(ReadFail::TooLong) => Err(FileFault::Long),
        Err(ReadFail::NoMemory) => Err(FileFault::NoMemory),
    }
}

// The certificate of a text.
fn cert_of(alloc: Global, text: &[u8]) -> Result<Cert, FileFault>
    ensures ok { IfOk result (λ cert. IsCert cert × (text.now ≡ cert_text cert)) }
    ensures err { IfErr result (TextStops text.now) }
{
    match read_cert(alloc, text) {
        Ok(cert) => Ok(cert),
        Err(CertFault::BadLine(line)) => Err(FileFault::BadLine(line)),
        Err(CertFault::NoMemory) => Err(FileFault::NoMemory),
    }
}

/// The certificate in the named file.
pub(crate) fn cert_in<F: Files>(alloc: Global, name: &Txt, files: &mut F) -> Result<Cert, FileFault>
    ensures ok { IfOk result (λ cert. IsTrue F.tells → IsFileOf (F.held files.old name.now) cert) }
    ensures err { IfErr result (FileStops (over F.Files files.old files.new) name.now) }
    ensures adds { Adds (F.gave files.old) (F.gave files.new) }
    ensures begun { AddsPrefix (F.begun files.old) (F.begun files.new) (name.now ∷ []) }
    ensures has { F.has files.new ≡ F.has files.old }
    ensures held { F.held files.new ≡ F.held files.old }
    ensures rises { OnlyRises name.now (F.faults files.old) (F.faults files.new) }
{
    let text = read_text(alloc, name, files)?;
    cert_of(alloc, text.as_slice())
}
