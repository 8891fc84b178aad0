//! The text of a certificate, line by line. What may come next is the state of `reading`.

ghost use Rattle.std.specs.Prelude.{◌≡◌, ℕ};
ghost use Rattle.rt_recorder.specs.Certificate.{IsCert, cert_text};
ghost use Rattle.rt_recorder.specs.Lines.{IsBadLine, IsFirstBad, IsOfCert, IsRead};

use crate::cert::Cert;
use crate::fault::CertFault;
use crate::pieces::span;
use crate::reading::Reading;
use std::alloc::Global;

fn read(alloc: Global, text: &[u8]) -> Result<Cert, CertFault>
    ensures { IsRead text.now result }
{
    let mut reading = Reading::Head;
    let mut rest = text;
    let mut n = 1;
    let mut end = span(rest, b'\n');
    'lines: while end < rest.len() {
        let (line, behind) = rest.split_at(end);
        reading = match reading.next(alloc, line)? {
            None => return Err(CertFault::BadLine(n)),
            Some(next) => next,
        };
        rest = behind.split_at(1).1;
        n += 1;
        end = span(rest, b'\n');
    }
    if !rest.is_empty() {
        return Err(CertFault::BadLine(n));
    }
    match reading {
        Reading::Ended(cert) => Ok(cert),
        _ => Err(CertFault::BadLine(n)),
    }
}

/// The certificate of which this is the text, or the number of its first bad line.
pub fn read_cert(alloc: Global, text: &[u8]) -> Result<Cert, CertFault>
    ensures read { IsRead text.now result }
    ensures one { (c : Cert) → IsCert c → text.now ≡ cert_text c → IsOfCert c result }
    ensures first { (n : ℕ) → IsFirstBad text.now n → IsBadLine n result }
{
    read(alloc, text)
}
