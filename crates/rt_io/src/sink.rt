//! What text is written to, and how a whole text is written by writes that may take a part.
//! `write_text` is proved against the trait alone.

ghost use Rattle.std.specs.Prelude.{◌≡◌, ◌<◌, ◌≤◌, ◌++◌, ℕ, List, Bool, IsTrue, length, take, IfOk, OnOk, OnErr, IsErrOf};
ghost use Rattle.rt_io.specs.Edge.{Rose, AddsPrefix};

use thiserror::Error;

/// Why a piece was not taken.
#[derive(Clone, Copy, PartialEq, Eq, Debug, Error)]
pub enum SinkFail {
    #[error("the sink failed")]
    Failed,
    #[error("out of memory")]
    NoMemory,
}

/// What takes bytes, a piece at a time. A contract clause on its bytes holds only where the type's
/// `tells` is true.
pub trait Sink {
    /// Whether contracts know the bytes of this kind of sink.
    ghost tells: { Bool };

    /// The bytes that it holds, where they are known.
    ghost contents: { Self → List ℕ };

    /// How many of its calls failed, up to the last value of its counter.
    ghost faults: { Self → ℕ };

    /// Takes the first bytes of the piece, and answers how many. After an error none was taken.
    fn write(&mut self, bytes: &[u8]) -> Result<usize, SinkFail>
        ensures bound { IfOk result (λ n. n ≤ length bytes.now) }
        ensures ok { IfOk result (λ n. IsTrue tells → contents self.new ≡ contents self.old ++ take n bytes.now) }
        ensures err { OnErr result (IsTrue tells → contents self.new ≡ contents self.old) }
        ensures none { IfOk result (λ n. n ≡ 0 → 0 < length bytes.now → Rose (faults self.old) (faults self.new)) }
        ensures calm { IfOk result (λ n. 0 < n → faults self.new ≡ faults self.old) }
        ensures failed { IsErrOf result SinkFail.Failed → Rose (faults self.old) (faults self.new) }
        ensures rises { faults self.old ≤ faults self.new };
}

/// Writes all the bytes, or on an error a prefix of them.
pub fn write_text<S: Sink>(sink: &mut S, bytes: &[u8]) -> Result<(), SinkFail>
    ensures ok { OnOk result (IsTrue S.tells → S.contents sink.new ≡ S.contents sink.old ++ bytes.now) }
    ensures err { OnErr result (IsTrue S.tells → AddsPrefix (S.contents sink.old) (S.contents sink.new) bytes.now) }
    ensures calm { OnOk result (S.faults sink.new ≡ S.faults sink.old) }
    ensures failed { IsErrOf result SinkFail.Failed → Rose (S.faults sink.old) (S.faults sink.new) }
    ensures rises { S.faults sink.old ≤ S.faults sink.new }
{
    let mut at = 0;
    'pieces: while at < bytes.len() {
        let n = sink.write(&bytes[at..])?;
        if n == 0 {
            return Err(SinkFail::Failed);
        }
        at += n;
    }
    Ok(())
}
