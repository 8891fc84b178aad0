//! Files as the programs see them: begun by name, read piece by piece, able to fail at any call.
//! `read_file` is proved against the trait alone, so it holds for each kind of files.

ghost use Rattle.std.specs.Prelude.{◌≡◌, ◌≢◌, ◌+◌, ◌-◌, ◌^◌, min, ◌<◌, ◌≤◌, ◌++◌, ◌∷◌, ℕ, List, [], Bool, IsTrue, false, true, Option, Some, None, length, take, IfOk, OnOk, OnErr, IsErrOf, IfSome, IsOkAnd};
ghost use Rattle.rt_io.specs.Edge.{AddsPrefix, Rose, OnlyRises, NoneFell};
ghost use Rattle.rt_io.specs.Gave.{Adds, Fits, Reading, given_by, is_end, reading_of};

use rt_value::{Bytes, List, NoMemory};
use std::alloc::Global;
use thiserror::Error;

/// Why a file could not be begun.
#[derive(Clone, Copy, PartialEq, Eq, Debug, Error)]
pub enum BeginFail {
    #[error("the file can't be read")]
    Failed,
    #[error("out of memory")]
    NoMemory,
}

/// That the current file could not be read on.
#[derive(Clone, Copy, PartialEq, Eq, Debug)]
pub struct Failed;

/// Why the contents of a file were not read.
#[derive(Clone, Copy, PartialEq, Eq, Debug, Error)]
pub enum ReadFail {
    #[error("the file can't be read")]
    Failed,
    #[error("the file is too long")]
    TooLong,
    #[error("out of memory")]
    NoMemory,
}

/// What gives the bytes of files by their names, one file after the other.
///
/// A contract clause on contents holds only where the type's `tells` is true. Counts start at 0
/// for every name, and a name's count rises by the failed calls on that name alone.
pub trait Files {
    /// Whether contracts know the contents of this type's files.
    ghost tells: { Bool };

    /// Whether there is a file of this name, where that is known.
    ghost has: { Self → List ℕ → Bool };

    /// The contents of each name, where they are known.
    ghost held: { Self → List ℕ → List ℕ };

    /// The name of the current file.
    ghost current: { Self → Option (List ℕ) };

    /// The bytes of the current file that aren't read yet, where they are known.
    ghost left: { Self → List ℕ };

    /// How many bytes of the current file were read, up to the last value of a `u64`.
    ghost taken: { Self → ℕ };

    /// How many calls on a name failed, up to the last value of its counter.
    ghost faults: { Self → List ℕ → ℕ };

    /// The names that were begun, in order, with those whose begin failed.
    ghost begun: { Self → List (List ℕ) };

    /// What the reads gave, for each name that was begun, the newest first.
    ghost gave: { Self → List Reading };

    /// Makes the named file the current one, at its start. After an error no file is current. When
    /// out of memory, the name may be among those that were begun or not.
    fn begin(&mut self, name: &str) -> Result<(), BeginFail>
        ensures current { OnOk result (current self.new ≡ Some name.now) }
        ensures start { OnOk result (IsTrue tells → left self.new ≡ held self.old name.now) }
        ensures there { OnOk result (IsTrue tells → IsTrue (has self.old name.now)) }
        ensures err { OnErr result (current self.new ≡ None) }
        ensures failed { IsErrOf result BeginFail.Failed → Rose (faults self.old name.now) (faults self.new name.now) }
        ensures taken { taken self.new ≡ 0 }
        ensures begun { AddsPrefix (begun self.old) (begun self.new) (name.now ∷ []) }
        ensures begun_ok { OnOk result (begun self.new ≡ begun self.old ++ name.now ∷ []) }
        ensures begun_failed { IsErrOf result BeginFail.Failed → begun self.new ≡ begun self.old ++ name.now ∷ [] }
        ensures has { has self.new ≡ has self.old }
        ensures held { held self.new ≡ held self.old }
        ensures gave { OnOk result (gave self.new ≡ reading_of name.now [] false ∷ gave self.old) }
        ensures gave_err { OnErr result (gave self.new ≡ gave self.old) }
        ensures calm { OnOk result ((other : List ℕ) → faults self.new other ≡ faults self.old other) }
        ensures rises { OnlyRises name.now (faults self.old) (faults self.new) };

    /// Puts the next bytes of the current file in front and answers how many these are. 0 is the
    /// end of the file, unless `buf` is empty, and it is the answer where no file is current.
    fn read(&mut self, buf: &mut [u8]) -> Result<usize, Failed>
        ensures bound { IfOk result (λ n. n ≤ length buf.new) }
        ensures next { IfOk result (λ n. IsTrue tells → left self.old ≡ take n buf.new ++ left self.new) }
        ensures end { IfOk result (λ n. IsTrue tells → n ≡ 0 → 0 < length buf.new → left self.new ≡ []) }
        ensures idle { current self.old ≡ None → IsOkAnd result (λ n. n ≡ 0) }
        ensures taken { IfOk result (λ n. taken self.new ≡ min (taken self.old + n) (2 ^ 64 - 1)) }
        ensures failed { OnErr result (IfSome (current self.old) (λ name. Rose (faults self.old name) (faults self.new name))) }
        ensures err_left { OnErr result (left self.new ≡ left self.old) }
        ensures err_taken { OnErr result (taken self.new ≡ taken self.old) }
        ensures current { current self.new ≡ current self.old }
        ensures begun { begun self.new ≡ begun self.old }
        ensures has { has self.new ≡ has self.old }
        ensures held { held self.new ≡ held self.old }
        ensures gave { IfOk result (λ n. gave self.new ≡ given_by (current self.old) (take n buf.new) (is_end n (length buf.new)) (gave self.old)) }
        ensures gave_err { OnErr result (gave self.new ≡ gave self.old) }
        ensures calm { OnOk result ((name : List ℕ) → faults self.new name ≡ faults self.old name) }
        ensures same { (name : List ℕ) → current self.old ≢ Some name → faults self.new name ≡ faults self.old name }
        ensures rises { NoneFell (faults self.old) (faults self.new) };
}

/// The whole contents of a file of at most `max` bytes, whatever pieces the reads give.
///
/// A file is too long exactly where `max + 1` bytes of it were taken.
pub fn read_file<F: Files>(
    alloc: Global,
    files: &mut F,
    name: &str,
    max: usize,
) -> Result<Bytes, ReadFail>
    requires { max < 2 ^ 62 }
    ensures ok { IfOk result (λ bytes. IsTrue F.tells → bytes ≡ F.held files.old name.now) }
    ensures there { OnOk result (IsTrue F.tells → IsTrue (F.has files.old name.now)) }
    ensures taken { IfOk result (λ bytes. F.taken files.new ≡ length bytes) }
    ensures within { IfOk result (λ bytes. length bytes ≤ max) }
    ensures failed { IsErrOf result ReadFail.Failed → Rose (F.faults files.old name.now) (F.faults files.new name.now) }
    ensures failed_within { IsErrOf result ReadFail.Failed → F.taken files.new ≤ max }
    ensures too_long { IsErrOf result ReadFail.TooLong → F.taken files.new ≡ max + 1 }
    ensures too_long_current { IsErrOf result ReadFail.TooLong → F.current files.new ≡ Some name.now }
    // Of all files this one alone is begun.
    ensures begun { AddsPrefix (F.begun files.old) (F.begun files.new) (name.now ∷ []) }
    ensures begun_ok { OnOk result (F.begun files.new ≡ F.begun files.old ++ name.now ∷ []) }
    ensures begun_failed { IsErrOf result ReadFail.Failed → F.begun files.new ≡ F.begun files.old ++ name.now ∷ [] }
    ensures begun_long { IsErrOf result ReadFail.TooLong → F.begun files.new ≡ F.begun files.old ++ name.now ∷ [] }
    ensures longer { IsErrOf result ReadFail.TooLong → IsTrue F.tells → max < length (F.held files.old name.now) }
    // The bytes are just those that the reads gave, up to one that gave nothing.
    ensures gave { IfOk result (λ bytes. F.gave files.new ≡ reading_of name.now bytes true ∷ F.gave files.old) }
    ensures gave_long { IsErrOf result ReadFail.TooLong → (bytes : List ℕ) × (F.gave files.new ≡ reading_of name.now bytes false ∷ F.gave files.old) × (max < length bytes) }
    ensures adds { Adds (F.gave files.old) (F.gave files.new) }
    ensures told { IsTrue F.tells → Fits (F.held files.old) (F.gave files.old) (F.gave files.new) }
    ensures has { F.has files.new ≡ F.has files.old }
    ensures held { F.held files.new ≡ F.held files.old }
    ensures calm { OnOk result ((other : List ℕ) → F.faults files.new other ≡ F.faults files.old other) }
    ensures rises { OnlyRises name.now (F.faults files.old) (F.faults files.new) }
{
    match files.begin(name) {
        Ok(()) => {}
        Err(BeginFail::Failed) => return Err(ReadFail::Failed),
        Err(BeginFail::NoMemory) => return Err(ReadFail::NoMemory),
    }
    let mut bytes = List::new(alloc);
    let mut buf = [0u8; 4096];
    'reads: while bytes.len() <= max {
        let want = buf.len().min(max + 1 - bytes.len());
        let n = match files.read(&mut buf[..want]) {
            Ok(n) => n,
            Err(Failed) => return Err(ReadFail::Failed),
        };
        if n == 0 {
            return Ok(bytes);
        }
        if bytes.extend(&buf[..n]).is_err() {
            return Err(ReadFail::NoMemory);
        }
    }
    Err(ReadFail::TooLong)
}
