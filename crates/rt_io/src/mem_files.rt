//! Files for tests: what they hold, how much one read gives and which calls fail is set
//! beforehand. Looking names up in a list is private.

ghost use Rattle.std.specs.Prelude.{◌≡◌, ◌≢◌, ◌+◌, ◌-◌, ◌^◌, ◌<◌, ◌≤◌, ◌++◌, ◌∷◌, ◌↔◌, ℕ, List, [], true, false, vec_len, length, drop, take, min, Some, None, OnOk, OnErr, IfOk, IfSome, IsOkAnd, IsErr, IsErrOf, IsTrue, Contains};
ghost use Rattle.std.specs.Option.{ForSome};
ghost use Rattle.rt_io.specs.Edge.{AddsPrefix, Rose, OnlyRises, NoneFell};
ghost use Rattle.rt_io.specs.Failing.{is_named, is_failing};
ghost use Rattle.rt_io.specs.Gave.{given_by, is_end, reading_of};

use crate::counts::{Entry, enter, name_at, raise};
use crate::files::{BeginFail, Failed, Files};
use crate::gave::{Gave, Note, is_end};
use crate::held::{Held, find, give, put};
use rt_value::{Bytes, List, NoMemory, Txt};
use std::alloc::Global;

// The current file: its entry among the counts, its bytes, how far they are read, and by how
// many reads.
#[derive(Drop)]
struct Current {
    entry: usize,
    bytes: Bytes,
    at: usize,
    reads: u64,
}

/// A read that is to fail: the name, and its number after a begin, from 1.
#[derive(Drop)]
pub(crate) struct FailingRead {
    pub(crate) name: Txt,
    pub(crate) read: u64,
}

/// Files in memory, whose calls can be made to fail. A begin of a name that isn't held fails too.
#[derive(Drop)]
pub struct MemFiles {
    alloc: Global,
    files: Vec<Held>,
    entries: Vec<Entry>,
    current: Option<Current>,
    piece: usize,
    failing_begins: Vec<Txt>,
    failing_reads: Vec<FailingRead>,
    gave: Gave,
    ghost is_counted: { ForSome current (λ c. c.entry < vec_len entries) },
    ghost in_range: { ForSome current (λ c. c.at ≤ length c.bytes) },
    ghost some_piece: { 0 < piece },
}

impl MemFiles {
    ghost use Rattle.rt_io.specs.MemFiles.{has_of, held_of, current_of, left_of, taken_of, faults_of, begun_of, gave_of, piece_of, failing_begins, failing_reads, SameFiles, SameSettings};

    /// No files. Reads give as much as fits, and no call is set to fail.
    pub fn new(alloc: Global) -> MemFiles
        ensures has { (name : List ℕ) → has_of result name ≡ false }
        ensures held { (name : List ℕ) → held_of result name ≡ [] }
        ensures faults { (name : List ℕ) → faults_of result name ≡ 0 }
        ensures current { current_of result ≡ None }
        ensures begun { begun_of result ≡ [] }
        ensures begins { failing_begins result ≡ [] }
        ensures reads { failing_reads result ≡ [] }
    {
        MemFiles {
            alloc,
            files: Vec::new(alloc),
            entries: Vec::new(alloc),
            current: None,
            piece: usize::MAX,
            failing_begins: Vec::new(alloc),
            failing_reads: Vec::new(alloc),
            gave: Gave::new(),
        }
    }

    /// Holds these bytes under this name, in place of what it held there. A current file is read
    /// on as it was when it was begun.
    pub fn hold(&mut self, name: &str, bytes: &[u8]) -> Result<(), NoMemory>
        ensures has { OnOk result (has_of self.new name.now ≡ true) }
        ensures held { OnOk result (held_of self.new name.now ≡ bytes.now) }
        ensures others_has { (other : List ℕ) → other ≢ name.now → has_of self.new other ≡ has_of self.old other }
        ensures others { (other : List ℕ) → other ≢ name.now → held_of self.new other ≡ held_of self.old other }
        ensures err { OnErr result (held_of self.new ≡ held_of self.old) }
        ensures current { current_of self.new ≡ current_of self.old }
        ensures left { left_of self.new ≡ left_of self.old }
        ensures taken { taken_of self.new ≡ taken_of self.old }
        ensures faults { faults_of self.new ≡ faults_of self.old }
        ensures begun { begun_of self.new ≡ begun_of self.old }
        ensures settings { SameSettings self.old self.new }
    {
        put(self.alloc, &mut self.files, name, bytes)
    }

    /// From now on a read gives at most `n` bytes.
    pub fn piece(&mut self, n: usize)
        requires { 0 < n }
        ensures piece { piece_of self.new ≡ n }
        ensures begins { failing_begins self.new ≡ failing_begins self.old }
        ensures reads { failing_reads self.new ≡ failing_reads self.old }
        ensures same { SameFiles self.old self.new }
    {
        self.piece = n;
    }

    /// From now on each begin of this name fails.
    pub fn fail_begin(&mut self, name: &str) -> Result<(), NoMemory>
        ensures ok { OnOk result (failing_begins self.new ≡ failing_begins self.old ++ name.now ∷ []) }
        ensures err { OnErr result (failing_begins self.new ≡ failing_begins self.old) }
        ensures piece { piece_of self.new ≡ piece_of self.old }
        ensures reads { failing_reads self.new ≡ failing_reads self.old }
        ensures same { SameFiles self.old self.new }
    {
        let name = Txt::of(self.alloc, name)?;
        self.failing_begins.push(name)?;
        Ok(())
    }

    /// From now on the read with this number after a begin of this name fails, counted from 1.
    pub fn fail_read(&mut self, name: &str, read: u64) -> Result<(), NoMemory>
        ensures ok { OnOk result (failing_reads self.new ≡ failing_reads self.old ++ record { name = name.now; read = read } ∷ []) }
        ensures err { OnErr result (failing_reads self.new ≡ failing_reads self.old) }
        ensures piece { piece_of self.new ≡ piece_of self.old }
        ensures begins { failing_begins self.new ≡ failing_begins self.old }
        ensures same { SameFiles self.old self.new }
    {
        let name = Txt::of(self.alloc, name)?;
        self.failing_reads.push(FailingRead { name, read })?;
        Ok(())
    }
}

// Whether a name is among these.
fn is_named(names: &[Txt], name: &str) -> bool
    ensures { result ≡ is_named names.now name.now }
{
    names.iter().any(|failing| failing.as_str() == name)
}

// Whether this read of a name is among these.
fn is_failing(fails: &[FailingRead], name: &str, read: u64) -> bool
    ensures { result ≡ is_failing fails.now name.now read }
{
    fails.iter().any(|failing| failing.name.as_str() == name && failing.read == read)
}

impl Files for MemFiles {
    ghost use Rattle.rt_io.specs.MemFiles.{has_of, held_of, current_of, left_of, taken_of, faults_of, begun_of, gave_of, piece_of, failing_begins, failing_reads, reads_of, SameSettings};

    ghost tells = { true };

    ghost has = { has_of };

    ghost held = { held_of };

    ghost current = { current_of };

    ghost left = { left_of };

    ghost taken = { taken_of };

    ghost faults = { faults_of };

    ghost begun = { begun_of };

    ghost gave = { gave_of };

    fn begin(&mut self, name: &str) -> Result<(), BeginFail>
        ensures reads { OnOk result (reads_of self.new ≡ 0) }
        ensures fails { IsTrue (is_named (failing_begins self.old) name.now) → IsErr result }
        ensures cause { IsErrOf result BeginFail.Failed → IsTrue (has_of self.old name.now) → IsTrue (is_named (failing_begins self.old) name.now) }
        ensures settings { SameSettings self.old self.new }
        // The contract of `Files`.
        ensures current { OnOk result (current_of self.new ≡ Some name.now) }
        ensures start { OnOk result (IsTrue true → left_of self.new ≡ held_of self.old name.now) }
        ensures there { OnOk result (IsTrue true → IsTrue (has_of self.old name.now)) }
        ensures err { OnErr result (current_of self.new ≡ None) }
        ensures failed { IsErrOf result BeginFail.Failed → Rose (faults_of self.old name.now) (faults_of self.new name.now) }
        ensures taken { taken_of self.new ≡ 0 }
        ensures begun { AddsPrefix (begun_of self.old) (begun_of self.new) (name.now ∷ []) }
        ensures begun_ok { OnOk result (begun_of self.new ≡ begun_of self.old ++ name.now ∷ []) }
        ensures begun_failed { IsErrOf result BeginFail.Failed → begun_of self.new ≡ begun_of self.old ++ name.now ∷ [] }
        ensures has { has_of self.new ≡ has_of self.old }
        ensures held { held_of self.new ≡ held_of self.old }
        ensures gave { OnOk result (gave_of self.new ≡ reading_of name.now [] false ∷ gave_of self.old) }
        ensures gave_err { OnErr result (gave_of self.new ≡ gave_of self.old) }
        ensures calm { OnOk result ((other : List ℕ) → faults_of self.new other ≡ faults_of self.old other) }
        ensures rises { OnlyRises name.now (faults_of self.old) (faults_of self.new) }
    {
        self.current = None;
        let entry = self.entries.len();
        if enter(self.alloc, &mut self.entries, name).is_err() {
            return Err(BeginFail::NoMemory);
        }
        if is_named(self.failing_begins.as_slice(), name) {
            raise(&mut self.entries, entry);
            return Err(BeginFail::Failed);
        }
        let Some(found) = find(self.files.as_slice(), name) else {
            raise(&mut self.entries, entry);
            return Err(BeginFail::Failed);
        };
        let Ok(bytes) = List::from_slice(self.alloc, found.as_slice()) else {
            return Err(BeginFail::NoMemory);
        };
        self.gave = self.gave.with(&Note::Begun(name));
        self.current = Some(Current {
            entry,
            bytes,
            at: 0,
            reads: 0,
        });
        Ok(())
    }

    fn read(&mut self, buf: &mut [u8]) -> Result<usize, Failed>
        ensures piece { IfOk result (λ n. n ≤ piece_of self.old) }
        ensures reads { IfSome (current_of self.old) (λ _. reads_of self.new ≡ min (reads_of self.old + 1) (2 ^ 64 - 1)) }
        ensures fails { IfSome (current_of self.old) (λ name. IsErr result ↔ (IsTrue (is_failing (failing_reads self.old) name (reads_of self.new)))) }
        ensures settings { SameSettings self.old self.new }
        // The contract of `Files`.
        ensures bound { IfOk result (λ n. n ≤ length buf.new) }
        ensures next { IfOk result (λ n. IsTrue true → left_of self.old ≡ take n buf.new ++ left_of self.new) }
        ensures end { IfOk result (λ n. IsTrue true → n ≡ 0 → 0 < length buf.new → left_of self.new ≡ []) }
        ensures idle { current_of self.old ≡ None → IsOkAnd result (λ n. n ≡ 0) }
        ensures taken { IfOk result (λ n. taken_of self.new ≡ min (taken_of self.old + n) (2 ^ 64 - 1)) }
        ensures failed { OnErr result (IfSome (current_of self.old) (λ name. Rose (faults_of self.old name) (faults_of self.new name))) }
        ensures err_left { OnErr result (left_of self.new ≡ left_of self.old) }
        ensures err_taken { OnErr result (taken_of self.new ≡ taken_of self.old) }
        ensures current { current_of self.new ≡ current_of self.old }
        ensures begun { begun_of self.new ≡ begun_of self.old }
        ensures has { has_of self.new ≡ has_of self.old }
        ensures held { held_of self.new ≡ held_of self.old }
        ensures gave { IfOk result (λ n. gave_of self.new ≡ given_by (current_of self.old) (take n buf.new) (is_end n (length buf.new)) (gave_of self.old)) }
        ensures gave_err { OnErr result (gave_of self.new ≡ gave_of self.old) }
        ensures calm { OnOk result ((name : List ℕ) → faults_of self.new name ≡ faults_of self.old name) }
        ensures same { (name : List ℕ) → current_of self.old ≢ Some name → faults_of self.new name ≡ faults_of self.old name }
        ensures rises { NoneFell (faults_of self.old) (faults_of self.new) }
    {
        match &mut self.current {
            None => Ok(0),
            Some(current) => {
                current.reads = current.reads.saturating_add(1);
                let name = name_at(self.entries.as_slice(), current.entry);
                if is_failing(self.failing_reads.as_slice(), name, current.reads) {
                    raise(&mut self.entries, current.entry);
                    return Err(Failed);
                }
                let n = give(&current.bytes.as_slice()[current.at..], buf, self.piece);
                current.at += n;
                let ended = is_end(n, buf.len());
                self.gave = self.gave.with(&Note::Read(&buf[..n], ended));
                Ok(n)
            }
        }
    }
}
