//! A sink for tests: what it can hold and how much one write takes is set beforehand.

ghost use Rattle.std.specs.Prelude.{◌≡◌, ◌<◌, ◌≤◌, ◌-◌, ◌^◌, ◌++◌, [], true, min, length, take, Some, None, IfOk, OnOk, OnErr, IsErrOf, IsTrue};
ghost use Rattle.rt_io.specs.Edge.{Rose};

use crate::sink::{Sink, SinkFail};
use std::alloc::Global;

/// A sink in memory, which can be made to fail.
#[derive(Drop)]
pub struct MemSink {
    held: Vec<u8>,
    room: Option<usize>,
    piece: usize,
    faults: u64,
}

impl MemSink {
    ghost use Rattle.rt_io.specs.MemSink.{held_of, faults_of, room_of, piece_of, takes, SameSink};

    /// A sink without bytes and without limits.
    pub fn new(alloc: Global) -> MemSink
        ensures contents { held_of result ≡ [] }
        ensures faults { faults_of result ≡ 0 }
        ensures room { room_of result ≡ None }
        ensures piece { piece_of result ≡ 2 ^ 64 - 1 }
    {
        MemSink {
            held: Vec::new(alloc),
            room: None,
            piece: usize::MAX,
            faults: 0,
        }
    }

    /// Once `n` bytes are held, a piece that isn't empty fails; before that a write takes no more
    /// than fits.
    pub fn room(&mut self, n: usize)
        ensures room { room_of self.new ≡ Some n }
        ensures piece { piece_of self.new ≡ piece_of self.old }
        ensures same { SameSink self.old self.new }
    {
        self.room = Some(n);
    }

    /// From now on a write takes at most `n` bytes.
    pub fn piece(&mut self, n: usize)
        requires { 0 < n }
        ensures piece { piece_of self.new ≡ n }
        ensures room { room_of self.new ≡ room_of self.old }
        ensures same { SameSink self.old self.new }
    {
        self.piece = n;
    }

    /// What was written so far.
    pub fn bytes(&self) -> &[u8]
        ensures { result.now ≡ held_of self.now }
    {
        self.held.as_slice()
    }

    // How many of `n` bytes it takes.
    fn takes(&self, n: usize) -> usize
        ensures { result ≡ takes self.now n }
    {
        let fitting = match self.room {
            None => n,
            Some(room) => n.min(room.saturating_sub(self.held.len())),
        };
        fitting.min(self.piece)
    }
}

impl Sink for MemSink {
    ghost use Rattle.rt_io.specs.MemSink.{held_of, faults_of, room_of, piece_of, takes};

    ghost tells = { true };

    ghost contents = { held_of };

    ghost faults = { faults_of };

    fn write(&mut self, bytes: &[u8]) -> Result<usize, SinkFail>
        ensures takes { IfOk result (λ n. n ≡ takes self.old (length bytes.now)) }
        ensures some { IfOk result (λ n. 0 < length bytes.now → 0 < n) }
        ensures full { IsErrOf result SinkFail.Failed → (takes self.old (length bytes.now) ≡ 0) × (0 < length bytes.now) }
        ensures room { room_of self.new ≡ room_of self.old }
        ensures piece { piece_of self.new ≡ piece_of self.old }
        // The contract of `Sink`.
        ensures bound { IfOk result (λ n. n ≤ length bytes.now) }
        ensures ok { IfOk result (λ n. IsTrue true → held_of self.new ≡ held_of self.old ++ take n bytes.now) }
        ensures err { OnErr result (IsTrue true → held_of self.new ≡ held_of self.old) }
        ensures none { IfOk result (λ n. n ≡ 0 → 0 < length bytes.now → Rose (faults_of self.old) (faults_of self.new)) }
        ensures calm { IfOk result (λ n. 0 < n → faults_of self.new ≡ faults_of self.old) }
        ensures failed { IsErrOf result SinkFail.Failed → Rose (faults_of self.old) (faults_of self.new) }
        ensures rises { faults_of self.old ≤ faults_of self.new }
    {
        let n = self.takes(bytes.len());
        if n == 0 && !bytes.is_empty() {
            self.faults = self.faults.saturating_add(1);
            return Err(SinkFail::Failed);
        }
        if self.held.extend_from_slice(&bytes[..n]).is_err() {
            return Err(SinkFail::NoMemory);
        }
        Ok(n)
    }
}
