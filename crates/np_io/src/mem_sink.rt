ghost use Rattle.std.specs.Prelude.{◌≡◌, ◌+◌, ◌≤◌, ◌++◌, ◌∷◌, [], length, Some, is_err, is_ok, if◌then◌else◌, IfOk, OnErr, MatchResult};
ghost use Rattle.std.specs.Prelude.{vec_len, vec_capacity};
ghost use Rattle.std.specs.Io.{WritesAtMost};
ghost use Rattle.std.specs.Io.KnownBytes.{WriteAppends};
ghost use Rattle.np_io.specs.Causes.{Rose};
ghost use Rattle.np_io.specs.MemSink.{will_fail, room_for, after_writing, after_fault};

use super::fault::Fault;
use super::sink::Sink;
use np_syntax::Memory;
use std::alloc::Global;
use std::marker::Model;

/// A sink in memory. A call takes at most `piece` bytes, and no more than are reserved. The calls
/// whose numbers are listed fail.
pub struct MemSink {
    bytes: Vec<u8>,
    free: usize,
    piece: usize,
    failing: Vec<u64>,
    calls: u64,
    faults: u64,
}

impl Drop for MemSink {
    fn drop(self) {
        let MemSink {
            bytes: _,
            free: _,
            piece: _,
            failing: _,
            calls: _,
            faults: _,
        } = self;
    }
}

impl Model for MemSink {
    ghost use Rattle.std.specs.Prelude.{◌+◌, ◌≤◌, vec_len, vec_capacity};
    ghost use Rattle.np_io.specs.MemSink.{SinkState};

    ghost Value = { SinkState };

    ghost view = { λ sink. record {
      bytes = sink.bytes.items;
      free = sink.free;
      piece = sink.piece;
      failing = sink.failing.items;
      calls = sink.calls;
      faults = sink.faults;
    } };

    ghost invariant = { λ sink. record {
      room : vec_len sink.bytes + sink.free ≤ vec_capacity sink.bytes;
      piece : 1 ≤ sink.piece;
    } };
}

impl MemSink {
    /// An empty sink that takes at most `piece` bytes a call. No bytes are reserved.
    pub fn new(alloc: Global, piece: usize) -> MemSink
        requires { 1 ≤ piece }
        ensures { result ≡ record {
          bytes = [];
          free = 0;
          piece = piece;
          failing = [];
          calls = 0;
          faults = 0;
        } }
    {
        MemSink {
            bytes: Vec::new(alloc),
            free: 0,
            piece,
            failing: Vec::new(alloc),
            calls: 0,
            faults: 0,
        }
    }

    /// Reserves room for `bytes` more bytes than there is room for now.
    pub fn reserve(&mut self, bytes: usize) -> Result<(), Memory>
        ensures { self.new ≡ (if is_ok result
            then record self.old { free = self.old.free + bytes } else self.old) }
    {
        let Some(free) = self.free.checked_add(bytes) else {
            return Err(Memory);
        };
        self.bytes.reserve(free)?;
        self.free = free;
        Ok(())
    }

    /// Makes the write of that number fail, counted from 0.
    pub fn fail(&mut self, call: u64) -> Result<(), Memory>
        ensures { self.new ≡ (if is_ok result
            then record self.old { failing = self.old.failing ++ call ∷ [] } else self.old) }
    {
        self.failing.push(call)?;
        Ok(())
    }

    /// What was written.
    pub fn bytes(&self) -> &[u8]
        ensures { result.now ≡ self.now.bytes }
    {
        self.bytes.as_slice()
    }
}

impl Sink for MemSink {
    ghost faults = { λ sink. sink.faults };

    ghost written = { λ sink. Some sink.bytes };

    fn write(&mut self, piece: &[u8]) -> Result<usize, Fault>
        ensures later { self.old.faults ≤ self.new.faults }
        ensures cause { OnErr result (Rose self.old.faults self.new.faults) }
        ensures bound { WritesAtMost result piece.now }
        ensures bytes { WriteAppends (Some self.old.bytes) (Some self.new.bytes) result piece.now }
        ensures some { IfOk result (λ n. n ≡ 0 → piece.now ≡ []) }
        ensures fails { is_err result ≡ will_fail self.old piece.now }
        ensures after { MatchResult result
            (λ n. (n ≡ room_for self.old piece.now) × (self.new ≡ after_writing self.old piece.now))
            (λ _. self.new ≡ after_fault self.old) }
    {
        let fails = self.failing.contains(&self.calls) || (self.free == 0 && !piece.is_empty());
        self.calls = self.calls.saturating_add(1);
        if fails {
            self.faults = self.faults.saturating_add(1);
            return Err(Fault);
        }
        let count = self.piece.min(piece.len()).min(self.free);
        fill(&mut self.bytes, &piece[..count]);
        self.free -= count;
        Ok(count)
    }
}

/// Appends the piece, for which there is room.
fn fill(bytes: &mut Vec<u8>, piece: &[u8])
    requires { vec_len bytes.old + length piece.now ≤ vec_capacity bytes.old }
    ensures items { bytes.new.items ≡ bytes.old.items ++ piece.now }
    ensures room { vec_capacity bytes.old ≤ vec_capacity bytes.new }
{
    for byte in piece {
        match bytes.push(*byte) {
            Ok(()) => {}
            Err(_) => unreachable!(),
        }
    }
}
