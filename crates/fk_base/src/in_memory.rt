ghost use Rattle.std.specs.Prelude.{◌≡◌, ◌↔◌, ℕ, ◌+◌, ◌<◌, ◌≤◌, [], length, min, Some, IsTrue, IfOk};
ghost use Rattle.fk_base.specs.Faults.{Rose};
ghost use Rattle.fk_base.specs.InMemory.{called, fails_next, refuses};
ghost use Rattle.fk_base.specs.Sink.{WriteTakes};
ghost use Rattle.fk_base.specs.Source.{ReadGives};

use crate::bytes::Bytes;
use crate::calls::Calls;
use crate::memory::NoMemory;
use crate::sink::{Put, Sink};
use crate::source::{Got, Source};
use std::alloc::Global;
use std::marker::Model;

/// A source over bytes in memory, of which chosen reads fail. A read gives as much as fits.
#[derive(Drop)]
pub struct MemSource {
    bytes: Bytes,
    given: usize,
    calls: Calls,
}

impl Model for MemSource {
    ghost use Rattle.std.specs.Prelude.{◌≤◌, drop, length};
    ghost use Rattle.fk_base.specs.InMemory.{Supply};

    ghost Value = { Supply };

    ghost view = { λ s. record { left = drop s.given s.bytes; calls = s.calls } };

    ghost invariant = { λ s. s.given ≤ length s.bytes };
}

impl MemSource {
    /// `failing` are the numbers of the reads that fail, from 1.
    pub fn new(alloc: Global, bytes: &[u8], failing: &[u64]) -> Result<MemSource, NoMemory>
        ensures bytes { IfOk result (λ s. s.left ≡ bytes.now) }
        ensures calls { IfOk result (λ s. s.calls ≡ record { made = 0; failing = failing.now; faults = 0 }) }
    {
        Ok(MemSource {
            bytes: Bytes::from_slice(alloc, bytes)?,
            given: 0,
            calls: Calls::new(alloc, failing)?,
        })
    }

    /// How many reads have failed.
    pub fn faults(&self) -> u64
        ensures { result ≡ self.now.calls.faults }
    {
        self.calls.faults
    }
}

impl Source for MemSource {
    ghost left = { λ s. Some s.left };

    ghost faults = { λ s. s.calls.faults };

    fn read(&mut self, into: &mut [u8]) -> Got
        requires { 0 < length into.old }
        ensures gives { ReadGives (Some self.old.left) (Some self.new.left) into.new result }
        ensures cause { result ≡ Got.Failed → Rose self.old.calls.faults self.new.calls.faults }
        ensures later { self.old.calls.faults ≤ self.new.calls.faults }

        // It fails exactly where the call's number is listed, and else gives as much as fits.
        ensures fails { (result ≡ Got.Failed) ↔ IsTrue (fails_next self.old.calls) }
        ensures most { (n : ℕ) → result ≡ Got.Bytes n → n ≡ min (length into.old) (length self.old.left) }
        ensures calls { self.new.calls ≡ called (fails_next self.old.calls) self.old.calls }
    {
        let failed = self.calls.fails_next();
        self.calls.count(failed);
        if failed {
            return Got::Failed;
        }
        let left = &self.bytes.as_slice()[self.given..];
        if left.is_empty() {
            return Got::End;
        }
        let count = into.len().min(left.len());
        into[..count].copy_from_slice(&left[..count]);
        self.given += count;
        Got::Bytes(count)
    }
}

/// A sink in memory with room for so many bytes, of which chosen writes fail. It takes whole pieces.
#[derive(Drop)]
pub struct MemSink {
    bytes: Vec<u8>,
    room: usize,
    calls: Calls,
}

impl Model for MemSink {
    ghost use Rattle.std.specs.Prelude.{◌+◌, ◌≤◌, vec_capacity, vec_len};
    ghost use Rattle.fk_base.specs.InMemory.{Store};

    ghost Value = { Store };

    ghost view = { λ s. record { taken = s.bytes.items; room = s.room; calls = s.calls } };

    ghost invariant = { λ s. vec_len s.bytes + s.room ≤ vec_capacity s.bytes };
}

impl MemSink {
    /// `failing` are the numbers of the writes that fail, from 1. Takes the memory for all its room.
    pub fn new(alloc: Global, room: usize, failing: &[u64]) -> Result<MemSink, NoMemory>
        ensures empty { IfOk result (λ s. s.taken ≡ []) }
        ensures room { IfOk result (λ s. s.room ≡ room) }
        ensures calls { IfOk result (λ s. s.calls ≡ record { made = 0; failing = failing.now; faults = 0 }) }
    {
        Ok(MemSink {
            bytes: Vec::with_capacity(alloc, room)?,
            room,
            calls: Calls::new(alloc, failing)?,
        })
    }

    /// The bytes that were taken.
    pub fn as_slice(&self) -> &[u8]
        ensures { result.now ≡ self.now.taken }
    {
        self.bytes.as_slice()
    }

    /// How many writes have failed.
    pub fn faults(&self) -> u64
        ensures { result ≡ self.now.calls.faults }
    {
        self.calls.faults
    }
}

impl Sink for MemSink {
    ghost taken = { λ s. Some s.taken };

    ghost faults = { λ s. s.calls.faults };

    fn write(&mut self, piece: &[u8]) -> Put
        requires { 0 < length piece.now }
        ensures takes { WriteTakes (Some self.old.taken) (Some self.new.taken) piece.now result }
        ensures cause { result ≡ Put.Failed → Rose self.old.calls.faults self.new.calls.faults }
        ensures later { self.old.calls.faults ≤ self.new.calls.faults }

        // It fails exactly where the call's number is listed or the piece has no room, and else takes the whole piece.
        ensures fails { (result ≡ Put.Failed) ↔ IsTrue (refuses self.old piece.now) }
        ensures whole { (n : ℕ) → result ≡ Put.Took n → n ≡ length piece.now }
        ensures room { length self.new.taken + self.new.room ≡ length self.old.taken + self.old.room }
        ensures calls { self.new.calls ≡ called (refuses self.old piece.now) self.old.calls }
    {
        let failed = self.calls.fails_next() || self.room < piece.len();
        self.calls.count(failed);
        if failed {
            return Put::Failed;
        }
        self.bytes.extend_from_slice(piece).unwrap();
        self.room -= piece.len();
        Put::Took(piece.len())
    }
}
