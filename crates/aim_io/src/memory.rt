// Sources and sinks in memory, which fail at the calls that they are told.
ghost use Rattle.std.specs.Prelude.{◌≡◌, ◌+◌, ◌-◌, ◌<◌, ◌≤◌, ◌==◌, ◌||◌, ◌&&◌, ◌++◌, [], Some, List, ℕ, length, drop, take, min, nat_lt, if◌then◌else◌, IfOk, OnOk, false, is_err};
ghost use Rattle.std.specs.Io.{ReadsAtMost, WritesAtMost};
ghost use Rattle.std.specs.Io.KnownBytes.{Keeps, ReadConsumes, WriteAppends};
ghost use Rattle.aim_io.specs.Causes.{HasCause, counted};
ghost use Rattle.aim_io.specs.Memory.{Supply, Store, is_listed};
ghost use Rattle.aim_io.specs.Pieces.{TellsLast};

use crate::{Failed, Sink, Source};
use std::alloc::{AllocError, Global};
use std::marker::Model;

/// The answer for want of memory.
pub type NoMemory = AllocError;

/// A source of bytes in memory, which fails at the calls that it is told. It tells its bytes.
#[derive(Drop)]
pub struct MemSource {
    bytes: Vec<u8>,
    at: usize,
    failing: Vec<u64>,
    calls: u64,
    faults: u64,
    last: usize,
}

impl Model for MemSource {
    ghost use Rattle.std.specs.Prelude.{◌≤◌, drop, vec_len};
    ghost use Rattle.aim_io.specs.Memory.{Supply};

    ghost Value = { Supply };

    ghost view = { λ s. record { left = drop s.at s.bytes.items; failing = s.failing.items; calls = s.calls; faults = s.faults; last = s.last } };

    ghost invariant = { λ s. s.at ≤ vec_len s.bytes };
}

impl MemSource {
    /// A source of `bytes`. The calls of `read` whose numbers, counted from 0, are in `failing`
    /// fail. Takes no memory of its own.
    pub fn new(bytes: Vec<u8>, failing: Vec<u64>) -> MemSource
        ensures { result ≡ record { left = bytes.items; failing = failing.items; calls = 0; faults = 0; last = 0 } }
    {
        MemSource {
            bytes,
            at: 0,
            failing,
            calls: 0,
            faults: 0,
            last: 0,
        }
    }
}

impl Source for MemSource {
    ghost left = { λ s. Some s.left };

    ghost faults = { λ s. s.faults };

    ghost last_read = { λ s. Some s.last };

    // A call that fails changes nothing but the counts and what it gave. Another takes as many bytes as fit.
    fn read(&mut self, buf: &mut [u8]) -> Result<usize, Failed>
        ensures bound { ReadsAtMost result buf.new }
        ensures bytes { ReadConsumes (Some self.old.left) (Some self.new.left) result buf.new }
        ensures cause { HasCause self.old.faults self.new.faults result }
        ensures last { TellsLast (Some self.new.last) result }
        ensures fails { is_err result ≡ is_listed self.old.failing self.old.calls }
        ensures most { IfOk result (λ n. n ≡ min (length self.old.left) (length buf.new)) }
        ensures counts { self.new ≡ record self.old {
          left = self.new.left;
          calls = counted self.old.calls;
          faults = if is_err result then counted self.old.faults else self.old.faults;
          last = self.new.last;
        } }
    {
        let call = self.calls;
        self.calls = call.saturating_add(1);
        self.last = 0;
        if self.failing.contains(&call) {
            self.faults = self.faults.saturating_add(1);
            return Err(Failed);
        }
        let count = copy_front(&self.bytes, self.at, buf);
        self.at += count;
        self.last = count;
        Ok(count)
    }
}

// Copies what fits of the bytes from a place on, and says how many.
fn copy_front(bytes: &[u8], at: usize, buf: &mut [u8]) -> usize
    requires { at ≤ length bytes.now }
    ensures most { result ≡ min (length bytes.now - at) (length buf.new) }
    ensures copied { drop at bytes.now ≡ take result buf.new ++ drop (at + result) bytes.now }
{
    let count = (bytes.len() - at).min(buf.len());
    buf[..count].copy_from_slice(&bytes[at..at + count]);
    count
}

/// A source of bytes in memory that never fails. It tells its bytes.
#[derive(Drop)]
pub struct CleanSource {
    bytes: Vec<u8>,
    at: usize,
}

impl Model for CleanSource {
    ghost use Rattle.std.specs.Prelude.{◌≤◌, List, ℕ, drop, vec_len};

    ghost Value = { List ℕ };

    ghost view = { λ s. drop s.at s.bytes.items };

    ghost invariant = { λ s. s.at ≤ vec_len s.bytes };
}

impl CleanSource {
    /// A source of `bytes`. Takes no memory of its own.
    pub fn new(bytes: Vec<u8>) -> CleanSource
        ensures { result ≡ bytes.items }
    {
        CleanSource { bytes, at: 0 }
    }
}

impl Source for CleanSource {
    ghost left = { λ s. Some s };

    ghost faults = { λ _. 0 };

    // Takes as many bytes as fit.
    fn read(&mut self, buf: &mut [u8]) -> Result<usize, Failed>
        ensures bound { ReadsAtMost result buf.new }
        ensures bytes { ReadConsumes (Some self.old) (Some self.new) result buf.new }
        ensures cause { HasCause 0 0 result }
        ensures most { result ≡ Ok (min (length self.old) (length buf.new)) }
    {
        let count = copy_front(&self.bytes, self.at, buf);
        self.at += count;
        Ok(count)
    }
}

/// A sink in memory with a room that never grows, which fails at the calls that it is told. It
/// tells its bytes.
#[derive(Drop)]
pub struct MemSink {
    bytes: Vec<u8>,
    len: usize,
    failing: Vec<u64>,
    calls: u64,
    faults: u64,
}

impl Model for MemSink {
    ghost use Rattle.std.specs.Prelude.{◌≤◌, take, vec_len};
    ghost use Rattle.aim_io.specs.Memory.{Store};

    ghost Value = { Store };

    ghost view = { λ s. record { held = take s.len s.bytes.items; room = vec_len s.bytes; failing = s.failing.items; calls = s.calls; faults = s.faults } };

    ghost invariant = { λ s. s.len ≤ vec_len s.bytes };
}

impl MemSink {
    /// A sink with room for `room` bytes, all of which it makes here. The calls of `write` whose
    /// numbers, counted from 0, are in `failing` fail.
    pub fn new(alloc: Global, room: u32, failing: Vec<u64>) -> Result<MemSink, NoMemory>
        ensures { IfOk result (λ s. s ≡ record { held = []; room = room; failing = failing.items; calls = 0; faults = 0 }) }
    {
        let bytes = vec![in alloc; 0; room as usize]?;
        Ok(MemSink {
            bytes,
            len: 0,
            failing,
            calls: 0,
            faults: 0,
        })
    }

    /// What was written.
    pub fn bytes(&self) -> &[u8]
        ensures held { result.now ≡ self.now.held }
        ensures room { length result.now ≤ self.now.room }
    {
        &self.bytes[..self.len]
    }
}

impl Sink for MemSink {
    ghost held = { λ s. Some s.held };

    ghost kept_back = { λ _. [] };

    ghost faults = { λ s. s.faults };

    // A call that fails changes nothing but the counts. Another adds as many bytes as have room.
    fn write(&mut self, piece: &[u8]) -> Result<usize, Failed>
        ensures bound { WritesAtMost result piece.now }
        ensures some { IfOk result (λ n. 0 < length piece.now → 0 < n) }
        ensures bytes { WriteAppends (Some self.old.held) (Some self.new.held) result piece.now }
        ensures cause { HasCause self.old.faults self.new.faults result }
        ensures fails { is_err result ≡ (is_listed self.old.failing self.old.calls || (length self.old.held == self.old.room && nat_lt 0 (length piece.now))) }
        ensures most { IfOk result (λ n. n ≡ min (self.old.room - length self.old.held) (length piece.now)) }
        ensures counts { self.new ≡ record self.old {
          held = self.new.held;
          calls = counted self.old.calls;
          faults = if is_err result then counted self.old.faults else self.old.faults;
        } }
    {
        let call = self.calls;
        self.calls = call.saturating_add(1);
        let count = (self.bytes.len() - self.len).min(piece.len());
        if self.failing.contains(&call) || (count == 0 && !piece.is_empty()) {
            self.faults = self.faults.saturating_add(1);
            return Err(Failed);
        }
        put_at(&mut self.bytes, self.len, &piece[..count]);
        self.len += count;
        Ok(count)
    }

    // Nothing is kept back.
    fn settle(&mut self) -> Result<(), Failed>
        ensures bytes { Keeps (Some self.old.held) (Some self.new.held) }
        ensures settled { OnOk result (◌≡◌ {A = List ℕ} [] []) }
        ensures cause { HasCause self.old.faults self.new.faults result }
        ensures same { self.new ≡ self.old }
        ensures ok { is_err result ≡ false }
    {
        Ok(())
    }
}

// Writes a piece over what stands at a place.
fn put_at(bytes: &mut [u8], at: usize, piece: &[u8])
    requires { at + length piece.now ≤ length bytes.old }
    ensures { take (at + length piece.now) bytes.new ≡ take at bytes.old ++ piece.now }
{
    bytes[at..at + piece.len()].copy_from_slice(piece);
}
