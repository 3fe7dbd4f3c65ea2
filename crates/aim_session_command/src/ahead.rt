//! Bytes of a source that are read ahead.

ghost use Rattle.std.specs.Prelude.{◌≡◌, ◌⊎◌, ◌<◌, [], ◌∷◌, length, nat_lt, IfOk, OnErr};
ghost use Rattle.std.specs.Bool.{OnFalse, OnTrue};
ghost use Rattle.std.specs.Io.KnownBytes.{IsAtEnd, Keeps, prepend_known};
ghost use Rattle.aim_io.specs.Causes.{HasCause};
ghost use Rattle.aim_io.specs.Lines.{HasNoEnd};
ghost use Rattle.aim_session_command.specs.Reading.{GivesByte, ReadsPiece, WasHeld};

use aim_io::{Failed, Source};
use memchr::memchr;
use std::marker::Model;

// The room for bytes that are read ahead.
const ROOM: usize = 65_536;

// Whether a line ends in these bytes.
fn ends_line(bytes: &[u8]) -> bool
    ensures { OnTrue result (HasNoEnd bytes.now → ⊥) }
{
    match memchr(b'\n', bytes) {
        Some(_) => true,
        None => false,
    }
}

/// Bytes of a source that were read ahead. Contracts see those that are still to be taken.
#[derive(Drop)]
pub(crate) struct Ahead {
    bytes: [u8; ROOM],
    start: usize,
    end: usize,
}

impl Model for Ahead {
    ghost use Rattle.std.specs.Prelude.{ℕ, List, ◌≤◌, drop, take};

    ghost Value = { List ℕ };

    ghost view = { λ a. drop a.start (take a.end a.bytes) };

    ghost invariant = { λ a. (a.start ≤ a.end) × (a.end ≤ 65536) };
}

impl Ahead {
    /// Nothing was read.
    pub(crate) fn new() -> Ahead
        ensures { result ≡ [] }
    {
        Ahead {
            bytes: [0; ROOM],
            start: 0,
            end: 0,
        }
    }

    /// Whether the end of a line was read: then the next line is there without a read.
    pub(crate) fn has_line(&self) -> bool
        ensures { OnTrue result (HasNoEnd self.now → ⊥) }
    {
        ends_line(&self.bytes[self.start..self.end])
    }

    // Reads a piece where none is held, and says whether there was one.
    fn fill<S: Source>(&mut self, source: &mut S) -> Result<bool, Failed>
        requires { self.old ≡ [] }
        ensures keeps { Keeps (S.left source.old) (prepend_known self.new (S.left source.new)) }
        ensures some { IfOk result (λ more. OnTrue more (0 < length self.new)) }
        ensures none { IfOk result (λ more. OnFalse more ((self.new ≡ []) × IsAtEnd (S.left source.new))) }
        ensures err { OnErr result (self.new ≡ []) }
        ensures piece { ReadsPiece (S.left source.old) (S.left source.new) (S.last_read source.new) }
        ensures cause { HasCause (S.faults source.old) (S.faults source.new) result }
    {
        self.start = 0;
        self.end = 0;
        let count = source.read(&mut self.bytes)?;
        self.end = count;
        Ok(count > 0)
    }

    // Whether a byte is held.
    fn has_byte(&self) -> bool
        ensures { result ≡ nat_lt 0 (length self.now) }
    {
        self.start < self.end
    }

    // Takes the first byte that is held.
    fn first(&mut self) -> u8
        requires { 0 < length self.old }
        ensures { self.old ≡ result ∷ self.new }
    {
        let byte = self.bytes[self.start];
        self.start += 1;
        byte
    }

    /// Takes the next byte, if there is one. It is read only where none is held.
    pub(crate) fn next<S: Source>(&mut self, source: &mut S) -> Result<Option<u8>, Failed>
        ensures gives { GivesByte result (prepend_known self.old (S.left source.old)) (prepend_known self.new (S.left source.new)) }
        ensures from { ((source.new ≡ source.old) × WasHeld result self.old self.new)
            ⊎ ((self.old ≡ []) × ReadsPiece (S.left source.old) (S.left source.new) (S.last_read source.new)) }
        ensures err { OnErr result (self.new ≡ []) }
        ensures cause { HasCause (S.faults source.old) (S.faults source.new) result }
    {
        if self.has_byte() {
            return Ok(Some(self.first()));
        }
        match self.fill(source) {
            Err(failed) => Err(failed),
            Ok(false) => Ok(None),
            Ok(true) => Ok(Some(self.first())),
        }
    }
}
