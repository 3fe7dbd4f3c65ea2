//! Reads a whole script.

ghost use Rattle.std.specs.Prelude.{◌≡◌, ◌+◌, ◌<◌, ◌≤◌, [], Err, None, Some, length, IfOk, if◌then◌else◌};
ghost use Rattle.aim_io.specs.Reader.{fresh};
ghost use Rattle.aim_script_reading.specs.declared.decisions.Why.TheVariants as why;
ghost use Rattle.aim_script_reading.specs.Reads.{Reads, after_fault, after_refusal};

use crate::decisions::{Bound, Refused, Why};
use crate::takers::{LineTaker, Refusal};
use aim_io::{LineFault, LineReader, Source};
use std::alloc::Global;

/// Why a script is not read to the line that decides.
pub enum Stop<H> {
    /// The source has failed.
    Read,
    /// The taker can't go on.
    Halt(H),
}

// What a fault of the input comes to.
fn after_fault<K, M, H>(fault: LineFault) -> Result<Option<Refused<K, M>>, Stop<H>>
    ensures { result ≡ after_fault fault }
{
    match fault {
        LineFault::Read => Err(Stop::Read),
        LineFault::Long(number) => Ok(Some(Refused::Bad(number, Why::Long))),
        LineFault::Bytes => Ok(Some(Refused::Limit(Bound::Bytes))),
        LineFault::Lines => Ok(Some(Refused::Limit(Bound::Lines))),
    }
}

// What the line of that number comes to, which isn't taken.
fn after_refusal<K, M, H>(
    number: u32,
    refusal: Refusal<K, M, H>,
) -> Result<Option<Refused<K, M>>, Stop<H>>
    ensures { result ≡ after_refusal number refusal }
{
    match refusal {
        Refusal::Bad(kind) => Ok(Some(Refused::Bad(number, Why::Fault(kind)))),
        Refusal::Limit(limit) => Ok(Some(Refused::Limit(Bound::Further(limit)))),
        Refusal::Halt(halt) => Err(Stop::Halt(halt)),
    }
}

// What the end of the input behind so many lines comes to.
fn at_end<K, M>(whole: bool, number: u32) -> Option<Refused<K, M>>
    requires { number < 4294967295 }
    ensures { result ≡ (if whole then None else Some (Refused.Bad (number + 1) Why.End)) }
{
    if whole {
        None
    } else {
        Some(Refused::Bad(number + 1, Why::End))
    }
}

/// Reads a script to the line that decides, or to the end of the input. Nothing is read behind a line that decides.
pub fn read_script<T: LineTaker, S: Source>(
    alloc: Global,
    source: &mut S,
    taker: &mut T,
) -> Result<Option<Refused<T::Kind, T::Limit>>, Stop<T::Halt>>
    requires { T.stands taker.old [] taker.old }
    ensures { Reads T.rules (T.stands taker.old) (T.rests taker.old) (T.halts taker.old) S.left S.last_read S.faults source.old source.new taker.new result }
{
    let mut reader = LineReader::new();
    let mut number = 0u32;
    'lines: loop {
        match reader.advance(source) {
            Err(fault) => return after_fault(fault),
            Ok(false) => return Ok(at_end(taker.is_whole(), number)),
            Ok(true) => {}
        }
        number += 1;
        match taker.take(alloc, reader.line()) {
            Ok(()) => {}
            Err(refusal) => return after_refusal(number, refusal),
        }
    }
}
