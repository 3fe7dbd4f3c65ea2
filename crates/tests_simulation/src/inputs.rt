// What no clause says: worked inputs, and that the calls succeed.
ghost use Rattle.std.specs.Prelude.{◌≡◌, ◌≢◌, Some, None, IfSome};
ghost use Rattle.aim_io.specs.Causes.{Rose};
ghost use Rattle.aim_io.specs.Lines.{outcomes_of};
ghost use Rattle.tests_simulation.specs.Counting.{count_from, CountsWhole};

use aim_io::{
    CleanSource, Failed, LineFault, LineReader, Sink, Source, StdSink, StdSource, put_all,
};
use std::process::Abort;
use tests_samples::{Broken, Drip, Rows, sink_of, source_of};

// Takes lines up to the end of the input or a fault, and counts them. An example of a loop: its
// count and fault are a function of the bytes alone, and where the source fails the count is that
// of the whole lines that were read.
fn count_lines<S: Source>(source: &mut S) -> (u32, Option<LineFault>)
    ensures whole { result.1 ≢ Some LineFault.Read → IfSome (S.left source.old) (λ bytes. result ≡ count_from 0 (outcomes_of bytes)) }
    ensures short { result.1 ≡ Some LineFault.Read → CountsWhole (S.left source.old) (S.left source.new) result.0 }
    ensures read { result.1 ≡ Some LineFault.Read → Rose (S.faults source.old) (S.faults source.new) }
{
    let mut reader = LineReader::new();
    let mut count = 0;
    'lines: loop {
        match reader.advance(source) {
            Ok(true) => count += 1,
            Ok(false) => return (count, None),
            Err(fault) => return (count, Some(fault)),
        }
    }
}

const NO_MEMORY: &str = "no memory";

static INPUTS: [(&[u8], &[&[u8]]); 7] = [
    (b"", &[]),
    (b"\n", &[b""]),
    (b"a", &[b"a"]),
    (b"a\n", &[b"a"]),
    (b"a\n\n", &[b"a", b""]),
    (b"ab\r\ncd", &[b"ab\r", b"cd"]),
    (b"\n\nab \n", &[b"", b"", b"ab "]),
];

// The source has to give these lines and then its end, twice.
fn check_lines<S: Source>(rt: &impl Abort, source: &mut S, lines: &[&[u8]]) {
    let mut reader = LineReader::new();
    for &line in lines {
        assert!(rt; matches!(reader.next(source), Ok(Some(found)) if found == line));
    }
    assert!(rt; reader.advance(source) == Ok(false));
    assert!(rt; reader.advance(source) == Ok(false));
    drop(reader);
}

#[test]
fn the_lines_of_small_inputs(rt: HostRuntime) {
    for (bytes, lines) in &INPUTS {
        let held = bytes.to_vec(rt.alloc()).expect(&rt, NO_MEMORY);
        check_lines(&rt, &mut CleanSource::new(held), lines);
        check_lines(&rt, &mut StdSource::new(*bytes), lines);
        check_lines(&rt, &mut Drip::new(bytes, None), lines);
    }
}

// Of `ab`, byte 10, `cd`: the call that fails, the lines before it, and the calls that are made.
const FAILING: [(u64, u32, Option<LineFault>, u64); 7] = [
    (0, 0, Some(LineFault::Read), 1),
    (1, 0, Some(LineFault::Read), 2),
    (2, 0, Some(LineFault::Read), 3),
    (3, 1, Some(LineFault::Read), 4),
    (4, 1, Some(LineFault::Read), 5),
    (5, 1, Some(LineFault::Read), 6),
    (6, 2, None, 6),
];

#[test]
fn each_read_fails_in_turn(rt: HostRuntime) {
    for (call, lines, fault, calls) in &FAILING {
        let mut source = Drip::new(b"ab\ncd", Some(*call));
        let (count, told) = count_lines(&mut source);
        assert!(rt; count == *lines && told == *fault && source.call == *calls);
    }
    let mut source = Drip::new(b"ab\ncd", Some(0));
    let mut reader = LineReader::new();
    assert!(rt; reader.advance(&mut source) == Err(LineFault::Read));
    assert!(rt; reader.advance(&mut source) == Err(LineFault::Read));
    assert!(rt; source.call == 1);
}

// The bytes of a row, all bytes, the lines that are given, and the fault.
const LIMITS: [(usize, usize, u32, Option<LineFault>); 10] = [
    (400, 401, 1, None),
    (1000, 400, 1, None),
    (1000, 401, 0, Some(LineFault::Long(1))),
    (401, 402, 0, Some(LineFault::Long(1))),
    (3, 1_048_576, 262_144, None),
    (3, 1_048_577, 262_144, Some(LineFault::Lines)),
    (3, 1_048_580, 262_144, Some(LineFault::Lines)),
    (400, 68_000_000, 167_353, Some(LineFault::Bytes)),
    (264, 67_108_864, 253_241, None),
    (264, 67_108_865, 253_240, Some(LineFault::Bytes)),
];

#[test]
fn the_limits(rt: HostRuntime) {
    for (row, left, lines, fault) in &LIMITS {
        let mut source = Rows {
            row: *row,
            left: *left,
            at: 0,
        };
        let (count, told) = count_lines(&mut source);
        assert!(rt; count == *lines && told == *fault);
    }
}

const READS: [Result<usize, Failed>; 5] = [Ok(3), Err(Failed), Ok(2), Err(Failed), Ok(0)];

#[test]
fn a_source_in_memory(rt: HostRuntime) {
    let mut source = source_of(rt.alloc(), b"abcde", &[1, 3]).expect(&rt, NO_MEMORY);
    let mut buf = [0; 3];
    for want in &READS {
        assert!(rt; source.read(&mut buf) == *want);
    }
    assert!(rt; buf == *b"dec");
    drop(source);
}

// The room, the calls that fail, and what is held after `abcdef` was to be put.
static PUTS: [(u32, &[u64], bool, &[u8]); 4] = [
    (9, &[], true, b"abcdef"),
    (9, &[0], false, b""),
    (6, &[1], true, b"abcdef"),
    (4, &[], false, b"abcd"),
];

#[test]
fn all_is_put_or_a_front(rt: HostRuntime) {
    for (room, failing, whole, held) in &PUTS {
        let mut sink = sink_of(rt.alloc(), *room, failing).expect(&rt, NO_MEMORY);
        assert!(rt; put_all(&mut sink, b"abcdef").is_ok() == *whole);
        assert!(rt; sink.bytes() == *held);
        drop(sink);
    }
}

// What a writer of std takes, one that is full, and a reader that fails.
#[test]
fn std_that_fails(rt: HostRuntime) {
    let mut taken = [0; 2];
    let mut sink = StdSink::new(rt.alloc(), &mut taken[..]).expect(&rt, NO_MEMORY);
    assert!(rt; put_all(&mut sink, b"ab").is_ok());
    assert!(rt; sink.settle().is_ok());
    drop(sink);
    assert!(rt; taken == *b"ab");
    let mut full = [0; 1];
    let mut sink = StdSink::new(rt.alloc(), &mut full[..0]).expect(&rt, NO_MEMORY);
    assert!(rt; put_all(&mut sink, b"a").is_ok());
    assert!(rt; sink.settle() == Err(Failed));
    drop(sink);
    let mut reader = LineReader::new();
    assert!(rt; reader.is_open());
    assert!(rt; reader.advance(&mut StdSource::new(Broken)) == Err(LineFault::Read));
}
