//! Lines and scripts of claims, and what is printed.

use aim_messages::LineKind;
use aim_shards_command::{ShardLine, read_shard_line, shards};
use std::alloc::Global;
use std::process::Abort;
use std::sync::Wait;
use std::thread::Threads;
use tests_samples::{NoHold, sink_of, source_of};

// Lines that spell none, and why.
static FAULTS: [(&[u8], LineKind); 16] = [
    (b"", LineKind::Unknown),
    (b" end", LineKind::Unknown),
    (b"7 0", LineKind::Unknown),
    (b"Claim 0 0", LineKind::Unknown),
    (b"vehicles 3", LineKind::Unknown),
    (b"end 0", LineKind::Words),
    (b"end ", LineKind::Words),
    (b"claim 0", LineKind::Words),
    (b"claim 0 0 ", LineKind::Words),
    (b"shards 4 100", LineKind::Words),
    (b"set 0 1 0 1 0", LineKind::Words),
    (b"free 0 x", LineKind::Number),
    (b"free 00 1", LineKind::Number),
    (b"claim  0", LineKind::Number),
    (b"claim 4294967296 x", LineKind::Range),
    (b"set 0 1 0 1 0 4294967296", LineKind::Range),
];

#[test]
fn lines_that_spell_none(rt: HostRuntime) {
    for (line, want) in &FAULTS {
        match read_shard_line(line) {
            Ok(_) => panic!(rt; "a line"),
            Err(kind) => assert!(rt; kind == *want),
        }
    }
    assert!(rt; matches!(read_shard_line(b"free 3 9"), Ok(ShardLine::Free(3, 9))));
}

// Claims of two callers whose sets meet in one tile of each quadrant.
const WORKED: &[u8] =
    b"shards 4 100 2\nset 0 1 0 1 0 9\nset 2 3 2 3 0 9\nset 1 2 1 2 5 6\nclaim 0 0\nclaim 1 2\nfree 0 0\nclaim 1 2\nclaim 1 1\nend\n";

// Their history, where the callers make their calls one after another.
const HISTORY: &[u8] =
    b"0 0 claim 0 yes\n1 0 free 0 yes\n2 1 claim 2 yes\n3 1 claim 2 no\n4 1 claim 1 no\nend 5\n";

// Scripts, the status, and what is written.
static SCRIPTS: [(&[u8], u8, &[u8]); 24] = [
    (WORKED, 0, HISTORY),
    // no set, no call
    (b"shards 1 1 1\nend\n", 0, b"end 0\n"),
    (b"shards 64 8192 64\nend", 0, b"end 0\n"),
    // what was answered no, a freeing, a call of another, and a claim twice freed
    (
        b"shards 4 9 2\nset 0 0 0 0 0 0\nclaim 0 0\nclaim 0 0\nfree 0 1\nfree 0 0\nfree 0 3\nfree 0 0\nclaim 1 0\nend\n",
        0,
        b"0 0 claim 0 yes\n1 0 claim 0 no\n2 0 free 1 no\n3 0 free 0 yes\n4 0 free 3 no\n5 0 free 0 no\n6 1 claim 0 yes\nend 7\n",
    ),
    (b"", 3, b"bad line 1 end\n"),
    (b"shards 4 100 2\nclaim 0 0", 3, b"bad line 2 call\n"),
    (b"shards 4 100 2\n", 3, b"bad line 2 end\n"),
    (b"set 0 1 0 1 0 9\n", 3, b"bad line 1 order\n"),
    (
        b"shards 4 100 2\nshards 4 100 2\n",
        3,
        b"bad line 2 order\n",
    ),
    (b"shards 0 100 2\n", 3, b"bad line 1 shards\n"),
    (b"shards 65 100 2\n", 3, b"bad line 1 shards\n"),
    (b"shards 4 8193 2\n", 3, b"bad line 1 shards\n"),
    (b"shards 4 100 65\n", 3, b"bad line 1 shards\n"),
    (
        b"shards 4 100 2\nset 0 1 0 1 0 100\n",
        3,
        b"bad line 2 set\n",
    ),
    (b"shards 4 100 2\nset 1 0 0 1 0 9\n", 3, b"bad line 2 set\n"),
    (b"shards 4 100 2\nset 0 4 0 1 0 9\n", 3, b"bad line 2 set\n"),
    (b"shards 4 100 2\nset 0 1 0 4 0 9\n", 3, b"bad line 2 set\n"),
    (
        b"shards 64 100 2\nset 0 63 0 0 0 63\nset 0 63 0 0 0 64\n",
        3,
        b"bad line 3 set\n",
    ),
    (
        b"shards 4 100 2\nset 0 1 0 1 0 9\nclaim 2 0\n",
        3,
        b"bad line 3 call\n",
    ),
    (
        b"shards 4 100 2\nset 0 1 0 1 0 9\nclaim 0 1\n",
        3,
        b"bad line 3 call\n",
    ),
    (
        b"shards 4 100 2\nset 0 1 0 1 0 9\nfree 0 0\n",
        3,
        b"bad line 3 call\n",
    ),
    (
        b"shards 4 100 2\nset 0 1 0 1 0 9\nclaim 0 0\nset 0 1 0 1 0 9\n",
        3,
        b"bad line 4 order\n",
    ),
    (b"shards 4 100 2\nend\nend\n", 3, b"bad line 3 order\n"),
    (b"shards 4 100 2\nend\n7\n", 3, b"bad line 3 unknown\n"),
];

// A script that goes on with a piece, so many times.
fn grown(rt: &impl Abort, alloc: Global, script: &[u8], piece: &[u8], times: u32) -> Vec<u8> {
    let mut script = script.to_vec(alloc).expect(rt, "no memory for a script");
    for _ in 0..times {
        script
            .extend_from_slice(piece)
            .expect(rt, "no memory for a script");
    }
    script
}

// Whether a run of the script, in which these reads and writes fail, gives that status and writes that.
fn runs<R: Threads + Wait + Abort + Sync>(
    rt: &R,
    alloc: Global,
    script: &[u8],
    reads: &[u64],
    writes: &[u64],
    status: u8,
    text: &[u8],
) -> bool {
    let mut source = source_of(alloc, script, reads).expect(rt, "no memory for a source");
    let mut sink = sink_of(alloc, 65536, writes).expect(rt, "no memory for a sink");
    shards(rt, alloc, 1, &mut source, &mut sink, &NoHold) == status && sink.bytes() == text
}

#[test]
fn scripts_and_their_texts(rt: HostRuntime) {
    for (script, status, text) in &SCRIPTS {
        assert!(rt; runs(&rt, rt.alloc(), script, &[], &[], *status, text));
    }
}

// The numbers of the reads and of the writes that fail, the status, and what is written, for the worked script, whose text is
// written in one call.
static FAILURES: [(&[u64], &[u64], u8, &[u8]); 3] = [
    (&[0], &[], 4, b""),
    (&[1], &[], 4, b""),
    (&[], &[0], 5, b""),
];

#[test]
fn failing_reads_and_writes(rt: HostRuntime) {
    for (reads, writes, status, text) in &FAILURES {
        assert!(rt; runs(&rt, rt.alloc(), WORKED, reads, writes, *status, text));
    }
}

// A script with one set, one call or one byte of a line too many: how it begins, with what it goes on, how many times, and
// why it is refused.
static TOO_MANY: [(&[u8], &[u8], u32, &[u8]); 3] = [
    (
        b"shards 4 100 2\n",
        b"set 0 0 0 0 0 0\n",
        1025,
        b"bad line 1026 set\n",
    ),
    (
        b"shards 4 100 2\nset 0 0 0 0 0 0\n",
        b"claim 1 0\n",
        1025,
        b"bad line 1027 call\n",
    ),
    (b"shards 4 100 2\n", b"a", 401, b"bad line 2 long\n"),
];

#[test]
fn one_set_or_call_too_many(rt: HostRuntime) {
    for (script, piece, times, text) in &TOO_MANY {
        let script = grown(&rt, rt.alloc(), script, piece, *times);
        assert!(rt; runs(&rt, rt.alloc(), &script, &[], &[], 3, text));
    }
}
