//! A replay whose source or sink fails at one of its calls.

use aim_replay_command::{WordLines, replay};
use std::alloc::Global;
use std::process::Abort;
use tests_samples::{sink_of, source_of};

const SCRIPT: &[u8] =
    b"aim 1\ngrid 4000 4 100 0 450 4096\ntimes 1500 25 20 0 0\nlanes 2\nmove 0 straight line 0 1500 4000 1500 40\nmove 1 straight line 2500 0 2500 4000 40\npolicy plain fcfs\nvehicles 8\nbegin\n0 0 request 1 0 straight 10 500 500 0 1000 700 car\nend\n";

// What is printed of it, with the chart of step 15.
const TEXT: &[u8] =
    b"0 0 0 request 1 0 straight 10 500 500 0 1000 700 car -> confirm 0 10 0 0 steady 20\n....\n....\n.###\n....\nend 1\n";

// The numbers of the reads and of the writes that fail, the status, and how many bytes of the text are written: the reads
// of the script and of what may follow it, and each write in turn.
static FAULTS: [(&[u64], &[u64], u8, usize); 9] = [
    (&[], &[], 0, 109),
    (&[0], &[], 4, 0),
    (&[1], &[], 4, 83),
    (&[], &[0], 5, 0),
    (&[], &[1], 5, 83),
    (&[], &[2], 5, 88),
    (&[], &[3], 5, 93),
    (&[], &[4], 5, 98),
    (&[], &[5], 5, 103),
];

// Whether a replay ends with the status and writes just so many bytes of the text.
fn ends_so(rt: &impl Abort, alloc: Global, fault: (&[u64], &[u64], u8, usize)) -> bool {
    let (reads, writes, status, written) = fault;
    let mut source = source_of(alloc, SCRIPT, reads).expect(rt, "memory for a script");
    let mut sink = sink_of(alloc, 4096, writes).expect(rt, "memory for a sink");
    let ended = replay::<WordLines, _, _>(alloc, &mut source, &mut sink, Some(15));
    let bytes = sink.bytes();
    ended == status && bytes.len() == written && TEXT.starts_with(bytes)
}

#[test]
fn faults_of_the_source_and_the_sink(rt: HostRuntime) {
    for fault in &FAULTS {
        assert!(rt; ends_so(&rt, rt.alloc(), *fault));
    }
}
