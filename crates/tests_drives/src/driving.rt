//! The command of drives, in two runs side by side.

use aim_agents::Gate;
use aim_drive_command::drive;
use std::sync::atomic::{AtomicU64, Ordering};
use std::thread::yield_now;
use tests_samples::{sink_of, source_of};

// Two vehicles of one lane each. The second asks at step 0, and its message comes at step 1, together with the same
// message sent again; the first asks at step 1.
const SCRIPT: &[u8] =
    b"aim 1\ngrid 4000 4 100 0 450 4096\ntimes 1500 25 20 0 0\nlanes 2\nmove 0 straight line 0 1500 4000 1500 40\nmove 1 straight line 2500 0 2500 4000 40\npolicy plain fcfs\nvehicles 2\nbegin\nuntil 3\nplan 0 1 10 3 0 straight 500 500 0 1000 700 car\nplan 1 0 10 1 1 straight 500 500 0 1000 700 car\nup 1 1\nend\n";

// How often a caller looks whether the other has come.
const LOOKS: u32 = 100_000_000;

/// A gate at which two vehicles meet: vehicle 1 waits there, at its first call, until vehicle 0 has come, and vehicle 0
/// until vehicle 1 has come twice, the second time after its first call was answered. Each waits for a while only, and
/// counts where that was in vain.
#[derive(Drop)]
struct Meeting {
    first: AtomicU64,
    second: AtomicU64,
    missed: AtomicU64,
}

impl Meeting {
    fn new() -> Meeting {
        Meeting {
            first: AtomicU64::new(0),
            second: AtomicU64::new(0),
            missed: AtomicU64::new(0),
        }
    }

    fn wait_for(&self, calls: &AtomicU64, least: u64) {
        for _ in 0..LOOKS {
            if calls.load(Ordering::SeqCst) >= least {
                return;
            }
            yield_now();
        }
        self.missed.fetch_add(1, Ordering::SeqCst);
    }
}

impl Gate for Meeting {
    fn before(&self, vehicle: u32, _step: u32) {
        if vehicle == 0 {
            if self.first.fetch_add(1, Ordering::SeqCst) == 0 {
                self.wait_for(&self.second, 2);
            }
        } else if self.second.fetch_add(1, Ordering::SeqCst) == 0 {
            self.wait_for(&self.first, 1);
        }
    }
}

#[test]
fn two_drivers_call_at_once(rt: HostRuntime) {
    let alloc = rt.alloc();
    let mut source = source_of(alloc, SCRIPT, &[]).expect(&rt, "memory for a source");
    let mut sink = sink_of(alloc, 8192, &[]).expect(&rt, "memory for a sink");
    let gate = Meeting::new();
    assert!(rt; drive(&rt, alloc, 2, &mut source, &mut sink, &gate) == 0);
    assert!(rt;
        gate.missed.load(Ordering::SeqCst) == 0,
        "the runs didn't go side by side"
    );
    // The gate was told of each call.
    assert!(rt; gate.first.load(Ordering::SeqCst) == 1);
    assert!(rt; gate.second.load(Ordering::SeqCst) == 2);
    assert!(rt; sink.bytes().ends_with(b"end 3\n"));
}
