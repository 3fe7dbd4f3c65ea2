//! A source that fails.

use aim_drive_script::{Ending, read_drive};
use aim_grid_script::{GridEnding, read_grid};
use aim_io::MemSource;
use aim_mail_script::{EventEnding, read_events};
use std::alloc::Global;
use tests_samples::source_of;

fn drive_fails(alloc: Global, source: &mut MemSource) -> bool {
    matches!(read_drive(alloc, source).err(), Some(Ending::Read))
}

fn events_fail(alloc: Global, source: &mut MemSource) -> bool {
    matches!(read_events(alloc, source).err(), Some(EventEnding::Read))
}

fn grid_fails(alloc: Global, source: &mut MemSource) -> bool {
    matches!(read_grid(alloc, source).err(), Some(GridEnding::Read))
}

#[test]
fn a_source_that_fails(rt: HostRuntime) {
    let mut source = source_of(rt.alloc(), b"aim 1\n", &[0, 1, 2]).expect(
        &rt,
        "memory for a script",
    );
    assert!(rt; drive_fails(rt.alloc(), &mut source));
    assert!(rt; events_fail(rt.alloc(), &mut source));
    assert!(rt; grid_fails(rt.alloc(), &mut source));
}
