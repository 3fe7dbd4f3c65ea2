//! Generated traffic, and the last lines of scripts.

use crate::grid::numbers_of;
use aim_drive_command::{print_traffic, traffic};
use aim_drive_script::DriveScript;
use aim_layout::{Layout, Path};
use aim_messages::{LineKind, Turn};
use aim_script::{Decision, Kind, Limit, last_line, put_refused};
use tests_samples::sink_of;

// Whether there are three plans, and the third is that of the seed.
fn has_plans(script: &DriveScript) -> bool {
    let Some(planned) = script.plans.get(2) else {
        return false;
    };
    script.vehicles == 3
        && script.until == 4099
        && script.plans.len() == 3
        && numbers_of(planned.vehicle, 0, &planned.plan) == [2, 0, 66, 159, 50, 8, 232]
}

fn has_the_path(layout: &Layout) -> bool {
    let Some(path) = Path::of(layout, 9, Turn::Left) else {
        return false;
    };
    layout.lanes() == 12 && path.parts() == 280 && path.station(280) == (24000, 10500)
}

#[test]
fn generated_traffic(rt: HostRuntime) {
    let script = traffic(rt.alloc(), 2026, 3).expect(&rt, "memory for traffic");
    assert!(rt; has_plans(&script));
    assert!(rt; has_the_path(&script.layout));
    drop(script);
}

// How the script of that traffic ends.
const LAST_PLAN: &[u8] = b"plan 2 66 159 50 8 right 232 300 2 4500 1900 car\nend\n";

#[test]
fn generated_script(rt: HostRuntime) {
    let mut sink = sink_of(rt.alloc(), 4096, &[]).expect(&rt, "memory for a sink");
    assert!(rt; print_traffic(rt.alloc(), 2026, 3, &mut sink) == 0);
    assert!(rt; sink.bytes().ends_with(LAST_PLAN));
}

static LAST_LINES: [(Decision, &[u8]); 4] = [
    (Decision::Whole(12), b"end 12\n"),
    (Decision::Bad(3, Kind::Order), b"bad line 3 order\n"),
    (
        Decision::Bad(4, Kind::Spelling(LineKind::Range)),
        b"bad line 4 range\n",
    ),
    (Decision::Limit(Limit::Sheets), b"limit sheets\n"),
];

fn is_last(decision: Decision, text: &[u8]) -> bool {
    let mut line = [0; 400];
    let len = last_line(decision, &mut line);
    &line[..len] == text
}

#[test]
fn last_lines(rt: HostRuntime) {
    for (decision, text) in &LAST_LINES {
        assert!(rt; is_last(*decision, text));
    }
    let mut sink = sink_of(rt.alloc(), 64, &[]).expect(&rt, "memory for a sink");
    assert!(rt; put_refused(&mut sink, Decision::Bad(3, Kind::Order)) == 3);
    assert!(rt; sink.bytes() == b"bad line 3 order\n".as_slice());
}
