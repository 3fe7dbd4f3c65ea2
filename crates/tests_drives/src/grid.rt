//! Scripts of several crossings, and routes over two of them.

ghost use Rattle.std.specs.Prelude.{◌<◌, ◌≤◌};
ghost use Rattle.aim_grid_script.specs.Fits.{AreWithin};

use crate::drive::put_left;
use crate::watch::Watch;
use aim_driver::DrivePlan;
use aim_grid::run_routes;
use aim_grid_script::{GridLine, PlannedLeg, Routes, read_grid, read_grid_line};
use std::alloc::Global;
use std::process::Abort;
use std::sync::Wait;
use std::sync::atomic::Ordering;
use std::thread::Threads;
use tests_samples::source_of;

/// Of a plan at a crossing the vehicle, the crossing, first step, lead, resend, lane and speed.
pub(crate) fn numbers_of(vehicle: u32, crossing: u32, plan: &DrivePlan) -> [u32; 7] {
    [
        vehicle,
        crossing,
        plan.first,
        plan.lead,
        plan.resend,
        plan.params.lane as u32,
        plan.params.speed,
    ]
}

// The numbers of a leg's line, or that of crossings.
fn numbers_in(line: &[u8]) -> [u32; 7] {
    match read_grid_line(line, 1) {
        Ok(
            GridLine::Leg {
                vehicle,
                crossing,
                plan,
            },
        ) => numbers_of(vehicle, crossing, &plan),
        Ok(GridLine::Crossings(count)) => [0, count, 0, 0, 0, 0, 0],
        _ => [0; 7],
    }
}

#[test]
fn lines_with_their_numbers(rt: HostRuntime) {
    assert!(rt; numbers_in(b"crossings 8") == [0, 8, 0, 0, 0, 0, 0]);
    let leg = numbers_in(b"leg 7 1 5 10 3 255 right 500 501 2 1000 4294967295 emergency");
    assert!(rt; leg == [7, 1, 5, 10, 3, 255, 500]);
}

// Two vehicles: one over two crossings, the other over the second one alone.
const SCRIPT: &[u8] =
    b"crossings 2\naim 1\ngrid 4000 4 100 0 450 4096\ntimes 1500 25 20 0 0\nlanes 2\nmove 0 straight line 0 1500 4000 1500 40\nmove 1 straight line 2500 0 2500 4000 40\npolicy plain fcfs\naim 1\ngrid 4000 4 100 0 450 4096\ntimes 1500 25 20 0 0\nlanes 2\nmove 0 straight line 0 1500 4000 1500 40\nmove 1 straight line 2500 0 2500 4000 40\npolicy plain fcfs\nvehicles 2\nbegin\nuntil 60\nleg 0 0 1 10 3 0 straight 500 500 0 1000 700 car\nleg 1 1 1 10 3 1 straight 500 500 0 1000 700 car\nleg 0 1 5 10 3 0 straight 500 500 0 1000 700 car\nend\n";

const LEGS: [[u32; 7]; 3] = [
    [0, 0, 1, 10, 3, 0, 500],
    [1, 1, 1, 10, 3, 1, 500],
    [0, 1, 5, 10, 3, 0, 500],
];

fn has_legs(legs: &[PlannedLeg]) -> bool {
    for (place, leg) in legs.iter().enumerate() {
        if LEGS.get(place) != Some(&numbers_of(leg.vehicle, leg.crossing, &leg.plan)) {
            return false;
        }
    }
    legs.len() == 3
}

fn are_the_routes(routes: &Routes) -> bool {
    routes.layouts.len() == 2
        && routes.vehicles == 2
        && routes.until == 60
        && has_legs(&routes.legs)
}

fn routes_in(rt: &impl Abort, alloc: Global) -> Routes
    ensures { AreWithin result }
{
    let mut source = source_of(alloc, SCRIPT, &[]).expect(rt, "memory for a script");
    let Ok(routes) = read_grid(alloc, &mut source) else {
        panic!(rt; "no whole script")
    };
    assert!(rt; are_the_routes(&routes));
    routes
}

// The journal of each crossing, and the logs there.
const TEXT: &[u8] =
    b"0 0 1 request 1 0 straight 11 500 500 0 1000 700 car -> confirm 0 11 0 0 steady 21\n1 0 22 done 2 0 -> ack 0\nlog 0 sent 1 request 1 0 straight 11 500 500 0 1000 700 car\nlog 0 got 2 1 confirm 0 11 0 0 steady 21\nlog 0 entered 11 0\nlog 0 sent 22 done 2 0\nlog 0 got 23 2 ack 0\n0 1 1 request 1 1 straight 11 500 500 0 1000 700 car -> confirm 0 11 0 0 steady 21\n1 1 22 done 2 0 -> ack 0\n2 0 28 request 1 0 straight 38 500 500 0 1000 700 car -> confirm 2 38 0 0 steady 48\n3 0 49 done 2 2 -> ack 2\nlog 0 sent 28 request 1 0 straight 38 500 500 0 1000 700 car\nlog 0 got 29 1 confirm 2 38 0 0 steady 48\nlog 0 entered 38 2\nlog 0 sent 49 done 2 2\nlog 0 got 50 2 ack 2\nlog 1 sent 1 request 1 1 straight 11 500 500 0 1000 700 car\nlog 1 got 2 1 confirm 0 11 0 0 steady 21\nlog 1 entered 11 0\nlog 1 sent 22 done 2 0\nlog 1 got 23 2 ack 0\n";

// Runs the routes with so many workers, where each vehicle waits until so many calls have come, and compares what is left.
fn travels(rt: &(impl Threads + Wait + Sync + Abort), alloc: Global, workers: u32, needed: u64) {
    assert!(rt; 0 < workers && workers <= 64);
    let routes = routes_in(rt, alloc);
    let gate = Watch::new(needed);
    let crossings = run_routes(rt, alloc, routes, &gate, workers).expect(rt, "memory for runs");
    let mut text = Vec::new(alloc);
    for drove in &crossings {
        put_left(rt, &mut text, drove);
    }
    assert!(rt; &text[..] == TEXT);
    assert!(rt;
        gate.missed.load(Ordering::SeqCst) == 0,
        "the runs didn't go side by side"
    );
    // The gate was told of each call, and of its step.
    assert!(rt; gate.calls.load(Ordering::SeqCst) == 6);
    assert!(rt; gate.steps.load(Ordering::SeqCst) == 123);
    drop(crossings);
}

// With two workers both vehicles, which ask at step 1, wait for each other at their first calls.
#[test]
fn legs_follow_one_another(rt: HostRuntime) {
    for (workers, needed) in &[(1, 0), (2, 2)] {
        travels(&rt, rt.alloc(), *workers, *needed);
    }
}
