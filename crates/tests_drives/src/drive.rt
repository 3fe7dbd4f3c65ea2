//! A whole drive of two vehicles, of whose messages some are lost, repeated and delayed.

ghost use Rattle.std.specs.Prelude.{◌≡◌, ◌<◌, ◌≤◌};
ghost use Rattle.aim_drive_script.specs.Fits.{IsFit};

use crate::watch::Watch;
use aim_drive::{Drove, run_script};
use aim_drive_script::{DriveScript, read_drive};
use aim_driver::Ordered;
use aim_messages::Order;
use aim_report::{put_entries, put_log};
use std::alloc::Global;
use std::process::Abort;
use std::sync::atomic::Ordering;
use tests_samples::source_of;

const SCRIPT: &[u8] =
    b"aim 1\ngrid 4000 4 100 0 450 4096\ntimes 1500 25 20 0 0\nlanes 2\nmove 0 straight line 0 1500 4000 1500 40\nmove 1 straight line 2500 0 2500 4000 40\npolicy plain fcfs\npolicy lights light\nphase 20 80 0\nphase 20 80 1\nvehicles 2\nbegin\nuntil 40\nplan 0 0 10 3 0 straight 500 500 0 1000 700 car\nup 0 l\ndown 0 r\nplan 1 1 12 3 1 straight 500 500 0 1000 700 car\ndown 1 4\ncancel 1 7\noperator 2 switch lights\nend\n";

// The journal, and the logs.
const TEXT: &[u8] =
    b"0 1 1 request 1 1 straight 13 500 500 0 1000 700 car -> confirm 0 13 0 0 steady 23\n1 operator 2 switch 1 -> switched 1502\n2 0 3 request 1 0 straight 10 500 500 0 1000 700 car -> reject taken 1 2 14 1 next 6 held none\n3 1 4 request 1 1 straight 13 500 500 0 1000 700 car -> confirm 0 13 0 0 steady 23\n4 0 6 request 2 0 straight 16 500 500 0 1000 700 car -> reject distance 3500 next 11 held none\n5 1 7 cancel 2 0 -> ack 0\n6 1 8 request 3 1 straight 20 500 500 0 1000 700 car -> confirm 6 20 0 0 steady 30\n7 0 11 request 3 0 straight 18 500 500 0 1000 700 car -> reject taken 1 2 21 1 next 14 held none\n8 0 14 request 4 0 straight 21 500 500 0 1000 700 car -> reject taken 1 2 24 1 next 17 held none\n9 0 17 request 5 0 straight 24 500 500 0 1000 700 car -> confirm 9 24 0 0 steady 34\n10 1 31 done 4 6 -> ack 6\n11 0 35 done 6 9 -> ack 9\nlog 0 sent 0 request 1 0 straight 10 500 500 0 1000 700 car\nlog 0 sent 3 request 1 0 straight 10 500 500 0 1000 700 car\nlog 0 got 4 1 reject taken 1 2 14 1 next 6 held none\nlog 0 got 5 1 reject taken 1 2 14 1 next 6 held none\nlog 0 sent 6 request 2 0 straight 16 500 500 0 1000 700 car\nlog 0 got 7 2 reject distance 3500 next 11 held none\nlog 0 sent 11 request 3 0 straight 18 500 500 0 1000 700 car\nlog 0 got 12 3 reject taken 1 2 21 1 next 14 held none\nlog 0 sent 14 request 4 0 straight 21 500 500 0 1000 700 car\nlog 0 got 15 4 reject taken 1 2 24 1 next 17 held none\nlog 0 sent 17 request 5 0 straight 24 500 500 0 1000 700 car\nlog 0 got 18 5 confirm 9 24 0 0 steady 34\nlog 0 entered 24 9\nlog 0 sent 35 done 6 9\nlog 0 got 36 6 ack 9\nlog 1 sent 1 request 1 1 straight 13 500 500 0 1000 700 car\nlog 1 sent 4 request 1 1 straight 13 500 500 0 1000 700 car\nlog 1 got 5 1 confirm 0 13 0 0 steady 23\nlog 1 got 6 1 confirm 0 13 0 0 steady 23\nlog 1 sent 7 cancel 2 0\nlog 1 got 8 2 ack 0\nlog 1 sent 8 request 3 1 straight 20 500 500 0 1000 700 car\nlog 1 got 9 3 confirm 6 20 0 0 steady 30\nlog 1 entered 20 6\nlog 1 sent 31 done 4 6\nlog 1 got 32 4 ack 6\n";

fn has_orders(orders: &[Ordered]) -> bool {
    orders.len() == 1 && orders[0].moment == 2 && matches!(orders[0].order, Order::Switch(1))
}

fn is_the_script(script: &DriveScript) -> bool {
    script.layout.policies() == 2
        && script.vehicles == 2
        && script.until == 40
        && script.plans.len() == 2
        && has_orders(&script.orders)
}

fn script_in(rt: &impl Abort, alloc: Global) -> DriveScript
    ensures { IsFit result }
{
    let mut source = source_of(alloc, SCRIPT, &[]).expect(rt, "memory for a script");
    let Ok(script) = read_drive(alloc, &mut source) else {
        panic!(rt; "no whole script")
    };
    assert!(rt; is_the_script(&script));
    script
}

/// Appends the journal and the logs that a drive left.
pub(crate) fn put_left(rt: &impl Abort, text: &mut Vec<u8>, drove: &Drove) {
    assert!(rt; drove.journal.len() <= 100);
    put_entries(text, &drove.journal).expect(rt, "memory for a journal");
    for logged in &drove.logs {
        put_log(text, logged.vehicle, logged.driver.log()).expect(rt, "memory for a log");
    }
}

#[test]
fn messages_are_lost_repeated_and_delayed(rt: HostRuntime) {
    let script = script_in(&rt, rt.alloc());
    let gate = Watch::new(0);
    let drove = run_script(&rt, rt.alloc(), script, &gate, 1).expect(&rt, "memory for a drive");
    let mut text = Vec::new(rt.alloc());
    put_left(&rt, &mut text, &drove);
    drop(drove);
    assert!(rt; &text[..] == TEXT);
    // The gate was told of each call of a vehicle, and of its step.
    assert!(rt; gate.calls.load(Ordering::SeqCst) == 11);
    assert!(rt; gate.steps.load(Ordering::SeqCst) == 137);
}
