//! A script of events.

use aim_mail_script::{Event, EventScript, read_events};
use aim_messages::{Body, Message};
use tests_samples::{CAR, source_of};

// Three events of two vehicles.
const SCRIPT: &[u8] =
    b"aim 1\ngrid 4000 4 100 0 450 4096\ntimes 1500 25 20 0 0\nlanes 1\nmove 0 straight line 0 1500 4000 1500 40\npolicy plain fcfs\npolicy lights light\nphase 20 80 0\nvehicles 3\nbegin\n2 5 request 1 0 straight 10 500 500 0 1000 700 car\n0 7 done 4 3\n2 5 cancel 2 0\nend\n";

const EVENTS: [Event; 3] = [
    Event {
        vehicle: 2,
        moment: 5,
        message: Message {
            seq: 1,
            body: Body::Request(CAR),
        },
    },
    Event {
        vehicle: 0,
        moment: 7,
        message: Message {
            seq: 4,
            body: Body::Done(3),
        },
    },
    Event {
        vehicle: 2,
        moment: 5,
        message: Message {
            seq: 2,
            body: Body::Cancel(0),
        },
    },
];

fn is_the_event(wanted: Option<&Event>, event: &Event) -> bool {
    let Some(wanted) = wanted else {
        return false;
    };
    event.vehicle == wanted.vehicle
        && event.moment == wanted.moment
        && event.message == wanted.message
}

fn has_events(events: &[Event]) -> bool {
    for (place, event) in events.iter().enumerate() {
        if !is_the_event(EVENTS.get(place), event) {
            return false;
        }
    }
    events.len() == 3
}

fn is_the_script(script: &EventScript) -> bool {
    script.vehicles == 3
        && script.layout.lanes() == 1
        && script.layout.policies() == 2
        && has_events(&script.events)
}

#[test]
fn events_in_the_order_of_the_script(rt: HostRuntime) {
    let mut source = source_of(rt.alloc(), SCRIPT, &[]).expect(&rt, "memory for a script");
    let Ok(script) = read_events(rt.alloc(), &mut source) else {
        panic!(rt; "no whole script")
    };
    assert!(rt; is_the_script(&script));
    drop(script);
}
