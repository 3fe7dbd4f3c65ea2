//! What messages and replies say to a driver.

use aim_driver::{
    active_after_answer, active_after_sending, changed_by, held_in, is_a_cancel, is_a_change,
    is_a_done, is_stop, lead_after_answer, next_after_answer,
};
use aim_messages::{Body, Message, Reason, Reply};
use tests_samples::CAR;

/// What a message says to its sender, which is active on the reservation 4.
struct Said {
    body: Body,
    is_a_change: bool,
    is_a_cancel: bool,
    is_a_done: bool,
    changed: Option<u32>,
    active: Option<u32>,
}

const MESSAGES: [Said; 4] = [
    Said {
        body: Body::Request(CAR),
        is_a_change: false,
        is_a_cancel: false,
        is_a_done: false,
        changed: None,
        active: Some(4),
    },
    Said {
        body: Body::Change(4, CAR),
        is_a_change: true,
        is_a_cancel: false,
        is_a_done: false,
        changed: Some(4),
        active: None,
    },
    Said {
        body: Body::Cancel(4),
        is_a_change: false,
        is_a_cancel: true,
        is_a_done: false,
        changed: None,
        active: None,
    },
    Said {
        body: Body::Done(4),
        is_a_change: false,
        is_a_cancel: false,
        is_a_done: true,
        changed: None,
        active: None,
    },
];

fn says(said: &Said) -> bool {
    let body = said.body;
    is_a_change(body) == said.is_a_change
        && is_a_cancel(body) == said.is_a_cancel
        && is_a_done(body) == said.is_a_done
        && changed_by(Some(Message { seq: 1, body })) == said.changed
        && active_after_sending(body, Some(4)) == said.active
}

#[test]
fn what_messages_say(rt: HostRuntime) {
    for said in &MESSAGES {
        assert!(rt; says(said));
    }
}

/// What the answer to a message that would change the reservation 4 says to a driver, which is active on none, asks 9
/// steps ahead, and may ask again from step 3 on.
struct Told {
    reply: Reply,
    is_stop: bool,
    held: Option<u32>,
    active: Option<u32>,
    next: u32,
    lead: u32,
}

const ANSWERS: [Told; 5] = [
    Told {
        reply: Reply::Confirm {
            id: 7,
            start: 10,
            early: 0,
            late: 0,
            accelerate: false,
            last: 20,
        },
        is_stop: false,
        held: None,
        active: Some(7),
        next: 3,
        lead: 9,
    },
    // 3,500 are seven steps at a speed of 500
    Told {
        reply: Reply::Reject {
            reason: Reason::Distance(3500),
            next: 11,
            held: Some(4),
        },
        is_stop: false,
        held: Some(4),
        active: Some(4),
        next: 11,
        lead: 7,
    },
    Told {
        reply: Reply::Reject {
            reason: Reason::NoReservation,
            next: 6,
            held: Some(5),
        },
        is_stop: false,
        held: Some(5),
        active: None,
        next: 6,
        lead: 9,
    },
    Told {
        reply: Reply::Ack { id: 4 },
        is_stop: false,
        held: None,
        active: None,
        next: 3,
        lead: 9,
    },
    Told {
        reply: Reply::EmergencyStop,
        is_stop: true,
        held: None,
        active: None,
        next: 3,
        lead: 9,
    },
];

fn tells(told: &Told) -> bool {
    let reply = told.reply;
    is_stop(reply) == told.is_stop
        && held_in(Some(reply)) == told.held
        && active_after_answer(Some(4), reply, None) == told.active
        && next_after_answer(reply, 3) == told.next
        && lead_after_answer(500, reply, 9) == told.lead
}

#[test]
fn what_replies_tell(rt: HostRuntime) {
    for told in &ANSWERS {
        assert!(rt; tells(told));
    }
}
