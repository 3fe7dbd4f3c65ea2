//! Distances, emergencies and sessions.

ghost use Rattle.std.specs.Prelude.{◌≡◌, ◌<◌, length};

use aim_messages::{Body, Message, Reason, Reply};
use aim_sessions::{Approaches, Distances, Look, Sessions, asked_from, next_allowed};
use std::process::Abort;
use tests_samples::{CAR, confirmed, request};

#[test]
fn least_refused_distance(rt: HostRuntime) {
    let mut distances = Distances::new();
    assert!(rt; asked_from(8, &CAR) == 1000 && asked_from(11, &CAR) == 0);
    assert!(rt; distances.test(1, 1_000_000).is_ok());
    distances.refused(1, 5000);
    distances.refused(1, 7000);
    assert!(rt; distances.test(1, 6000) == Err(5000));
    assert!(rt; distances.test(1, 5000).is_ok() && distances.test(0, 6000).is_ok());
    distances.confirmed(1);
    assert!(rt; distances.test(1, 6000).is_ok());
}

#[test]
fn half_of_the_way(rt: HostRuntime) {
    let next = [
        next_allowed(0, 10, 25),
        next_allowed(10, 10, 25),
        next_allowed(0, 1490, 25),
        next_allowed(5, 1520, 25),
    ];
    assert!(rt; next == [5, 11, 25, 30]);
}

#[test]
fn emergencies_until_they_are_past(rt: HostRuntime) {
    let mut approaches = Approaches::new(rt.alloc(), 8).expect(&rt, "no memory");
    assert!(rt; approaches.lanes(0, 1500) == 0);
    approaches.note(1, Some((1, 10)));
    assert!(rt; approaches.lanes(0, 1500) == 2);
    approaches.note(1, Some((0, 18)));
    approaches.note(2, Some((1, 40)));
    assert!(rt; approaches.lanes(1518, 1500) == 3 && approaches.lanes(1519, 1500) == 2);
    approaches.note(2, None);
    assert!(rt; approaches.lanes(30, 1500) == 1);
    drop(approaches);
}

const CANCEL: Message = Message {
    seq: 3,
    body: Body::Cancel(0),
};

const HOLDS: Reply = Reply::Reject {
    reason: Reason::Holds(0),
    next: 6,
    held: Some(0),
};

// Keeps the message, which has to be fresh.
fn keep(rt: &impl Abort, sessions: &mut Sessions, message: Message, reply: Reply)
    requires { 0 < length sessions.old }
    ensures { length sessions.new ≡ length sessions.old }
{
    let Look::Fresh = sessions.look(0, &message) else {
        panic!(rt; "not fresh")
    };
    sessions.keep(0, message, reply);
}

#[test]
fn numbers_and_standing_next(rt: HostRuntime) {
    let mut sessions = Sessions::new(rt.alloc(), 8).expect(&rt, "no memory");
    keep(&rt, &mut sessions, request(1, 0, 10), confirmed(0, 10));
    let again = sessions.look(0, &request(1, 0, 10));
    assert!(rt; matches!(again, Look::Repeat(Reply::Confirm { last: 20, .. })));
    assert!(rt; matches!(sessions.look(0, &request(1, 0, 12)), Look::Reused));
    assert!(rt; sessions.standing(0) == 0);
    keep(&rt, &mut sessions, request(4, 0, 40), HOLDS);
    assert!(rt; matches!(sessions.look(0, &CANCEL), Look::Stale(4)));
    assert!(rt; sessions.standing(0) == 6);
    drop(sessions);
}
