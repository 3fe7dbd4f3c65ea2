//! The calls of a day: vehicles come up in turn, each asks to cross, and some change their minds.

use aim_messages::{Body, Message, Params, Reply, Turn};

/// How many calls a turn has at most.
pub const CALLS: u32 = 4;

/// How many steps pass from turn to turn.
const GAP: u32 = 40;

/// The step of a turn.
pub fn moment(turn: u32) -> u32 {
    turn.wrapping_mul(GAP)
}

// A number below 2^31 that looks random, and is the same each time.
fn number(turn: u32, part: u32) -> u32 {
    let seed = (u64::from(turn) << 3 | u64::from(part)).wrapping_mul(6_364_136_223_846_793_005);
    let mixed = (seed ^ seed >> 29).wrapping_mul(1_442_695_040_888_963_407);
    (mixed >> 33) as u32
}

// The crossing that is asked for in a turn, in its first REQUEST or in a change.
fn params(turn: u32, part: u32) -> Params {
    let drawn = number(turn, part);
    let lane = number(turn, 0) % 12;
    let way = match lane % 3 {
        0 => Turn::Left,
        1 => Turn::Straight,
        _ => Turn::Right,
    };
    let arrive = moment(turn).wrapping_add(50 + drawn % 400);
    Params {
        lane: lane as u8,
        turn: way,
        arrive,
        latest: arrive,
        speed: 200 + drawn / 400 % 61,
        max_speed: 300,
        accel: 2,
        length: 4500,
        width: 1900,
        emergency: turn % 400 == 7,
    }
}

// What a vehicle says as the given part of its turn, if anything: that its last crossing is over, its REQUEST, a change
// of it, and that it gives it up.
fn body(turn: u32, part: u32, held: Option<u32>) -> Option<Body> {
    match (part, held) {
        (0, Some(id)) => Some(Body::Done(id)),
        (1, _) => Some(Body::Request(params(turn, 1))),
        (2, Some(id)) if turn % 8 == 3 => Some(Body::Change(id, params(turn, 2))),
        (3, Some(id)) if turn % 16 == 5 => Some(Body::Cancel(id)),
        _ => None,
    }
}

/// The message of a part of a turn, if there is one.
pub fn message(turn: u32, part: u32, held: Option<u32>) -> Option<Message> {
    let seq = turn.wrapping_mul(4).wrapping_add(part);
    match body(turn, part, held) {
        Some(body) => Some(Message { seq, body }),
        None => None,
    }
}

/// What the vehicle holds after a reply.
pub fn held_after(reply: &Reply) -> Option<u32> {
    match reply {
        Reply::Confirm { id, .. } => Some(*id),
        Reply::Reject { held, .. } => *held,
        _ => None,
    }
}
