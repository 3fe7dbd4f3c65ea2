//! What the measurements of texts have in common: the entries that are written, and what is printed.

use aim_messages::{Act, Body, Entry, Message, Params, Reason, Reply, Turn};
use std::io;

/// A request that is confirmed or, in every fourth round, refused.
pub fn entry(round: u32) -> Entry {
    let params = Params {
        lane: 3,
        turn: Turn::Straight,
        arrive: round,
        latest: round,
        speed: 500,
        max_speed: 500,
        accel: 0,
        length: 4500,
        width: 1900,
        emergency: false,
    };
    let body = Body::Request(params);
    Entry {
        caller: round % 65_536,
        moment: round,
        act: Act::Message(Message { seq: 1, body }),
        reply: if round % 4 == 0 {
            refusal(round)
        } else {
            confirmation(round)
        },
    }
}

fn refusal(round: u32) -> Reply {
    Reply::Reject {
        reason: Reason::Taken {
            row: 1,
            col: 2,
            step: round,
            by: 4095,
        },
        next: round,
        held: None,
    }
}

fn confirmation(round: u32) -> Reply {
    Reply::Confirm {
        id: round,
        start: round,
        early: 2,
        late: 2,
        accelerate: false,
        last: round,
    }
}

/// Prints of a call that writes and of one that reads how many bytes they had, or how long they took.
pub fn tell(
    rt: &impl Print,
    calls: (&str, &str),
    amounts: (u64, u64),
    unit: &str,
) -> io::Result<()> {
    println!(rt;
        "{}: {} {unit}\n{}: {} {unit}",
        calls.0, amounts.0, calls.1, amounts.1
    )
}
