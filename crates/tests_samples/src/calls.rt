//! What callers ask for over the crossing, and what journals of their calls have.

ghost use Rattle.std.specs.Prelude.{◌≡◌, ◌<◌, ◌≤◌, IfSome};
ghost use Rattle.aim_requests.specs.Requests.{IsPreparedFor};

use crate::sites::CAR;
use aim_layout::Layout;
use aim_messages::{Act, Body, Entry, Message, Params, Reply};
use aim_requests::{Prepared, prepare_from};
use aim_sheets::Pool;

// A crossing of 11 steps.
fn params(lane: u8, arrive: u32) -> Params {
    Params {
        lane,
        arrive,
        latest: arrive,
        ..CAR
    }
}

/// A request for a crossing of 11 steps.
pub fn request(seq: u32, lane: u8, arrive: u32) -> Message {
    Message {
        seq,
        body: Body::Request(params(lane, arrive)),
    }
}

/// The reply to such a request that is granted.
pub fn confirmed(id: u32, start: u32) -> Reply
    requires { start < 2000 }
{
    Reply::Confirm {
        id,
        start,
        early: 0,
        late: 0,
        accelerate: false,
        last: start + 10,
    }
}

/// A caller's message, whose number is one more than its place: a request, or else a change of what it holds or that it
/// gives that up.
pub fn message(caller: u32, place: u32, held: Option<u32>) -> Message {
    let arrive = place % 100 * 10 + 20 + caller % 4 * 7;
    let params = params((caller % 2) as u8, arrive);
    let body = match held {
        Some(id) if place % 4 == 3 => Body::Cancel(id),
        Some(id) => Body::Change(id, params),
        None => Body::Request(params),
    };
    Message {
        seq: place.wrapping_add(1),
        body,
    }
}

/// Prepares the message with two sheets of the pool, where that has them, with the layout's room, and a thousand at most.
pub fn prepared(layout: &Layout, pool: &mut Pool, message: &Message) -> Option<Prepared>
    ensures prepared { IfSome result (λ p. IsPreparedFor layout.now p) }
    ensures room { IfSome result (λ _. pool.new.room ≡ layout.now.grid.spans) }
    ensures count { IfSome result (λ _. pool.new.count ≤ 1000) }
{
    let count = pool.count();
    if pool.room() != layout.ground().grid().spans || count < 2 || count > 1000 {
        return None;
    }
    Some(prepare_from(layout, message, pool))
}

// How many entries of the caller the journal has, where they are messages with the numbers from 1 on, in order.
fn numbered(journal: &[Entry], caller: u32) -> Option<u32> {
    let mut count = 0u32;
    for entry in journal {
        if entry.caller == caller {
            count = count.saturating_add(1);
            if !matches!(&entry.act, Act::Message(message) if message.seq == count) {
                return None;
            }
        }
    }
    Some(count)
}

/// Whether the journal has so many entries, all of the first callers, and of each the messages with the numbers from 1 on,
/// in order.
pub fn has_numbers(journal: &[Entry], callers: u32, entries: u32) -> bool {
    let mut count = 0u32;
    for caller in 0..callers {
        let Some(found) = numbered(journal, caller) else {
            return false;
        };
        count = count.saturating_add(found);
    }
    count == entries && journal.len() == entries as usize
}
