//! Sessions of vehicles.

ghost use Rattle.std.specs.Prelude.{◌≡◌, ◌<◌, length, replicate, slice_index_or, slice_set, unwrap_or, Some, IfOk};
ghost use Rattle.aim_messages.specs.Same.{same_message};
ghost use Rattle.aim_rules.specs.Asking.{next_with};
ghost use Rattle.aim_sessions.specs.Looks.{look_of};
ghost use Rattle.aim_sessions.specs.Kept.{no_session, session_after};

use crate::NoMemory;
use aim_messages::{Message, Reply};
use std::alloc::Global;
use std::marker::Model;

/// A message and its answer.
#[derive(Clone, Copy)]
pub struct Exchange {
    pub message: Message,
    pub reply: Reply,
}

/// What is kept of a vehicle: its last message with the answer, and the step before which it may not ask again.
#[derive(Clone, Copy)]
pub struct Session {
    pub last: Option<Exchange>,
    pub next: u32,
}

/// What a message's number says, after the vehicle's last message.
#[derive(Clone, Copy)]
pub enum Look {
    /// The number is above the last one's.
    Fresh,
    /// It is the last message again, and this was its answer.
    Repeat(Reply),
    /// The number is below the last one's, which is this.
    Stale(u32),
    /// Another message has the number.
    Reused,
}

/// The session of each vehicle.
#[derive(Drop)]
pub struct Sessions {
    rows: Vec<Session>,
}

impl Model for Sessions {
    ghost use Rattle.std.specs.Prelude.{List};
    ghost use Rattle.aim_sessions.specs.declared.sessions.Session.{Session};

    ghost Value = { List Session };

    ghost view = { λ s. s.rows.items };
}

impl Sessions {
    /// Sessions of so many vehicles, none of which has sent a message.
    pub fn new(alloc: Global, vehicles: u32) -> Result<Sessions, NoMemory>
        ensures { IfOk result (λ s. s ≡ replicate vehicles no_session) }
    {
        let none = Session {
            last: None,
            next: 0,
        };
        Ok(Sessions {
            rows: vec![in alloc; none; vehicles as usize]?,
        })
    }

    /// What the message's number says.
    pub fn look(&self, vehicle: u32, message: &Message) -> Look
        requires { vehicle < length self.now }
        ensures { result ≡ look_of (slice_index_or self.now vehicle no_session).last message.now }
    {
        let Some(last) = &self.rows[vehicle as usize].last else {
            return Look::Fresh;
        };
        look_after(last, message)
    }

    /// Keeps a fresh message with its answer.
    pub fn keep(&mut self, vehicle: u32, message: Message, reply: Reply)
        requires there { vehicle < length self.old }
        requires fresh { look_of (slice_index_or self.old vehicle no_session).last message ≡ Look.Fresh }
        ensures { self.new ≡ slice_set self.old vehicle (session_after message reply (slice_index_or self.old vehicle no_session).next) }
    {
        renew(&mut self.rows[vehicle as usize], message, reply);
    }

    /// The step before which the vehicle may not ask again: that of its last refusal, or 0.
    pub fn standing(&self, vehicle: u32) -> u32
        requires { vehicle < length self.now }
        ensures { result ≡ (slice_index_or self.now vehicle no_session).next }
    {
        self.rows[vehicle as usize].next
    }
}

// Whether the two are one message.
fn is_same(message: &Message, other: &Message) -> bool
    ensures { result ≡ same_message message.now other.now }
{
    *message == *other
}

// What the message's number says after this last message.
fn look_after(last: &Exchange, message: &Message) -> Look
    ensures { result ≡ look_of (Some last.now) message.now }
{
    if last.message.seq < message.seq {
        return Look::Fresh;
    }
    if message.seq < last.message.seq {
        return Look::Stale(last.message.seq);
    }
    if is_same(message, &last.message) {
        return Look::Repeat(last.reply);
    }
    Look::Reused
}

// Puts a fresh message with its answer in the place of the last one.
fn renew(row: &mut Session, message: Message, reply: Reply)
    ensures { row.new ≡ session_after message reply row.old.next }
{
    row.last = Some(Exchange { message, reply });
    row.next = next_after(&reply, row.next);
}

// The step that a refusal names, or the one before.
fn next_after(reply: &Reply, before: u32) -> u32
    ensures { result ≡ unwrap_or (next_with reply.now) before }
{
    match reply {
        Reply::Reject { next, .. } => *next,
        _ => before,
    }
}
