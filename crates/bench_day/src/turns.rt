//! The turns of a day, which callers take together, and what came of them.

use crate::day::{CALLS, held_after, message, moment};
use aim_messages::{Entry, Message, Reply};
use anyhow::{Result, anyhow};
use std::sync::atomic::{AtomicU32, Ordering};
use std::time::Instant;

/// How many entries a journal of the day has room for.
pub const ROOM: u32 = 262_144;

/// How many sheets a caller has: two for a call, and one that the book may keep.
pub const SHEETS: u32 = 3;

/// How many crossings a caller keeps, so that others that differ in their arrival alone need not be found again.
pub const SHAPES: u32 = 1024;

/// What all callers share beside the book: how many turns there are, and which one is next.
#[derive(Drop)]
pub struct Turns {
    turns: u32,
    next: AtomicU32,
}

impl Turns {
    /// So many turns, of which none is taken.
    pub fn new(turns: u32) -> Turns {
        Turns {
            turns,
            next: AtomicU32::new(0),
        }
    }

    /// How many calls the day has at most.
    pub fn calls(&self) -> u64 {
        u64::from(self.turns) * u64::from(CALLS)
    }

    // The next turn, if there is one.
    fn take(&self) -> Option<u32> {
        let turn = self.next.fetch_add(1, Ordering::SeqCst);
        if turn < self.turns { Some(turn) } else { None }
    }
}

/// One who takes turns: its turn, the part of it that comes, and what its vehicle holds.
#[derive(Drop)]
pub struct Caller {
    turn: u32,
    part: u32,
    held: Option<u32>,
}

impl Caller {
    /// A caller that has taken no turn.
    pub fn new() -> Caller {
        Caller {
            turn: 0,
            part: CALLS,
            held: None,
        }
    }

    // Goes to the next part of its turn, or to the first of a new one. Gives that part, if the day has one more.
    fn next_part(&mut self, day: &Turns) -> Option<u32> {
        if self.part >= CALLS {
            self.turn = day.take()?;
            self.part = 0;
        }
        let part = self.part;
        self.part = part + 1;
        Some(part)
    }

    /// The caller's next message, with its step, until the day has no more.
    pub fn next(&mut self, day: &Turns) -> Option<(u32, Message)> {
        // each turn has a REQUEST, so there is a message among so many parts
        for _ in 0..2 * CALLS {
            let part = self.next_part(day)?;
            if let Some(message) = message(self.turn, part, self.held) {
                return Some((moment(self.turn), message));
            }
        }
        None
    }

    /// Hears the reply to that message.
    pub fn hear(&mut self, reply: Option<Reply>) {
        self.held = reply.and_then(|reply| held_after(&reply));
    }
}

/// What came of a day: its calls, its Confirms, and the nanoseconds of a call.
#[derive(Clone, Copy)]
pub struct Taken {
    pub calls: usize,
    pub confirms: usize,
    pub each: u128,
}

impl Taken {
    /// What came of a day with this journal, whose turns were taken between two readings of the clock.
    pub fn between(
        journal: &[Entry],
        start: Option<Instant>,
        end: Option<Instant>,
    ) -> Result<Taken> {
        let (Some(start), Some(end)) = (start, end) else {
            return Err(anyhow!("the clock can't be read"));
        };
        let calls = journal.len();
        let confirms = journal
            .iter()
            .filter(|entry| matches!(entry.reply, Reply::Confirm { .. }))
            .count();
        let nanoseconds = end.duration_since(start).as_nanos();
        Ok(Taken {
            calls,
            confirms,
            each: nanoseconds / (calls.max(1) as u128),
        })
    }
}
