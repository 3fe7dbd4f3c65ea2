//! What stands under the turn while it is timed: a register that callers write marks into.
ghost use Rattle.std.specs.Prelude.{◌≡◌, ◌≤◌, [], vec_capacity, is_some, IfOk};

use aim_turnstile::{Kept, NoMemory};
use std::alloc::Global;

/// One entry.
#[derive(Clone, Copy)]
pub struct Mark {
    pub caller: u32,
    pub value: u32,
}

/// The setting. No value of it is made.
pub struct Room {
    pub room: u32,
}

/// A list of marks with a fixed room.
#[derive(Drop)]
pub struct Register {
    pub room: u32,
    pub marks: Vec<Mark>,
    ghost fits: { room ≤ vec_capacity marks },
}

impl Register {
    pub fn new(alloc: Global, room: u32) -> Result<Register, NoMemory>
        ensures { IfOk result (λ r. r.marks.items ≡ []) }
    {
        let marks = Vec::with_capacity(alloc, room as usize)?;
        Ok(Register { room, marks })
    }
}

/// What a caller asks: some rounds of work on a number.
#[derive(Clone, Copy)]
pub struct Work {
    pub seed: u32,
    pub rounds: u32,
}

/// Some rounds of arithmetic, each of which needs the one before it.
pub fn mixed(seed: u32, rounds: u32) -> u32 {
    let mut value = seed;
    for _ in 0..rounds {
        value = value.wrapping_mul(1_664_525).wrapping_add(1_013_904_223);
    }
    value
}

impl Kept for Register {
    type Setting = Room;

    type Entry = Mark;

    type Call = Work;

    type Answer = Option<u32>;

    ghost setting = { λ r. record { room = r.room } };

    ghost entries = { λ r. r.marks.items };

    ghost caller_of = { λ mark. mark.caller };

    ghost is_lawful = { λ _ _. Unit {0} };

    ghost may_call = { λ _ _ _. Unit {0} };

    ghost does = { λ _ _ _ _ _ _. Unit {0} };

    ghost is_made = { is_some };

    /// Does the work, and marks the result where there is room.
    fn apply(mut self, caller: u32, call: Work) -> (Register, Option<u32>) {
        let value = mixed(call.seed, call.rounds);
        if self.marks.len() < self.room as usize {
            self.marks.push_reserved(Mark { caller, value });
            return (self, Some(value));
        }
        (self, None)
    }

    fn made(answer: &Option<u32>) -> bool {
        answer.is_some()
    }

    ghost lawful_empty = { λ _. tt };

    ghost lawful_prefix = { λ _ _ _ _. tt };
}
