//! A small register, which may stand under a turn.

ghost use Rattle.std.specs.Prelude.{◌≡◌, ◌≤◌, [], ◌∷◌, ◌++◌, length, IfOk, MatchBool, vec_capacity, is_some, nat_lt, Some, None};

use aim_turnstile::{Kept, NoMemory};
use std::alloc::Global;

/// One entry: the caller, and what it wrote.
#[derive(Clone, Copy)]
pub struct Mark {
    pub caller: u32,
    pub value: u32,
}

/// The setting. No value of it is made.
pub struct Room {
    room: u32,
}

/// A list of marks with a fixed room.
#[derive(Drop)]
pub struct Register {
    room: u32,
    pub marks: Vec<Mark>,
    ghost fits: { room ≤ vec_capacity marks },
}

/// A register with room for so many marks.
pub fn empty_register(alloc: Global, room: u32) -> Result<Register, NoMemory>
    ensures { IfOk result (λ r. (r.marks.items ≡ []) × (r.room ≡ room)) }
{
    let marks = Vec::with_capacity(alloc, room as usize)?;
    Ok(Register { room, marks })
}

impl Kept for Register {
    type Setting = Room;

    type Entry = Mark;

    type Call = u32;

    type Answer = Option<u32>;

    ghost setting = { λ r. record { room = r.room } };

    ghost entries = { λ r. r.marks.items };

    ghost caller_of = { λ mark. mark.caller };

    ghost is_lawful = { λ _ _. Unit {0} };

    ghost may_call = { λ _ _ _. Unit {0} };

    ghost does = { λ s caller call before after answer.
        MatchBool (nat_lt (length before) s.room)
        ((answer ≡ Some (length before)) × (after ≡ before ++ record { caller = caller; value = call } ∷ []))
        ((answer ≡ None) × (after ≡ before)) };

    ghost is_made = { is_some };

    /// Writes the value, where there is room, and answers at which place.
    fn apply(mut self, caller: u32, call: u32) -> (Register, Option<u32>) {
        let place = self.marks.len();
        if place < self.room as usize {
            self.marks.push_reserved(Mark {
                caller,
                value: call,
            });
            return (self, Some(place as u32));
        }
        (self, None)
    }

    fn made(answer: &Option<u32>) -> bool {
        answer.is_some()
    }

    ghost lawful_empty = { λ _. tt };

    ghost lawful_prefix = { λ _ _ _ _. tt };
}
