//! The table under the turn, its rule, and what each step tells.
ghost use Rattle.std.specs.Prelude.{◌≡◌, None, []};
ghost use Rattle.aim_turnstile.specs.Turned.{meaning, Turned, opening_view, Drew, Looked, Added, Passed, Refreshed, front_of, rest_of, next_of, gathered, spent, seated};

use crate::kept::Kept;
use crate::view::View;
use atomic_table::{Join, Play, Seat, Split, Table, TableRule};
use std::alloc::Global;
use std::snapshot::Snapshot;

/// What the rule is told once: the kept value at the opening, and the numbers.
#[derive(Drop)]
pub struct Opening<K> {
    pub kept: Snapshot<K>,
    pub numbers: Snapshot<Vec<u32>>,
}

/// The rule of the turn.
pub struct InTurn;

impl<K: Kept> TableRule<Option<K>, View<K::Setting, K::Entry>, Opening<K>> for InTurn {
    ghost holds = { λ key. Turned (meaning K.setting K.entries K.caller_of K.is_lawful) (K.setting key.kept.value) key.numbers.value.items };

    ghost first = { λ key. opening_view (K.setting key.kept.value) key.numbers.value.items };
}

/// The table: the words TICKET, SERVING and COUNT, and the one slot for the kept value.
pub type TurnTable<K> = Table<
    Option<K>,
    View<<K as Kept>::Setting, <K as Kept>::Entry>,
    Opening<K>,
    InTurn,
    Global,
>;

/// A seat at the table.
pub type Chair<K> = Seat<Option<K>, View<<K as Kept>::Setting, <K as Kept>::Entry>>;

/// Draws a ticket.
pub struct Draw;

impl<K: Kept> Play<Option<K>, View<K::Setting, K::Entry>> for Draw {
    ghost then = { λ _ m found n. Drew (meaning K.setting K.entries K.caller_of K.is_lawful) m found n };
}

/// Looks whether the ticket is served.
pub struct Look;

impl<K: Kept> Play<Option<K>, View<K::Setting, K::Entry>> for Look {
    ghost then = { λ _ m found n. Looked (meaning K.setting K.entries K.caller_of K.is_lawful) m found n };
}

/// Counts the entry that was made.
pub struct Count;

impl<K: Kept> Play<Option<K>, View<K::Setting, K::Entry>> for Count {
    ghost then = { λ _ m _ n. Added (meaning K.setting K.entries K.caller_of K.is_lawful) m n };
}

/// Serves the next ticket.
pub struct ServeNext;

impl<K: Kept> Play<Option<K>, View<K::Setting, K::Entry>> for ServeNext {
    ghost then = { λ _ m _ n. Passed (meaning K.setting K.entries K.caller_of K.is_lawful) m n };
}

/// Sees the whole history.
pub struct Refresh;

impl<K: Kept> Play<Option<K>, View<K::Setting, K::Entry>> for Refresh {
    ghost then = { λ _ m _ n. Refreshed (meaning K.setting K.entries K.caller_of K.is_lawful) m n };
}

/// A seat that is new at the closing.
pub struct Arrive;

impl<K: Kept> Play<Option<K>, View<K::Setting, K::Entry>> for Arrive {
    ghost then = { λ _ m _ n. n.0 ≡ seated m.0.setting m.0.numbers None [] [] };
}

/// Notes what a seat has seen.
pub struct Note;

impl<S, E> Split<View<S, E>> for Note {
    ghost left = { λ v. v };

    ghost right = { front_of };
}

/// Gives the next number to a seat of its own.
pub struct Deal;

impl<S, E> Split<View<S, E>> for Deal {
    ghost left = { rest_of };

    ghost right = { λ v. next_of v.setting v.numbers v.seen v.to_give };
}

/// Takes a seat in.
pub struct Gather;

impl<S, E> Join<View<S, E>> for Gather {
    ghost both = { gathered };

    ghost spent = { spent };
}
