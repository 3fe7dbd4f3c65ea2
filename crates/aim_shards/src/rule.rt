//! The table, its rule, and what each step tells.
ghost use Rattle.std.specs.Prelude.{◌≡◌, []};
ghost use Rattle.aim_shards.specs.Ruled.{Ruled, keeping, no_terms, opening_view, Drew, Looked, Entered, Passed, rest_of, next_of, gathered, spent};

use crate::quarter::Quarter;
use crate::sets::Quartered;
use crate::view::ShardView;
use aim_sheets::Sheet;
use atomic_table::{Join, Play, Seat, Split, Table, TableRule};
use std::alloc::Global;
use std::snapshot::Snapshot;

/// What was fixed at the opening: the rows and columns of the grid, the sets, their parts in the quadrants, the callers'
/// numbers, and how many calls each may make. The rule speaks of the last three.
#[derive(Drop)]
pub struct Opening {
    pub size: u32,
    pub sheets: Snapshot<Vec<Sheet>>,
    pub sets: Snapshot<Vec<Quartered>>,
    pub numbers: Snapshot<Vec<u32>>,
    pub calls: u32,
}

/// The rule of the quadrants' turns.
pub struct InTurns;

impl TableRule<Option<Quarter>, ShardView, Opening> for InTurns {
    ghost holds = { λ key. Ruled key.sets.value.items key.numbers.value.items key.calls };

    ghost first = { λ key. opening_view key.sets.value.items key.numbers.value.items key.calls };
}

/// The table: the quadrants' next tickets to draw, the quadrants' tickets that are served, and the next ticket of all.
pub type QuadrantTable = Table<Option<Quarter>, ShardView, Opening, InTurns, Global>;

/// A seat at the table.
pub type Chair = Seat<Option<Quarter>, ShardView>;

/// Draws a quadrant's ticket.
pub struct Draw;

impl Play<Option<Quarter>, ShardView> for Draw {
    ghost then = { λ s m found n. Drew s.word m found n };
}

/// Looks whether the ticket is served.
pub struct Look;

impl Play<Option<Quarter>, ShardView> for Look {
    ghost then = { λ _ m found n. Looked m found n };
}

/// Draws the ticket of the entry that the slot in hand announces.
pub struct Enter;

impl Play<Option<Quarter>, ShardView> for Enter {
    ghost then = { λ _ m found n. Entered m found n };
}

/// Serves the next ticket of the quadrant whose turn came last.
pub struct ServeNext;

impl Play<Option<Quarter>, ShardView> for ServeNext {
    ghost then = { λ _ m _ n. Passed m n };
}

/// A seat that is new at the closing.
pub struct Arrive;

impl Play<Option<Quarter>, ShardView> for Arrive {
    ghost then = { λ _ _ _ n. n.0 ≡ keeping no_terms [] };
}

/// Gives the next number to a seat of its own.
pub struct Deal;

impl Split<ShardView> for Deal {
    ghost left = { rest_of };

    ghost right = { next_of };
}

/// Takes a seat in.
pub struct Gather;

impl Join<ShardView> for Gather {
    ghost both = { gathered };

    ghost spent = { spent };
}
