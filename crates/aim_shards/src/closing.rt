//! Closing.

ghost use Rattle.std.specs.Prelude.{◌≡◌, ◌<◌, List, [], length, All, IsTrue, false, slice_index_or, slice_set};
ghost use Rattle.std.specs.Mem.Slots.{slots_filled, slots_items, slots_len};
ghost use Rattle.aim_shards.specs.declared.claims.ClaimEntry.{ClaimEntry};
ghost use Rattle.aim_shards.specs.Closing.{Closes, Ends, Gathers, LiesAt};
ghost use Rattle.aim_shards.specs.Models.{PassModel};

use crate::calls::Shards;
use crate::claims::ClaimEntry;
use crate::pass::ShardPass;
use crate::quarter::Quarter;
use crate::rule::{Arrive, Chair, Gather, QuadrantTable};
use atomic_table::Closed;
use std::alloc::Global;

// The word that has the first quadrant's ticket that is served.
const SERVING: usize = 4;

/// The four quadrants' histories.
#[derive(Drop)]
pub struct ClosedShards {
    pub first: Vec<ClaimEntry>,
    pub second: Vec<ClaimEntry>,
    pub third: Vec<ClaimEntry>,
    pub fourth: Vec<ClaimEntry>,
}

// Takes all passes into one seat.
fn gather(desk: &QuadrantTable, root: &mut Chair, mut passes: Vec<ShardPass>)
    requires desk { (root.old.table_id ≡ desk.now.shared.table_id) × (desk.now.shared.table_id.words ≡ 9) }
    requires root { Gathers [] root.old.me }
    requires own { All (λ p. p.table ≡ desk.now.shared.table_id) passes.items }
    ensures seat { (root.new.table_id ≡ root.old.table_id) × (root.new.id ≡ root.old.id) }
    ensures root { Gathers passes.items root.new.me }
{
    while let Some(pass) = passes.pop() {
        let ShardPass {
            number: _,
            calls: _,
            made: _,
            standing: _,
            seat,
        } = pass;
        desk.shared.join_seat::<Gather>(root, seat);
    }
}

// The entries of the quadrant.
fn entries_of(quarter: Quarter) -> Vec<ClaimEntry>
    ensures { result.items ≡ quarter.entries.items }
{
    let Quarter {
        entries,
        table: _,
        plan: _,
    } = quarter;
    entries
}

// Takes the quadrant's entries out of its slot.
fn take_entries(closed: &mut Closed<Option<Quarter>, Global>, quadrant: usize) -> Vec<ClaimEntry>
    requires there { (quadrant < slots_len closed.old.slots) × IsTrue (slice_index_or (slots_filled closed.old.slots) quadrant false) }
    requires lies { (l : List ClaimEntry) × LiesAt quadrant (slots_items closed.old.slots) l }
    ensures entries { (l : List ClaimEntry) → LiesAt quadrant (slots_items closed.old.slots) l → result.items ≡ l }
    ensures items { slots_items closed.new.slots ≡ slots_items closed.old.slots }
    ensures filled { (slots_filled closed.new.slots ≡ slice_set (slots_filled closed.old.slots) quadrant false) × (slots_len closed.new.slots ≡ slots_len closed.old.slots) }
{
    let Some(quarter) = closed.take(quadrant) else {
        unreachable!()
    };
    entries_of(quarter)
}

// Ends the turns, where one seat has taken in the passes of all numbers.
fn finish(desk: QuadrantTable, root: Chair) -> ClosedShards
    requires desk { (root.table_id ≡ desk.shared.table_id) × (desk.shared.table_id.slots ≡ 4) }
    requires root { (ps : List PassModel) × Gathers ps root.me × (length ps ≡ length desk.shared.key.numbers.value.items) }
    ensures { (ps : List PassModel) → Gathers ps root.me → length ps ≡ length desk.shared.key.numbers.value.items
        → (log : List ClaimEntry) × Ends desk.shared.key.sets.value.items desk.shared.key.numbers.value.items ps log result.first.items result.second.items result.third.items result.fourth.items }
{
    let mut closed = desk.close_with(root);
    let first = take_entries(&mut closed, 0);
    let second = take_entries(&mut closed, 1);
    let third = take_entries(&mut closed, 2);
    let fourth = take_entries(&mut closed, 3);
    closed.free();
    ClosedShards {
        first,
        second,
        third,
        fourth,
    }
}

impl Shards {
    /// Ends the turns, where all passes are there, in any order.
    ///
    /// The four histories are those of one legal claim history, in which each caller's entries are its pass's.
    pub fn close(self, passes: Vec<ShardPass>) -> ClosedShards
        requires own { All (λ p. p.table ≡ self.table) passes.items }
        requires all { length passes.items ≡ length self.numbers }
        ensures { (log : List ClaimEntry) × Closes self passes.items log result.first.items result.second.items result.third.items result.fourth.items }
    {
        let Shards {
            desk,
            doors: _,
            quarters: _,
            nothing: _,
        } = self;
        let (_, mut root) = desk.shared.load_new_seat::<Arrive>(SERVING);
        gather(&desk, &mut root, passes);
        finish(desk, root)
    }
}
