//! What a chart shows of a desk.

ghost use Rattle.std.specs.Prelude.{◌≡◌, ℕ, ◌<◌, ◌&&◌, not, nat_lt, List};
ghost use Rattle.aim_geometry.specs.Cells.{cell_at};
ghost use Rattle.aim_geometry.specs.Rects.{has_bit};
ghost use Rattle.aim_messages.specs.declared.entries.Entry.{Entry};
ghost use Rattle.aim_rules.specs.History.{now_of};
ghost use Rattle.aim_book.specs.Charted.{is_claimed_by_some, is_held};
ghost use Rattle.aim_book.specs.Managed.{IsManaged};

use crate::desks::Desk;
use aim_layout::Layout;
use std::sync::ledger::Ledger;

impl<L: Ledger> Desk<L> {
    /// The columns of a step's row that vehicles hold, and those that lanes claim by their greens, one bit each; none where
    /// the step is past.
    pub fn chart_row(&self, layout: &Layout, row: u8, step: u32) -> (u64, u64)
        requires managed { (n : ℕ) × (h : List Entry) × IsManaged layout.now n h (now_of h 0) self.now }
        requires row { row < layout.now.grid.n }
        ensures held { (n : ℕ) (h : List Entry) → IsManaged layout.now n h (now_of h 0) self.now → (col : ℕ) → has_bit result.0 col
            ≡ (not (nat_lt step (now_of h 0)) && is_held layout.now h (cell_at step row col)) }
        ensures claimed { (n : ℕ) (h : List Entry) → IsManaged layout.now n h (now_of h 0) self.now → (col : ℕ) → col < 64 → has_bit result.1 col
            ≡ (not (nat_lt step (now_of h 0)) && is_claimed_by_some layout.now h (cell_at step row col)) }
    {
        if step < self.reservations.now() {
            return (0, 0);
        }
        let claims = self.timeline.claims(layout, step, None);
        (self.reservations.mask(step, row), claims[row as usize])
    }
}
