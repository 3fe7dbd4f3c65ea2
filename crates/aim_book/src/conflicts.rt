//! Why a cell of a crossing can't be had.

ghost use Rattle.std.specs.Prelude.{◌≡◌, ℕ, ◌+◌, ◌<◌, ◌≤◌, Bool, length, is_none};
ghost use Rattle.aim_geometry.specs.Cells.{cell_at};
ghost use Rattle.aim_messages.specs.declared.messages.Params.{Params};
ghost use Rattle.aim_tiles.specs.Sheets.{AreTiles};
ghost use Rattle.aim_rules.specs.Known.{Known};
ghost use Rattle.aim_rules.specs.Answer.{blocked_by, first_blocked};
ghost use Rattle.aim_reservations.specs.Blocking.{AreAsked, is_lit};
ghost use Rattle.aim_book.specs.Desk.{Tells};

use crate::desks::Desk;
use aim_layout::Layout;
use aim_messages::Reason;
use aim_reservations::green_lane;
use aim_sheets::Sheet;
use aim_tiles::Steps;
use std::sync::ledger::Ledger;

impl<L: Ledger> Desk<L> {
    // Why the cell can't be had, if it can't: a lane claims it, or else a vehicle has taken it.
    fn why_blocked(
        &self,
        layout: &Layout,
        vehicle: u32,
        lane: u8,
        cell: (u32, u8, u8),
    ) -> Option<Reason>
        requires row { cell.1 < layout.now.grid.n }
        requires col { cell.2 < layout.now.grid.n }
        requires few { length self.now.reservations.rows.items ≤ 65536 }
        ensures { (k : Known) (p : Params) (place : ℕ) → Tells layout.now vehicle place k self.now → p.lane ≡ lane → k.now ≤ cell.0 → result ≡ blocked_by layout.now k p (cell_at cell.0 cell.1 cell.2) }
    {
        let (step, row, col) = cell;
        if let Some(lane) = green_lane(layout, &self.timeline, lane, step, row, col) {
            return Some(Reason::Green {
                row,
                col,
                step,
                lane,
            });
        }
        match self.reservations.holder(vehicle, step, row, col) {
            Some(by) => Some(Reason::Taken { row, col, step, by }),
            None => None,
        }
    }

    /// Whether the cells of the sheet, those of a crossing in the lane, can all be had.
    pub(crate) fn is_free(
        &self,
        layout: &Layout,
        vehicle: u32,
        lane: u8,
        sheet: &Sheet,
        steps: &mut Steps<L>,
    ) -> bool
        requires there { vehicle < length self.now.reservations.rows.items }
        requires lights { self.now.has_lights ≡ is_lit layout.now }
        requires size { self.now.reservations.table.size ≡ layout.now.grid.n }
        requires tiles { AreTiles layout.now.grid.n sheet.now.spans }
        ensures free { (k : Known) (p : Params) (fast : Bool) (place : ℕ) → Tells layout.now vehicle place k self.now → AreAsked layout.now k p fast sheet.now.spans → p.lane ≡ lane → result ≡ is_none (first_blocked layout.now k p (record { start = p.arrive; fast = fast })) }
        ensures cost { steps.new ≤ steps.old + length sheet.now.spans }
        ensures counted { steps.old ≤ steps.new }
    {
        let blocked = self.reservations.first_blocked(
            layout,
            &self.timeline,
            self.has_lights,
            vehicle,
            lane,
            sheet,
            steps,
        );
        match blocked {
            Some(_) => false,
            None => true,
        }
    }

    /// Why the cells of the sheet, those of a crossing in the lane, can't all be had, if they can't: the reason of the
    /// least of them.
    pub(crate) fn conflict(
        &self,
        layout: &Layout,
        vehicle: u32,
        lane: u8,
        sheet: &Sheet,
        steps: &mut Steps<L>,
    ) -> Option<Reason>
        requires there { vehicle < length self.now.reservations.rows.items }
        requires few { length self.now.reservations.rows.items ≤ 65536 }
        requires lights { self.now.has_lights ≡ is_lit layout.now }
        requires size { self.now.reservations.table.size ≡ layout.now.grid.n }
        requires tiles { AreTiles layout.now.grid.n sheet.now.spans }
        ensures reason { (k : Known) (p : Params) (fast : Bool) (place : ℕ) → Tells layout.now vehicle place k self.now → AreAsked layout.now k p fast sheet.now.spans → p.lane ≡ lane → result ≡ first_blocked layout.now k p (record { start = p.arrive; fast = fast }) }
        ensures cost { steps.new ≤ steps.old + length sheet.now.spans }
        ensures counted { steps.old ≤ steps.new }
    {
        let blocked = self.reservations.first_blocked(
            layout,
            &self.timeline,
            self.has_lights,
            vehicle,
            lane,
            sheet,
            steps,
        );
        match blocked {
            Some(cell) => self.why_blocked(layout, vehicle, lane, cell),
            None => None,
        }
    }
}
