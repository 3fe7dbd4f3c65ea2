//! What lies in a quadrant's slot.

ghost use Rattle.std.specs.Prelude.{◌≡◌, [], ◌∷◌, ◌++◌, ◌+◌, ◌<◌, ◌≤◌, ℕ, filter, length, not, ◌==◌, true, vec_capacity};
ghost use Rattle.aim_geometry.specs.Cells.{Cell};
ghost use Rattle.aim_sheets.specs.Spans.{in_spans};
ghost use Rattle.aim_tiles.specs.Cells.{has_cell};
ghost use Rattle.aim_tiles.specs.Sheets.{AreAhead, AreTiles};
ghost use Rattle.aim_shards.specs.Clear.{IsClear};
ghost use Rattle.aim_shards.specs.Claims.{changed};

use crate::claims::{ClaimAct, ClaimEntry};
use aim_sheets::Sheet;
use aim_tiles::{IdleTable, Steps};
use std::marker::Brand;
use std::sync::ledger::{Blank, Ledger};

/// What the holder of the turn is about to enter.
#[derive(Clone, Copy)]
pub struct QuadrantPlan {
    pub act: ClaimAct,
    pub yes: bool,
}

/// A quadrant: its entries, the cells of the claims that stand, and what the holder is about to enter.
#[derive(Drop)]
pub struct Quarter {
    pub entries: Vec<ClaimEntry>,
    pub table: IdleTable,
    pub plan: QuadrantPlan,
}

// The table, and whether no cell of the sheet is taken there.
fn clear<L: Ledger>(table: IdleTable, sheet: &Sheet, blank: Blank) -> (IdleTable, bool)
    requires name { blank.name ≡ L.name }
    requires parts { blank.parts ≡ L.parts }
    requires some { 0 < blank.parts }
    requires tiles { AreTiles table.size sheet.now.spans }
    ensures same { result.0 ≡ table }
    ensures clear { IsClear table sheet.now.spans result.1 }
{
    let mut steps = Steps::<L>::new(blank);
    let table = table.join::<L>();
    let clear = table.first_taken(sheet, None, &mut steps).is_none();
    (table.leave(steps), clear)
}

// Takes the sheet's cells, or lets go of them, as the entry says.
fn change<L: Ledger>(table: IdleTable, entry: &ClaimEntry, sheet: &Sheet, blank: Blank) -> IdleTable
    requires name { blank.name ≡ L.name }
    requires parts { blank.parts ≡ L.parts }
    requires some { 0 < blank.parts }
    requires tiles { AreTiles table.size sheet.now.spans }
    requires ahead { AreAhead table.current table.horizon sheet.now.spans }
    ensures cells { (cell : Cell) → has_cell result cell ≡ changed entry.now.act entry.now.yes (has_cell table cell) (in_spans sheet.now.spans cell) }
    ensures rest { result ≡ record table { cells = result.cells } }
{
    if !entry.yes {
        return table;
    }
    let mut steps = Steps::<L>::new(blank);
    let mut table = table.join::<L>();
    match entry.act {
        ClaimAct::Claim(_) => table.claim(sheet, &mut steps),
        ClaimAct::Free(_) => table.release(sheet, &mut steps),
    }
    table.leave(steps)
}

impl Quarter {
    /// The quadrant as it is, and whether no cell of the sheet is taken.
    pub fn look(self, sheet: &Sheet) -> (Quarter, bool)
        requires { AreTiles self.table.size sheet.now.spans }
        ensures same { result.0 ≡ self }
        ensures clear { IsClear self.table sheet.now.spans result.1 }
    {
        let Quarter {
            entries,
            table,
            plan,
        } = self;
        let (table, clear) = clear::<Brand>(table, sheet, Blank::new(1));
        let quarter = Quarter {
            entries,
            table,
            plan,
        };
        (quarter, clear)
    }

    /// The quadrant with the entry, which claims or frees the sheet's cells.
    pub fn note(self, entry: ClaimEntry, sheet: &Sheet) -> Quarter
        requires room { length self.entries.items < vec_capacity self.entries }
        requires tiles { AreTiles self.table.size sheet.now.spans }
        requires ahead { AreAhead self.table.current self.table.horizon sheet.now.spans }
        ensures entries { result.entries.items ≡ self.entries.items ++ entry ∷ [] }
        ensures room { vec_capacity result.entries ≡ vec_capacity self.entries }
        ensures cells { (cell : Cell) → has_cell result.table cell ≡ changed entry.act entry.yes (has_cell self.table cell) (in_spans sheet.now.spans cell) }
        ensures rest { result.table ≡ record self.table { cells = result.table.cells } }
    {
        let Quarter {
            mut entries,
            table,
            plan,
        } = self;
        entries.push_reserved(entry);
        Quarter {
            entries,
            table: change::<Brand>(table, &entry, sheet, Blank::new(1)),
            plan,
        }
    }
}
