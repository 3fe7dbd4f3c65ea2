//! Sheets with their rows, and tables that take them.

use aim_sheets::{Pool, Sheet, Span};
use aim_tiles::{Steps, Table};
use std::alloc::Global;
use std::sync::ledger::Ledger;

/// A step, a row, and the row's tiles as bits.
pub type Row = (u32, u8, u64);

/// Whether the row has a tile and the sheet has room for it. Then the sheet has it.
pub fn is_put(sheet: &mut Sheet, (step, row, mask): Row) -> bool {
    mask != 0 && sheet.push(Span { step, row, mask }).is_ok()
}

/// A sheet with room for so many spans and with these rows, where they find room.
pub fn sheet_of(alloc: Global, room: u32, rows: &[Row]) -> Option<Sheet> {
    let mut pool = Pool::new(alloc, 1, room).ok()?;
    let mut sheet = pool.take().ok()?;
    for row in rows {
        if !is_put(&mut sheet, *row) {
            return None;
        }
    }
    Some(sheet)
}

/// Takes the sheet's cells, where they are among those that the table has.
pub fn claims<L: Ledger>(table: &mut Table<L>, sheet: &Sheet, steps: &mut Steps<L>) -> bool {
    if !table.has_tiles(sheet) || !table.has_steps(sheet) {
        return false;
    }
    table.claim(sheet, steps);
    true
}

/// Whether the least taken cell of the sheet that isn't one's own is this one: its step, its row and its column.
pub fn is_first<L: Ledger>(
    table: &Table<L>,
    sheet: &Sheet,
    own: Option<&Sheet>,
    steps: &mut Steps<L>,
    want: Option<(u32, u8, u8)>,
) -> bool {
    table.has_tiles(sheet) && table.first_taken(sheet, own, steps) == want
}
