//! The tiles of a step as spans of a sheet.

ghost use Rattle.std.specs.Prelude.{◌≡◌, ◌≢◌, ℕ, ◌<◌, ◌≤◌, ◌+◌, ◌-◌, ◌||◌, ◌&&◌, ◌==◌, length, OnErr, OnOk, if◌then◌else◌};
ghost use Rattle.aim_geometry.specs.Cells.{cell_at};
ghost use Rattle.aim_geometry.specs.Rects.{has_bit};
ghost use Rattle.aim_sheets.specs.Spans.{in_spans};
ghost use Rattle.aim_requests.specs.Rows.{AreBefore, has_shown, in_rows_of, is_border};
ghost use Rattle.aim_requests.specs.Counts.{count_below};

use aim_sheets::{Sheet, SheetFull, Span};

// Whether the row lies at the border.
#[inline]
fn is_end(n: u8, row: u8) -> bool
    requires { 0 < n }
    ensures { result ≡ (row == 0 || row == n - 1) }
{
    row == 0 || row == n - 1
}

// The columns of the row that lie at the border of an n by n grid.
#[inline]
fn border(n: u8, row: u8) -> u64
    requires some { 0 < n }
    requires few { n ≤ 64 }
    ensures { (c : ℕ) → c < 64 → has_bit result c ≡ is_border n row c }
{
    if is_end(n, row) {
        u64::MAX
    } else {
        1 | 1 << (n - 1)
    }
}

// A row: at the border from the one mask, inside from the other.
#[inline]
fn row_mask(n: u8, row: u8, inner: u64, outer: u64) -> u64
    requires some { 0 < n }
    requires few { n ≤ 64 }
    ensures { (c : ℕ) → c < 64 → has_bit result c ≡ (if is_border n row c then has_bit outer c else has_bit inner c) }
{
    let edge = border(n, row);
    inner & !edge | outer & edge
}

// Writes the span of a row behind all others, if it has a column.
#[inline]
fn push_row(sheet: &mut Sheet, step: u32, row: u8, mask: u64) -> Result<(), SheetFull>
    requires before { AreBefore sheet.old.spans step row }
    requires fits { length sheet.old.spans ≤ sheet.old.room }
    ensures cells { OnOk result ((s r c : ℕ) → in_spans sheet.new.spans (cell_at s r c) ≡ (in_spans sheet.old.spans (cell_at s r c) || (step == s && row == r && has_bit mask c))) }
    ensures count { OnOk result (length sheet.new.spans ≡ length sheet.old.spans + (if mask == 0 then 0 else 1)) }
    ensures before { OnOk result (AreBefore sheet.new.spans step (row + 1)) }
    ensures fits { OnOk result (length sheet.new.spans ≤ sheet.new.room) }
    ensures full { OnErr result ((mask ≢ 0) × (length sheet.old.spans ≡ sheet.old.room)) }
    ensures room { sheet.new.room ≡ sheet.old.room }
{
    if mask == 0 {
        return Ok(());
    }
    sheet.push_last(Span { step, row, mask })
}

// Writes the spans of one step behind all others.
#[inline]
pub fn write_step(
    sheet: &mut Sheet,
    n: u8,
    step: u32,
    first: u8,
    last: u8,
    inner: &[u64; 64],
    outer: &[u64; 64],
) -> Result<(), SheetFull>
    requires some { 0 < n }
    requires few { n ≤ 64 }
    requires last { last < 64 }
    requires order { first ≤ last }
    requires before { AreBefore sheet.old.spans step first }
    requires fits { length sheet.old.spans ≤ sheet.old.room }
    ensures cells { OnOk result ((s r c : ℕ) → in_spans sheet.new.spans (cell_at s r c) ≡ (in_spans sheet.old.spans (cell_at s r c) || in_rows_of n inner.now outer.now step first (last + 1) s r c)) }
    ensures count { OnOk result (length sheet.new.spans ≡ length sheet.old.spans + count_below (last + 1) (has_shown n inner.now outer.now first)) }
    ensures before { OnOk result (AreBefore sheet.new.spans step (last + 1)) }
    ensures fits { OnOk result (length sheet.new.spans ≤ sheet.new.room) }
    ensures full { OnErr result (sheet.old.room < length sheet.old.spans + count_below (last + 1) (has_shown n inner.now outer.now first)) }
    ensures room { sheet.new.room ≡ sheet.old.room }
{
    for row in first..last + 1 {
        let mask = row_mask(n, row, inner[row as usize], outer[row as usize]);
        push_row(sheet, step, row, mask)?;
    }
    Ok(())
}
