//! Cutting sets along the borders of the quadrants.

ghost use Rattle.std.specs.Prelude.{◌≡◌, ◌<◌, ◌≤◌, ◌+◌, ◌*◌, ◌==◌, ◌&&◌, ◌||◌, true, false, not, nat_le, if◌then◌else◌, ℕ, filter, length, All, IfOk};
ghost use Rattle.aim_geometry.specs.Cells.{Cell};
ghost use Rattle.aim_geometry.specs.Rects.{has_bit};
ghost use Rattle.aim_sheets.specs.Spans.{in_span, in_spans, precedes};
ghost use Rattle.aim_shards.specs.Cuts.{AreCut, half_of, is_beside, lies_at, one, quadrant_at};
ghost use Rattle.aim_shards.specs.Sets.{part};

use crate::sets::Quartered;
use aim_sheets::{Pool, Sheet, Span};
use std::alloc::{AllocError, Global};

// Whether the span's row is in the second half, or in the first, as `down` says.
fn is_beside(half: u32, down: bool, span: &Span) -> bool
    ensures { result ≡ is_beside half down span.now }
{
    (span.row as u32 >= half) == down
}

// Room for the spans whose rows are in that half.
fn room_beside(half: u32, down: bool, sheet: &Sheet) -> u32
    ensures { length (filter (is_beside half down) sheet.now.spans) ≤ result }
{
    let mut count = 0;
    for span in sheet.spans() {
        if is_beside(half, down, span) {
            count += 1;
        }
    }
    count.min(sheet.room() as usize) as u32
}

// A quadrant: whether its rows are those of the second half, and whether its columns are.
#[derive(Clone, Copy)]
struct Corner {
    half: u32,
    down: bool,
    right: bool,
}

impl Corner {
    fn new(half: u32, down: bool, right: bool) -> Corner
        ensures { result ≡ record { half = half; down = down; right = right } }
    {
        Corner { half, down, right }
    }

    // The columns of a row that lie in the quadrant.
    fn columns(self, row: u8, mask: u64) -> u64
        requires half { self.half ≤ 32 }
        requires row { (if self.down then nat_le self.half row else not (nat_le self.half row)) ≡ true }
        ensures { (column : ℕ) → has_bit result column ≡ (has_bit mask column && (quadrant_at self.half row column == 2 * one self.down + one self.right)) }
    {
        if self.right {
            mask & (u64::MAX << self.half)
        } else {
            mask & ((1 << self.half) - 1)
        }
    }

    // Adds the span's cells in the quadrant, which come behind all that were added.
    fn add(self, part: &mut Sheet, span: Span)
        requires half { self.half ≤ 32 }
        requires room { is_beside self.half self.down span ≡ true → length part.old.spans < part.old.room }
        requires last { All (λ held. precedes held span.step span.row ≡ true) part.old.spans }
        ensures cells { (cell : Cell) → in_spans part.new.spans cell ≡ (in_spans part.old.spans cell || (in_span span cell && lies_at self.half (2 * one self.down + one self.right) cell)) }
        ensures count { length part.new.spans ≤ length part.old.spans + one (is_beside self.half self.down span) }
        ensures room { part.new.room ≡ part.old.room }
        ensures last { (step row : ℕ) → All (λ held. precedes held step row ≡ true) part.old.spans → precedes span step row ≡ true → All (λ held. precedes held step row ≡ true) part.new.spans }
    {
        if !is_beside(self.half, self.down, &span) {
            return;
        }
        let mask = self.columns(span.row, span.mask);
        if mask == 0 {
            return;
        }
        let Ok(()) = part.push_last(Span { mask, ..span }) else {
            unreachable!()
        };
    }

    // The set's cells in the quadrant, for whose spans there is so much room.
    fn part(self, alloc: Global, room: u32, sheet: &Sheet) -> Result<Sheet, AllocError>
        requires half { self.half ≤ 32 }
        requires room { length (filter (is_beside self.half self.down) sheet.now.spans) ≤ room }
        ensures { IfOk result (λ s. (cell : Cell) → in_spans s.spans cell ≡ (in_spans sheet.now.spans cell && lies_at self.half (2 * one self.down + one self.right) cell)) }
    {
        let mut pool = Pool::new(alloc, 1, room)?;
        let Ok(mut part) = pool.take() else {
            unreachable!()
        };
        for span in sheet.spans() {
            self.add(&mut part, *span);
        }
        Ok(part)
    }
}

// The set's parts in the left and the right quadrant of a half of the rows, the second half where `down` says so.
fn two_parts(
    alloc: Global,
    half: u32,
    down: bool,
    sheet: &Sheet,
) -> Result<(Sheet, Sheet), AllocError>
    requires { half ≤ 32 }
    ensures left { IfOk result (λ p. (cell : Cell) → in_spans p.0.spans cell ≡ (in_spans sheet.now.spans cell && lies_at half (2 * one down + one false) cell)) }
    ensures right { IfOk result (λ p. (cell : Cell) → in_spans p.1.spans cell ≡ (in_spans sheet.now.spans cell && lies_at half (2 * one down + one true) cell)) }
{
    let room = room_beside(half, down, sheet);
    let left = Corner::new(half, down, false).part(alloc, room, sheet)?;
    let right = Corner::new(half, down, true).part(alloc, room, sheet)?;
    Ok((left, right))
}

// The set's parts in the four quadrants.
fn quarter(alloc: Global, half: u32, sheet: &Sheet) -> Result<Quartered, AllocError>
    requires { half ≤ 32 }
    ensures { IfOk result (λ s. (q : ℕ) (cell : Cell) → q < 4 → in_spans (part s q) cell ≡ (in_spans sheet.now.spans cell && lies_at half q cell)) }
{
    let upper = two_parts(alloc, half, false, sheet)?;
    let lower = two_parts(alloc, half, true, sheet)?;
    Ok(Quartered::new(upper.0, upper.1, lower.0, lower.1))
}

/// All sets' parts in the four quadrants of a grid of n rows and columns. Each set is let go once it is cut, so its room can be
/// taken for the next one's parts.
pub(crate) fn quarter_all(
    alloc: Global,
    n: u32,
    sets: Vec<Sheet>,
) -> Result<Vec<Quartered>, AllocError>
    requires { n ≤ 64 }
    ensures { IfOk result (λ v. AreCut (half_of n) sets.items v.items) }
{
    let half = n.div_ceil(2);
    let mut quarters = Vec::with_capacity(alloc, sets.len())?;
    for sheet in sets {
        quarters.push_reserved(quarter(alloc, half, &sheet)?);
    }
    Ok(quarters)
}
