//! Bits of rectangles that come and go.

ghost use Rattle.std.specs.Prelude.{◌≡◌, ℕ, ◌<◌, ◌≤◌, ◌&&◌, ◌||◌, not, true};
ghost use Rattle.aim_geometry.specs.Rects.{has_bit, in_columns, in_rect, tile_at, IsRect};

use aim_geometry::{TileRect, columns, join};

// Those of the rectangle's columns that are in it in a row.
#[inline]
fn in_row(rect: TileRect, columns: u64, row: u8) -> u64
    requires { (c : ℕ) → c < 64 → has_bit columns c ≡ in_columns rect c }
    ensures { (c : ℕ) → c < 64 → has_bit result c ≡ in_rect rect row c }
{
    if rect.row0 <= row && row <= rect.row1 {
        columns
    } else {
        0
    }
}

// Whether each tile of the one is in the other.
#[inline]
fn is_within(part: TileRect, whole: TileRect) -> bool
    ensures { result ≡ true → (r c : ℕ) → in_rect part r c ≡ true → in_rect whole r c ≡ true }
{
    whole.row0 <= part.row0
        && part.row1 <= whole.row1
        && whole.col0 <= part.col0
        && part.col1 <= whole.col1
}

// Sets the bits of the rectangle's tiles, where those of another one are set already.
#[inline]
pub fn renew(rows: &mut [u64; 64], rect: TileRect, before: TileRect)
    requires fits { IsRect 64 rect }
    requires set { (r c : ℕ) → r < 64 → c < 64 → in_rect before r c ≡ true → tile_at rows.old r c ≡ true }
    ensures { (r c : ℕ) → r < 64 → c < 64 → tile_at rows.new r c ≡ (tile_at rows.old r c || in_rect rect r c) }
{
    if !is_within(rect, before) {
        join(rows, rect);
    }
}

// Clears the bits of the tiles that are in the one rectangle and not in the other, row by row.
#[inline]
fn clear(rows: &mut [u64; 64], gone: TileRect, kept: TileRect)
    requires gone { IsRect 64 gone }
    requires kept { IsRect 64 kept }
    ensures { (r c : ℕ) → r < 64 → c < 64 → tile_at rows.new r c ≡ (tile_at rows.old r c && not (in_rect gone r c && not (in_rect kept r c))) }
{
    let all = columns(gone);
    let other = columns(kept);
    for row in gone.row0..gone.row1 + 1 {
        let stay = in_row(kept, other, row);
        rows[row as usize] &= !(all & !stay);
    }
}

// Clears the bits of the tiles that are in the one rectangle and not in the other, and does no work where the one is
// within the other.
#[inline]
pub fn leave(rows: &mut [u64; 64], gone: TileRect, kept: TileRect)
    requires gone { IsRect 64 gone }
    requires kept { IsRect 64 kept }
    ensures { (r c : ℕ) → r < 64 → c < 64 → tile_at rows.new r c ≡ (tile_at rows.old r c && not (in_rect gone r c && not (in_rect kept r c))) }
{
    if !is_within(gone, kept) {
        clear(rows, gone, kept);
    }
}
