//! Rows of tiles as bits: bit c of word r is tile (r, c).

ghost use Rattle.std.specs.Prelude.{◌≡◌, ℕ, ◌<◌, ◌||◌};
ghost use Rattle.aim_geometry.specs.Rects.{has_bit, in_columns, in_rect, tile_at, IsRect};

use crate::tiles::TileRect;

/// The rectangle's columns as bits.
#[inline]
pub fn columns(rect: TileRect) -> u64
    requires { IsRect 64 rect }
    ensures { (c : ℕ) → c < 64 → has_bit result c ≡ in_columns rect c }
{
    (u64::MAX >> (63 - rect.col1)) & (u64::MAX << rect.col0)
}

/// Sets the bits of the rectangle's tiles.
#[inline]
pub fn join(rows: &mut [u64; 64], rect: TileRect)
    requires { IsRect 64 rect }
    ensures { (r c : ℕ) → r < 64 → c < 64 → tile_at rows.new r c ≡ (tile_at rows.old r c || in_rect rect r c) }
{
    let mask = columns(rect);
    for row in rect.row0..rect.row1 + 1 {
        rows[row as usize] |= mask;
    }
}
