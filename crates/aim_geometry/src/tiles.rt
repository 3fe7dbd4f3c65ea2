//! Tiles that a square touches, and tiles at the border.

ghost use Rattle.std.specs.Prelude.{◌≡◌, ℕ, ◌+◌, ◌*◌, ◌<◌, ◌≤◌, ◌&&◌, ◌||◌, ◌↔◌, IsTrue};
ghost use Rattle.aim_geometry.specs.Ground.{is_edge as is_edge_of, is_touched, meets};
ghost use Rattle.aim_geometry.specs.Rects.{has_bit, in_columns, in_rect, tile_at, IsRect};

use crate::ground::Ground;

/// Tiles from a row and column to a row and column, both ends included. Row 0 is the south row, column 0 the west
/// column.
#[derive(Clone, Copy)]
pub struct TileRect {
    pub row0: u8,
    pub row1: u8,
    pub col0: u8,
    pub col1: u8,
}

// The first and the last tile of a row of n tiles that meet the interval of that half length round x.
#[inline]
#[tactic(auto, using(crate::proofs::Quotients::quotients_order, crate::proofs::Quotients::quotient_below))]
fn tile_range(tile: u32, n: u32, x: u32, half: u32) -> (u8, u8)
    requires size { 0 < tile }
    requires some { 0 < n }
    requires few { n ≤ 64 }
    requires inside { x ≤ n * tile }
    ensures order { result.0 ≤ result.1 }
    ensures within { result.1 < n }
    ensures exact { (i : ℕ) → i < n → (IsTrue (meets tile half i x) ↔ ((result.0 ≤ i) × (i ≤ result.1))) }
{
    let first = x.saturating_sub(half).saturating_sub(1) / tile;
    let last = ((x as u64 + half as u64) / tile as u64).min(n as u64 - 1);
    (first as u8, last as u8)
}

/// The tiles of the grid whose closed square meets the closed square of that half side round (x, y).
#[inline]
pub fn tile_rect(ground: &Ground, x: u32, y: u32, half: u32) -> TileRect
    requires x { x ≤ ground.now.grid.side }
    requires y { y ≤ ground.now.grid.side }
    ensures rect { IsRect ground.now.grid.n result }
    ensures exact { (row col : ℕ) → in_rect result row col ≡ is_touched ground.now.grid half (record { x = x; y = y }) row col }
{
    let grid = ground.grid();
    let tile = grid.side / grid.n;
    let (row0, row1) = tile_range(tile, grid.n, y, half);
    let (col0, col1) = tile_range(tile, grid.n, x, half);
    TileRect {
        row0,
        row1,
        col0,
        col1,
    }
}

/// Whether the tile lies at the border.
#[inline]
pub fn is_edge(ground: &Ground, row: u8, col: u8) -> bool
    ensures { result ≡ is_edge_of ground.now.grid row col }
{
    let last = ground.grid().n - 1;
    row == 0 || row as u32 == last || col == 0 || col as u32 == last
}
