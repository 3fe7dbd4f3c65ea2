//! The rectangles round the stations of a path.

ghost use Rattle.std.specs.Prelude.{◌≡◌, ℕ, ◌<◌, ◌≤◌, length, true};
ghost use Rattle.aim_geometry.specs.Sites.{IsGrid};
ghost use Rattle.aim_footprint.specs.Fills.{AreRectsOf, AreWithin};
ghost use Rattle.aim_footprint.specs.Windows.{AreSteady};

use aim_geometry::{Ground, Station, TileRect, tile_rect};

/// Writes the rectangle of tiles that meet the square of that half side round each station.
pub fn fill_rects(ground: &Ground, half: u32, stations: &[Station], rects: &mut [TileRect])
    requires valid { IsGrid ground.now.grid }
    requires inside { AreWithin ground.now.grid stations.now }
    requires room { length rects.old ≡ length stations.now }
    ensures { AreRectsOf ground.now.grid half stations.now rects.new }
{
    for j in 0..stations.len() {
        let Station { x, y } = stations[j];
        rects[j] = tile_rect(ground, x, y, half);
    }
}

// Whether rows rose so far, and rise, or stay, from the one rectangle to the other.
fn rows_rise(so_far: bool, a: TileRect, b: TileRect) -> bool
    ensures { result ≡ true → (so_far ≡ true) × (a.row0 ≤ b.row0) × (a.row1 ≤ b.row1) }
{
    so_far && a.row0 <= b.row0 && a.row1 <= b.row1
}

// Whether columns rose so far, and rise, or stay, from the one rectangle to the other.
fn columns_rise(so_far: bool, a: TileRect, b: TileRect) -> bool
    ensures { result ≡ true → (so_far ≡ true) × (a.col0 ≤ b.col0) × (a.col1 ≤ b.col1) }
{
    so_far && a.col0 <= b.col0 && a.col1 <= b.col1
}

/// Whether the rows of the rectangles go one way, and their columns do.
pub fn are_steady(rects: &[TileRect]) -> bool
    ensures { result ≡ true → AreSteady rects.now }
{
    let (mut north, mut south, mut east, mut west) = (true, true, true, true);
    for j in 1..rects.len() {
        let (a, b) = (rects[j - 1], rects[j]);
        north = rows_rise(north, a, b);
        south = rows_rise(south, b, a);
        east = columns_rise(east, a, b);
        west = columns_rise(west, b, a);
    }
    (north || south) && (east || west)
}
