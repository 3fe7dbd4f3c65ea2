//! The tiles that lanes claim.

ghost use Rattle.std.specs.Prelude.{◌≡◌, ℕ, ◌<◌, ◌&&◌, ◌||◌, true, length};
ghost use Rattle.aim_geometry.specs.Rects.{tile_at};
ghost use Rattle.aim_layout.specs.LaneTiles.{in_lane_tiles};
ghost use Rattle.aim_layout.specs.Policies.{has_lane as has_lane_of};
ghost use Rattle.aim_layout.specs.Valid.{IsValid};
ghost use Rattle.aim_policies.specs.Claimed.{is_other, is_tile_of};

use crate::lanes::has_lane;
use aim_layout::{Layout, lane_rows};

/// The tiles of the set's lanes other than the one excepted: bit c of word r is set for tile (r, c). The call also tells
/// that the layout is valid.
pub fn claimed_rows(layout: &Layout, lanes: u16, except: Option<u8>) -> [u64; 64]
    requires { (lane : ℕ) → has_lane_of lanes lane ≡ true → lane < length layout.now.lanes }
    ensures rows { (row col : ℕ) → row < 64 → col < 64 → tile_at result row col ≡ is_tile_of layout.now lanes except row col }
    ensures valid { IsValid layout.now }
{
    let mut rows = [0; 64];
    for lane in 0..layout.lanes() as u8 {
        unite_counted(&mut rows, layout, lanes, except, lane);
    }
    rows
}

// Sets the bits of the lane's tiles too, if the lane is one of the set and not the one excepted.
fn unite_counted(rows: &mut [u64; 64], layout: &Layout, lanes: u16, except: Option<u8>, lane: u8)
    requires few { lane < 16 }
    requires there { lane < length layout.now.lanes }
    ensures { (row col : ℕ) → row < 64 → col < 64 → tile_at rows.new row col ≡ (tile_at rows.old row col || (is_other except lane && has_lane_of lanes lane && in_lane_tiles layout.now lane row col)) }
{
    if is_counted(lanes, except, lane) {
        unite(rows, &lane_rows(layout, lane));
    }
}

// Whether the lane is one of the set, and not the one excepted.
fn is_counted(lanes: u16, except: Option<u8>, lane: u8) -> bool
    requires { lane < 16 }
    ensures { result ≡ (is_other except lane && has_lane_of lanes lane) }
{
    match except {
        Some(except) => lane != except && has_lane(lanes, lane),
        None => has_lane(lanes, lane),
    }
}

// Sets the bits of the further rows too.
fn unite(rows: &mut [u64; 64], more: &[u64; 64])
    ensures { (row col : ℕ) → row < 64 → tile_at rows.new row col ≡ (tile_at rows.old row col || tile_at more.now row col) }
{
    for row in 0..64 {
        rows[row] |= more[row];
    }
}
