//! Sets of lanes: bit l of a word is set for lane l.

ghost use Rattle.std.specs.Prelude.{◌≡◌, ◌<◌, length};
ghost use Rattle.aim_geometry.specs.Bounded.{least_below};
ghost use Rattle.aim_layout.specs.Policies.{has_lane as has_lane_of};

use aim_layout::Layout;

/// Whether the lane is one of the set.
pub fn has_lane(lanes: u16, lane: u8) -> bool
    requires { lane < 16 }
    ensures { result ≡ has_lane_of lanes lane }
{
    (lanes >> lane) & 1 == 1
}

/// The least of the layout's lanes that is one of the set.
pub fn least_lane(layout: &Layout, lanes: u16) -> Option<u8>
    ensures { result ≡ least_below (length layout.now.lanes) (has_lane_of lanes) }
{
    for lane in 0..layout.lanes() as u8 {
        if has_lane(lanes, lane) {
            return Some(lane);
        }
    }
    None
}
