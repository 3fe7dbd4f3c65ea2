//! Crossings that differ in their arrival alone.

ghost use Rattle.std.specs.Prelude.{◌≡◌, ◌≤◌, IfSome, true};
ghost use Rattle.aim_requests.specs.Shapes.{IsAnew, arriving};

use crate::requests::Prepared;
use aim_footprint::has_bad_window;
use aim_layout::Layout;
use aim_messages::{LATEST_MOMENT, Params};

// Whether the crossings differ in their arrival at most.
fn is_alike(a: &Params, b: &Params) -> bool
    ensures { result ≡ true → b.now ≡ arriving a.now b.now.arrive b.now.latest }
{
    a.lane == b.lane
        && a.turn == b.turn
        && a.speed == b.speed
        && a.max_speed == b.max_speed
        && a.accel == b.accel
        && a.length == b.length
        && a.width == b.width
        && a.emergency == b.emergency
}

// The step at which the crossing of a prepared request arrives, if it is the params' one but for the arrival, no buffer of
// either reaches back past step 0, and the params have no bad window.
#[inline]
pub fn arrival_in(layout: &Layout, prepared: &Prepared, params: &Params) -> Option<u32>
    ensures { IfSome result (λ from. IsAnew layout.now prepared.now from params.now) }
{
    let edge = layout.ground().times().edge;
    if params.arrive < edge || LATEST_MOMENT < params.arrive {
        return None;
    }
    if has_bad_window(layout, params) {
        return None;
    }
    match prepared.asked() {
        Some(known) if edge <= known.arrive && is_alike(&known, params) => Some(known.arrive),
        _ => None,
    }
}
