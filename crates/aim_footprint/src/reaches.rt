//! The stations that a vehicle covers in each step of its crossing.

ghost use Rattle.std.specs.Prelude.{◌≡◌, ℕ, ◌<◌, ◌≤◌, ◌+◌, ◌*◌, ◌-◌, ◌/◌, length, min, take};
ghost use Rattle.aim_geometry.specs.Bounded.{ceil_div};
ghost use Rattle.aim_layout.specs.Intersection.{stations};
ghost use Rattle.aim_rules.specs.Footprint.{crossing_steps};
ghost use Rattle.aim_footprint.specs.Fields.{IsMoving};
ghost use Rattle.aim_footprint.specs.Reaches.{AreReachesOf};

use aim_layout::Layout;
use aim_messages::Params;

/// The first and the last station under the vehicle in a step.
#[derive(Clone, Copy)]
pub struct Reach {
    pub low: u16,
    pub high: u16,
}

// The stations under a vehicle of that length whose front goes from `at` to `ahead` in a step. Its path has m parts.
fn reach_between(at: u32, ahead: u32, length: u32, spacing: u32, m: u32) -> Reach
    requires some { 0 < spacing }
    requires few { m ≤ 4096 }
    requires way { at ≤ m * spacing + length }
    requires room { ahead + spacing ≤ 4294967295 }
    ensures low { result.low ≡ (at - length) / spacing }
    ensures high { result.high ≡ min (ceil_div ahead spacing) m }
{
    let low = at.saturating_sub(length) / spacing;
    let high = ((ahead + (spacing - 1)) / spacing).min(m);
    Reach {
        low: low as u16,
        high: high as u16,
    }
}

/// Writes the stations that the vehicle covers in each step of its crossing, and gives the number of steps. Its path has
/// m parts.
pub fn fill_reaches(
    layout: &Layout,
    params: &Params,
    fast: bool,
    m: u32,
    reaches: &mut [Reach; 2048],
) -> usize
    requires moving { IsMoving params.now }
    requires path { 0 < length (stations layout.now params.now.lane params.now.turn) }
    requires parts { m ≡ length (stations layout.now params.now.lane params.now.turn) - 1 }
    requires few { m ≤ 4096 }
    requires steps { crossing_steps layout.now params.now fast ≤ 2048 }
    ensures count { result ≡ crossing_steps layout.now params.now fast }
    ensures reaches { AreReachesOf layout.now params.now fast (take result reaches.new) }
{
    let spacing = layout.ground().grid().spacing;
    let gain = if fast { params.accel } else { 0 };
    let end = m * spacing + params.length;
    let mut speed = params.speed;
    let mut at: u32 = 0;
    let mut k = 0;
    'steps: while at <= end && k < 2048 {
        let ahead = at + speed;
        reaches[k] = reach_between(at, ahead, params.length, spacing, m);
        at = ahead;
        speed = (speed + gain).min(params.max_speed);
        k += 1;
    }
    k
}
