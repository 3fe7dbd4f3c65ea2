//! The phases of light policies.

ghost use Rattle.std.specs.Prelude.{◌≡◌, ℕ, ◌+◌, ◌^◌, ◌≤◌, ◌<◌, ◌&&◌, ◌||◌, nat_le, nat_lt, length, slice_get, take, Some};
ghost use Rattle.aim_layout.specs.Policies.{has_lane};
ghost use Rattle.aim_rules.specs.Lights.{green_lanes, lit as lit_of, round as round_of};
ghost use Rattle.aim_policies.specs.Plans.{AreInRange, is_green_within, lights_of, phases_of};
ghost use Rattle.aim_policies.specs.Windows.{is_met};

use aim_layout::{Layout, Phase, PolicyKind};
use std::marker::Model;

/// A light policy: phases that go round for ever, each first red for all lanes, then green for some.
#[derive(Drop)]
pub struct Plan {
    kind: PolicyKind,
    phases: [Phase; 16],
    count: u8,
    round: u32,
}

impl Model for Plan {
    ghost use Rattle.aim_layout.specs.Intersection.{Policy};

    ghost Value = { Policy };

    ghost use Rattle.std.specs.Prelude.{◌≡◌, ◌≤◌, length, take};
    ghost use Rattle.aim_rules.specs.Lights.{round as round_of};
    ghost use Rattle.aim_policies.specs.Plans.{IsPlan};

    ghost view = { λ p. record { kind = p.kind; phases = take p.count p.phases } };

    ghost invariant = { λ p.
        (IsPlan (record { kind = p.kind; phases = take p.count p.phases }))
        × (p.count ≤ 16) × (length p.phases ≡ 16) × (p.round ≡ round_of (take p.count p.phases)) };
}

impl Plan {
    /// The policy's plan, none where the layout has no light policy of that number.
    pub fn of(layout: &Layout, policy: u8) -> Option<Plan>
        ensures { result ≡ lights_of (slice_get layout.now.policies policy) }
    {
        if policy >= layout.policies() {
            return None;
        }
        let kind = layout.kind(policy);
        if !kind.has_lights() {
            return None;
        }
        let mut phases = [NO_PHASE; 16];
        let count = layout.phases(policy);
        let round = gather(layout, policy, count, &mut phases);
        Some(Plan {
            kind,
            phases,
            count,
            round,
        })
    }
}

/// A phase of no step.
const NO_PHASE: Phase = Phase {
    red: 0,
    green: 0,
    lanes: 0,
};

// Takes over the phases of the policy, and gives the steps of a round.
fn gather(layout: &Layout, policy: u8, count: u8, phases: &mut [Phase; 16]) -> u32
    requires there { policy < length layout.now.policies }
    requires count { count ≡ length (phases_of (slice_get layout.now.policies policy)) }
    requires most { count ≤ 16 }
    requires range { AreInRange (phases_of (slice_get layout.now.policies policy)) }
    ensures phases { take count phases.new ≡ phases_of (slice_get layout.now.policies policy) }
    ensures round { result ≡ round_of (phases_of (slice_get layout.now.policies policy)) }
{
    let mut round = 0;
    for number in 0..count {
        let (red, green, lanes) = layout.phase(policy, number);
        phases[number as usize] = Phase { red, green, lanes };
        round += red + green;
    }
    round
}

/// The set of lanes that are green at an offset, counted from the step from which the policy is in force.
pub fn green_at(plan: &Plan, offset: u32) -> u16
    ensures { result ≡ green_lanes (Some plan.now) offset }
{
    lit(&plan.phases[..plan.count as usize], offset % plan.round)
}

// The set of lanes that are green at an offset into the round.
fn lit(phases: &[Phase], offset: u32) -> u16
    ensures { result ≡ lit_of phases.now offset }
{
    let mut left = offset;
    for phase in phases {
        if left < phase.red {
            return 0;
        }
        left -= phase.red;
        if left < phase.green {
            return phase.lanes;
        }
        left -= phase.green;
    }
    0
}

/// The set of lanes that are green at some offset from the first to the last.
pub fn green_within(plan: &Plan, first: u32, last: u32) -> u16
    requires { first ≤ last }
    ensures { (lane : ℕ) → has_lane result lane ≡ is_green_within plan.now first last lane }
{
    let round = u64::from(plan.round);
    let from = u64::from(first % plan.round);
    let to = from + u64::from(last - first);
    met_lanes(&plan.phases[..plan.count as usize], from, to, round)
}

// The lanes whose greens, in this round or a later one, have some offset from `from` to `to`.
fn met_lanes(phases: &[Phase], from: u64, to: u64, round: u64) -> u16
    requires few { length phases.now ≤ 16 }
    requires range { AreInRange phases.now }
    requires round { round < 2 ^ 32 }
    ensures { (lane : ℕ) → has_lane result lane ≡ is_met from to round 0 phases.now lane }
{
    let mut lanes = 0;
    let mut end = 0;
    for phase in phases {
        let begin = end + u64::from(phase.red);
        end = begin + u64::from(phase.green);
        lanes |= if_met(phase.lanes, meets(begin, end, from, to, round));
    }
    lanes
}

// Whether some offset from `from` to `to` is in the green from `begin` to before `end`, in this round or a later one.
fn meets(begin: u64, end: u64, from: u64, to: u64, round: u64) -> bool
    requires { begin + round < 2 ^ 64 }
    ensures { result ≡ (nat_le begin to && nat_lt from end || nat_le (begin + round) to) }
{
    begin <= to && from < end || begin + round <= to
}

// The lanes, or none.
fn if_met(lanes: u16, is_met: bool) -> u16
    ensures { (lane : ℕ) → has_lane result lane ≡ (is_met && has_lane lanes lane) }
{
    if is_met { lanes } else { 0 }
}
