//! Timelines of policies.

ghost use Rattle.std.specs.Prelude.{◌≡◌, ℕ, ◌+◌, ◌-◌, ◌<◌, ◌≤◌, [], ◌∷◌, ◌++◌, true, length, slice_get, IfOk};
ghost use Rattle.std.specs.List.{list_any, range_with_len};
ghost use Rattle.std.specs.List.Sorted.{IsNonDecreasingBy};
ghost use Rattle.aim_geometry.specs.Rects.{tile_at};
ghost use Rattle.aim_layout.specs.Policies.{has_lane};
ghost use Rattle.aim_rules.specs.Kept.{policy_in};
ghost use Rattle.aim_rules.specs.Lights.{green_lanes};
ghost use Rattle.aim_policies.specs.Changes.{green_in, is_claimed_for, latest};
ghost use Rattle.aim_policies.specs.Stored.{IsPoint};

use crate::{NoMemory, Plan, claimed_rows, green_within};
use aim_layout::Layout;
use std::alloc::Global;
use std::marker::Model;

/// A policy, and the step from which it is in force.
#[derive(Clone, Copy)]
struct Change {
    policy: u8,
    from: u32,
}

/// Policies in the course of time. Policy 0 is in force from step 0 until the first change.
#[derive(Drop)]
pub struct Timeline {
    changes: Vec<Change>,
    room: u32,
}

impl Model for Timeline {
    ghost use Rattle.aim_policies.specs.Changes.{Changes};

    ghost Value = { Changes };

    ghost use Rattle.std.specs.Prelude.{◌≤◌, map, vec_capacity};
    ghost use Rattle.std.specs.List.Sorted.{IsNonDecreasingBy};
    ghost use Rattle.aim_policies.specs.Stored.{change_of};

    ghost view = { λ t. record { pushed = map change_of t.changes.items; room = t.room } };

    ghost invariant = { λ t. (t.room ≤ vec_capacity t.changes) × (IsNonDecreasingBy (λ c. c.from) t.changes.items) };
}

// How many of the changes are in force at the step or were so before.
fn begun(changes: &[Change], step: u32) -> usize
    requires order { IsNonDecreasingBy (λ c. c.from) changes.now }
    ensures most { result ≤ length changes.now }
    ensures point { IsPoint changes.now step result }
{
    changes.partition_point(|change| change.from <= step)
}

impl Timeline {
    /// A timeline without a change, and with the room for so many.
    pub fn new(alloc: Global, room: u32) -> Result<Timeline, NoMemory>
        ensures { IfOk result (λ t. t ≡ record { pushed = []; room = room }) }
    {
        Ok(Timeline {
            changes: Vec::with_capacity(alloc, room as usize)?,
            room,
        })
    }

    /// Adds a change, which is in force from no earlier step than the one before it.
    pub fn push(&mut self, from: u32, policy: u8)
        requires room { length self.old.pushed < self.old.room }
        requires order { latest self.old.pushed ≤ from }
        ensures { self.new ≡ record self.old { pushed = self.old.pushed ++ record { policy = policy; from = from } ∷ [] } }
    {
        self.changes.push_reserved(Change { policy, from });
    }

    /// The policy that is in force at the step, and since which step.
    pub fn policy_at(&self, step: u32) -> (u8, u32)
        ensures policy { record { policy = result.0; from = result.1 } ≡ policy_in self.now.pushed step }
        ensures since { result.1 ≤ step }
    {
        let count = begun(&self.changes, step);
        if count == 0 {
            return (0, 0);
        }
        let Change { policy, from } = self.changes[count - 1];
        (policy, from)
    }

    /// The tiles of the lanes other than the one excepted that are green at the step or were so at most the clearance
    /// before: bit c of word r is set for tile (r, c).
    pub fn claims(&self, layout: &Layout, step: u32, except: Option<u8>) -> [u64; 64]
        ensures { (row col : ℕ) → row < 64 → col < 64 →
            tile_at result row col ≡ is_claimed_for layout.now (policy_in self.now.pushed) except (record { row = row; col = col; step = step }) }
    {
        claimed_rows(layout, self.claimants(layout, step), except)
    }

    /// The set of lanes that are green at the step or were so at most the clearance before: bit i is lane i.
    pub fn claimants(&self, layout: &Layout, step: u32) -> u16
        ensures green { (lane : ℕ) → has_lane result lane ≡ list_any (λ s. has_lane (green_in layout.now self.now.pushed s) lane)
            (range_with_len (step - layout.now.times.clearance) (step + 1 - (step - layout.now.times.clearance))) }
        ensures there { (lane : ℕ) → has_lane result lane ≡ true → lane < length layout.now.lanes }
    {
        let first = step.saturating_sub(layout.ground().times().clearance);
        let mut last = step;
        let mut lanes = 0;
        'windows: loop {
            let (policy, from) = self.policy_at(last);
            lanes |= green_between(layout, policy, first.max(from) - from, last - from);
            if from <= first {
                return lanes;
            }
            last = from - 1;
        }
    }
}

// The set of lanes that the policy has green at some offset from the first to the last.
fn green_between(layout: &Layout, policy: u8, first: u32, last: u32) -> u16
    requires { first ≤ last }
    ensures { (lane : ℕ) → has_lane result lane ≡ list_any (λ o. has_lane (green_lanes (slice_get layout.now.policies policy) o) lane)
        (range_with_len first (last + 1 - first)) }
{
    match Plan::of(layout, policy) {
        Some(plan) => green_within(&plan, first, last),
        None => 0,
    }
}
