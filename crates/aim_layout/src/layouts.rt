//! Layouts.

ghost use Rattle.std.specs.Prelude.{◌≡◌, ℕ, ◌+◌, ◌<◌, ◌≤◌, ◌&&◌, nat_lt, length, slice_get, option_map, option_and_then, Some, None, ◌≢◌, IfOk};
ghost use Rattle.aim_geometry.specs.Rects.{tile_at};
ghost use Rattle.aim_layout.specs.Intersection.{path};
ghost use Rattle.aim_layout.specs.LaneRooms.{offered};
ghost use Rattle.aim_layout.specs.LaneRows.{HasTiles, HasTilesOf};
ghost use Rattle.aim_layout.specs.Valid.{IsValid};

use crate::lanes::LanePaths;
use crate::policies::StoredPolicy;
use crate::{NoMemory, Phase, PolicyKind};
use aim_geometry::{Ground, Station};
use aim_messages::Turn;
use std::alloc::Global;
use std::marker::Model;

/// A ground, lanes with their paths, and policies, to which no refusal applies.
#[derive(Drop)]
pub struct Layout {
    version: u8,
    ground: Ground,
    lanes: Vec<LanePaths>,
    tiles: Vec<[u64; 64]>,
    policies: Vec<StoredPolicy>,
    alloc: Global,
}

impl Model for Layout {
    ghost use Rattle.aim_layout.specs.Intersection.{Intersection};

    ghost Value = { Intersection };

    ghost use Rattle.aim_layout.specs.LaneRows.{HasTiles};
    ghost use Rattle.aim_layout.specs.Valid.{IsValid};

    ghost view = { λ l. record { version = l.version; grid = l.ground.grid; times = l.ground.times; lanes = l.lanes.items; policies = l.policies.items } };

    ghost invariant = { λ l.
        (IsValid (record { version = l.version; grid = l.ground.grid; times = l.ground.times; lanes = l.lanes.items; policies = l.policies.items }))
        × (HasTiles (record { version = l.version; grid = l.ground.grid; times = l.ground.times; lanes = l.lanes.items; policies = l.policies.items }) l.tiles.items) };
}

impl Layout {
    /// The layout of these parts.
    pub(crate) fn of_parts(
        version: u8,
        ground: Ground,
        lanes: Vec<LanePaths>,
        tiles: Vec<[u64; 64]>,
        policies: Vec<StoredPolicy>,
        alloc: Global,
    ) -> Layout
        requires valid { IsValid (record { version = version; grid = ground.grid; times = ground.times; lanes = lanes.items; policies = policies.items }) }
        requires tiles { HasTiles (record { version = version; grid = ground.grid; times = ground.times; lanes = lanes.items; policies = policies.items }) tiles.items }
        ensures { result ≡ record { version = version; grid = ground.grid; times = ground.times; lanes = lanes.items; policies = policies.items } }
    {
        Layout {
            version,
            ground,
            lanes,
            tiles,
            policies,
            alloc,
        }
    }

    /// The version of the rules by which messages are answered. The call also tells that the layout is valid.
    pub fn version(&self) -> u8
        ensures version { result ≡ self.now.version }
        ensures valid { IsValid self.now }
    {
        self.version
    }

    /// The ground. The call also tells that the layout is valid.
    pub fn ground(&self) -> &Ground
        ensures grid { result.now.grid ≡ self.now.grid }
        ensures times { result.now.times ≡ self.now.times }
        ensures valid { IsValid self.now }
    {
        &self.ground
    }

    /// The number of lanes. The call also tells that the layout is valid.
    pub fn lanes(&self) -> u32
        ensures count { result ≡ length self.now.lanes }
        ensures valid { IsValid self.now }
    {
        self.lanes.len() as u32
    }

    /// The number of policies. The call also tells that the layout is valid.
    pub fn policies(&self) -> u8
        ensures count { result ≡ length self.now.policies }
        ensures valid { IsValid self.now }
    {
        self.policies.len() as u8
    }

    /// The policy's kind.
    pub fn kind(&self, policy: u8) -> PolicyKind
        requires { policy < length self.now.policies }
        ensures { option_map (λ p. p.kind) (slice_get self.now.policies policy) ≡ Some result }
    {
        self.policies[policy as usize].kind()
    }

    /// The number of the policy's phases.
    pub fn phases(&self, policy: u8) -> u8
        requires { policy < length self.now.policies }
        ensures { option_map (λ p. length p.phases) (slice_get self.now.policies policy) ≡ Some result }
    {
        self.policies[policy as usize].count()
    }

    /// The red, the green and the lanes of a phase of the policy.
    pub fn phase(&self, policy: u8, phase: u8) -> (u32, u32, u16)
        requires policy { policy < length self.now.policies }
        requires phase { option_and_then (λ p. slice_get p.phases phase) (slice_get self.now.policies policy) ≢ None }
        ensures { option_and_then (λ p. slice_get p.phases phase) (slice_get self.now.policies policy) ≡ Some (record { red = result.0; green = result.1; lanes = result.2 }) }
    {
        let Phase { red, green, lanes } = self.policies[policy as usize].phase(phase);
        (red, green, lanes)
    }

    /// The stations of the lane's path with that turn, none where there is no such path.
    #[inline]
    pub(crate) fn stations(&self, lane: u8, turn: Turn) -> &[Station]
        ensures stations { offered result.now ≡ path self.now lane turn }
        ensures some { 0 < length result.now → 1 < length result.now }
        ensures most { length result.now ≤ 4097 }
    {
        if (lane as usize) < self.lanes.len() {
            self.lanes[lane as usize].stations(turn)
        } else {
            &[]
        }
    }

    /// An equal layout.
    pub fn copy(&self) -> Result<Layout, NoMemory>
        ensures { IfOk result (λ l. l ≡ self.now) }
    {
        let policies = copy_policies(self.alloc, self.policies.as_slice())?;
        let tiles = Vec::from_slice(self.alloc, self.tiles.as_slice())?;
        let lanes = copy_lanes(self.alloc, self.lanes.as_slice())?;
        Ok(Layout {
            version: self.version,
            ground: self.ground,
            lanes,
            tiles,
            policies,
            alloc: self.alloc,
        })
    }
}

// Equal lanes.
fn copy_lanes(alloc: Global, lanes: &[LanePaths]) -> Result<Vec<LanePaths>, NoMemory>
    ensures { IfOk result (λ v. v.items ≡ lanes.now) }
{
    let mut copies = Vec::with_capacity(alloc, lanes.len())?;
    for lane in lanes {
        copies.push_reserved(lane.copy(alloc)?);
    }
    Ok(copies)
}

// Equal policies.
fn copy_policies(alloc: Global, policies: &[StoredPolicy]) -> Result<Vec<StoredPolicy>, NoMemory>
    ensures { IfOk result (λ v. v.items ≡ policies.now) }
{
    let mut copies = Vec::with_capacity(alloc, policies.len())?;
    for policy in policies {
        copies.push_reserved(policy.copy());
    }
    Ok(copies)
}

/// The lane's tiles: bit c of word r is set where tile (r, c) meets the square of the lane tile sets round a station of
/// a path of the lane.
pub fn lane_rows(layout: &Layout, lane: u8) -> [u64; 64]
    requires { lane < length layout.now.lanes }
    ensures { HasTilesOf layout.now lane result }
{
    layout.tiles[lane as usize]
}
