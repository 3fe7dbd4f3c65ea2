//! Lanes as a layout stores them.

ghost use Rattle.std.specs.Prelude.{◌≡◌, ℕ, ◌<◌, ◌≤◌, ◌&&◌, ◌||◌, false, is_some, IfOk, None, slice_get, Some, vec_capacity};
ghost use Rattle.aim_geometry.specs.declared.stations.Station.{Station};
ghost use Rattle.aim_geometry.specs.Rects.{tile_at};
ghost use Rattle.aim_geometry.specs.Sites.{IsGrid};
ghost use Rattle.aim_layout.specs.Building.{no_paths, with_path};
ghost use Rattle.aim_layout.specs.Intersection.{path_of};
ghost use Rattle.aim_layout.specs.LaneTiles.{is_met};
ghost use Rattle.aim_layout.specs.Shapes.{is_bad_shape, stations_of};
ghost use Rattle.aim_layout.specs.LaneRooms.{offered};

use crate::{NoMemory, Shape};
use aim_geometry::{Ground, Station, join, tile_rect};
use aim_messages::Turn;
use std::alloc::Global;
use std::marker::Model;

/// The most stations of a path.
pub const STATIONS: usize = 4097;

/// The paths of a lane, with room for one of each turn. A turn that isn't offered has no station.
#[derive(Drop)]
pub struct LanePaths {
    left: Vec<Station>,
    straight: Vec<Station>,
    right: Vec<Station>,
}

impl Model for LanePaths {
    ghost use Rattle.aim_layout.specs.Intersection.{Lane};

    ghost Value = { Lane };

    ghost use Rattle.std.specs.Prelude.{◌≤◌, vec_capacity};
    ghost use Rattle.aim_layout.specs.LaneRooms.{offered};

    ghost view = { λ l. record { left = offered l.left.items; straight = offered l.straight.items; right = offered l.right.items } };

    ghost invariant = { λ l. (4097 ≤ vec_capacity l.left) × (4097 ≤ vec_capacity l.straight) × (4097 ≤ vec_capacity l.right) };
}

impl LanePaths {
    /// A lane without a path.
    pub fn new(alloc: Global) -> Result<LanePaths, NoMemory>
        ensures { IfOk result (λ l. l ≡ no_paths) }
    {
        Ok(LanePaths {
            left: Vec::with_capacity(alloc, STATIONS)?,
            straight: Vec::with_capacity(alloc, STATIONS)?,
            right: Vec::with_capacity(alloc, STATIONS)?,
        })
    }

    /// The stations of the path with that turn, none where the turn isn't offered.
    #[inline]
    pub fn stations(&self, turn: Turn) -> &[Station]
        ensures { offered result.now ≡ path_of self.now turn }
    {
        match turn {
            Turn::Left => self.left.as_slice(),
            Turn::Straight => self.straight.as_slice(),
            Turn::Right => self.right.as_slice(),
        }
    }

    /// Adds the path of that turn, which isn't offered yet.
    pub fn add(&mut self, turn: Turn, shape: &Shape)
        requires shape { is_bad_shape 1000000 shape.now ≡ false }
        requires none { path_of self.old turn ≡ None }
        ensures { self.new ≡ with_path self.old turn (stations_of shape.now) }
    {
        match turn {
            Turn::Left => shape.fill(&mut self.left),
            Turn::Straight => shape.fill(&mut self.straight),
            Turn::Right => shape.fill(&mut self.right),
        }
    }

    /// An equal lane.
    pub fn copy(&self, alloc: Global) -> Result<LanePaths, NoMemory>
        ensures { IfOk result (λ l. l ≡ self.now) }
    {
        Ok(LanePaths {
            left: with_room(alloc, &self.left)?,
            straight: with_room(alloc, &self.straight)?,
            right: with_room(alloc, &self.right)?,
        })
    }
}

// Equal stations, in a list with the room of a path.
fn with_room(alloc: Global, stations: &Vec<Station>) -> Result<Vec<Station>, NoMemory>
    ensures stations { IfOk result (λ v. v.items ≡ stations.now.items) }
    ensures room { IfOk result (λ v. 4097 ≤ vec_capacity v) }
{
    let mut copy = Vec::with_capacity(alloc, STATIONS)?;
    copy.extend_from_slice(stations.as_slice())?;
    Ok(copy)
}

/// Adds the path of a turn that isn't offered yet to the lane and to its rows of tiles.
pub fn add_path(
    ground: &Ground,
    paths: &mut LanePaths,
    rows: &mut [u64; 64],
    turn: Turn,
    shape: &Shape,
)
    requires grid { IsGrid ground.now.grid }
    requires shape { is_bad_shape ground.now.grid.side shape.now ≡ false }
    requires none { path_of paths.old turn ≡ None }
    ensures paths { paths.new ≡ with_path paths.old turn (stations_of shape.now) }
    ensures rows { (row col : ℕ) → row < 64 → col < 64 → tile_at rows.new row col ≡ (tile_at rows.old row col || is_met ground.now.grid (stations_of shape.now) row col) }
{
    paths.add(turn, shape);
    mark(ground, paths.stations(turn), rows);
}

// Sets the bits of the tiles that meet the square of the lane tile sets round one of the stations.
fn mark(ground: &Ground, stations: &[Station], rows: &mut [u64; 64])
    requires { (j : ℕ) (s : Station) → slice_get stations.now j ≡ Some s → (s.x ≤ ground.now.grid.side) × (s.y ≤ ground.now.grid.side) }
    ensures { (row col : ℕ) → row < 64 → col < 64 → tile_at rows.new row col ≡ (tile_at rows.old row col || is_met ground.now.grid stations.now row col) }
{
    let half = ground.grid().half;
    for station in stations {
        join(rows, tile_rect(ground, station.x, station.y, half));
    }
}
