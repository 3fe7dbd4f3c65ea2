//! Paths of a layout.

ghost use Rattle.std.specs.Prelude.{◌≡◌, ◌+◌, ◌<◌, ◌≤◌, length, slice_get, Some};
ghost use Rattle.aim_layout.specs.Intersection.{path};

use crate::Layout;
use aim_geometry::Station;
use aim_messages::Turn;
use std::marker::Model;

/// A path of a layout. Station j lies at the distance of j times the grid's spacing from its start.
#[derive(Drop)]
pub struct Path<'a> {
    stations: &'a [Station],
}

impl<'a> Model for Path<'a> {
    ghost use Rattle.std.specs.Prelude.{List, ◌<◌, ◌≤◌, length};
    ghost use Rattle.aim_geometry.specs.declared.stations.Station.{Station};

    ghost Value = { List Station };

    ghost view = { λ p. p.stations.now };

    ghost invariant = { λ p. (1 < length p.stations.now) × (length p.stations.now ≤ 4097) };
}

impl<'a> Path<'a> {
    /// The lane's path with that turn. None where the lane isn't there or doesn't offer the turn.
    pub fn of(layout: &'a Layout, lane: u8, turn: Turn) -> Option<Path<'a>>
        ensures { result ≡ path layout.now lane turn }
    {
        let stations = layout.stations(lane, turn);
        if stations.is_empty() {
            None
        } else {
            Some(Path { stations })
        }
    }

    /// The number of parts. There is one more station.
    pub fn parts(&self) -> u32
        ensures parts { result + 1 ≡ length self.now }
        ensures some { 0 < result }
        ensures most { result ≤ 4096 }
    {
        self.stations.len() as u32 - 1
    }

    /// All stations, in order.
    #[inline]
    pub fn stations(&self) -> &[Station]
        ensures stations { result.now ≡ self.now }
        ensures some { 1 < length result.now }
        ensures most { length result.now ≤ 4097 }
    {
        self.stations
    }

    /// Station j, as (x, y).
    #[inline]
    pub fn station(&self, j: u32) -> (u32, u32)
        requires { j < length self.now }
        ensures { slice_get self.now j ≡ Some (record { x = result.0; y = result.1 }) }
    {
        let Station { x, y } = self.stations[j as usize];
        (x, y)
    }
}
