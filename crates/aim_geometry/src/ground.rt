//! The numbers of the ground.

ghost use Rattle.std.specs.Prelude.{◌≡◌, IfOk};
ghost use Rattle.std.specs.Result.{result_err};
ghost use Rattle.aim_geometry.specs.Bounded.{is_outside as is_outside_of};
ghost use Rattle.aim_geometry.specs.Sites.{IsGrid, IsSite, IsTimes, has_bad_buffers as has_bad_buffers_of, has_bad_numbers, has_bad_times as has_bad_times_of, ground_fault};

use std::marker::Model;

/// The grid of tiles and the buffers in space. Lengths are in millimetres.
#[derive(Clone, Copy)]
pub struct Grid {
    /// The side of the square ground, 1 to 1,000,000.
    pub side: u32,
    /// The number of rows, which is that of columns, 1 to 64. It divides the side.
    pub n: u32,
    /// The way from a station of a path to the next, 1 to 10,000.
    pub spacing: u32,
    /// The static buffer round a vehicle, at most 10,000.
    pub fixed: u32,
    /// Half the side of the squares round stations that make a lane's tile set, at most 100,000.
    pub half: u32,
    /// The room of a sheet, in spans, 1 to 131,072.
    pub spans: u32,
}

impl Grid {
    /// Whether a number of the grid is out of its range, or the number of rows doesn't divide the side.
    pub fn is_bad(&self) -> bool
        ensures { result ≡ has_bad_numbers self.now }
    {
        is_outside(self.side, 1_000_000)
            || is_outside(self.n, 64)
            || self.side % self.n != 0
            || is_outside(self.spacing, 10_000)
            || self.fixed > 10_000
            || self.half > 100_000
            || is_outside(self.spans, 131_072)
    }
}

/// The times that a manager keeps, in steps.
#[derive(Clone, Copy)]
pub struct Times {
    /// The steps from now on in which tiles can be reserved, 1 to 8,192.
    pub horizon: u32,
    /// The longest wait until a refused vehicle may ask again, 1 to 65,536.
    pub longest: u32,
    /// The steps for which a lane claims its tiles after its green, at most 1,024.
    pub clearance: u32,
    /// The steps for which an inner tile is kept before the vehicle is there, at most `edge`.
    pub early: u32,
    /// The steps for which an inner tile is kept after the vehicle was there, at most `edge`.
    pub late: u32,
    /// The steps for which a tile at the border is kept before and after, at most 1,024.
    pub edge: u32,
    /// The longest window: how many steps after its arrival a request may let its crossing begin, at most `horizon`.
    pub window: u32,
}

/// Why numbers make no ground.
#[derive(Clone, Copy)]
pub enum GroundFault {
    /// A number of the grid is out of its range, or the number of rows doesn't divide the side.
    Grid,
    /// The early or the late buffer exceeds the edge buffer.
    Buffers,
    /// One of the times is out of its range.
    Times,
}

/// A grid and times of which all numbers are in their ranges.
#[derive(Clone, Copy)]
pub struct Ground {
    grid: Grid,
    times: Times,
}

impl Model for Ground {
    ghost use Rattle.aim_geometry.specs.Sites.{Site, IsSite};

    ghost Value = { Site };

    ghost view = { λ g. record { grid = g.grid; times = g.times } };

    ghost invariant = { λ g. IsSite (record { grid = g.grid; times = g.times }) };

    ghost inverse = { λ s. record { grid = s.grid; times = s.times } };
}

impl Ground {
    /// The ground of these numbers, or the first of the three faults whose cause holds.
    pub fn build(grid: Grid, times: Times) -> Result<Ground, GroundFault>
        ensures fault { result_err result ≡ ground_fault grid times }
        ensures ground { IfOk result (λ g. g ≡ record { grid = grid; times = times }) }
    {
        if grid.is_bad() {
            return Err(GroundFault::Grid);
        }
        if has_bad_buffers(&times) {
            return Err(GroundFault::Buffers);
        }
        if has_bad_times(&times) {
            return Err(GroundFault::Times);
        }
        Ok(Ground { grid, times })
    }

    /// All numbers of the ground are in their ranges. This is a law: the call does nothing.
    pub fn has_ranges(&self)
        ensures { IsSite self.now }
    {
        let _ = &self.grid;
    }

    /// The grid that the ground was built from. The call also tells the ranges of its numbers.
    pub fn grid(&self) -> Grid
        ensures grid { result ≡ self.now.grid }
        ensures valid { IsGrid result }
    {
        self.grid
    }

    /// The times that the ground was built from. The call also tells their ranges.
    pub fn times(&self) -> Times
        ensures times { result ≡ self.now.times }
        ensures valid { IsTimes result }
    {
        self.times
    }
}

// Whether the early or the late buffer exceeds the edge buffer.
fn has_bad_buffers(times: &Times) -> bool
    ensures { result ≡ has_bad_buffers_of times.now }
{
    times.early > times.edge || times.late > times.edge
}

/// Whether the number is none of those from 1 to `most`.
#[inline]
pub fn is_outside(number: u32, most: u32) -> bool
    ensures { result ≡ is_outside_of number most }
{
    number == 0 || number > most
}

// Whether one of the times is out of its range.
fn has_bad_times(times: &Times) -> bool
    ensures { result ≡ has_bad_times_of times.now }
{
    is_outside(times.horizon, 8_192)
        || is_outside(times.longest, 65_536)
        || times.clearance > 1_024
        || times.edge > 1_024
        || times.window > times.horizon
}
