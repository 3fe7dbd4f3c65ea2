//! The crossing that one caller asked for last, for those that differ in their arrival alone.

ghost use Rattle.std.specs.Prelude.{◌≡◌, ◌-◌, ◌≤◌, IfSome, length, true, vec_capacity};
ghost use Rattle.aim_requests.specs.Requests.{IsPreparedFor};
ghost use Rattle.aim_requests.specs.Shapes.{IsAnew};

use crate::arrivals::arrival_in;
use crate::requests::{Prepared, no_request, params_in, prepare_from};
use aim_geometry::{Grid, Station, Times};
use aim_layout::{Layout, Path};
use aim_messages::{Message, Params};
use aim_sheets::Pool;
use std::alloc::{AllocError, Global};
use std::marker::Model;

// Whether the grids are one.
fn is_same_grid(a: &Grid, b: &Grid) -> bool
    ensures { result ≡ true → a.now ≡ b.now }
{
    a.side == b.side
        && a.n == b.n
        && a.spacing == b.spacing
        && a.fixed == b.fixed
        && a.half == b.half
        && a.spans == b.spans
}

// Whether the times are one.
fn are_same_times(a: &Times, b: &Times) -> bool
    ensures { result ≡ true → a.now ≡ b.now }
{
    a.horizon == b.horizon
        && a.longest == b.longest
        && a.clearance == b.clearance
        && a.early == b.early
        && a.late == b.late
        && a.edge == b.edge
        && a.window == b.window
}

// Whether the lists have the same stations.
fn are_same_stations(a: &[Station], b: &[Station]) -> bool
    ensures { result ≡ true → a.now ≡ b.now }
{
    if a.len() != b.len() {
        return false;
    }
    for at in 0..a.len() {
        let (here, there) = (a[at], b[at]);
        if here.x != there.x || here.y != there.y {
            return false;
        }
    }
    true
}

// Puts these stations in place of those of the list, in room that is there.
fn replace(held: &mut Vec<Station>, stations: &[Station])
    requires { length stations.now ≤ vec_capacity held.old }
    ensures items { held.new.items ≡ stations.now }
    ensures capacity { vec_capacity held.old ≤ vec_capacity held.new }
{
    held.clear();
    let Ok(()) = held.extend_from_slice(stations) else {
        unreachable!();
    };
}

// The ground of no layout.
const NO_GRID: Grid = Grid {
    side: 0,
    n: 0,
    spacing: 0,
    fixed: 0,
    half: 0,
    spans: 0,
};

// The times of no layout.
const NO_TIMES: Times = Times {
    horizon: 0,
    longest: 0,
    clearance: 0,
    early: 0,
    late: 0,
    edge: 0,
    window: 0,
};

/// The request of which one caller prepared the cells last, and what they depend on beside it: the version, the grid, the
/// times and the stations of its path. What is answered by it is what would be answered without.
///
/// Contracts see the request.
#[derive(Drop)]
pub struct Memo {
    version: u8,
    grid: Grid,
    times: Times,
    stations: Vec<Station>,
    kept: Prepared,
}

impl Model for Memo {
    ghost use Rattle.std.specs.Prelude.{◌≤◌, vec_capacity};
    ghost use Rattle.aim_requests.specs.Memos.{IsKept};
    ghost use Rattle.aim_requests.specs.Requests.{Request};

    ghost Value = { Request };

    ghost view = { λ m. m.kept };

    ghost invariant = { λ m. IsKept m.version m.grid m.times m.stations.items m.kept × (4097 ≤ vec_capacity m.stations) };
}

impl Memo {
    /// No crossing, and room for one over a layout whose sheets have so many spans. It takes all its memory here.
    pub fn new(alloc: Global, spans: u32) -> Result<Memo, AllocError> {
        let stations = Vec::with_capacity(alloc, 4097)?;
        let mut pool = Pool::new(alloc, 2, spans)?;
        let Ok(first) = pool.take() else {
            unreachable!()
        };
        let Ok(second) = pool.take() else {
            unreachable!()
        };
        Ok(Memo {
            version: 0,
            grid: NO_GRID,
            times: NO_TIMES,
            stations,
            kept: no_request(first, second),
        })
    }

    // The step at which the crossing that is kept arrives, where it is the params' one over the layout but for the arrival.
    fn find(&self, layout: &Layout, params: &Params) -> Option<u32>
        ensures prepared { IfSome result (λ _. IsPreparedFor layout.now self.now) }
        ensures anew { IfSome result (λ from. IsAnew layout.now self.now from params.now) }
    {
        let from = arrival_in(layout, &self.kept, params)?;
        let path = Path::of(layout, params.lane, params.turn)?;
        let ground = layout.ground();
        if self.version == layout.version()
            && is_same_grid(&self.grid, &ground.grid())
            && are_same_times(&self.times, &ground.times())
            && are_same_stations(&self.stations, path.stations())
        {
            Some(from)
        } else {
            None
        }
    }

    // Keeps a request of which no field is wrong, if its sheets have as much room as those that are there.
    fn keep(&mut self, layout: &Layout, prepared: &Prepared)
        requires { IsPreparedFor layout.now prepared.now }
    {
        let Some(params) = prepared.asked() else {
            return;
        };
        let Some(path) = Path::of(layout, params.lane, params.turn) else {
            return;
        };
        if self.kept.rooms() != prepared.rooms() {
            return;
        }
        let ground = layout.ground();
        self.version = layout.version();
        self.grid = ground.grid();
        self.times = ground.times();
        replace(&mut self.stations, path.stations());
        self.kept.copy(prepared);
    }

    /// Prepares a message with two sheets of the pool. Where its crossing is the one that is kept but for the arrival, the
    /// cells are copied, and else it is kept from then on.
    pub fn prepare_from(&mut self, layout: &Layout, message: &Message, pool: &mut Pool) -> Prepared
        requires two { 2 ≤ pool.old.count }
        requires room { pool.old.room ≡ layout.now.grid.spans }
        ensures message { result.message ≡ message.now }
        ensures prepared { IsPreparedFor layout.now result }
        ensures pool { pool.new ≡ record pool.old { count = pool.old.count - 2 } }
    {
        let Some(params) = params_in(&message.body) else {
            return prepare_from(layout, message, pool);
        };
        match self.find(layout, &params) {
            Some(from) => self
                .kept
                .moved_from(layout, message, from, params.arrive, pool),
            None => {
                let prepared = prepare_from(layout, message, pool);
                self.keep(layout, &prepared);
                prepared
            }
        }
    }
}
