//! Requests that were prepared before, for crossings that differ in their arrival alone.

ghost use Rattle.std.specs.Prelude.{◌≡◌, ℕ, ◌+◌, ◌-◌, ◌*◌, ◌/◌, ◌<◌, ◌≤◌, IfOk, IfSome, OnErr, None, false, length, slice_index_or};
ghost use Rattle.aim_rules.specs.Bad.{bad};
ghost use Rattle.aim_rules.specs.Footprint.{crossing_steps};
ghost use Rattle.aim_footprint.specs.Fields.{bad_crossing};
ghost use Rattle.aim_requests.specs.Requests.{IsPreparedFor, Request};
ghost use Rattle.aim_requests.specs.Shapes.{ArePreparedFor, IsAnew};

use crate::arrivals::arrival_in;
use crate::bounds::{NeedsCells, bad_field};
use crate::requests::{NO_REQUEST, Prepared, params_in, prepare_from};
use aim_layout::Layout;
use aim_messages::{Field, Message, Params};
use aim_sheets::Pool;
use std::alloc::{AllocError, Global};
use std::marker::Model;

// In how many slots a crossing is looked for.
const WAYS: u32 = 4;

// A number of 64 bits that goes by both.
#[inline]
fn mixed(hash: u64, part: u32) -> u64 {
    let spread = (hash ^ part as u64).wrapping_mul(0x9E37_79B9_7F4A_7C15);
    spread ^ (spread >> 32)
}

// The first slot in which a crossing is looked for.
fn home_of(params: &Params, slots: usize) -> usize
    requires { 0 < slots }
    ensures { result < slots }
{
    let vehicle = mixed(mixed(params.lane as u64, params.length), params.width);
    let motion = mixed(
        mixed(mixed(vehicle, params.speed), params.max_speed),
        params.accel,
    );
    (motion % slots as u64) as usize
}

// The slot after one, the first one after the last.
#[inline]
fn after(at: usize, slots: usize) -> usize
    requires { at < slots }
    ensures { result < slots }
{
    if at + 1 == slots { 0 } else { at + 1 }
}

/// The shapes of crossings: requests that were prepared, each for all crossings that differ from its own in their arrival
/// alone. What is answered by them is what would be answered if none was kept.
///
/// Contracts see the requests.
#[derive(Drop)]
pub struct Shapes {
    slots: Vec<Prepared>,
    turn: u32,
    worked_out: u64,
}

impl Model for Shapes {
    ghost use Rattle.std.specs.Prelude.{List};
    ghost use Rattle.aim_requests.specs.Requests.{Request};

    ghost Value = { List Request };

    ghost view = { λ s. s.slots.items };
}

impl Shapes {
    /// No shape, and room for so many over the layout. It takes all its memory here.
    pub fn new(alloc: Global, layout: &Layout, count: u32) -> Result<Shapes, AllocError>
        requires { count ≤ 100000 }
        ensures { IfOk result (λ shapes. ArePreparedFor layout.now shapes) }
    {
        let mut pool = Pool::new(alloc, 2 * count, layout.ground().grid().spans)?;
        let mut slots = Vec::with_capacity(alloc, count as usize)?;
        for _ in 0..count {
            slots.push_reserved(prepare_from(layout, &NO_REQUEST, &mut pool));
        }
        Ok(Shapes {
            slots,
            turn: 0,
            worked_out: 0,
        })
    }

    /// How many messages got cells that weren't copied from a shape. No clause speaks of it: it is there for tests, which
    /// see by it that a known crossing costs no such work.
    pub fn worked_out(&self) -> u64 {
        self.worked_out
    }

    // The slot that has the shape of the params' crossing, if one has it, and the step at which the crossing there arrives.
    fn find(&self, layout: &Layout, params: &Params) -> Option<(usize, u32)>
        ensures within { IfSome result (λ found. found.0 < length self.now) }
        ensures anew { IfSome result (λ found. (d : Request) → IsAnew layout.now (slice_index_or self.now found.0 d) found.1 params.now) }
    {
        let slots = self.slots.len();
        if slots == 0 {
            return None;
        }
        let mut at = home_of(params, slots);
        for _ in 0..WAYS {
            if let Some(from) = arrival_in(layout, &self.slots[at], params) {
                return Some((at, from));
            }
            at = after(at, slots);
        }
        None
    }

    /// The field of the params that is wrong, if one is. `NeedsCells` only where all but `Spans` are right, the shape isn't
    /// kept, and a sheet has fewer spans than there are pairs of a step of the steady trial and a row.
    pub fn bad_field(&self, layout: &Layout, params: &Params) -> Result<Option<Field>, NeedsCells>
        requires known { ArePreparedFor layout.now self.now }
        ensures field { IfOk result (λ field. field ≡ bad layout.now params.now) }
        ensures crossing { OnErr result (bad_crossing layout.now params.now ≡ None) }
        ensures room { OnErr result (layout.now.grid.spans / layout.now.grid.n < crossing_steps layout.now params.now false + 2 * layout.now.times.edge) }
    {
        match bad_field(layout, params) {
            Err(NeedsCells) if self.find(layout, params).is_some() => Ok(None),
            other => other,
        }
    }

    // The slot whose request the next one replaces: those in which a crossing is looked for take turns.
    fn slot_for(&self, params: &Params) -> usize
        requires { 0 < length self.now }
        ensures { result < length self.now }
    {
        let slots = self.slots.len();
        let mut at = home_of(params, slots);
        for _ in 0..self.turn % WAYS {
            at = after(at, slots);
        }
        at
    }

    // Keeps a request of which no field is wrong, in the place of another one.
    fn keep(&mut self, layout: &Layout, params: &Params, prepared: &Prepared)
        requires known { ArePreparedFor layout.now self.old }
        requires prepared { IsPreparedFor layout.now prepared.now }
        ensures { ArePreparedFor layout.now self.new }
    {
        if self.slots.is_empty() || prepared.bad().is_some() {
            return;
        }
        let at = self.slot_for(params);
        self.turn = self.turn.wrapping_add(1);
        let slot = &mut self.slots[at];
        slot.copy(prepared);
    }

    /// Prepares a message with two sheets of the pool. Where the shape of its crossing is kept, it is copied, and else it
    /// is kept from then on.
    pub fn prepare_from(&mut self, layout: &Layout, message: &Message, pool: &mut Pool) -> Prepared
        requires known { ArePreparedFor layout.now self.old }
        requires two { 2 ≤ pool.old.count }
        requires room { pool.old.room ≡ layout.now.grid.spans }
        ensures message { result.message ≡ message.now }
        ensures prepared { IsPreparedFor layout.now result }
        ensures pool { pool.new ≡ record pool.old { count = pool.old.count - 2 } }
        ensures known { ArePreparedFor layout.now self.new }
    {
        let Some(params) = params_in(&message.body) else {
            return prepare_from(layout, message, pool);
        };
        match self.find(layout, &params) {
            Some((at, from)) => {
                self.slots[at].moved_from(layout, message, from, params.arrive, pool)
            }
            None => {
                let prepared = prepare_from(layout, message, pool);
                self.worked_out = self.worked_out.saturating_add(1);
                self.keep(layout, &params, &prepared);
                prepared
            }
        }
    }
}
