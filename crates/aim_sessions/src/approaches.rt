//! The last calls of vehicles.

ghost use Rattle.std.specs.Prelude.{◌≡◌, ℕ, ◌<◌, ◌≤◌, [], ◌∷◌, ◌++◌, length, false, true, if◌then◌else◌, None, replicate, slice_index_or, slice_set, vec_capacity, IfOk, IfSome};
ghost use Rattle.std.specs.List.{list_any};
ghost use Rattle.aim_messages.specs.declared.entries.TheConstants.{LATEST_MOMENT};
ghost use Rattle.aim_layout.specs.Policies.{has_lane};
ghost use Rattle.aim_sessions.specs.Calls.{is_call_in};

use crate::NoMemory;
use std::alloc::Global;
use std::marker::Model;
use std::mem;

// The vehicles that have called, each once.
#[derive(Drop)]
struct Callers {
    list: Vec<u32>,
    is_listed: Vec<bool>,
}

impl Callers {
    // No vehicle of so many, with room for all.
    fn new(alloc: Global, vehicles: u32) -> Result<Callers, NoMemory>
        ensures none { IfOk result (λ c. (c.list.items ≡ []) × (c.is_listed.items ≡ replicate vehicles false)) }
        ensures room { IfOk result (λ c. vehicles ≤ vec_capacity c.list) }
    {
        let list = Vec::with_capacity(alloc, vehicles as usize)?;
        match vec![in alloc; false; vehicles as usize] {
            Ok(is_listed) => Ok(Callers { list, is_listed }),
            Err(error) => Err(error),
        }
    }

    // Lists the vehicle, if it isn't listed.
    fn add(&mut self, vehicle: u32)
        requires there { vehicle < length self.old.is_listed.items }
        requires room { slice_index_or self.old.is_listed.items vehicle false ≡ false → length self.old.list.items < vec_capacity self.old.list }
        ensures listed { self.new.is_listed.items ≡ slice_set self.old.is_listed.items vehicle true }
        ensures list { self.new.list.items ≡ (if slice_index_or self.old.is_listed.items vehicle false then self.old.list.items else self.old.list.items ++ vehicle ∷ []) }
        ensures capacity { vec_capacity self.new.list ≡ vec_capacity self.old.list }
    {
        if !mark(&mut self.is_listed, vehicle) {
            self.list.push_reserved(vehicle);
        }
    }
}

// Marks the vehicle, and tells whether it was marked.
fn mark(marked: &mut Vec<bool>, vehicle: u32) -> bool
    requires there { vehicle < length marked.old.items }
    ensures was { result ≡ slice_index_or marked.old.items vehicle false }
    ensures marked { marked.new.items ≡ slice_set marked.old.items vehicle true }
{
    mem::replace(&mut marked[vehicle as usize], true)
}

// No call of any of so many vehicles.
fn no_calls(alloc: Global, vehicles: u32) -> Result<Vec<Option<(u8, u32)>>, NoMemory>
    ensures { IfOk result (λ c. c.items ≡ replicate vehicles None) }
{
    vec![in alloc; None; vehicles as usize]
}

// Sets the vehicle's call.
fn set(calls: &mut Vec<Option<(u8, u32)>>, vehicle: u32, call: Option<(u8, u32)>)
    requires there { vehicle < length calls.old.items }
    ensures { calls.new.items ≡ slice_set calls.old.items vehicle call }
{
    calls[vehicle as usize] = call;
}

/// Each vehicle's last call of an emergency, a lane and an arrival, or none.
#[derive(Drop)]
pub struct Approaches {
    calls: Vec<Option<(u8, u32)>>,
    callers: Callers,
}

impl Model for Approaches {
    ghost use Rattle.std.specs.Prelude.{ℕ, List, Option};

    ghost Value = { List (Option (ℕ × ℕ)) };

    ghost use Rattle.std.specs.Prelude.{◌≤◌, length, vec_capacity};
    ghost use Rattle.aim_sessions.specs.Listed.{IsListed};

    ghost view = { λ a. a.calls.items };

    ghost invariant = { λ a. (IsListed a.calls.items a.callers.list.items a.callers.is_listed.items) × (length a.calls.items ≤ vec_capacity a.callers.list) };
}

impl Approaches {
    /// So many vehicles, none of which has called.
    pub fn new(alloc: Global, vehicles: u32) -> Result<Approaches, NoMemory>
        ensures { IfOk result (λ a. a ≡ replicate vehicles None) }
    {
        let calls = no_calls(alloc, vehicles)?;
        match Callers::new(alloc, vehicles) {
            Ok(callers) => Ok(Approaches { calls, callers }),
            Err(error) => Err(error),
        }
    }

    /// Sets the vehicle's call, or clears it.
    pub fn note(&mut self, vehicle: u32, call: Option<(u8, u32)>)
        requires there { vehicle < length self.old }
        requires range { IfSome call (λ c. (c.0 < 16) × (c.1 ≤ LATEST_MOMENT)) }
        ensures { self.new ≡ slice_set self.old vehicle call }
    {
        set(&mut self.calls, vehicle, call);
        if call.is_some() {
            self.callers.add(vehicle);
        }
    }

    /// The set of lanes of the calls whose arrival is at most the horizon past.
    pub fn lanes(&self, now: u32, horizon: u32) -> u16
        requires now { now ≤ LATEST_MOMENT }
        requires horizon { horizon ≤ LATEST_MOMENT }
        ensures { (lane : ℕ) → has_lane result lane ≡ list_any (is_call_in now horizon lane) self.now }
    {
        let mut lanes = 0;
        for vehicle in &self.callers.list {
            lanes |= lane_of(self.calls[*vehicle as usize], now, horizon);
        }
        lanes
    }
}

// The set of the call's lane, or of none.
fn lane_of(call: Option<(u8, u32)>, now: u32, horizon: u32) -> u16
    requires range { IfSome call (λ c. (c.0 < 16) × (c.1 ≤ LATEST_MOMENT)) }
    requires horizon { horizon ≤ LATEST_MOMENT }
    ensures { (lane : ℕ) → has_lane result lane ≡ is_call_in now horizon lane call }
{
    match call {
        Some((lane, arrive)) if now <= arrive + horizon => 1 << lane,
        _ => 0,
    }
}
