//! The steps one after another, and in each the runs of travellers side by side.

ghost use Rattle.std.specs.Prelude.{◌≡◌, ◌+◌, ◌<◌, ◌≤◌, All};
ghost use Rattle.aim_messages.specs.declared.entries.TheConstants.{LATEST_MOMENT};
ghost use Rattle.aim_grid.specs.Travels.{AllIdle, IsReady, Travels};

use crate::Traveller;
use aim_agents::{Gate, Manager};
use std::sync::Wait;
use std::thread;
use std::thread::Threads;

// The step that it gives is the first one, from `step` on, at which one of them may have something to do.
fn wakes_at(travellers: &[Traveller], step: u32) -> u64
    ensures { AllIdle step result travellers.now }
{
    let mut least = u64::MAX;
    for traveller in travellers {
        least = least.min(traveller.idle_until(step));
    }
    least
}

// The turns of a run, one traveller after another.
fn run_turns<R: Wait, G: Gate>(
    rt: &R,
    managers: &[Manager],
    gate: &G,
    step: u32,
    travellers: &mut [Traveller],
)
    requires ready { All (IsReady managers.now step) travellers.old }
    requires most { step ≤ LATEST_MOMENT }
    ensures { Travels managers.now step (step + 1) travellers.old travellers.new }
{
    for traveller in travellers.iter_mut() {
        traveller.turn(rt, managers, gate, step);
    }
}

// Whether the runs are worth a thread each at the step: travellers of two runs or more have something to do, and no fewer
// travellers than there are runs. To start a thread takes longer than a turn.
fn are_worth_threads(travellers: &[Traveller], step: u32, size: usize) -> bool
    requires size { 0 < size }
{
    let runs = travellers.len().div_ceil(size);
    let mut first = None;
    let mut busy = 0;
    for place in 0..travellers.len() {
        if !travellers[place].is_idle(step) {
            let run = place / size;
            busy += 1;
            if *first.get_or_insert(run) != run && runs <= busy {
                return true;
            }
        }
    }
    false
}

// The turns of all travellers of one step. The runs go side by side where they are worth a thread each.
fn turns<R: Threads + Wait + Sync, G: Gate>(
    rt: &R,
    managers: &[Manager],
    travellers: &mut [Traveller],
    gate: &G,
    step: u32,
    size: usize,
)
    requires size { 0 < size }
    requires ready { All (IsReady managers.now step) travellers.old }
    requires most { step ≤ LATEST_MOMENT }
    ensures { Travels managers.now step (step + 1) travellers.old travellers.new }
{
    if !are_worth_threads(travellers, step, size) {
        run_turns(rt, managers, gate, step, travellers);
        return;
    }
    thread::for_each_chunk_mut(
        rt,
        travellers,
        size,
        &|_start: usize, run: &mut [Traveller]|
            requires { All (IsReady managers.now step) run.now × (step ≤ LATEST_MOMENT) }
            ensures { Travels managers.entry.now step (step + 1) run.entry.now run.exit.now }
        { run_turns(rt, managers, gate, step, run) },
    );
}

/// Lets the travellers take their turns of the steps from `from` on and below `to`. In each step they are cut into runs
/// of so many neighbours that there are at most `workers` runs. Where travellers of two runs or more have something to
/// do, and no fewer travellers than there are runs, the runs go side by side, on threads of their own where threads can
/// be had, and are joined before the next step. A step in which no traveller has anything to do is passed over.
pub fn travel<R: Threads + Wait + Sync, G: Gate>(
    rt: &R,
    managers: &[Manager],
    travellers: &mut [Traveller],
    gate: &G,
    from: u32,
    to: u32,
    workers: u32,
)
    requires steps { from ≤ to }
    requires most { to ≤ 65536 }
    requires workers { (0 < workers) × (workers ≤ 64) }
    requires ready { All (IsReady managers.now from) travellers.old }
    ensures { Travels managers.now from to travellers.old travellers.new }
{
    if travellers.is_empty() {
        return;
    }
    let size = travellers.len().div_ceil(workers as usize);
    let mut wake = 0u64;
    for step in from..to {
        if (step as u64) < wake {
            continue;
        }
        turns(rt, managers, travellers, gate, step, size);
        wake = wakes_at(travellers, step + 1);
    }
}
