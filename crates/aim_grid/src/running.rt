//! A whole run.

ghost use Rattle.std.specs.Prelude.{◌≡◌, ◌≢◌, false, ◌+◌, ◌*◌, ◌<◌, ◌≤◌, length, map, All, Some, IfOk};
ghost use Rattle.aim_grid.specs.Trouble.TheVariants as trouble;
ghost use Rattle.aim_grid.specs.Agents.{IsFull};
ghost use Rattle.aim_safety.specs.Tiles.{EntersBy};
ghost use Rattle.aim_grid_script.specs.Fits.{AreWithin};
ghost use Rattle.aim_grid.specs.Closing.{HasMemory};
ghost use Rattle.aim_grid.specs.Runs.{IsRunOf, journal_left, logs_left};

use crate::making::Crossings;
use crate::{Gate, NoMemory, Traveller, Trouble, travel};
use aim_drive::Drove;
use aim_grid_script::Routes;
use std::alloc::Global;
use std::sync::Wait;
use std::thread::Threads;

// Whether one of them found no memory.
fn lack_memory(travellers: &[Traveller]) -> bool
    ensures { result ≡ false → All HasMemory travellers.now }
{
    for traveller in travellers {
        if let Some(Trouble::NoMemory) = traveller.trouble() {
            return true;
        }
    }
    false
}

/// Runs routes over several crossings: a manager for each, a traveller for each vehicle that has legs, and their turns of
/// all steps in at most `workers` runs side by side. What is left of each crossing comes in the order of their numbers,
/// and each driver enters at a step for which its tiles can be told.
pub fn run_routes<R: Threads + Wait + Sync, G: Gate>(
    rt: &R,
    alloc: Global,
    routes: Routes,
    gate: &G,
    workers: u32,
) -> Result<Vec<Drove>, NoMemory>
    requires routes { AreWithin routes }
    requires workers { (0 < workers) × (workers ≤ 64) }
    ensures run { IfOk result (λ v. IsRunOf routes.layouts.items routes.vehicles routes.until routes.legs.items
        (map journal_left v.items) (map logs_left v.items)) }
    ensures few { IfOk result (λ v. All (λ d. length d.journal.items ≤ 128 * routes.vehicles + 1) v.items) }
    ensures enters { IfOk result (λ v. All (λ d. All (λ l. EntersBy 2147483648 l.driver.log) d.logs.items) v.items) }
{
    let Routes {
        version: _,
        layouts,
        vehicles,
        until,
        legs,
    } = routes;
    let mut crossings = Crossings::open(alloc, layouts, vehicles)?;
    let mut travellers = crossings.travellers(alloc, &legs)?;
    travel(
        rt,
        &crossings.managers,
        &mut travellers,
        gate,
        0,
        until,
        workers,
    );
    if lack_memory(&travellers) {
        return Err(NoMemory);
    }
    crossings.take_back(travellers)?;
    crossings.close(alloc)
}
