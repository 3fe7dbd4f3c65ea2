//! The tiles on which a driver is.

ghost use Rattle.std.specs.Prelude.{◌≡◌, ℕ, ◌≤◌, IfOk, None, Some, false, true, map};
ghost use Rattle.aim_rules.specs.Bad.{bad};
ghost use Rattle.aim_safety.specs.Occupied.{is_tried};
ghost use Rattle.aim_safety.specs.Tiles.{EntersBy, cell_of, cells_of_passage, occupied_cells};
ghost use Rattle.aim_safety.specs.Traces.{AreFootprints};
ghost use Rattle.aim_rules.specs.Footprint.{crossing_steps};

use crate::NoMemory;
use crate::cells::Cell;
use crate::grants::{Grant, begun};
use crate::traces::{Trace, shown_tiles};
use aim_driver::LogItem;
use aim_footprint::simulate;
use aim_layout::Layout;
use aim_messages::{Entry, Params};
use std::alloc::{AllocError, Global};

// The tiles under the vehicle in each crossing step.
fn footprints(
    alloc: Global,
    layout: &Layout,
    params: &Params,
    fast: bool,
) -> Result<Vec<[u64; 64]>, NoMemory>
    requires good { bad layout.now params.now ≡ None }
    requires tried { is_tried layout.now params.now fast ≡ true }
    ensures { IfOk result (λ steps.
        AreFootprints layout.now params.now fast (crossing_steps layout.now params.now fast) steps.items) }
{
    let mut trace = Trace {
        steps: Vec::new(alloc),
        is_cut: false,
    };
    let _steps = simulate(layout, params, fast, 0, &mut trace);
    let Trace { steps, is_cut } = trace;
    if is_cut { Err(AllocError) } else { Ok(steps) }
}

// The tiles of a crossing that begins at a step.
fn passage_cells(
    alloc: Global,
    layout: &Layout,
    params: &Params,
    fast: bool,
    step: u32,
) -> Result<Vec<Cell>, NoMemory>
    requires good { bad layout.now params.now ≡ None }
    requires tried { is_tried layout.now params.now fast ≡ true }
    requires step { step ≤ 2147483648 }
    ensures { IfOk result (λ cells. map cell_of cells.items ≡ cells_of_passage layout.now
        (Some (record { step = step; grant = record { params = params.now; fast = fast } }))) }
{
    let steps = footprints(alloc, layout, params, fast)?;
    shown_tiles(alloc, &steps, step, layout.ground().grid().n as u8)
}

/// The tiles on which a driver is, and the steps in which it is on each, in order of row, column and step: those
/// under its vehicle in a crossing that begins at the step at which it entered first, on what the entry of that id
/// grants. There is none where it has not entered, where there is no such entry, and where that grants nothing.
pub fn occupied(
    alloc: Global,
    layout: &Layout,
    journal: &[Entry],
    log: &[LogItem],
) -> Result<Vec<Cell>, NoMemory>
    requires { EntersBy 2147483648 log.now }
    ensures { IfOk result (λ cells. map cell_of cells.items ≡ occupied_cells layout.now journal.now log.now) }
{
    let Some(crossing) = begun(alloc, layout, journal, log)? else {
        return Ok(Vec::new(alloc));
    };
    let Grant { params, fast } = crossing.grant;
    passage_cells(alloc, layout, &params, fast, crossing.step)
}
