//! What is told of a crossing's cells before they are written.

ghost use Rattle.std.specs.Prelude.{◌≡◌, ◌+◌, ◌*◌, ◌/◌, ◌<◌, ◌≤◌, IfOk, OnErr, None, true, false, nat_le};
ghost use Rattle.std.specs.List.{list_any};
ghost use Rattle.aim_messages.specs.declared.entries.TheConstants.{LATEST_MOMENT};
ghost use Rattle.aim_rules.specs.Bad.{bad, needs_too_many_spans};
ghost use Rattle.aim_rules.specs.Cells.{cells};
ghost use Rattle.aim_rules.specs.Footprint.{crossing_steps};
ghost use Rattle.aim_rules.specs.Trials.{judged};
ghost use Rattle.aim_footprint.specs.Fields.{bad_crossing as bad_crossing_of};

use aim_footprint::{bad_crossing, steady_steps};
use aim_layout::Layout;
use aim_messages::{Field, Params};

/// What was asked is not known before the cells of the crossing are written.
pub struct NeedsCells;

// Whether a sheet has room for the spans of each trial, also if these are in all rows of the grid.
fn has_room(layout: &Layout, params: &Params) -> bool
    requires good { bad_crossing_of layout.now params.now ≡ None }
    ensures room { result ≡ true → needs_too_many_spans layout.now params.now ≡ false }
    ensures none { result ≡ false → layout.now.grid.spans / layout.now.grid.n < crossing_steps layout.now params.now false + 2 * layout.now.times.edge }
{
    let grid = layout.ground().grid();
    let steps = steady_steps(layout, params) + 2 * layout.ground().times().edge;
    steps <= grid.spans / grid.n
}

/// The field of the params that is wrong, if one is. `NeedsCells` only where all but `Spans` are right, and a sheet has
/// fewer spans than there are pairs of a step of the steady trial and a row.
pub fn bad_field(layout: &Layout, params: &Params) -> Result<Option<Field>, NeedsCells>
    ensures field { IfOk result (λ field. field ≡ bad layout.now params.now) }
    ensures crossing { OnErr result (bad_crossing_of layout.now params.now ≡ None) }
    ensures room { OnErr result (layout.now.grid.spans / layout.now.grid.n < crossing_steps layout.now params.now false + 2 * layout.now.times.edge) }
{
    if let Some(field) = bad_crossing(layout, params) {
        return Ok(Some(field));
    }
    if has_room(layout, params) {
        Ok(None)
    } else {
        Err(NeedsCells)
    }
}

/// Whether the trial by which the request is judged might have a cell at the step or at a later one, by the number of steps
/// of the steady one. Where this says no, it has none.
pub fn may_reach(layout: &Layout, params: &Params, step: u32) -> bool
    requires good { bad_crossing_of layout.now params.now ≡ None }
    requires arrive { params.now.arrive ≤ LATEST_MOMENT }
    ensures none { result ≡ false → list_any (λ c. nat_le step c.step) (cells layout.now params.now (judged layout.now params.now).fast) ≡ false }
    ensures within { result ≡ true → step < params.now.arrive + crossing_steps layout.now params.now false + layout.now.times.edge }
{
    let edge = layout.ground().times().edge;
    params.arrive + steady_steps(layout, params) + edge > step
}
