//! Which field of a crossing is wrong, before its cells are counted.

ghost use Rattle.std.specs.Prelude.{◌≡◌, ◌≤◌, true, false, None, Some, nat_lt};
ghost use Rattle.aim_messages.specs.declared.entries.TheConstants.{LATEST_MOMENT};
ghost use Rattle.aim_layout.specs.Intersection.{path};
ghost use Rattle.aim_rules.specs.Bad.{has_bad_window as has_bad_window_of};
ghost use Rattle.aim_rules.specs.Footprint.{crossing_steps};
ghost use Rattle.aim_rules.specs.Motion.{front};
ghost use Rattle.aim_rules.specs.Trials.{has_windows as has_windows_of, is_fast_made as is_fast_made_of, judged};
ghost use Rattle.aim_footprint.specs.Fields.{IsMoving, bad_crossing as bad_crossing_of};

use aim_geometry::is_outside;
use aim_layout::{Layout, Path};
use aim_messages::{Field, LATEST_MOMENT, Params};

/// Whether requests of the layout have windows of arrivals.
pub fn has_windows(layout: &Layout) -> bool
    ensures { result ≡ has_windows_of layout.now }
{
    layout.version() >= 4
}

/// Whether the fast trial is made.
#[inline]
pub fn is_fast_made(params: &Params) -> bool
    ensures { result ≡ is_fast_made_of params.now }
{
    params.accel > 0 && params.speed < params.max_speed
}

/// Whether the trial by which the request is judged is the fast one.
pub fn is_judged_fast(layout: &Layout, params: &Params) -> bool
    ensures { result ≡ (judged layout.now params.now).fast }
{
    has_windows(layout) && is_fast_made(params)
}

/// Whether the request has a window that ends before it begins, past the latest moment, or later than the layout allows.
pub fn has_bad_window(layout: &Layout, params: &Params) -> bool
    requires { params.now.arrive ≤ LATEST_MOMENT }
    ensures { result ≡ has_bad_window_of layout.now params.now }
{
    if !has_windows(layout) {
        return false;
    }
    let end = params.arrive + layout.ground().times().window;
    params.latest < params.arrive || params.latest > LATEST_MOMENT || params.latest > end
}

// The number of crossing steps at constant speed.
fn step_count(layout: &Layout, found: &Path, params: &Params) -> u32
    requires found { path layout.now params.now.lane params.now.turn ≡ Some found.now }
    requires moving { IsMoving params.now }
    ensures steps { result ≡ crossing_steps layout.now params.now false }
    ensures most { result ≤ 41000000 }
{
    let spacing = layout.ground().grid().spacing;
    (found.parts() * spacing + params.length) / params.speed + 1
}

// Where the front of a vehicle that accelerates is after as many steps as a trial may have.
fn farthest_front(params: &Params) -> u32
    requires moving { IsMoving params.now }
    requires made { is_fast_made_of params.now ≡ true }
    ensures { result ≡ front params.now true 2048 }
{
    let gaining = (params.max_speed - params.speed)
        .div_ceil(params.accel)
        .min(2_048);
    let gained = params.accel * (gaining * gaining.saturating_sub(1) / 2);
    params.speed * gaining + gained + params.max_speed * (2_048 - gaining)
}

// Whether the trial by which the request is judged has too many crossing steps.
fn is_too_long(layout: &Layout, found: &Path, params: &Params) -> bool
    requires found { path layout.now params.now.lane params.now.turn ≡ Some found.now }
    requires moving { IsMoving params.now }
    ensures { result ≡ nat_lt 2048 (crossing_steps layout.now params.now (judged layout.now params.now).fast) }
{
    if is_judged_fast(layout, params) {
        is_fast_too_long(layout, found, params)
    } else {
        step_count(layout, found, params) > 2_048
    }
}

// Whether the fast trial has too many crossing steps: its rear is still on the path after the most that there may be.
fn is_fast_too_long(layout: &Layout, found: &Path, params: &Params) -> bool
    requires found { path layout.now params.now.lane params.now.turn ≡ Some found.now }
    requires moving { IsMoving params.now }
    requires made { is_fast_made_of params.now ≡ true }
    ensures { result ≡ nat_lt 2048 (crossing_steps layout.now params.now true) }
{
    let spacing = layout.ground().grid().spacing;
    farthest_front(params) <= found.parts() * spacing + params.length
}

/// The first field of `Lane` to `Steps` that is wrong, if one is.
pub fn bad_crossing(layout: &Layout, params: &Params) -> Option<Field>
    ensures { result ≡ bad_crossing_of layout.now params.now }
{
    if u32::from(params.lane) >= layout.lanes() {
        return Some(Field::Lane);
    }
    let Some(path) = Path::of(layout, params.lane, params.turn) else {
        return Some(Field::Turn);
    };
    if params.arrive > LATEST_MOMENT {
        return Some(Field::Arrive);
    }
    if has_bad_window(layout, params) {
        return Some(Field::Latest);
    }
    if is_outside(params.max_speed, 4_000) {
        return Some(Field::Max);
    }
    if is_outside(params.speed, params.max_speed) {
        return Some(Field::Speed);
    }
    if params.accel > 1_000 {
        return Some(Field::Accel);
    }
    if is_outside(params.length, 30_000) {
        return Some(Field::Length);
    }
    if is_outside(params.width, 30_000) {
        return Some(Field::Width);
    }
    if is_too_long(layout, &path, params) {
        return Some(Field::Steps);
    }
    None
}

/// The number of crossing steps of the steady trial, of params of which no field of `Lane` to `Steps` is wrong.
pub fn steady_steps(layout: &Layout, params: &Params) -> u32
    requires good { bad_crossing_of layout.now params.now ≡ None }
    ensures steps { result ≡ crossing_steps layout.now params.now false }
    ensures most { result ≤ 41000000 }
{
    let Some(path) = Path::of(layout, params.lane, params.turn) else {
        unreachable!()
    };
    step_count(layout, &path, params)
}
