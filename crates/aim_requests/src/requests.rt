//! Prepared requests.

ghost use Rattle.std.specs.Prelude.{◌≡◌, ◌<◌, ◌≤◌, ◌+◌, ◌-◌, ◌&&◌, nat_lt, [], None, Some, true, false, length, OnErr, OnOk, IfOk, option_map, if◌then◌else◌};
ghost use Rattle.std.specs.Result.{result_err};
ghost use Rattle.aim_geometry.specs.Bounded.{ceil_div};
ghost use Rattle.aim_layout.specs.Intersection.{Intersection, path as path_of, stations};
ghost use Rattle.aim_layout.specs.Valid.{IsValid};
ghost use Rattle.aim_rules.specs.History.{given_up, params_of};
ghost use Rattle.aim_rules.specs.Bad.{bad as bad_of, needs_too_many_spans, span_count};
ghost use Rattle.aim_rules.specs.Trials.{arriving_at, is_fast_made as is_fast_made_of, judged};
ghost use Rattle.aim_rules.specs.Footprint.{crossing_steps};
ghost use Rattle.aim_footprint.specs.Fields.{bad_crossing as bad_crossing_of};
ghost use Rattle.aim_footprint.specs.Fills.{AreRectsOf};
ghost use Rattle.aim_footprint.specs.Windows.{AreSteady};
ghost use Rattle.aim_messages.specs.declared.messages.Body.TheVariants as body;
ghost use Rattle.aim_messages.specs.declared.entries.TheConstants.{LATEST_MOMENT};
ghost use Rattle.aim_requests.specs.Requests.{IsPreparedFor, IsStepsOf, IsTrialOf, fast_sheet, prepared_params, steady_sheet};
ghost use Rattle.aim_requests.specs.Shapes.{AsksAnew};

use crate::trials::write_trial;
use aim_footprint::{are_steady, bad_crossing, fill_rects, is_fast_made, is_judged_fast};
use aim_geometry::TileRect;
use aim_layout::{Layout, Path};
use aim_messages::{Body, Field, Message, Params};
use aim_sheets::{Pool, Sheet, SheetFull};
use std::marker::Model;

/// The params of a message that asks.
pub fn params_in(body: &Body) -> Option<Params>
    ensures { result ≡ params_of body.now }
{
    match body {
        Body::Request(params) | Body::Change(_, params) => Some(*params),
        Body::Cancel(_) | Body::Done(_) => None,
    }
}

// Writes the rectangles of the path's stations with the static buffer, and says whether they are steady.
fn fill_path(layout: &Layout, params: &Params, path: &Path, rects: &mut [TileRect]) -> bool
    requires good { bad_crossing_of layout.now params.now ≡ None }
    requires found { path_of layout.now params.now.lane params.now.turn ≡ Some path.now }
    requires room { length rects.old ≡ length path.now }
    ensures round { AreRectsOf layout.now.grid (ceil_div params.now.width 2 + layout.now.grid.spacing + layout.now.grid.fixed) (stations layout.now params.now.lane params.now.turn) rects.new }
    ensures steady { result ≡ true → AreSteady rects.new }
    ensures valid { IsValid layout.now }
{
    let ground = layout.ground();
    let grid = ground.grid();
    let half = params.width.div_ceil(2) + grid.spacing + grid.fixed;
    fill_rects(ground, half, path.stations(), rects);
    are_steady(rects)
}

/// How many crossing steps each trial has. Both are 0 where there is no trial.
#[derive(Clone, Copy)]
pub struct TrialSteps {
    /// Those of the fast trial, 0 where it isn't made.
    pub fast: u32,
    /// Those of the steady trial, 0 where the fast one is tried alone.
    pub steady: u32,
}

// Writes the cells of the fast trial into an empty sheet, where that trial is made, and says how many steps it has.
fn write_fast(
    layout: &Layout,
    params: &Params,
    path: &Path,
    rects: &[TileRect],
    is_steady: bool,
    sheet: &mut Sheet,
) -> Result<u32, SheetFull>
    requires valid { IsValid layout.now }
    requires good { bad_crossing_of layout.now params.now ≡ None }
    requires found { path_of layout.now params.now.lane params.now.turn ≡ Some path.now }
    requires round { AreRectsOf layout.now.grid (ceil_div params.now.width 2 + layout.now.grid.spacing + layout.now.grid.fixed) (stations layout.now params.now.lane params.now.turn) rects.now }
    requires steady { is_steady ≡ true → AreSteady rects.now }
    requires empty { sheet.old ≡ record { spans = []; room = layout.now.grid.spans } }
    ensures fast { OnOk result (is_fast_made_of params.now ≡ true → IsTrialOf layout.now params.now true sheet.new.spans) }
    ensures steps { IfOk result (λ steps. steps ≡ (if is_fast_made_of params.now then crossing_steps layout.now params.now true else 0)) }
    ensures unmade { OnOk result (is_fast_made_of params.now ≡ false → sheet.new.spans ≡ []) }
    ensures fit { OnOk result ((is_fast_made_of params.now && nat_lt layout.now.grid.spans (span_count layout.now params.now true)) ≡ false) }
    ensures full { OnErr result ((is_fast_made_of params.now && nat_lt layout.now.grid.spans (span_count layout.now params.now true)) ≡ true) }
    ensures room { sheet.new.room ≡ sheet.old.room }
{
    if !is_fast_made(params) {
        return Ok(0);
    }
    write_trial(sheet, layout, params, true, path, rects, is_steady)
}

// Writes the cells of the steady trial into an empty sheet, unless the fast one is tried alone, and says how many steps it
// has.
fn write_steady(
    layout: &Layout,
    params: &Params,
    path: &Path,
    rects: &[TileRect],
    is_steady: bool,
    sheet: &mut Sheet,
) -> Result<u32, SheetFull>
    requires valid { IsValid layout.now }
    requires good { bad_crossing_of layout.now params.now ≡ None }
    requires found { path_of layout.now params.now.lane params.now.turn ≡ Some path.now }
    requires round { AreRectsOf layout.now.grid (ceil_div params.now.width 2 + layout.now.grid.spacing + layout.now.grid.fixed) (stations layout.now params.now.lane params.now.turn) rects.now }
    requires steady { is_steady ≡ true → AreSteady rects.now }
    requires empty { sheet.old ≡ record { spans = []; room = layout.now.grid.spans } }
    ensures steady { OnOk result ((judged layout.now params.now).fast ≡ false → IsTrialOf layout.now params.now false sheet.new.spans) }
    ensures steps { IfOk result (λ steps. steps ≡ (if (judged layout.now params.now).fast then 0 else crossing_steps layout.now params.now false)) }
    ensures untried { OnOk result ((judged layout.now params.now).fast ≡ true → sheet.new.spans ≡ []) }
    ensures fit { OnOk result ((judged layout.now params.now).fast ≡ false → nat_lt layout.now.grid.spans (span_count layout.now params.now false) ≡ false) }
    ensures full { OnErr result (((judged layout.now params.now).fast ≡ false) × (nat_lt layout.now.grid.spans (span_count layout.now params.now false) ≡ true)) }
    ensures room { sheet.new.room ≡ sheet.old.room }
{
    if is_judged_fast(layout, params) {
        return Ok(0);
    }
    write_trial(sheet, layout, params, false, path, rects, is_steady)
}

// Writes the cells of the trials into two empty sheets, with a list of rectangles of the path's length.
fn write_trials(
    layout: &Layout,
    params: &Params,
    path: &Path,
    rects: &mut [TileRect],
    first: &mut Sheet,
    second: &mut Sheet,
) -> Result<TrialSteps, SheetFull>
    requires good { bad_crossing_of layout.now params.now ≡ None }
    requires found { path_of layout.now params.now.lane params.now.turn ≡ Some path.now }
    requires rects { length rects.old ≡ length path.now }
    requires first { first.old ≡ record { spans = []; room = layout.now.grid.spans } }
    requires second { second.old ≡ record { spans = []; room = layout.now.grid.spans } }
    ensures steady { OnOk result ((judged layout.now params.now).fast ≡ false → IsTrialOf layout.now params.now false second.new.spans) }
    ensures fast { OnOk result (is_fast_made_of params.now ≡ true → IsTrialOf layout.now params.now true first.new.spans) }
    ensures steps { IfOk result (IsStepsOf layout.now params.now) }
    ensures unmade { OnOk result (is_fast_made_of params.now ≡ false → first.new.spans ≡ []) }
    ensures untried { OnOk result ((judged layout.now params.now).fast ≡ true → second.new.spans ≡ []) }
    ensures fit { OnOk result (needs_too_many_spans layout.now params.now ≡ false) }
    ensures full { OnErr result (needs_too_many_spans layout.now params.now ≡ true) }
    ensures first_room { first.new.room ≡ first.old.room }
    ensures second_room { second.new.room ≡ second.old.room }
{
    let is_steady = fill_path(layout, params, path, rects);
    let steady = write_steady(layout, params, path, rects, is_steady, second)?;
    let fast = write_fast(layout, params, path, rects, is_steady, first)?;
    Ok(TrialSteps { fast, steady })
}

// Writes the cells of the trials into two empty sheets, or gives the field that is wrong and leaves both empty.
fn write_request(
    layout: &Layout,
    params: &Params,
    first: &mut Sheet,
    second: &mut Sheet,
) -> Result<TrialSteps, Field>
    requires first { first.old ≡ record { spans = []; room = layout.now.grid.spans } }
    requires second { second.old ≡ record { spans = []; room = layout.now.grid.spans } }
    ensures field { result_err result ≡ bad_of layout.now params.now }
    ensures steady { OnOk result ((judged layout.now params.now).fast ≡ false → IsTrialOf layout.now params.now false second.new.spans) }
    ensures fast { OnOk result (is_fast_made_of params.now ≡ true → IsTrialOf layout.now params.now true first.new.spans) }
    ensures steps { IfOk result (IsStepsOf layout.now params.now) }
    ensures unmade { OnOk result (is_fast_made_of params.now ≡ false → first.new.spans ≡ []) }
    ensures untried { OnOk result ((judged layout.now params.now).fast ≡ true → second.new.spans ≡ []) }
    ensures first_empty { OnErr result (first.new.spans ≡ []) }
    ensures second_empty { OnErr result (second.new.spans ≡ []) }
    ensures first_room { first.new.room ≡ first.old.room }
    ensures second_room { second.new.room ≡ second.old.room }
{
    if let Some(field) = bad_crossing(layout, params) {
        return Err(field);
    }
    let Some(path) = Path::of(layout, params.lane, params.turn) else {
        return Err(Field::Turn);
    };
    let mut table = [TileRect {
        row0: 0,
        row1: 0,
        col0: 0,
        col1: 0,
    }; 4097];
    let count = path.stations().len();
    match write_trials(layout, params, &path, &mut table[..count], first, second) {
        Ok(steps) => Ok(steps),
        Err(SheetFull) => {
            first.clear();
            second.clear();
            Err(Field::Spans)
        }
    }
}

/// A message with the cells of its crossing in two sheets, or with two empty sheets where it is no request or a field of
/// it is wrong. Nobody but this crate makes or changes one, so it is what `prepare` would answer for some layout.
#[derive(Drop)]
pub struct Prepared {
    message: Message,
    bad: Option<Field>,
    steps: TrialSteps,
    first: Sheet,
    second: Sheet,
}

impl Model for Prepared {
    ghost use Rattle.aim_requests.specs.Requests.{Request};

    ghost Value = { Request };

    ghost use Rattle.aim_layout.specs.Intersection.{Intersection};
    ghost use Rattle.aim_requests.specs.Requests.{IsPreparedFor};

    ghost view = { λ p. record { message = p.message; bad = p.bad; steps = p.steps; first = p.first; second = p.second } };

    ghost invariant = { λ p. (i : Intersection) × IsPreparedFor i (record { message = p.message; bad = p.bad; steps = p.steps; first = p.first; second = p.second }) };
}

/// Prepares a message for a manager over the layout: finds the field that is wrong, if one is, and writes the cells of
/// the trials into the two empty sheets. It waits for nothing and takes no memory.
pub fn prepare(layout: &Layout, message: &Message, first: Sheet, second: Sheet) -> Prepared
    requires first { first ≡ record { spans = []; room = layout.now.grid.spans } }
    requires second { second ≡ record { spans = []; room = layout.now.grid.spans } }
    ensures message { result.message ≡ message.now }
    ensures prepared { IsPreparedFor layout.now result }
{
    match &message.body {
        Body::Request(params) | Body::Change(_, params) => {
            prepare_request(layout, message, params, first, second)
        }
        Body::Cancel(_) | Body::Done(_) => Prepared {
            message: *message,
            bad: None,
            steps: NO_STEPS,
            first,
            second,
        },
    }
}

/// No request, with two empty sheets.
pub(crate) fn no_request(first: Sheet, second: Sheet) -> Prepared
    requires first { first.spans ≡ [] }
    requires second { second.spans ≡ [] }
    requires room { first.room ≡ second.room }
    ensures { result ≡ record { message = record { seq = 0; body = body.Cancel 0 }; bad = None; steps = record { fast = 0; steady = 0 }; first = first; second = second } }
{
    Prepared {
        message: NO_REQUEST,
        bad: None,
        steps: NO_STEPS,
        first,
        second,
    }
}

/// Prepares a message with two sheets of the pool.
pub fn prepare_from(layout: &Layout, message: &Message, pool: &mut Pool) -> Prepared
    requires two { 2 ≤ pool.old.count }
    requires room { pool.old.room ≡ layout.now.grid.spans }
    ensures message { result.message ≡ message.now }
    ensures prepared { IsPreparedFor layout.now result }
    ensures pool { pool.new ≡ record pool.old { count = pool.old.count - 2 } }
{
    let Ok(first) = pool.take() else {
        unreachable!()
    };
    let Ok(second) = pool.take() else {
        unreachable!()
    };
    prepare(layout, message, first, second)
}

/// A message that asks for no crossing.
pub(crate) const NO_REQUEST: Message = Message {
    seq: 0,
    body: Body::Cancel(0),
};

// The steps of no trial.
const NO_STEPS: TrialSteps = TrialSteps { fast: 0, steady: 0 };

// Prepares a message that has params: finds the field that is wrong, if one is, and writes the cells of the trials.
fn prepare_request(
    layout: &Layout,
    message: &Message,
    params: &Params,
    mut first: Sheet,
    mut second: Sheet,
) -> Prepared
    requires asks { params_of message.now.body ≡ Some params.now }
    requires first { first ≡ record { spans = []; room = layout.now.grid.spans } }
    requires second { second ≡ record { spans = []; room = layout.now.grid.spans } }
    ensures message { result.message ≡ message.now }
    ensures prepared { IsPreparedFor layout.now result }
{
    let (bad, steps) = match write_request(layout, params, &mut first, &mut second) {
        Ok(steps) => (None, steps),
        Err(field) => (Some(field), NO_STEPS),
    };
    Prepared {
        message: *message,
        bad,
        steps,
        first,
        second,
    }
}

// The body of a message with another arrival, and no later one.
fn arriving(body: &Body, at: u32) -> Body
    ensures params { params_of result ≡ option_map (λ p. arriving_at p at) (params_of body.now) }
    ensures given { given_up result ≡ given_up body.now }
{
    match body {
        Body::Request(params) => Body::Request(Params {
            arrive: at,
            latest: at,
            ..*params
        }),
        Body::Change(id, params) => Body::Change(
            *id,
            Params {
                arrive: at,
                latest: at,
                ..*params
            },
        ),
        Body::Cancel(id) => Body::Cancel(*id),
        Body::Done(id) => Body::Done(*id),
    }
}

impl Prepared {
    // The params of the crossing whose cells are here, if there are any.
    pub(crate) fn asked(&self) -> Option<Params>
        ensures { result ≡ prepared_params self.now }
    {
        if self.bad.is_some() {
            return None;
        }
        params_in(&self.message.body)
    }

    // The request of a message that asks for this crossing at another step, its cells in two empty sheets.
    fn moved(
        &self,
        layout: &Layout,
        message: &Message,
        from: u32,
        to: u32,
        mut first: Sheet,
        mut second: Sheet,
    ) -> Prepared
        requires prepared { IsPreparedFor layout.now self.now }
        requires asks { AsksAnew layout.now self.now from to (params_of message.now.body) }
        requires from { layout.now.times.edge ≤ from }
        requires to { layout.now.times.edge ≤ to }
        requires last { to ≤ LATEST_MOMENT }
        requires first { first ≡ record { spans = []; room = layout.now.grid.spans } }
        requires second { second ≡ record { spans = []; room = layout.now.grid.spans } }
        ensures message { result.message ≡ message.now }
        ensures prepared { IsPreparedFor layout.now result }
    {
        let edge = layout.ground().times().edge;
        let fast = self.first.spans();
        let steady = self.second.spans();
        first.copy_moved(fast, from - edge, to - edge);
        second.copy_moved(steady, from - edge, to - edge);
        Prepared {
            message: *message,
            bad: None,
            steps: self.steps,
            first,
            second,
        }
    }

    // The request of a message that asks for this crossing at another step, with two sheets of the pool.
    pub(crate) fn moved_from(
        &self,
        layout: &Layout,
        message: &Message,
        from: u32,
        to: u32,
        pool: &mut Pool,
    ) -> Prepared
        requires prepared { IsPreparedFor layout.now self.now }
        requires asks { AsksAnew layout.now self.now from to (params_of message.now.body) }
        requires from { layout.now.times.edge ≤ from }
        requires to { layout.now.times.edge ≤ to }
        requires last { to ≤ LATEST_MOMENT }
        requires two { 2 ≤ pool.old.count }
        requires room { pool.old.room ≡ layout.now.grid.spans }
        ensures message { result.message ≡ message.now }
        ensures prepared { IsPreparedFor layout.now result }
        ensures pool { pool.new ≡ record pool.old { count = pool.old.count - 2 } }
    {
        let Ok(first) = pool.take() else {
            unreachable!()
        };
        let Ok(second) = pool.take() else {
            unreachable!()
        };
        self.moved(layout, message, from, to, first, second)
    }

    /// Moves the crossing on: it is to arrive at another step, and no later.
    pub fn move_to(&mut self, layout: &Layout, from: u32, to: u32)
        requires prepared { IsPreparedFor layout.now self.old }
        requires asks { AsksAnew layout.now self.old from to (option_map (λ p. arriving_at p to) (params_of self.old.message.body)) }
        requires from { layout.now.times.edge ≤ from }
        requires to { layout.now.times.edge ≤ to }
        requires last { to ≤ LATEST_MOMENT }
        ensures prepared { IsPreparedFor layout.now self.new }
        ensures params { params_of self.new.message.body ≡ option_map (λ p. arriving_at p to) (params_of self.old.message.body) }
        ensures given { given_up self.new.message.body ≡ given_up self.old.message.body }
        ensures first { length self.new.first.spans ≡ length self.old.first.spans }
        ensures second { length self.new.second.spans ≡ length self.old.second.spans }
    {
        let edge = layout.ground().times().edge;
        // The calls tell that no span is empty.
        let (_, _) = (self.first.spans(), self.second.spans());
        self.first.move_to(from - edge, to - edge);
        self.second.move_to(from - edge, to - edge);
        self.message.body = arriving(&self.message.body, to);
    }

    // Becomes another request, in its own sheets.
    pub(crate) fn copy(&mut self, other: &Prepared)
        requires first { self.old.first.room ≡ other.now.first.room }
        requires second { self.old.second.room ≡ other.now.second.room }
        ensures { self.new ≡ other.now }
    {
        self.first.copy(other.first.spans());
        self.second.copy(other.second.spans());
        self.message = other.message;
        self.bad = other.bad;
        self.steps = other.steps;
    }

    // How many spans there may be in each sheet.
    pub(crate) fn rooms(&self) -> (u32, u32)
        ensures first { result.0 ≡ self.now.first.room }
        ensures second { result.1 ≡ self.now.second.room }
    {
        (self.first.room(), self.second.room())
    }

    /// The message.
    pub fn message(&self) -> &Message
        ensures message { result.now ≡ self.now.message }
        ensures prepared { (i : Intersection) × IsPreparedFor i self.now }
    {
        &self.message
    }

    /// The field of the message that is wrong, if one is.
    pub fn bad(&self) -> Option<Field>
        ensures { result ≡ self.now.bad }
    {
        self.bad
    }

    /// How many crossing steps each trial has.
    pub fn steps(&self) -> TrialSteps
        ensures { result ≡ self.now.steps }
    {
        self.steps
    }

    /// The cells of the fast trial. None where that trial isn't made, for a message that is no request, and where a field
    /// is wrong.
    pub fn cells_a(&self) -> Option<&Sheet>
        ensures { option_map (λ sheet. sheet.now) result ≡ fast_sheet self.now }
    {
        if self.bad.is_some() {
            return None;
        }
        match &self.message.body {
            Body::Request(params) | Body::Change(_, params) if is_fast_made(params) => Some(
                &self.first,
            ),
            _ => None,
        }
    }

    /// The cells of the steady trial, which has none where the fast one is tried alone. None for a message that is no
    /// request, and where a field is wrong.
    pub fn cells_b(&self) -> Option<&Sheet>
        ensures { option_map (λ sheet. sheet.now) result ≡ steady_sheet self.now }
    {
        if self.bad.is_some() {
            return None;
        }
        match &self.message.body {
            Body::Request(_) | Body::Change(_, _) => Some(&self.second),
            Body::Cancel(_) | Body::Done(_) => None,
        }
    }

    /// Both sheets: that of the fast trial, and that of the steady one.
    pub fn into_sheets(self) -> (Sheet, Sheet)
        ensures first { result.0 ≡ self.first }
        ensures second { result.1 ≡ self.second }
    {
        let Prepared {
            message: _,
            bad: _,
            steps: _,
            first,
            second,
        } = self;
        (first, second)
    }

    /// Gives both sheets to the pool.
    pub fn give_back(self, pool: &mut Pool)
        requires count { pool.old.count ≤ 1000000 }
        requires first { self.first.room ≡ pool.old.room }
        requires second { self.second.room ≡ pool.old.room }
        ensures { pool.new ≡ record pool.old { count = pool.old.count + 2 } }
    {
        let (first, second) = self.into_sheets();
        pool.give(first);
        pool.give(second);
    }
}
