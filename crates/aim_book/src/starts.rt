//! The starts of a window of arrivals.

ghost use Rattle.std.specs.Prelude.{◌≡◌, ℕ, ◌+◌, ◌-◌, ◌*◌, ◌<◌, ◌≤◌, ◌&&◌, true, false, nat_le, length, Some, None, is_none, IfNone, IfSome};
ghost use Rattle.aim_messages.specs.declared.messages.Params.{Params};
ghost use Rattle.aim_reservations.specs.Blocking.{is_lit};
ghost use Rattle.aim_requests.specs.Requests.{IsPreparedFor};
ghost use Rattle.aim_rules.specs.Answer.{answer_free, confirmation, ends_beyond, first_blocked, first_reason, is_free};
ghost use Rattle.aim_rules.specs.Bad.{bad};
ghost use Rattle.aim_rules.specs.History.{given_up};
ghost use Rattle.aim_rules.specs.Known.{Known};
ghost use Rattle.aim_rules.specs.Trials.{Trial, arriving_at, granted_trial, has_windows, judged};
ghost use Rattle.aim_rules.specs.Windows.{trial_at};
ghost use Rattle.aim_book.specs.Asking.{HasGoneTo, IsAsking};
ghost use Rattle.aim_book.specs.Desk.{Tells};

use crate::answers::confirm;
use crate::desks::Desk;
use crate::refusals::is_far;
use crate::windows::judged_sheet;
use aim_layout::Layout;
use aim_messages::{Params, Reply};
use aim_requests::Prepared;
use aim_tiles::Steps;
use std::sync::ledger::Ledger;

// The params with that arrival, and no later one.
fn arriving(params: &Params, at: u32) -> Params
    ensures { result ≡ arriving_at params.now at }
{
    Params {
        arrive: at,
        latest: at,
        ..*params
    }
}

// A Confirm of the one trial at the arrival.
fn confirm_judged(layout: &Layout, place: u32, prepared: &Prepared, params: &Params) -> Reply
    requires windows { has_windows layout.now ≡ true }
    requires asking { IsAsking layout.now params.now prepared.now }
    requires good { bad layout.now params.now ≡ None }
    ensures { (k : Known) → k.place ≡ place → result ≡ confirmation layout.now k params.now (judged layout.now params.now) }
{
    let steps = prepared.steps();
    match prepared.cells_a() {
        Some(_) => confirm(layout, place, params, true, steps.fast),
        None => confirm(layout, place, params, false, steps.steady),
    }
}

impl<L: Ledger> Desk<L> {
    // Whether the trial at the arrival has a cell from the horizon on.
    fn ends_beyond(&self, layout: &Layout, prepared: &Prepared) -> bool
        ensures { (k : Known) (p : Params) (vehicle place : ℕ) → Tells layout.now vehicle place k self.now → IsAsking layout.now p prepared.now → bad layout.now p ≡ None → result ≡ ends_beyond layout.now k p (judged layout.now p) }
    {
        let reach = self.reservations.now() + layout.ground().times().horizon;
        is_far(layout, prepared, reach)
    }

    // Whether all cells of the trial at the arrival can be had.
    fn is_start_free(
        &self,
        layout: &Layout,
        vehicle: u32,
        prepared: &Prepared,
        params: &Params,
        steps: &mut Steps<L>,
    ) -> bool
        requires row { vehicle < length self.now.reservations.rows.items }
        requires lights { self.now.has_lights ≡ is_lit layout.now }
        requires size { self.now.reservations.table.size ≡ layout.now.grid.n }
        requires asking { IsAsking layout.now params.now prepared.now }
        requires good { bad layout.now params.now ≡ None }
        requires ahead { nat_le params.now.arrive (self.now.reservations.table.current + layout.now.times.edge) ≡ false }
        ensures free { (k : Known) (place : ℕ) → Tells layout.now vehicle place k self.now → result ≡ is_none (first_blocked layout.now k params.now (judged layout.now params.now)) }
        ensures cost { steps.new ≤ steps.old + (length prepared.now.first.spans + length prepared.now.second.spans) }
        ensures counted { steps.old ≤ steps.new }
    {
        match judged_sheet(layout, prepared) {
            Some(sheet) => self.is_free(layout, vehicle, params.lane, sheet, steps),
            None => false,
        }
    }

    // The first start of the window, behind its first one, at which the trial is free, if there is one. The request goes
    // on to it. Where the trial ends beyond the horizon, it does so at each later start too.
    fn later_start(
        &self,
        layout: &Layout,
        vehicle: u32,
        prepared: &mut Prepared,
        params: &Params,
        steps: &mut Steps<L>,
    ) -> Option<u32>
        requires row { vehicle < length self.now.reservations.rows.items }
        requires lights { self.now.has_lights ≡ is_lit layout.now }
        requires size { self.now.reservations.table.size ≡ layout.now.grid.n }
        requires windows { has_windows layout.now ≡ true }
        requires asking { IsAsking layout.now params.now prepared.old }
        requires good { bad layout.now params.now ≡ None }
        requires ahead { nat_le params.now.arrive (self.now.reservations.table.current + layout.now.times.edge) ≡ false }
        ensures prepared { IsPreparedFor layout.now prepared.new }
        ensures within { IfSome result (λ s. (params.now.arrive < s) × (s ≤ params.now.latest)) }
        ensures asking { IfSome result (λ s. IsAsking layout.now (arriving_at params.now s) prepared.new) }
        ensures good { IfSome result (λ s. bad layout.now (arriving_at params.now s) ≡ None) }
        ensures free { IfSome result (λ s. (k : Known) (place : ℕ) → Tells layout.now vehicle place k self.now → is_free layout.now k params.now (trial_at params.now s) ≡ true) }
        ensures before { IfSome result (λ s. (k : Known) (place : ℕ) → Tells layout.now vehicle place k self.now → (r : ℕ) → params.now.arrive < r → r < s → is_free layout.now k params.now (trial_at params.now r) ≡ false) }
        ensures none { IfNone result ((k : Known) (place : ℕ) → Tells layout.now vehicle place k self.now → (r : ℕ) → params.now.arrive < r → r ≤ params.now.latest → is_free layout.now k params.now (trial_at params.now r) ≡ false) }
        ensures given { given_up prepared.new.message.body ≡ given_up prepared.old.message.body }
        ensures first { length prepared.new.first.spans ≡ length prepared.old.first.spans }
        ensures second { length prepared.new.second.spans ≡ length prepared.old.second.spans }
        ensures cost { steps.new ≤ steps.old + (params.now.latest - params.now.arrive) * (length prepared.old.first.spans + length prepared.old.second.spans) }
        ensures counted { steps.old ≤ steps.new }
    {
        let mut from = params.arrive;
        while from < params.latest {
            let start = from + 1;
            prepared.move_to(layout, from, start);
            if self.ends_beyond(layout, prepared) {
                return None;
            }
            let moved = arriving(params, start);
            if self.is_start_free(layout, vehicle, prepared, &moved, steps) {
                return Some(start);
            }
            from = start;
        }
        None
    }

    /// The answer to a request with a window that nothing before the cells of its trials refuses: a Confirm of the first
    /// start that is free, or else the refusal for the least cell of the first trial that can't be had. Where a start is
    /// granted, the request has gone on to it.
    pub(crate) fn answer_window(
        &self,
        layout: &Layout,
        vehicle: u32,
        place: u32,
        prepared: &mut Prepared,
        params: &Params,
        steps: &mut Steps<L>,
    ) -> Reply
        requires caller { vehicle < length self.now.sessions }
        requires row { vehicle < length self.now.reservations.rows.items }
        requires few { length self.now.reservations.rows.items ≤ 65536 }
        requires lights { self.now.has_lights ≡ is_lit layout.now }
        requires size { self.now.reservations.table.size ≡ layout.now.grid.n }
        requires windows { has_windows layout.now ≡ true }
        requires asking { IsAsking layout.now params.now prepared.old }
        requires good { bad layout.now params.now ≡ None }
        requires ahead { nat_le params.now.arrive (self.now.reservations.table.current + layout.now.times.edge) ≡ false }
        ensures reply { (k : Known) → Tells layout.now vehicle place k self.now → first_reason layout.now k params.now ≡ None → result ≡ answer_free layout.now k params.now }
        ensures prepared { IsPreparedFor layout.now prepared.new }
        ensures gone { (k : Known) → Tells layout.now vehicle place k self.now → (t : Trial) → granted_trial result ≡ Some t → HasGoneTo layout.now params.now t.start prepared.new }
        ensures given { given_up prepared.new.message.body ≡ given_up prepared.old.message.body }
        ensures first { length prepared.new.first.spans ≡ length prepared.old.first.spans }
        ensures second { length prepared.new.second.spans ≡ length prepared.old.second.spans }
        ensures cost { steps.new ≤ steps.old + (params.now.latest + 1 - params.now.arrive) * (length prepared.old.first.spans + length prepared.old.second.spans) }
        ensures counted { steps.old ≤ steps.new }
    {
        let Some(sheet) = judged_sheet(layout, prepared) else {
            unreachable!()
        };
        let Some(reason) = self.conflict(layout, vehicle, params.lane, sheet, steps) else {
            return confirm_judged(layout, place, prepared, params);
        };
        match self.later_start(layout, vehicle, prepared, params, steps) {
            Some(start) => confirm_judged(layout, place, prepared, &arriving(params, start)),
            None => self.refuse(layout, vehicle, params.arrive, reason),
        }
    }
}
