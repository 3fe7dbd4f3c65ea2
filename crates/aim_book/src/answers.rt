//! What a fresh message is answered.

ghost use Rattle.std.specs.Prelude.{◌≡◌, ℕ, ◌+◌, ◌*◌, ◌<◌, ◌≤◌, ◌&&◌, true, false, nat_le, length, Some, None, is_none};
ghost use Rattle.aim_messages.specs.declared.messages.Params.{Params};
ghost use Rattle.aim_requests.specs.Fields.{IsTried};
ghost use Rattle.aim_requests.specs.Requests.{IsPreparedFor};
ghost use Rattle.aim_rules.specs.Bad.{bad};
ghost use Rattle.aim_rules.specs.Trials.{Trial, granted_trial, has_windows as has_windows_of, is_fast_made};
ghost use Rattle.aim_rules.specs.Footprint.{crossing_steps};
ghost use Rattle.aim_rules.specs.History.{given_up, params_of};
ghost use Rattle.aim_rules.specs.Kept.{policy_in};
ghost use Rattle.aim_rules.specs.Known.{Known};
ghost use Rattle.aim_rules.specs.Answer.{answer_asking, answer_free, answer_fresh, confirmation, first_blocked, first_reason};
ghost use Rattle.aim_rules.specs.Windows.{two_trials};
ghost use Rattle.aim_book.specs.Asking.{AreCalling, HasGoneTo, IsAsking};
ghost use Rattle.aim_book.specs.Costs.{starts_tried};
ghost use Rattle.aim_reservations.specs.Blocking.{is_lit};
ghost use Rattle.aim_book.specs.Desk.{Tells};

use crate::desks::Desk;
use crate::windows::has_windows;
use aim_layout::Layout;
use aim_messages::{Body, Params, Reply};
use aim_requests::Prepared;
use aim_tiles::Steps;
use std::sync::ledger::Ledger;

/// A Confirm of the fast trial or of the steady one, where it is tried, which has so many crossing steps.
pub(crate) fn confirm(
    layout: &Layout,
    place: u32,
    params: &Params,
    accelerate: bool,
    steps: u32,
) -> Reply
    requires good { bad layout.now params.now ≡ None }
    requires tried { IsTried layout.now params.now accelerate }
    requires steps { steps ≡ crossing_steps layout.now params.now accelerate }
    ensures { (k : Known) → k.place ≡ place → result ≡ confirmation layout.now k params.now (record { start = params.now.arrive; fast = accelerate }) }
{
    let times = layout.ground().times();
    Reply::Confirm {
        id: place,
        start: params.arrive,
        early: times.early,
        late: times.late,
        accelerate,
        last: params.arrive + steps - 1,
    }
}

impl<L: Ledger> Desk<L> {
    // Whether the fast trial is made and all its cells can be had.
    fn is_fast_free(
        &self,
        layout: &Layout,
        vehicle: u32,
        prepared: &Prepared,
        params: &Params,
        steps: &mut Steps<L>,
    ) -> bool
        requires row { vehicle < length self.now.reservations.rows.items }
        requires lights { self.now.has_lights ≡ is_lit layout.now }
        requires size { self.now.reservations.table.size ≡ layout.now.grid.n }
        requires asking { IsAsking layout.now params.now prepared.now }
        requires good { bad layout.now params.now ≡ None }
        requires ahead { nat_le params.now.arrive (self.now.reservations.table.current + layout.now.times.edge) ≡ false }
        ensures free { (k : Known) (place : ℕ) → Tells layout.now vehicle place k self.now → result ≡ (is_fast_made params.now && is_none (first_blocked layout.now k params.now (record { start = params.now.arrive; fast = true }))) }
        ensures made { result ≡ true → is_fast_made params.now ≡ true }
        ensures cost { steps.new ≤ steps.old + length prepared.now.first.spans }
        ensures counted { steps.old ≤ steps.new }
    {
        match prepared.cells_a() {
            Some(sheet) => self.is_free(layout, vehicle, params.lane, sheet, steps),
            None => false,
        }
    }

    // The answer to a request with one arrival that nothing but the cells of its crossing can refuse: a Confirm of the fast
    // trial where that is free, or else of the steady one where that is, or else the refusal.
    fn answer_two(
        &self,
        layout: &Layout,
        vehicle: u32,
        place: u32,
        prepared: &Prepared,
        params: &Params,
        steps: &mut Steps<L>,
    ) -> Reply
        requires caller { vehicle < length self.now.sessions }
        requires row { vehicle < length self.now.reservations.rows.items }
        requires few { length self.now.reservations.rows.items ≤ 65536 }
        requires lights { self.now.has_lights ≡ is_lit layout.now }
        requires size { self.now.reservations.table.size ≡ layout.now.grid.n }
        requires one { has_windows_of layout.now ≡ false }
        requires asking { IsAsking layout.now params.now prepared.now }
        requires good { bad layout.now params.now ≡ None }
        requires ahead { nat_le params.now.arrive (self.now.reservations.table.current + layout.now.times.edge) ≡ false }
        ensures reply { (k : Known) → Tells layout.now vehicle place k self.now → result ≡ two_trials layout.now k params.now }
        ensures cost { steps.new ≤ steps.old + length prepared.now.first.spans + length prepared.now.second.spans }
        ensures counted { steps.old ≤ steps.new }
    {
        if self.is_fast_free(layout, vehicle, prepared, params, steps) {
            return confirm(layout, place, params, true, prepared.steps().fast);
        }
        let Some(sheet) = prepared.cells_b() else {
            unreachable!()
        };
        match self.conflict(layout, vehicle, params.lane, sheet, steps) {
            Some(reason) => self.refuse(layout, vehicle, params.arrive, reason),
            None => confirm(layout, place, params, false, prepared.steps().steady),
        }
    }

    // The answer to a request that nothing but the cells of its crossing can refuse: a Confirm of the first of its trials
    // that is free, or else the refusal. Where a later start is granted, the request has gone on to it.
    fn answer_free(
        &self,
        layout: &Layout,
        vehicle: u32,
        place: u32,
        prepared: &mut Prepared,
        params: &Params,
        steps: &mut Steps<L>,
    ) -> Reply
        requires caller { vehicle < length self.now.sessions }
        requires row { vehicle < length self.now.reservations.rows.items }
        requires few { length self.now.reservations.rows.items ≤ 65536 }
        requires lights { self.now.has_lights ≡ is_lit layout.now }
        requires size { self.now.reservations.table.size ≡ layout.now.grid.n }
        requires asking { IsAsking layout.now params.now prepared.old }
        requires good { bad layout.now params.now ≡ None }
        requires ahead { nat_le params.now.arrive (self.now.reservations.table.current + layout.now.times.edge) ≡ false }
        ensures reply { (k : Known) → Tells layout.now vehicle place k self.now → first_reason layout.now k params.now ≡ None → result ≡ answer_free layout.now k params.now }
        ensures prepared { IsPreparedFor layout.now prepared.new }
        ensures gone { (k : Known) → Tells layout.now vehicle place k self.now → (t : Trial) → granted_trial result ≡ Some t → HasGoneTo layout.now params.now t.start prepared.new }
        ensures given { given_up prepared.new.message.body ≡ given_up prepared.old.message.body }
        ensures cost { steps.new ≤ steps.old + starts_tried layout.now (Some params.now) * (length prepared.old.first.spans + length prepared.old.second.spans) }
        ensures counted { steps.old ≤ steps.new }
    {
        if has_windows(layout) {
            self.answer_window(layout, vehicle, place, prepared, params, steps)
        } else {
            self.answer_two(layout, vehicle, place, prepared, params, steps)
        }
    }

    // The answer to a request, where no Stop stands. Where a later start is granted, the request has gone on to it.
    fn answer_asking(
        &self,
        layout: &Layout,
        vehicle: u32,
        place: u32,
        prepared: &mut Prepared,
        params: &Params,
        steps: &mut Steps<L>,
    ) -> Reply
        requires caller { vehicle < length self.now.sessions }
        requires row { vehicle < length self.now.reservations.rows.items }
        requires few { length self.now.reservations.rows.items ≤ 65536 }
        requires lights { self.now.has_lights ≡ is_lit layout.now }
        requires size { self.now.reservations.table.size ≡ layout.now.grid.n }
        requires there { (s : ℕ) → (policy_in self.now.timeline.pushed s).policy < length layout.now.policies }
        requires asking { IsAsking layout.now params.now prepared.old }
        ensures reply { (k : Known) → Tells layout.now vehicle place k self.now → AreCalling layout.now k params.now self.now.approaches → result ≡ answer_asking layout.now k prepared.old.message.body params.now }
        ensures prepared { IsPreparedFor layout.now prepared.new }
        ensures gone { (k : Known) → Tells layout.now vehicle place k self.now → (t : Trial) → granted_trial result ≡ Some t → HasGoneTo layout.now params.now t.start prepared.new }
        ensures given { given_up prepared.new.message.body ≡ given_up prepared.old.message.body }
        ensures cost { steps.new ≤ steps.old + starts_tried layout.now (Some params.now) * (length prepared.old.first.spans + length prepared.old.second.spans) }
        ensures counted { steps.old ≤ steps.new }
    {
        if let Some(reason) = self.own_refusal(vehicle, &prepared.message().body) {
            return self.refuse(layout, vehicle, params.arrive, reason);
        }
        match self.early_reason(layout, vehicle, prepared, params) {
            Some(reason) => self.refuse(layout, vehicle, params.arrive, reason),
            None => self.answer_free(layout, vehicle, place, prepared, params, steps),
        }
    }

    /// The answer to a fresh message of the vehicle that gets this place in the journal, its call of an emergency, if it is
    /// one, noted. Where a later start is granted, the request has gone on to it.
    pub(crate) fn answer_fresh(
        &self,
        layout: &Layout,
        vehicle: u32,
        place: u32,
        prepared: &mut Prepared,
        steps: &mut Steps<L>,
    ) -> Reply
        requires caller { vehicle < length self.now.sessions }
        requires row { vehicle < length self.now.reservations.rows.items }
        requires few { length self.now.reservations.rows.items ≤ 65536 }
        requires lights { self.now.has_lights ≡ is_lit layout.now }
        requires size { self.now.reservations.table.size ≡ layout.now.grid.n }
        requires there { (s : ℕ) → (policy_in self.now.timeline.pushed s).policy < length layout.now.policies }
        requires prepared { IsPreparedFor layout.now prepared.old }
        ensures reply { (k : Known) → Tells layout.now vehicle place k self.now → ((p : Params) → params_of prepared.old.message.body ≡ Some p → AreCalling layout.now k p self.now.approaches) →
            result ≡ answer_fresh layout.now k prepared.old.message.body }
        ensures prepared { IsPreparedFor layout.now prepared.new }
        ensures gone { (k : Known) (p : Params) → Tells layout.now vehicle place k self.now → params_of prepared.old.message.body ≡ Some p → (t : Trial) → granted_trial result ≡ Some t → HasGoneTo layout.now p t.start prepared.new }
        ensures given { given_up prepared.new.message.body ≡ given_up prepared.old.message.body }
        ensures cost { steps.new ≤ steps.old + starts_tried layout.now (params_of prepared.old.message.body) * (length prepared.old.first.spans + length prepared.old.second.spans) }
        ensures counted { steps.old ≤ steps.new }
    {
        let body = prepared.message().body;
        match body {
            Body::Cancel(id) | Body::Done(id) => Reply::Ack { id },
            Body::Request(_) | Body::Change(_, _) if self.stopped => Reply::EmergencyStop,
            Body::Request(params) | Body::Change(_, params) => self.answer_asking(
                layout, vehicle, place, prepared, &params, steps,
            ),
        }
    }
}
