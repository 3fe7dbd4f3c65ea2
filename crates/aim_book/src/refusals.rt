//! Why a vehicle is refused before the cells of its crossing are looked at.

ghost use Rattle.std.specs.Prelude.{◌≡◌, ℕ, ◌+◌, ◌<◌, ◌≤◌, false, nat_le, length, drop, IfNone, Some, None, option_map};
ghost use Rattle.std.specs.List.{list_any};
ghost use Rattle.aim_messages.specs.declared.messages.Params.{Params};
ghost use Rattle.aim_geometry.specs.Bounded.{find_map};
ghost use Rattle.aim_layout.specs.Intersection.{Intersection};
ghost use Rattle.aim_rules.specs.Bad.{bad};
ghost use Rattle.aim_rules.specs.Answer.{first_reason, gives_way as gives_way_of, in_the_way, next_for, own_refusal, refusal, tests, too_distant};
ghost use Rattle.aim_rules.specs.Cells.{cells};
ghost use Rattle.aim_rules.specs.Kept.{policy_in};
ghost use Rattle.aim_rules.specs.Trials.{judged};
ghost use Rattle.aim_rules.specs.Known.{Known};
ghost use Rattle.aim_book.specs.Asking.{AreCalling, IsAsking};
ghost use Rattle.aim_book.specs.Desk.{Tells};

use crate::desks::Desk;
use crate::windows::{has_windows, judged_sheet};
use aim_layout::{Layout, PolicyKind};
use aim_messages::{Body, Params, Reason, Reply};
use aim_policies::{has_lane, least_lane};
use aim_requests::Prepared;
use aim_reservations::{first_step, reaches};
use aim_sessions::{asked_from, next_allowed};
use std::sync::ledger::Ledger;

impl<L: Ledger> Desk<L> {
    /// The id of the reservation that the vehicle holds, if it holds one.
    pub(crate) fn held(&self, vehicle: u32) -> Option<u32>
        requires { vehicle < length self.now.reservations.rows.items }
        ensures { (i : Intersection) (k : Known) (place : ℕ) → Tells i vehicle place k self.now → result ≡ option_map (λ x. x.place) k.holds }
    {
        match self.reservations.lasting(vehicle) {
            Some(own) => Some(own.id),
            None => None,
        }
    }

    // When the vehicle may ask again, where it is refused for the reason.
    fn next_after(&self, layout: &Layout, vehicle: u32, arrive: u32, reason: &Reason) -> u32
        requires { vehicle < length self.now.sessions }
        ensures { (k : Known) (place : ℕ) → Tells layout.now vehicle place k self.now → result ≡ next_for layout.now k arrive reason.now }
    {
        match reason {
            Reason::Holds(_)
            | Reason::NoReservation
            | Reason::Begun(_)
            | Reason::TooSoon(_)
            | Reason::Reused(_) => self.sessions.standing(vehicle),
            _ => {
                let longest = layout.ground().times().longest;
                next_allowed(self.reservations.now(), arrive, longest)
            }
        }
    }

    /// A refusal of the vehicle.
    pub(crate) fn refuse(&self, layout: &Layout, vehicle: u32, arrive: u32, reason: Reason) -> Reply
        requires there { vehicle < length self.now.sessions }
        requires row { vehicle < length self.now.reservations.rows.items }
        ensures { (k : Known) (place : ℕ) → Tells layout.now vehicle place k self.now → result ≡ refusal layout.now k arrive reason }
    {
        Reply::Reject {
            next: self.next_after(layout, vehicle, arrive, &reason),
            held: self.held(vehicle),
            reason,
        }
    }

    /// Why the vehicle may not ask so, by what it holds: it has a reservation, or it has none to change, or the one has begun.
    pub(crate) fn own_refusal(&self, vehicle: u32, body: &Body) -> Option<Reason>
        requires { vehicle < length self.now.reservations.rows.items }
        ensures { (i : Intersection) (k : Known) (place : ℕ) → Tells i vehicle place k self.now → result ≡ own_refusal i k body.now }
    {
        let own = self.reservations.lasting(vehicle);
        match (body, own) {
            (Body::Request(_), Some(own)) => Some(Reason::Holds(own.id)),
            (Body::Change(id, _), Some(own)) if own.id == *id => {
                let first = first_step(&own.sheet);
                if first <= self.reservations.now() {
                    Some(Reason::Begun(first))
                } else {
                    None
                }
            }
            (Body::Change(_, _), _) => Some(Reason::NoReservation),
            _ => None,
        }
    }

    // The lane to which the vehicle has to give way at its arrival, if there is one.
    fn in_the_way(&self, layout: &Layout, params: &Params) -> Option<Reason>
        requires there { (s : ℕ) → (policy_in self.now.timeline.pushed s).policy < length layout.now.policies }
        requires lane { params.now.lane < 16 }
        ensures { (k : Known) (vehicle place : ℕ) → Tells layout.now vehicle place k self.now → AreCalling layout.now k params.now self.now.approaches → result ≡ in_the_way layout.now k params.now }
    {
        let (policy, _) = self.timeline.policy_at(params.arrive);
        if !gives_way(layout.kind(policy)) {
            return None;
        }
        let horizon = layout.ground().times().horizon;
        let lanes = self.approaches.lanes(self.reservations.now(), horizon);
        if has_lane(lanes, params.lane) {
            return None;
        }
        match least_lane(layout, lanes) {
            Some(lane) => Some(Reason::Emergency(lane)),
            None => None,
        }
    }

    /// Why the vehicle is refused before the cells of its crossing are looked at, if it is: the first of the tests that
    /// gives a reason.
    pub(crate) fn early_reason(
        &self,
        layout: &Layout,
        vehicle: u32,
        prepared: &Prepared,
        params: &Params,
    ) -> Option<Reason>
        requires caller { vehicle < length self.now.sessions }
        requires there { (s : ℕ) → (policy_in self.now.timeline.pushed s).policy < length layout.now.policies }
        requires asking { IsAsking layout.now params.now prepared.now }
        ensures reason { (k : Known) (place : ℕ) → Tells layout.now vehicle place k self.now → AreCalling layout.now k params.now self.now.approaches → result ≡ first_reason layout.now k params.now }
        ensures good { IfNone result (bad layout.now params.now ≡ None) }
        ensures ahead { IfNone result (nat_le params.now.arrive (self.now.reservations.table.current + layout.now.times.edge) ≡ false) }
    {
        let now = self.reservations.now();
        let next = self.sessions.standing(vehicle);
        if now < next {
            return Some(Reason::TooSoon(next));
        }
        if let Some(field) = prepared.bad() {
            return Some(Reason::Bad(field));
        }
        self.timely_reason(layout, prepared, params)
    }

    // Why a vehicle that may ask, and whose params are good, is refused before the cells of its crossing are looked at, if it
    // is: the first of the other tests that gives a reason.
    fn timely_reason(&self, layout: &Layout, prepared: &Prepared, params: &Params) -> Option<Reason>
        requires good { bad layout.now params.now ≡ None }
        requires there { (s : ℕ) → (policy_in self.now.timeline.pushed s).policy < length layout.now.policies }
        requires asking { IsAsking layout.now params.now prepared.now }
        ensures reason { (k : Known) (vehicle place : ℕ) → Tells layout.now vehicle place k self.now → AreCalling layout.now k params.now self.now.approaches →
            result ≡ find_map (λ test. test layout.now k params.now) (drop 2 tests) }
        ensures ahead { IfNone result (nat_le params.now.arrive (self.now.reservations.table.current + layout.now.times.edge) ≡ false) }
    {
        let times = layout.ground().times();
        let now = self.reservations.now();
        if params.arrive <= now + times.edge {
            return Some(Reason::Late(now));
        }
        let reach = now + times.horizon;
        if is_far(layout, prepared, reach) {
            return Some(Reason::Far(reach));
        }
        match self.too_distant(layout, params) {
            Some(reason) => Some(reason),
            None => self.in_the_way(layout, params),
        }
    }

    /// Why the vehicle asks from too far away, if it does. Where requests have windows no lane has a distance.
    pub(crate) fn too_distant(&self, layout: &Layout, params: &Params) -> Option<Reason>
        requires { params.now.lane < 16 }
        ensures { (k : Known) (vehicle place : ℕ) → Tells layout.now vehicle place k self.now → result ≡ too_distant layout.now k params.now }
    {
        if has_windows(layout) {
            return None;
        }
        let from = asked_from(self.reservations.now(), params);
        match self.distances.test(params.lane, from) {
            Err(least) => Some(Reason::Distance(least)),
            Ok(()) => None,
        }
    }
}

// Whether vehicles give way to emergencies under a policy of this kind.
fn gives_way(kind: PolicyKind) -> bool
    ensures { result ≡ gives_way_of (Some kind) }
{
    matches!(kind, PolicyKind::Emerg | PolicyKind::LightEmerg)
}

/// Whether the trial by which the request is judged has a cell at the step or at a later one.
pub(crate) fn is_far(layout: &Layout, prepared: &Prepared, reach: u32) -> bool
    ensures { (p : Params) → layout.now.times.early ≤ layout.now.times.edge → layout.now.times.late ≤ layout.now.times.edge → IsAsking layout.now p prepared.now → bad layout.now p ≡ None →
        result ≡ list_any (λ c. nat_le reach c.step) (cells layout.now p (judged layout.now p).fast) }
{
    match judged_sheet(layout, prepared) {
        Some(sheet) => reaches(sheet, reach),
        None => false,
    }
}
