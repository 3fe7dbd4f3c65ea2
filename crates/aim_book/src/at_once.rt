//! Messages that are answered before the cells of a crossing are prepared.

ghost use Rattle.std.specs.Prelude.{◌≡◌, ℕ, ◌+◌, ◌<◌, ◌≤◌, ◌++◌, ◌∷◌, [], List, length, drop, Some, None, IfOk, IfSome, OnErr, false, slice_index_or};
ghost use Rattle.std.specs.Option.{option_or};
ghost use Rattle.aim_messages.specs.declared.entries.Act.{Act};
ghost use Rattle.aim_messages.specs.declared.entries.Entry.{Entry};
ghost use Rattle.aim_messages.specs.declared.entries.TheConstants.{LATEST_MOMENT};
ghost use Rattle.aim_geometry.specs.Bounded.{find_map};
ghost use Rattle.aim_layout.specs.Valid.{IsValid};
ghost use Rattle.aim_sessions.specs.Calls.{call_of};
ghost use Rattle.aim_rules.specs.Answer.{answer, answer_fresh, first_reason, own_refusal};
ghost use Rattle.aim_requests.specs.Shapes.{ArePreparedFor};
ghost use Rattle.aim_rules.specs.Bad.{bad};
ghost use Rattle.aim_rules.specs.History.{is_confirm, now_of, params_of};
ghost use Rattle.aim_rules.specs.Known.{Known};
ghost use Rattle.aim_sessions.specs.declared.sessions.Look.{Look};
ghost use Rattle.aim_sessions.specs.Kept.{no_session};
ghost use Rattle.aim_sessions.specs.Looks.{look_of};
ghost use Rattle.aim_book.specs.Asking.{tests_at_once};
ghost use Rattle.aim_book.specs.Desk.{Tells};
ghost use Rattle.aim_reservations.specs.Keeping.{row_count};
ghost use Rattle.aim_book.specs.Managed.{IsManaged};
ghost use Rattle.aim_reservations.specs.Rows.{row_of};
ghost use Rattle.aim_book.specs.Reserved.{rows_exchanged};

use crate::desks::Desk;
use aim_layout::Layout;
use aim_messages::{Body, Message, Params, Reason, Reply};
use aim_requests::{NeedsCells, Shapes, may_reach, params_in};
use aim_reservations::given_up;
use aim_sheets::Pool;
use aim_tiles::Steps;
use std::sync::ledger::Ledger;

// The lane and the arrival of an emergency that asks, where no field of its params is bad.
fn call_at_once(
    layout: &Layout,
    shapes: &Shapes,
    body: &Body,
) -> Result<Option<(u8, u32)>, NeedsCells>
    requires valid { IsValid layout.now }
    requires known { ArePreparedFor layout.now shapes.now }
    ensures call { IfOk result (λ call. call ≡ call_of layout.now (params_of body.now)) }
    ensures range { IfOk result (λ call. IfSome call (λ c. (c.0 < 16) × (c.1 ≤ LATEST_MOMENT))) }
{
    match params_in(body) {
        Some(params) if params.emergency => match shapes.bad_field(layout, &params)? {
            Some(_) => Ok(None),
            None => Ok(Some((params.lane, params.arrive))),
        },
        _ => Ok(None),
    }
}

impl<L: Ledger> Desk<L> {
    // Why a vehicle that may ask, and whose params are good, is refused, if its arrival or its distance says so.
    fn timely_at_once(&self, layout: &Layout, params: &Params) -> Result<Reason, NeedsCells>
        requires good { bad layout.now params.now ≡ None }
        ensures { IfOk result (λ why. (k : Known) (vehicle place : ℕ) → Tells layout.now vehicle place k self.now → find_map (λ test. test layout.now k params.now) (drop 2 tests_at_once) ≡ Some why) }
    {
        let times = layout.ground().times();
        let now = self.reservations.now();
        if params.arrive <= now + times.edge {
            return Ok(Reason::Late(now));
        }
        if may_reach(layout, params, now + times.horizon) {
            return Err(NeedsCells);
        }
        match self.too_distant(layout, params) {
            Some(reason) => Ok(reason),
            None => Err(NeedsCells),
        }
    }

    // Why a vehicle is refused, if its standing next, a bad field, its arrival or its distance says so.
    fn early_at_once(
        &self,
        layout: &Layout,
        shapes: &Shapes,
        vehicle: u32,
        params: &Params,
    ) -> Result<Reason, NeedsCells>
        requires known { ArePreparedFor layout.now shapes.now }
        requires caller { vehicle < length self.now.sessions }
        ensures { IfOk result (λ why. (k : Known) (place : ℕ) → Tells layout.now vehicle place k self.now → find_map (λ test. test layout.now k params.now) tests_at_once ≡ Some why) }
    {
        let now = self.reservations.now();
        let next = self.sessions.standing(vehicle);
        if now < next {
            return Ok(Reason::TooSoon(next));
        }
        match shapes.bad_field(layout, params)? {
            Some(field) => Ok(Reason::Bad(field)),
            None => self.timely_at_once(layout, params),
        }
    }

    // Why a request or a change is refused, if what the vehicle holds says so, or one of those tests.
    fn reason_at_once(
        &self,
        layout: &Layout,
        shapes: &Shapes,
        vehicle: u32,
        body: &Body,
        params: &Params,
    ) -> Result<Reason, NeedsCells>
        requires known { ArePreparedFor layout.now shapes.now }
        requires caller { vehicle < length self.now.sessions }
        requires row { vehicle < length self.now.reservations.rows.items }
        ensures { IfOk result (λ why. (k : Known) (place : ℕ) → Tells layout.now vehicle place k self.now →
            option_or (own_refusal layout.now k body.now) (first_reason layout.now k params.now) ≡ Some why) }
    {
        match self.own_refusal(vehicle, body) {
            Some(reason) => Ok(reason),
            None => self.early_at_once(layout, shapes, vehicle, params),
        }
    }

    // The refusal of a request or a change, where no Stop stands.
    fn refuse_at_once(
        &self,
        layout: &Layout,
        shapes: &Shapes,
        vehicle: u32,
        body: &Body,
        params: &Params,
    ) -> Result<Reply, NeedsCells>
        requires known { ArePreparedFor layout.now shapes.now }
        requires caller { vehicle < length self.now.sessions }
        requires row { vehicle < length self.now.reservations.rows.items }
        requires asks { params_of body.now ≡ Some params.now }
        requires going { self.now.stopped ≡ false }
        ensures reply { IfOk result (λ reply. (k : Known) (place : ℕ) → Tells layout.now vehicle place k self.now → reply ≡ answer_fresh layout.now k body.now) }
        ensures refused { IfOk result (λ reply. (k : Known) (place : ℕ) → Tells layout.now vehicle place k self.now → is_confirm reply ≡ false) }
    {
        let reason = self.reason_at_once(layout, shapes, vehicle, body, params)?;
        Ok(self.refuse(layout, vehicle, params.arrive, reason))
    }

    // The answer to a fresh message, which is no Confirm.
    fn answer_at_once(
        &self,
        layout: &Layout,
        shapes: &Shapes,
        vehicle: u32,
        body: &Body,
    ) -> Result<Reply, NeedsCells>
        requires known { ArePreparedFor layout.now shapes.now }
        requires caller { vehicle < length self.now.sessions }
        requires row { vehicle < length self.now.reservations.rows.items }
        ensures reply { IfOk result (λ reply. (k : Known) (place : ℕ) → Tells layout.now vehicle place k self.now → reply ≡ answer_fresh layout.now k body.now) }
        ensures refused { IfOk result (λ reply. (k : Known) (place : ℕ) → Tells layout.now vehicle place k self.now → is_confirm reply ≡ false) }
    {
        match body {
            Body::Cancel(id) | Body::Done(id) => Ok(Reply::Ack { id: *id }),
            Body::Request(_) | Body::Change(_, _) if self.stopped => Ok(Reply::EmergencyStop),
            Body::Request(params) | Body::Change(_, params) => {
                self.refuse_at_once(layout, shapes, vehicle, body, params)
            }
        }
    }

    /// Answers a fresh message, and keeps what it and its answer change. Where the answer isn't known without the cells of
    /// the crossing nothing changes.
    pub(crate) fn serve_at_once(
        &mut self,
        layout: &Layout,
        shapes: &Shapes,
        vehicle: u32,
        message: &Message,
        back: &mut Pool,
        steps: &mut Steps<L>,
    ) -> Result<Reply, NeedsCells>
        requires known { ArePreparedFor layout.now shapes.now }
        requires vehicle { vehicle < length self.old.sessions }
        requires managed { (h : List Entry) × (moment : ℕ) × IsManaged layout.now (length self.old.sessions) h (now_of h moment) self.old }
        requires fresh { look_of (slice_index_or self.old.sessions vehicle no_session).last message.now ≡ Look.Fresh }
        requires count { back.old.count ≤ 1000000 }
        requires room { back.old.room ≡ layout.now.grid.spans }
        ensures reply { IfOk result (λ reply. (h : List Entry) (moment : ℕ) → IsManaged layout.now (length self.old.sessions) h (now_of h moment) self.old → reply ≡ answer layout.now h vehicle moment (Act.Message message.now)) }
        ensures managed { IfOk result (λ reply. (h : List Entry) (moment : ℕ) → IsManaged layout.now (length self.old.sessions) h (now_of h moment) self.old → moment ≤ LATEST_MOMENT →
            IsManaged layout.now (length self.old.sessions) (h ++ (record { caller = vehicle; moment = moment; act = Act.Message message.now; reply = reply }) ∷ []) (now_of h moment) self.new) }
        ensures sheets { back.new.count + row_count (row_of self.new.reservations.rows.items vehicle) ≡ back.old.count + row_count (row_of self.old.reservations.rows.items vehicle) }
        ensures timeline { self.new.timeline ≡ self.old.timeline }
        ensures pool { back.new.room ≡ back.old.room }
        ensures cost { steps.new ≤ steps.old + rows_exchanged (row_of self.old.reservations.rows.items vehicle) (row_of self.new.reservations.rows.items vehicle) }
        ensures err { OnErr result (self.new ≡ self.old) }
        ensures err_pool { OnErr result (back.new ≡ back.old) }
        ensures err_steps { OnErr result (steps.new ≡ steps.old) }
    {
        let call = call_at_once(layout, shapes, &message.body)?;
        let reply = self.answer_at_once(layout, shapes, vehicle, &message.body)?;
        self.approaches.note(vehicle, call);
        self.sessions.keep(vehicle, *message, reply);
        self.keep_distance(&message.body, &reply);
        let id = given_up(&message.body);
        self.reservations.give_up(vehicle, id, back, steps);
        Ok(reply)
    }
}
