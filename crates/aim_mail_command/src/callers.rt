//! A caller: the client of a vehicle, which makes the calls of the vehicle's events.

ghost use Rattle.std.specs.Prelude.{◌≡◌, ◌≤◌, ◌<◌, ◌+◌, length, take, slice_index_or, All};
ghost use Rattle.aim_messages.specs.declared.entries.TheConstants.{LATEST_MOMENT};
ghost use Rattle.aim_mail_script.specs.declared.scripts.Event.{Event};
ghost use Rattle.aim_mail_command.specs.Runs.{calls_by};
ghost use Rattle.aim_mail_command.specs.Calling.{AllByPlace, Called, Finished, HasSheets, Stepped, Went, Works};

use aim_layout::Layout;
use aim_mail::Client;
use aim_mail_script::Event;
use aim_requests::prepare_from;
use aim_sheets::Pool;
use std::sync::Wait;

/// How many sheets a caller has: two for a call, and one that the book may keep.
pub(crate) const SHEETS: u32 = 3;

/// The client of a vehicle, with its sheets, and how far it has come: the vehicle's events before that place in the list
/// of all events are called.
#[derive(Drop)]
pub(crate) struct Caller {
    pub(crate) vehicle: u32,
    pub(crate) client: Client,
    pub(crate) sheets: Pool,
    pub(crate) place: usize,
}

// The place of the vehicle's first event from that place on, or the number of all events where there is none.
fn next_place(events: &[Event], vehicle: u32, from: usize) -> usize
    requires from { from ≤ length events.now }
    ensures later { from ≤ result }
    ensures within { result ≤ length events.now }
    ensures passed { calls_by vehicle (take result events.now) ≡ calls_by vehicle (take from events.now) }
    ensures own { (d : Event) → result < length events.now → (slice_index_or events.now result d).vehicle ≡ vehicle }
{
    for place in from..events.len() {
        if events[place].vehicle == vehicle {
            return place;
        }
    }
    events.len()
}

// Makes the call of an event.
fn call<R: Wait>(rt: &R, layout: &Layout, client: &mut Client, sheets: &mut Pool, event: &Event)
    requires moment { event.now.moment ≤ LATEST_MOMENT }
    requires sheets { HasSheets layout.now client.old sheets.old }
    ensures sheets { HasSheets layout.now client.new sheets.new }
    ensures called { Called event.now client.old client.new }
{
    let prepared = prepare_from(layout, &event.message, sheets);
    let _answer = client.call(rt, event.moment, prepared, sheets);
}

// Makes the call of the vehicle's next event, if there is one.
fn step<R: Wait>(rt: &R, layout: &Layout, events: &[Event], caller: &mut Caller)
    requires moments { All (λ e. e.moment ≤ LATEST_MOMENT) events.now }
    requires works { Works layout.now events.now caller.old }
    ensures { Stepped layout.now events.now caller.old caller.new }
{
    caller.place = next_place(events, caller.vehicle, caller.place);
    if caller.place < events.len() {
        call(
            rt,
            layout,
            &mut caller.client,
            &mut caller.sheets,
            &events[caller.place],
        );
        caller.place += 1;
    }
}

// Lets each caller in its turn make one call, if it has one left, and answers whether one of them may have any left then.
fn one_round<R: Wait>(rt: &R, layout: &Layout, events: &[Event], callers: &mut [Caller]) -> bool
    requires moments { All (λ e. e.moment ≤ LATEST_MOMENT) events.now }
    requires works { All (Works layout.now events.now) callers.old }
    ensures { AllByPlace (Went layout.now events.now result) callers.old callers.new }
{
    let mut left = false;
    for caller in callers.iter_mut() {
        step(rt, layout, events, caller);
        left |= caller.place < events.len();
    }
    left
}

/// Lets the callers make all their calls, in rounds in which each in its turn makes one.
pub(crate) fn make_all<R: Wait>(rt: &R, layout: &Layout, events: &[Event], callers: &mut [Caller])
    requires moments { All (λ e. e.moment ≤ LATEST_MOMENT) events.now }
    requires works { All (Works layout.now events.now) callers.old }
    ensures { AllByPlace (Finished layout.now events.now) callers.old callers.new }
{
    for round in 0..events.len() {
        if !one_round(rt, layout, events, callers) {
            return;
        }
    }
}
