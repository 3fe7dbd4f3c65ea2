//! What a manager keeps of its history.

ghost use Rattle.std.specs.Prelude.{◌≡◌, ◌≤◌, [], IfOk};
ghost use Rattle.aim_messages.specs.declared.entries.TheConstants.{MOST_ENTRIES, MOST_VEHICLES};
ghost use Rattle.aim_book.specs.Managed.{IsManaged};

use aim_layout::Layout;
use aim_policies::Timeline;
use aim_reservations::{Reservations, has_lights};
use aim_sessions::{Approaches, Distances, Sessions};
use std::alloc::{AllocError, Global};
use std::sync::ledger::Ledger;

/// The sessions and reservations of all vehicles, the policies in the course of time, the distances of the lanes, and the
/// emergencies that approach.
#[derive(Drop)]
pub struct Desk<L: Ledger> {
    /// Each vehicle's last message with its answer, and when it may ask again.
    pub sessions: Sessions,
    /// What each vehicle has reserved, and the table of these cells.
    pub reservations: Reservations<L>,
    /// The policies in the course of time.
    pub timeline: Timeline,
    /// From how far away vehicles of each lane may ask.
    pub distances: Distances,
    /// Each vehicle's last call of an emergency.
    pub approaches: Approaches,
    /// Whether some policy of the layout has lights.
    pub has_lights: bool,
    /// Whether a Stop stands in the history.
    pub stopped: bool,
}

impl<L: Ledger> Desk<L> {
    /// What is kept of the empty history of so many vehicles, with room for so many changes of policies. It takes all its
    /// memory here.
    pub fn new(
        alloc: Global,
        layout: &Layout,
        vehicles: u32,
        room: u32,
    ) -> Result<Desk<L>, AllocError>
        requires vehicles { vehicles ≤ MOST_VEHICLES }
        requires room { room ≤ MOST_ENTRIES }
        ensures managed { IfOk result (λ desk. IsManaged layout.now vehicles [] 0 desk) }
        ensures timeline { IfOk result (λ desk. desk.timeline.room ≡ room) }
    {
        let n = layout.ground().grid().n;
        let horizon = layout.ground().times().horizon;
        Ok(Desk {
            sessions: Sessions::new(alloc, vehicles)?,
            timeline: Timeline::new(alloc, room)?,
            reservations: Reservations::new(alloc, n, horizon, vehicles)?,
            distances: Distances::new(),
            approaches: Approaches::new(alloc, vehicles)?,
            has_lights: has_lights(layout),
            stopped: false,
        })
    }
}
