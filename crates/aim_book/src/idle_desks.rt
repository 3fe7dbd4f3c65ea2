//! A desk that belongs to no ledger.

ghost use Rattle.std.specs.Prelude.{◌≡◌};
ghost use Rattle.aim_book.specs.Idle.{joined};

use crate::desks::Desk;
use aim_policies::Timeline;
use aim_reservations::IdleReservations;
use aim_sessions::{Approaches, Distances, Sessions};
use aim_tiles::Steps;
use std::sync::ledger::Ledger;

/// What a manager keeps of its history, where the table of its reservations belongs to no ledger.
#[derive(Drop)]
pub struct IdleDesk {
    /// Each vehicle's last message with its answer, and when it may ask again.
    pub sessions: Sessions,
    /// What each vehicle has reserved, and the table of these cells.
    pub reservations: IdleReservations,
    /// The policies in the course of time.
    pub timeline: Timeline,
    /// From how far away vehicles of each lane may ask.
    pub distances: Distances,
    /// Each vehicle's last call of an emergency.
    pub approaches: Approaches,
    /// Whether some policy of the layout has lights.
    pub has_lights: bool,
    /// Whether a Stop stands in the history.
    pub stopped: bool,
}

impl IdleDesk {
    /// The desk in a ledger.
    pub fn join<L: Ledger>(self) -> Desk<L>
        ensures { result ≡ joined self }
    {
        let IdleDesk {
            sessions,
            reservations,
            timeline,
            distances,
            approaches,
            has_lights,
            stopped,
        } = self;
        Desk {
            sessions,
            reservations: reservations.join(),
            timeline,
            distances,
            approaches,
            has_lights,
            stopped,
        }
    }
}

impl<L: Ledger> Desk<L> {
    /// The desk without its ledger, whose count it takes.
    pub fn leave(self, steps: Steps<L>) -> IdleDesk
        ensures { self ≡ joined result }
    {
        let Desk {
            sessions,
            reservations,
            timeline,
            distances,
            approaches,
            has_lights,
            stopped,
        } = self;
        IdleDesk {
            sessions,
            reservations: reservations.leave(steps),
            timeline,
            distances,
            approaches,
            has_lights,
            stopped,
        }
    }
}
