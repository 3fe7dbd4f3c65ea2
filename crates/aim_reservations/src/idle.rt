//! Reservations that belong to no ledger.

ghost use Rattle.std.specs.Prelude.{◌≡◌};

use crate::reservations::{Reservation, Reservations};
use aim_tiles::{IdleTable, Steps};
use std::sync::ledger::Ledger;

/// What each vehicle has reserved, where the table of the cells belongs to no ledger.
#[derive(Drop)]
pub struct IdleReservations {
    /// One row for each vehicle.
    pub rows: Vec<Option<Reservation>>,
    /// The cells of the rows.
    pub table: IdleTable,
}

impl IdleReservations {
    /// Joins a ledger, whose count is needed from now on.
    pub fn join<L: Ledger>(self) -> Reservations<L>
        ensures { result ≡ record { rows = self.rows; table = self.table } }
    {
        let IdleReservations { rows, table } = self;
        Reservations {
            rows,
            table: table.join(),
        }
    }
}

impl<L: Ledger> Reservations<L> {
    /// Leaves the ledger, and takes its one count with it.
    pub fn leave(self, steps: Steps<L>) -> IdleReservations
        ensures { result ≡ record { rows = self.rows; table = self.table } }
    {
        let Reservations { rows, table } = self;
        IdleReservations {
            rows,
            table: table.leave(steps),
        }
    }
}
