//! The reservations of vehicles, the table of their cells, and the cells that can't be had.
#![tactic(auto)]

mod blocking;
mod greens;
mod idle;
mod keeping;
mod reservations;
mod sheets;

pub use blocking::has_lights;
pub use greens::green_lane;
pub use idle::IdleReservations;
pub use keeping::given_up;
pub use reservations::{Reservation, Reservations};
pub use sheets::{first_step, reaches};
