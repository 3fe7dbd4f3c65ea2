//! The one-thread manager: it answers messages and orders, and keeps a journal of them. Its desk is what it keeps of its
//! history, and what it answers by that.
#![tactic(auto)]

mod answers;
mod at_once;
mod book;
mod charts;
mod conflicts;
mod desks;
mod idle;
mod idle_desks;
mod keeping;
pub mod laws;
mod refusals;
mod serving;
mod starts;
mod windows;

pub use aim_requests::{Prepared, Shapes};
pub use book::{Book, Full, OpenFault};
pub use desks::Desk;
pub use idle::IdleBook;
pub use idle_desks::IdleDesk;
