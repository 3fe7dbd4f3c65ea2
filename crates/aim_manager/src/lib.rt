//! The manager that threads share: the book under a turn.
//!
//! Callers on any threads serve through `&self`, each with a pass of its own. All calls make one legal history, of which
//! each pass has seen a beginning.
#![tactic(auto)]

mod keeper;
mod manager;

pub use aim_book::laws::sheets_are_those_of_own_entries;
pub use aim_book::{Full, OpenFault};
pub use aim_requests::{Memo, Prepared, prepare_from};
pub use keeper::{Ask, BookSetting, Keeper, Told};
pub use manager::{Closed, Manager, ManagerFront, ManagerPass, Opened};
