//! What is printed of a drive: its journal, the logs of its drivers, and the tiles on which each driver was.
#![tactic(auto)]

mod entries;
mod items;
pub mod laws;
mod stays;
mod values;

pub use entries::{put_end, put_entries};
pub use items::put_log;
pub use stays::{Stay, put_tiles};
pub use std::alloc::AllocError as NoMemory;
pub use values::{entries_fit, items_fit};
