//! Sheets of spans from a pool.
//!
//! A span is some tiles of one row in one step. A sheet is a list of spans in order, with room for a
//! fixed number of them. A pool holds sheets that are not in use: it makes the room of all of them at
//! once, and neither taking a sheet nor giving it back takes memory.
#![tactic(auto)]

mod pools;
mod sheets;
mod spans;

pub use pools::{NoSheet, Pool};
pub use sheets::{Sheet, SheetFull};
pub use spans::Span;
pub use std::alloc::AllocError as NoMemory;
