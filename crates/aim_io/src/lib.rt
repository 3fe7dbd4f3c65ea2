//! The outside as the program sees it: where bytes come from, where they go, and lines.
//!
//! A source and a sink say in their contracts which bytes they have, where they tell them, and how
//! often they have failed. A line reader cuts what a source gives into lines of at most 400 bytes.
#![tactic(auto)]

mod lines;
mod memory;
mod put;
mod sink;
mod source;
mod standard;

pub use lines::{LineFault, LineReader};
pub use memory::{CleanSource, MemSink, MemSource, NoMemory};
pub use put::put_all;
pub use sink::Sink;
pub use source::{Failed, Source};
pub use standard::{StdSink, StdSource};
