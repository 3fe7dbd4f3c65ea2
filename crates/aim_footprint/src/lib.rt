//! The crossing of a vehicle, step by step: which tiles are under it in each step.
//!
//! The tiles round each station of a path are a rectangle of the grid. A vehicle covers neighbouring stations in a step,
//! and both ends only move on. So the tiles under it are a window on the list of rectangles that moves up the list, kept
//! as 64 words of bits: a rectangle that comes in sets bits, and one that goes clears those that the next one lacks.
#![tactic(auto)]

pub mod fields;
pub mod fills;
pub mod laws;
pub mod reaches;
mod slides;
pub mod visits;
pub mod windows;

pub use fields::{
    bad_crossing, has_bad_window, has_windows, is_fast_made, is_judged_fast, steady_steps,
};
pub use fills::{are_steady, fill_rects};
pub use reaches::{Reach, fill_reaches};
pub use visits::{RowRange, Visit, simulate};
pub use windows::TileWindow;
