//! A turn that callers take in the order of their tickets, with one history of what they did.
//!
//! A [`Turnstile`] holds one [`Kept`] value. Each caller has a [`Pass`] with a number of its own, and makes its calls on
//! the value by [`Turnstile::with_turn`], one caller at a time. Each call adds at most one entry to the history, and a
//! pass sees a beginning of that history that never shrinks.
#![tactic(auto)]

mod kept;
mod pass;
mod rule;
mod turnstile;
mod view;

pub use kept::Kept;
pub use pass::{Front, Pass};
pub use std::alloc::AllocError as NoMemory;
pub use turnstile::Turnstile;
pub use view::View;
