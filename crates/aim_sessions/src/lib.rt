//! What is kept of the vehicles' messages. Of each vehicle its session: the last message with its answer, what a further
//! message's number says, and when to ask again. And its last call of an emergency, with the lanes in which one approaches.
//! Of each lane from how far away its vehicles may ask.
#![tactic(auto)]

pub mod approaches;
pub mod distances;
pub mod laws;
pub mod sessions;

pub use approaches::Approaches;
pub use distances::{Distances, asked_from, next_allowed};
pub use sessions::{Exchange, Look, Session, Sessions};
pub use std::alloc::AllocError as NoMemory;
