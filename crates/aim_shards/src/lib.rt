//! Claims of tiles in four quadrants, each with a turn and a history of its own, and one ticket for all.
#![tactic(auto)]

mod calls;
mod claims;
mod closing;
mod cuts;
mod doors;
mod merging;
mod opening;
mod pass;
mod quarter;
mod rectangles;
mod rule;
mod sets;
mod standing;
mod turns;
mod view;

pub use calls::{Claimed, Hold, NoCallLeft, Shards};
pub use claims::{ClaimAct, ClaimEntry};
pub use closing::ClosedShards;
pub use merging::{history, merge};
pub use opening::{OpenedShards, ShardFault};
pub use pass::ShardPass;
pub use rectangles::{Rectangle, are_fitting, sheets};
