//! What is called while claims hold their turns.

use aim_shards::Hold;

/// A hold that does nothing.
pub struct NoHold;

impl Hold for NoHold {
    fn holding(&self, _caller: u32, _call: u32) {}
}
