//! What the operator is to do.

use aim_messages::Order;

/// An order of the operator, and the step at which it is given.
#[derive(Clone, Copy)]
pub struct Ordered {
    pub moment: u32,
    pub order: Order,
}
