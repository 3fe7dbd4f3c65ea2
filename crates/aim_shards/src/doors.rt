//! The doors of the quadrants, at which a call waits until nobody else is inside.

use crate::sets::Quartered;
use std::sync::{Mutex, MutexGuard, Wait};

/// A door for each quadrant. They say nothing in contracts: the turns do. But who is inside of a quadrant's door finds the
/// turn free, and those outside sleep, so no caller looks in vain.
#[derive(Drop)]
pub(crate) struct Doors {
    first: Mutex<()>,
    second: Mutex<()>,
    third: Mutex<()>,
    fourth: Mutex<()>,
}

/// The doors that a call went through. They open again when it is dropped.
#[derive(Drop)]
pub(crate) struct Inside<'a> {
    first: Option<MutexGuard<'a, ()>>,
    second: Option<MutexGuard<'a, ()>>,
    third: Option<MutexGuard<'a, ()>>,
    fourth: Option<MutexGuard<'a, ()>>,
}

// Goes through the door, where the call has to.
fn pass<'a, R: Wait>(rt: &R, door: &'a Mutex<()>, touches: bool) -> Option<MutexGuard<'a, ()>> {
    if touches { Some(door.lock(rt)) } else { None }
}

impl Doors {
    /// Doors that nobody went through.
    pub(crate) fn new() -> Doors {
        Doors {
            first: Mutex::new(()),
            second: Mutex::new(()),
            third: Mutex::new(()),
            fourth: Mutex::new(()),
        }
    }

    /// Goes through the doors of the quadrants that the set touches, in rising order.
    pub(crate) fn enter<R: Wait>(&self, rt: &R, set: &Quartered) -> Inside<'_> {
        let first = pass(rt, &self.first, set.touches(0));
        let second = pass(rt, &self.second, set.touches(1));
        let third = pass(rt, &self.third, set.touches(2));
        let fourth = pass(rt, &self.fourth, set.touches(3));
        Inside {
            first,
            second,
            third,
            fourth,
        }
    }
}
