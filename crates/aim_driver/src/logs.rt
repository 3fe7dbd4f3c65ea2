//! What a driver's log is made of.

ghost use Rattle.std.specs.Prelude.{◌≡◌};
ghost use Rattle.aim_driver.specs.Logs.{item_step};

use aim_messages::{Message, Reply};

/// What a driver did or was told.
#[derive(Clone, Copy, PartialEq, Eq)]
pub enum LogItem {
    Sent { step: u32, message: Message },
    Got { step: u32, seq: u32, reply: Reply },
    Entered { step: u32, id: u32 },
}

impl LogItem {
    pub fn step(&self) -> u32
        ensures { result ≡ item_step self.now }
    {
        match *self {
            LogItem::Sent { step, .. } => step,
            LogItem::Got { step, .. } => step,
            LogItem::Entered { step, .. } => step,
        }
    }
}

/// What a Confirm grants.
#[derive(Clone, Copy)]
pub struct Window {
    /// The step of arrival.
    pub start: u32,
    /// By so many steps it may enter before `start`.
    pub early: u32,
    /// By so many steps it may enter after `start`.
    pub late: u32,
    /// The last step of a crossing that begins at `start`.
    pub last: u32,
}

/// Where a crossing began.
#[derive(Clone, Copy)]
pub struct Entrance {
    pub step: u32,
    pub id: u32,
}
