//! What a vehicle says to the manager.

/// The way that a vehicle takes from its lane.
#[derive(Clone, Copy, PartialEq, Eq)]
pub enum Turn {
    Left,
    Straight,
    Right,
}

/// What a vehicle says of itself and of the crossing that it asks for.
#[derive(Clone, Copy, PartialEq, Eq)]
pub struct Params {
    /// The lane's number, from 0.
    pub lane: u8,
    pub turn: Turn,
    /// The step in which the front is at the stop line.
    pub arrive: u32,
    /// The last step in which the front may be at the stop line instead: `arrive` where no later one will do.
    pub latest: u32,
    /// The speed at the stop line, in millimetres a step.
    pub speed: u32,
    /// The greatest speed, in millimetres a step.
    pub max_speed: u32,
    /// The gain of speed, in millimetres a step, per step.
    pub accel: u32,
    /// The vehicle's length in millimetres.
    pub length: u32,
    /// The vehicle's width in millimetres.
    pub width: u32,
    /// An emergency vehicle, as an ambulance.
    pub emergency: bool,
}

/// What a message asks or tells.
#[derive(Clone, Copy, PartialEq, Eq)]
pub enum Body {
    /// REQUEST: reserve this crossing.
    Request(Params),
    /// CHANGE-REQUEST: reserve this crossing in the place of the reservation of that id.
    Change(u32, Params),
    /// CANCEL: give the reservation of that id up.
    Cancel(u32),
    /// DONE: the crossing of the reservation of that id is over.
    Done(u32),
}

/// A message of a vehicle. Its sequence number tells a new message from a repeat.
#[derive(Clone, Copy, PartialEq, Eq)]
pub struct Message {
    pub seq: u32,
    pub body: Body,
}
