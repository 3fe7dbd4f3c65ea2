//! Tiles in steps.

/// A tile in a step.
#[derive(Clone, Copy)]
pub struct Cell {
    pub row: u8,
    pub col: u8,
    pub step: u32,
}
