//! What a seat knows.

use crate::claims::ClaimEntry;
use aim_sheets::Span;
use std::collections::LinkedList;

/// A quadrant's turn: the ticket that it came with, and the quadrant's entries.
pub struct QuadrantTurn {
    pub quadrant: u64,
    pub ticket: u64,
    pub seen: LinkedList<ClaimEntry>,
}

/// What was fixed at the opening.
pub struct Terms {
    /// The most entries that all callers may make.
    pub room: u64,
    /// The sets, each with its spans in the four quadrants.
    pub sets: LinkedList<LinkedList<LinkedList<Span>>>,
}

/// What a seat at the table knows. It stands in contracts alone, and no value of it is made.
pub struct ShardView {
    /// What was fixed at the opening.
    pub terms: Terms,
    /// The caller's number. The seat of the opening and of the closing has none.
    pub number: Option<u32>,
    /// The quadrant and the ticket that it waits with: none or one.
    pub waiting: LinkedList<(u64, u64)>,
    /// The turns that it has, the last one first.
    pub held: LinkedList<QuadrantTurn>,
    /// The caller's entries.
    pub mine: LinkedList<ClaimEntry>,
    /// The numbers that it has to give or took over, each with its entries.
    pub others: LinkedList<(u32, LinkedList<ClaimEntry>)>,
}
