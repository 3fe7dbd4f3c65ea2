//! What callers ask for, and what they were answered.

/// A claim of a set, by its number, or the freeing of what a ticket claimed.
#[derive(Clone, Copy)]
pub enum ClaimAct {
    Claim(u32),
    Free(u32),
}

/// One call and its answer.
#[derive(Clone, Copy)]
pub struct ClaimEntry {
    pub ticket: u32,
    pub caller: u32,
    pub act: ClaimAct,
    pub yes: bool,
}
