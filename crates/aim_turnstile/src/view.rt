//! What a seat knows.
use std::collections::LinkedList;

/// What a seat at the table knows. It stands in contracts alone, and no value of it is made.
pub struct View<S, E> {
    /// The setting of the kept value. A seat that was joined away has none.
    pub setting: Option<S>,
    /// The numbers that the turnstile was opened with.
    pub numbers: LinkedList<u32>,
    /// The caller's number. The seat of a front has none.
    pub number: Option<u32>,
    /// The ticket that it waits or works with.
    pub ticket: Option<u64>,
    /// Whether it has the turn.
    pub turn: bool,
    /// The history that it has seen.
    pub seen: LinkedList<E>,
    /// The entries of its number.
    pub mine: LinkedList<E>,
    /// The histories that joins brought together, until a look empties them.
    pub olds: LinkedList<LinkedList<E>>,
    /// The numbers that it took over from seats that were joined away, each with its entries.
    pub ended: LinkedList<(u32, LinkedList<E>)>,
    /// The numbers that opening has not yet given to a seat.
    pub to_give: LinkedList<u32>,
}
