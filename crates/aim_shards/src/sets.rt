//! Sets of cells, each cut along the borders of the four quadrants.

ghost use Rattle.std.specs.Prelude.{◌≡◌, ◌<◌, ◌+◌, [], ◌∷◌, ◌||◌, not, length, IfOk};
ghost use Rattle.aim_shards.specs.Sets.{Quarters, has_cells, lies_in, part, is_some, touches_of, chosen, SameParts, IsOf};

use aim_sheets::{Pool, Sheet};
use std::alloc::{AllocError, Global};
use std::marker::Model;

/// The sheets of a set in the four quadrants.
#[derive(Drop)]
pub struct Quartered {
    first: Sheet,
    second: Sheet,
    third: Sheet,
    fourth: Sheet,
    // Whether a claim of the set touches each quadrant. It stands here, so a call looks at no sheet of the others.
    touched: [bool; 4],
}

impl Model for Quartered {
    ghost use Rattle.std.specs.Prelude.{◌≡◌, [], ◌∷◌};
    ghost use Rattle.aim_shards.specs.Sets.{Quarters, touches_of};

    ghost Value = { Quarters };

    ghost view = { λ s. s.first.spans ∷ s.second.spans ∷ s.third.spans ∷ s.fourth.spans ∷ [] };

    ghost invariant = { λ s. s.touched ≡ touches_of (s.first.spans ∷ s.second.spans ∷ s.third.spans ∷ s.fourth.spans ∷ []) };
}

// Whether the sheet has a cell.
fn is_some(sheet: &Sheet) -> bool
    ensures { result ≡ is_some sheet.now.spans }
{
    !sheet.spans().is_empty()
}

// Whether a claim of a set touches the first quadrant, by whether the set has a cell in each: one without cells does.
fn touches_first(first: bool, second: bool, third: bool, fourth: bool) -> bool
    ensures { result ≡ (first || not (first || second || third || fourth)) }
{
    first || !(second || third || fourth)
}

// Whether a claim of a set touches each quadrant, by whether the set has a cell there.
fn touches_of(first: bool, second: bool, third: bool, fourth: bool) -> [bool; 4]
    ensures { (set : Quarters) → first ≡ has_cells set 0 → second ≡ has_cells set 1 → third ≡ has_cells set 2 → fourth ≡ has_cells set 3 → result ≡ touches_of set }
{
    let first = touches_first(first, second, third, fourth);
    [first, second, third, fourth]
}

impl Quartered {
    /// A set with these sheets in the four quadrants.
    pub(crate) fn new(first: Sheet, second: Sheet, third: Sheet, fourth: Sheet) -> Quartered
        ensures { result ≡ first.spans ∷ second.spans ∷ third.spans ∷ fourth.spans ∷ [] }
    {
        let touched = touches_of(
            is_some(&first),
            is_some(&second),
            is_some(&third),
            is_some(&fourth),
        );
        Quartered {
            first,
            second,
            third,
            fourth,
            touched,
        }
    }

    /// The sheet of a quadrant.
    pub fn part(&self, quadrant: usize) -> &Sheet
        requires { quadrant < 4 }
        ensures spans { result.now.spans ≡ part self.now quadrant }
        ensures four { length self.now ≡ 4 }
    {
        match quadrant {
            0 => &self.first,
            1 => &self.second,
            2 => &self.third,
            _ => &self.fourth,
        }
    }

    /// Whether a claim of the set touches the quadrant.
    pub fn touches(&self, quadrant: usize) -> bool
        requires { quadrant < 4 }
        ensures touches { result ≡ lies_in self.now quadrant }
        ensures four { length self.now ≡ 4 }
    {
        self.touched[quadrant]
    }
}

/// A set without cells.
pub(crate) fn no_cells(alloc: Global) -> Result<Quartered, AllocError>
    ensures { IfOk result (λ s. SameParts s []) }
{
    let mut pool = Pool::new(alloc, 4, 0)?;
    let first = empty_sheet(&mut pool);
    let second = empty_sheet(&mut pool);
    let third = empty_sheet(&mut pool);
    let fourth = empty_sheet(&mut pool);
    Ok(Quartered::new(first, second, third, fourth))
}

// A sheet of the pool.
fn empty_sheet(pool: &mut Pool) -> Sheet
    requires { 0 < pool.old.count }
    ensures sheet { result.spans ≡ [] }
    ensures count { pool.new.count + 1 ≡ pool.old.count }
{
    let Ok(sheet) = pool.take() else {
        unreachable!()
    };
    sheet
}

/// The set of this number, or else the one without cells.
pub(crate) fn choose<'a>(
    sets: &'a Vec<Quartered>,
    nothing: &'a Quartered,
    number: Option<u32>,
) -> &'a Quartered
    requires { SameParts nothing.now [] }
    ensures same { SameParts result.now (chosen sets.now.items number) }
    ensures of { IsOf sets.now.items result.now }
{
    if let Some(number) = number
        && (number as usize) < sets.len()
    {
        return &sets[number as usize];
    }
    nothing
}
