//! A window on a list of rectangles, whose ends both move up the list.

ghost use Rattle.std.specs.Prelude.{◌≡◌, ℕ, ◌<◌, ◌≤◌, ◌+◌, length, true};
ghost use Rattle.aim_footprint.specs.Windows.{AreRects, AreSteady, IsWindow, Shows};

use crate::slides::{leave, renew};
use aim_geometry::{TileRect, join};

/// The rectangles from `low` up to, not including, `next`, and the tiles in them: bit c of word r is tile (r, c).
#[derive(Drop)]
pub struct TileWindow {
    pub rows: [u64; 64],
    pub low: usize,
    pub next: usize,
}

// The tiles of the rectangles from one up to, not including, another.
fn rows_of(rects: &[TileRect], low: usize, next: usize) -> [u64; 64]
    requires rects { AreRects rects.now }
    requires order { low ≤ next }
    requires within { next ≤ length rects.now }
    ensures { Shows result rects.now low next }
{
    let mut rows = [0; 64];
    for j in low..next {
        join(&mut rows, rects[j]);
    }
    rows
}

impl TileWindow {
    /// The window on the first rectangle.
    pub fn first(rects: &[TileRect]) -> TileWindow
        requires rects { AreRects rects.now }
        requires some { 0 < length rects.now }
        ensures low { result.low ≡ 0 }
        ensures next { result.next ≡ 1 }
        ensures window { IsWindow rects.now result }
    {
        TileWindow {
            rows: rows_of(rects, 0, 1),
            low: 0,
            next: 1,
        }
    }

    // Takes in the next rectangle.
    #[inline]
    fn widen(&mut self, rects: &[TileRect])
        requires rects { AreRects rects.now }
        requires window { IsWindow rects.now self.old }
        requires more { self.old.next < length rects.now }
        ensures low { self.new.low ≡ self.old.low }
        ensures next { self.new.next ≡ self.old.next + 1 }
        ensures window { IsWindow rects.now self.new }
    {
        renew(&mut self.rows, rects[self.next], rects[self.next - 1]);
        self.next += 1;
    }

    // Lets go of the first rectangle.
    #[inline]
    fn narrow(&mut self, rects: &[TileRect])
        requires rects { AreRects rects.now }
        requires steady { AreSteady rects.now }
        requires window { IsWindow rects.now self.old }
        requires more { self.old.low + 1 < self.old.next }
        ensures low { self.new.low ≡ self.old.low + 1 }
        ensures next { self.new.next ≡ self.old.next }
        ensures window { IsWindow rects.now self.new }
    {
        leave(&mut self.rows, rects[self.low], rects[self.low + 1]);
        self.low += 1;
    }

    // Takes in rectangles up to that one.
    #[inline]
    fn widen_to(&mut self, rects: &[TileRect], high: usize)
        requires rects { AreRects rects.now }
        requires window { IsWindow rects.now self.old }
        requires up { self.old.next ≤ high + 1 }
        requires high { high < length rects.now }
        ensures low { self.new.low ≡ self.old.low }
        ensures next { self.new.next ≡ high + 1 }
        ensures window { IsWindow rects.now self.new }
    {
        'up: while self.next <= high {
            self.widen(rects);
        }
    }

    // Lets go of the rectangles before that one.
    #[inline]
    fn narrow_to(&mut self, rects: &[TileRect], low: usize)
        requires rects { AreRects rects.now }
        requires steady { AreSteady rects.now }
        requires window { IsWindow rects.now self.old }
        requires on { self.old.low ≤ low }
        requires order { low < self.old.next }
        ensures low { self.new.low ≡ low }
        ensures next { self.new.next ≡ self.old.next }
        ensures window { IsWindow rects.now self.new }
    {
        'down: while self.low < low {
            self.narrow(rects);
        }
    }

    // Lets go of the rectangles before that one, also where the rectangles aren't steady: the tiles of those that stay
    // are joined anew.
    fn rejoin_from(&mut self, rects: &[TileRect], low: usize)
        requires rects { AreRects rects.now }
        requires window { IsWindow rects.now self.old }
        requires order { low < self.old.next }
        ensures low { self.new.low ≡ low }
        ensures next { self.new.next ≡ self.old.next }
        ensures window { IsWindow rects.now self.new }
    {
        self.rows = rows_of(rects, low, self.next);
        self.low = low;
    }

    /// Moves on until the rectangles are those from `low` to `high`. Where they are steady, each rectangle on the way is
    /// touched once.
    #[inline]
    pub fn move_to(&mut self, rects: &[TileRect], is_steady: bool, low: usize, high: usize)
        requires rects { AreRects rects.now }
        requires steady { is_steady ≡ true → AreSteady rects.now }
        requires window { IsWindow rects.now self.old }
        requires on { self.old.low ≤ low }
        requires up { self.old.next ≤ high + 1 }
        requires order { low ≤ high }
        requires high { high < length rects.now }
        ensures low { self.new.low ≡ low }
        ensures next { self.new.next ≡ high + 1 }
        ensures window { IsWindow rects.now self.new }
    {
        self.widen_to(rects, high);
        if is_steady {
            self.narrow_to(rects, low);
        } else {
            self.rejoin_from(rects, low);
        }
    }
}
