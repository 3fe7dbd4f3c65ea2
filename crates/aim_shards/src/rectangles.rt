//! Sets of all tiles of a rectangle in some steps.

ghost use Rattle.std.specs.Prelude.{◌≡◌, ◌≢◌, ◌+◌, ◌-◌, ◌*◌, ◌<◌, ◌≤◌, ◌==◌, ◌&&◌, ◌||◌, ◌↔◌, IsTrue, true, ℕ, length, All, IfOk};
ghost use Rattle.aim_geometry.specs.Cells.{Cell};
ghost use Rattle.aim_geometry.specs.Rects.{has_bit};
ghost use Rattle.aim_sheets.specs.Spans.{in_spans, precedes};
ghost use Rattle.aim_shards.specs.Fitting.{AreSheets};
ghost use Rattle.aim_shards.specs.Rectangles.{FitsGrid, in_rectangle, is_between};

use aim_sheets::{Pool, Sheet, Span};
use std::alloc::{AllocError, Global};

/// The tiles of some neighbouring rows and columns in some steps, the last ones of each included.
#[derive(Clone, Copy)]
pub struct Rectangle {
    pub row0: u32,
    pub row1: u32,
    pub col0: u32,
    pub col1: u32,
    pub from: u32,
    pub to: u32,
}

impl Rectangle {
    // The columns, one bit each.
    fn columns(&self) -> u64
        requires { (self.now.col0 ≤ self.now.col1) × (self.now.col1 < 64) }
        ensures bits { (column : ℕ) → has_bit result column ≡ is_between self.now.col0 self.now.col1 column }
        ensures some { result ≢ 0 }
    {
        (u64::MAX >> (63 - self.col1)) & (u64::MAX << self.col0)
    }

    // Adds the tiles of one row in one step, which comes behind all that were added.
    fn add_row(&self, sheet: &mut Sheet, step: u32, row: u32)
        requires columns { (self.now.col0 ≤ self.now.col1) × (self.now.col1 < 64) }
        requires row { row < 64 }
        requires room { length sheet.old.spans < sheet.old.room }
        requires last { All (λ held. precedes held step row ≡ true) sheet.old.spans }
        ensures cells { (cell : Cell) → in_spans sheet.new.spans cell ≡ (in_spans sheet.old.spans cell || (cell.step == step && (cell.row == row && is_between self.now.col0 self.now.col1 cell.col))) }
        ensures count { length sheet.new.spans ≤ length sheet.old.spans + 1 }
        ensures room { sheet.new.room ≡ sheet.old.room }
        ensures last { All (λ held. precedes held step (row + 1) ≡ true) sheet.new.spans }
    {
        let span = Span {
            step,
            row: row as u8,
            mask: self.columns(),
        };
        let Ok(()) = sheet.push_last(span) else {
            unreachable!()
        };
    }

    // Adds the tiles of one step, which comes behind all that were added.
    fn add_step(&self, sheet: &mut Sheet, step: u32)
        requires columns { (self.now.col0 ≤ self.now.col1) × (self.now.col1 < 64) }
        requires rows { (self.now.row0 ≤ self.now.row1) × (self.now.row1 < 64) }
        requires room { length sheet.old.spans + (self.now.row1 - self.now.row0 + 1) ≤ sheet.old.room }
        requires last { All (λ held. precedes held step self.now.row0 ≡ true) sheet.old.spans }
        ensures cells { (cell : Cell) → in_spans sheet.new.spans cell ≡ (in_spans sheet.old.spans cell || (cell.step == step && (is_between self.now.row0 self.now.row1 cell.row && is_between self.now.col0 self.now.col1 cell.col))) }
        ensures count { length sheet.new.spans ≤ length sheet.old.spans + (self.now.row1 - self.now.row0 + 1) }
        ensures room { sheet.new.room ≡ sheet.old.room }
        ensures last { All (λ held. precedes held (step + 1) self.now.row0 ≡ true) sheet.new.spans }
    {
        for row in self.row0..self.row1 + 1 {
            self.add_row(sheet, step, row);
        }
    }

    /// The set of all its tiles in all its steps.
    pub fn sheet(&self, alloc: Global) -> Result<Sheet, AllocError>
        requires columns { (self.now.col0 ≤ self.now.col1) × (self.now.col1 < 64) }
        requires rows { (self.now.row0 ≤ self.now.row1) × (self.now.row1 < 64) }
        requires steps { (self.now.from ≤ self.now.to) × (self.now.to < 8192) }
        ensures { IfOk result (λ s. (cell : Cell) → in_spans s.spans cell ≡ in_rectangle self.now cell) }
    {
        let rows = self.row1 - self.row0 + 1;
        let mut pool = Pool::new(alloc, 1, (self.to - self.from + 1) * rows)?;
        let Ok(mut sheet) = pool.take() else {
            unreachable!()
        };
        for step in self.from..self.to + 1 {
            self.add_step(&mut sheet, step);
        }
        Ok(sheet)
    }
}

impl Rectangle {
    /// Whether it lies on a grid of `n` rows and columns, in steps below the horizon.
    pub fn fits(&self, n: u32, horizon: u32) -> bool
        ensures { IsTrue result ↔ FitsGrid n horizon self.now }
    {
        self.row0 <= self.row1
            && self.row1 < n
            && self.col0 <= self.col1
            && self.col1 < n
            && self.from <= self.to
            && self.to < horizon
    }
}

/// Whether all lie on a grid of `n` rows and columns, in steps below the horizon.
pub fn are_fitting(n: u32, horizon: u32, rectangles: &[Rectangle]) -> bool
    ensures { IsTrue result ↔ All (FitsGrid n horizon) rectangles.now }
{
    rectangles.iter().all(|r| r.fits(n, horizon))
}

/// The rectangles' sets, which lie on the grid.
pub fn sheets(
    alloc: Global,
    n: u32,
    horizon: u32,
    rectangles: &[Rectangle],
) -> Result<Vec<Sheet>, AllocError>
    requires n { n ≤ 64 }
    requires horizon { horizon ≤ 8192 }
    requires fit { All (FitsGrid n horizon) rectangles.now }
    ensures { IfOk result (λ v. AreSheets n horizon rectangles.now v.items) }
{
    let mut sheets = Vec::with_capacity(alloc, rectangles.len())?;
    for rectangle in rectangles {
        sheets.push_reserved(rectangle.sheet(alloc)?);
    }
    Ok(sheets)
}
