//! A table of the tiles that are taken.

ghost use Rattle.std.specs.Prelude.{◌≡◌, ℕ, ◌+◌, ◌-◌, ◌*◌, ◌<◌, ◌≤◌, ◌&&◌, ◌||◌, not, nat_le, min, true, false, ◌↔◌, IsTrue, length, IfOk, IfNone, IfSome};
ghost use Rattle.std.specs.FinSet as set;
ghost use Rattle.aim_geometry.specs.Cells.{Cell, cell_at};
ghost use Rattle.aim_sheets.specs.Spans.{in_spans};
ghost use Rattle.aim_tiles.specs.Cells.{has_cell, in_box};
ghost use Rattle.aim_tiles.specs.Searches.{is_taken, IsFirst, spans_of};
ghost use Rattle.aim_tiles.specs.Sheets.{AreTiles, AreAhead};
ghost use Rattle.std.specs.Option.{option_copied};

use crate::NoMemory;
use crate::checks::{are_ahead, are_tiles};
use crate::counters::Steps;
use crate::marks::{clear_pages, mark_spans, unmark_spans};
use crate::pages::Pages;
use crate::searches::first_in_spans;
use aim_sheets::Sheet;
use std::alloc::Global;
use std::marker::{Brand, Model};
use std::sync::ledger::Ledger;

/// The cells that are taken in the steps from now on up to the horizon. Its words are counted in the ledger `L`, and
/// no call here can read or write one without that ledger's count.
#[derive(Drop)]
pub struct Table<L: Ledger> {
    pages: Pages<L>,
    current: u32,
}

impl<L: Ledger> Model for Table<L> {
    ghost use Rattle.std.specs.Prelude.{◌≤◌};
    ghost use Rattle.aim_tiles.specs.Cells.{TakenCells, taken_code};

    ghost Value = { TakenCells };

    ghost coded = { taken_code };

    ghost use Rattle.aim_tiles.specs.Pages.{marked_cells};

    ghost view = { λ t. record { size = t.pages.size; horizon = t.pages.horizon; current = t.current; cells = marked_cells t.pages.words.items.items t.pages.size t.pages.horizon t.current } };

    ghost invariant = { λ t. t.current ≤ 1073741824 };
}

impl<L: Ledger> Table<L> {
    /// A table of `n` rows and columns over so many steps. No cell is taken, and now is 0.
    pub fn new(alloc: Global, n: u32, horizon: u32) -> Result<Table<L>, NoMemory>
        requires some { 0 < n }
        requires few { n ≤ 64 }
        requires ahead { 0 < horizon }
        requires near { horizon ≤ 8192 }
        ensures { IfOk result (λ table. table ≡ record { size = n; horizon = horizon; current = 0; cells = set.empty }) }
    {
        Ok(Table {
            pages: Pages::new(alloc, n, horizon)?,
            current: 0,
        })
    }

    /// The number of rows, and of columns.
    pub fn size(&self) -> u32
        ensures size { result ≡ self.now.size }
        ensures few { result ≤ 64 }
    {
        self.pages.size() as u32
    }

    /// How many steps from now on the table has.
    pub fn horizon(&self) -> u32
        ensures horizon { result ≡ self.now.horizon }
        ensures near { result ≤ 8192 }
    {
        self.pages.horizon()
    }

    /// The current step, from which on the table has cells.
    pub fn now(&self) -> u32
        ensures now { result ≡ self.now.current }
        ensures last { result ≤ 1073741824 }
        ensures cells { (cell : Cell) → has_cell self.now cell ≡ true → in_box self.now.size self.now.horizon self.now.current cell ≡ true }
    {
        self.current
    }

    /// Whether the rows and columns of the sheet's cells are below the table's size.
    pub fn has_tiles(&self, sheet: &Sheet) -> bool
        ensures { IsTrue result ↔ AreTiles self.now.size sheet.now.spans }
    {
        are_tiles(sheet.spans(), self.pages.size())
    }

    /// Whether the steps of the sheet's cells are among those that the table has.
    pub fn has_steps(&self, sheet: &Sheet) -> bool
        ensures { IsTrue result ↔ AreAhead self.now.current self.now.horizon sheet.now.spans }
    {
        are_ahead(sheet.spans(), self.current, self.pages.horizon())
    }

    /// Goes on to a later step: the cells of the steps before it leave.
    pub fn advance(&mut self, now: u32, steps: &mut Steps<L>)
        requires later { self.old.current ≤ now }
        requires last { now ≤ 1073741824 }
        ensures cells { (cell : Cell) → has_cell self.new cell ≡ (has_cell self.old cell && nat_le now cell.step) }
        ensures rest { self.new ≡ record self.old { current = now; cells = self.new.cells } }
        ensures cost { steps.new ≡ steps.old + self.old.size * min (now - self.old.current) self.old.horizon }
    {
        let leaving = (now - self.current).min(self.pages.horizon());
        clear_pages(&mut self.pages, self.current, leaving, steps);
        self.current = now;
    }

    /// The least cell of the sheet, by step, then row, then column, that is taken and is none of the own
    /// sheet's.
    pub fn first_taken(
        &self,
        sheet: &Sheet,
        own: Option<&Sheet>,
        steps: &mut Steps<L>,
    ) -> Option<(u32, u8, u8)>
        requires { AreTiles self.now.size sheet.now.spans }
        ensures found { IfSome result (λ r. IsFirst (is_taken self.now sheet.now.spans (spans_of (option_copied own.entry))) (cell_at r.0 r.1 r.2)) }
        ensures none { IfNone result ((cell : Cell) → is_taken self.now sheet.now.spans (spans_of (option_copied own.entry)) cell ≡ false) }
        ensures cost { steps.new ≤ steps.old + length sheet.now.spans }
        ensures counted { steps.old ≤ steps.new }
    {
        first_in_spans(&self.pages, self.current, sheet.spans(), own, steps)
    }

    /// Takes the sheet's cells.
    pub fn claim(&mut self, sheet: &Sheet, steps: &mut Steps<L>)
        requires tiles { AreTiles self.old.size sheet.now.spans }
        requires ahead { AreAhead self.old.current self.old.horizon sheet.now.spans }
        ensures cells { (cell : Cell) → has_cell self.new cell ≡ (has_cell self.old cell || in_spans sheet.now.spans cell) }
        ensures rest { self.new ≡ record self.old { cells = self.new.cells } }
        ensures cost { steps.new ≡ steps.old + length sheet.now.spans }
    {
        mark_spans(&mut self.pages, sheet.spans(), steps);
    }

    /// Lets go of the sheet's cells. Those of steps that the table doesn't have are passed over.
    pub fn release(&mut self, sheet: &Sheet, steps: &mut Steps<L>)
        requires { AreTiles self.old.size sheet.now.spans }
        ensures cells { (cell : Cell) → has_cell self.new cell ≡ (has_cell self.old cell && not (in_spans sheet.now.spans cell)) }
        ensures rest { self.new ≡ record self.old { cells = self.new.cells } }
        ensures cost { steps.new ≤ steps.old + length sheet.now.spans }
        ensures counted { steps.old ≤ steps.new }
    {
        unmark_spans(&mut self.pages, self.current, sheet.spans(), steps);
    }
}

impl<L: Ledger> Table<L> {
    // The table without its ledger, whose count it takes.
    pub(crate) fn leave_ledger(self, steps: Steps<L>) -> Table<Brand>
        ensures { result ≡ self }
    {
        let Table { pages, current } = self;
        Table {
            pages: pages.leave(steps),
            current,
        }
    }
}

impl Table<Brand> {
    // The table in a ledger.
    pub(crate) fn join_ledger<L: Ledger>(self) -> Table<L>
        ensures { result ≡ self }
    {
        let Table { pages, current } = self;
        Table {
            pages: pages.join(),
            current,
        }
    }
}
