//! The reservations of vehicles, and the table of the cells that they take.

ghost use Rattle.std.specs.Prelude.{◌≡◌, ℕ, ◌+◌, ◌*◌, ◌-◌, ◌<◌, ◌≤◌, ◌&&◌, ◌||◌, not, ◌==◌, false, nat_le, min, length, None, Some, replicate, slice_index_or, slice_set, IfOk, IfNone, IfSome, option_map};
ghost use Rattle.std.specs.FinSet as set;
ghost use Rattle.aim_geometry.specs.Bounded.{least_below, some_below};
ghost use Rattle.aim_geometry.specs.Cells.{Cell, cell_at};
ghost use Rattle.aim_geometry.specs.Rects.{has_bit};
ghost use Rattle.aim_sheets.specs.Spans.{in_spans};
ghost use Rattle.aim_tiles.specs.Cells.{has_cell};
ghost use Rattle.aim_tiles.specs.Searches.{is_taken, IsFirst};
ghost use Rattle.aim_tiles.specs.Sheets.{AreTiles, AreAhead};
ghost use Rattle.aim_messages.specs.declared.entries.TheConstants.{MOST_VEHICLES};
ghost use Rattle.aim_reservations.specs.SpanSteps.{Reaches};
ghost use Rattle.aim_reservations.specs.Rows.{is_reserved, row_of, spans_in};

use crate::sheets::reaches;
use aim_sheets::Sheet;
use aim_tiles::{Steps, Table};
use std::alloc::{AllocError, Global};
use std::mem;
use std::sync::ledger::Ledger;

/// A reservation: the place of its Confirm in the journal, and the cells that this grants.
#[derive(Drop)]
pub struct Reservation {
    pub id: u32,
    pub sheet: Sheet,
}

/// What each vehicle has reserved, and the table of the cells of these reservations.
#[derive(Drop)]
pub struct Reservations<L: Ledger> {
    pub rows: Vec<Option<Reservation>>,
    pub table: Table<L>,
}

impl<L: Ledger> Reservations<L> {
    /// No reservation of so many vehicles, on a grid of n rows and columns, at step 0.
    pub fn new(
        alloc: Global,
        n: u32,
        horizon: u32,
        vehicles: u32,
    ) -> Result<Reservations<L>, AllocError>
        requires some { 0 < n }
        requires few { n ≤ 64 }
        requires ahead { 0 < horizon }
        requires near { horizon ≤ 8192 }
        ensures { IfOk result (λ r. (r.rows.items ≡ replicate vehicles None) × (r.table ≡ record { size = n; horizon = horizon; current = 0; cells = set.empty })) }
    {
        let mut rows = Vec::with_capacity(alloc, vehicles as usize)?;
        for _ in 0..vehicles {
            rows.push_reserved(None);
        }
        Ok(Reservations {
            rows,
            table: Table::new(alloc, n, horizon)?,
        })
    }

    /// The current step.
    pub fn now(&self) -> u32
        ensures now { result ≡ self.now.table.current }
        ensures last { result ≤ 1073741824 }
    {
        self.table.now()
    }

    /// Goes on to a later step: the cells of the steps before it leave the table.
    pub fn advance(&mut self, now: u32, steps: &mut Steps<L>)
        requires later { self.old.table.current ≤ now }
        requires last { now ≤ 1073741824 }
        ensures cells { (cell : Cell) → has_cell self.new.table cell ≡ (has_cell self.old.table cell && nat_le now cell.step) }
        ensures rows { self.new.rows.items ≡ self.old.rows.items }
        ensures table { self.new.table ≡ record self.old.table { current = now; cells = self.new.table.cells } }
        ensures cost { steps.new ≡ steps.old + self.old.table.size * min (now - self.old.table.current) self.old.table.horizon }
    {
        self.table.advance(now, steps);
    }

    /// The vehicle's reservation, whether or not its cells are past.
    pub fn row(&self, vehicle: u32) -> Option<&Reservation>
        requires { vehicle < length self.now.rows.items }
        ensures { option_map (λ r. r.now) result ≡ row_of self.now.rows.items vehicle }
    {
        self.rows[vehicle as usize].as_ref()
    }

    /// The vehicle's reservation, if some cell of it is not past.
    pub fn lasting(&self, vehicle: u32) -> Option<&Reservation>
        requires { vehicle < length self.now.rows.items }
        ensures some { IfSome result (λ own. (row_of self.now.rows.items vehicle ≡ Some own.now) × Reaches own.now.sheet.spans self.now.table.current) }
        ensures none { IfNone result (Reaches (spans_in (row_of self.now.rows.items vehicle)) self.now.table.current → ⊥) }
    {
        match self.row(vehicle) {
            Some(own) if reaches(&own.sheet, self.table.now()) => Some(own),
            _ => None,
        }
    }

    /// The least cell of the sheet, by step, row and column, that another vehicle has reserved.
    pub fn first_taken(
        &self,
        vehicle: u32,
        sheet: &Sheet,
        steps: &mut Steps<L>,
    ) -> Option<(u32, u8, u8)>
        requires there { vehicle < length self.now.rows.items }
        requires tiles { AreTiles self.now.table.size sheet.now.spans }
        ensures found { IfSome result (λ r. IsFirst (is_taken self.now.table sheet.now.spans (spans_in (row_of self.now.rows.items vehicle))) (cell_at r.0 r.1 r.2)) }
        ensures none { IfNone result ((cell : Cell) → is_taken self.now.table sheet.now.spans (spans_in (row_of self.now.rows.items vehicle)) cell ≡ false) }
        ensures cost { steps.new ≤ steps.old + length sheet.now.spans }
        ensures counted { steps.old ≤ steps.new }
    {
        match self.row(vehicle) {
            Some(own) => self.table.first_taken(sheet, Some(&own.sheet), steps),
            None => self.table.first_taken(sheet, None, steps),
        }
    }

    /// The least vehicle, other than one, that has reserved the cell.
    pub fn holder(&self, except: u32, step: u32, row: u8, col: u8) -> Option<u32>
        requires few { length self.now.rows.items ≤ MOST_VEHICLES }
        requires column { col < 64 }
        ensures { result ≡ least_below (length self.now.rows.items) (λ w. not (w == except) && is_reserved self.now.rows.items w (cell_at step row col)) }
    {
        for vehicle in 0..self.rows.len() as u32 {
            if vehicle != except && self.has_cell(vehicle, step, row, col) {
                return Some(vehicle);
            }
        }
        None
    }

    /// The columns of a step's row that some vehicle has reserved, one bit each.
    pub fn mask(&self, step: u32, row: u8) -> u64
        requires few { length self.now.rows.items ≤ MOST_VEHICLES }
        ensures { (col : ℕ) → has_bit result col ≡ some_below (length self.now.rows.items) (λ w. is_reserved self.now.rows.items w (cell_at step row col)) }
    {
        let mut mask = 0;
        for vehicle in 0..self.rows.len() as u32 {
            mask |= self.mask_of(vehicle, step, row);
        }
        mask
    }

    // The columns of a step's row that the vehicle has reserved, one bit each.
    fn mask_of(&self, vehicle: u32, step: u32, row: u8) -> u64
        requires { vehicle < length self.now.rows.items }
        ensures { (col : ℕ) → has_bit result col ≡ is_reserved self.now.rows.items vehicle (cell_at step row col) }
    {
        match self.row(vehicle) {
            Some(own) => own.sheet.mask(step, row),
            None => 0,
        }
    }

    // Whether the vehicle has reserved the cell.
    fn has_cell(&self, vehicle: u32, step: u32, row: u8, col: u8) -> bool
        requires there { vehicle < length self.now.rows.items }
        requires column { col < 64 }
        ensures { result ≡ is_reserved self.now.rows.items vehicle (cell_at step row col) }
    {
        (self.mask_of(vehicle, step, row) >> col) & 1 == 1
    }

    /// Gives the vehicle this reservation in the place of the one that it has, whose sheet comes back.
    pub(crate) fn set(
        &mut self,
        vehicle: u32,
        reservation: Option<Reservation>,
        steps: &mut Steps<L>,
    ) -> Option<Sheet>
        requires there { vehicle < length self.old.rows.items }
        requires own { AreTiles self.old.table.size (spans_in (row_of self.old.rows.items vehicle)) }
        requires tiles { AreTiles self.old.table.size (spans_in reservation) }
        requires ahead { AreAhead self.old.table.current self.old.table.horizon (spans_in reservation) }
        ensures rows { self.new.rows.items ≡ slice_set self.old.rows.items vehicle reservation }
        ensures sheet { result ≡ option_map (λ r. r.sheet) (row_of self.old.rows.items vehicle) }
        ensures table { self.new.table ≡ record self.old.table { cells = self.new.table.cells } }
        ensures cells { (c : Cell) → has_cell self.new.table c ≡ (has_cell self.old.table c && not (in_spans (spans_in (row_of self.old.rows.items vehicle)) c) || in_spans (spans_in reservation) c) }
        ensures cost { steps.new ≤ steps.old + length (spans_in (row_of self.old.rows.items vehicle)) + length (spans_in reservation) }
        ensures counted { steps.old ≤ steps.new }
    {
        release(&mut self.table, &self.rows[vehicle as usize], steps);
        claim(&mut self.table, &reservation, steps);
        match mem::replace(&mut self.rows[vehicle as usize], reservation) {
            Some(Reservation { id: _, sheet }) => Some(sheet),
            None => None,
        }
    }
}

// Lets go of the cells of the reservation, if there is one.
fn release<L: Ledger>(table: &mut Table<L>, reservation: &Option<Reservation>, steps: &mut Steps<L>)
    requires { AreTiles table.old.size (spans_in reservation.now) }
    ensures cells { (c : Cell) → has_cell table.new c ≡ (has_cell table.old c && not (in_spans (spans_in reservation.now) c)) }
    ensures rest { table.new ≡ record table.old { cells = table.new.cells } }
    ensures cost { steps.new ≤ steps.old + length (spans_in reservation.now) }
    ensures counted { steps.old ≤ steps.new }
{
    if let Some(reservation) = reservation {
        table.release(&reservation.sheet, steps);
    }
}

// Takes the cells of the reservation, if there is one.
fn claim<L: Ledger>(table: &mut Table<L>, reservation: &Option<Reservation>, steps: &mut Steps<L>)
    requires tiles { AreTiles table.old.size (spans_in reservation.now) }
    requires ahead { AreAhead table.old.current table.old.horizon (spans_in reservation.now) }
    ensures cells { (c : Cell) → has_cell table.new c ≡ (has_cell table.old c || in_spans (spans_in reservation.now) c) }
    ensures rest { table.new ≡ record table.old { cells = table.new.cells } }
    ensures cost { steps.new ≤ steps.old + length (spans_in reservation.now) }
    ensures counted { steps.old ≤ steps.new }
{
    if let Some(reservation) = reservation {
        table.claim(&reservation.sheet, steps);
    }
}
