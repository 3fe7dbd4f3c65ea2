//! The plain form of a table: one number for each tile and each step modulo the horizon, and numbers that look random, to
//! try it with.

ghost use Rattle.std.specs.Prelude.{◌<◌, ◌≤◌};

use crate::sheets::is_put;
use aim_sheets::{Sheet, Span};
use std::alloc::{AllocError, Global};

/// A tile's number is one more than the step in which it is taken. An older number is of a step that is over.
#[derive(Drop)]
pub struct Plain {
    pub size: u32,
    pub horizon: u32,
    pub now: u32,
    numbers: Vec<u32>,
}

// Whether the span has this column.
fn has_column(span: &Span, column: u8) -> bool {
    column < 64 && span.mask >> column & 1 == 1
}

// Whether the spans have this cell.
fn have_cell(spans: &[Span], step: u32, row: u8, column: u8) -> bool {
    spans.iter().any(|span| span.step == step && span.row == row && has_column(span, column))
}

impl Plain {
    /// A table of so many rows and columns over so many steps. No cell is taken, and now is 0.
    pub fn new(alloc: Global, size: u32, horizon: u32) -> Result<Plain, AllocError> {
        let count = horizon.wrapping_mul(size).wrapping_mul(size);
        let numbers = vec![in alloc; 0; count as usize]?;
        Ok(Plain {
            size,
            horizon,
            now: 0,
            numbers,
        })
    }

    fn place(&self, step: u32, row: u8, column: u8) -> usize {
        let page = step.checked_rem(self.horizon).unwrap_or(0);
        let line = page.wrapping_mul(self.size).wrapping_add(row as u32);
        line.wrapping_mul(self.size).wrapping_add(column as u32) as usize
    }

    fn has_step(&self, step: u32) -> bool {
        self.now <= step && step - self.now < self.horizon
    }

    fn is_taken(&self, step: u32, row: u8, column: u8) -> bool {
        let number = self.numbers.get(self.place(step, row, column));
        self.has_step(step) && number == Some(&step.wrapping_add(1))
    }

    // Writes the number at all cells of the span.
    fn write(&mut self, span: &Span, number: u32) {
        for column in 0..64u8 {
            let place = self.place(span.step, span.row, column);
            if has_column(span, column) && self.has_step(span.step) && place < self.numbers.len() {
                self.numbers[place] = number;
            }
        }
    }

    /// Takes the cells of the spans, or leaves them.
    pub fn mark(&mut self, spans: &[Span], is_taken: bool) {
        for span in spans {
            self.write(
                span,
                if is_taken {
                    span.step.wrapping_add(1)
                } else {
                    0
                },
            );
        }
    }

    // The least column of the span that is taken, where the cell isn't one's own.
    fn first_column(&self, span: &Span, own: &[Span]) -> Option<u8> {
        (0..64u8).find(|column| {
            has_column(span, *column)
                && self.is_taken(span.step, span.row, *column)
                && !have_cell(own, span.step, span.row, *column)
        })
    }

    /// The first cell of the spans that is taken and isn't one's own: its step, its row and its column.
    pub fn first_taken(&self, spans: &[Span], own: &[Span]) -> Option<(u32, u8, u8)> {
        for span in spans {
            if let Some(column) = self.first_column(span, own) {
                return Some((span.step, span.row, column));
            }
        }
        None
    }
}

/// Numbers that look random, and are the same each time.
#[derive(Drop)]
pub struct Random(pub u64);

impl Random {
    /// The next number below the bound.
    pub fn below(&mut self, bound: u32) -> u32
        requires { 0 < bound }
        ensures { result < bound }
    {
        self.0 = self
            .0
            .wrapping_mul(6_364_136_223_846_793_005)
            .wrapping_add(1_442_695_040_888_963_407);
        (self.0 >> 33) as u32 % bound
    }

    /// Fills the sheet with spans of a few steps from a step on, over so many rows and columns.
    pub fn fill(&mut self, sheet: &mut Sheet, size: u32, from: u32)
        requires some { 0 < size }
        requires few { size ≤ 64 }
    {
        sheet.clear();
        for _ in 0..self.below(12) {
            let bits = self.below(1 << 31) as u64 * self.below(1 << 31) as u64;
            let mask = (bits | 1 << self.below(size)) & u64::MAX >> (64 - size);
            let step = from.wrapping_add(self.below(4));
            let row = self.below(size) as u8;
            let _ = is_put(sheet, (step, row, mask));
        }
    }
}
