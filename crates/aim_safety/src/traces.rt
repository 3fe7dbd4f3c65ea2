//! The tiles under a vehicle, step by step.

ghost use Rattle.std.specs.Prelude.{◌≡◌, ℕ, ◌+◌, ◌<◌, ◌≤◌, ◌++◌, Bool, true, false, length, filter, map, IfOk, OnOk};
ghost use Rattle.aim_safety.specs.Tiles.{cell_of, of_row, of_rows, of_tile};
ghost use Rattle.aim_safety.specs.Traces.{is_traced, AreOfRow, IsNeverShown, IsTraced};
ghost use Rattle.aim_geometry.specs.Rects.{has_bit};

use crate::NoMemory;
use crate::cells::Cell;
use aim_footprint::{RowRange, Visit};
use std::alloc::Global;

// No crossing has more steps.
const MOST_STEPS: usize = 2048;

// The masks of each step so far: bit c of word r is tile (r, c). It is cut where memory was wanting.
pub struct Trace {
    pub steps: Vec<[u64; 64]>,
    pub is_cut: bool,
}

impl Visit for Trace {
    ghost use Rattle.aim_safety.specs.Traces.{IsTraced};

    ghost visits = { λ old k rows masks new. IsTraced old masks new };

    fn step(&mut self, _k: u32, _rows: RowRange, masks: &[u64; 64]) {
        if self.steps.push(*masks).is_err() {
            self.is_cut = true;
        }
    }
}

// Whether bit `col` is set.
fn has_tile(mask: u64, col: u8) -> bool
    requires { col < 64 }
    ensures { result ≡ has_bit mask col }
{
    (mask >> col) & 1 == 1
}

// Puts the masks of a row in each step one behind the other, and gives the tiles that any of them shows.
fn gather_row(masks: &mut [u64; MOST_STEPS], steps: &[[u64; 64]], row: u8) -> u64
    requires few { length steps.now ≤ 2048 }
    requires row { row < 64 }
    ensures never { (col : ℕ) → has_bit result col ≡ false → IsNeverShown steps.now row col }
    ensures gathered { AreOfRow steps.now row masks.new }
{
    let mut shown = 0;
    for (k, step) in steps.iter().enumerate() {
        let mask = step[row as usize];
        masks[k] = mask;
        shown |= mask;
    }
    shown
}

// Appends a tile in each step whose mask of the row shows it.
fn push_steps(
    cells: &mut Vec<Cell>,
    masks: &[u64; MOST_STEPS],
    steps: &[[u64; 64]],
    first: u32,
    row: u8,
    col: u8,
) -> Result<(), NoMemory>
    requires first { first ≤ 2147483648 }
    requires few { length steps.now ≤ 2048 }
    requires gathered { AreOfRow steps.now row masks.now }
    requires row { row < 64 }
    requires col { col < 64 }
    ensures { OnOk result (map cell_of cells.new.items ≡ map cell_of cells.old.items ++
        filter (is_traced steps.now first) (of_tile first (length steps.now) row col)) }
{
    for k in 0..steps.len() {
        if has_tile(masks[k], col) {
            cells.push(Cell {
                row,
                col,
                step: first + k as u32,
            })?;
        }
    }
    Ok(())
}

// Appends the tiles of a row, in rising order.
fn push_row(
    cells: &mut Vec<Cell>,
    masks: &mut [u64; MOST_STEPS],
    steps: &[[u64; 64]],
    first: u32,
    row: u8,
    n: u8,
) -> Result<(), NoMemory>
    requires first { first ≤ 2147483648 }
    requires few { length steps.now ≤ 2048 }
    requires row { row < 64 }
    requires n { n ≤ 64 }
    ensures { OnOk result (map cell_of cells.new.items ≡ map cell_of cells.old.items ++
        filter (is_traced steps.now first) (of_row first (length steps.now) n row)) }
{
    let shown = gather_row(masks, steps, row);
    for col in 0..n {
        if has_tile(shown, col) {
            push_steps(cells, masks, steps, first, row, col)?;
        }
    }
    Ok(())
}

// Appends the tiles of an n by n grid, in rising order.
fn push_tiles(
    cells: &mut Vec<Cell>,
    masks: &mut [u64; MOST_STEPS],
    steps: &[[u64; 64]],
    first: u32,
    n: u8,
) -> Result<(), NoMemory>
    requires first { first ≤ 2147483648 }
    requires few { length steps.now ≤ 2048 }
    requires n { n ≤ 64 }
    ensures { OnOk result (map cell_of cells.new.items ≡ map cell_of cells.old.items ++
        filter (is_traced steps.now first) (of_rows first (length steps.now) n n)) }
{
    for row in 0..n {
        push_row(cells, masks, steps, first, row, n)?;
    }
    Ok(())
}

/// The tiles of an n by n grid that the masks of each step show, in rising order.
pub fn shown_tiles(
    alloc: Global,
    steps: &[[u64; 64]],
    first: u32,
    n: u8,
) -> Result<Vec<Cell>, NoMemory>
    requires first { first ≤ 2147483648 }
    requires few { length steps.now ≤ 2048 }
    requires n { n ≤ 64 }
    ensures { IfOk result (λ cells. map cell_of cells.items ≡
        filter (is_traced steps.now first) (of_rows first (length steps.now) n n)) }
{
    let mut cells = Vec::new(alloc);
    let mut masks = [0; MOST_STEPS];
    push_tiles(&mut cells, &mut masks, steps, first, n)?;
    Ok(cells)
}
