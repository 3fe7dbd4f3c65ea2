//! A visitor led through the steps of a crossing.

ghost use Rattle.std.specs.Prelude.{◌≡◌, ◌≢◌, ℕ, ◌<◌, ◌≤◌, ◌^◌, length, true, Some, None, IfOk, OnOk, OnErr, List, slice_index};
ghost use Rattle.std.specs.Result.{result_err};
ghost use Rattle.aim_layout.specs.Intersection.{path as path_of};
ghost use Rattle.aim_rules.specs.Footprint.{crossing_steps};
ghost use Rattle.aim_footprint.specs.Fields.{IsTried, bad_crossing as bad_crossing_of};
ghost use Rattle.aim_footprint.specs.Windows.{AreRects, AreSteady};
ghost use Rattle.aim_footprint.specs.Reaches.{AreReaches};
ghost use Rattle.aim_footprint.specs.Visits.{IsFootprint, IsRangeOf, ShowsStep, Visited};

use crate::fields::bad_crossing;
use crate::fills::{are_steady, fill_rects};
use crate::reaches::{Reach, fill_reaches};
use crate::windows::TileWindow;
use aim_geometry::TileRect;
use aim_layout::{Layout, Path};
use aim_messages::{Field, Params};

/// The first and the last row with a tile.
#[derive(Clone, Copy)]
pub struct RowRange {
    pub first: u8,
    pub last: u8,
}

/// What sees the tiles of each step.
pub trait Visit {
    ghost use Rattle.aim_footprint.specs.declared.visits.RowRange.{RowRange};
    ghost use Rattle.aim_footprint.specs.Visits.{IsRangeOf};

    /// How the visitor after a step follows from the one before it, the step's number, its range of rows and its masks.
    ghost visits: { Self → ℕ → RowRange → List ℕ → Self → Type 0 };

    /// Sees step k: bit c of word r of the masks is tile (r, c). The range is the first and the last row whose mask isn't 0.
    fn step(&mut self, k: u32, rows: RowRange, masks: &[u64; 64])
        requires { IsRangeOf masks.now rows }
        ensures { visits self.old k rows masks.now self.new };
}

// The first row with a tile.
fn first_row(masks: &[u64; 64]) -> u8
    requires { (row : ℕ) × (row < 64) × (slice_index masks.now row ≢ 0) }
    ensures within { result < 64 }
    ensures some { slice_index masks.now result ≢ 0 }
    ensures none { (row : ℕ) → row < result → slice_index masks.now row ≡ 0 }
{
    for row in 0..64 {
        if masks[row] != 0 {
            return row as u8;
        }
    }
    unreachable!()
}

// The last row with a tile.
fn last_row(masks: &[u64; 64]) -> u8
    requires { (row : ℕ) × (row < 64) × (slice_index masks.now row ≢ 0) }
    ensures within { result < 64 }
    ensures some { slice_index masks.now result ≢ 0 }
    ensures none { (row : ℕ) → result < row → row < 64 → slice_index masks.now row ≡ 0 }
{
    for past in 0..64 {
        let row = 63 - past;
        if masks[row] != 0 {
            return row as u8;
        }
    }
    unreachable!()
}

// The first and the last row with a tile.
fn row_range(masks: &[u64; 64]) -> RowRange
    requires { (row : ℕ) × (row < 64) × (slice_index masks.now row ≢ 0) }
    ensures range { IsRangeOf masks.now result }
    ensures count { length masks.now ≡ 64 }
    ensures words { (row : ℕ) → slice_index masks.now row < 2 ^ 64 }
{
    RowRange {
        first: first_row(masks),
        last: last_row(masks),
    }
}

// Leads the visitor through the steps.
fn run<V: Visit>(rects: &[TileRect], is_steady: bool, reaches: &[Reach], visit: &mut V)
    requires rects { AreRects rects.now }
    requires steady { is_steady ≡ true → AreSteady rects.now }
    requires some { 0 < length rects.now }
    requires few { length reaches.now ≤ 2048 }
    requires reaches { AreReaches (length rects.now) reaches.now }
    ensures { Visited V.visits (ShowsStep rects.now reaches.now) (length reaches.now) visit.old visit.new }
{
    let mut window = TileWindow::first(rects);
    for k in 0..reaches.len() {
        let Reach { low, high } = reaches[k];
        window.move_to(rects, is_steady, low as usize, high as usize);
        visit.step(k as u32, row_range(&window.rows), &window.rows);
    }
}

// Leads the visitor through the steps of a trial on a path, in a list of rectangles of the path's length.
fn lead<V: Visit>(
    layout: &Layout,
    params: &Params,
    accelerate: bool,
    extra: u32,
    path: &Path,
    rects: &mut [TileRect],
    visit: &mut V,
) -> u32
    requires good { bad_crossing_of layout.now params.now ≡ None }
    requires tried { IsTried layout.now params.now accelerate }
    requires found { path_of layout.now params.now.lane params.now.turn ≡ Some path.now }
    requires room { length rects.old ≡ length path.now }
    requires extra { extra ≤ 10000 }
    ensures count { result ≡ crossing_steps layout.now params.now accelerate }
    ensures visits { Visited V.visits (IsFootprint layout.now params.now accelerate extra) result visit.old visit.new }
{
    let ground = layout.ground();
    let half = params.width.div_ceil(2) + ground.grid().spacing + extra;
    fill_rects(ground, half, path.stations(), rects);
    let mut reaches = [Reach { low: 0, high: 0 }; 2048];
    let count = fill_reaches(layout, params, accelerate, path.parts(), &mut reaches);
    run(rects, are_steady(rects), &reaches[..count], visit);
    count as u32
}

/// Leads the visitor through the crossing steps of a trial, in order, and gives their number: `accelerate` says which
/// trial, and in a layout with windows it is the one that is made. In each step it shows the tiles under the vehicle and round it by `extra` millimetres. Where a field of the
/// crossing is wrong, that is the answer, and the visitor sees nothing.
pub fn simulate<V: Visit>(
    layout: &Layout,
    params: &Params,
    accelerate: bool,
    extra: u32,
    visit: &mut V,
) -> Result<u32, Field>
    requires extra { extra ≤ 10000 }
    requires tried { IsTried layout.now params.now accelerate }
    ensures field { result_err result ≡ bad_crossing_of layout.now params.now }
    ensures count { IfOk result (λ count. count ≡ crossing_steps layout.now params.now accelerate) }
    ensures visits { OnOk result (Visited V.visits (IsFootprint layout.now params.now accelerate extra) (crossing_steps layout.now params.now accelerate) visit.old visit.new) }
    ensures unseen { OnErr result (visit.new ≡ visit.old) }
{
    if let Some(field) = bad_crossing(layout, params) {
        return Err(field);
    }
    let Some(path) = Path::of(layout, params.lane, params.turn) else {
        return Err(Field::Turn);
    };
    let mut table = [TileRect {
        row0: 0,
        row1: 0,
        col0: 0,
        col1: 0,
    }; 4097];
    let count = path.stations().len();
    Ok(lead(
        layout,
        params,
        accelerate,
        extra,
        &path,
        &mut table[..count],
        visit,
    ))
}
