//! The cells of a trial, written into a sheet.

ghost use Rattle.std.specs.Prelude.{◌≡◌, ℕ, ◌<◌, ◌≤◌, ◌+◌, ◌-◌, ◌*◌, ◌&&◌, min, nat_le, true, [], length, OnErr, OnOk, IfOk, Some, None, if◌then◌else◌, replicate};
ghost use Rattle.aim_geometry.specs.Bounded.{ceil_div};
ghost use Rattle.aim_geometry.specs.Sites.{IsTimes};
ghost use Rattle.aim_layout.specs.Intersection.{path as path_of, stations};
ghost use Rattle.aim_layout.specs.Valid.{IsValid};
ghost use Rattle.aim_rules.specs.Bad.{span_count};
ghost use Rattle.aim_rules.specs.Footprint.{crossing_steps};
ghost use Rattle.aim_footprint.specs.Fields.{IsTried, bad_crossing};
ghost use Rattle.aim_footprint.specs.Fills.{AreRectsOf};
ghost use Rattle.aim_footprint.specs.Windows.{AreRects, AreSteady, IsWindow, is_under};
ghost use Rattle.aim_footprint.specs.Reaches.{AreReaches};
ghost use Rattle.aim_requests.specs.Cells.{HaveCells};
ghost use Rattle.aim_requests.specs.Moves.{IsFirst, IsMoved, IsTrial, MayMove};
ghost use Rattle.aim_requests.specs.Written.{IsWritten};

use crate::rows::write_step;
use aim_footprint::{Reach, TileWindow, fill_reaches};
use aim_geometry::{Grid, TileRect, Times};
use aim_layout::{Layout, Path};
use aim_messages::Params;
use aim_sheets::{Sheet, SheetFull};

// The windows of a step: the inner one within the early and late buffers, the outer one within the edge buffer.
#[derive(Drop)]
struct Windows {
    inner: TileWindow,
    outer: TileWindow,
}

// The rows between which the window's tiles lie.
#[inline]
fn hull(rects: &[TileRect], is_steady: bool, window: &TileWindow) -> (u8, u8)
    requires rects { AreRects rects.now }
    requires steady { is_steady ≡ true → AreSteady rects.now }
    requires window { IsWindow rects.now window.now }
    ensures order { result.0 ≤ result.1 }
    ensures last { result.1 < 64 }
    ensures rows { (row col : ℕ) → row < 64 → is_under rects.now window.now.low window.now.next row col ≡ true → (result.0 ≤ row) × (row ≤ result.1) }
{
    if !is_steady {
        return (0, 63);
    }
    let (a, b) = (rects[window.low], rects[window.next - 1]);
    (a.row0.min(b.row0), a.row1.max(b.row1))
}

// Moves the window on to the crossing steps from the one to the other.
#[inline]
fn move_on(
    window: &mut TileWindow,
    rects: &[TileRect],
    is_steady: bool,
    reaches: &[Reach],
    low: usize,
    high: usize,
)
    requires rects { AreRects rects.now }
    requires steady { is_steady ≡ true → AreSteady rects.now }
    requires reaches { AreReaches (length rects.now) reaches.now }
    requires may { MayMove rects.now reaches.now window.old low high }
    requires order { low ≤ high }
    requires high { high < length reaches.now }
    ensures { IsMoved rects.now reaches.now window.new low high }
{
    let (first, last) = (reaches[low].low, reaches[high].high);
    window.move_to(rects, is_steady, first as usize, last as usize);
}

// Moves the outer window on to the crossing steps within the edge buffer of step t, and says between which rows its
// tiles then lie.
#[inline]
fn move_outer(
    outer: &mut TileWindow,
    rects: &[TileRect],
    is_steady: bool,
    reaches: &[Reach],
    edge: usize,
    t: usize,
) -> (u8, u8)
    requires rects { AreRects rects.now }
    requires steady { is_steady ≡ true → AreSteady rects.now }
    requires reaches { AreReaches (length rects.now) reaches.now }
    requires edge { edge ≤ 1024 }
    requires few { length reaches.now ≤ 2048 }
    requires some { 0 < length reaches.now }
    requires near { t < length reaches.now + 2 * edge }
    requires may { MayMove rects.now reaches.now outer.old (t - (edge + edge)) (min (t + edge - edge) (length reaches.now - 1)) }
    ensures moved { IsMoved rects.now reaches.now outer.new (t - (edge + edge)) (min (t + edge - edge) (length reaches.now - 1)) }
    ensures may { MayMove rects.now reaches.now outer.new (t + 1 - (edge + edge)) (min (t + 1 + edge - edge) (length reaches.now - 1)) }
    ensures order { result.0 ≤ result.1 }
    ensures last { result.1 < 64 }
    ensures rows { (row col : ℕ) → row < 64 → is_under rects.now outer.new.low outer.new.next row col ≡ true → (result.0 ≤ row) × (row ≤ result.1) }
{
    let high = t.min(reaches.len() - 1);
    move_on(
        outer,
        rects,
        is_steady,
        reaches,
        t.saturating_sub(2 * edge),
        high,
    );
    hull(rects, is_steady, outer)
}

// Moves the inner window on to the crossing steps within the early and late buffers of step t, if there are any.
#[inline]
fn move_inner(
    inner: &mut TileWindow,
    rects: &[TileRect],
    is_steady: bool,
    reaches: &[Reach],
    times: &Times,
    t: usize,
) -> bool
    requires rects { AreRects rects.now }
    requires steady { is_steady ≡ true → AreSteady rects.now }
    requires reaches { AreReaches (length rects.now) reaches.now }
    requires edge { times.now.edge ≤ 1024 }
    requires early { times.now.early ≤ times.now.edge }
    requires late { times.now.late ≤ times.now.edge }
    requires few { length reaches.now ≤ 2048 }
    requires some { 0 < length reaches.now }
    requires near { t < length reaches.now + 2 * times.now.edge }
    requires may { MayMove rects.now reaches.now inner.old (t - (times.now.edge + times.now.late)) (min (t + times.now.early - times.now.edge) (length reaches.now - 1)) }
    ensures shown { result ≡ (nat_le times.now.edge (t + times.now.early) && nat_le t (length reaches.now - 1 + times.now.edge + times.now.late)) }
    ensures moved { result ≡ true → IsMoved rects.now reaches.now inner.new (t - (times.now.edge + times.now.late)) (min (t + times.now.early - times.now.edge) (length reaches.now - 1)) }
    ensures may { MayMove rects.now reaches.now inner.new (t + 1 - (times.now.edge + times.now.late)) (min (t + 1 + times.now.early - times.now.edge) (length reaches.now - 1)) }
{
    let (early, late, edge) = (
        times.early as usize,
        times.late as usize,
        times.edge as usize,
    );
    let end = reaches.len() - 1;
    if t + early < edge || end + edge + late < t {
        return false;
    }
    let high = (t + early - edge).min(end);
    move_on(
        inner,
        rects,
        is_steady,
        reaches,
        t.saturating_sub(edge + late),
        high,
    );
    true
}

const NO_ROWS: [u64; 64] = [0; 64];

// The rows, or others that have no tile.
#[inline]
fn rows_or(shown: bool, rows: &[u64; 64]) -> &[u64; 64]
    ensures { result.now ≡ (if shown then rows.now else replicate 64 0) }
{
    if shown { rows } else { &NO_ROWS }
}

// How many tiles a side of the layout's grid has, and the layout's times.
fn side_and_times(layout: &Layout) -> (u8, Times)
    ensures n { result.0 ≡ layout.now.grid.n }
    ensures times { result.1 ≡ layout.now.times }
    ensures valid { IsTimes result.1 }
{
    let ground = layout.ground();
    (ground.grid().n as u8, ground.times())
}

// The step t of a trial, counted from its edge buffer on, as a step of the manager.
#[inline]
fn step_at(arrive: usize, edge: usize, t: usize) -> u32
    requires late { edge ≤ arrive + t }
    requires fits { arrive + t < 4294967296 }
    ensures { result ≡ arrive + t - edge }
{
    (arrive + t - edge) as u32
}

// Writes the cells of step t of a trial, counted from its edge buffer on, behind those of the steps before it.
fn write_next(
    sheet: &mut Sheet,
    windows: &mut Windows,
    layout: &Layout,
    params: &Params,
    fast: bool,
    rects: &[TileRect],
    is_steady: bool,
    reaches: &[Reach],
    t: usize,
) -> Result<(), SheetFull>
    requires trial { IsTrial layout.now params.now fast rects.now reaches.now }
    requires steady { is_steady ≡ true → AreSteady rects.now }
    requires near { t < length reaches.now + 2 * layout.now.times.edge }
    requires written { IsWritten layout.now params.now fast rects.now reaches.now windows.old.outer windows.old.inner sheet.old.spans t }
    requires fits { length sheet.old.spans ≤ sheet.old.room }
    ensures written { OnOk result (IsWritten layout.now params.now fast rects.now reaches.now windows.new.outer windows.new.inner sheet.new.spans (t + 1)) }
    ensures fits { OnOk result (length sheet.new.spans ≤ sheet.new.room) }
    ensures full { OnErr result (sheet.old.room < span_count layout.now params.now fast) }
    ensures room { sheet.new.room ≡ sheet.old.room }
{
    let (n, times) = side_and_times(layout);
    let edge = times.edge as usize;
    let (first, last) = move_outer(&mut windows.outer, rects, is_steady, reaches, edge, t);
    let shown = move_inner(&mut windows.inner, rects, is_steady, reaches, &times, t);
    let rows = rows_or(shown, &windows.inner.rows);
    let step = step_at(params.arrive as usize, edge, t);
    write_step(sheet, n, step, first, last, rows, &windows.outer.rows)
}

// Writes the cells of a trial into an empty sheet, step by step, with windows that stand on the first rectangle.
fn write_steps(
    sheet: &mut Sheet,
    windows: &mut Windows,
    layout: &Layout,
    params: &Params,
    fast: bool,
    rects: &[TileRect],
    is_steady: bool,
    reaches: &[Reach],
) -> Result<(), SheetFull>
    requires inner { IsFirst rects.now windows.old.inner }
    requires outer { IsFirst rects.now windows.old.outer }
    requires trial { IsTrial layout.now params.now fast rects.now reaches.now }
    requires steady { is_steady ≡ true → AreSteady rects.now }
    requires empty { sheet.old.spans ≡ [] }
    ensures cells { OnOk result (HaveCells layout.now params.now fast sheet.new.spans) }
    ensures count { OnOk result (length sheet.new.spans ≡ span_count layout.now params.now fast) }
    ensures fits { OnOk result (length sheet.new.spans ≤ sheet.new.room) }
    ensures full { OnErr result (sheet.old.room < span_count layout.now params.now fast) }
    ensures room { sheet.new.room ≡ sheet.old.room }
{
    let (_, times) = side_and_times(layout);
    let edge = times.edge as usize;
    let first = edge.saturating_sub(params.arrive as usize);
    for t in first..reaches.len() + 2 * edge {
        write_next(
            sheet, windows, layout, params, fast, rects, is_steady, reaches, t,
        )?;
    }
    Ok(())
}

// Writes the cells of a trial into an empty sheet.
fn write_cells(
    sheet: &mut Sheet,
    layout: &Layout,
    params: &Params,
    fast: bool,
    rects: &[TileRect],
    is_steady: bool,
    reaches: &[Reach],
) -> Result<(), SheetFull>
    requires trial { IsTrial layout.now params.now fast rects.now reaches.now }
    requires steady { is_steady ≡ true → AreSteady rects.now }
    requires empty { sheet.old.spans ≡ [] }
    ensures cells { OnOk result (HaveCells layout.now params.now fast sheet.new.spans) }
    ensures count { OnOk result (length sheet.new.spans ≡ span_count layout.now params.now fast) }
    ensures fits { OnOk result (length sheet.new.spans ≤ sheet.new.room) }
    ensures full { OnErr result (sheet.old.room < span_count layout.now params.now fast) }
    ensures room { sheet.new.room ≡ sheet.old.room }
{
    let mut windows = Windows {
        inner: TileWindow::first(rects),
        outer: TileWindow::first(rects),
    };
    write_steps(
        sheet,
        &mut windows,
        layout,
        params,
        fast,
        rects,
        is_steady,
        reaches,
    )
}

/// Writes the cells of a trial into an empty sheet, and says how many crossing steps it has.
pub fn write_trial(
    sheet: &mut Sheet,
    layout: &Layout,
    params: &Params,
    fast: bool,
    path: &Path,
    rects: &[TileRect],
    is_steady: bool,
) -> Result<u32, SheetFull>
    requires valid { IsValid layout.now }
    requires good { bad_crossing layout.now params.now ≡ None }
    requires tried { IsTried layout.now params.now fast }
    requires found { path_of layout.now params.now.lane params.now.turn ≡ Some path.now }
    requires round { AreRectsOf layout.now.grid (ceil_div params.now.width 2 + layout.now.grid.spacing + layout.now.grid.fixed) (stations layout.now params.now.lane params.now.turn) rects.now }
    requires steady { is_steady ≡ true → AreSteady rects.now }
    requires empty { sheet.old.spans ≡ [] }
    ensures cells { OnOk result (HaveCells layout.now params.now fast sheet.new.spans) }
    ensures spans { OnOk result (length sheet.new.spans ≡ span_count layout.now params.now fast) }
    ensures steps { IfOk result (λ steps. steps ≡ crossing_steps layout.now params.now fast) }
    ensures fits { OnOk result (span_count layout.now params.now fast ≤ sheet.old.room) }
    ensures full { OnErr result (sheet.old.room < span_count layout.now params.now fast) }
    ensures room { sheet.new.room ≡ sheet.old.room }
{
    let mut reaches = [Reach { low: 0, high: 0 }; 2048];
    let count = fill_reaches(layout, params, fast, path.parts(), &mut reaches);
    write_cells(
        sheet,
        layout,
        params,
        fast,
        rects,
        is_steady,
        &reaches[..count],
    )?;
    Ok(count as u32)
}
