//! The layout of generated traffic: four arms, each with three lanes.

ghost use Rattle.std.specs.Prelude.{◌≡◌, ◌<◌, ◌+◌, IfOk, slice_get, Some};
ghost use Rattle.aim_layout.specs.Added.{AddMove};
ghost use Rattle.aim_script.specs.Said.{layout_of};
ghost use Rattle.aim_drive_command.specs.Arms.{layout_lines};
ghost use Rattle.aim_drive_command.specs.Laid.{laid, shape_between, ways};

use aim_geometry::{Grid, Ground, Times};
use aim_layout::{Builder, Layout, LayoutFault, PolicyKind, Shape};
use aim_messages::Turn;
use aim_report::NoMemory;
use std::alloc::Global;

const GRID: Grid = Grid {
    side: 24000,
    n: 48,
    spacing: 100,
    fixed: 250,
    half: 1200,
    spans: 8192,
};

const TIMES: Times = Times {
    horizon: 3000,
    longest: 100,
    clearance: 100,
    early: 2,
    late: 2,
    edge: 5,
    window: 0,
};

// A place on the ground, in millimetres.
type Place = (u32, u32);

// A lane's move: the lane, the turn, where the way begins, what pulls it if it is a curve, where it ends, and its parts.
type Way = (u32, Turn, Place, Option<Place>, Place, u32);

// The moves from the west, the south, the east and the north.
const WAYS: [Way; 12] = [
    (
        0,
        Turn::Left,
        (0, 10500),
        Some((13500, 10500)),
        (13500, 24000),
        280,
    ),
    (1, Turn::Straight, (0, 7500), None, (24000, 7500), 240),
    (2, Turn::Right, (0, 4500), Some((4500, 4500)), (4500, 0), 95),
    (
        3,
        Turn::Left,
        (13500, 0),
        Some((13500, 13500)),
        (0, 13500),
        280,
    ),
    (4, Turn::Straight, (16500, 0), None, (16500, 24000), 240),
    (
        5,
        Turn::Right,
        (19500, 0),
        Some((19500, 4500)),
        (24000, 4500),
        95,
    ),
    (
        6,
        Turn::Left,
        (24000, 13500),
        Some((10500, 13500)),
        (10500, 0),
        280,
    ),
    (7, Turn::Straight, (24000, 16500), None, (0, 16500), 240),
    (
        8,
        Turn::Right,
        (24000, 19500),
        Some((19500, 19500)),
        (19500, 24000),
        95,
    ),
    (
        9,
        Turn::Left,
        (10500, 24000),
        Some((10500, 10500)),
        (24000, 10500),
        280,
    ),
    (10, Turn::Straight, (7500, 24000), None, (7500, 0), 240),
    (
        11,
        Turn::Right,
        (4500, 24000),
        Some((4500, 19500)),
        (0, 19500),
        95,
    ),
];

// The shape of a way: a curve where something pulls it.
fn shape_between(start: Place, pull: Option<Place>, end: Place, m: u32) -> Shape
    ensures { result ≡ shape_between start pull end m }
{
    let (x0, y0) = start;
    let (x, y) = end;
    match pull {
        None => Shape::Line {
            x0,
            y0,
            x1: x,
            y1: y,
            m,
        },
        Some((x1, y1)) => Shape::Curve {
            x0,
            y0,
            x1,
            y1,
            x2: x,
            y2: y,
            m,
        },
    }
}

// The layout with no move and no policy.
fn bare(alloc: Global) -> Result<Builder, NoMemory>
    ensures { IfOk result (λ b. b ≡ laid 0) }
{
    let ground = match Ground::build(GRID, TIMES) {
        Ok(ground) => ground,
        Err(_) => unreachable!(),
    };
    match Builder::new(alloc, ground, 12, 1) {
        Ok(builder) => Ok(builder),
        Err(LayoutFault::NoMemory) => Err(NoMemory),
        Err(_) => unreachable!(),
    }
}

// The move of that place in the table.
fn way(place: usize) -> (u32, Turn, Shape)
    requires { place < 12 }
    ensures { slice_get ways place ≡ Some (AddMove result.0 result.1 result.2) }
{
    let (lane, turn, start, pull, end, parts) = &WAYS[place];
    (*lane, *turn, shape_between(*start, *pull, *end, *parts))
}

// Adds the move of that place.
fn add_way(builder: &mut Builder, place: usize)
    requires place { place < 12 }
    requires laid { builder.old ≡ laid place }
    ensures { builder.new ≡ laid (place + 1) }
{
    let (lane, turn, shape) = way(place);
    match builder.add_move(lane, turn, shape) {
        Ok(()) => {}
        Err(_) => unreachable!(),
    }
}

// The layout with its moves, and a policy.
fn finished(mut builder: Builder) -> Layout
    requires { builder ≡ laid 12 }
    ensures { result ≡ layout_of layout_lines }
{
    match builder.add_policy(PolicyKind::Fcfs) {
        Ok(()) => {}
        Err(_) => unreachable!(),
    }
    match builder.finish() {
        Ok(layout) => layout,
        Err(_) => unreachable!(),
    }
}

/// The layout.
pub(crate) fn of_four_arms(alloc: Global) -> Result<Layout, NoMemory>
    ensures { IfOk result (λ l. l ≡ layout_of layout_lines) }
{
    let mut builder = bare(alloc)?;
    for place in 0..WAYS.len() {
        add_way(&mut builder, place);
    }
    Ok(finished(builder))
}
