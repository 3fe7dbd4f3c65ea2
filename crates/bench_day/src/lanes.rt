//! A realistic layout: twelve lanes on 48 by 48 tiles of half a metre, three from each side, of which the first turns left,
//! the second goes straight and the third turns right.

use aim_geometry::{Grid, Ground, Times};
use aim_layout::{Builder, Layout, PolicyKind, Shape};
use aim_messages::Turn;
use anyhow::{Result, bail};
use std::alloc::Global;

/// How many spans a sheet of the layout has room for.
pub const SPANS: u32 = 8192;

fn line(x0: u32, y0: u32, x1: u32, y1: u32) -> Shape {
    Shape::Line {
        x0,
        y0,
        x1,
        y1,
        m: 240,
    }
}

fn curve(from: (u32, u32), by: (u32, u32), to: (u32, u32), m: u32) -> Shape {
    Shape::Curve {
        x0: from.0,
        y0: from.1,
        x1: by.0,
        y1: by.1,
        x2: to.0,
        y2: to.1,
        m,
    }
}

// The path of a lane. The next side's paths are those of this side, turned by a quarter to the left.
fn path(lane: u32) -> Shape {
    match lane {
        0 => curve((0, 10500), (13500, 10500), (13500, 24000), 280),
        1 => line(0, 7500, 24000, 7500),
        2 => curve((0, 4500), (4500, 4500), (4500, 0), 95),
        3 => curve((13500, 0), (13500, 13500), (0, 13500), 280),
        4 => line(16500, 0, 16500, 24000),
        5 => curve((19500, 0), (19500, 4500), (24000, 4500), 95),
        6 => curve((24000, 13500), (10500, 13500), (10500, 0), 280),
        7 => line(24000, 16500, 0, 16500),
        8 => curve((24000, 19500), (19500, 19500), (19500, 24000), 95),
        9 => curve((10500, 24000), (10500, 10500), (24000, 10500), 280),
        10 => line(7500, 24000, 7500, 0),
        _ => curve((4500, 24000), (4500, 19500), (0, 19500), 95),
    }
}

// The ground, with its buffers.
fn ground() -> Result<Ground> {
    let grid = Grid {
        side: 24000,
        n: 48,
        spacing: 100,
        fixed: 250,
        half: 1200,
        spans: SPANS,
    };
    let times = Times {
        horizon: 3000,
        longest: 100,
        clearance: 100,
        early: 2,
        late: 2,
        edge: 5,
        window: 0,
    };
    match Ground::build(grid, times) {
        Ok(ground) => Ok(ground),
        Err(_) => bail!("the ground has a fault"),
    }
}

// Adds the lanes' paths.
fn add_paths(builder: &mut Builder) -> Result<()> {
    for lane in 0..12 {
        let turn = match lane % 3 {
            0 => Turn::Left,
            1 => Turn::Straight,
            _ => Turn::Right,
        };
        if builder.add_move(lane, turn, path(lane)).is_err() {
            bail!("a path has a fault");
        }
    }
    Ok(())
}

// The lanes of each side, which lights let go in turn.
const SIDES: [u16; 4] = [0b111, 0b111_000, 0b111_000_000, 0b111_000_000_000];

// Adds the policy, and the phases of lights where it has them.
fn add_policy(builder: &mut Builder, kind: PolicyKind) -> Result<()> {
    if builder.add_policy(kind).is_err() {
        bail!("the policy has a fault");
    }
    if kind.has_lights() {
        for lanes in &SIDES {
            if builder.add_phase(100, 400, *lanes).is_err() {
                bail!("a phase has a fault");
            }
        }
    }
    Ok(())
}

// Adds the lanes' paths and the policy.
fn fill(builder: &mut Builder, kind: PolicyKind) -> Result<()> {
    add_paths(builder)?;
    add_policy(builder, kind)
}

/// The layout with one policy. Where that has lights, the lanes of each side are green in turn.
pub fn twelve_lanes(alloc: Global, kind: PolicyKind) -> Result<Layout> {
    let Ok(mut builder) = Builder::new(alloc, ground()?, 12, 3) else {
        bail!("the layout finds no memory");
    };
    fill(&mut builder, kind)?;
    match builder.finish() {
        Ok(layout) => Ok(layout),
        Err(_) => bail!("the layout has a fault"),
    }
}
