//! How long it takes to prepare requests: a mix of vehicles on the twelve lanes of a realistic layout, with its buffers.

ghost use Rattle.std.specs.Prelude.{◌≡◌, ◌<◌, ◌≤◌};
ghost use Rattle.aim_requests.specs.Shapes.{ArePreparedFor};

use aim_layout::{Layout, PolicyKind};
use aim_messages::{Body, Message, Params, Turn};
use aim_requests::{Prepared, Shapes, prepare};
use aim_sheets::Pool;
use anyhow::{Context, Result};
use bench_day::{nanoseconds, twelve_lanes};
use std::alloc::Global;
use std::time::{Clock, Instant};

// How many shapes are kept: more than the mix of vehicles has.
const SHAPES: u32 = 1024;

// The request of a round: the lanes in turn, with one of 61 speeds.
fn request(round: u64) -> Message {
    let turn = match round % 3 {
        0 => Turn::Left,
        1 => Turn::Straight,
        _ => Turn::Right,
    };
    let params = Params {
        lane: (round % 12) as u8,
        turn,
        arrive: 1000 + (round % 100) as u32,
        latest: 1000 + (round % 100) as u32,
        speed: 200 + (round % 61) as u32,
        max_speed: 300,
        accel: 2,
        length: 4500,
        width: 1900,
        emergency: false,
    };
    Message {
        seq: 1,
        body: Body::Request(params),
    }
}

// How many spans a prepared request has.
fn count_spans(prepared: &Prepared) -> u64 {
    let fast = match prepared.cells_a() {
        Some(sheet) => sheet.spans().len(),
        None => 0,
    };
    let steady = match prepared.cells_b() {
        Some(sheet) => sheet.spans().len(),
        None => 0,
    };
    (fast as u64).saturating_add(steady as u64)
}

// Prepares the request of a round: the number of its spans, and the nanoseconds. None is where the clock can't be read.
fn prepare_one(rt: &impl Clock, layout: &Layout, pool: &mut Pool, round: u64) -> Option<(u64, u64)>
    requires count { pool.old.count ≡ 2 }
    requires room { pool.old.room ≡ layout.now.grid.spans }
    ensures count { pool.new.count ≡ 2 }
    ensures room { pool.new.room ≡ layout.now.grid.spans }
{
    let message = request(round);
    let Ok(first) = pool.take() else {
        unreachable!()
    };
    let Ok(second) = pool.take() else {
        unreachable!()
    };
    let start = Instant::now(rt).ok();
    let prepared = prepare(layout, &message, first, second);
    let end = Instant::now(rt).ok();
    let spans = count_spans(&prepared);
    prepared.give_back(pool);
    Some((spans, nanoseconds(start, end)?))
}

// Prepares so many requests: the number of their spans, and the nanoseconds. None is where the clock can't be read.
fn prepare_all(rt: &impl Clock, layout: &Layout, pool: &mut Pool, rounds: u64) -> Option<(u64, u64)>
    requires count { pool.old.count ≡ 2 }
    requires room { pool.old.room ≡ layout.now.grid.spans }
{
    let mut spans = 0u64;
    let mut nanos = 0u64;
    for round in 0..rounds {
        let (more, time) = prepare_one(rt, layout, pool, round)?;
        spans = spans.saturating_add(more);
        nanos = nanos.saturating_add(time);
    }
    Some((spans, nanos))
}

// Prepares the request of a round from the shapes: the number of its spans, and the nanoseconds. None is where the clock
// can't be read.
fn prepare_known(
    rt: &impl Clock,
    layout: &Layout,
    shapes: &mut Shapes,
    pool: &mut Pool,
    round: u64,
) -> Option<(u64, u64)>
    requires known { ArePreparedFor layout.now shapes.old }
    requires count { pool.old.count ≡ 2 }
    requires room { pool.old.room ≡ layout.now.grid.spans }
    ensures known { ArePreparedFor layout.now shapes.new }
    ensures count { pool.new.count ≡ 2 }
    ensures room { pool.new.room ≡ layout.now.grid.spans }
{
    let message = request(round);
    let start = Instant::now(rt).ok();
    let prepared = shapes.prepare_from(layout, &message, pool);
    let end = Instant::now(rt).ok();
    let spans = count_spans(&prepared);
    prepared.give_back(pool);
    Some((spans, nanoseconds(start, end)?))
}

// Prepares so many requests from the shapes: the number of their spans, and the nanoseconds. None is where the clock can't
// be read.
fn prepare_all_known(
    rt: &impl Clock,
    layout: &Layout,
    shapes: &mut Shapes,
    pool: &mut Pool,
    rounds: u64,
) -> Option<(u64, u64)>
    requires known { ArePreparedFor layout.now shapes.old }
    requires count { pool.old.count ≡ 2 }
    requires room { pool.old.room ≡ layout.now.grid.spans }
    ensures known { ArePreparedFor layout.now shapes.new }
    ensures count { pool.new.count ≡ 2 }
    ensures room { pool.new.room ≡ layout.now.grid.spans }
{
    let mut spans = 0u64;
    let mut nanos = 0u64;
    for round in 0..rounds {
        let (more, time) = prepare_known(rt, layout, shapes, pool, round)?;
        spans = spans.saturating_add(more);
        nanos = nanos.saturating_add(time);
    }
    Some((spans, nanos))
}

// Prepares so many requests on the twelve lanes, each by itself: the number of their spans, and the nanoseconds.
fn measure(rt: &impl Clock, alloc: Global, layout: &Layout, rounds: u64) -> Result<(u64, u64)> {
    let mut pool = Pool::new(alloc, 2, layout.ground().grid().spans)?;
    let measured = prepare_all(rt, layout, &mut pool, rounds);
    measured.context("the clock can't be read")
}

// Prepares so many requests twice, with the shapes that are kept: what the second time gives.
fn measure_known(
    rt: &impl Clock,
    alloc: Global,
    layout: &Layout,
    rounds: u64,
) -> Result<(u64, u64)> {
    let mut pool = Pool::new(alloc, 2, layout.ground().grid().spans)?;
    let mut shapes = Shapes::new(alloc, layout, SHAPES)?;
    let _first = prepare_all_known(rt, layout, &mut shapes, &mut pool, rounds);
    let measured = prepare_all_known(rt, layout, &mut shapes, &mut pool, rounds);
    measured.context("the clock can't be read")
}

/// Prepares so many requests, at least twelve, each by itself and then from shapes that are kept, and prints how many spans
/// they have. Where a number was asked for, it prints the times of one too.
pub fn run(rt: &HostRuntime, asked: Option<u32>) -> Result<()> {
    let rounds = u64::from(asked.unwrap_or(0)).max(12);
    let layout = twelve_lanes(rt.alloc(), PolicyKind::Fcfs)?;
    let (spans, alone) = measure(rt, rt.alloc(), &layout, rounds)?;
    let (same, known) = measure_known(rt, rt.alloc(), &layout, rounds)?;
    println!(rt; "spans: {spans} by themselves, {same} from shapes")?;
    if asked.is_some() {
        println!(rt;
            "nanoseconds a request: {} by itself, {} from shapes",
            alone / rounds,
            known / rounds
        )?;
    }
    Ok(())
}
