//! Times claims: so many workers, each on a thread of its own, and 64 callers, of which each worker makes the calls of
//! a run of neighbours.
//!
//! `bench_shards apart WORKERS ROUNDS` lets the callers claim and free sets that lie in a quadrant for each worker,
//! four quadrants in turn, and `bench_shards one WORKERS ROUNDS` sets that all lie in one quadrant, so that each call
//! takes the same turn. Prints how many calls there were, and the time of a call. With no words a few calls are made
//! each way, and no time is printed.
#![tactic(auto)]

ghost use Rattle.std.specs.Prelude.{◌≡◌, ◌<◌, ◌≤◌, length, All, IfOk};
ghost use Rattle.aim_shards.specs.Fitting.{AreSheets};
ghost use Rattle.aim_shards.specs.Models.{IsPassOf, IsSamePass};

use aim_shards::{Hold, OpenedShards, Rectangle, ShardPass, Shards, are_fitting, sheets};
use anyhow::{Result, anyhow};
use std::alloc::Global;
use std::env;
use std::sync::Wait;
use std::thread::{self, Threads};
use std::time::{Clock, Instant};

// The rows and columns of the grid.
const SIZE: u32 = 48;

// The steps of the grid.
const HORIZON: u32 = 8192;

// How many callers there are.
const CALLERS: u32 = 64;

// How many calls each caller makes in a round.
const CALLS: u32 = 1024;

// What is timed: workers with sets in all four quadrants, or else in one, and how often.
#[derive(Clone, Copy)]
struct Plan {
    apart: bool,
    workers: u32,
    rounds: u32,
}

// How many callers a worker has at most.
fn run_length(plan: Plan) -> u32
    ensures { (0 < result) × (result ≤ 64) }
{
    CALLERS.div_ceil(plan.workers.clamp(1, CALLERS))
}

// Nothing is done while turns are held.
struct NoHold;

impl Hold for NoHold {
    fn holding(&self, _caller: u32, _call: u32) {}
}

// The caller's own set: four rows and columns of its worker's quadrant in eight steps.
fn rectangle(plan: Plan, caller: u32) -> Rectangle {
    let worker = caller / run_length(plan);
    let quadrant = if plan.apart { worker % 4 } else { 0 };
    let row0 = if quadrant < 2 { 8 } else { 32 };
    let col0 = if quadrant % 2 == 0 { 8 } else { 32 };
    let from = (caller % 64) * 8;
    Rectangle {
        row0,
        row1: row0 + 3,
        col0,
        col1: col0 + 3,
        from,
        to: from + 7,
    }
}

// The sets of all callers.
fn rectangles(alloc: Global, plan: Plan) -> Result<Vec<Rectangle>>
    ensures { IfOk result (λ v. length v.items ≡ 64) }
{
    let mut all = Vec::with_capacity(alloc, CALLERS as usize)?;
    for caller in 0..CALLERS {
        all.push_reserved(rectangle(plan, caller));
    }
    Ok(all)
}

// Claims the caller's set and frees it, again and again.
fn calls<R: Wait>(rt: &R, shards: &Shards, pass: &mut ShardPass)
    requires own { IsPassOf shards.now pass.old }
    requires set { pass.old.number < length shards.now.sets }
    ensures same { IsSamePass pass.old pass.new }
{
    let set = pass.number();
    for _ in 0..CALLS / 2 {
        let Ok(claimed) = shards.claim(rt, pass, set, &NoHold) else {
            return;
        };
        let Ok(_) = shards.free(rt, pass, claimed.ticket, &NoHold) else {
            return;
        };
    }
}

// Makes the calls of all callers, in runs of neighbours, each run in a thread of its own.
fn all_calls<R: Threads + Wait + Sync>(
    rt: &R,
    shards: &Shards,
    passes: &mut [ShardPass],
    workers: u32,
)
    requires own { All (λ p. IsPassOf shards.now p × (p.number < length shards.now.sets)) passes.old }
{
    thread::for_each_mut(
        rt,
        passes,
        workers.max(1) as usize,
        &|_place: usize, pass: &mut ShardPass|
            requires { IsPassOf shards.now pass.now × (pass.now.number < length shards.now.sets) }
        { calls(rt, shards, pass) },
    );
}

// Shards over the sets of all callers, with a pass for each.
fn open(alloc: Global, plan: Plan) -> Result<OpenedShards>
    ensures own { IfOk result (λ o. All (λ p. IsPassOf o.shards p × (p.number < length o.shards.sets)) o.passes.items) }
{
    let rectangles = rectangles(alloc, plan)?;
    if !are_fitting(SIZE, HORIZON, &rectangles) {
        return Err(anyhow!("the sets don't fit"));
    }
    let sets = sheets(alloc, SIZE, HORIZON, &rectangles)?;
    match Shards::open(alloc, SIZE, HORIZON, sets, CALLERS, CALLS) {
        Ok(opened) => Ok(opened),
        Err(_) => Err(anyhow!("the shards aren't opened")),
    }
}

// Opens shards and makes all calls. Gives the nanoseconds that the calls took.
fn one_round<R: Threads + Wait + Sync + Clock>(rt: &R, alloc: Global, plan: Plan) -> Result<u128> {
    let opened = open(alloc, plan)?;
    let OpenedShards { shards, mut passes } = opened;
    let start = Instant::now(rt).ok();
    all_calls(rt, &shards, &mut passes, plan.workers);
    let end = Instant::now(rt).ok();
    match (start, end) {
        (Some(start), Some(end)) => Ok(end.duration_since(start).as_nanos()),
        _ => Err(anyhow!("the clock can't be read")),
    }
}

// The nanoseconds that all rounds took.
fn all_rounds<R: Threads + Wait + Sync + Clock>(rt: &R, alloc: Global, plan: Plan) -> Result<u128> {
    let mut nanoseconds = 0u128;
    for _ in 0..plan.rounds {
        nanoseconds = nanoseconds.saturating_add(one_round(rt, alloc, plan)?);
    }
    Ok(nanoseconds)
}

// What the words ask for, if they ask for something.
fn read(words: &[String]) -> Result<Option<Plan>> {
    match words {
        [way, workers, rounds, ..] => Ok(Some(Plan {
            apart: way.as_str() == "apart",
            workers: workers.parse::<u32>()?,
            rounds: rounds.parse::<u32>()?,
        })),
        _ => Ok(None),
    }
}

// What the words behind the program's name ask for.
fn asked(rt: &HostRuntime, alloc: Global) -> Result<Option<Plan>> {
    let words = env::args(rt)?.skip(1).collect::<Vec<String>>(alloc)?;
    read(&words)
}

// Has the calls made, and prints the time of a call.
fn tell<R: Threads + Wait + Sync + Clock + Print>(rt: &R, alloc: Global, plan: Plan) -> Result<()> {
    let nanoseconds = all_rounds(rt, alloc, plan)?;
    let calls = u128::from(CALLERS) * u128::from(CALLS) * u128::from(plan.rounds);
    let each = nanoseconds / calls.max(1);
    println!(rt; "{calls} calls, {each} ns a call")?;
    Ok(())
}

// Has a few calls made each way.
fn try_both<R: Threads + Wait + Sync + Clock + Print>(rt: &R, alloc: Global) -> Result<()> {
    for apart in [true, false] {
        let few = Plan {
            apart,
            workers: 2,
            rounds: 1,
        };
        all_rounds(rt, alloc, few)?;
    }
    println!(rt; "calls by 2 workers, with a quadrant each and with one")?;
    Ok(())
}

fn main(rt: HostRuntime) -> Result<()> {
    match asked(&rt, rt.alloc())? {
        Some(plan) => tell(&rt, rt.alloc(), plan),
        None => try_both(&rt, rt.alloc()),
    }
}
