//! Times the turn: as many threads as there are callers, each with its calls.
//!
//! Four callers. Arguments: the calls of each, the rounds of work in a call, and the rounds of work that a caller does
//! between two calls. With none it makes a few calls and prints no time.
#![tactic(auto)]

mod register;

ghost use Rattle.std.specs.Prelude.{◌≡◌, All};
ghost use Rattle.aim_turnstile.specs.Models.{IsPassOf, IsSamePass};

use aim_turnstile::{Pass, Turnstile};
use anyhow::{Context, anyhow};
use register::{Register, Work, mixed};
use std::alloc::Global;
use std::sync::Wait;
use std::thread::Threads;
use std::time::{Clock, Instant};
use std::{env, thread};

const CALLERS: u32 = 4;

// What is timed: how many calls each caller makes, and how many rounds of work it does in each and between two.
#[derive(Clone, Copy)]
struct Plan {
    calls: u32,
    rounds: u32,
    between: u32,
}

// A few calls, which no argument asks for.
const FEW: Plan = Plan {
    calls: 25,
    rounds: 10,
    between: 10,
};

// Makes the calls of one caller.
fn calls<R: Wait>(rt: &R, turnstile: &Turnstile<Register>, pass: &mut Pass<Register>, plan: &Plan)
    requires own { IsPassOf turnstile.now pass.old }
    ensures same { IsSamePass pass.old pass.new }
{
    for call in 0..plan.calls {
        let work = Work {
            seed: mixed(call, plan.between),
            rounds: plan.rounds,
        };
        turnstile.with_turn(rt, pass, work);
    }
}

// Makes the calls of all callers, each in a thread of its own.
fn all_calls<R: Threads + Wait + Sync>(
    rt: &R,
    turnstile: &Turnstile<Register>,
    passes: &mut [Pass<Register>],
    plan: &Plan,
)
    requires own { All (λ p. IsPassOf turnstile.now p) passes.old }
    ensures same { All (λ p. p.table ≡ turnstile.now.table) passes.new }
{
    let threads = passes.len().max(1);
    thread::for_each_mut(
        rt,
        passes,
        threads,
        &|_place: usize, pass: &mut Pass<Register>|
            requires { IsPassOf turnstile.now pass.now }
            ensures { IsSamePass pass.entry.now pass.exit.now }
        { calls(rt, turnstile, pass, plan) },
    );
}

// Opens a turnstile, makes all calls, and closes it. Gives how many marks were made, and the nanoseconds that the calls took.
fn run<R: Threads + Wait + Sync + Clock>(
    rt: &R,
    alloc: Global,
    plan: &Plan,
) -> anyhow::Result<(usize, u128)> {
    let room = plan.calls.saturating_mul(CALLERS);
    let register = Register::new(alloc, room)?;
    let (turnstile, mut passes) = Turnstile::open(alloc, register, &[0, 1, 2, 3])?;
    let start = Instant::now(rt).ok();
    all_calls(rt, &turnstile, &mut passes, plan);
    let end = Instant::now(rt).ok();
    let register = turnstile.close(passes);
    match (start, end) {
        (Some(start), Some(end)) => Ok((
            register.marks.len(),
            end.duration_since(start).as_nanos(),
        )),
        _ => Err(anyhow!("the clock can't be read")),
    }
}

// The number that the argument tells.
fn argument(args: &mut env::Args) -> anyhow::Result<u32> {
    let text = args.next().context("an argument is missing")?;
    let number = text.parse::<u32>().context("an argument is no number")?;
    Ok(number)
}

// What the arguments tell, if there are any.
fn told(args: &mut env::Args) -> anyhow::Result<Option<Plan>> {
    args.next();
    if args.len() == 0 {
        return Ok(None);
    }
    Ok(Some(Plan {
        calls: argument(args)?,
        rounds: argument(args)?,
        between: argument(args)?,
    }))
}

// What the program's arguments tell, if there are any.
fn asked(rt: &HostRuntime) -> anyhow::Result<Option<Plan>> {
    let mut args = env::args(rt)?;
    told(&mut args)
}

fn main(rt: HostRuntime) -> anyhow::Result<()> {
    let asked = asked(&rt)?;
    let (marks, nanoseconds) = run(&rt, rt.alloc(), &asked.unwrap_or(FEW))?;
    if asked.is_none() {
        println!(rt; "{marks} marks by {CALLERS} callers")?;
        return Ok(());
    }
    let each = nanoseconds / (marks.max(1) as u128);
    println!(rt; "{marks} marks by {CALLERS} callers, {each} ns a call")?;
    Ok(())
}
