//! Times the two ways to share a book, the manager's turn and the mailbox: as many threads as there are callers, each with
//! its calls, over the twelve lanes of a realistic layout.
//!
//! `bench_manager CALLERS TURNS` lets so many vehicles, each on a thread of its own, take the turns together on one manager,
//! and prints the entries, the Confirms, and the time of a call. `bench_manager mail CALLERS TURNS` does it over a mailbox,
//! with the server on one thread more. With no words a few turns are taken each way, and no time is printed.
#![tactic(auto)]

mod mailbox;
mod turns;

use anyhow::Result;
use bench_day::{Taken, Turns};
use mailbox::over_mailbox;
use std::alloc::Global;
use std::env;
use std::marker::Brand;
use std::sync::Wait;
use std::sync::ledger::Blank;
use std::thread::Threads;
use std::time::Clock;
use turns::over_manager;

// What is measured: the turns of so many callers, over a mailbox or else on a manager.
#[derive(Clone, Copy)]
struct Plan {
    by_mail: bool,
    callers: u32,
    turns: u32,
}

// Has the turns taken.
fn taken<R: Threads + Wait + Sync + Clock>(rt: &R, alloc: Global, plan: Plan) -> Result<Taken> {
    let day = Turns::new(plan.turns);
    if plan.by_mail {
        over_mailbox::<Brand, R>(rt, alloc, Blank::new(1), plan.callers, &day)
    } else {
        over_manager(rt, alloc, plan.callers, &day)
    }
}

// What two words ask for, if they are there.
fn read_numbers(by_mail: bool, words: &[String]) -> Result<Option<Plan>> {
    match words {
        [callers, turns, ..] => Ok(Some(Plan {
            by_mail,
            callers: callers.parse::<u32>()?,
            turns: turns.parse::<u32>()?,
        })),
        _ => Ok(None),
    }
}

// What the words ask for, if they have two numbers.
fn read(words: &[String]) -> Result<Option<Plan>> {
    match words {
        [first, rest @ ..] => {
            if first.as_str() == "mail" {
                read_numbers(true, rest)
            } else {
                read_numbers(false, words)
            }
        }
        [] => Ok(None),
    }
}

// What the words behind the program's name ask for.
fn asked(rt: &HostRuntime, alloc: Global) -> Result<Option<Plan>> {
    let words = env::args(rt)?.skip(1).collect::<Vec<String>>(alloc)?;
    read(&words)
}

// Has the turns taken, and prints the time of a call.
fn tell<R: Threads + Wait + Sync + Clock + Print>(rt: &R, alloc: Global, plan: Plan) -> Result<()> {
    let Taken {
        calls,
        confirms,
        each,
    } = taken(rt, alloc, plan)?;
    println!(rt; "{calls} calls, {confirms} Confirms, {each} ns a call")?;
    Ok(())
}

// Has a few turns taken, and prints how.
fn try_few<R: Threads + Wait + Sync + Clock + Print>(
    rt: &R,
    alloc: Global,
    by_mail: bool,
    way: &str,
) -> Result<()> {
    let (callers, turns) = (2, 40);
    let few = Plan {
        by_mail,
        callers,
        turns,
    };
    taken(rt, alloc, few)?;
    println!(rt; "{turns} turns taken by {callers} callers {way}")?;
    Ok(())
}

// Has a few turns taken each way.
fn try_both<R: Threads + Wait + Sync + Clock + Print>(rt: &R, alloc: Global) -> Result<()> {
    try_few(rt, alloc, false, "on a manager")?;
    try_few(rt, alloc, true, "over a mailbox")
}

fn main(rt: HostRuntime) -> Result<()> {
    match asked(&rt, rt.alloc())? {
        Some(plan) => tell(&rt, rt.alloc(), plan),
        None => try_both(&rt, rt.alloc()),
    }
}
