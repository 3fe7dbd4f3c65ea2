//! How long it takes to prepare and to serve the calls of a day, on the twelve lanes of a realistic layout, with its
//! buffers: without lights, with lights, and with emergencies.

ghost use Rattle.std.specs.Prelude.{◌≡◌, ◌<◌};

use aim_book::Book;
use aim_layout::PolicyKind;
use aim_messages::{LATEST_MOMENT, Message, Reply};
use aim_requests::prepare;
use aim_sheets::Pool;
use aim_tiles::Steps;
use anyhow::{Context, Result, anyhow};
use bench_day::{CALLS, SPANS, held_after, message, moment, nanoseconds, twelve_lanes};
use std::alloc::Global;
use std::io;
use std::marker::Brand;
use std::sync::ledger::{Blank, Ledger};
use std::time::{Clock, Instant};

// The days, by their policies.
const DAYS: [(&str, PolicyKind); 3] = [
    ("plain", PolicyKind::Fcfs),
    ("lights", PolicyKind::Light),
    ("emergencies", PolicyKind::Emerg),
];

/// What a day has had, and what it took, in nanoseconds.
#[derive(Clone, Copy)]
struct Tally {
    calls: u64,
    confirms: u64,
    sum: u64,
    prepare: u64,
    serve: u64,
}

// What a day has had before it begins.
const NOTHING: Tally = Tally {
    calls: 0,
    confirms: 0,
    sum: 0,
    prepare: 0,
    serve: 0,
};

impl Tally {
    // Counts one call, and its times. None is where the clock couldn't be read.
    fn add(&mut self, reply: &Reply, prepare: Option<u64>, serve: Option<u64>) -> Option<()> {
        let number = match reply {
            Reply::Confirm { last, .. } => u64::from(*last) << 1,
            Reply::Reject { next, .. } => u64::from(*next) << 1 | 1,
            _ => 3,
        };
        self.calls = self.calls.saturating_add(1);
        self.confirms = self
            .confirms
            .saturating_add(matches!(reply, Reply::Confirm { .. }) as u64);
        self.sum = self.sum.wrapping_mul(31).wrapping_add(number);
        self.prepare = self.prepare.saturating_add(prepare?);
        self.serve = self.serve.saturating_add(serve?);
        Some(())
    }
}

// Prepares and serves one message, and counts it. None is where the call may not be made, finds no sheet or the journal
// full, or the clock can't be read.
fn call<L: Ledger>(
    rt: &impl Clock,
    book: &mut Book<L>,
    vehicle: u32,
    now: u32,
    message: &Message,
    pool: &mut Pool,
    steps: &mut Steps<L>,
    tally: &mut Tally,
) -> Option<Reply> {
    let spans = book.layout().ground().grid().spans;
    let count = pool.count();
    if vehicle >= book.vehicles()
        || now > LATEST_MOMENT
        || pool.room() != spans
        || count < 2
        || count > 1_000_000
    {
        return None;
    }
    let Ok(first) = pool.take() else {
        unreachable!()
    };
    let Ok(second) = pool.take() else {
        unreachable!()
    };
    let start = Instant::now(rt).ok();
    let prepared = prepare(book.layout(), message, first, second);
    let middle = Instant::now(rt).ok();
    let reply = book.serve(vehicle, now, prepared, pool, steps).ok()?;
    let end = Instant::now(rt).ok();
    tally.add(&reply, nanoseconds(start, middle), nanoseconds(middle, end))?;
    Some(reply)
}

// Makes the calls of all turns.
fn make_turns<L: Ledger>(
    rt: &impl Clock,
    book: &mut Book<L>,
    pool: &mut Pool,
    steps: &mut Steps<L>,
    held: &mut [Option<u32>],
    vehicles: u32,
    turns: u32,
) -> Option<Tally> {
    let mut tally = NOTHING;
    for number in 0..turns.saturating_mul(CALLS) {
        let turn = number / CALLS;
        let vehicle = turn.checked_rem(vehicles).unwrap_or(0);
        let own = held.get(vehicle as usize).copied().unwrap_or(None);
        if let Some(message) = message(turn, number % CALLS, own) {
            let now = moment(turn);
            let reply = call(rt, book, vehicle, now, &message, pool, steps, &mut tally)?;
            if let Some(own) = held.get_mut(vehicle as usize) {
                *own = held_after(&reply);
            }
        }
    }
    Some(tally)
}

// A book over the twelve lanes, under one policy.
fn open<L: Ledger>(alloc: Global, kind: PolicyKind, vehicles: u32) -> Result<Book<L>> {
    let layout = twelve_lanes(alloc, kind)?;
    match Book::<L>::open(alloc, layout, vehicles, 262_144) {
        Ok(book) => Ok(book),
        Err(_) => Err(anyhow!("the book isn't opened")),
    }
}

// The turns of a day, under one policy.
fn pass_day<L: Ledger>(
    rt: &impl Clock,
    alloc: Global,
    blank: Blank,
    kind: PolicyKind,
    vehicles: u32,
    turns: u32,
) -> Result<Tally>
    requires name { blank.name ≡ L.name }
    requires parts { blank.parts ≡ L.parts }
    requires some { 0 < blank.parts }
{
    let most = vehicles.min(65_536);
    let mut pool = Pool::new(alloc, most + 2, SPANS)?;
    let mut held = vec![in alloc; None; most as usize]?;
    let mut book = open::<L>(alloc, kind, vehicles)?;
    let mut steps = Steps::<L>::new(blank);
    let tally = make_turns(
        rt, &mut book, &mut pool, &mut steps, &mut held, vehicles, turns,
    );
    let _journal = book.into_journal();
    tally.context("the journal is full, no sheet is left, or the clock can't be read")
}

// Prints what a day has had, and the times where they were asked for.
fn tell(rt: &impl Print, name: &str, tally: &Tally, is_timed: bool) -> io::Result<()> {
    println!(rt;
        "{name}: calls {} confirms {} sum {}",
        tally.calls, tally.confirms, tally.sum
    )?;
    if is_timed {
        let calls = tally.calls.max(1);
        println!(rt;
            "nanoseconds a call: prepare {} serve {}",
            tally.prepare / calls,
            tally.serve / calls
        )?;
    }
    Ok(())
}

/// Lets so many vehicles have so many turns, or a few, under each policy, and prints what each day had. Where numbers were
/// asked for, it prints the times of a call too.
pub fn run(rt: &HostRuntime, asked: Option<(u32, u32)>) -> Result<()> {
    let (vehicles, turns) = asked.unwrap_or((16, 40));
    for &(name, kind) in &DAYS {
        let tally = pass_day::<Brand>(rt, rt.alloc(), Blank::new(1), kind, vehicles, turns)?;
        tell(rt, name, &tally, asked.is_some())?;
    }
    Ok(())
}
