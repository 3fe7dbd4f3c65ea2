//! How long a table takes to look for taken cells and to claim sheets of a thousand spans: one `first_taken` that finds
//! nothing, and one `claim`.

ghost use Rattle.std.specs.Prelude.{◌≡◌, ◌^◌, ◌<◌, length};
ghost use Rattle.std.specs.Bool.{OnTrue};
ghost use Rattle.bench_parts.specs.Ready.{AreReady};

use aim_sheets::{Pool, Sheet, Span};
use aim_tiles::{Steps, Table};
use anyhow::{Context, Result};
use bench_day::nanoseconds;
use std::alloc::{AllocError, Global};
use std::marker::Brand;
use std::sync::ledger::{Blank, Ledger};
use std::time::{Clock, Instant};

// How many sheets lie side by side, each in eight columns of 48.
const SHEETS: u32 = 6;

// Fills a sheet with a thousand spans: seven rows in each step, which move up slowly.
fn fill(sheet: &mut Sheet, lane: u32)
    requires { lane < 8 }
{
    sheet.clear();
    for k in 0..1000u32 {
        let span = Span {
            step: k / 7,
            row: (k / 35 + k % 7) as u8,
            mask: 0xff << (8 * lane),
        };
        if span.mask != 0 {
            let _ = sheet.push(span);
        }
    }
}

// Takes and fills the sheets that the pool has, and puts them in a list, as far as there is memory.
fn take_sheets(pool: &mut Pool, sheets: &mut Vec<Sheet>) {
    for lane in 0..SHEETS {
        if let Ok(mut sheet) = pool.take() {
            fill(&mut sheet, lane);
            let _ = sheets.push(sheet);
        }
    }
}

// The sheets, in a list: fewer than so many where there is no memory for the list.
fn make_sheets(alloc: Global) -> Result<Vec<Sheet>, AllocError> {
    let mut pool = Pool::new(alloc, SHEETS, 1000)?;
    let mut sheets = Vec::new(alloc);
    take_sheets(&mut pool, &mut sheets);
    Ok(sheets)
}

// Whether the table has all cells of the sheets.
fn are_ready<L: Ledger>(table: &Table<L>, sheets: &[Sheet]) -> bool
    ensures { OnTrue result (AreReady table.now sheets.now) }
{
    for sheet in sheets {
        if !table.has_tiles(sheet) || !table.has_steps(sheet) {
            return false;
        }
    }
    true
}

// Claims all sheets, and says how many were free.
fn claim_all<L: Ledger>(table: &mut Table<L>, sheets: &[Sheet], steps: &mut Steps<L>) -> u32
    requires ready { AreReady table.old sheets.now }
    requires few { length sheets.now < 2 ^ 32 }
    ensures rest { table.new ≡ record table.old { cells = table.new.cells } }
{
    let mut free = 0;
    for sheet in sheets {
        if table.first_taken(sheet, None, steps).is_none() {
            free += 1;
        }
        table.claim(sheet, steps);
    }
    free
}

// Lets go of all sheets.
fn release_all<L: Ledger>(table: &mut Table<L>, sheets: &[Sheet], steps: &mut Steps<L>)
    requires ready { AreReady table.old sheets.now }
    ensures rest { table.new ≡ record table.old { cells = table.new.cells } }
{
    for sheet in sheets {
        table.release(sheet, steps);
    }
}

// Claims the sheets so many times, and gives how many were free, and the nanoseconds. None is where the sheets don't fit
// the table, or the clock can't be read.
fn claim_rounds<L: Ledger>(
    rt: &impl Clock,
    table: &mut Table<L>,
    sheets: &[Sheet],
    steps: &mut Steps<L>,
    rounds: u64,
) -> Option<(u64, u64)> {
    if sheets.len() != SHEETS as usize || !are_ready(table, sheets) {
        return None;
    }
    let mut free = 0u64;
    let mut nanos = 0u64;
    for _ in 0..rounds {
        let start = Instant::now(rt).ok();
        let claimed = claim_all(table, sheets, steps);
        let end = Instant::now(rt).ok();
        free = free.saturating_add(claimed as u64);
        nanos = nanos.saturating_add(nanoseconds(start, end)?);
        release_all(table, sheets, steps);
    }
    Some((free, nanos))
}

// Claims the sheets so many times, and gives how many were free, and the nanoseconds.
fn measure<L: Ledger>(
    rt: &impl Clock,
    alloc: Global,
    blank: Blank,
    rounds: u64,
) -> Result<(u64, u64)>
    requires name { blank.name ≡ L.name }
    requires parts { blank.parts ≡ L.parts }
    requires some { 0 < blank.parts }
{
    let sheets = make_sheets(alloc)?;
    let mut table = Table::<L>::new(alloc, 48, 256)?;
    let mut steps = Steps::<L>::new(blank);
    let measured = claim_rounds(rt, &mut table, &sheets, &mut steps, rounds);
    measured.context("the sheets don't fit the table, or the clock can't be read")
}

/// Claims the sheets so many times, or once, and prints how many were free. Where a number was asked for, it prints the
/// time of one too.
pub fn run(rt: &HostRuntime, asked: Option<u32>) -> Result<()> {
    let rounds = u64::from(asked.unwrap_or(0));
    let (free, nanos) = measure::<Brand>(rt, rt.alloc(), Blank::new(1), rounds.max(1))?;
    println!(rt; "free sheets: {free}")?;
    if rounds > 0 {
        println!(rt; "nanoseconds a sheet: {}", nanos / free.max(1))?;
    }
    Ok(())
}
