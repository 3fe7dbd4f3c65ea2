//! Times single parts of the manager: the texts of entries and lines, JSON text, the table of tiles, crossings, and the
//! book.
//!
//! `bench_parts text N`, `json N`, `tiles N`, `crossings N` and `book VEHICLES TURNS` measure one of them and print the
//! times. Without numbers a few of its calls are made and no time is printed, and with no words a few of each.
#![tactic(auto)]

mod book;
mod crossings;
mod entries;
mod json;
mod text;
mod tiles;
mod words;

use anyhow::Result;
use std::env;
use words::{PARTS, Part, number, numbers, part_of};

// Measures one part, with the numbers that the words ask for.
fn measure(rt: &HostRuntime, part: Part, words: &[String]) -> Result<()> {
    match part {
        Part::Text => text::measure_text(rt, number(words)?),
        Part::Json => json::measure_json(rt, rt.alloc(), number(words)?),
        Part::Tiles => tiles::run(rt, number(words)?),
        Part::Crossings => crossings::run(rt, number(words)?),
        Part::Book => book::run(rt, numbers(words)?),
    }
}

// Measures a few calls of each part.
fn measure_all(rt: &HostRuntime) -> Result<()> {
    for &(_, part) in &PARTS {
        measure(rt, part, &[])?;
    }
    Ok(())
}

// Measures what the words ask for.
fn run(rt: &HostRuntime, words: &[String]) -> Result<()> {
    match words {
        [word, numbers @ ..] => measure(rt, part_of(word.as_str())?, numbers),
        [] => measure_all(rt),
    }
}

fn main(rt: HostRuntime) -> Result<()> {
    let words = env::args(&rt)?.skip(1).collect::<Vec<String>>(rt.alloc())?;
    run(&rt, &words)
}
