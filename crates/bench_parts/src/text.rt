//! Entries' texts that are written, and request lines that are read.

use crate::entries::{entry, tell};
use aim_messages::{Line, entry_text};
use aim_text_lines::read_line;
use anyhow::Result;
use bench_day::milliseconds;
use std::time::{Clock, Instant};

// So many texts are written and read where no number is asked for.
const FEW: u32 = 1_000;

// The two calls.
const CALLS: (&str, &str) = ("entry_text", "read_line");

const LINES: [&[u8]; 4] = [
    b"0 0 request 1 0 straight 10 500 500 0 1000 700 car",
    b"4095 1073741823 request 65535 11 right 1073741824 500 1000 250 4500 1900 car",
    b"17 529 request 3 4 straight 631 247 300 2 4500 1900 car",
    b"3 8 request 2 1 left 18 500 500 0 1000 700 emergency",
];

// Writes the texts of so many entries, and answers how many bytes they have.
fn write(rounds: u32) -> u64 {
    let mut out = [0; 400];
    let mut bytes = 0_u64;
    for round in 0..rounds {
        let len = entry_text(round, &entry(round), &mut out);
        bytes = bytes.saturating_add(len as u64);
    }
    bytes
}

// Reads so many request lines, and answers how many bytes they have.
fn read(rounds: u32) -> u64 {
    let mut bytes = 0_u64;
    for round in 0..rounds {
        let line = LINES[round as usize % LINES.len()];
        if let Ok(Line::Event { .. }) = read_line(line, 1) {
            bytes = bytes.saturating_add(line.len() as u64);
        }
    }
    bytes
}

/// Writes and reads so many texts, or a few, and prints how many bytes they have. Where a number was asked for, it prints
/// the times too.
pub fn measure_text<R: Clock + Print>(rt: &R, asked: Option<u32>) -> Result<()> {
    let rounds = asked.unwrap_or(FEW);
    let start = Instant::now(rt).ok();
    let bytes_written = write(rounds);
    let middle = Instant::now(rt).ok();
    let bytes_read = read(rounds);
    let end = Instant::now(rt).ok();
    tell(rt, CALLS, (bytes_written, bytes_read), "bytes")?;
    if asked.is_some() {
        let times = milliseconds(start, middle, end)?;
        tell(rt, CALLS, times, "ms")?;
    }
    Ok(())
}
