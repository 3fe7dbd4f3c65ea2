//! Entries that are written, and request lines that are read, as JSON text.

use crate::entries::{entry, tell};
use aim_json::{read_json_line, write_json_entry};
use aim_messages::{Line, NoMemory};
use anyhow::Result;
use bench_day::milliseconds;
use std::alloc::Global;
use std::time::{Clock, Instant};

// So many texts are written and read where no number is asked for.
const FEW: u32 = 100;

// The two calls.
const CALLS: (&str, &str) = ("write_json_entry", "read_json_line");

const LINES: [&[u8]; 4] = [
    b"{\"form\":\"event\",\"message\":{\"accel\":0,\"arrive\":10,\"class\":\"car\",\"kind\":\"request\",\"lane\":0,\"length\":1000,\"max\":500,\"seq\":1,\"speed\":500,\"turn\":\"straight\",\"width\":700},\"moment\":0,\"vehicle\":0}",
    b"{\"form\":\"event\",\"message\":{\"accel\":250,\"arrive\":1073741824,\"class\":\"car\",\"kind\":\"request\",\"lane\":11,\"length\":4500,\"max\":1000,\"seq\":65535,\"speed\":500,\"turn\":\"right\",\"width\":1900},\"moment\":1073741823,\"vehicle\":4095}",
    b"{\"form\":\"event\",\"message\":{\"accel\":2,\"arrive\":631,\"class\":\"car\",\"kind\":\"request\",\"lane\":4,\"length\":4500,\"max\":300,\"seq\":3,\"speed\":247,\"turn\":\"straight\",\"width\":1900},\"moment\":529,\"vehicle\":17}",
    b"{\"form\":\"event\",\"message\":{\"accel\":0,\"arrive\":18,\"class\":\"emergency\",\"kind\":\"request\",\"lane\":1,\"length\":1000,\"max\":500,\"seq\":2,\"speed\":500,\"turn\":\"left\",\"width\":700},\"moment\":8,\"vehicle\":3}",
];

// Writes so many entries, and answers how many bytes they have.
fn write(alloc: Global, rounds: u32) -> Result<u64, NoMemory> {
    let mut out = Vec::new(alloc);
    let mut bytes = 0_u64;
    for round in 0..rounds {
        out.clear();
        write_json_entry(alloc, round, &entry(round), &mut out)?;
        bytes = bytes.saturating_add(out.len() as u64);
    }
    Ok(bytes)
}

// Reads so many request lines, and answers how many bytes they have.
fn read(alloc: Global, rounds: u32) -> u64 {
    let mut bytes = 0_u64;
    for round in 0..rounds {
        let line = LINES[round as usize % LINES.len()];
        if let Ok(Line::Event { .. }) = read_json_line(alloc, line, 1) {
            bytes = bytes.saturating_add(line.len() as u64);
        }
    }
    bytes
}

/// Writes and reads so many texts, or a few, and prints how many bytes they have. Where a number was asked for, it prints
/// the times too.
pub fn measure_json<R: Clock + Print>(rt: &R, alloc: Global, asked: Option<u32>) -> Result<()> {
    let rounds = asked.unwrap_or(FEW);
    let start = Instant::now(rt).ok();
    let bytes_written = write(alloc, rounds)?;
    let middle = Instant::now(rt).ok();
    let bytes_read = read(alloc, rounds);
    let end = Instant::now(rt).ok();
    tell(rt, CALLS, (bytes_written, bytes_read), "bytes")?;
    if asked.is_some() {
        let times = milliseconds(start, middle, end)?;
        tell(rt, CALLS, times, "ms")?;
    }
    Ok(())
}
