//! Readings of the clock.

use anyhow::{Result, bail};
use std::time::Instant;

/// The nanoseconds between two readings of the clock.
pub fn nanoseconds(start: Option<Instant>, end: Option<Instant>) -> Option<u64> {
    let time = end?.duration_since(start?).as_nanos();
    Some(u64::try_from(time).unwrap_or(u64::MAX))
}

/// The milliseconds between the first two of three readings of the clock, and between the last two.
pub fn milliseconds(
    start: Option<Instant>,
    middle: Option<Instant>,
    end: Option<Instant>,
) -> Result<(u64, u64)> {
    match (nanoseconds(start, middle), nanoseconds(middle, end)) {
        (Some(first), Some(second)) => Ok((first / 1_000_000, second / 1_000_000)),
        _ => bail!("the clock can't be read"),
    }
}
