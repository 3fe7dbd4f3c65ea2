//! First come, first served: from how far away vehicles of a lane may ask, and when a refused one may ask again.

ghost use Rattle.std.specs.Prelude.{◌≡◌, ◌<◌, ◌≤◌, None, Some, replicate, slice_index_or, slice_set};
ghost use Rattle.std.specs.Result.{result_err};
ghost use Rattle.aim_messages.specs.declared.entries.TheConstants.{LATEST_MOMENT};
ghost use Rattle.aim_geometry.specs.Bounded.{min_with};
ghost use Rattle.aim_rules.specs.Asking.{next_allowed as next_allowed_of};
ghost use Rattle.aim_rules.specs.Distance.{asked_from as asked_from_of};
ghost use Rattle.aim_sessions.specs.Distances.{exceeded};

use aim_messages::Params;
use std::marker::Model;

/// How far from the stop line a vehicle asks, at its speed, in millimetres; 0 where its arrival is past.
pub fn asked_from(now: u32, params: &Params) -> u64
    ensures { result ≡ asked_from_of now params.now }
{
    u64::from(params.arrive.saturating_sub(now)) * u64::from(params.speed)
}

/// For each of 16 lanes the least distance that was refused, in millimetres, or none.
#[derive(Drop)]
pub struct Distances {
    least: [Option<u64>; 16],
}

impl Model for Distances {
    ghost use Rattle.std.specs.Prelude.{ℕ, List, Option};

    ghost Value = { List (Option ℕ) };

    ghost use Rattle.std.specs.Prelude.{◌≡◌, length};

    ghost view = { λ d. d.least };

    ghost invariant = { λ d. length d.least ≡ 16 };
}

// The lesser of a distance that is kept, if there is one, and another.
fn lesser(kept: Option<u64>, distance: u64) -> u64
    ensures { result ≡ min_with distance kept }
{
    match kept {
        Some(least) => least.min(distance),
        None => distance,
    }
}

// Sets the lane's distance.
fn set(least: &mut [Option<u64>; 16], lane: u8, distance: Option<u64>)
    requires { lane < 16 }
    ensures { least.new ≡ slice_set least.old lane distance }
{
    least[lane as usize] = distance;
}

impl Distances {
    /// No distance was refused.
    pub fn new() -> Distances
        ensures { result ≡ replicate 16 None }
    {
        Distances { least: [None; 16] }
    }

    /// Whether a vehicle may ask from there: an error is the lane's distance, where that is less.
    pub fn test(&self, lane: u8, distance: u64) -> Result<(), u64>
        requires { lane < 16 }
        ensures { result_err result ≡ exceeded distance (slice_index_or self.now lane None) }
    {
        let kept = self.least[lane as usize];
        match kept {
            Some(least) if least < distance => Err(least),
            _ => Ok(()),
        }
    }

    /// A vehicle that asked from there was refused.
    pub fn refused(&mut self, lane: u8, distance: u64)
        requires { lane < 16 }
        ensures { self.new ≡ slice_set self.old lane (Some (min_with distance (slice_index_or self.old lane None))) }
    {
        let least = lesser(self.least[lane as usize], distance);
        set(&mut self.least, lane, Some(least));
    }

    /// A vehicle of the lane was confirmed.
    pub fn confirmed(&mut self, lane: u8)
        requires { lane < 16 }
        ensures { self.new ≡ slice_set self.old lane None }
    {
        set(&mut self.least, lane, None);
    }
}

/// When to ask again: after half of the way to the arrival, but a step at least and the longest wait at most.
pub fn next_allowed(now: u32, arrive: u32, longest: u32) -> u32
    requires moment { now ≤ LATEST_MOMENT }
    requires wait { longest ≤ 65536 }
    ensures { result ≡ next_allowed_of now arrive longest }
{
    now + longest.min(arrive.saturating_sub(now) / 2).max(1)
}
