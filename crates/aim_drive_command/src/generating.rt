//! The command that runs generated traffic, and prints counts.

ghost use Rattle.std.specs.Prelude.{◌≡◌, ◌⊎◌, ◌<◌, ◌≤◌, [], IfOk};
ghost use Rattle.std.specs.Io.KnownBytes.{Appends};
ghost use Rattle.aim_io.specs.Causes.{Rose};
ghost use Rattle.aim_drive_command.specs.Generated.{Counts, CountsFront, IsSummary};

use crate::making::traffic;
use crate::summaries::summary_of;
use aim_drive::{Gate, run_script};
use aim_io::{Sink, put_all};
use aim_report::NoMemory;
use std::alloc::Global;
use std::sync::Wait;
use std::thread::Threads;

// A gate at which nobody waits.
struct NoGate;

impl Gate for NoGate {
    fn before(&self, _vehicle: u32, _step: u32) {}
}

// Runs generated traffic, and gives the text that counts.
fn text_of_traffic<R: Threads + Wait + Sync>(
    rt: &R,
    alloc: Global,
    number: u32,
    count: u32,
) -> Result<Vec<u8>, NoMemory>
    requires count { (0 < count) × (count ≤ 256) }
    ensures { IfOk result (λ text. IsSummary number count text.items) }
{
    let script = traffic(alloc, number, count)?;
    let steps = script.until;
    let drove = run_script(rt, alloc, script, &NoGate, 1)?;
    summary_of(alloc, steps, &drove)
}

/// Makes the drive script of generated traffic, runs it as `drive` does with one worker, and writes six lines: the steps, the
/// entries, those that confirm, those that reject, the vehicles that entered, and the entries again. The status is 0, 5 where
/// the sink fails, or 7 where memory runs out.
pub fn generate<R: Threads + Wait + Sync, K: Sink>(
    rt: &R,
    alloc: Global,
    number: u32,
    count: u32,
    sink: &mut K,
) -> u8
    requires count { (0 < count) × (count ≤ 256) }

    // The whole text with status 0, a front of one with 5, and nothing with 7.
    ensures whole { result ≡ 0 → Counts number count (K.held sink.old) (K.held sink.new) }
    ensures front { result ≡ 5 → CountsFront number count (K.held sink.old) (K.held sink.new) }
    ensures nothing { result ≡ 7 → Appends (K.held sink.old) (K.held sink.new) [] }
    ensures write { result ≡ 5 → Rose (K.faults sink.old) (K.faults sink.new) }
    ensures sink { K.faults sink.old ≤ K.faults sink.new }
    ensures statuses { (result ≡ 0) ⊎ ((result ≡ 5) ⊎ (result ≡ 7)) }
{
    let text = match text_of_traffic(rt, alloc, number, count) {
        Ok(text) => text,
        Err(_) => return 7,
    };
    match put_all(sink, &text) {
        Ok(()) => 0,
        Err(_) => 5,
    }
}
