//! The command that runs drive scripts: from bytes to bytes.

ghost use Rattle.std.specs.Prelude.{◌≡◌, ◌<◌, ◌≤◌, List, IfOk};
ghost use Rattle.aim_script_reading.specs.Commands.{PutsOne, Reports};
ghost use Rattle.aim_messages.specs.declared.script.Line.{Line};
ghost use Rattle.aim_drive_script.specs.Fits.{IsFit};
ghost use Rattle.aim_drive_script.specs.Scripts.{IsScriptOf};
ghost use Rattle.aim_drive_script.specs.Verdicts.{drive_rules};
ghost use Rattle.aim_drive_command.specs.Commands.{IsReport, IsText, status_for};
ghost use Rattle.aim_drive_command.specs.Endings.{EndsWith};

use crate::reports::report_of;
use aim_drive::{Gate, run_script};
use aim_drive_script::{DriveScript, Ending, read_drive};
use aim_io::{Sink, Source};
use aim_layout::Layout;
use aim_report::NoMemory;
use aim_script::{Decision, put_refused};
use aim_script_reading::put_text;
use std::alloc::Global;
use std::sync::Wait;
use std::thread::Threads;

// Writes why there is no whole script, where that isn't for the source or for memory, and answers the status.
fn put_ending<K: Sink>(sink: &mut K, ending: Ending) -> u8
    ensures ends { EndsWith ending (K.held sink.old) (K.held sink.new) (K.faults sink.old) (K.faults sink.new) result }
    ensures sink { K.faults sink.old ≤ K.faults sink.new }
{
    match ending {
        Ending::Bad(number, why) => put_refused(sink, Decision::Bad(number, why)),
        Ending::Limit(which) => put_refused(sink, Decision::Limit(which)),
        Ending::Read => 4,
        Ending::NoMemory => 7,
    }
}

// Runs a script over this layout, and gives the text that reports it.
fn text_over<R: Threads + Wait + Sync, G: Gate>(
    rt: &R,
    alloc: Global,
    layout: &Layout,
    script: DriveScript,
    workers: u32,
    gate: &G,
) -> Result<Vec<u8>, NoMemory>
    requires layout { layout.now ≡ script.layout }
    requires script { IsFit script }
    requires workers { (0 < workers) × (workers ≤ 64) }
    ensures { (lines : List Line) → IsScriptOf lines script → IfOk result (λ text. IsReport workers lines text.items) }
{
    let vehicles = script.vehicles;
    let drove = run_script(rt, alloc, script, gate, workers)?;
    report_of(alloc, layout, vehicles, &drove)
}

// Runs a script, and gives the text that reports it.
fn text_of_run<R: Threads + Wait + Sync, G: Gate>(
    rt: &R,
    alloc: Global,
    script: DriveScript,
    workers: u32,
    gate: &G,
) -> Result<Vec<u8>, NoMemory>
    requires script { IsFit script }
    requires workers { (0 < workers) × (workers ≤ 64) }
    ensures { (lines : List Line) → IsScriptOf lines script → IfOk result (λ text. IsReport workers lines text.items) }
{
    let layout = script.layout.copy()?;
    text_over(rt, alloc, &layout, script, workers, gate)
}

// Runs a script, writes the report, and answers the status.
fn put_run<R: Threads + Wait + Sync, K: Sink, G: Gate>(
    rt: &R,
    alloc: Global,
    script: DriveScript,
    workers: u32,
    sink: &mut K,
    gate: &G,
) -> u8
    requires script { IsFit script }
    requires workers { (0 < workers) × (workers ≤ 64) }
    ensures puts { (lines : List Line) → IsScriptOf lines script → PutsOne (IsReport workers lines) (K.held sink.old) (K.held sink.new) (K.faults sink.old) (K.faults sink.new) result }
    ensures sink { K.faults sink.old ≤ K.faults sink.new }
{
    let text = match text_of_run(rt, alloc, script, workers, gate) {
        Ok(text) => text,
        Err(_) => return 7,
    };
    put_text(sink, &text, 0)
}

/// Reads a drive script, runs its vehicles' drivers in so many runs side by side, and writes the journal, the logs of the
/// drivers and the tiles that they occupied, or why the script isn't whole. The status is 0 for a whole script, 3 for a line
/// at fault, 4 where the source fails, 5 where the sink fails, 6 for a limit, and 7 where memory runs out.
///
/// It waits for turns at the manager, and returns where these come.
#[inline(never)]
pub fn drive<R: Threads + Wait + Sync, S: Source, K: Sink, G: Gate>(
    rt: &R,
    alloc: Global,
    workers: u32,
    source: &mut S,
    sink: &mut K,
    gate: &G,
) -> u8
    requires workers { (0 < workers) × (workers ≤ 64) }
    ensures { Reports drive_rules (IsText workers) status_for (source.new ≡ source.old) (S.last_read source.new)
        (record { left = S.left source.old; source_faults = S.faults source.old; held = K.held sink.old; sink_faults = K.faults sink.old })
        (record { left = S.left source.new; source_faults = S.faults source.new; held = K.held sink.new; sink_faults = K.faults sink.new }) result }
{
    match read_drive(alloc, source) {
        Ok(script) => put_run(rt, alloc, script, workers, sink, gate),
        Err(ending) => put_ending(sink, ending),
    }
}
