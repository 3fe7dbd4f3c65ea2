//! The command that runs scripts of several crossings.

ghost use Rattle.std.specs.Prelude.{◌≡◌, ◌<◌, ◌≤◌, IfOk, List};
ghost use Rattle.aim_script_reading.specs.Commands.{PutsOne, Reports};
ghost use Rattle.aim_grid_script.specs.declared.lines.GridLine.{GridLine};
ghost use Rattle.aim_grid_script.specs.Fits.{AreRoutesOf, AreWithin};
ghost use Rattle.aim_grid_script.specs.Verdicts.{grid_rules};
ghost use Rattle.aim_grid_command.specs.Endings.{EndsWith, Refuses};
ghost use Rattle.aim_grid_command.specs.Commands.{IsReport, IsText, status_for};

use crate::refusals::{refusal_line, status_of};
use crate::reports::report_of;
use aim_grid::{Gate, run_routes};
use aim_grid_script::{GridDecision, GridEnding, Routes, read_grid};
use aim_io::{Sink, Source};
use aim_layout::Layout;
use aim_report::NoMemory;
use aim_script_reading::put_text;
use std::alloc::Global;
use std::sync::Wait;
use std::thread::Threads;

// Writes the one line of a script that isn't whole, and answers the status.
fn put_refused<K: Sink>(sink: &mut K, decision: GridDecision) -> u8
    ensures refuses { Refuses decision (K.held sink.old) (K.held sink.new) (K.faults sink.old) (K.faults sink.new) result }
    ensures sink { K.faults sink.old ≤ K.faults sink.new }
{
    let mut line = [0; 400];
    let len = refusal_line(decision, &mut line);
    put_text(sink, &line[..len], status_of(decision))
}

// Writes the one line of a script that isn't whole, where reading came to that, and answers the status.
fn put_ending<K: Sink>(sink: &mut K, ending: GridEnding) -> u8
    ensures ends { EndsWith ending (K.held sink.old) (K.held sink.new) (K.faults sink.old) (K.faults sink.new) result }
    ensures sink { K.faults sink.old ≤ K.faults sink.new }
{
    match ending {
        GridEnding::Read => 4,
        GridEnding::NoMemory => 7,
        GridEnding::Bad(number, why) => put_refused(sink, GridDecision::Bad(number, why)),
        GridEnding::Limit(which) => put_refused(sink, GridDecision::Limit(which)),
    }
}

// Equal layouts.
fn copies_of(alloc: Global, layouts: &[Layout]) -> Result<Vec<Layout>, NoMemory>
    ensures { IfOk result (λ v. v.items ≡ layouts.now) }
{
    let mut copies = Vec::with_capacity(alloc, layouts.len())?;
    for layout in layouts {
        copies.push_reserved(layout.copy()?);
    }
    Ok(copies)
}

// Runs the routes over these layouts, and gives the text that reports the run.
fn text_over<R: Threads + Wait + Sync, G: Gate>(
    rt: &R,
    alloc: Global,
    layouts: &[Layout],
    routes: Routes,
    workers: u32,
    gate: &G,
) -> Result<Vec<u8>, NoMemory>
    requires layouts { layouts.now ≡ routes.layouts.items }
    requires routes { AreWithin routes }
    requires workers { (0 < workers) × (workers ≤ 64) }
    ensures { (lines : List GridLine) → AreRoutesOf lines routes → IfOk result (λ text. IsReport lines text.items) }
{
    let vehicles = routes.vehicles;
    let left = run_routes(rt, alloc, routes, gate, workers)?;
    report_of(alloc, layouts, vehicles, &left)
}

// Runs the routes, and gives the text that reports the run.
fn text_of_run<R: Threads + Wait + Sync, G: Gate>(
    rt: &R,
    alloc: Global,
    routes: Routes,
    workers: u32,
    gate: &G,
) -> Result<Vec<u8>, NoMemory>
    requires routes { AreWithin routes }
    requires workers { (0 < workers) × (workers ≤ 64) }
    ensures { (lines : List GridLine) → AreRoutesOf lines routes → IfOk result (λ text. IsReport lines text.items) }
{
    let layouts = copies_of(alloc, &routes.layouts)?;
    text_over(rt, alloc, &layouts, routes, workers, gate)
}

// Runs the routes, writes the report, and answers the status.
fn put_run<R: Threads + Wait + Sync, K: Sink, G: Gate>(
    rt: &R,
    alloc: Global,
    routes: Routes,
    workers: u32,
    sink: &mut K,
    gate: &G,
) -> u8
    requires routes { AreWithin routes }
    requires workers { (0 < workers) × (workers ≤ 64) }
    ensures puts { (lines : List GridLine) → AreRoutesOf lines routes → PutsOne (IsReport lines) (K.held sink.old) (K.held sink.new) (K.faults sink.old) (K.faults sink.new) result }
    ensures sink { K.faults sink.old ≤ K.faults sink.new }
{
    let text = match text_of_run(rt, alloc, routes, workers, gate) {
        Ok(text) => text,
        Err(_) => return 7,
    };
    put_text(sink, &text, 0)
}

/// Reads a script of several crossings, lets its vehicles travel in so many runs side by side, and writes of each crossing
/// the journal, the logs of the drivers there and the tiles that they occupied, or why the script isn't whole. The status
/// is 0 for a whole script, 3 for a line at fault, 4 where the source fails, 5 where the sink fails, 6 for a limit, and 7
/// where memory runs out.
///
/// It waits for turns at the managers, and returns where these come.
pub fn grid<R: Threads + Wait + Sync, S: Source, K: Sink, G: Gate>(
    rt: &R,
    alloc: Global,
    workers: u32,
    source: &mut S,
    sink: &mut K,
    gate: &G,
) -> u8
    requires workers { (0 < workers) × (workers ≤ 64) }
    ensures { Reports grid_rules IsText status_for (source.new ≡ source.old) (S.last_read source.new)
        (record { left = S.left source.old; source_faults = S.faults source.old; held = K.held sink.old; sink_faults = K.faults sink.old })
        (record { left = S.left source.new; source_faults = S.faults source.new; held = K.held sink.new; sink_faults = K.faults sink.new }) result }
{
    match read_grid(alloc, source) {
        Ok(routes) => put_run(rt, alloc, routes, workers, sink, gate),
        Err(ending) => put_ending(sink, ending),
    }
}
