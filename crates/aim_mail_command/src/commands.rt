//! The command that runs a script of events over a mailbox: from bytes to bytes.

ghost use Rattle.std.specs.Prelude.{◌≡◌, ◌<◌, ◌≤◌, List, length, All, IfOk};
ghost use Rattle.aim_script_reading.specs.Commands.{PutsOne, Reports};
ghost use Rattle.aim_messages.specs.declared.script.Line.{Line};
ghost use Rattle.aim_text_entries.specs.Ranges.{IsEntry};
ghost use Rattle.aim_mail_script.specs.Fits.{IsFit};
ghost use Rattle.aim_mail_script.specs.Scripts.{IsScriptOf};
ghost use Rattle.aim_mail_script.specs.Verdicts.{event_rules};
ghost use Rattle.aim_mail_command.specs.Commands.{IsReport, IsText, report, status_for};
ghost use Rattle.aim_mail_command.specs.Endings.{EndsWith};

use crate::running::run_script;
use aim_io::{Sink, Source};
use aim_mail_script::{EventEnding, EventScript, read_events};
use aim_messages::Entry;
use aim_report::{entries_fit, put_end, put_entries};
use aim_script::{Decision, put_refused};
use aim_script_reading::put_text;
use std::alloc::{AllocError, Global};
use std::marker::Brand;
use std::sync::Wait;
use std::sync::ledger::{Blank, Ledger};
use std::thread::Threads;

// The text that reports a journal. Its entries have the values of their types, so the text tells them.
fn report_of(alloc: Global, journal: &[Entry]) -> Result<Vec<u8>, AllocError>
    requires { length journal.now ≤ 4294967295 }
    ensures text { IfOk result (λ text. text.items ≡ report journal.now) }
    ensures entries { All IsEntry journal.now }
{
    entries_fit(journal);
    let mut text = Vec::new(alloc);
    put_entries(&mut text, journal)?;
    put_end(&mut text, journal.len() as u32)?;
    Ok(text)
}

// Writes why there is no whole script, where that isn't for the source or for memory, and answers the status.
fn put_ending<K: Sink>(sink: &mut K, ending: EventEnding) -> u8
    ensures ends { EndsWith ending (K.held sink.old) (K.held sink.new) (K.faults sink.old) (K.faults sink.new) result }
    ensures sink { K.faults sink.old ≤ K.faults sink.new }
{
    match ending {
        EventEnding::Bad(number, why) => put_refused(sink, Decision::Bad(number, why)),
        EventEnding::Limit(which) => put_refused(sink, Decision::Limit(which)),
        EventEnding::Read => 4,
        EventEnding::NoMemory => 7,
    }
}

// Runs a script, with a book whose words are counted in the ledger of the blank, and gives the text that reports it.
fn text_of_run<L: Ledger + Send + Sync, R: Threads + Wait + Sync>(
    rt: &R,
    alloc: Global,
    script: &EventScript,
    workers: u32,
    blank: Blank,
) -> Result<Vec<u8>, AllocError>
    requires script { IsFit script.now }
    requires workers { 0 < workers }
    requires name { blank.name ≡ L.name }
    requires parts { blank.parts ≡ L.parts }
    requires some { 0 < blank.parts }
    ensures { (lines : List Line) → IsScriptOf lines script.now → IfOk result (λ text. IsReport lines text.items) }
{
    let journal = run_script::<L, R>(rt, alloc, script, workers, blank)?;
    report_of(alloc, &journal)
}

// Runs a script, writes the report, and answers the status.
fn put_run<R: Threads + Wait + Sync, K: Sink>(
    rt: &R,
    alloc: Global,
    script: &EventScript,
    workers: u32,
    sink: &mut K,
) -> u8
    requires script { IsFit script.now }
    requires workers { 0 < workers }
    ensures puts { (lines : List Line) → IsScriptOf lines script.now → PutsOne (IsReport lines) (K.held sink.old) (K.held sink.new) (K.faults sink.old) (K.faults sink.new) result }
    ensures sink { K.faults sink.old ≤ K.faults sink.new }
{
    let text = match text_of_run::<Brand, R>(rt, alloc, script, workers, Blank::new(1)) {
        Ok(text) => text,
        Err(_) => return 7,
    };
    put_text(sink, &text, 0)
}

/// Reads a script of events, runs a server with the clients of all vehicles in so many runs beside it, and writes the
/// journal of their calls, or why the script isn't whole. The status is 0 for a whole script, 3 for a line at fault, 4
/// where the source fails, 5 where the sink fails, 6 for a limit, and 7 where memory runs out.
///
/// It waits for messages between the clients and the server, and returns where these come.
#[inline(never)]
pub fn mail<R: Threads + Wait + Sync, S: Source, K: Sink>(
    rt: &R,
    alloc: Global,
    workers: u32,
    source: &mut S,
    sink: &mut K,
) -> u8
    requires workers { 0 < workers }
    ensures { Reports event_rules IsText status_for (source.new ≡ source.old) (S.last_read source.new)
        (record { left = S.left source.old; source_faults = S.faults source.old; held = K.held sink.old; sink_faults = K.faults sink.old })
        (record { left = S.left source.new; source_faults = S.faults source.new; held = K.held sink.new; sink_faults = K.faults sink.new }) result }
{
    match read_events(alloc, source) {
        Ok(script) => put_run(rt, alloc, &script, workers, sink),
        Err(ending) => put_ending(sink, ending),
    }
}
