//! The command that runs a script of claims: from bytes to bytes.

ghost use Rattle.std.specs.Prelude.{◌≡◌, ◌<◌, ◌≤◌, length};
ghost use Rattle.aim_script_reading.specs.Commands.{Puts, PutsOne, Reports};
ghost use Rattle.aim_shards_command.specs.ClaimTexts.{printed, refused_words, status_of};
ghost use Rattle.aim_shards_command.specs.Commands.{IsReport, IsText, status_for};
ghost use Rattle.aim_shards_command.specs.Verdicts.{claim_rules};
ghost use Rattle.aim_messages.specs.Texts.{spaced};

use crate::running::run_script;
use crate::texts::text_of;
use crate::values::entries_fit;
use crate::{ClaimKind, ClaimLimit, Script, read_claims, refused_line};
use aim_io::{Sink, Source};
use aim_script_reading::{Refused, Stop, put_text};
use aim_shards::Hold;
use std::alloc::Global;
use std::sync::Wait;
use std::thread::Threads;

// The status of a script that isn't whole.
fn status_of(refused: Refused<ClaimKind, ClaimLimit>) -> u8
    ensures { result ≡ status_of refused }
{
    match refused {
        Refused::Bad(..) => 3,
        Refused::Limit(_) => 6,
    }
}

// Writes why a script isn't whole, and answers the status.
fn put_refused<K: Sink>(sink: &mut K, refused: Refused<ClaimKind, ClaimLimit>) -> u8
    ensures puts { Puts (printed (spaced (refused_words refused))) (status_of refused) (K.held sink.old) (K.held sink.new) (K.faults sink.old) (K.faults sink.new) result }
    ensures sink { K.faults sink.old ≤ K.faults sink.new }
{
    let mut line = [0; 400];
    let len = refused_line(refused, &mut line);
    put_text(sink, &line[..len], status_of(refused))
}

// Runs a whole script, writes its history, and answers the status.
fn put_run<R: Threads + Wait + Sync, K: Sink, H: Hold>(
    rt: &R,
    alloc: Global,
    script: &Script,
    workers: u32,
    sink: &mut K,
    hold: &H,
) -> u8
    requires some { 0 < length script.now }
    requires workers { 0 < workers }
    ensures puts { PutsOne (IsReport script.now) (K.held sink.old) (K.held sink.new) (K.faults sink.old) (K.faults sink.new) result }
    ensures sink { K.faults sink.old ≤ K.faults sink.new }
{
    let Ok(log) = run_script(rt, alloc, script, workers, hold) else {
        return 7;
    };
    entries_fit(&log);
    let Ok(text) = text_of(alloc, &log) else {
        return 7;
    };
    put_text(sink, &text, 0)
}

/// Reads a script of claims, runs its callers side by side, and writes the one history of their calls, or why the script
/// isn't whole. The status is 0 for a whole script, 3 for a line at fault, 4 where the source fails, 5 where the sink
/// fails, 6 for a limit, and 7 where memory runs out.
///
/// It waits for the turns of the quadrants, and returns where these come.
#[inline(never)]
pub fn shards<R: Threads + Wait + Sync, S: Source, K: Sink, H: Hold>(
    rt: &R,
    alloc: Global,
    workers: u32,
    source: &mut S,
    sink: &mut K,
    hold: &H,
) -> u8
    requires workers { 0 < workers }
    ensures { Reports claim_rules IsText status_for (source.new ≡ source.old) (S.last_read source.new)
        (record { left = S.left source.old; source_faults = S.faults source.old; held = K.held sink.old; sink_faults = K.faults sink.old })
        (record { left = S.left source.new; source_faults = S.faults source.new; held = K.held sink.new; sink_faults = K.faults sink.new }) result }
{
    match read_claims(alloc, source) {
        Ok(read) => match read.refused {
            Some(refused) => put_refused(sink, refused),
            None => put_run(rt, alloc, &read.script, workers, sink, hold),
        },
        Err(Stop::Read) => 4,
        Err(Stop::Halt(_)) => 7,
    }
}
