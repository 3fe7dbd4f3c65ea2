//! Scripts and entries that are JSON lines, as programs write and read them.

ghost use Rattle.std.specs.Prelude.{◌≡◌, IfOk};
ghost use Rattle.aim_json.specs.Entries.{entry_json_text};
ghost use Rattle.aim_script.specs.Decided.{printed};
ghost use Rattle.aim_replay.specs.Whole.{IsWholeLine};
ghost use Rattle.aim_replay_command.specs.Written.{Puts};
ghost use Rattle.aim_replay_command.specs.Spelling.{by_json, decision_json_text};

use crate::json_decisions::decision_text;
use crate::{Spelling, Unread, Unwritten};
use aim_io::Sink;
use aim_json::{JsonFault, read_json_line, write_json_entry};
use aim_messages::{Entry, Line, NoMemory};
use aim_replay::put_line;
use aim_script::{Decision, Kind, ScriptVersion};
use std::alloc::Global;

/// The spelling by JSON lines.
pub struct JsonLines;

// The line of an entry, its byte 10 included.
fn entry_line(alloc: Global, position: u32, entry: &Entry) -> Result<Vec<u8>, NoMemory>
    ensures { IfOk result (λ b. b.items ≡ printed (entry_json_text position entry.now)) }
{
    let mut line = Vec::new(alloc);
    write_json_entry(alloc, position, entry, &mut line)?;
    line.push(b'\n')?;
    Ok(line)
}

// The last line, its byte 10 included.
fn last_line(alloc: Global, decision: Decision) -> Result<Vec<u8>, NoMemory>
    ensures { IfOk result (λ b. b.items ≡ printed (decision_json_text decision)) }
{
    let mut line = decision_text(alloc, decision)?;
    line.push(b'\n')?;
    Ok(line)
}

// Writes a whole line.
fn put_whole<K: Sink>(sink: &mut K, line: &[u8]) -> Result<(), Unwritten>
    requires { IsWholeLine line.now }
    ensures { Puts by_json result (K.held sink.old) (K.held sink.new) (K.faults sink.old) (K.faults sink.new) line.now }
{
    match put_line(sink, line) {
        Ok(()) => Ok(()),
        Err(_) => Err(Unwritten::Write),
    }
}

impl Spelling for JsonLines {
    ghost spelled = { by_json };

    fn read(alloc: Global, bytes: &[u8], version: ScriptVersion) -> Result<Line, Unread> {
        match read_json_line(alloc, bytes, version.number()) {
            Ok(line) => Ok(line),
            Err(JsonFault::NoMemory) => Err(Unread::NoMemory),
            Err(JsonFault::Json) => Err(Unread::Bad(Kind::Json)),
            Err(JsonFault::Form) => Err(Unread::Bad(Kind::Form)),
        }
    }

    fn put_entry<K: Sink>(
        alloc: Global,
        sink: &mut K,
        position: u32,
        entry: &Entry,
    ) -> Result<(), Unwritten> {
        let Ok(line) = entry_line(alloc, position, entry) else {
            return Err(Unwritten::NoMemory);
        };
        put_whole(sink, &line)
    }

    fn put_last<K: Sink>(alloc: Global, sink: &mut K, decision: Decision) -> Result<(), Unwritten> {
        let Ok(line) = last_line(alloc, decision) else {
            return Err(Unwritten::NoMemory);
        };
        put_whole(sink, &line)
    }
}
