//! Scripts and entries that are words, as a person writes and reads them.

ghost use Rattle.std.specs.Prelude.{OnOk, OnErr};
ghost use Rattle.aim_replay.specs.Whole.{IsWholeLine};
ghost use Rattle.aim_script.specs.Spellings.{Spelled, by_words};
ghost use Rattle.aim_replay_command.specs.Written.{Puts};

use crate::faults::{Unread, Unwritten};
use crate::spellings::Spelling;
use aim_io::Sink;
use aim_messages::{Entry, Line, entry_text};
use aim_replay::put_line;
use aim_script::{Decision, Kind, ScriptVersion, last_line};
use aim_text_lines::read_line;
use std::alloc::Global;

/// The spelling by words.
pub struct WordLines;

// Writes a whole line.
fn put_whole<K: Sink>(sink: &mut K, line: &[u8]) -> Result<(), Unwritten>
    requires { IsWholeLine line.now }
    ensures { (w : Spelled) → Puts w result (K.held sink.old) (K.held sink.new) (K.faults sink.old) (K.faults sink.new) line.now }
{
    match put_line(sink, line) {
        Ok(()) => Ok(()),
        Err(_) => Err(Unwritten::Write),
    }
}

impl Spelling for WordLines {
    ghost spelled = { by_words };

    fn read(_alloc: Global, bytes: &[u8], version: ScriptVersion) -> Result<Line, Unread> {
        match read_line(bytes, version.number()) {
            Ok(line) => Ok(line),
            Err(kind) => Err(Unread::Bad(Kind::Spelling(kind))),
        }
    }

    fn put_entry<K: Sink>(
        _alloc: Global,
        sink: &mut K,
        position: u32,
        entry: &Entry,
    ) -> Result<(), Unwritten> {
        let mut line = [0; 400];
        let len = entry_text(position, entry, &mut line);
        line[len] = b'\n';
        put_whole(sink, &line[..len + 1])
    }

    fn put_last<K: Sink>(
        _alloc: Global,
        sink: &mut K,
        decision: Decision,
    ) -> Result<(), Unwritten> {
        let mut line = [0; 400];
        let len = last_line(decision, &mut line);
        put_whole(sink, &line[..len])
    }
}
