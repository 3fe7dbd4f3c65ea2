//! How the lines of a script are spelled, and what is printed of it.

ghost use Rattle.std.specs.Prelude.{◌≡◌, Ok, Err, true, IfOk};
ghost use Rattle.aim_script.specs.declared.decisions.Kind.{Kind as FaultKind};
ghost use Rattle.aim_script.specs.Decided.{printed};
ghost use Rattle.aim_script.specs.Headers.{HasName};
ghost use Rattle.aim_script.specs.Spellings.{Spelled};
ghost use Rattle.aim_script.specs.Versions.{version_number};
ghost use Rattle.aim_replay_command.specs.Written.{Puts};

use crate::faults::{Unread, Unwritten};
use aim_io::Sink;
use aim_messages::{Entry, Line};
use aim_script::{Decision, ScriptVersion};
use std::alloc::Global;

/// A spelling of scripts and of what their replays print.
pub trait Spelling {
    /// What is read, and what is written.
    ghost spelled: { Spelled };

    /// Reads a line, without its byte 10, in a version.
    fn read(alloc: Global, bytes: &[u8], version: ScriptVersion) -> Result<Line, Unread>
        ensures line { IfOk result (λ l. spelled.reads (version_number version) bytes.now ≡ Ok l) }
        ensures name { IfOk result HasName }
        ensures bad { (kind : FaultKind) → result ≡ Err (Unread.Bad kind) → spelled.reads (version_number version) bytes.now ≡ Err kind }
        ensures memory { result ≡ Err Unread.NoMemory → spelled.takes_memory ≡ true };

    /// Writes the line of an entry at its position, its byte 10 included.
    fn put_entry<K: Sink>(
        alloc: Global,
        sink: &mut K,
        position: u32,
        entry: &Entry,
    ) -> Result<(), Unwritten>
        ensures { Puts spelled result (K.held sink.old) (K.held sink.new) (K.faults sink.old) (K.faults sink.new) (printed (spelled.entry_text position entry.now)) };

    /// Writes the last line, its byte 10 included.
    fn put_last<K: Sink>(alloc: Global, sink: &mut K, decision: Decision) -> Result<(), Unwritten>
        ensures { Puts spelled result (K.held sink.old) (K.held sink.new) (K.faults sink.old) (K.faults sink.new) (printed (spelled.last_text decision)) };
}
