//! How a command over a script ends.

ghost use Rattle.std.specs.Prelude.{◌≤◌};
ghost use Rattle.aim_script_reading.specs.Commands.{Puts};

use aim_io::{Sink, put_all};

/// Writes a text, and answers the status that goes with it, or 5 where the sink fails. Takes no memory.
pub fn put_text<K: Sink>(sink: &mut K, text: &[u8], status: u8) -> u8
    ensures puts { Puts text.now status (K.held sink.old) (K.held sink.new) (K.faults sink.old) (K.faults sink.new) result }
    ensures sink { K.faults sink.old ≤ K.faults sink.new }
{
    match put_all(sink, text) {
        Ok(()) => status,
        Err(_) => 5,
    }
}
