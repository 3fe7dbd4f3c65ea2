//! Whole lines, handed to a sink.

ghost use Rattle.std.specs.Prelude.{OnOk, OnErr};
ghost use Rattle.std.specs.Io.KnownBytes.{Appends};
ghost use Rattle.aim_io.specs.Causes.{HasCause};
ghost use Rattle.aim_io.specs.Known.{AppendsFront};
ghost use Rattle.aim_replay.specs.Whole.{IsWholeLine};

use aim_io::{Failed, Sink, put_all};

/// Writes a whole line, its byte 10 included. A replay writes nowhere else.
pub fn put_line<K: Sink>(sink: &mut K, line: &[u8]) -> Result<(), Failed>
    requires whole { IsWholeLine line.now }
    ensures ok { OnOk result (Appends (K.held sink.old) (K.held sink.new) line.now) }
    ensures err { OnErr result (AppendsFront (K.held sink.old) (K.held sink.new) line.now) }
    ensures cause { HasCause (K.faults sink.old) (K.faults sink.new) result }
{
    put_all(sink, line)
}
