//! The chart of a step, row by row.

ghost use Rattle.std.specs.Prelude.{◌≡◌, ◌<◌, ◌≤◌, ◌++◌, ◌∷◌, [], List, map, take, OnOk, OnErr};
ghost use Rattle.std.specs.List.{range_with_len};
ghost use Rattle.std.specs.Io.KnownBytes.{Appends};
ghost use Rattle.aim_io.specs.Causes.{HasCause};
ghost use Rattle.aim_io.specs.Known.{AppendsFront};
ghost use Rattle.aim_geometry.specs.Rects.{has_bit as bit_of};
ghost use Rattle.aim_messages.specs.declared.script.Line.{Line};
ghost use Rattle.aim_rules.specs.Charts.{chart};
ghost use Rattle.aim_line_session.specs.Sessions.{Stands, journal_so_far};
ghost use Rattle.aim_replay.specs.Charted.{mark_of, row_text};

use crate::lines::put_line;
use aim_io::{Failed, Sink};
use aim_line_session::LineSession;
use std::sync::ledger::Ledger;

// Whether the bit of a column is set.
fn has_bit(mask: u64, col: u8) -> bool
    requires { col < 64 }
    ensures { result ≡ bit_of mask col }
{
    mask >> col & 1 == 1
}

// The character of a tile.
fn mark(held: u64, claimed: u64, col: u8) -> u8
    requires { col < 64 }
    ensures { result ≡ mark_of held claimed col }
{
    if has_bit(held, col) {
        b'#'
    } else if has_bit(claimed, col) {
        b'g'
    } else {
        b'.'
    }
}

// Puts the characters of a row of so many tiles at the front of `line`, its byte 10 included, and
// says how many they are.
fn put_marks(n: u8, held: u64, claimed: u64, line: &mut [u8; 65]) -> usize
    requires { n ≤ 64 }
    ensures text { take result line.new ≡ map (mark_of held claimed) (range_with_len 0 n) ++ 10 ∷ [] }
    ensures fits { result ≤ 65 }
{
    for col in 0..n {
        line[col as usize] = mark(held, claimed, col);
    }
    line[n as usize] = b'\n';
    n as usize + 1
}

// Writes a row of the chart of a step.
fn put_row<L: Ledger, K: Sink>(
    sink: &mut K,
    session: &LineSession<L>,
    row: u8,
    step: u32,
) -> Result<(), Failed>
    requires { row < session.now.server.layout.grid.n }
    ensures ok { (before : List Line) → Stands before session.now → OnOk result (Appends (K.held sink.old) (K.held sink.new) (row_text session.now.server.layout (journal_so_far before) step row)) }
    ensures err { (before : List Line) → Stands before session.now → OnErr result (AppendsFront (K.held sink.old) (K.held sink.new) (row_text session.now.server.layout (journal_so_far before) step row)) }
    ensures cause { HasCause (K.faults sink.old) (K.faults sink.new) result }
{
    let n = session.layout().ground().grid().n as u8;
    let (held, claimed) = session.chart_row(row, step);
    let mut line = [0; 65];
    let len = put_marks(n, held, claimed, &mut line);
    put_line(sink, &line[..len])
}

/// Writes the chart of a step, the north row first.
pub fn put_chart<L: Ledger, K: Sink>(
    sink: &mut K,
    session: &LineSession<L>,
    step: u32,
) -> Result<(), Failed>
    ensures ok { (before : List Line) → Stands before session.now → OnOk result (Appends (K.held sink.old) (K.held sink.new) (chart session.now.server.layout (journal_so_far before) step)) }
    ensures err { (before : List Line) → Stands before session.now → OnErr result (AppendsFront (K.held sink.old) (K.held sink.new) (chart session.now.server.layout (journal_so_far before) step)) }
    ensures cause { HasCause (K.faults sink.old) (K.faults sink.new) result }
{
    let n = session.layout().ground().grid().n as u8;
    for k in 0..n {
        match put_row(sink, session, n - 1 - k, step) {
            Ok(()) => {}
            Err(failed) => return Err(failed),
        }
    }
    Ok(())
}
