//! The lines that a replay writes.

ghost use Rattle.std.specs.Prelude.{◌≡◌, List, [], OnOk};
ghost use Rattle.aim_messages.specs.declared.script.Line.{Line};
ghost use Rattle.aim_replay.specs.Stages.{IsOfLines};
ghost use Rattle.aim_script.specs.Decided.{printed};
ghost use Rattle.aim_script.specs.Spellings.{Spelled};
ghost use Rattle.aim_replay_command.specs.Sessions.{chart_text, ending_text, made_line};
ghost use Rattle.aim_replay_command.specs.Written.{HasPutCause, Puts};

use crate::faults::Unwritten;
use crate::spellings::Spelling;
use aim_io::Sink;
use aim_line_session::Answered;
use aim_replay::{Finish, put_chart};
use aim_script::Decision;
use std::alloc::Global;
use std::sync::ledger::Ledger;

/// Writes the line of the entry that was made, if one was.
pub(crate) fn put_made<P: Spelling, K: Sink>(
    alloc: Global,
    sink: &mut K,
    made: Option<Answered>,
) -> Result<(), Unwritten>
    ensures { Puts P.spelled result (K.held sink.old) (K.held sink.new) (K.faults sink.old) (K.faults sink.new) (made_line P.spelled made) }
{
    match made {
        Some(Answered { position, entry }) => P::put_entry(alloc, sink, position, &entry),
        None => Ok(()),
    }
}

// Writes the chart of a step, if one is asked for and the script is whole.
fn put_asked<K: Sink, L: Ledger>(
    sink: &mut K,
    finish: &Finish<L>,
    chart: Option<u32>,
) -> Result<(), Unwritten>
    ensures puts { (w : Spelled) (before : List Line) → IsOfLines before finish.now → Puts w result (K.held sink.old) (K.held sink.new) (K.faults sink.old) (K.faults sink.new) (chart_text chart before finish.now) }
    ensures cause { (w : Spelled) → HasPutCause w result (K.faults sink.old) (K.faults sink.new) }
{
    match (finish, chart) {
        (Finish::Whole(session), Some(step)) => match put_chart(sink, session, step) {
            Ok(()) => Ok(()),
            Err(_) => Err(Unwritten::Write),
        },
        _ => Ok(()),
    }
}

// Writes the last line, and has the sink hand on all that it keeps back.
fn put_last<P: Spelling, K: Sink>(
    alloc: Global,
    sink: &mut K,
    decision: Decision,
) -> Result<(), Unwritten>
    ensures puts { Puts P.spelled result (K.held sink.old) (K.held sink.new) (K.faults sink.old) (K.faults sink.new) (printed (P.spelled.last_text decision)) }
    ensures settled { OnOk result (K.kept_back sink.new ≡ []) }
{
    match P::put_last(alloc, sink, decision) {
        Err(why) => Err(why),
        Ok(()) => match sink.settle() {
            Ok(()) => Ok(()),
            Err(_) => Err(Unwritten::Write),
        },
    }
}

/// Writes what stands behind the lines of the entries: the chart, and the last line. Then nothing is kept back.
pub(crate) fn put_ending<P: Spelling, K: Sink, L: Ledger>(
    alloc: Global,
    sink: &mut K,
    finish: &Finish<L>,
    chart: Option<u32>,
) -> Result<(), Unwritten>
    ensures puts { (before : List Line) → IsOfLines before finish.now → Puts P.spelled result (K.held sink.old) (K.held sink.new) (K.faults sink.old) (K.faults sink.new) (ending_text P.spelled chart before finish.now) }
    ensures cause { HasPutCause P.spelled result (K.faults sink.old) (K.faults sink.new) }
    ensures settled { OnOk result (K.kept_back sink.new ≡ []) }
{
    match put_asked(sink, finish, chart) {
        Err(why) => Err(why),
        Ok(()) => put_last::<P, K>(alloc, sink, finish.decision()),
    }
}
