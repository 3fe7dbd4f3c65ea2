//! Replays a script: from bytes to bytes.

ghost use Rattle.std.specs.Prelude.{◌≡◌, ◌⊎◌, ◌<◌, ◌≤◌, true, false, List, [], Err, IfOk, IfSome, OnOk};
ghost use Rattle.std.specs.Io.KnownBytes.{Appends, IsAtEnd, Keeps};
ghost use Rattle.aim_io.specs.Causes.{HasCause, Rose};
ghost use Rattle.aim_io.specs.Lines.{IsOpen};
ghost use Rattle.aim_io.specs.Reader.{fresh};
ghost use Rattle.aim_messages.specs.declared.script.Line.{Line};
ghost use Rattle.aim_line_session.specs.Sessions.{journal_so_far};
ghost use Rattle.aim_replay.specs.Stages.{MayTake, Stands};
ghost use Rattle.aim_replay_command.specs.Texts.{text_by};
ghost use Rattle.aim_replay_command.specs.Replays.{LastNeededBy, ReplaysBy, StopsShortBy, TakesAtMost, WritesFront};
ghost use Rattle.aim_replay_command.specs.Sessions.{Came, Caused, IsSettled, IsTaken, Played, Responds, at_fault, cut_by, halted, status_for};

use crate::faults::{Unread, Unwritten};
use crate::outputs::{put_ending, put_made};
use crate::spellings::Spelling;
use aim_io::{Failed, LineFault, LineReader, Sink, Source};
use aim_replay::{Finish, Stage, StageRefusal, Taken};
use aim_script::{Decision, Header, Kind, Limit};
use aim_tiles::Steps;
use std::alloc::Global;
use std::marker::Brand;
use std::sync::ledger::{Blank, Ledger};

/// Why a line isn't answered.
enum Halt {
    /// It isn't taken.
    Refused(StageRefusal),
    /// It was taken, and the line of its entry wasn't written whole.
    Unwritten(Unwritten),
}

/// Why a replay stops before its text is whole.
enum Stop {
    /// The source has failed.
    Read,
    /// The sink has failed.
    Write,
    /// Memory has run out.
    NoMemory,
}

// Takes the next line of a script, without its byte 10, and answers its event or order, if it is one.
fn take_line<P: Spelling, L: Ledger>(
    stage: Stage<L>,
    alloc: Global,
    bytes: &[u8],
    steps: &mut Steps<L>,
) -> Result<Taken<L>, StageRefusal>
    requires { MayTake stage }
    ensures taken { (before : List Line) → Stands before stage → IsTaken P.spelled before bytes.now result }
    ensures memory { (before : List Line) → Stands before stage → result ≡ Err StageRefusal.NoMemory → P.spelled.takes_memory ≡ false → journal_so_far before ≡ [] }
{
    match P::read(alloc, bytes, stage.version()) {
        Ok(line) => stage.take(alloc, &line, steps),
        Err(Unread::Bad(kind)) => {
            drop(stage);
            Err(StageRefusal::Bad(kind))
        }
        Err(Unread::NoMemory) => {
            drop(stage);
            Err(StageRefusal::NoMemory)
        }
    }
}

// Takes a line, and writes the line of its entry, if it makes one.
fn answer_line<P: Spelling, K: Sink, L: Ledger>(
    alloc: Global,
    stage: Stage<L>,
    sink: &mut K,
    line: &[u8],
    steps: &mut Steps<L>,
) -> Result<Stage<L>, Halt>
    requires may { MayTake stage }
    ensures responds { (before : List Line) → Stands before stage → Responds P.spelled before stage line.now (K.held sink.old) (K.held sink.new) result }
    ensures write { result ≡ Err (Halt.Unwritten Unwritten.Write) → Rose (K.faults sink.old) (K.faults sink.new) }
    ensures later { K.faults sink.old ≤ K.faults sink.new }
{
    match take_line::<P, L>(stage, alloc, line, steps) {
        Err(refusal) => Err(Halt::Refused(refusal)),
        Ok(Taken { stage: next, made }) => match put_made::<P, K>(alloc, sink, made) {
            Ok(()) => Ok(next),
            Err(why) => {
                drop(next);
                Err(Halt::Unwritten(why))
            }
        },
    }
}

// What a fault of the input comes to, at whatever stage.
fn after_fault<L: Ledger>(stage: Stage<L>, fault: LineFault) -> Result<Finish<L>, Stop>
    ensures { result ≡ at_fault fault }
{
    drop(stage);
    match fault {
        LineFault::Read => Err(Stop::Read),
        LineFault::Long(number) => Ok(Finish::Bad(number, Kind::Long)),
        LineFault::Bytes => Ok(Finish::Limit(Limit::Bytes)),
        LineFault::Lines => Ok(Finish::Limit(Limit::Lines)),
    }
}

// Why a replay stops where a line wasn't written whole.
fn after_cut(why: Unwritten) -> Stop
    ensures { result ≡ cut_by why }
{
    match why {
        Unwritten::Write => Stop::Write,
        Unwritten::NoMemory => Stop::NoMemory,
    }
}

// What the line of that number comes to, which isn't answered.
fn after_halt<L: Ledger>(number: u32, halt: Halt) -> Result<Finish<L>, Stop>
    ensures { result ≡ halted number halt }
{
    match halt {
        Halt::Refused(StageRefusal::Bad(kind)) => Ok(Finish::Bad(number, kind)),
        Halt::Refused(StageRefusal::Limit(limit)) => Ok(Finish::Limit(limit)),
        Halt::Refused(StageRefusal::NoMemory) => Err(Stop::NoMemory),
        Halt::Unwritten(why) => Err(after_cut(why)),
    }
}

// Hands on what the sink keeps back, where the next line may have to be waited for.
fn settle_before<K: Sink>(reader: &LineReader, sink: &mut K) -> Result<(), Failed>
    ensures bytes { Keeps (K.held sink.old) (K.held sink.new) }
    ensures settled { OnOk result (IsOpen reader.now.held → K.kept_back sink.new ≡ []) }
    ensures cause { HasCause (K.faults sink.old) (K.faults sink.new) result }
{
    if reader.is_open() {
        sink.settle()
    } else {
        Ok(())
    }
}

// Reads the lines of a script by a new reader, answers its events, and says what it comes to.
fn replay_lines<P: Spelling, S: Source, K: Sink, L: Ledger>(
    alloc: Global,
    source: &mut S,
    reader: &mut LineReader,
    sink: &mut K,
    steps: &mut Steps<L>,
) -> Result<Finish<L>, Stop>
    requires { reader.old ≡ fresh }
    ensures { Played P.spelled result ((source.new ≡ source.old) ⊎ LastNeededBy P.spelled (S.left source.old) (S.left source.new) (S.last_read source.new))
        (K.kept_back sink.new ≡ []) (S.left source.old) (S.left source.new) (K.held sink.old) (K.held sink.new)
        (S.faults source.old) (S.faults source.new) (K.faults sink.old) (K.faults sink.new) }
{
    let mut stage = Stage::Header(Header::new());
    let mut number = 0u32;
    'lines: loop {
        if settle_before(reader, sink).is_err() {
            drop(stage);
            return Err(Stop::Write);
        }
        match reader.advance(source) {
            Err(fault) => return after_fault(stage, fault),
            Ok(false) => return Ok(stage.at_end(number)),
            Ok(true) => {}
        }
        number += 1;
        match answer_line::<P, K, L>(alloc, stage, sink, reader.line(), steps) {
            Ok(next) => stage = next,
            Err(halt) => return after_halt(number, halt),
        }
    }
}

// Replays a script with a manager whose words are counted in the ledger of the blank, and says what it comes to.
fn replay_script<P: Spelling, S: Source, K: Sink, L: Ledger>(
    alloc: Global,
    source: &mut S,
    sink: &mut K,
    chart: Option<u32>,
    blank: Blank,
) -> Result<Decision, Stop>
    requires name { blank.name ≡ L.name }
    requires parts { blank.parts ≡ L.parts }
    requires some { 0 < blank.parts }
    ensures came { Came P.spelled chart result (S.left source.old) (S.left source.new) (K.held sink.old) (K.held sink.new) }
    ensures needed { (source.new ≡ source.old) ⊎ LastNeededBy P.spelled (S.left source.old) (S.left source.new) (S.last_read source.new) }
    ensures settled { IsSettled result (K.kept_back sink.new ≡ []) }
    ensures caused { Caused result (S.faults source.old) (S.faults source.new) (K.faults sink.old) (K.faults sink.new) }
{
    let mut reader = LineReader::new();
    let mut steps = Steps::<L>::new(blank);
    match replay_lines::<P, S, K, L>(alloc, source, &mut reader, sink, &mut steps) {
        Err(stop) => Err(stop),
        Ok(finish) => {
            let decision = finish.decision();
            let put = put_ending::<P, K, L>(alloc, sink, &finish, chart);
            drop(finish);
            match put {
                Ok(()) => Ok(decision),
                Err(why) => Err(after_cut(why)),
            }
        }
    }
}

// The status of a replay.
fn status(came: Result<Decision, Stop>) -> u8
    ensures { result ≡ status_for came }
{
    match came {
        Ok(Decision::Whole(_)) => 0,
        Ok(Decision::Bad(..)) => 3,
        Ok(Decision::Limit(_)) => 6,
        Err(Stop::Read) => 4,
        Err(Stop::Write) => 5,
        Err(Stop::NoMemory) => 7,
    }
}

/// Replays a script in a spelling: reads its lines, writes the line of each event's and each order's entry before it takes
/// the next line, and has the sink hand it on before it waits for one; then the chart of a step, if one is asked for and the
/// script is whole, and last what the script comes to. The status is 0 for a whole script, 3 for a line at fault, 4 where
/// the source fails, 5 where the sink fails, 6 for a limit, and 7 where memory runs out. Always returns.
#[inline(never)]
pub fn replay<P: Spelling, S: Source, K: Sink>(
    alloc: Global,
    source: &mut S,
    sink: &mut K,
    chart: Option<u32>,
) -> u8
    // With status 0, 3 or 6 the whole text of the bytes is written, and the status is theirs.
    ensures whole { (result ≡ 0) ⊎ ((result ≡ 3) ⊎ (result ≡ 6)) → IfSome (S.left source.old)
        (λ bytes. ReplaysBy P.spelled chart bytes (K.held sink.old) (K.held sink.new) result) }
    ensures ended { result ≡ 0 → IsAtEnd (S.left source.new) }

    // Whatever the status, no more than one byte past the greatest input is taken, and nothing is read behind bytes that
    // decide.
    ensures most { TakesAtMost 67108865 (S.left source.old) (S.left source.new) }
    ensures needed { (source.new ≡ source.old) ⊎ LastNeededBy P.spelled (S.left source.old) (S.left source.new) (S.last_read source.new) }

    // With another status what is written is a front of that text.
    ensures front { (result ≡ 4) ⊎ ((result ≡ 5) ⊎ (result ≡ 7)) → WritesFront (S.left source.old) (K.held sink.old) (K.held sink.new) (text_by P.spelled chart) }
    ensures short { result ≡ 4 → StopsShortBy P.spelled (S.left source.old) (S.left source.new) (K.held sink.old) (K.held sink.new) }
    ensures memory { result ≡ 7 → P.spelled.takes_memory ≡ false → Appends (K.held sink.old) (K.held sink.new) [] }

    // All that was written is handed on, and was before each piece that was read, also before one that failed.
    ensures settled { (result ≡ 0) ⊎ ((result ≡ 3) ⊎ ((result ≡ 4) ⊎ (result ≡ 6))) → K.kept_back sink.new ≡ [] }

    // Each status has its cause.
    ensures read { result ≡ 4 → Rose (S.faults source.old) (S.faults source.new) }
    ensures write { result ≡ 5 → Rose (K.faults sink.old) (K.faults sink.new) }
    ensures source { S.faults source.old ≤ S.faults source.new }
    ensures sink { K.faults sink.old ≤ K.faults sink.new }
    ensures statuses { (result ≡ 0) ⊎ ((result ≡ 3) ⊎ ((result ≡ 4) ⊎ ((result ≡ 5) ⊎ ((result ≡ 6) ⊎ (result ≡ 7))))) }
{
    status(replay_script::<P, S, K, Brand>(alloc, source, sink, chart, Blank::new(1)))
}
