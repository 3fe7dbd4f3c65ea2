//! The program, over any source and sink.

ghost use Rattle.std.specs.Prelude.{◌≡◌, ◌≤◌, [], map, IfSome};
ghost use Rattle.std.specs.String.{string_bytes};
ghost use Rattle.std.specs.Io.KnownBytes.{Keeps};
ghost use Rattle.aim.specs.Commands.{IsWithin, command_of as command_in};
ghost use Rattle.aim.specs.Runs.{Answers, IsStatus, IsWhole, Settles};

use crate::help::VERSIONS;
use crate::words::{Command, command_of};
use aim_agents::Gate;
use aim_drive_command::{drive, generate, print_traffic};
use aim_grid_command::grid;
use aim_io::{Sink, Source};
use aim_mail_command::mail;
use aim_replay_command::{JsonLines, WordLines, replay};
use aim_script_reading::put_text;
use aim_session_command::session;
use aim_shards::Hold;
use aim_shards_command::shards;
use std::alloc::Global;
use std::sync::Wait;
use std::thread::Threads;

// A hold that does nothing.
struct NoHold;

impl Hold for NoHold {
    fn holding(&self, _caller: u32, _call: u32) {}
}

// Does what the command asks for, if the words name one.
fn obey<R: Threads + Wait + Sync, S: Source, K: Sink, G: Gate>(
    rt: &R,
    alloc: Global,
    told: Option<Command>,
    source: &mut S,
    sink: &mut K,
    gate: &G,
) -> u8
    requires within { IfSome told IsWithin }
    ensures { Answers told (source.new ≡ source.old) (K.kept_back sink.new ≡ []) (S.last_read source.new)
        (record { left = S.left source.old; source_faults = S.faults source.old; held = K.held sink.old; sink_faults = K.faults sink.old })
        (record { left = S.left source.new; source_faults = S.faults source.new; held = K.held sink.new; sink_faults = K.faults sink.new }) result }
{
    let Some(command) = told else {
        return put_text(sink, b"usage\n", 2);
    };
    match command {
        Command::Replay => replay::<WordLines, S, K>(alloc, source, sink, None),
        Command::Chart(step) => replay::<WordLines, S, K>(alloc, source, sink, Some(step)),
        Command::ReplayJson => replay::<JsonLines, S, K>(alloc, source, sink, None),
        Command::Session => session(alloc, source, sink),
        Command::Drive(workers) => drive(rt, alloc, workers, source, sink, gate),
        Command::Grid(workers) => grid(rt, alloc, workers, source, sink, gate),
        Command::Generate(number, count) => generate(rt, alloc, number, count, sink),
        Command::Traffic(number, count) => print_traffic(alloc, number, count, sink),
        Command::Shards(workers) => shards(rt, alloc, workers, source, sink, &NoHold),
        Command::Mail(workers) => mail(rt, alloc, workers, source, sink),
        Command::Help(topic) => put_text(sink, topic.text(), 0),
        Command::Version => put_text(sink, VERSIONS, 0),
    }
}

// Hands on what the sink keeps back, where something whole was written, and answers the status to end with: the one that it
// is given, or 5 where the sink fails. With status 4 a replay has handed on all, and others have written nothing.
fn settle<K: Sink>(sink: &mut K, status: u8) -> u8
    requires { IsStatus status }
    ensures bytes { Keeps (K.held sink.old) (K.held sink.new) }
    ensures settles { Settles status (K.kept_back sink.new ≡ []) (K.faults sink.old) (K.faults sink.new) result }
    ensures read { status ≡ 4 → sink.new ≡ sink.old }
    ensures sink { K.faults sink.old ≤ K.faults sink.new }
{
    if status == 4 || status == 5 {
        return status;
    }
    match sink.settle() {
        Ok(()) => status,
        Err(_) if status == 7 => 7,
        Err(_) => 5,
    }
}

/// Does what the words after the program's name ask for, and answers the status to end with. It is
/// 0 where a script was whole, 2 for words outside the table, 3 for a line at fault, 4 where the
/// source fails, 5 where the sink fails, 6 for a limit, and 7 where memory runs out.
///
/// With the words `drive`, `generate`, `grid` and `shards` it waits for turns, with `mail` for messages, and returns where
/// these come. Before each call of a vehicle in `drive` and `grid` it tells the gate.
pub fn run<R: Threads + Wait + Sync, S: Source, K: Sink, G: Gate>(
    rt: &R,
    alloc: Global,
    words: &[String],
    source: &mut S,
    sink: &mut K,
    gate: &G,
) -> u8
    // What the command of the words does (`Does`, with THE HEADLINE for `drive`), by what source and sink were before and are
    // after; the usage for words outside the table; and each status has its cause.
    ensures answers { Answers (command_in (map string_bytes words.now)) (source.new ≡ source.old) (K.kept_back sink.new ≡ []) (S.last_read source.new)
        (record { left = S.left source.old; source_faults = S.faults source.old; held = K.held sink.old; sink_faults = K.faults sink.old })
        (record { left = S.left source.new; source_faults = S.faults source.new; held = K.held sink.new; sink_faults = K.faults sink.new }) result }

    // All that is written is handed on, where it is whole.
    ensures settled { IsWhole result → K.kept_back sink.new ≡ [] }
{
    let status = obey(rt, alloc, command_of(words), source, sink, gate);
    settle(sink, status)
}
