//! A session of lines: what each line comes to, and that a line at fault changes nothing.

ghost use Rattle.std.specs.Prelude.{◌≡◌, ◌<◌, List, IfSome};
ghost use Rattle.aim_messages.specs.declared.script.Line.{Line};
ghost use Rattle.aim_script.specs.Headers.{IsSet, Stands};

use aim_line_session::{Answered, LineSession, Unopened, Untaken};
use aim_messages::Reply;
use aim_script::{Headed, Header, HeaderRefusal, Setting};
use aim_text_lines::read_line;
use aim_tiles::Steps;
use std::alloc::Global;
use std::marker::Brand;
use std::process::Abort;
use std::sync::ledger::{Blank, Ledger};

// The lines of a header before that of the vehicles.
const LINES: [&[u8]; 7] = [
    b"aim 1",
    b"grid 4000 4 100 0 450 4096",
    b"times 1500 25 20 0 0",
    b"lanes 2",
    b"move 0 straight line 0 1500 4000 1500 40",
    b"move 1 straight line 2500 0 2500 4000 40",
    b"policy plain fcfs",
];

// The header behind one more line, where that goes on with it.
fn header_behind(alloc: Global, header: Header, words: &[u8]) -> Option<Header>
    requires { (before : List Line) × Stands before header }
    ensures { IfSome result (λ next. (before : List Line) × Stands before next) }
{
    let Ok(line) = read_line(words, header.version().number()) else {
        return None;
    };
    match header.take(alloc, &line) {
        Ok(Headed::More(next)) => Some(next),
        Ok(Headed::Whole(setting)) => {
            drop(setting);
            None
        }
        Err(HeaderRefusal::Bad(_kind)) => None,
        Err(HeaderRefusal::NoMemory) => None,
    }
}

// What a header with that line of vehicles behind it says.
fn setting_of(alloc: Global, header: Header, words: &[u8]) -> Option<Setting>
    requires { (before : List Line) × Stands before header }
    ensures { IfSome result (λ setting. (before : List Line) × IsSet before setting) }
{
    let Ok(line) = read_line(words, header.version().number()) else {
        return None;
    };
    match header.take(alloc, &line) {
        Ok(Headed::Whole(setting)) => Some(setting),
        Ok(Headed::More(header)) => {
            drop(header);
            None
        }
        Err(HeaderRefusal::Bad(_kind)) => None,
        Err(HeaderRefusal::NoMemory) => None,
    }
}

// What the lines say, with that line of vehicles behind them.
fn made(alloc: Global, vehicles: &[u8]) -> Option<Setting>
    ensures { IfSome result (λ setting. (before : List Line) × IsSet before setting) }
{
    let mut header = Header::new();
    for words in &LINES {
        header = header_behind(alloc, header, words)?;
    }
    setting_of(alloc, header, vehicles)
}

// What a line of words comes to: the position and the reply of its entry, if it made one.
#[derive(Drop)]
enum Outcome {
    Quiet,
    Entry(u32, Reply),
    Bad,
    Full,
}

// Whether it is the entry at that position, a Confirm or not.
fn is_entry(outcome: &Outcome, place: u32, confirms: bool) -> bool {
    match outcome {
        Outcome::Entry(position, reply) => {
            *position == place && matches!(reply, Reply::Confirm { .. }) == confirms
        }
        _ => false,
    }
}

// Whether it is a line at fault.
fn is_bad(outcome: &Outcome) -> bool {
    matches!(outcome, Outcome::Bad)
}

// Takes a line of words.
fn taken<L: Ledger>(session: &mut LineSession<L>, words: &[u8], steps: &mut Steps<L>) -> Outcome {
    match session.take_words(words, steps) {
        Ok(None) => Outcome::Quiet,
        Ok(Some(Answered { position, entry })) => Outcome::Entry(position, entry.reply),
        Err(Untaken::Bad(_)) => Outcome::Bad,
        Err(Untaken::Full) => Outcome::Full,
    }
}

// Opens a session, and takes lines of which some are at fault.
fn take_lines<L: Ledger>(rt: &impl Abort, alloc: Global, setting: Setting, blank: Blank)
    requires setting { (before : List Line) × IsSet before setting }
    requires name { blank.name ≡ L.name }
    requires parts { blank.parts ≡ L.parts }
    requires some { 0 < blank.parts }
{
    let mut steps = Steps::<L>::new(blank);
    let mut session = match LineSession::open(alloc, setting) {
        Ok(session) => session,
        Err(Unopened::Limit(_)) | Err(Unopened::NoMemory) => panic!(rt; "no session"),
    };
    assert!(rt; session.version().number() == 1 && session.layout().policies() == 1);
    let granted = b"0 0 request 1 0 straight 10 500 500 0 1000 700 car";
    assert!(rt; is_entry(&taken(&mut session, granted, &mut steps), 0, true));
    assert!(rt; is_bad(&taken(&mut session, b"9 0 cancel 1 0", &mut steps)));
    assert!(rt; is_bad(&taken(&mut session, b"nonsense", &mut steps)));
    assert!(rt; session.entries() == 1 && !session.is_ended());
    let refused = b"1 0 request 1 1 straight 10 500 500 0 1000 700 car";
    assert!(rt; is_entry(&taken(&mut session, refused, &mut steps), 1, false));
    assert!(rt; session.layout().ground().grid().n == 4);
    assert!(rt; session.chart_row(1, 15).0 == 0b1110);
    let ended = taken(&mut session, b"end", &mut steps);
    assert!(rt; matches!(ended, Outcome::Quiet));
    assert!(rt; session.is_ended() && is_bad(&taken(&mut session, b"end", &mut steps)));
}

#[test]
fn a_line_at_fault_changes_nothing(rt: HostRuntime) {
    let setting = made(rt.alloc(), b"vehicles 8").expect(&rt, "no setting");
    take_lines::<Brand>(&rt, rt.alloc(), setting, Blank::new(1));
}
