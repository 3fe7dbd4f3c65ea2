//! How far a script has come, line by line.

ghost use Rattle.std.specs.Prelude.{◌≡◌, ◌≤◌, List, [], length, true};
ghost use Rattle.aim_messages.specs.declared.messages.Message.{Message as AnyMessage};
ghost use Rattle.aim_messages.specs.declared.script.Line.{Line};
ghost use Rattle.aim_script.specs.Headers.{HasName};
ghost use Rattle.aim_script.specs.Order.{is_end};
ghost use Rattle.aim_script.specs.Said.{last_of};
ghost use Rattle.aim_script.specs.Versions.{version_number};
ghost use Rattle.aim_mail_script.specs.Stages.{Ends, Judged, Stands, Takes, version_at};

use crate::checks::{event_fault, vehicles_limit};
use crate::scripts::{Event, EventScript};
use aim_messages::{Line, Message};
use aim_script::{Headed, Header, HeaderRefusal, Kind, Limit, ScriptVersion, Setting};
use aim_script_reading::{LineTaker, Refusal};
use aim_text_lines::read_line;
use std::alloc::{AllocError, Global};
use std::mem;

/// A script so far, and the version of its lines.
#[derive(Drop)]
pub(crate) struct Draft {
    pub version: ScriptVersion,
    pub script: EventScript,
}

/// How far a script has come, and what is kept of the lines so far.
#[derive(Drop)]
pub(crate) enum Stage {
    /// The lines before that of the vehicles.
    Header(Header),
    /// `begin` comes next.
    Begin(Setting),
    /// Events come, or `end`.
    Body(Draft),
    /// Nothing comes any more.
    Over(Draft),
}

// Why a line isn't taken: its kind, its limit, or that memory has run out.
type NotTaken = Refusal<Kind, Limit, AllocError>;

// Takes a line before that of the vehicles, or this one.
fn headed(header: Header, alloc: Global, line: &Line) -> Result<Stage, NotTaken>
    requires { HasName line.now }
    ensures { (before : List Line) → Stands before (Stage.Header header) → Takes before line.now result }
{
    match header.take(alloc, line) {
        Ok(Headed::More(header)) => Ok(Stage::Header(header)),
        Ok(Headed::Whole(setting)) => {
            let spans = setting.layout.ground().grid().spans;
            match vehicles_limit(spans, setting.vehicles) {
                Some(limit) => {
                    drop(setting);
                    Err(Refusal::Limit(limit))
                }
                None => Ok(Stage::Begin(setting)),
            }
        }
        Err(HeaderRefusal::Bad(kind)) => Err(Refusal::Bad(kind)),
        Err(HeaderRefusal::NoMemory) => Err(Refusal::Halt(AllocError)),
    }
}

// Takes the line behind that of the vehicles.
fn begun(setting: Setting, alloc: Global, line: &Line) -> Result<Stage, NotTaken>
    ensures { (before : List Line) → Stands before (Stage.Begin setting) → Takes before line.now result }
{
    match line {
        Line::Begin => {
            let Setting {
                version,
                layout,
                vehicles,
                ..
            } = setting;
            let events = Vec::new(alloc);
            let script = EventScript {
                layout,
                vehicles,
                events,
            };
            Ok(Stage::Body(Draft { version, script }))
        }
        _ => {
            drop(setting);
            Err(Refusal::Bad(Kind::Order))
        }
    }
}

// Takes a message of a vehicle.
fn gathered(
    mut draft: Draft,
    vehicle: u32,
    moment: u32,
    message: &Message,
) -> Result<Stage, NotTaken>
    ensures { (before : List Line) → Stands before (Stage.Body draft) → Takes before (Line.Event vehicle moment message.now) result }
{
    if let Some(kind) = event_fault(draft.script.vehicles, vehicle, moment) {
        drop(draft);
        return Err(Refusal::Bad(kind));
    }
    let event = Event {
        vehicle,
        moment,
        message: *message,
    };
    match draft.script.events.push(event) {
        Ok(()) => Ok(Stage::Body(draft)),
        Err(_) => {
            drop(draft);
            Err(Refusal::Halt(AllocError))
        }
    }
}

// Takes a line of the body.
fn continued(draft: Draft, line: &Line) -> Result<Stage, NotTaken>
    ensures { (before : List Line) → Stands before (Stage.Body draft) → Takes before line.now result }
{
    match line {
        Line::Event {
            vehicle,
            moment,
            message,
        } => gathered(draft, *vehicle, *moment, message),
        Line::End => Ok(Stage::Over(draft)),
        _ => {
            drop(draft);
            Err(Refusal::Bad(Kind::Order))
        }
    }
}

impl Stage {
    /// No line was read.
    pub(crate) fn new() -> Stage
        ensures { Stands [] result }
    {
        Stage::Header(Header::new())
    }

    // The version in which the next line is read.
    fn version(&self) -> ScriptVersion
        ensures { version_number result ≡ version_at self.now }
    {
        match self {
            Stage::Header(header) => header.version(),
            Stage::Begin(setting) => setting.version,
            Stage::Body(draft) | Stage::Over(draft) => draft.version,
        }
    }

    // Takes the next line of a script.
    fn take_line(self, alloc: Global, line: &Line) -> Result<Stage, NotTaken>
        requires { HasName line.now }
        ensures { (before : List Line) → Stands before self → Takes before line.now result }
    {
        match self {
            Stage::Header(header) => headed(header, alloc, line),
            Stage::Begin(setting) => begun(setting, alloc, line),
            Stage::Body(draft) => continued(draft, line),
            Stage::Over(draft) => {
                drop(draft);
                Err(Refusal::Bad(Kind::Order))
            }
        }
    }

    // The stage behind the next line of a script, without its byte 10.
    fn after(self, alloc: Global, bytes: &[u8]) -> Result<Stage, NotTaken>
        ensures { (before : List Line) → Stands before self → Judged before bytes.now result }
    {
        match read_line(bytes, self.version().number()) {
            Ok(line) => self.take_line(alloc, &line),
            Err(kind) => {
                drop(self);
                Err(Refusal::Bad(Kind::Spelling(kind)))
            }
        }
    }

    /// The script, which is whole.
    #[tactic(auto, using(crate::proofs::Staging::ends_whole, crate::proofs::Staging::not_over))]
    pub(crate) fn script(self) -> EventScript
        requires { (before : List Line) × Stands before self × (is_end (last_of before) ≡ true) }
        ensures { (before : List Line) → Stands before self → is_end (last_of before) ≡ true → length before ≤ 262144 → Ends before result }
    {
        match self {
            Stage::Over(draft) => draft.script,
            _ => unreachable!(),
        }
    }
}

impl LineTaker for Stage {
    ghost use Rattle.std.specs.Prelude.{List};
    ghost use Rattle.aim_mail_script.specs.Stages.{Stands};
    ghost use Rattle.aim_mail_script.specs.Verdicts.{event_rules};

    type Line = Line;

    type Kind = Kind;

    type Limit = Limit;

    type Halt = AllocError;

    ghost rules = { event_rules };

    ghost stands = { λ first before s. Stands before s };

    ghost rests = { λ first before s. Unit {0} };

    ghost halts = { λ first before s why. Unit {0} };

    fn take(
        &mut self,
        alloc: Global,
        bytes: &[u8],
    ) -> Result<(), Refusal<Kind, Limit, AllocError>> {
        let stage = mem::replace(self, Stage::new());
        match stage.after(alloc, bytes) {
            Ok(next) => {
                *self = next;
                Ok(())
            }
            Err(why) => Err(why),
        }
    }

    fn is_whole(&self) -> bool {
        matches!(self, Stage::Over(_))
    }

    ghost stands_rests = { λ first before s stands. tt };
}
