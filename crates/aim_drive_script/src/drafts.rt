//! The lines of a script so far.

ghost use Rattle.std.specs.Prelude.{◌≡◌, List, [], true};
ghost use Rattle.aim_messages.specs.declared.script.Line.{Line as AnyLine};
ghost use Rattle.aim_script.specs.Headers.{HasName, Stands as StandsAsHeader};
ghost use Rattle.aim_script.specs.Order.{is_end};
ghost use Rattle.aim_script.specs.Versions.{version_number};
ghost use Rattle.aim_script.specs.Said.{last_of, version_after};
ghost use Rattle.aim_drive_script.specs.Drafts.{Ends, IsOpened, Judged, Leads, Stands, Takes};
ghost use Rattle.aim_drive_script.specs.Scripts.{IsDrive};

use crate::building::script_of;
use crate::checks::{fault, limit, vehicles_limit};
use crate::scripts::{DriveScript, Ending};
use aim_messages::Line;
use aim_script::{Headed, Header, HeaderRefusal, Kind, Limit, ScriptVersion, Setting};
use aim_script_reading::{LineTaker, Refusal};
use aim_text_lines::read_line;
use std::alloc::{AllocError, Global};
use std::marker::Model;
use std::mem;

/// What is kept of the lines of a header.
#[derive(Drop)]
pub enum Part {
    /// The lines before that of the vehicles.
    Header(Header),
    /// The line of the vehicles stands among them.
    Opened(Setting),
}

// Why a line isn't taken: its kind, its limit, or that memory has run out.
type NotTaken = Refusal<Kind, Limit, AllocError>;

// Whether the script may end behind the lines.
fn is_over(lines: &[Line]) -> bool
    ensures { result ≡ is_end (last_of lines.now) }
{
    matches!(lines.last(), Some(Line::End))
}

// What a line of the header leads to.
fn headed(header: Header, alloc: Global, line: &Line) -> Result<Part, NotTaken>
    requires { HasName line.now }
    ensures { (before : List AnyLine) → StandsAsHeader before header → Leads before line.now result }
{
    match header.take(alloc, line) {
        Ok(Headed::More(header)) => Ok(Part::Header(header)),
        Ok(Headed::Whole(setting)) => {
            let spans = setting.layout.ground().grid().spans;
            match vehicles_limit(spans, setting.vehicles) {
                Some(limit) => {
                    drop(setting);
                    Err(Refusal::Limit(limit))
                }
                None => Ok(Part::Opened(setting)),
            }
        }
        Err(HeaderRefusal::Bad(kind)) => Err(Refusal::Bad(kind)),
        Err(HeaderRefusal::NoMemory) => Err(Refusal::Halt(AllocError)),
    }
}

// What a line behind the header leads to.
fn opened(setting: Setting, lines: &[Line], line: &Line) -> Result<Part, NotTaken>
    requires opened { IsOpened lines.now setting }
    requires name { HasName line.now }
    ensures { Leads lines.now line.now result }
{
    if let Some(kind) = fault(lines, &setting, line) {
        drop(setting);
        return Err(Refusal::Bad(kind));
    }
    if let Some(limit) = limit(lines, line) {
        drop(setting);
        return Err(Refusal::Limit(limit));
    }
    Ok(Part::Opened(setting))
}

// What is kept behind the end of a script.
#[tactic(auto, using(crate::proofs::Drafting::not_over))]
fn setting_of(part: Part) -> Setting
    requires { (before : List AnyLine) × Stands before part × (is_end (last_of before) ≡ true) }
    ensures { (before : List AnyLine) → Stands before part → is_end (last_of before) ≡ true → IsOpened before result }
{
    match part {
        Part::Opened(setting) => setting,
        Part::Header(_) => unreachable!(),
    }
}

impl Part {
    // The version in which the next line is read.
    fn version(&self, lines: &[Line]) -> ScriptVersion
        requires { Stands lines.now self.now }
        ensures { version_number result ≡ version_after lines.now }
    {
        match self {
            Part::Header(header) => header.version(),
            Part::Opened(setting) => setting.version,
        }
    }

    // What a further line leads to.
    fn after(self, alloc: Global, lines: &[Line], line: &Line) -> Result<Part, NotTaken>
        requires stands { Stands lines.now self }
        requires name { HasName line.now }
        ensures { Leads lines.now line.now result }
    {
        match self {
            Part::Header(header) => headed(header, alloc, line),
            Part::Opened(setting) => opened(setting, lines, line),
        }
    }
}

/// The lines of a script so far, none of which is at fault behind those before it.
///
/// Contracts see the lines.
#[derive(Drop)]
pub(crate) struct Draft {
    lines: Vec<Line>,
    part: Part,
}

impl Model for Draft {
    ghost use Rattle.std.specs.Prelude.{List};
    ghost use Rattle.aim_messages.specs.declared.script.Line.{Line};
    ghost use Rattle.aim_drive_script.specs.Drafts.{IsDraft};

    ghost Value = { List Line };

    ghost view = { λ d. d.lines.items };

    ghost invariant = { λ d. IsDraft d.lines.items d.part };
}

impl Draft {
    /// No line yet.
    pub(crate) fn new(alloc: Global) -> Draft
        ensures { result ≡ [] }
    {
        Draft {
            lines: Vec::new(alloc),
            part: Part::Header(Header::new()),
        }
    }

    /// The lines.
    pub(crate) fn lines(&self) -> &[Line]
        ensures lines { result.now ≡ self.now }
        ensures drive { IsDrive self.now }
    {
        &self.lines
    }

    // Takes the next line.
    fn take_line(self, alloc: Global, line: &Line) -> Result<Draft, NotTaken>
        requires { HasName line.now }
        ensures { Takes self line.now result }
    {
        let Draft { mut lines, part } = self;
        match part.after(alloc, &lines, line) {
            Err(why) => Err(why),
            Ok(part) => match lines.push(*line) {
                Ok(()) => Ok(Draft { lines, part }),
                Err(_) => {
                    drop(part);
                    Err(Refusal::Halt(AllocError))
                }
            },
        }
    }

    // The draft behind the next line of a script, without its byte 10.
    fn after(self, alloc: Global, bytes: &[u8]) -> Result<Draft, NotTaken>
        ensures { Judged self bytes.now result }
    {
        let version = self.part.version(&self.lines).number();
        match read_line(bytes, version) {
            Ok(line) => self.take_line(alloc, &line),
            Err(kind) => {
                drop(self);
                Err(Refusal::Bad(Kind::Spelling(kind)))
            }
        }
    }

    /// The script, where it is whole.
    pub(crate) fn script(self, alloc: Global) -> Result<DriveScript, Ending>
        requires { is_end (last_of self) ≡ true }
        ensures { Ends self result }
    {
        let Draft { lines, part } = self;
        let setting = setting_of(part);
        match script_of(alloc, setting, &lines) {
            Ok(script) => Ok(script),
            Err(_) => Err(Ending::NoMemory),
        }
    }
}

impl LineTaker for Draft {
    ghost use Rattle.std.specs.Prelude.{◌≡◌};
    ghost use Rattle.aim_drive_script.specs.Verdicts.{drive_rules};

    type Line = Line;

    type Kind = Kind;

    type Limit = Limit;

    type Halt = AllocError;

    ghost rules = { drive_rules };

    ghost stands = { λ first before d. d ≡ before };

    ghost rests = { λ first before d. Unit {0} };

    ghost halts = { λ first before d why. Unit {0} };

    fn take(
        &mut self,
        alloc: Global,
        bytes: &[u8],
    ) -> Result<(), Refusal<Kind, Limit, AllocError>> {
        let draft = mem::replace(self, Draft::new(alloc));
        match draft.after(alloc, bytes) {
            Ok(next) => {
                *self = next;
                Ok(())
            }
            Err(why) => Err(why),
        }
    }

    fn is_whole(&self) -> bool {
        is_over(&self.lines)
    }

    ghost stands_rests = { λ first before d stands. tt };
}
