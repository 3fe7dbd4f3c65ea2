//! How far a script has come, line by line.

ghost use Rattle.std.specs.Prelude.{◌≡◌, ◌≤◌, ◌+◌, ◌++◌, ◌∷◌, List, [], length, None, Ok, false, nat_le};
ghost use Rattle.aim_messages.specs.declared.script.Line.{Line as AnyPlain};
ghost use Rattle.aim_messages.specs.declared.script.Line.TheVariants as plain;
ghost use Rattle.aim_script.specs.declared.headers.Header.{Header as AnyHeader};
ghost use Rattle.aim_script.specs.Headers.{HasName, Stands as StandsAsHeader};
ghost use Rattle.aim_script.specs.Said.{vehicles_in};
ghost use Rattle.aim_script.specs.Versions.{version_number};
ghost use Rattle.aim_grid_script.specs.declared.lines.GridLine.{GridLine as AnyLine};
ghost use Rattle.aim_grid_script.specs.declared.lines.GridLine.TheVariants as line_of;
ghost use Rattle.aim_grid_script.specs.Spelled.{IsBare};
ghost use Rattle.aim_grid_script.specs.declared.stages.GridStage.TheVariants as stage;
ghost use Rattle.aim_grid_script.specs.Kinds.{leg_kind_of};
ghost use Rattle.aim_grid_script.specs.Said.{begins_block, parted, version_of};
ghost use Rattle.aim_grid_script.specs.Stages.{AreBlocks, Begins, Ends, EndsBlock, IsCounted, Judged, Sets, Settles, Stands, Takes, WasRead, ending_of, is_order, refusal_of};

use crate::checks::{LAST_STEP, has_leg, is_bad_plan, spans_in, vehicles_limit};
use crate::decisions::GridKind;
use crate::lines::{GridLine, read_grid_line};
use crate::routes::{PlannedLeg, Routes};
use aim_driver::DrivePlan;
use aim_geometry::is_outside;
use aim_layout::Layout;
use aim_messages::Line;
use aim_script::{Headed, Header, Kind, Limit, ScriptVersion, Setting};
use aim_script_reading::{LineTaker, Refusal};
use std::alloc::{AllocError, Global};
use std::mem;

/// The blocks of a script so far, one for each crossing.
#[derive(Drop)]
pub struct Blocks {
    /// How many there are to be.
    pub count: u32,
    /// The layouts of those before the last.
    pub whole: Vec<Layout>,
    /// What the last says so far.
    pub header: Header,
}

/// How far a script has come, and what is kept of the lines so far.
#[derive(Drop)]
pub enum GridStage {
    /// The line of the crossings comes next.
    Opening,
    /// The first block comes next, of so many.
    Counted(u32),
    /// A block goes on, or the next comes, or the line of the vehicles.
    Blocks(Blocks),
    /// `begin` comes next.
    Begin(Routes),
    /// `until` comes next.
    Until(Routes),
    /// Legs come, or `end`.
    Legs(Routes),
    /// Nothing comes any more.
    Over(Routes),
}

/// Why a line isn't taken.
pub enum GridRefusal {
    /// It is at fault.
    Bad(GridKind),
    /// It goes past a limit.
    Limit(Limit),
    /// Memory has run out.
    NoMemory,
}

// A line that may not stand there.
const OUT_OF_ORDER: GridRefusal = GridRefusal::Bad(GridKind::Plain(Kind::Order));

// Takes the first line.
fn counted(line: &GridLine) -> Result<GridStage, GridRefusal>
    ensures { Takes [] line.now result }
{
    match line {
        GridLine::Crossings(count) if is_outside(*count, 8) => {
            Err(GridRefusal::Bad(GridKind::Crossing))
        }
        GridLine::Crossings(count) => Ok(GridStage::Counted(*count)),
        _ => Err(OUT_OF_ORDER),
    }
}

// The header that an `aim` line begins.
fn begun(alloc: Global, number: u32) -> Result<Header, aim_script::HeaderRefusal>
    ensures { Begins number result }
{
    match Header::new().take(alloc, &Line::Version(number)) {
        Ok(Headed::More(header)) => Ok(header),
        Ok(Headed::Whole(setting)) => {
            drop(setting);
            Err(aim_script::HeaderRefusal::Bad(Kind::Order))
        }
        Err(why) => Err(why),
    }
}

// Whether it is this kind.
fn is_order(kind: Kind) -> bool
    ensures { result ≡ is_order kind }
{
    matches!(kind, Kind::Order)
}

// Why an `aim` line of the same version, or of another, doesn't end a block: its place comes before its version.
fn ending(why: aim_script::HeaderRefusal, same: bool) -> aim_script::HeaderRefusal
    ensures { result ≡ ending_of same why }
{
    match why {
        aim_script::HeaderRefusal::Bad(kind) => {
            if same || is_order(kind) {
                aim_script::HeaderRefusal::Bad(kind)
            } else {
                aim_script::HeaderRefusal::Bad(Kind::Version)
            }
        }
        aim_script::HeaderRefusal::NoMemory => aim_script::HeaderRefusal::NoMemory,
    }
}

// The layout of a block that an `aim` line ends.
fn ended(header: Header, alloc: Global, number: u32) -> Result<Layout, aim_script::HeaderRefusal>
    ensures { (block : List AnyPlain) → StandsAsHeader block header → EndsBlock block number result }
{
    let version = header.version().number();
    let same = number == u32::from(version);
    match header.take(alloc, &Line::Vehicles(1)) {
        Ok(Headed::Whole(setting)) => {
            if same {
                Ok(setting.layout)
            } else {
                drop(setting);
                Err(aim_script::HeaderRefusal::Bad(Kind::Version))
            }
        }
        Ok(Headed::More(header)) => {
            drop(header);
            Err(aim_script::HeaderRefusal::Bad(Kind::Order))
        }
        Err(why) => Err(ending(why, same)),
    }
}

// Why a line of a block isn't taken.
fn told(why: aim_script::HeaderRefusal) -> GridRefusal
    ensures { result ≡ refusal_of why }
{
    match why {
        aim_script::HeaderRefusal::Bad(kind) => GridRefusal::Bad(GridKind::Plain(kind)),
        aim_script::HeaderRefusal::NoMemory => GridRefusal::NoMemory,
    }
}

// Takes the `aim` line of the first block.
fn first_block(count: u32, alloc: Global, number: u32) -> Result<GridStage, GridRefusal>
    ensures { (before : List AnyLine) → IsCounted before count → Takes before (line_of.Plain (plain.Version number)) result }
{
    match begun(alloc, number) {
        Ok(header) => Ok(GridStage::Blocks(Blocks {
            count,
            whole: Vec::new(alloc),
            header,
        })),
        Err(why) => Err(told(why)),
    }
}

// Takes a line where the first block comes next.
fn opened(count: u32, alloc: Global, line: &GridLine) -> Result<GridStage, GridRefusal>
    ensures { (before : List AnyLine) → IsCounted before count → Takes before line.now result }
{
    match line {
        GridLine::Plain(Line::Version(number)) => first_block(count, alloc, *number),
        _ => Err(OUT_OF_ORDER),
    }
}

// What is kept behind the line of the vehicles, where there are not too many.
fn settled(
    alloc: Global,
    layouts: Vec<Layout>,
    version: ScriptVersion,
    vehicles: u32,
) -> Result<GridStage, GridRefusal>
    ensures { Settles version layouts.items vehicles result }
{
    match vehicles_limit(spans_in(&layouts), vehicles) {
        Some(limit) => {
            drop(layouts);
            Err(GridRefusal::Limit(limit))
        }
        None => Ok(GridStage::Begin(Routes {
            version,
            layouts,
            vehicles,
            until: 0,
            legs: Vec::new(alloc),
        })),
    }
}

// What the last block describes, where the line of the vehicles ends it.
fn last_setting(
    header: Header,
    alloc: Global,
    vehicles: u32,
) -> Result<Setting, aim_script::HeaderRefusal>
    ensures { (block : List AnyPlain) → StandsAsHeader block header → Sets block vehicles result }
{
    match header.take(alloc, &Line::Vehicles(vehicles)) {
        Ok(Headed::Whole(setting)) => Ok(setting),
        Ok(Headed::More(header)) => {
            drop(header);
            Err(aim_script::HeaderRefusal::Bad(Kind::Order))
        }
        Err(why) => Err(why),
    }
}

// What is kept behind the line of the vehicles, where the last block comes behind these.
fn joined(
    alloc: Global,
    mut whole: Vec<Layout>,
    setting: Setting,
    vehicles: u32,
) -> Result<GridStage, GridRefusal>
    ensures { Settles setting.version (whole.items ++ setting.layout ∷ []) vehicles result }
{
    let Setting {
        version,
        layout,
        ..
    } = setting;
    match whole.push(layout) {
        Ok(()) => settled(alloc, whole, version, vehicles),
        Err(failed) => {
            drop(failed);
            drop(whole);
            Err(GridRefusal::NoMemory)
        }
    }
}

// Whether one block behind these is the last of so many.
fn has_all(count: u32, whole: &[Layout]) -> bool
    ensures { result ≡ nat_le count (length whole.now + 1) }
{
    whole.len() >= count as usize || count as usize - whole.len() == 1
}

// Begins a further block behind these, of which the last, of that layout, has just ended.
fn further_block(
    count: u32,
    mut whole: Vec<Layout>,
    layout: Layout,
    alloc: Global,
    number: u32,
) -> Result<GridStage, GridRefusal>
    requires { nat_le count (length whole.items + 1) ≡ false }
    ensures { (before : List AnyLine) (header : AnyHeader) → AreBlocks before record { count = count; whole = whole; header = header } → (let p = parted before in EndsBlock p.block number (Ok layout)) → Takes before (line_of.Plain (plain.Version number)) result }
{
    match begun(alloc, number) {
        Err(why) => {
            drop(layout);
            drop(whole);
            Err(told(why))
        }
        Ok(header) => match whole.push(layout) {
            Err(failed) => {
                drop(failed);
                drop(header);
                drop(whole);
                Err(GridRefusal::NoMemory)
            }
            Ok(()) => Ok(GridStage::Blocks(Blocks {
                count,
                whole,
                header,
            })),
        },
    }
}

impl Blocks {
    // Takes the `aim` line of the next block.
    fn next(self, alloc: Global, number: u32) -> Result<GridStage, GridRefusal>
        ensures { (before : List AnyLine) → AreBlocks before self → Takes before (line_of.Plain (plain.Version number)) result }
    {
        if has_all(self.count, &self.whole) {
            drop(self);
            return Err(OUT_OF_ORDER);
        }
        let Blocks {
            count,
            whole,
            header,
        } = self;
        match ended(header, alloc, number) {
            Err(why) => {
                drop(whole);
                Err(told(why))
            }
            Ok(layout) => further_block(count, whole, layout, alloc, number),
        }
    }

    // Takes the line of the vehicles.
    fn close(self, alloc: Global, vehicles: u32) -> Result<GridStage, GridRefusal>
        ensures { (before : List AnyLine) → AreBlocks before self → Takes before (line_of.Plain (plain.Vehicles vehicles)) result }
    {
        if !has_all(self.count, &self.whole) {
            drop(self);
            return Err(OUT_OF_ORDER);
        }
        let Blocks {
            count: _,
            whole,
            header,
        } = self;
        match last_setting(header, alloc, vehicles) {
            Ok(setting) => joined(alloc, whole, setting, vehicles),
            Err(why) => {
                drop(whole);
                Err(told(why))
            }
        }
    }

    // Takes another line of the last block.
    fn more(self, alloc: Global, line: &Line) -> Result<GridStage, GridRefusal>
        requires name { HasName line.now }
        requires begins { begins_block line.now ≡ false }
        requires vehicles { vehicles_in line.now ≡ None }
        ensures { (before : List AnyLine) → AreBlocks before self → Takes before (line_of.Plain line.now) result }
    {
        let Blocks {
            count,
            whole,
            header,
        } = self;
        match header.take(alloc, line) {
            Err(why) => {
                drop(whole);
                Err(told(why))
            }
            Ok(Headed::Whole(setting)) => {
                drop(setting);
                drop(whole);
                Err(OUT_OF_ORDER)
            }
            Ok(Headed::More(header)) => Ok(GridStage::Blocks(Blocks {
                count,
                whole,
                header,
            })),
        }
    }

    // Takes the next line.
    fn take(self, alloc: Global, line: &GridLine) -> Result<GridStage, GridRefusal>
        requires { WasRead line.now }
        ensures { (before : List AnyLine) → AreBlocks before self → Takes before line.now result }
    {
        match line {
            GridLine::Plain(Line::Version(number)) => self.next(alloc, *number),
            GridLine::Plain(Line::Vehicles(vehicles)) => self.close(alloc, *vehicles),
            GridLine::Plain(line) => self.more(alloc, line),
            _ => {
                drop(self);
                Err(OUT_OF_ORDER)
            }
        }
    }
}

// Takes `begin`.
fn after_begin(routes: Routes) -> Result<GridStage, GridRefusal>
    ensures { (before : List AnyLine) → Stands before (stage.Begin routes) → Takes before (line_of.Plain plain.Begin) result }
{
    Ok(GridStage::Until(routes))
}

// Takes the line behind that of the vehicles.
fn opens(routes: Routes, line: &GridLine) -> Result<GridStage, GridRefusal>
    ensures { (before : List AnyLine) → Stands before (stage.Begin routes) → Takes before line.now result }
{
    match line {
        GridLine::Plain(Line::Begin) => after_begin(routes),
        _ => {
            drop(routes);
            Err(OUT_OF_ORDER)
        }
    }
}

// Takes `until`.
fn after_until(mut routes: Routes, step: u32) -> Result<GridStage, GridRefusal>
    ensures { (before : List AnyLine) → Stands before (stage.Until routes) → Takes before (line_of.Plain (plain.Until step)) result }
{
    if is_outside(step, LAST_STEP) {
        drop(routes);
        return Err(GridRefusal::Bad(GridKind::Plain(Kind::Moment)));
    }
    routes.until = step;
    Ok(GridStage::Legs(routes))
}

// Takes the line behind `begin`.
fn ends(routes: Routes, line: &GridLine) -> Result<GridStage, GridRefusal>
    ensures { (before : List AnyLine) → Stands before (stage.Until routes) → Takes before line.now result }
{
    match line {
        GridLine::Plain(Line::Until(step)) => after_until(routes, *step),
        _ => {
            drop(routes);
            Err(OUT_OF_ORDER)
        }
    }
}

// Takes `end`.
fn after_end(routes: Routes) -> Result<GridStage, GridRefusal>
    ensures { (before : List AnyLine) → Stands before (stage.Legs routes) → Takes before (line_of.Plain plain.End) result }
{
    Ok(GridStage::Over(routes))
}

// What is wrong with a leg.
fn leg_fault(routes: &Routes, vehicle: u32, crossing: u32, plan: &DrivePlan) -> Option<GridKind>
    ensures { result ≡ leg_kind_of (length routes.now.layouts.items) routes.now.vehicles routes.now.legs.items vehicle crossing plan.now }
{
    let legs = &routes.legs;
    if vehicle >= routes.vehicles {
        Some(GridKind::Plain(Kind::Vehicle))
    } else if crossing as usize >= routes.layouts.len()
        || (has_leg(vehicle, crossing, legs) || is_bad_plan(plan))
    {
        Some(GridKind::Route)
    } else {
        None
    }
}

// Takes a leg.
fn routed(mut routes: Routes, leg: PlannedLeg) -> Result<GridStage, GridRefusal>
    requires { IsBare leg.plan }
    ensures { (before : List AnyLine) → Stands before (stage.Legs routes) → Takes before (line_of.Leg leg.vehicle leg.crossing leg.plan) result }
{
    if let Some(kind) = leg_fault(&routes, leg.vehicle, leg.crossing, &leg.plan) {
        drop(routes);
        return Err(GridRefusal::Bad(kind));
    }
    match routes.legs.push(leg) {
        Ok(()) => Ok(GridStage::Legs(routes)),
        Err(_) => {
            drop(routes);
            Err(GridRefusal::NoMemory)
        }
    }
}

// Takes the line behind `until` or a leg.
fn travels(routes: Routes, line: GridLine) -> Result<GridStage, GridRefusal>
    requires { WasRead line }
    ensures { (before : List AnyLine) → Stands before (stage.Legs routes) → Takes before line result }
{
    match line {
        GridLine::Leg {
            vehicle,
            crossing,
            plan,
        } => routed(
            routes,
            PlannedLeg {
                vehicle,
                crossing,
                plan,
            },
        ),
        GridLine::Plain(Line::End) => after_end(routes),
        other => {
            drop(other);
            drop(routes);
            Err(OUT_OF_ORDER)
        }
    }
}

impl GridStage {
    /// A script of which no line was read.
    pub fn new() -> GridStage
        ensures { Stands [] result }
    {
        GridStage::Opening
    }

    /// The version in which the next line is read.
    pub fn version(&self) -> ScriptVersion
        ensures { (before : List AnyLine) → Stands before self.now → version_of before ≡ version_number result }
    {
        match self {
            GridStage::Opening => ScriptVersion::One,
            GridStage::Counted(_) => ScriptVersion::One,
            GridStage::Blocks(blocks) => blocks.header.version(),
            GridStage::Begin(routes) => routes.version,
            GridStage::Until(routes) => routes.version,
            GridStage::Legs(routes) => routes.version,
            GridStage::Over(routes) => routes.version,
        }
    }

    // Takes the next line of a script.
    fn take_line(self, alloc: Global, line: GridLine) -> Result<GridStage, GridRefusal>
        requires { WasRead line }
        ensures { (before : List AnyLine) → Stands before self → Takes before line result }
    {
        match self {
            GridStage::Opening => counted(&line),
            GridStage::Counted(count) => opened(count, alloc, &line),
            GridStage::Blocks(blocks) => blocks.take(alloc, &line),
            GridStage::Begin(routes) => opens(routes, &line),
            GridStage::Until(routes) => ends(routes, &line),
            GridStage::Legs(routes) => travels(routes, line),
            GridStage::Over(routes) => {
                drop(routes);
                Err(OUT_OF_ORDER)
            }
        }
    }

    /// The stage behind the next line of a script, without its byte 10.
    pub fn after(self, alloc: Global, bytes: &[u8]) -> Result<GridStage, GridRefusal>
        ensures { (before : List AnyLine) → Stands before self → Judged before bytes.now result }
    {
        let version = self.version().number();
        match read_grid_line(bytes, version) {
            Ok(line) => self.take_line(alloc, line),
            Err(kind) => {
                drop(self);
                Err(GridRefusal::Bad(GridKind::Plain(Kind::Spelling(kind))))
            }
        }
    }

    /// The routes of the script, if it is whole where its input ends here.
    pub fn at_end(self) -> Option<Routes>
        ensures { (before : List AnyLine) → Stands before self → Ends before result }
    {
        match self {
            GridStage::Over(routes) => Some(routes),
            other => {
                drop(other);
                None
            }
        }
    }
}

impl LineTaker for GridStage {
    ghost use Rattle.std.specs.Prelude.{List};
    ghost use Rattle.aim_grid_script.specs.Stages.{Stands};
    ghost use Rattle.aim_grid_script.specs.Verdicts.{grid_rules};

    type Line = GridLine;

    type Kind = GridKind;

    type Limit = Limit;

    type Halt = AllocError;

    ghost rules = { grid_rules };

    ghost stands = { λ first before s. Stands before s };

    ghost rests = { λ first before s. Unit {0} };

    ghost halts = { λ first before s why. Unit {0} };

    fn take(
        &mut self,
        alloc: Global,
        bytes: &[u8],
    ) -> Result<(), Refusal<GridKind, Limit, AllocError>> {
        let stage = mem::replace(self, GridStage::new());
        match stage.after(alloc, bytes) {
            Ok(next) => {
                *self = next;
                Ok(())
            }
            Err(GridRefusal::Bad(kind)) => Err(Refusal::Bad(kind)),
            Err(GridRefusal::Limit(limit)) => Err(Refusal::Limit(limit)),
            Err(GridRefusal::NoMemory) => Err(Refusal::Halt(AllocError)),
        }
    }

    fn is_whole(&self) -> bool {
        matches!(self, GridStage::Over(_))
    }

    ghost stands_rests = { λ first before s stands. tt };
}
