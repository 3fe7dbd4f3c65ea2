//! A script, line after line.

ghost use Rattle.std.specs.Prelude.{◌≡◌, ◌+◌, ◌<◌, ◌≤◌, ◌++◌, ◌∷◌, [], List, None, Some, length, slice_index, slice_set, MatchResult, IfOk, OnOk, OnErr};
ghost use Rattle.std.specs.Option.{option_copied, option_to_list};
ghost use Rattle.aim_shards_command.specs.Fits.{AreFitting, FitTerms};
ghost use Rattle.aim_shards_command.specs.declared.lines.ShardLine.{ShardLine};
ghost use Rattle.aim_shards_command.specs.Keeps.{Keeps};
ghost use Rattle.aim_shards_command.specs.Kinds.{IsScript, are_terms, belongs, kind_of_fault, last_of, lies_on, number_fault, part_after, rows_in, unless_fits};
ghost use Rattle.aim_shards_command.specs.Refusals.{Refuses};
ghost use Rattle.aim_shards_command.specs.Said.{asked_of, set_in, sets_of, rectangle_of, terms_in, terms_of};

use crate::decisions::{ClaimKind, ClaimLimit};
use crate::lines::{ShardLine, read_shard_line};
use aim_script_reading::{LineTaker, Refusal};
use aim_shards::Rectangle;
use std::alloc::{AllocError, Global};
use std::marker::Model;

/// How many sets a script may have.
pub const MOST_SETS: u32 = 1024;

/// How many calls a caller may make.
pub const MOST_CALLS: u32 = 1024;

/// The parts of a script.
#[derive(Clone, Copy)]
pub enum Part {
    /// The `shards` line comes next.
    Opening,
    /// A set, a call or the end comes next.
    Sets,
    /// A call or the end comes next.
    Calls,
    /// Nothing comes any more.
    Nothing,
}

/// What the first line of a script says: the rows and columns of the grid, the steps, and the callers.
#[derive(Clone, Copy)]
pub struct ClaimTerms {
    pub n: u32,
    pub horizon: u32,
    pub callers: u32,
}

/// What a caller asks for.
pub enum ClaimAsk {
    /// To claim the set of this number.
    Claim(u32),
    /// To free the ticket that the caller's call of this number drew.
    Free(u32),
}

// The part that goes on after a line, or at the beginning.
fn part_after(line: Option<&ShardLine>) -> Part
    ensures { result ≡ part_after (option_copied line.entry) }
{
    match line {
        None => Part::Opening,
        Some(ShardLine::Shards(..)) => Part::Sets,
        Some(ShardLine::Set(_)) => Part::Sets,
        Some(ShardLine::Claim(..)) => Part::Calls,
        Some(ShardLine::Free(..)) => Part::Calls,
        Some(ShardLine::End) => Part::Nothing,
    }
}

// What the first line says, if it is there.
fn terms_in(line: Option<&ShardLine>) -> ClaimTerms
    ensures { result ≡ terms_in (option_copied line.entry) }
{
    match line {
        Some(ShardLine::Shards(n, horizon, callers)) => ClaimTerms {
            n: *n,
            horizon: *horizon,
            callers: *callers,
        },
        _ => ClaimTerms {
            n: 0,
            horizon: 0,
            callers: 0,
        },
    }
}

// Whether a line of that form may stand in the part.
fn belongs(part: Part, line: &ShardLine) -> bool
    ensures { result ≡ belongs part line.now }
{
    match line {
        ShardLine::Shards(..) => matches!(part, Part::Opening),
        ShardLine::Set(_) => matches!(part, Part::Sets),
        _ => matches!(part, Part::Sets | Part::Calls),
    }
}

// Whether the numbers are within their bounds.
fn are_terms(n: u32, horizon: u32, callers: u32) -> bool
    ensures { result ≡ are_terms n horizon callers }
{
    (1 <= n && n <= 64) && ((1 <= horizon && horizon <= 8192) && (1 <= callers && callers <= 64))
}

// The rectangle that the numbers say.
fn rectangle_of(numbers: &[u32; 6]) -> Rectangle
    ensures { result ≡ rectangle_of numbers.now }
{
    let [row0, row1, col0, col1, from, to] = *numbers;
    Rectangle {
        row0,
        row1,
        col0,
        col1,
        from,
        to,
    }
}

impl ClaimTerms {
    // Whether no pair of numbers falls, and the rectangle lies on the grid, within its steps.
    fn has(self, r: &Rectangle) -> bool
        ensures { result ≡ lies_on self r.now }
    {
        (r.row0 <= r.row1 && r.row1 < self.n)
            && ((r.col0 <= r.col1 && r.col1 < self.n) && (r.from <= r.to && r.to < self.horizon))
    }
}

// How many rows a rectangle has in all its steps.
fn rows_in(r: &Rectangle) -> u64
    requires rows { (r.now.row0 ≤ r.now.row1) × (r.now.row1 < 4294967295) }
    requires steps { (r.now.from ≤ r.now.to) × (r.now.to < 4294967295) }
    ensures { result ≡ rows_in r.now }
{
    u64::from(r.to - r.from + 1) * u64::from(r.row1 - r.row0 + 1)
}

// Adds the line's set, if it has one.
fn add_set(rectangles: &mut Vec<Rectangle>, line: &ShardLine) -> Result<(), AllocError>
    ensures { OnOk result (rectangles.new.items ≡ rectangles.old.items ++ option_to_list (set_in line.now)) }
{
    if let ShardLine::Set(numbers) = line {
        rectangles.push(rectangle_of(numbers))?;
    }
    Ok(())
}

// The sets of the lines.
fn sets_of(alloc: Global, lines: &[ShardLine]) -> Result<Vec<Rectangle>, AllocError>
    requires { IsScript lines.now }
    ensures sets { IfOk result (λ v. v.items ≡ sets_of lines.now) }
    ensures fit { IfOk result (λ v. AreFitting (terms_of lines.now) v.items) }
{
    let mut rectangles = Vec::new(alloc);
    for line in lines {
        add_set(&mut rectangles, line)?;
    }
    Ok(rectangles)
}

// Counts a line that isn't at fault behind those that were counted.
fn count(sets: &mut u32, counts: &mut [u32; 64], line: &ShardLine)
    requires { (before : List ShardLine) × Keeps before sets.old counts.old × (kind_of_fault before line.now ≡ None) }
    ensures { (before : List ShardLine) → Keeps before sets.old counts.old → kind_of_fault before line.now ≡ None → Keeps (before ++ line.now ∷ []) sets.new counts.new }
{
    match line {
        ShardLine::Set(_) => *sets += 1,
        ShardLine::Claim(caller, _) => counts[*caller as usize] += 1,
        ShardLine::Free(caller, _) => counts[*caller as usize] += 1,
        ShardLine::Shards(..) => {}
        ShardLine::End => {}
    }
}

// The kind, unless the numbers fit.
fn unless_fits(why: ClaimKind, fits: bool) -> Option<ClaimKind>
    ensures { result ≡ unless_fits why fits }
{
    if fits { None } else { Some(why) }
}

/// The lines of a script, none of which is at fault behind those before it.
///
/// Contracts see the lines.
#[derive(Drop)]
pub struct Script {
    lines: Vec<ShardLine>,
    // How many sets there are.
    sets: u32,
    // How many calls each caller makes.
    counts: [u32; 64],
}

impl Model for Script {
    ghost use Rattle.std.specs.Prelude.{List};
    ghost use Rattle.aim_shards_command.specs.declared.lines.ShardLine.{ShardLine};
    ghost use Rattle.aim_shards_command.specs.Keeps.{Keeps};

    ghost Value = { List ShardLine };

    ghost view = { λ s. s.lines.items };

    ghost invariant = { λ s. Keeps s.lines.items s.sets s.counts };
}

impl Script {
    /// No line yet.
    pub fn new(alloc: Global) -> Script
        ensures { result ≡ [] }
    {
        let counts = [0; 64];
        Script {
            lines: Vec::new(alloc),
            sets: 0,
            counts,
        }
    }

    /// The lines.
    pub fn lines(&self) -> &[ShardLine]
        ensures lines { result.now ≡ self.now }
        ensures script { IsScript self.now }
    {
        &self.lines
    }

    /// What the first line says.
    pub fn terms(&self) -> ClaimTerms
        ensures terms { result ≡ terms_of self.now }
        ensures fit { 0 < length self.now → FitTerms result }
    {
        terms_in(self.lines.first())
    }

    /// How many sets there are.
    pub fn sets(&self) -> u32
        ensures { result ≡ length (sets_of self.now) }
    {
        self.sets
    }

    /// The sets, which lie on the grid, within its steps.
    pub fn rectangles(&self, alloc: Global) -> Result<Vec<Rectangle>, AllocError>
        ensures sets { IfOk result (λ v. v.items ≡ sets_of self.now) }
        ensures fit { IfOk result (λ v. AreFitting (terms_of self.now) v.items) }
    {
        sets_of(alloc, &self.lines)
    }

    // How many calls the caller makes.
    fn calls(&self, caller: u32) -> u32
        requires { caller < 64 }
        ensures { result ≡ length (asked_of caller self.now) }
    {
        self.counts[caller as usize]
    }

    // Whether a line of that form may come next.
    fn may_take(&self, line: &ShardLine) -> bool
        ensures { result ≡ belongs (part_after (last_of self.now)) line.now }
    {
        belongs(part_after(self.lines.last()), line)
    }

    // The kind of the next line, if its numbers are at fault.
    fn number_fault(&self, line: &ShardLine) -> Option<ClaimKind>
        ensures { result ≡ number_fault self.now line.now }
    {
        let terms = self.terms();
        match line {
            ShardLine::Shards(n, horizon, callers) => {
                unless_fits(ClaimKind::Shards, are_terms(*n, *horizon, *callers))
            }
            ShardLine::Set(numbers) => {
                let r = rectangle_of(numbers);
                let fits = terms.has(&r) && (rows_in(&r) <= 4096 && self.sets < MOST_SETS);
                unless_fits(ClaimKind::Set, fits)
            }
            ShardLine::Claim(caller, set) => {
                let fits = *caller < terms.callers
                    && (*set < self.sets && self.calls(*caller) < MOST_CALLS);
                unless_fits(ClaimKind::Call, fits)
            }
            ShardLine::Free(caller, call) => {
                let fits = *caller < terms.callers
                    && (*call < self.calls(*caller) && self.calls(*caller) < MOST_CALLS);
                unless_fits(ClaimKind::Call, fits)
            }
            ShardLine::End => None,
        }
    }

    // The kind of the next line, if it is at fault.
    fn fault(&self, line: &ShardLine) -> Option<ClaimKind>
        ensures { result ≡ kind_of_fault self.now line.now }
    {
        if self.may_take(line) {
            self.number_fault(line)
        } else {
            Some(ClaimKind::Order)
        }
    }

    // Takes the next line, unless it is at fault.
    fn add(&mut self, line: ShardLine) -> Result<(), Refusal<ClaimKind, ClaimLimit, AllocError>>
        ensures taken { MatchResult result (λ _. kind_of_fault self.old line ≡ None) (λ why. Refuses self.old line why) }
        ensures new { MatchResult result (λ _. self.new ≡ self.old ++ line ∷ []) (λ _. self.new ≡ self.old) }
    {
        if let Some(kind) = self.fault(&line) {
            return Err(Refusal::Bad(kind));
        }
        let Ok(()) = self.lines.push(line) else {
            return Err(Refusal::Halt(AllocError));
        };
        count(&mut self.sets, &mut self.counts, &line);
        Ok(())
    }
}

impl LineTaker for Script {
    ghost use Rattle.std.specs.Prelude.{◌≡◌};
    ghost use Rattle.aim_shards_command.specs.Verdicts.{claim_rules};

    type Line = ShardLine;

    type Kind = ClaimKind;

    type Limit = ClaimLimit;

    type Halt = AllocError;

    ghost rules = { claim_rules };

    ghost stands = { λ first before s. s ≡ before };

    ghost rests = { λ first before s. s ≡ before };

    ghost halts = { λ first before s why. Unit {0} };

    fn take(
        &mut self,
        _alloc: Global,
        bytes: &[u8],
    ) -> Result<(), Refusal<ClaimKind, ClaimLimit, AllocError>> {
        match read_shard_line(bytes) {
            Ok(line) => self.add(line),
            Err(kind) => Err(Refusal::Bad(ClaimKind::Spelling(kind))),
        }
    }

    fn is_whole(&self) -> bool {
        matches!(self.lines.last(), Some(ShardLine::End))
    }

    ghost stands_rests = { λ first before s e. e };
}
