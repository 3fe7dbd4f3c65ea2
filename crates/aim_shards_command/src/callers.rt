//! A caller, which makes the calls that a script asks of it.

ghost use Rattle.std.specs.Prelude.{◌≡◌, ◌≢◌, ◌≤◌, ◌<◌, ℕ, [], None, Some, length, map, min, take, slice_get, IfOk, vec_capacity};
ghost use Rattle.aim_shards_command.specs.declared.script.ClaimAsk.{ClaimAsk};
ghost use Rattle.aim_shards_command.specs.declared.script.ClaimAsk.TheVariants.{Claim, Free};
ghost use Rattle.aim_shards_command.specs.Kinds.{IsScript};
ghost use Rattle.aim_shards_command.specs.Said.{ask_in, asked_of, sets_of};
ghost use Rattle.aim_shards.specs.Models.{IsPassOf};
ghost use Rattle.std.specs.List.{AllWithin};
ghost use Rattle.aim_shards_command.specs.Calling.{Can, Made, Steps, Works, mark_in};
ghost use Rattle.aim_shards_command.specs.Following.{Follows};

use crate::{ClaimAsk, MOST_CALLS, ShardLine};
use aim_shards::{Hold, ShardPass, Shards};
use memchr::memchr;
use std::alloc::{AllocError, Global};
use std::sync::Wait;

/// A caller at work: its pass, and the tickets of its calls so far.
#[derive(Drop)]
pub struct Caller {
    pub pass: ShardPass,
    pub tickets: Vec<u32>,
}

impl Caller {
    /// A caller that has made no call, with room for all its tickets.
    pub fn new(alloc: Global, pass: ShardPass) -> Result<Caller, AllocError>
        requires none { pass.mine ≡ [] }
        requires calls { pass.calls ≤ 1024 }
        ensures pass { IfOk result (λ c. c.pass ≡ pass) }
        ensures tickets { IfOk result (λ c. (c.tickets.items ≡ []) × (1024 ≤ vec_capacity c.tickets)) }
    {
        let tickets = Vec::with_capacity(alloc, MOST_CALLS as usize)?;
        Ok(Caller { pass, tickets })
    }
}

// Claims the set.
fn claim<R: Wait, H: Hold>(rt: &R, shards: &Shards, caller: &mut Caller, set: u32, hold: &H)
    requires works { Works shards.now caller.old }
    requires can { Can (length shards.now.sets) caller.old.pass.mine (Claim set) }
    ensures works { Works shards.now caller.new }
    ensures number { caller.new.pass.number ≡ caller.old.pass.number }
    ensures made { Made (Claim set) caller.old.pass.mine caller.new.pass.mine }
{
    let Ok(claimed) = shards.claim(rt, &mut caller.pass, set, hold) else {
        unreachable!()
    };
    caller.tickets.push_reserved(claimed.ticket);
}

// Frees the ticket of the caller's call of this number.
fn free<R: Wait, H: Hold>(rt: &R, shards: &Shards, caller: &mut Caller, call: u32, hold: &H)
    requires works { Works shards.now caller.old }
    requires can { Can (length shards.now.sets) caller.old.pass.mine (Free call) }
    ensures works { Works shards.now caller.new }
    ensures number { caller.new.pass.number ≡ caller.old.pass.number }
    ensures made { Made (Free call) caller.old.pass.mine caller.new.pass.mine }
{
    let ticket = caller.tickets[call as usize];
    let Ok(claimed) = shards.free(rt, &mut caller.pass, ticket, hold) else {
        unreachable!()
    };
    caller.tickets.push_reserved(claimed.ticket);
}

// What the caller asks for in the line, if it asks for something.
fn ask_in(number: u32, line: &ShardLine) -> Option<ClaimAsk>
    ensures { result ≡ ask_in number line.now }
{
    match line {
        ShardLine::Claim(caller, set) if *caller == number => Some(ClaimAsk::Claim(*set)),
        ShardLine::Free(caller, call) if *caller == number => Some(ClaimAsk::Free(*call)),
        _ => None,
    }
}

// Makes the call that the line asks of the caller, if it asks for one.
fn make<R: Wait, H: Hold>(rt: &R, shards: &Shards, caller: &mut Caller, line: &ShardLine, hold: &H)
    requires works { Works shards.now caller.old }
    requires can { (a : ClaimAsk) → ask_in caller.old.pass.number line.now ≡ Some a → Can (length shards.now.sets) caller.old.pass.mine a }
    ensures works { Works shards.now caller.new }
    ensures number { caller.new.pass.number ≡ caller.old.pass.number }
    ensures steps { Steps (ask_in caller.old.pass.number line.now) caller.old.pass.mine caller.new.pass.mine }
{
    match ask_in(caller.pass.number(), line) {
        Some(ClaimAsk::Claim(set)) => claim(rt, shards, caller, set, hold),
        Some(ClaimAsk::Free(call)) => free(rt, shards, caller, call, hold),
        None => {}
    }
}

// The byte that stands for a caller of this number.
fn mark(caller: u32) -> u8
    ensures { result ≡ min caller 255 }
{
    caller.min(255) as u8
}

// The byte that stands for the caller of which the line asks something.
fn mark_in(line: &ShardLine) -> u8
    ensures { result ≡ mark_in line.now }
{
    match line {
        ShardLine::Claim(caller, _) => mark(*caller),
        ShardLine::Free(caller, _) => mark(*caller),
        _ => 255,
    }
}

/// For each line a byte that stands for the caller of which it asks something, so that a caller finds its lines without
/// looking at all of them.
pub fn marks_of(alloc: Global, lines: &[ShardLine]) -> Result<Vec<u8>, AllocError>
    ensures { IfOk result (λ v. v.items ≡ map mark_in lines.now) }
{
    let mut marks = Vec::with_capacity(alloc, lines.len())?;
    for line in lines {
        marks.push_reserved(mark_in(line));
    }
    Ok(marks)
}

// The place of the first line from that place on which may ask something of the caller, or the number of all lines. Mostly
// a caller's lines are neighbours, so the one at that place is looked at first.
fn next_place(marks: &[u8], number: u32, from: usize) -> usize
    requires from { from ≤ length marks.now }
    ensures later { from ≤ result }
    ensures within { result ≤ length marks.now }
    ensures passed { AllWithin (λ m. m ≢ min number 255) marks.now from result }
{
    let mark = mark(number);
    if from < marks.len() && marks[from] == mark {
        return from;
    }
    match memchr(mark, &marks[from..]) {
        Some(at) => from + at,
        None => marks.len(),
    }
}

// Makes the next call that the lines from that place on ask of the caller, and gives the place behind its line.
fn make_next<R: Wait, H: Hold>(
    rt: &R,
    shards: &Shards,
    lines: &[ShardLine],
    marks: &[u8],
    caller: &mut Caller,
    hold: &H,
    from: usize,
) -> usize
    requires script { IsScript lines.now }
    requires sets { length shards.now.sets ≡ length (sets_of lines.now) }
    requires marks { marks.now ≡ map mark_in lines.now }
    requires works { Works shards.now caller.old }
    requires from { from < length lines.now }
    requires follows { Follows (asked_of caller.old.pass.number (take from lines.now)) caller.old.pass.mine }
    ensures works { Works shards.now caller.new }
    ensures number { caller.new.pass.number ≡ caller.old.pass.number }
    ensures later { from < result }
    ensures within { result ≤ length lines.now }
    ensures follows { Follows (asked_of caller.old.pass.number (take result lines.now)) caller.new.pass.mine }
{
    let next = next_place(marks, caller.pass.number(), from);
    if next == lines.len() {
        return next;
    }
    make(rt, shards, caller, &lines[next], hold);
    next + 1
}

/// Makes the calls that the lines ask of the caller, in their order.
pub fn make_all<R: Wait, H: Hold>(
    rt: &R,
    shards: &Shards,
    lines: &[ShardLine],
    marks: &[u8],
    caller: &mut Caller,
    hold: &H,
)
    requires script { IsScript lines.now }
    requires sets { length shards.now.sets ≡ length (sets_of lines.now) }
    requires marks { marks.now ≡ map mark_in lines.now }
    requires calls { shards.now.calls ≡ 1024 }
    requires works { Works shards.now caller.old }
    requires none { caller.old.pass.mine ≡ [] }
    ensures works { Works shards.now caller.new }
    ensures number { caller.new.pass.number ≡ caller.old.pass.number }
    ensures follows { Follows (asked_of caller.new.pass.number lines.now) caller.new.pass.mine }
{
    let mut place = 0;
    while place < lines.len() {
        place = make_next(rt, shards, lines, marks, caller, hold, place);
    }
}
