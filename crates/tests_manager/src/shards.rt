//! Sharded claims of two callers, one after another and in two threads.

ghost use Rattle.std.specs.Prelude.{◌≡◌, ◌<◌, length, map};
ghost use Rattle.std.specs.Thread.{IsSync};
ghost use Rattle.aim_shards.specs.Models.{IsPassOf, IsSamePass, count_up, new_pass};

use aim_shards::{
    ClaimAct, ClaimEntry, Claimed, Hold, NoCallLeft, OpenedShards, Rectangle, ShardPass, Shards,
    are_fitting, history, sheets,
};
use std::alloc::Global;
use std::process::Abort;
use std::sync::Wait;
use std::sync::atomic::{AtomicBool, Ordering};
use std::thread::{Threads, join, yield_now};
use tests_samples::NoHold;

// The tiles of these rows and columns in the steps 0 to 9.
fn block(first: u32, last: u32) -> Rectangle {
    Rectangle {
        row0: first,
        row1: last,
        col0: first,
        col1: last,
        from: 0,
        to: 9,
    }
}

// Shards over four rows and columns and a hundred steps, for two callers of five calls. The first two sets lie in a
// quadrant each, and the third one has a tile of each quadrant.
fn opened(rt: &impl Abort, alloc: Global) -> OpenedShards
    ensures numbers { result.shards.numbers ≡ count_up 2 }
    ensures sets { length result.shards.sets ≡ 3 }
    ensures passes { result.passes.items ≡ map (new_pass result.shards) (count_up 2) }
{
    let rectangles = [block(0, 1), block(2, 3), block(1, 2)];
    assert!(rt; are_fitting(4, 100, &rectangles));
    let sets = sheets(alloc, 4, 100, &rectangles).expect(rt, "no memory for sets");
    Shards::open(alloc, 4, 100, sets, 2, 5).expect(rt, "no shards")
}

// A caller, its call, and the ticket and the answer that it gets.
type Call = (u32, ClaimAct, Option<(u32, bool)>);

const CALLS: [Call; 12] = [
    (0, ClaimAct::Claim(0), Some((0, true))),
    (0, ClaimAct::Free(0), Some((1, true))),
    (1, ClaimAct::Claim(2), Some((2, true))),
    (1, ClaimAct::Claim(2), Some((3, false))),
    (1, ClaimAct::Claim(1), Some((4, false))),
    // what was answered no, a freeing, another's claim
    (1, ClaimAct::Free(3), Some((5, false))),
    (0, ClaimAct::Free(1), Some((6, false))),
    (0, ClaimAct::Free(2), Some((7, false))),
    (1, ClaimAct::Free(2), Some((8, true))),
    (0, ClaimAct::Claim(1), Some((9, true))),
    // all calls were made
    (1, ClaimAct::Claim(1), None),
    (0, ClaimAct::Free(0), None),
];

// The ticket and the answer.
fn parts(answer: Result<Claimed, NoCallLeft>) -> Option<(u32, bool)> {
    match answer {
        Ok(claimed) => Some((claimed.ticket, claimed.yes)),
        Err(_) => None,
    }
}

// Makes the call.
fn made<R: Wait + Abort>(
    rt: &R,
    shards: &Shards,
    pass: &mut ShardPass,
    act: ClaimAct,
) -> Result<Claimed, NoCallLeft>
    requires own { IsPassOf shards.now pass.old }
    requires sets { length shards.now.sets ≡ 3 }
    ensures { IsSamePass pass.old pass.new }
{
    match act {
        ClaimAct::Claim(set) => {
            assert!(rt; set < 3);
            shards.claim(rt, pass, set, &NoHold)
        }
        ClaimAct::Free(ticket) => shards.free(rt, pass, ticket, &NoHold),
    }
}

// Makes a call of the table with its caller's pass, and compares the answer.
fn check<R: Wait + Abort>(
    rt: &R,
    shards: &Shards,
    first: &mut ShardPass,
    second: &mut ShardPass,
    call: &Call,
)
    requires own { IsPassOf shards.now first.old × IsPassOf shards.now second.old }
    requires sets { length shards.now.sets ≡ 3 }
    ensures { IsSamePass first.old first.new × IsSamePass second.old second.new }
{
    let (caller, act, want) = *call;
    if caller == 0 {
        let answer = made(rt, shards, first, act);
        assert!(rt; parts(answer) == want);
    } else {
        let answer = made(rt, shards, second, act);
        assert!(rt; parts(answer) == want);
    }
}

// Makes the calls of the table.
fn in_turn<R: Wait + Abort>(
    rt: &R,
    shards: &Shards,
    mut first: ShardPass,
    mut second: ShardPass,
) -> (ShardPass, ShardPass)
    requires own { IsPassOf shards.now first × IsPassOf shards.now second }
    requires sets { length shards.now.sets ≡ 3 }
    ensures { IsSamePass first result.0 × IsSamePass second result.1 }
{
    for call in &CALLS {
        check(rt, shards, &mut first, &mut second, call);
    }
    (first, second)
}

// How often one looks whether the other has come so far.
const LOOKS: u32 = 100_000_000;

// Waits until the flag is set, for a while, and says whether it is.
fn wait_for(flag: &AtomicBool) -> bool {
    for _ in 0..LOOKS {
        if flag.load(Ordering::SeqCst) {
            return true;
        }
        yield_now();
    }
    false
}

// A hold that says that it holds, and waits until the gate is open. It notes whether the gate was opened meanwhile.
#[derive(Drop)]
struct Waits<'a> {
    held: &'a AtomicBool,
    open: &'a AtomicBool,
    opened: &'a AtomicBool,
}

impl Hold for Waits<'_> {
    fn holding(&self, _caller: u32, _call: u32) {
        self.held.store(true, Ordering::SeqCst);
        self.opened.store(wait_for(self.open), Ordering::SeqCst);
    }
}

// Claims the set, by this ticket.
fn claimed<R: Wait + Abort, H: Hold>(
    rt: &R,
    shards: &Shards,
    mut pass: ShardPass,
    set: u32,
    ticket: u32,
    hold: &H,
) -> ShardPass
    requires own { IsPassOf shards.now pass }
    requires set { set < length shards.now.sets }
    ensures { IsSamePass pass result }
{
    let answer = shards.claim(rt, &mut pass, set, hold);
    assert!(rt;
        parts(answer) == Some((ticket, true)),
        "one lock for all quadrants"
    );
    pass
}

// Claims the first set, and holds it until another thread, which waits until it is held, has claimed the second one.
fn side_by_side<R: Threads + Wait + Abort + Sync>(
    rt: &R,
    shards: &Shards,
    first: ShardPass,
    second: ShardPass,
    held: &AtomicBool,
    open: &AtomicBool,
    opened: &AtomicBool,
) -> (ShardPass, ShardPass)
    requires own { IsPassOf shards.now first × IsPassOf shards.now second }
    requires sets { length shards.now.sets ≡ 3 }
    ensures { IsSamePass first result.0 × IsSamePass second result.1 }
{
    join(
        rt,
        move || -> ShardPass
            requires { IsSync R.row × IsPassOf shards.now first × (length shards.now.sets ≡ 3) }
            ensures { IsSamePass first result }
        { claimed(rt, shards, first, 0, 1, &Waits { held, open, opened }) },
        move || -> ShardPass
            requires { IsSync R.row × IsPassOf shards.now second × (length shards.now.sets ≡ 3) }
            ensures { IsSamePass second result }
        {
            assert!(rt; wait_for(held), "the first claim wasn't held");
            let pass = claimed(rt, shards, second, 1, 0, &NoHold);
            open.store(true, Ordering::SeqCst);
            pass
        },
    )
}

// Has the two callers make their calls, in two threads or one after another.
fn called<R: Threads + Wait + Abort + Sync>(
    rt: &R,
    shards: &Shards,
    first: ShardPass,
    second: ShardPass,
    threads: bool,
) -> (ShardPass, ShardPass)
    requires own { IsPassOf shards.now first × IsPassOf shards.now second }
    requires sets { length shards.now.sets ≡ 3 }
    ensures { IsSamePass first result.0 × IsSamePass second result.1 }
{
    if threads {
        let held = AtomicBool::new(false);
        let open = AtomicBool::new(false);
        let opened = AtomicBool::new(false);
        let passes = side_by_side(rt, shards, first, second, &held, &open, &opened);
        assert!(rt;
            opened.load(Ordering::SeqCst),
            "the first claim was held no longer when the second one was answered"
        );
        passes
    } else {
        in_turn(rt, shards, first, second)
    }
}

// The one history of these calls.
fn history_of<R: Threads + Wait + Abort + Sync>(
    rt: &R,
    alloc: Global,
    threads: bool,
) -> Vec<ClaimEntry> {
    let opened = opened(rt, alloc);
    let OpenedShards { shards, mut passes } = opened;
    let Some(second) = passes.pop() else {
        unreachable!()
    };
    let Some(first) = passes.pop() else {
        unreachable!()
    };
    let (first, second) = called(rt, &shards, first, second, threads);
    passes.push_reserved(second);
    passes.push_reserved(first);
    history(alloc, shards, passes).expect(rt, "no memory for a history")
}

// There have to be so many calls, with the tickets 0, 1, 2 and so on.
fn check_tickets(rt: &impl Abort, all: &[ClaimEntry], count: usize) {
    assert!(rt; all.len() == count);
    for (place, entry) in all.iter().enumerate() {
        assert!(rt; entry.ticket as usize == place);
    }
}

#[test]
fn claims_and_freeings_of_two_callers(rt: HostRuntime) {
    check_tickets(&rt, &history_of(&rt, rt.alloc(), false), 10);
}

#[test]
fn claims_of_two_quadrants_do_not_wait_for_each_other(rt: HostRuntime) {
    check_tickets(&rt, &history_of(&rt, rt.alloc(), true), 2);
}
