//! A small register under the turn.
ghost use Rattle.std.specs.Prelude.{◌≡◌};
ghost use Rattle.aim_turnstile.specs.History.{Begins};
ghost use Rattle.aim_turnstile.specs.Models.{IsPassOf, IsSamePass};

use aim_turnstile::{Pass, Turnstile};
use std::process::Abort;
use std::sync::Wait;
use tests_samples::{Mark, Register, empty_register};

// Lets the second meet the first, and make a call: its mark then stands behind all that the first had seen.
fn call_after_meeting<R: Wait>(
    rt: &R,
    turnstile: &Turnstile<Register>,
    first: &mut Pass<Register>,
    second: &mut Pass<Register>,
    value: u32,
) -> Option<u32>
    requires own { IsPassOf turnstile.now first.old × IsPassOf turnstile.now second.old }
    ensures same { (first.new ≡ first.old) × IsSamePass second.old second.new }
    ensures behind { Begins first.old.seen second.new.seen }
{
    let front = turnstile.front(first);
    turnstile.meet(second, front);
    turnstile.with_turn(rt, second, value)
}

// The calls of two callers on a register of three marks.
fn four_calls<R: Wait + Abort>(
    rt: &R,
    turnstile: &Turnstile<Register>,
    first: &mut Pass<Register>,
    second: &mut Pass<Register>,
)
    requires own { IsPassOf turnstile.now first.old × IsPassOf turnstile.now second.old }
    ensures same { IsSamePass first.old first.new × IsSamePass second.old second.new }
{
    first.has_own_entries();
    assert!(rt; first.number() == 7 && second.number() == 3);
    assert!(rt; turnstile.with_turn(rt, first, 50) == Some(0));
    assert!(rt;
        turnstile.with_turn(rt, second, 60) == Some(1),
        "with no meeting"
    );
    let met = call_after_meeting(rt, turnstile, first, second, 70);
    assert!(rt; met == Some(2));
    assert!(rt;
        turnstile.with_turn(rt, first, 80).is_none(),
        "no room is left"
    );
}

// The marks of these calls.
const MARKS: [[u32; 2]; 3] = [[7, 50], [3, 60], [3, 70]];

// The register has to have these marks.
fn check_marks(rt: &impl Abort, marks: &[Mark]) {
    assert!(rt; marks.len() == MARKS.len());
    for (place, mark) in marks.iter().enumerate() {
        assert!(rt; MARKS.get(place) == Some(&[mark.caller, mark.value]));
    }
}

#[test]
fn callers_meet_and_the_passes_close_in_another_order(rt: HostRuntime) {
    let register = empty_register(rt.alloc(), 3).expect(&rt, "no memory for a register");
    let opened = Turnstile::open(rt.alloc(), register, &[7, 3]).expect(&rt, "no turnstile");
    let (turnstile, mut passes) = opened;
    let Some(mut second) = passes.pop() else {
        unreachable!()
    };
    let Some(mut first) = passes.pop() else {
        unreachable!()
    };
    four_calls(&rt, &turnstile, &mut first, &mut second);
    passes.push_reserved(second);
    passes.push_reserved(first);
    check_marks(&rt, &turnstile.close(passes).marks);
}
