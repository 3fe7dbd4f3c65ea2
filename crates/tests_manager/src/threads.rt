//! Callers of the manager on threads of their own.

ghost use Rattle.std.specs.Prelude.{◌≡◌, ◌<◌, ◌≤◌, All};
ghost use Rattle.aim_turnstile.specs.Models.{IsPassOf, IsSamePass};

use crate::book::serve_again;
use crate::manager::{opened, served};
use aim_manager::{Full, Manager, ManagerPass, Opened};
use aim_messages::{Entry, Reply};
use aim_sheets::Pool;
use std::alloc::Global;
use std::marker::Brand;
use std::process::Abort;
use std::sync::Wait;
use std::sync::ledger::{Blank, Ledger};
use std::thread;
use std::thread::Threads;
use tests_samples::{has_numbers, message};

// What a vehicle holds after an answer.
fn held_after(answer: &Result<Reply, Full>) -> Option<u32> {
    match answer {
        Ok(Reply::Confirm { id, .. }) => Some(*id),
        Ok(Reply::Reject { held, .. }) => *held,
        _ => None,
    }
}

// Makes so many calls of one caller, one at each tenth step, with a pool of its own.
fn calls<R: Wait + Abort>(
    rt: &R,
    alloc: Global,
    manager: &Manager,
    pass: &mut ManagerPass,
    messages: u32,
)
    requires own { IsPassOf manager.now pass.old }
    requires vehicle { pass.old.number < manager.now.setting.vehicles }
    ensures same { IsSamePass pass.old pass.new }
{
    let mut pool = Pool::new(alloc, 3, 4096).expect(rt, "no memory for a pool");
    let caller = pass.number();
    let mut held = None;
    for place in 0..messages {
        let message = message(caller, place, held);
        let answer = served(rt, manager, pass, &mut pool, place % 100 * 10, &message);
        held = held_after(&answer);
    }
}

// Makes the calls of all callers, each on a thread of its own.
fn all_calls<R: Threads + Wait + Abort + Sync>(
    rt: &R,
    alloc: Global,
    manager: &Manager,
    passes: &mut [ManagerPass],
    messages: u32,
)
    requires own { All (λ p. IsPassOf manager.now p × (p.number < manager.now.setting.vehicles)) passes.old }
    ensures same { All (λ p. p.table ≡ manager.now.table) passes.new }
{
    let threads = passes.len().max(1);
    thread::for_each_mut(
        rt,
        passes,
        threads,
        &|_place: usize, pass: &mut ManagerPass|
            requires { IsPassOf manager.now pass.now × (pass.now.number < manager.now.setting.vehicles) }
            ensures { IsSamePass pass.entry.now pass.exit.now }
        { calls(rt, alloc, manager, pass, messages) },
    );
}

// The journal of so many callers on threads, of so many messages each.
fn on_threads<R: Threads + Wait + Abort + Sync>(
    rt: &R,
    alloc: Global,
    vehicles: u32,
    messages: u32,
    room: u32,
) -> Vec<Entry> {
    let opened = opened(rt, alloc, vehicles, room);
    let Opened {
        manager,
        mut passes,
        operator,
    } = opened;
    all_calls(rt, alloc, &manager, &mut passes, messages);
    manager.close(passes, operator).journal
}

// The journal is full, has each caller's calls in their order, and is what a book answers on one thread.
fn run<L: Ledger, R: Threads + Wait + Abort + Sync>(
    rt: &R,
    alloc: Global,
    vehicles: u32,
    messages: u32,
    room: u32,
    blank: Blank,
)
    requires name { blank.name ≡ L.name }
    requires parts { blank.parts ≡ L.parts }
    requires some { 0 < blank.parts }
{
    let journal = on_threads(rt, alloc, vehicles, messages, room);
    assert!(rt; has_numbers(&journal, vehicles, room));
    assert!(rt;
        journal
            .iter()
            .any(|entry| matches!(entry.reply, Reply::Confirm { .. }))
    );
    serve_again::<L>(rt, alloc, vehicles, &journal, blank);
}

// How many vehicles there are, how many messages each has, and for how many entries there is room: for all, or for some.
const RUNS: [(u32, u32, u32); 3] = [(2, 100, 200), (2, 100, 150), (4, 50, 200)];

#[test]
fn threads_are_answered_as_one(rt: HostRuntime) {
    for (vehicles, messages, room) in RUNS {
        run::<Brand, HostRuntime>(&rt, rt.alloc(), vehicles, messages, room, Blank::new(1));
    }
}
