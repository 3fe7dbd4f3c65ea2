//! The day's turns taken on one manager, by callers that share it.

ghost use Rattle.std.specs.Prelude.{◌≡◌, ◌<◌, All, map, IfOk};
ghost use Rattle.std.specs.List.{range_with_len};
ghost use Rattle.aim_messages.specs.declared.entries.TheConstants.{OPERATOR};
ghost use Rattle.aim_requests.specs.Shapes.{ArePreparedFor};
ghost use Rattle.aim_turnstile.specs.Models.{IsPassOf, IsSamePass, new_pass};

use aim_layout::PolicyKind;
use aim_manager::{Manager, ManagerPass, Opened};
use aim_messages::{LATEST_MOMENT, Message, Reply};
use aim_requests::Shapes;
use aim_sheets::Pool;
use anyhow::{Result, anyhow};
use bench_day::{Caller, ROOM, SHAPES, SHEETS, SPANS, Taken, Turns, twelve_lanes};
use std::alloc::Global;
use std::sync::Wait;
use std::thread::{self, Threads};
use std::time::{Clock, Instant};

// Prepares and serves one message. None is where the call may not be made, or finds the journal full.
fn call<R: Wait>(
    rt: &R,
    manager: &Manager,
    pass: &mut ManagerPass,
    shapes: &mut Shapes,
    pool: &mut Pool,
    now: u32,
    message: &Message,
) -> Option<Reply>
    requires own { IsPassOf manager.now pass.old }
    requires vehicle { pass.old.number < manager.now.setting.vehicles }
    requires known { ArePreparedFor manager.now.setting.layout shapes.old }
    ensures same { IsSamePass pass.old pass.new }
    ensures known { ArePreparedFor manager.now.setting.layout shapes.new }
{
    let spans = manager.layout().ground().grid().spans;
    let count = pool.count();
    if now > LATEST_MOMENT || pool.room() != spans || count < 2 || count > 1_000_000 {
        return None;
    }
    let prepared = shapes.prepare_from(manager.layout(), message, pool);
    manager.serve(rt, pass, now, prepared, pool).ok()
}

// Takes turns until the day has no more, and makes the calls of each.
fn make_turns<R: Wait>(
    rt: &R,
    manager: &Manager,
    pass: &mut ManagerPass,
    shapes: &mut Shapes,
    pool: &mut Pool,
    day: &Turns,
)
    requires own { IsPassOf manager.now pass.old }
    requires vehicle { pass.old.number < manager.now.setting.vehicles }
    requires known { ArePreparedFor manager.now.setting.layout shapes.old }
    ensures same { IsSamePass pass.old pass.new }
{
    let mut caller = Caller::new();
    for _ in 0..day.calls() {
        let Some((now, message)) = caller.next(day) else {
            return;
        };
        let reply = call(rt, manager, pass, shapes, pool, now, &message);
        caller.hear(reply);
    }
}

// Takes turns, with sheets and shapes of its own.
fn take_turns<R: Wait>(
    rt: &R,
    alloc: Global,
    manager: &Manager,
    pass: &mut ManagerPass,
    day: &Turns,
)
    requires own { IsPassOf manager.now pass.old }
    requires vehicle { pass.old.number < manager.now.setting.vehicles }
    ensures same { IsSamePass pass.old pass.new }
{
    let Ok(mut pool) = Pool::new(alloc, SHEETS, SPANS) else {
        return;
    };
    let Ok(mut shapes) = Shapes::new(alloc, manager.layout(), SHAPES) else {
        return;
    };
    make_turns(rt, manager, pass, &mut shapes, &mut pool, day);
}

// Takes the turns of all callers, each on a thread of its own.
fn all_turns<R: Threads + Wait + Sync>(
    rt: &R,
    alloc: Global,
    manager: &Manager,
    passes: &mut [ManagerPass],
    day: &Turns,
)
    requires own { All (λ p. IsPassOf manager.now p × (p.number < manager.now.setting.vehicles)) passes.old }
    ensures same { All (λ p. p.table ≡ manager.now.table) passes.new }
{
    let threads = passes.len().max(1);
    thread::for_each_mut(
        rt,
        passes,
        threads,
        &|_place: usize, pass: &mut ManagerPass|
            requires { IsPassOf manager.now pass.now × (pass.now.number < manager.now.setting.vehicles) }
            ensures { IsSamePass pass.entry.now pass.exit.now }
        { take_turns(rt, alloc, manager, pass, day) },
    );
}

// A manager of the twelve lanes for so many callers.
fn open(alloc: Global, callers: u32) -> Result<Opened>
    ensures vehicles { IfOk result (λ o. o.manager.setting.vehicles ≡ callers) }
    ensures passes { IfOk result (λ o. o.passes.items ≡ map (new_pass o.manager) (range_with_len 0 callers)) }
    ensures operator { IfOk result (λ o. o.operator ≡ new_pass o.manager OPERATOR) }
{
    let layout = twelve_lanes(alloc, PolicyKind::Fcfs)?;
    match Manager::open(alloc, layout, callers, ROOM) {
        Ok(opened) => Ok(opened),
        Err(_) => Err(anyhow!("the manager isn't opened")),
    }
}

/// Opens a manager, has the day's turns taken, and closes it.
pub fn over_manager<R: Threads + Wait + Sync + Clock>(
    rt: &R,
    alloc: Global,
    callers: u32,
    day: &Turns,
) -> Result<Taken> {
    let opened = open(alloc, callers)?;
    let Opened {
        manager,
        mut passes,
        operator,
    } = opened;
    let start = Instant::now(rt).ok();
    all_turns(rt, alloc, &manager, &mut passes, day);
    let end = Instant::now(rt).ok();
    let journal = manager.close(passes, operator).journal;
    Taken::between(&journal, start, end)
}
