//! Calls of the manager, one after another.

ghost use Rattle.std.specs.Prelude.{◌≡◌, ◌<◌, ◌≤◌, map};
ghost use Rattle.std.specs.List.{range_with_len};
ghost use Rattle.aim_messages.specs.declared.entries.TheConstants.{OPERATOR};
ghost use Rattle.aim_turnstile.specs.Models.{IsPassOf, IsSamePass, new_pass};

use aim_manager::{Full, Manager, ManagerPass, Opened};
use aim_messages::{Entry, Message, OPERATOR, Order, Reason, Reply};
use aim_sheets::Pool;
use std::alloc::Global;
use std::process::Abort;
use std::sync::Wait;
use tests_samples::{PLAIN, TIMES, built, confirmed, prepared, request};

/// A manager of the crossing, for that many vehicles and that many entries.
pub fn opened(rt: &impl Abort, alloc: Global, vehicles: u32, room: u32) -> Opened
    ensures vehicles { result.manager.setting.vehicles ≡ vehicles }
    ensures passes { result.passes.items ≡ map (new_pass result.manager) (range_with_len 0 vehicles) }
    ensures operator { result.operator ≡ new_pass result.manager OPERATOR }
{
    let layout = built(alloc, &PLAIN, TIMES).expect(rt, "no layout");
    Manager::open(alloc, layout, vehicles, room).expect(rt, "no manager")
}

/// Prepares the message with two sheets of the pool and has it served.
pub fn served<R: Wait + Abort>(
    rt: &R,
    manager: &Manager,
    pass: &mut ManagerPass,
    pool: &mut Pool,
    moment: u32,
    message: &Message,
) -> Result<Reply, Full>
    requires own { IsPassOf manager.now pass.old }
    requires vehicle { pass.old.number < manager.now.setting.vehicles }
    requires moment { moment ≤ 1073741824 }
    ensures same { IsSamePass pass.old pass.new }
{
    let prepared = prepared(manager.layout(), pool, message).expect(rt, "too few sheets");
    manager.serve(rt, pass, moment, prepared, pool)
}

// Refused where the other vehicle has the common tile.
const TAKEN_BY_0: Reply = Reply::Reject {
    reason: Reason::Taken {
        row: 1,
        col: 2,
        step: 13,
        by: 0,
    },
    next: 5,
    held: None,
};

// Lets the second meet the first, or doesn't.
fn meet_if(manager: &Manager, first: &mut ManagerPass, second: &mut ManagerPass, meets: bool)
    requires own { IsPassOf manager.now first.old × IsPassOf manager.now second.old }
    ensures same { IsSamePass first.old first.new × IsSamePass second.old second.new }
{
    if meets {
        let front = manager.front(first);
        manager.meet(second, front);
    }
}

// Two vehicles, of which the second may meet the first between their calls. Its answer doesn't depend on that, as its turn
// comes second.
fn before_the_stop<R: Wait + Abort>(
    rt: &R,
    manager: &Manager,
    first: &mut ManagerPass,
    second: &mut ManagerPass,
    pool: &mut Pool,
    meets: bool,
)
    requires own { IsPassOf manager.now first.old × IsPassOf manager.now second.old }
    requires first { first.old.number < manager.now.setting.vehicles }
    requires second { second.old.number < manager.now.setting.vehicles }
    ensures same { IsSamePass first.old first.new × IsSamePass second.old second.new }
{
    let reply = served(rt, manager, first, pool, 0, &request(1, 0, 10));
    assert!(rt; reply == Ok(confirmed(0, 10)));
    meet_if(manager, first, second, meets);
    let reply = served(rt, manager, second, pool, 0, &request(1, 1, 10));
    assert!(rt; reply == Ok(TAKEN_BY_0));
}

// What comes after the stop is answered by it. Then there is no room.
fn after_the_stop<R: Wait + Abort>(
    rt: &R,
    manager: &Manager,
    first: &mut ManagerPass,
    second: &mut ManagerPass,
    pool: &mut Pool,
)
    requires own { IsPassOf manager.now first.old × IsPassOf manager.now second.old }
    requires first { first.old.number < manager.now.setting.vehicles }
    requires second { second.old.number < manager.now.setting.vehicles }
    ensures same { IsSamePass first.old first.new × IsSamePass second.old second.new }
{
    let reply = served(rt, manager, first, pool, 3, &request(2, 0, 40));
    assert!(rt; reply == Ok(Reply::EmergencyStop));
    let reply = served(rt, manager, second, pool, 3, &request(2, 1, 40));
    assert!(rt;
        reply == Err(Full) && pool.count() == 5,
        "one sheet is kept"
    );
}

// The calls of two vehicles, among which the operator stops all, and once more where there is no room.
fn six_calls<R: Wait + Abort>(
    rt: &R,
    manager: &Manager,
    first: &mut ManagerPass,
    second: &mut ManagerPass,
    operator: &mut ManagerPass,
    pool: &mut Pool,
    meets: bool,
)
    requires own { IsPassOf manager.now first.old × IsPassOf manager.now second.old × IsPassOf manager.now operator.old }
    requires first { first.old.number < manager.now.setting.vehicles }
    requires second { second.old.number < manager.now.setting.vehicles }
    requires operator { operator.old.number ≡ OPERATOR }
    ensures same { IsSamePass first.old first.new × IsSamePass second.old second.new × IsSamePass operator.old operator.new }
{
    before_the_stop(rt, manager, first, second, pool, meets);
    assert!(rt; manager.operate(rt, operator, 3, Order::Stop) == Ok(Reply::Stopped));
    after_the_stop(rt, manager, first, second, pool);
    assert!(rt; manager.operate(rt, operator, 4, Order::Stop) == Err(Full));
}

// The callers of these calls.
const CALLERS: [u32; 4] = [0, 1, OPERATOR, 0];

// The journal has to have an entry of each of these callers, in this order.
fn check_callers(rt: &impl Abort, journal: &[Entry]) {
    assert!(rt; journal.len() == CALLERS.len());
    for (place, entry) in journal.iter().enumerate() {
        assert!(rt; CALLERS.get(place) == Some(&entry.caller));
    }
}

// Opens the manager for two vehicles with room for four entries, and has the calls made.
fn two_vehicles<R: Wait + Abort>(rt: &R, alloc: Global, meets: bool) {
    let mut pool = Pool::new(alloc, 6, 4096).expect(rt, "no memory for a pool");
    let opened = opened(rt, alloc, 2, 4);
    let Opened {
        manager,
        mut passes,
        mut operator,
    } = opened;
    let Some(mut second) = passes.pop() else {
        unreachable!()
    };
    let Some(mut first) = passes.pop() else {
        unreachable!()
    };
    six_calls(
        rt,
        &manager,
        &mut first,
        &mut second,
        &mut operator,
        &mut pool,
        meets,
    );
    passes.push_reserved(second);
    passes.push_reserved(first);
    check_callers(rt, &manager.close(passes, operator).journal);
}

#[test]
fn an_order_among_the_calls(rt: HostRuntime) {
    for meets in [true, false] {
        two_vehicles(&rt, rt.alloc(), meets);
    }
}
