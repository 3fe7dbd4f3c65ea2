//! The day's turns taken over a mailbox, by clients beside the server that owns the book.

ghost use Rattle.std.specs.Prelude.{◌≡◌, ◌<◌, ◌≤◌, [], length, vec_capacity, All, IfOk, IfSome};
ghost use Rattle.std.specs.Thread.{IsSync};
ghost use Rattle.aim_requests.specs.Shapes.{ArePreparedFor};
ghost use Rattle.aim_mail.specs.Calls.{IsOfMail, IsSameClient, ServerModel};

use aim_layout::{Layout, PolicyKind};
use aim_mail::{Client, Ended, Mailbox, OpenedMail, Served, Server, settle};
use aim_messages::{LATEST_MOMENT, Message, Reply};
use aim_requests::Shapes;
use aim_sheets::Pool;
use anyhow::{Result, anyhow};
use bench_day::{Caller, ROOM, SHAPES, SHEETS, SPANS, Taken, Turns, twelve_lanes};
use std::alloc::{AllocError, Global};
use std::snapshot::Snapshot;
use std::sync::Wait;
use std::sync::ledger::{Blank, Ledger};
use std::thread::{self, Promise, Threads};
use std::time::{Clock, Instant};

// Prepares one message and calls with it. None is where the call may not be made, or finds the journal full.
fn call<R: Wait>(
    rt: &R,
    client: &mut Client,
    layout: &Layout,
    shapes: &mut Shapes,
    pool: &mut Pool,
    now: u32,
    message: &Message,
) -> Option<Reply>
    requires layout { IfSome client.old.setting (λ s. s.layout ≡ layout.now) }
    requires known { ArePreparedFor layout.now shapes.old }
    ensures same { IsSameClient client.old client.new }
    ensures known { ArePreparedFor layout.now shapes.new }
{
    let spans = layout.ground().grid().spans;
    let count = pool.count();
    if now > LATEST_MOMENT || pool.room() != spans || count < 2 || count > 1_000_000 {
        return None;
    }
    let prepared = shapes.prepare_from(layout, message, pool);
    client.call(rt, now, prepared, pool).ok()
}

// Takes turns until the day has no more, and makes the calls of each.
fn make_turns<R: Wait>(
    rt: &R,
    client: &mut Client,
    layout: &Layout,
    shapes: &mut Shapes,
    pool: &mut Pool,
    day: &Turns,
)
    requires layout { IfSome client.old.setting (λ s. s.layout ≡ layout.now) }
    requires known { ArePreparedFor layout.now shapes.old }
    ensures same { IsSameClient client.old client.new }
{
    let mut caller = Caller::new();
    for _ in 0..day.calls() {
        let Some((now, message)) = caller.next(day) else {
            return;
        };
        let reply = call(rt, client, layout, shapes, pool, now, &message);
        caller.hear(reply);
    }
}

// Takes turns, with sheets and shapes of its own.
fn take_turns<R: Wait>(rt: &R, alloc: Global, client: &mut Client, layout: &Layout, day: &Turns)
    requires layout { IfSome client.old.setting (λ s. s.layout ≡ layout.now) }
    ensures same { IsSameClient client.old client.new }
{
    let Ok(mut pool) = Pool::new(alloc, SHEETS, SPANS) else {
        return;
    };
    let Ok(mut shapes) = Shapes::new(alloc, layout, SHAPES) else {
        return;
    };
    make_turns(rt, client, layout, &mut shapes, &mut pool, day);
}

// Takes the turns of all clients, each on a thread of its own.
fn all_turns<R: Threads + Wait + Sync>(
    rt: &R,
    alloc: Global,
    clients: &mut [Client],
    layout: &Layout,
    day: &Turns,
)
    requires layout { All (λ c. IfSome c.setting (λ s. s.layout ≡ layout.now)) clients.old }
    ensures count { length clients.new ≡ length clients.old }
    ensures own { (m : ServerModel) → All (IsOfMail m) clients.old → All (IsOfMail m) clients.new }
{
    let threads = clients.len().max(1);
    thread::for_each_mut(
        rt,
        clients,
        threads,
        &|_place: usize, client: &mut Client|
            requires { IfSome client.now.setting (λ s. s.layout ≡ layout.now) }
            ensures { IsSameClient client.entry.now client.exit.now }
        { take_turns(rt, alloc, client, layout, day) },
    );
}

// Says the last word of each client. There is room for what they leave.
fn finish_all<R: Wait>(rt: &R, clients: Vec<Client>, mut ended: Vec<Ended>) -> Vec<Ended>
    requires none { ended.items ≡ [] }
    requires room { length clients.items ≤ vec_capacity ended }
    ensures { result.items ≡ clients.items }
{
    for client in clients {
        ended.push_reserved(client.finish(rt));
    }
    ended
}

// Takes the turns of all clients, and then says their last words.
fn call_and_finish<R: Threads + Wait + Sync>(
    rt: &R,
    alloc: Global,
    mut clients: Vec<Client>,
    ended: Vec<Ended>,
    layout: &Layout,
    day: &Turns,
) -> Vec<Ended>
    requires layout { All (λ c. IfSome c.setting (λ s. s.layout ≡ layout.now)) clients.items }
    requires none { ended.items ≡ [] }
    requires room { length clients.items ≤ vec_capacity ended }
    ensures own { (m : ServerModel) → All (IsOfMail m) clients.items → All (IsOfMail m) result.items }
{
    all_turns(rt, alloc, &mut clients, layout, day);
    finish_all(rt, clients, ended)
}

// What a server leaves is of its own mailbox.
#[derive(Drop)]
struct OfServer<L: Ledger> {
    server: Snapshot<Server<L>>,
}

impl<L: Ledger> Promise<Served<L>> for OfServer<L> {
    ghost kept_by = { λ p r. r ≡ p.server.value };
}

// The server on a thread of its own, and the clients beside it: what they leave. Where no thread can be made for the server,
// nothing is called, since a client would wait for ever.
fn beside<L: Ledger + Send + Sync, R: Threads + Wait + Sync>(
    rt: &R,
    alloc: Global,
    server: Server<L>,
    clients: Vec<Client>,
    ended: Vec<Ended>,
    layout: &Layout,
    day: &Turns,
) -> Result<(Served<L>, Vec<Ended>), AllocError>
    requires layout { All (λ c. IfSome c.setting (λ s. s.layout ≡ layout.now)) clients.items }
    requires own { All (IsOfMail server) clients.items }
    requires none { ended.items ≡ [] }
    requires room { length clients.items ≤ vec_capacity ended }
    ensures own { IfOk result (λ r. All (IsOfMail r.0) r.1.items) }
{
    let both = thread::scope(
        thread::scope_env(),
        rt,
        move |scope| -> Result<(Served<L>, Vec<Ended>), AllocError>
            requires { IsSync R.row × All (λ c. IfSome c.setting (λ s. s.layout ≡ layout.now)) clients.items × (ended.items ≡ []) × (length clients.items ≤ vec_capacity ended) }
            ensures { IfOk result (λ r. (r.0 ≡ server) × ((m : ServerModel) → All (IsOfMail m) clients.items → All (IsOfMail m) r.1.items)) }
        {
            let promise = OfServer {
                server: Snapshot::of(&server),
            };
            let serving = scope.spawn_with(
                promise,
                move || -> Served<L>
                    requires { IsSync R.row }
                    ensures { result ≡ server }
                { server.run(rt) },
            )?;
            let ended = call_and_finish(rt, alloc, clients, ended, layout, day);
            Ok((serving.join(rt), ended))
        },
    )?;
    Ok(both)
}

// A mailbox over a copy of the layout, for so many callers.
fn open<L: Ledger, R: Wait>(
    rt: &R,
    alloc: Global,
    layout: &Layout,
    callers: u32,
    blank: Blank,
) -> Result<OpenedMail<L>>
    requires name { blank.name ≡ L.name }
    requires parts { blank.parts ≡ L.parts }
    requires some { 0 < blank.parts }
    ensures count { IfOk result (λ m. length m.clients.items ≡ callers) }
    ensures layout { IfOk result (λ m. All (λ c. IfSome c.setting (λ s. s.layout ≡ layout.now)) m.clients.items) }
    ensures own { IfOk result (λ m. All (IsOfMail m.server) m.clients.items) }
{
    let copy = layout.copy()?;
    match Mailbox::open::<L, R>(rt, alloc, copy, callers, ROOM, blank) {
        Ok(opened) => Ok(opened),
        Err(_) => Err(anyhow!("the mailbox isn't opened")),
    }
}

// Opens a mailbox over the layout, has the day's turns taken, and settles it.
fn over_layout<L: Ledger + Send + Sync, R: Threads + Wait + Sync + Clock>(
    rt: &R,
    alloc: Global,
    blank: Blank,
    layout: &Layout,
    callers: u32,
    day: &Turns,
) -> Result<Taken>
    requires name { blank.name ≡ L.name }
    requires parts { blank.parts ≡ L.parts }
    requires some { 0 < blank.parts }
{
    let ended = Vec::with_capacity(alloc, callers as usize)?;
    let opened = open::<L, R>(rt, alloc, layout, callers, blank)?;
    let OpenedMail { server, clients } = opened;
    let start = Instant::now(rt).ok();
    let (served, ended) = beside(rt, alloc, server, clients, ended, layout, day)?;
    let end = Instant::now(rt).ok();
    Taken::between(&settle(served, ended), start, end)
}

/// Has the day's turns taken by so many callers over a mailbox, each on a thread of its own and the server on one more.
pub fn over_mailbox<L: Ledger + Send + Sync, R: Threads + Wait + Sync + Clock>(
    rt: &R,
    alloc: Global,
    blank: Blank,
    callers: u32,
    day: &Turns,
) -> Result<Taken>
    requires name { blank.name ≡ L.name }
    requires parts { blank.parts ≡ L.parts }
    requires some { 0 < blank.parts }
{
    let layout = twelve_lanes(alloc, PolicyKind::Fcfs)?;
    over_layout::<L, R>(rt, alloc, blank, &layout, callers, day)
}
