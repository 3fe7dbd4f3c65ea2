//! Clients of a mailbox and its server, on threads of their own.

ghost use Rattle.std.specs.Prelude.{◌≡◌, ◌<◌, ◌≤◌, ◌∷◌, [], IfSome};
ghost use Rattle.std.specs.Thread.{IsSync};
ghost use Rattle.aim_mail.specs.Calls.{IsOfMail, IsSameClient};

use aim_layout::Layout;
use aim_mail::{Client, Ended, Full, Mailbox, OpenedMail, Served, Server, settle};
use aim_messages::{Entry, Message, Reply};
use aim_sheets::Pool;
use std::alloc::Global;
use std::marker::Brand;
use std::process::Abort;
use std::sync::Wait;
use std::sync::atomic::{AtomicBool, Ordering};
use std::sync::ledger::{Blank, Ledger};
use std::thread::{Threads, join, yield_now};
use tests_samples::{PLAIN, TIMES, built, confirmed, has_numbers, prepared, request};

// How many turns of its thread the server lets go by before it runs.
const TURNS: u32 = 1_000_000;

// How many entries the journal has room for: eight fewer than there are calls.
const ROOM: u32 = 94;

// A server with two clients.
struct Staff<L: Ledger> {
    server: Server<L>,
    first: Client,
    second: Client,
}

// Opens a mailbox for two vehicles.
fn opened<L: Ledger, R: Wait + Abort>(
    rt: &R,
    alloc: Global,
    layout: &Layout,
    blank: Blank,
) -> Staff<L>
    requires name { blank.name ≡ L.name }
    requires parts { blank.parts ≡ L.parts }
    requires some { 0 < blank.parts }
    ensures own { IsOfMail result.server result.first × IsOfMail result.server result.second }
    ensures layout { result.server.setting.layout ≡ layout.now }
{
    let layout = layout.copy().expect(rt, "no memory for a layout");
    let mail = Mailbox::open::<L, R>(rt, alloc, layout, 2, ROOM, blank).expect(rt, "no mailbox");
    let OpenedMail {
        server,
        mut clients,
    } = mail;
    let Some(second) = clients.pop() else {
        unreachable!()
    };
    let Some(first) = clients.pop() else {
        unreachable!()
    };
    Staff {
        server,
        first,
        second,
    }
}

// Prepares the message with two sheets of the pool, and calls.
fn called<R: Wait + Abort>(
    rt: &R,
    client: &mut Client,
    layout: &Layout,
    pool: &mut Pool,
    moment: u32,
    message: &Message,
) -> Result<Reply, Full>
    requires layout { IfSome client.old.setting (λ s. s.layout ≡ layout.now) }
    requires moment { moment ≤ 1073741824 }
    ensures { IsSameClient client.old client.new }
{
    let prepared = prepared(layout, pool, message).expect(rt, "too few sheets");
    client.call(rt, moment, prepared, pool)
}

// Makes fifty further requests with a pool of its own, and says the last word.
fn requests<R: Wait + Abort>(
    rt: &R,
    mut client: Client,
    layout: &Layout,
    alloc: Global,
    lane: u8,
) -> Ended
    requires layout { IfSome client.setting (λ s. s.layout ≡ layout.now) }
    ensures { IsSameClient client result }
{
    let mut pool = Pool::new(alloc, 3, 4096).expect(rt, "no memory for a pool");
    for place in 0..50 {
        let message = request(place + 2, lane, place + 10);
        let _reply = called(rt, &mut client, layout, &mut pool, place, &message);
    }
    client.finish(rt)
}

// Two clients on two threads, each with fifty requests.
fn fifty_each<R: Threads + Wait + Abort + Sync>(
    rt: &R,
    first: Client,
    second: Client,
    layout: &Layout,
    alloc: Global,
) -> (Ended, Ended)
    requires layouts { IfSome first.setting (λ s. s.layout ≡ layout.now) × IfSome second.setting (λ s. s.layout ≡ layout.now) }
    ensures { IsSameClient first result.0 × IsSameClient second result.1 }
{
    join(
        rt,
        move || -> Ended
            requires { IsSync R.row × IfSome first.setting (λ s. s.layout ≡ layout.now) }
            ensures { IsSameClient first result }
        { requests(rt, first, layout, alloc, 0) },
        move || -> Ended
            requires { IsSync R.row × IfSome second.setting (λ s. s.layout ≡ layout.now) }
            ensures { IsSameClient second result }
        { requests(rt, second, layout, alloc, 1) },
    )
}

// The clients call one after the other, and then side by side.
fn clients<R: Threads + Wait + Abort + Sync>(
    rt: &R,
    mut first: Client,
    mut second: Client,
    layout: &Layout,
    alloc: Global,
    answered: &AtomicBool,
) -> (Ended, Ended)
    requires layouts { IfSome first.setting (λ s. s.layout ≡ layout.now) × IfSome second.setting (λ s. s.layout ≡ layout.now) }
    ensures { IsSameClient first result.0 × IsSameClient second result.1 }
{
    let mut pool = Pool::new(alloc, 4, 4096).expect(rt, "no memory for a pool");
    let reply = called(rt, &mut first, layout, &mut pool, 0, &request(1, 0, 10));
    answered.store(true, Ordering::SeqCst);
    assert!(rt; reply == Ok(confirmed(0, 10)));
    let reply = called(rt, &mut second, layout, &mut pool, 0, &request(1, 1, 40));
    assert!(rt; reply == Ok(confirmed(1, 40)));
    fifty_each(rt, first, second, layout, alloc)
}

// Lets so many turns go by, in which no call may be answered.
fn let_turns_go_by(rt: &impl Abort, answered: &AtomicBool) {
    for _ in 0..TURNS {
        assert!(rt;
            !answered.load(Ordering::SeqCst),
            "answered without the server"
        );
        yield_now();
    }
}

// The server on one thread, on which it begins late, and its two clients on another.
fn beside<L: Ledger + Send + Sync, R: Threads + Wait + Abort + Sync>(
    rt: &R,
    staff: Staff<L>,
    layout: &Layout,
    alloc: Global,
    answered: &AtomicBool,
) -> (Served<L>, (Ended, Ended))
    requires layouts { IfSome staff.first.setting (λ s. s.layout ≡ layout.now) × IfSome staff.second.setting (λ s. s.layout ≡ layout.now) }
    ensures served { result.0 ≡ staff.server }
    ensures clients { IsSameClient staff.first result.1.0 × IsSameClient staff.second result.1.1 }
{
    let Staff {
        server,
        first,
        second,
    } = staff;
    join(
        rt,
        move || -> Served<L>
            requires { IsSync R.row }
            ensures { result ≡ server }
        {
            let_turns_go_by(rt, answered);
            server.run(rt)
        },
        move || -> (Ended, Ended)
            requires { IsSync R.row × IfSome first.setting (λ s. s.layout ≡ layout.now) × IfSome second.setting (λ s. s.layout ≡ layout.now) }
            ensures { IsSameClient first result.0 × IsSameClient second result.1 }
        { clients(rt, first, second, layout, alloc, answered) },
    )
}

// A list of two clients.
fn both(rt: &impl Abort, alloc: Global, first: Ended, second: Ended) -> Vec<Ended>
    ensures { result.items ≡ first ∷ second ∷ [] }
{
    let mut both = Vec::with_capacity(alloc, 2).expect(rt, "no memory for two clients");
    both.push_reserved(first);
    both.push_reserved(second);
    both
}

// Settles a mailbox of two clients.
fn settled<L: Ledger>(
    rt: &impl Abort,
    alloc: Global,
    served: Served<L>,
    first: Ended,
    second: Ended,
) -> Vec<Entry>
    requires own { IsOfMail served first × IsOfMail served second }
{
    settle(served, both(rt, alloc, first, second))
}

// The journal of two clients beside a server.
fn mailed<L: Ledger + Send + Sync, R: Threads + Wait + Abort + Sync>(
    rt: &R,
    alloc: Global,
    blank: Blank,
) -> Vec<Entry>
    requires name { blank.name ≡ L.name }
    requires parts { blank.parts ≡ L.parts }
    requires some { 0 < blank.parts }
{
    let layout = built(alloc, &PLAIN, TIMES).expect(rt, "no layout");
    let staff = opened::<L, R>(rt, alloc, &layout, blank);
    let answered = AtomicBool::new(false);
    let (served, (first, second)) = beside(rt, staff, &layout, alloc, &answered);
    drop(layout);
    settled(rt, alloc, served, first, second)
}

#[test]
fn three_threads_keep_each_clients_calls(rt: HostRuntime) {
    let journal = mailed::<Brand, HostRuntime>(&rt, rt.alloc(), Blank::new(1));
    assert!(rt; has_numbers(&journal, 2, ROOM));
}
