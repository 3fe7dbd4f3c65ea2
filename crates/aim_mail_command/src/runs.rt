//! The callers in runs, side by side, and the server beside them.

ghost use Rattle.std.specs.Prelude.{◌≡◌, ◌≤◌, ◌<◌, [], length, map, All, IfOk, vec_capacity};
ghost use Rattle.std.specs.Thread.{IsSync};
ghost use Rattle.aim_messages.specs.declared.entries.TheConstants.{LATEST_MOMENT};
ghost use Rattle.aim_mail_command.specs.Calling.{AllByPlace, Finished, HasMade, Works};

use crate::callers::{Caller, make_all};
use aim_layout::Layout;
use aim_mail::{Ended, Served, Server};
use aim_mail_script::Event;
use std::alloc::AllocError;
use std::snapshot::Snapshot;
use std::sync::Wait;
use std::sync::ledger::Ledger;
use std::thread::{self, Promise, Threads};

// Lets the callers make their calls, in runs of so many neighbours. The runs go side by side.
fn side_by_side<R: Threads + Wait + Sync>(
    rt: &R,
    layout: &Layout,
    events: &[Event],
    callers: &mut [Caller],
    size: usize,
)
    requires size { 0 < size }
    requires moments { All (λ e. e.moment ≤ LATEST_MOMENT) events.now }
    requires works { All (Works layout.now events.now) callers.old }
    ensures { AllByPlace (Finished layout.now events.now) callers.old callers.new }
{
    thread::for_each_chunk_mut(
        rt,
        callers,
        size,
        &|_start: usize, run: &mut [Caller]|
            requires { IsSync R.row × All (λ e. e.moment ≤ LATEST_MOMENT) events.now × All (Works layout.now events.now) run.now }
            ensures { AllByPlace (Finished layout.entry.now events.entry.now) run.entry.now run.exit.now }
        { make_all(rt, layout, events, run) },
    );
}

// Sends the last word of each client. There is room for what they leave.
fn finish_all<R: Wait>(rt: &R, callers: Vec<Caller>, mut ended: Vec<Ended>) -> Vec<Ended>
    requires none { ended.items ≡ [] }
    requires room { length callers.items ≤ vec_capacity ended }
    ensures { result.items ≡ map (λ c. c.client) callers.items }
{
    for caller in callers {
        ended.push_reserved(caller.client.finish(rt));
    }
    ended
}

// Lets the callers make their calls, and then sends their last words.
fn call_and_finish<R: Threads + Wait + Sync>(
    rt: &R,
    layout: &Layout,
    events: &[Event],
    mut callers: Vec<Caller>,
    ended: Vec<Ended>,
    size: usize,
) -> Vec<Ended>
    requires size { 0 < size }
    requires moments { All (λ e. e.moment ≤ LATEST_MOMENT) events.now }
    requires works { All (Works layout.now events.now) callers.items }
    requires none { ended.items ≡ [] }
    requires room { length callers.items ≤ vec_capacity ended }
    ensures { AllByPlace (HasMade events.now) callers.items result.items }
{
    side_by_side(rt, layout, events, &mut callers, size);
    finish_all(rt, callers, ended)
}

// What a server leaves is of its own mailbox.
#[derive(Drop)]
struct OfServer<L: Ledger> {
    server: Snapshot<Server<L>>,
}

impl<L: Ledger> Promise<Served<L>> for OfServer<L> {
    ghost kept_by = { λ p r. r ≡ p.server.value };
}

/// The server on a thread of its own, and the runs of callers beside it: what each of them leaves. Where no thread can be
/// made for the server, nothing is called, since a caller would wait for ever.
pub(crate) fn beside<L: Ledger + Send + Sync, R: Threads + Wait + Sync>(
    rt: &R,
    server: Server<L>,
    layout: &Layout,
    events: &[Event],
    callers: Vec<Caller>,
    ended: Vec<Ended>,
    size: usize,
) -> Result<(Served<L>, Vec<Ended>), AllocError>
    requires size { 0 < size }
    requires moments { All (λ e. e.moment ≤ LATEST_MOMENT) events.now }
    requires works { All (Works layout.now events.now) callers.items }
    requires none { ended.items ≡ [] }
    requires room { length callers.items ≤ vec_capacity ended }
    ensures served { IfOk result (λ r. r.0 ≡ server) }
    ensures ended { IfOk result (λ r. AllByPlace (HasMade events.now) callers.items r.1.items) }
{
    thread::scope(
        thread::scope_env(),
        rt,
        move |scope| -> Result<(Served<L>, Vec<Ended>), AllocError>
            requires { IsSync R.row × (0 < size) × All (λ e. e.moment ≤ LATEST_MOMENT) events.now × All (Works layout.now events.now) callers.items × (ended.items ≡ []) × (length callers.items ≤ vec_capacity ended) }
            ensures { IfOk result (λ r. (r.0 ≡ server) × AllByPlace (HasMade events.entry.now) callers.items r.1.items) }
        {
            let promise = OfServer {
                server: Snapshot::of(&server),
            };
            let serving = scope.spawn_with(
                promise,
                move || -> Served<L>
                    requires { IsSync R.row }
                    ensures { result ≡ server }
                { server.run(rt) },
            )?;
            let ended = call_and_finish(rt, layout, events, callers, ended, size);
            Ok((serving.join(rt), ended))
        },
    )
}
