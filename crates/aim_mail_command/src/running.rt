//! Runs a script: the server of a mailbox, and its clients beside it.

ghost use Rattle.std.specs.Prelude.{◌≡◌, ◌≤◌, ◌<◌, ℕ, [], length, map, max, slice_index_or, vec_capacity, All, IfOk};
ghost use Rattle.aim_mail_script.specs.Fits.{IsFit};
ghost use Rattle.aim_mail.specs.Calls.{ClientModel, IsNewClient};
ghost use Rattle.aim_mail_command.specs.Runs.{IsRun};
ghost use Rattle.aim_mail_command.specs.Calling.{AreStaff, IsNewCaller};

use crate::callers::{Caller, SHEETS};
use crate::runs::beside;
use aim_mail::{Client, Ended, Mailbox, OpenFault, OpenedMail, Server, settle};
use aim_mail_script::EventScript;
use aim_messages::Entry;
use aim_sheets::Pool;
use std::alloc::{AllocError, Global};
use std::sync::Wait;
use std::sync::ledger::{Blank, Ledger};
use std::thread::Threads;

// What a run begins with: its server, the callers in their order, and room for what they leave.
struct Staff<L: Ledger> {
    server: Server<L>,
    callers: Vec<Caller>,
    ended: Vec<Ended>,
}

// A mailbox for the vehicles of a script, with room for all its events, and for one at least.
fn open<L: Ledger, R: Wait>(
    rt: &R,
    alloc: Global,
    script: &EventScript,
    blank: Blank,
) -> Result<OpenedMail<L>, AllocError>
    requires script { IsFit script.now }
    requires name { blank.name ≡ L.name }
    requires parts { blank.parts ≡ L.parts }
    requires some { 0 < blank.parts }
    ensures server { IfOk result (λ m. m.server.setting ≡ record { layout = script.now.layout; vehicles = script.now.vehicles; room = max 1 (length script.now.events.items) }) }
    ensures count { IfOk result (λ m. length m.clients.items ≡ script.now.vehicles) }
    ensures clients { IfOk result (λ m. (k : ℕ) (d : ClientModel) → k < script.now.vehicles → IsNewClient m.server k (slice_index_or m.clients.items k d)) }
{
    let room = (script.events.len() as u32).max(1);
    let layout = script.layout.copy()?;
    match Mailbox::open::<L, R>(rt, alloc, layout, script.vehicles, room, blank) {
        Ok(opened) => Ok(opened),
        Err(OpenFault::NoMemory) => Err(AllocError),
        Err(OpenFault::Vehicles) => unreachable!(),
        Err(OpenFault::Room) => unreachable!(),
    }
}

// A caller for each client, in their order.
fn seated(alloc: Global, clients: Vec<Client>, spans: u32) -> Result<Vec<Caller>, AllocError>
    requires few { length clients.items ≤ 65536 }
    ensures clients { IfOk result (λ v. map (λ c. c.client) v.items ≡ clients.items) }
    ensures callers { IfOk result (λ v. (k : ℕ) (d : Caller) → k < length v.items → IsNewCaller k spans (slice_index_or v.items k d)) }
{
    let mut callers = Vec::with_capacity(alloc, clients.len())?;
    let mut vehicle = 0;
    for client in clients {
        let sheets = Pool::new(alloc, SHEETS, spans)?;
        callers.push_reserved(Caller {
            vehicle,
            client,
            sheets,
            place: 0,
        });
        vehicle += 1;
    }
    Ok(callers)
}

// Callers for the clients, in their order, and room for what they leave.
fn prepared(
    alloc: Global,
    clients: Vec<Client>,
    spans: u32,
) -> Result<(Vec<Caller>, Vec<Ended>), AllocError>
    requires few { length clients.items ≤ 65536 }
    ensures clients { IfOk result (λ p. map (λ c. c.client) p.0.items ≡ clients.items) }
    ensures callers { IfOk result (λ p. (k : ℕ) (d : Caller) → k < length p.0.items → IsNewCaller k spans (slice_index_or p.0.items k d)) }
    ensures none { IfOk result (λ p. p.1.items ≡ []) }
    ensures room { IfOk result (λ p. length p.0.items ≤ vec_capacity p.1) }
{
    let callers = seated(alloc, clients, spans)?;
    let ended = Vec::with_capacity(alloc, callers.len())?;
    Ok((callers, ended))
}

// The server of a mailbox for a script, a caller for each of its clients, and room for what they leave.
fn staffed<L: Ledger, R: Wait>(
    rt: &R,
    alloc: Global,
    script: &EventScript,
    blank: Blank,
) -> Result<Staff<L>, AllocError>
    requires script { IsFit script.now }
    requires name { blank.name ≡ L.name }
    requires parts { blank.parts ≡ L.parts }
    requires some { 0 < blank.parts }
    ensures callers { IfOk result (λ s. AreStaff script.now s.server s.callers.items) }
    ensures none { IfOk result (λ s. s.ended.items ≡ []) }
    ensures room { IfOk result (λ s. length s.callers.items ≤ vec_capacity s.ended) }
{
    let opened = open::<L, R>(rt, alloc, script, blank)?;
    let OpenedMail { server, clients } = opened;
    let spans = script.layout.ground().grid().spans;
    match prepared(alloc, clients, spans) {
        Ok((callers, ended)) => Ok(Staff {
            server,
            callers,
            ended,
        }),
        Err(error) => {
            drop(server);
            Err(error)
        }
    }
}

/// Runs a script: a server on one thread, and beside it the clients of all vehicles, each of which calls with its
/// vehicle's events in their order. The clients are cut into runs of neighbours, as many as there are workers at most. The
/// runs go side by side, in threads where the machine gives them, and a run takes its clients in turn, one event each,
/// until all are through. The answer is the journal of all calls. Where the machine gives no thread for the server, the
/// error is that of memory.
pub fn run_script<L: Ledger + Send + Sync, R: Threads + Wait + Sync>(
    rt: &R,
    alloc: Global,
    script: &EventScript,
    workers: u32,
    blank: Blank,
) -> Result<Vec<Entry>, AllocError>
    requires script { IsFit script.now }
    requires workers { 0 < workers }
    requires name { blank.name ≡ L.name }
    requires parts { blank.parts ≡ L.parts }
    requires some { 0 < blank.parts }
    ensures { IfOk result (λ h. IsRun script.now.layout script.now.vehicles script.now.events.items h.items) }
{
    let staff = staffed::<L, R>(rt, alloc, script, blank)?;
    let Staff {
        server,
        callers,
        ended,
    } = staff;
    let size = callers.len().div_ceil(workers as usize);
    let both = beside(
        rt,
        server,
        &script.layout,
        &script.events,
        callers,
        ended,
        size,
    )?;
    let (served, ended) = both;
    Ok(settle(served, ended))
}
