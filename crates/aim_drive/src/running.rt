//! A whole drive.

ghost use Rattle.std.specs.Prelude.{◌≡◌, [], false, ◌+◌, ◌*◌, ◌<◌, ◌≤◌, ◌++◌, length, map, vec_capacity, All, IfOk, OnOk};
ghost use Rattle.aim_messages.specs.declared.entries.TheConstants.{OPERATOR};
ghost use Rattle.aim_turnstile.specs.Models.{new_pass};
ghost use Rattle.aim_agents.specs.Agents.{AgentModel};
ghost use Rattle.aim_agents.specs.Rounds.{run_size};
ghost use Rattle.aim_safety.specs.Tiles.{EntersBy};
ghost use Rattle.aim_agents.specs.Orders.{AreOrders};
ghost use Rattle.aim_drive_script.specs.Fits.{IsFit};
ghost use Rattle.aim_drive_script.specs.Scripts.{drive_told};
ghost use Rattle.aim_drive.specs.Closing.{HasMemory, HeadlineOfSeated, IsSeated, Leaves};
ghost use Rattle.aim_drive.specs.Headline.{Headline};
ghost use Rattle.aim_drive.specs.Making.{AreAgentsFor, AreLeft, ArePlans, all_passes, told_by, log_of};

use crate::NoMemory;
use crate::making::agents_of;
use aim_agents::{Agent, Gate, Manager, ManagerPass, OpenFault, Opened, Trouble, drive};
use aim_drive_script::{DriveScript, Planned};
use aim_driver::{Driver, Ordered};
use aim_layout::Layout;
use aim_messages::Entry;
use std::alloc::Global;
use std::sync::Wait;
use std::thread::Threads;

/// The log of a vehicle's driver.
#[derive(Drop)]
pub struct Logged {
    pub vehicle: u32,
    pub driver: Driver,
}

/// What a drive leaves.
#[derive(Drop)]
pub struct Drove {
    /// All that was asked and answered, the oldest first.
    pub journal: Vec<Entry>,
    /// In the order of the plans.
    pub logs: Vec<Logged>,
}

/// A new manager with room for all calls and orders of a drive.
pub fn open(alloc: Global, layout: Layout, vehicles: u32, orders: u32) -> Result<Opened, NoMemory>
    requires vehicles { (0 < vehicles) × (vehicles ≤ 256) }
    requires orders { orders ≤ 1024 }
    ensures manager { IfOk result (λ o. o.manager.setting ≡ record { layout = layout; vehicles = vehicles; room = 128 * vehicles + orders + 1 }) }
    ensures passes { IfOk result (λ o. o.passes.items ≡ all_passes o.manager) }
    ensures operator { IfOk result (λ o. o.operator ≡ new_pass o.manager OPERATOR) }
{
    match Manager::open(alloc, layout, vehicles, 128 * vehicles + orders + 1) {
        Ok(opened) => Ok(opened),
        Err(OpenFault::NoMemory) => Err(NoMemory),
        Err(OpenFault::Vehicles) => unreachable!(),
        Err(OpenFault::Room) => unreachable!(),
    }
}

// Whether one of them found no memory.
fn lack_memory(agents: &Vec<Agent>) -> bool
    ensures { result ≡ false → All HasMemory agents.now.items }
{
    for agent in agents {
        if let Some(Trouble::NoMemory) = agent.trouble() {
            return true;
        }
    }
    false
}

// The log of an agent's driver, and its pass.
fn parted(agent: Agent) -> (Logged, ManagerPass)
    ensures log { log_of result.0 ≡ told_by agent }
    ensures pass { result.1 ≡ agent.pass }
{
    let (driver, pass) = agent.into_parts();
    let vehicle = pass.number();
    (Logged { vehicle, driver }, pass)
}

// Room for the logs of so many agents, and for their passes behind the others.
fn room_for(
    alloc: Global,
    agents: usize,
    passes: &mut Vec<ManagerPass>,
) -> Result<Vec<Logged>, NoMemory>
    ensures none { IfOk result (λ v. v.items ≡ []) }
    ensures logs { IfOk result (λ v. agents ≤ vec_capacity v) }
    ensures passes { OnOk result (length passes.new.items + agents ≤ vec_capacity passes.new) }
    ensures same { OnOk result (passes.new.items ≡ passes.old.items) }
{
    passes.reserve(agents)?;
    Ok(Vec::with_capacity(alloc, agents)?)
}

// Takes the agents apart: their logs, in their order, and their passes behind the others. There is room for both.
fn part_all(agents: Vec<Agent>, mut logs: Vec<Logged>, passes: &mut Vec<ManagerPass>) -> Vec<Logged>
    requires none { logs.items ≡ [] }
    requires logs { length agents.items ≤ vec_capacity logs }
    requires passes { length passes.old.items + length agents.items ≤ vec_capacity passes.old }
    ensures logs { map log_of result.items ≡ map told_by agents.items }
    ensures passes { passes.new.items ≡ passes.old.items ++ map (λ (a : AgentModel). a.pass) agents.items }
{
    for agent in agents {
        let (logged, pass) = parted(agent);
        logs.push_reserved(logged);
        passes.push_reserved(pass);
    }
    logs
}

// The logs of the drivers, in the order of the agents. Their passes come behind the others.
fn logs_of(
    alloc: Global,
    agents: Vec<Agent>,
    passes: &mut Vec<ManagerPass>,
) -> Result<Vec<Logged>, NoMemory>
    ensures logs { IfOk result (λ v. map log_of v.items ≡ map told_by agents.items) }
    ensures passes { OnOk result (passes.new.items ≡ passes.old.items ++ map (λ (a : AgentModel). a.pass) agents.items) }
{
    let logs = room_for(alloc, agents.len(), passes)?;
    Ok(part_all(agents, logs, passes))
}

// Closes the manager: the journal, and the logs of the agents, each of which found memory.
fn closed(
    alloc: Global,
    manager: Manager,
    agents: Vec<Agent>,
    mut passes: Vec<ManagerPass>,
    operator: ManagerPass,
) -> Result<Drove, NoMemory>
    requires own { All (λ p. p.table ≡ manager.table) (passes.items ++ map (λ (a : AgentModel). a.pass) agents.items) }
    requires operator { operator.table ≡ manager.table }
    requires all { length passes.items + length agents.items ≡ manager.setting.vehicles }
    requires memory { All HasMemory agents.items }
    ensures { IfOk result (λ d. Leaves manager.setting agents.items passes.items operator d) }
{
    let logs = logs_of(alloc, agents, &mut passes)?;
    let journal = manager.close(passes, operator).journal;
    Ok(Drove { journal, logs })
}

// Closes the manager, where each agent found memory.
fn left_by(
    alloc: Global,
    manager: Manager,
    agents: Vec<Agent>,
    passes: Vec<ManagerPass>,
    operator: ManagerPass,
) -> Result<Drove, NoMemory>
    requires own { All (λ p. p.table ≡ manager.table) (passes.items ++ map (λ (a : AgentModel). a.pass) agents.items) }
    requires operator { operator.table ≡ manager.table }
    requires all { length passes.items + length agents.items ≡ manager.setting.vehicles }
    ensures { IfOk result (λ d. Leaves manager.setting agents.items passes.items operator d) }
{
    if lack_memory(&agents) {
        return Err(NoMemory);
    }
    closed(alloc, manager, agents, passes, operator)
}

// What is ready for a drive.
struct Seated {
    manager: Manager,
    // In the order of the plans.
    agents: Vec<Agent>,
    // Those of the other vehicles.
    passes: Vec<ManagerPass>,
    operator: ManagerPass,
}

// An agent for each plan at a new manager.
fn manned(
    alloc: Global,
    opened: Opened,
    plans: Vec<Planned>,
    spans: u32,
) -> Result<Seated, NoMemory>
    requires plans { ArePlans opened.manager.setting.vehicles plans.items }
    requires passes { opened.passes.items ≡ all_passes opened.manager }
    ensures manager { IfOk result (λ s. s.manager ≡ opened.manager) }
    ensures agents { IfOk result (λ s. AreAgentsFor opened.manager spans plans.items s.agents.items) }
    ensures left { IfOk result (λ s. AreLeft opened.manager s.agents.items s.passes.items) }
    ensures operator { IfOk result (λ s. s.operator ≡ opened.operator) }
{
    let Opened {
        manager,
        mut passes,
        operator,
    } = opened;
    let agents = agents_of(alloc, &manager, plans, &mut passes, spans)?;
    Ok(Seated {
        manager,
        agents,
        passes,
        operator,
    })
}

// A new manager with room for all calls and orders of a drive, and an agent for each plan.
fn seat(
    alloc: Global,
    layout: Layout,
    vehicles: u32,
    orders: u32,
    plans: Vec<Planned>,
    spans: u32,
) -> Result<Seated, NoMemory>
    requires vehicles { (0 < vehicles) × (vehicles ≤ 256) }
    requires orders { orders ≤ 1024 }
    requires plans { ArePlans vehicles plans.items }
    ensures manager { IfOk result (λ s. s.manager.setting ≡ record { layout = layout; vehicles = vehicles; room = 128 * vehicles + orders + 1 }) }
    ensures agents { IfOk result (λ s. AreAgentsFor s.manager spans plans.items s.agents.items) }
    ensures left { IfOk result (λ s. AreLeft s.manager s.agents.items s.passes.items) }
    ensures operator { IfOk result (λ s. s.operator ≡ new_pass s.manager OPERATOR) }
{
    let opened = open(alloc, layout, vehicles, orders)?;
    manned(alloc, opened, plans, spans)
}

// Lets the agents take their turns of all steps, with the orders between them, and closes the manager.
fn drive_seated<R: Threads + Wait + Sync, G: Gate>(
    rt: &R,
    alloc: Global,
    seated: Seated,
    gate: &G,
    orders: &[Ordered],
    until: u32,
    workers: u32,
) -> Result<Drove, NoMemory>
    requires seated { IsSeated seated.manager (length orders.now) seated.agents.items seated.passes.items seated.operator }
    requires orders { AreOrders seated.manager.setting.layout seated.manager.setting.vehicles until orders.now }
    requires until { until ≤ 65536 }
    requires workers { (0 < workers) × (workers ≤ 64) }
    ensures headline { IfOk result (λ d. HeadlineOfSeated seated.manager until workers seated.agents.items orders.now d) }
    ensures fits { IfOk result (λ d. length d.journal.items ≤ seated.manager.setting.room) }
{
    let Seated {
        manager,
        mut agents,
        passes,
        mut operator,
    } = seated;
    let went = drive(
        rt,
        &manager,
        &mut operator,
        &mut agents,
        gate,
        orders,
        until,
        workers,
    );
    let drove = left_by(alloc, manager, agents, passes, operator)?;
    match went {
        Ok(()) => Ok(drove),
        Err(_full) => unreachable!(),
    }
}

/// Runs a whole script: an agent for each plan, their turns of all steps in rounds of that many runs side by side, and
/// the operator's orders between them. The journal and the logs are as the headline says, and each driver enters at a
/// step for which its tiles can be told.
pub fn run_script<R: Threads + Wait + Sync, G: Gate>(
    rt: &R,
    alloc: Global,
    script: DriveScript,
    gate: &G,
    workers: u32,
) -> Result<Drove, NoMemory>
    requires script { IsFit script }
    requires workers { (0 < workers) × (workers ≤ 64) }
    ensures headline { IfOk result (λ d. Headline script.layout script.vehicles script.until (run_size (length script.plans.items) workers)
        (map drive_told script.plans.items) script.orders.items d.journal.items (map log_of d.logs.items)) }
    ensures few { IfOk result (λ d. length d.journal.items ≤ 128 * script.vehicles + length script.orders.items + 1) }
    ensures enters { IfOk result (λ d. All (λ l. EntersBy 2147483648 l.driver.log) d.logs.items) }
{
    let DriveScript {
        layout,
        vehicles,
        until,
        plans,
        orders,
    } = script;
    let spans = layout.ground().grid().spans;
    let seated = seat(alloc, layout, vehicles, orders.len() as u32, plans, spans)?;
    drive_seated(rt, alloc, seated, gate, &orders, until, workers)
}
