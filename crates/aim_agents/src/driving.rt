//! Rounds and orders, one after the other.

ghost use Rattle.std.specs.Prelude.{◌≡◌, ℕ, ◌<◌, ◌≤◌, ◌++◌, length, map, All, [], Ok, IfOk, OnOk, OnErr};
ghost use Rattle.aim_messages.specs.declared.entries.Act.{Act};
ghost use Rattle.aim_messages.specs.declared.entries.TheConstants.{OPERATOR};
ghost use Rattle.aim_rules.specs.Legal.{IsOfLayout};
ghost use Rattle.aim_driver.specs.Models.{step_of};
ghost use Rattle.aim_turnstile.specs.Models.{IsPassOf, IsSamePass};
ghost use Rattle.aim_agents.specs.Agents.{IsAgentOf};
ghost use Rattle.aim_agents.specs.Rounds.{run_size};
ghost use Rattle.aim_agents.specs.Driven.{Driven};
ghost use Rattle.aim_agents.specs.Orders.{AreOrders, FoundFull, CarryOrders, Given, AllGiven};

use crate::steps::rounds;
use crate::{Agent, Full, Gate, Manager, ManagerPass};
use aim_driver::Ordered;
use aim_messages::Reply;
use std::sync::Wait;
use std::thread::Threads;

// Lets the agents take their turns of the steps from `step` on and below the order's moment, and then gives the order.
fn give<R: Threads + Wait + Sync, G: Gate>(
    rt: &R,
    manager: &Manager,
    operator: &mut ManagerPass,
    agents: &mut [Agent],
    gate: &G,
    step: u32,
    ordered: Ordered,
    workers: u32,
) -> Result<Reply, Full>
    requires workers { (0 < workers) × (workers ≤ 64) }
    requires steps { (step ≤ ordered.moment) × (ordered.moment ≤ 65536) }
    requires operator { IsPassOf manager.now operator.old }
    requires number { operator.old.number ≡ OPERATOR }
    requires agents { All (IsAgentOf manager.now) agents.old }
    requires last { All (λ a. step_of a.driver.log ≤ step) agents.old }
    requires order { IsOfLayout manager.now.setting.layout manager.now.setting.vehicles OPERATOR (Act.Order ordered.order) }
    ensures { Given manager.now.setting step ordered (run_size (length agents.old) workers) result operator.old operator.new agents.old agents.new }
{
    rounds(
        rt,
        manager,
        operator,
        agents,
        gate,
        step,
        ordered.moment,
        workers,
    );
    manager.operate(rt, operator, ordered.moment, ordered.order)
}

// Gives all orders, each behind the new agents' turns of the steps below its moment, and tells the last one's moment,
// or 0.
fn give_all<R: Threads + Wait + Sync, G: Gate>(
    rt: &R,
    manager: &Manager,
    operator: &mut ManagerPass,
    agents: &mut [Agent],
    gate: &G,
    orders: &[Ordered],
    workers: u32,
) -> Result<u32, Full>
    requires workers { (0 < workers) × (workers ≤ 64) }
    requires operator { IsPassOf manager.now operator.old }
    requires number { operator.old.number ≡ OPERATOR }
    requires agents { All (IsAgentOf manager.now) agents.old }
    requires new_operator { (operator.old.seen ≡ []) × (operator.old.mine ≡ []) }
    requires new_agents { All (λ a. a.driver.log ≡ []) agents.old }
    requires orders { (until : ℕ) × AreOrders manager.now.setting.layout manager.now.setting.vehicles until orders.now × (until ≤ 65536) }
    ensures same { IsSamePass operator.old operator.new }
    ensures given { IfOk result (λ step. AllGiven manager.now.setting step (run_size (length agents.old) workers) operator.new agents.old agents.new orders.now) }
    ensures full { OnErr result ((until : ℕ) → FoundFull manager.now.setting until (run_size (length agents.old) workers) operator.new agents.old agents.new (length orders.now)) }
{
    let mut step = 0;
    for ordered in orders {
        give(rt, manager, operator, agents, gate, step, *ordered, workers)?;
        step = ordered.moment;
    }
    Ok(step)
}

/// Lets new agents take their turns of the steps below `until`, each order being given before the turns of its moment.
pub fn drive<R: Threads + Wait + Sync, G: Gate>(
    rt: &R,
    manager: &Manager,
    operator: &mut ManagerPass,
    agents: &mut [Agent],
    gate: &G,
    orders: &[Ordered],
    until: u32,
    workers: u32,
) -> Result<(), Full>
    requires workers { (0 < workers) × (workers ≤ 64) }
    requires most { until ≤ 65536 }
    requires operator { IsPassOf manager.now operator.old }
    requires number { operator.old.number ≡ OPERATOR }
    requires agents { All (IsAgentOf manager.now) agents.old }
    requires new_operator { (operator.old.seen ≡ []) × (operator.old.mine ≡ []) }
    requires new_agents { All (λ a. a.driver.log ≡ []) agents.old }
    requires orders { AreOrders manager.now.setting.layout manager.now.setting.vehicles until orders.now }
    ensures same { IsSamePass operator.old operator.new }
    ensures driven { OnOk result (Driven manager.now.setting until (run_size (length agents.old) workers) operator.new agents.old agents.new) }
    ensures given { OnOk result (CarryOrders operator.new.mine orders.now) }
    ensures full { OnErr result (FoundFull manager.now.setting until (run_size (length agents.old) workers) operator.new agents.old agents.new (length orders.now)) }
{
    let step = give_all(rt, manager, operator, agents, gate, orders, workers)?;
    rounds(rt, manager, operator, agents, gate, step, until, workers);
    Ok(())
}
