//! The turns of one run of neighbours, and the meetings of all agents with the operator.

ghost use Rattle.std.specs.Prelude.{◌≡◌, ◌+◌, ◌≤◌, length, All};
ghost use Rattle.aim_messages.specs.declared.entries.TheConstants.{LATEST_MOMENT};
ghost use Rattle.aim_driver.specs.Models.{step_of};
ghost use Rattle.aim_turnstile.specs.Models.{IsPassOf, IsSamePass};
ghost use Rattle.aim_agents.specs.Agents.{IsAgentOf, front_of};
ghost use Rattle.aim_agents.specs.Went.{Met};
ghost use Rattle.aim_agents.specs.Runs.{Behind, Done, Followed, Gathered, IsFrontOf, Ran, shown_by};

use crate::{Agent, Gate, Manager, ManagerFront, ManagerPass};
use std::sync::Wait;

// Lets the agent meet the one before it, if there is one.
fn follow(manager: &Manager, agent: &mut Agent, before: Option<ManagerFront>)
    requires own { IsAgentOf manager.now agent.old }
    requires before { IsFrontOf manager.now before }
    ensures { Followed manager.now.setting (shown_by before) agent.old agent.new }
{
    match before {
        Some(front) => agent.meet(manager, front),
        None => {}
    }
}

// One turn behind the agent before, and a note of what was seen then.
fn one_turn<R: Wait, G: Gate>(
    rt: &R,
    manager: &Manager,
    gate: &G,
    step: u32,
    agent: &mut Agent,
    before: Option<ManagerFront>,
) -> ManagerFront
    requires own { IsAgentOf manager.now agent.old }
    requires last { step_of agent.old.driver.log ≤ step }
    requires most { step ≤ LATEST_MOMENT }
    requires before { IsFrontOf manager.now before }
    ensures behind { Behind manager.now.setting step (shown_by before) agent.old agent.new }
    ensures table { result.table ≡ manager.now.table }
    ensures seen { result.seen ≡ agent.new.pass.seen }
{
    follow(manager, agent, before);
    agent.turn(rt, manager, gate, step);
    agent.front(manager)
}

/// The turns of a run, one agent after another, each behind all that the one before had seen.
pub(crate) fn run_turns<R: Wait, G: Gate>(
    rt: &R,
    manager: &Manager,
    gate: &G,
    step: u32,
    agents: &mut [Agent],
)
    requires own { All (IsAgentOf manager.now) agents.old }
    requires last { All (λ a. step_of a.driver.log ≤ step) agents.old }
    requires most { step ≤ LATEST_MOMENT }
    ensures { Ran manager.now.setting step agents.old agents.new }
{
    let mut before = None;
    for agent in agents.iter_mut() {
        before = Some(one_turn(rt, manager, gate, step, agent, before));
    }
}

/// Lets the operator's pass see what each agent's pass has seen.
pub(crate) fn gather(manager: &Manager, operator: &mut ManagerPass, agents: &mut [Agent])
    requires operator { IsPassOf manager.now operator.old }
    requires agents { All (IsAgentOf manager.now) agents.old }
    ensures same { IsSamePass operator.old operator.new }
    ensures gathered { Gathered (length agents.old) operator.old operator.new agents.old agents.new }
{
    for agent in agents.iter_mut() {
        let front = agent.front(manager);
        manager.meet(operator, front);
    }
}

/// Lets each agent's pass see what the operator's has seen.
pub(crate) fn meet_all(manager: &Manager, operator: &mut ManagerPass, agents: &mut [Agent])
    requires operator { IsPassOf manager.now operator.old }
    requires agents { All (IsAgentOf manager.now) agents.old }
    ensures operator { operator.new ≡ operator.old }
    ensures met { Done (λ a b. Met manager.now.setting a (front_of operator.old) b) (length agents.old)
        agents.old agents.new }
{
    for agent in agents.iter_mut() {
        let front = manager.front(operator);
        agent.meet(manager, front);
    }
}
