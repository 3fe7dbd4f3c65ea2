//! The steps one after another, and in each the runs side by side.

ghost use Rattle.std.specs.Prelude.{◌≡◌, ◌<◌, ◌≤◌, length, All};
ghost use Rattle.aim_messages.specs.declared.entries.TheConstants.{LATEST_MOMENT};
ghost use Rattle.aim_driver.specs.Models.{step_of};
ghost use Rattle.aim_turnstile.specs.Models.{IsPassOf};
ghost use Rattle.aim_agents.specs.Agents.{IsAgentOf};
ghost use Rattle.aim_agents.specs.Runs.{AllIdle, Ran, RunsWent};
ghost use Rattle.aim_agents.specs.Rounds.{Rounds, Stepped, run_size};

use crate::runs::{gather, meet_all, run_turns};
use crate::{Agent, Gate, Manager, ManagerPass};
use std::sync::Wait;
use std::thread;
use std::thread::Threads;

// The step that it gives is the first one, from `step` on, at which one of them may have something to do.
fn wakes_at(agents: &[Agent], step: u32) -> u64
    ensures { AllIdle step result agents.now }
{
    let mut least = u64::MAX;
    for agent in agents {
        least = least.min(agent.idle_until(step));
    }
    least
}

// Whether the runs are worth a thread each at the step: agents of two runs or more have something to do, and no fewer
// agents than there are runs. To start a thread takes longer than a turn.
fn are_worth_threads(agents: &[Agent], step: u32, size: usize) -> bool
    requires size { 0 < size }
{
    let runs = agents.len().div_ceil(size);
    let mut first = None;
    let mut busy = 0;
    for place in 0..agents.len() {
        if agents[place].idle_until(step) <= step as u64 {
            let run = place / size;
            busy += 1;
            if *first.get_or_insert(run) != run && runs <= busy {
                return true;
            }
        }
    }
    false
}

// The turns of all agents of one step. The runs go side by side where they are worth a thread each; otherwise the agents
// take their turns one after another, which keeps the order within each run too.
fn turns<R: Threads + Wait + Sync, G: Gate>(
    rt: &R,
    manager: &Manager,
    agents: &mut [Agent],
    gate: &G,
    step: u32,
    size: usize,
)
    requires size { 0 < size }
    requires agents { All (IsAgentOf manager.now) agents.old }
    requires last { All (λ a. step_of a.driver.log ≤ step) agents.old }
    requires most { step ≤ LATEST_MOMENT }
    ensures { RunsWent manager.now.setting step size agents.old agents.new }
{
    if !are_worth_threads(agents, step, size) {
        run_turns(rt, manager, gate, step, agents);
        return;
    }
    thread::for_each_chunk_mut(
        rt,
        agents,
        size,
        &|_start: usize, run: &mut [Agent]|
            requires { All (IsAgentOf manager.now) run.now × All (λ a. step_of a.driver.log ≤ step) run.now × (step ≤ LATEST_MOMENT) }
            ensures { Ran manager.entry.now.setting step run.entry.now run.exit.now }
        { run_turns(rt, manager, gate, step, run) },
    );
}

// One step: the turns, and then the meetings.
fn one_step<R: Threads + Wait + Sync, G: Gate>(
    rt: &R,
    manager: &Manager,
    operator: &mut ManagerPass,
    agents: &mut [Agent],
    gate: &G,
    step: u32,
    size: usize,
)
    requires size { 0 < size }
    requires operator { IsPassOf manager.now operator.old }
    requires agents { All (IsAgentOf manager.now) agents.old }
    requires last { All (λ a. step_of a.driver.log ≤ step) agents.old }
    requires most { step ≤ LATEST_MOMENT }
    ensures { Stepped manager.now.setting step size operator.old operator.new agents.old agents.new }
{
    turns(rt, manager, agents, gate, step, size);
    gather(manager, operator, agents);
    meet_all(manager, operator, agents);
}

/// Lets the agents take their turns of the steps from `from` on and below `to`. In each step they are cut into runs of
/// so many neighbours that there are at most `workers` runs. Where agents of two runs or more have something to do, and
/// no fewer agents than there are runs, the runs go side by side, on threads of their own where threads can be had, and
/// are joined before the next step; in a run each agent's turn stands behind that of the one before. Between two steps
/// all that any of them has seen is seen by all, and by the operator's pass. A step in which no agent has anything to do
/// is passed over.
pub fn rounds<R: Threads + Wait + Sync, G: Gate>(
    rt: &R,
    manager: &Manager,
    operator: &mut ManagerPass,
    agents: &mut [Agent],
    gate: &G,
    from: u32,
    to: u32,
    workers: u32,
)
    requires steps { from ≤ to }
    requires most { to ≤ 65536 }
    requires workers { (0 < workers) × (workers ≤ 64) }
    requires operator { IsPassOf manager.now operator.old }
    requires agents { All (IsAgentOf manager.now) agents.old }
    requires last { All (λ a. step_of a.driver.log ≤ from) agents.old }
    ensures { Rounds manager.now.setting from to (run_size (length agents.old) workers) operator.old operator.new
        agents.old agents.new }
{
    if from == to {
        return;
    }
    if agents.is_empty() {
        return;
    }
    let size = agents.len().div_ceil(workers as usize);
    meet_all(manager, operator, agents);
    let mut wake = 0u64;
    for step in from..to {
        if (step as u64) < wake {
            continue;
        }
        one_step(rt, manager, operator, agents, gate, step, size);
        wake = wakes_at(agents, step + 1);
    }
}
