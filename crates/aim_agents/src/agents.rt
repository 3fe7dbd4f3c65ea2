//! Agents.

ghost use Rattle.std.specs.Prelude.{◌≡◌, ℕ, ◌+◌, ◌-◌, ◌<◌, ◌≤◌, [], true, Some, IfNone, OnOk};
ghost use Rattle.aim_messages.specs.declared.entries.TheConstants.{LATEST_MOMENT};
ghost use Rattle.aim_messages.specs.declared.entries.Act.TheVariants as act;
ghost use Rattle.aim_driver.specs.Models.{step_of};
ghost use Rattle.aim_driver.specs.Keeps.{keeps};
ghost use Rattle.aim_driver.specs.Links.{delivered, after_delivery};
ghost use Rattle.aim_driver.specs.Turns.{begun};
ghost use Rattle.aim_driver.specs.Follows.{calling, turn};
ghost use Rattle.aim_turnstile.specs.Models.{IsPassOf, IsSamePass};
ghost use Rattle.aim_manager.specs.Requests.{IsPreparedFor};
ghost use Rattle.aim_manager.specs.Seen.{IsServed};
ghost use Rattle.aim_agents.specs.Rests.{AreStill};
ghost use Rattle.aim_agents.specs.Agents.{front_of, state_of, HasSheets, Idles, IsAgentOf, IsFull, IsWhole};
ghost use Rattle.aim_agents.specs.Went.{new_agent, Went, Met};
ghost use Rattle.aim_agents.specs.Followed.{IsNew};
ghost use Rattle.aim_agents.specs.Turns.{Called, Tried};

use aim_driver::{Driver, Link, LogItem, NoMemory, begin_turn};
use aim_manager::{
    Full, Manager, ManagerFront, ManagerPass, Memo, Prepared, prepare_from,
    sheets_are_those_of_own_entries,
};
use aim_messages::{LATEST_MOMENT, Message, Reply};
use aim_sheets::Pool;
use std::marker::Model;
use std::mem;
use std::sync::Wait;

/// What is called before each call of a vehicle, at the step of its turn. It says nothing of what it does.
pub trait Gate: Sync {
    fn before(&self, vehicle: u32, step: u32);
}

/// Why an agent does nothing more.
#[derive(Clone, Copy, PartialEq, Eq)]
pub enum Trouble {
    /// There was no memory for an item of its log or of a link.
    NoMemory,
    /// The journal has as many entries as there is room for.
    Full,
}

impl From<NoMemory> for Trouble {
    ghost use Rattle.std.specs.Prelude.{◌≡◌};
    ghost use Rattle.aim_agents.specs.declared.agents.Trouble.TheVariants as trouble;

    ghost from_gives = { λ _ t. t ≡ trouble.NoMemory };

    fn from(_fault: NoMemory) -> Trouble {
        Trouble::NoMemory
    }
}

impl From<Full> for Trouble {
    ghost use Rattle.std.specs.Prelude.{◌≡◌};
    ghost use Rattle.aim_agents.specs.declared.agents.Trouble.TheVariants as trouble;

    ghost from_gives = { λ _ t. t ≡ trouble.Full };

    fn from(_fault: Full) -> Trouble {
        Trouble::Full
    }
}

// The steps at which an agent is known to do nothing: from `first` on and below `last`.
#[derive(Clone, Copy)]
struct Rest {
    first: u32,
    last: u64,
}

// No step.
const NO_REST: Rest = Rest { first: 0, last: 0 };

// Prepares the message for the manager, with the memo if there is one.
fn prepared(
    manager: &Manager,
    memo: &mut Option<Memo>,
    message: &Message,
    pool: &mut Pool,
) -> Prepared
    requires two { 2 ≤ pool.old.count }
    requires room { pool.old.room ≡ manager.now.setting.layout.grid.spans }
    ensures message { result.message ≡ message.now }
    ensures prepared { IsPreparedFor manager.now.setting.layout result }
    ensures pool { pool.new ≡ record pool.old { count = pool.old.count - 2 } }
{
    match memo {
        Some(memo) => memo.prepare_from(manager.layout(), message, pool),
        None => prepare_from(manager.layout(), message, pool),
    }
}

// The gate is told, and the manager serves the message with an agent's pass and sheets.
fn ask<R: Wait, G: Gate>(
    rt: &R,
    manager: &Manager,
    gate: &G,
    pass: &mut ManagerPass,
    memo: &mut Option<Memo>,
    pool: &mut Pool,
    step: u32,
    message: &Message,
) -> Result<Reply, Full>
    requires own { IsPassOf manager.now pass.old }
    requires vehicle { pass.old.number < manager.now.setting.vehicles }
    requires most { step ≤ LATEST_MOMENT }
    requires sheets { HasSheets pass.old pool.old }
    requires fit { pool.old.room ≡ manager.now.setting.layout.grid.spans }
    ensures same { IsSamePass pass.old pass.new }
    ensures served { IsServed manager.now.setting step (act.Message message.now) result pass.old pass.new }
    ensures kept { HasSheets pass.new pool.new }
    ensures room { pool.new.room ≡ pool.old.room }
{
    gate.before(pass.number(), step);
    let prepared = prepared(manager, memo, message, pool);
    manager.serve(rt, pass, step, prepared, pool)
}

/// A driver with its two links, a pass of a manager and three sheets; and a memo of its last crossing, if it was given one.
///
/// Contracts see the driver, the links, the pass, how many sheets are not in use and their room, and the trouble.
#[derive(Drop)]
pub struct Agent {
    driver: Driver,
    up: Link<Message>,
    down: Link<(u32, Reply)>,
    pass: ManagerPass,
    pool: Pool,
    memo: Option<Memo>,
    trouble: Option<Trouble>,
    rest: Rest,
}

impl Model for Agent {
    ghost use Rattle.aim_agents.specs.Agents.{AgentModel, Stands};

    ghost Value = { AgentModel };

    ghost view = { λ a. record { driver = a.driver; up = a.up; down = a.down; pass = a.pass; pool = a.pool; trouble = a.trouble } };

    ghost invariant = { λ a. Stands a.driver a.up a.down a.pass a.pool a.trouble a.rest.first a.rest.last };
}

impl Agent {
    /// An agent that has done nothing. A message reaches the manager in the step in which it goes up, and its reply is
    /// heard in the next one, where the links' fates let them.
    pub fn new(
        driver: Driver,
        up: Link<Message>,
        down: Link<(u32, Reply)>,
        pass: ManagerPass,
        pool: Pool,
    ) -> Agent
        requires driver { driver.log ≡ [] }
        requires up { (up.lag ≡ 0) × (up.sent ≡ []) }
        requires down { (down.lag ≡ 1) × (down.sent ≡ []) }
        requires pass { pass.mine ≡ [] }
        requires pool { pool.count ≡ 3 }
        ensures agent { result ≡ new_agent driver up down pass pool }
        ensures new { IsNew result }
    {
        pass.has_own_entries();
        sheets_are_those_of_own_entries();
        Agent {
            driver,
            up,
            down,
            pass,
            pool,
            memo: None,
            trouble: None,
            rest: NO_REST,
        }
    }

    /// Gives it a memo, with which the cells of a crossing that it asks for again are not found again.
    pub fn give_memo(&mut self, memo: Memo)
        ensures { self.new ≡ self.old }
    {
        self.memo = Some(memo);
    }

    /// Takes over the memo of another one, which gets its own.
    pub fn swap_memo(&mut self, other: &mut Agent)
        ensures same { self.new ≡ self.old }
        ensures other { other.new ≡ other.old }
    {
        mem::swap(&mut self.memo, &mut other.memo);
    }

    /// Why it does nothing more, if it doesn't.
    pub fn trouble(&self) -> Option<Trouble>
        ensures trouble { result ≡ self.now.trouble }
        ensures full { result ≡ Some Trouble.Full → IsFull self.now.pass }
    {
        self.trouble
    }

    /// What its driver did and was told, in order. It keeps the rules.
    pub fn log(&self) -> &[LogItem]
        ensures items { result.now ≡ self.now.driver.log }
        ensures rules { keeps self.now.driver.log ≡ true }
    {
        self.driver.log()
    }

    /// How many of its three sheets are not in use: all, or one less where one is kept for its vehicle.
    pub fn sheets(&self) -> u32
        ensures count { result ≡ self.now.pool.count }
        ensures kept { HasSheets self.now.pass self.now.pool }
    {
        self.pool.count()
    }

    /// Its driver and its pass.
    pub fn into_parts(self) -> (Driver, ManagerPass)
        ensures driver { result.0 ≡ self.driver }
        ensures pass { result.1 ≡ self.pass }
    {
        let Agent {
            driver,
            up: _,
            down: _,
            pass,
            pool: _,
            memo: _,
            trouble: _,
            rest: _,
        } = self;
        (driver, pass)
    }

    /// A note of what its pass has seen.
    pub fn front(&mut self, manager: &Manager) -> ManagerFront
        requires own { IsPassOf manager.now self.old.pass }
        ensures same { self.new ≡ self.old }
        ensures front { result ≡ front_of self.old.pass }
    {
        manager.front(&mut self.pass)
    }

    /// Lets its pass see what the front shows, so that its next call stands behind all of it.
    pub fn meet(&mut self, manager: &Manager, front: ManagerFront)
        requires own { IsPassOf manager.now self.old.pass }
        requires front { front.table ≡ manager.now.table }
        ensures { Met manager.now.setting self.old front self.new }
    {
        manager.meet(&mut self.pass, front);
    }

    // It hears, enters if it does, and acts.
    fn begin(&mut self, step: u32) -> Result<(), NoMemory>
        requires step { step_of self.old.driver.log ≤ step }
        requires most { step ≤ LATEST_MOMENT }
        ensures rest { self.new ≡ record self.old { driver = self.new.driver; up = self.new.up; down = self.new.down } }
        ensures plan { self.new.driver.plan ≡ self.old.driver.plan }
        ensures last { step_of self.new.driver.log ≤ step }
        ensures whole { IsWhole self.old.pass }
        ensures begun { OnOk result (state_of self.new ≡ begun self.old.driver.plan step (state_of self.old)) }
    {
        self.rest = NO_REST;
        begin_turn(&mut self.driver, &mut self.up, &mut self.down, step)
    }

    // The message that comes on the up link.
    fn next_message(&mut self, step: u32) -> Option<Message>
        ensures message { result ≡ delivered self.old.up step }
        ensures rest { self.new ≡ record self.old { up = after_delivery self.old.up step } }
        ensures none { IfNone result (self.new ≡ self.old) }
    {
        self.rest = NO_REST;
        self.up.deliver(step)
    }

    // A call of the message; the reply goes down.
    fn call<R: Wait, G: Gate>(
        &mut self,
        rt: &R,
        manager: &Manager,
        gate: &G,
        step: u32,
        message: &Message,
    ) -> Result<(), Trouble>
        requires own { IsAgentOf manager.now self.old }
        requires calm { self.old.trouble ≡ None }
        requires most { step ≤ LATEST_MOMENT }
        ensures { Called manager.now.setting step message.now result self.old self.new }
    {
        self.rest = NO_REST;
        let reply = ask(
            rt,
            manager,
            gate,
            &mut self.pass,
            &mut self.memo,
            &mut self.pool,
            step,
            message,
        )?;
        self.down.send(step, (message.seq, reply))?;
        Ok(())
    }

    // A call of each message that comes on the up link.
    fn make_calls<R: Wait, G: Gate>(
        &mut self,
        rt: &R,
        manager: &Manager,
        gate: &G,
        step: u32,
    ) -> Result<(), Trouble>
        requires own { IsAgentOf manager.now self.old }
        requires calm { self.old.trouble ≡ None }
        requires whole { IsWhole self.old.pass }
        requires last { step_of self.old.driver.log ≤ step }
        requires most { step ≤ LATEST_MOMENT }
        ensures { Tried manager.now.setting (calling step) step result self.old self.new }
    {
        while let Some(message) = self.next_message(step) {
            self.call(rt, manager, gate, step, &message)?;
        }
        Ok(())
    }

    // A turn of an agent without trouble.
    fn try_turn<R: Wait, G: Gate>(
        &mut self,
        rt: &R,
        manager: &Manager,
        gate: &G,
        step: u32,
    ) -> Result<(), Trouble>
        requires own { IsAgentOf manager.now self.old }
        requires calm { self.old.trouble ≡ None }
        requires last { step_of self.old.driver.log ≤ step }
        requires most { step ≤ LATEST_MOMENT }
        ensures { Tried manager.now.setting (turn self.old.driver.plan step) step result self.old self.new }
    {
        self.begin(step)?;
        self.make_calls(rt, manager, gate, step)
    }

    // A turn, whatever is known of the steps at which it does nothing.
    fn take_turn<R: Wait, G: Gate>(&mut self, rt: &R, manager: &Manager, gate: &G, step: u32)
        requires own { IsAgentOf manager.now self.old }
        requires last { step_of self.old.driver.log ≤ step }
        requires most { step ≤ LATEST_MOMENT }
        ensures { Went manager.now.setting step (step + 1) self.old self.new }
    {
        if self.trouble.is_some() {
            return;
        }
        if let Err(trouble) = self.try_turn(rt, manager, gate, step) {
            self.trouble = Some(trouble);
        }
    }

    // It is still from that step on and below the one that it gives.
    fn still_until(&self, from: u32) -> u64
        requires most { from ≤ LATEST_MOMENT }
        ensures { AreStill self.now.driver self.now.up self.now.down from result }
    {
        let until = self.driver.idle_until(from);
        until.min(self.up.idle_until()).min(self.down.idle_until())
    }

    // Takes note of how long it is still.
    fn note_rest(&mut self, from: u32)
        requires most { from ≤ LATEST_MOMENT }
        ensures { self.new ≡ self.old }
    {
        self.rest = Rest {
            first: from,
            last: self.still_until(from),
        };
    }

    /// From that step on and below the one that it gives its turns do nothing.
    pub fn idle_until(&self, step: u32) -> u64
        ensures { (s : ℕ) → step ≤ s → s < result → Idles self.now s }
    {
        if self.trouble.is_some() {
            return u64::MAX;
        }
        if self.rest.first <= step {
            self.rest.last
        } else {
            0
        }
    }

    /// One turn: it hears the replies that come, enters if its driver does, acts, and makes a call of each message that
    /// comes on the up link. Before each call it tells the gate. In trouble it does nothing.
    pub fn turn<R: Wait, G: Gate>(&mut self, rt: &R, manager: &Manager, gate: &G, step: u32)
        requires own { IsAgentOf manager.now self.old }
        requires last { step_of self.old.driver.log ≤ step }
        requires most { step ≤ LATEST_MOMENT }
        ensures { Went manager.now.setting step (step + 1) self.old self.new }
    {
        if (step as u64) < self.idle_until(step) {
            return;
        }
        self.take_turn(rt, manager, gate, step);
        if step < LATEST_MOMENT {
            self.note_rest(step + 1);
        }
    }
}
