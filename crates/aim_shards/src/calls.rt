//! The calls.

ghost use Rattle.std.specs.Prelude.{◌≡◌, ◌≢◌, ◌<◌, ◌≤◌, ℕ, List, [], ◌∷◌, ◌++◌, length, map, All, AllPairs, IfOk, MatchResult};
ghost use Rattle.aim_tiles.specs.Sheets.{AreAhead, AreTiles};
ghost use Rattle.aim_shards.specs.declared.claims.ClaimAct.TheVariants.{Claim, Free};
ghost use Rattle.aim_shards.specs.declared.claims.ClaimEntry.{ClaimEntry};
ghost use Rattle.aim_shards.specs.Models.{IsFull, IsPassOf, IsSamePass, Makes};

use crate::claims::ClaimAct;
use crate::doors::Doors;
use crate::pass::ShardPass;
use crate::quarter::QuadrantPlan;
use crate::rule::QuadrantTable;
use crate::sets::{Quartered, choose};
use crate::standing::{look_up, stand};
use crate::turns::{make, take_turns};
use std::marker::Model;
use std::sync::Wait;

/// The ticket of a call, and its answer.
#[derive(Clone, Copy)]
pub struct Claimed {
    pub ticket: u32,
    pub yes: bool,
}

/// The caller has made all its calls.
#[derive(Clone, Copy)]
pub struct NoCallLeft;

/// What is called while the turns are held.
pub trait Hold: Sync {
    fn holding(&self, caller: u32, call: u32);
}

/// Four quadrants of a grid, each with a turn and a history of its own.
#[derive(Drop)]
pub struct Shards {
    pub(crate) desk: QuadrantTable,
    pub(crate) doors: Doors,
    pub(crate) quarters: Vec<Quartered>,
    pub(crate) nothing: Quartered,
}

impl Model for Shards {
    ghost use Rattle.std.specs.Prelude.{◌≡◌, []};
    ghost use Rattle.aim_shards.specs.Cuts.{AreCut, half_of};
    ghost use Rattle.aim_shards.specs.Models.{ShardsModel};
    ghost use Rattle.aim_shards.specs.Sets.{SameParts};

    ghost Value = { ShardsModel };

    ghost view = { λ s. record { table = s.desk.shared.table_id; size = s.desk.shared.key.size; sets = s.desk.shared.key.sheets.value.items; quarters = s.quarters.items; numbers = s.desk.shared.key.numbers.value.items; calls = s.desk.shared.key.calls } };

    ghost invariant = { λ s. (s.desk.shared.table_id.words ≡ 9) × (s.desk.shared.table_id.slots ≡ 4) × (s.desk.shared.key.sets.value.items ≡ s.quarters.items) × SameParts s.nothing [] × AreCut (half_of s.desk.shared.key.size) s.desk.shared.key.sheets.value.items s.quarters.items };
}

impl Shards {
    /// Claims the cells of the set, and answers whether all were free.
    ///
    /// It takes the turns of the quadrants in which the set has a cell, or of the first one if it has none, in rising order.
    /// It calls `hold` while it has them, draws its ticket, enters its answer in those quadrants' histories, and gives the
    /// turns back.
    pub fn claim<R: Wait, H: Hold>(
        &self,
        rt: &R,
        pass: &mut ShardPass,
        set: u32,
        hold: &H,
    ) -> Result<Claimed, NoCallLeft>
        requires own { IsPassOf self.now pass.old }
        requires set { set < length self.now.sets }
        ensures same { IsSamePass pass.old pass.new }
        ensures made { MatchResult result (λ r. Makes (Claim set) r.ticket r.yes pass.old pass.new) (λ _. IsFull pass.old pass.new) }
    {
        let number = pass.number;
        if pass.made == pass.calls {
            return Err(NoCallLeft);
        }
        let parts = &self.quarters[set as usize];
        let inside = self.doors.enter(rt, parts);
        let found = take_turns(rt, &self.desk, &mut pass.seat, number, parts);
        hold.holding(number, pass.made);
        let plan = QuadrantPlan {
            act: ClaimAct::Claim(set),
            yes: found.free,
        };
        let entry = make(&self.desk, &mut pass.seat, number, parts, found.last, plan);
        drop(inside);
        stand(&mut pass.standing, entry);
        pass.made += 1;
        Ok(Claimed {
            ticket: entry.ticket,
            yes: found.free,
        })
    }

    /// Frees the cells that the caller claimed with the ticket, and answers whether it was the caller's own claim, answered
    /// yes and not yet freed.
    ///
    /// It does so as a claim of the freed set does, or, where the answer is no, with the turn of the first quadrant.
    pub fn free<R: Wait, H: Hold>(
        &self,
        rt: &R,
        pass: &mut ShardPass,
        ticket: u32,
        hold: &H,
    ) -> Result<Claimed, NoCallLeft>
        requires own { IsPassOf self.now pass.old }
        ensures same { IsSamePass pass.old pass.new }
        ensures made { MatchResult result (λ r. Makes (Free ticket) r.ticket r.yes pass.old pass.new) (λ _. IsFull pass.old pass.new) }
    {
        let number = pass.number;
        if pass.made == pass.calls {
            return Err(NoCallLeft);
        }
        let known = look_up(&pass.standing, ticket);
        let parts = choose(&self.quarters, &self.nothing, known.set);
        let inside = self.doors.enter(rt, parts);
        let found = take_turns(rt, &self.desk, &mut pass.seat, number, parts);
        hold.holding(number, pass.made);
        let plan = QuadrantPlan {
            act: ClaimAct::Free(ticket),
            yes: known.own,
        };
        let entry = make(&self.desk, &mut pass.seat, number, parts, found.last, plan);
        drop(inside);
        stand(&mut pass.standing, entry);
        pass.made += 1;
        Ok(Claimed {
            ticket: entry.ticket,
            yes: known.own,
        })
    }
}
