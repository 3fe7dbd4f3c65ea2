//! What a caller carries.

ghost use Rattle.std.specs.Prelude.{◌≡◌};

use crate::claims::ClaimEntry;
use crate::rule::Chair;
use std::marker::Model;

/// The right to the calls of one caller.
///
/// Contracts see its table, its number, how many calls it may make, its shards' sets cut along the quadrants' borders, and
/// `mine`, the caller's entries.
#[derive(Drop)]
pub struct ShardPass {
    pub(crate) number: u32,
    pub(crate) calls: u32,
    pub(crate) made: u32,
    pub(crate) standing: Vec<ClaimEntry>,
    pub(crate) seat: Chair,
}

impl Model for ShardPass {
    ghost use Rattle.std.specs.Prelude.{vec_capacity};
    ghost use Rattle.aim_shards.specs.Models.{PassModel};
    ghost use Rattle.aim_shards.specs.Passes.{Keeps};

    ghost Value = { PassModel };

    ghost view = { λ p. record { table = p.seat.table_id; number = p.number; calls = p.calls; quarters = p.seat.me.0.terms.sets; mine = p.seat.me.0.mine } };

    ghost invariant = { λ p. Keeps p.number p.calls p.made p.standing.items (vec_capacity p.standing) p.seat.me };
}

impl ShardPass {
    /// The caller's number.
    pub fn number(&self) -> u32
        ensures { result ≡ self.now.number }
    {
        self.number
    }
}
