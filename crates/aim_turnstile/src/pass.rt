//! What a caller carries.
ghost use Rattle.std.specs.Prelude.{◌≡◌};
ghost use Rattle.aim_turnstile.specs.History.{entries_of};

use crate::kept::Kept;
use crate::rule::Chair;
use std::marker::Model;

/// The right to the calls of one number, with the history that it has seen.
///
/// Contracts see its turnstile, that one's setting, its number, what it has `seen`, and `mine`, the number's entries
/// there. At run time it is the number alone.
#[derive(Drop)]
pub struct Pass<K: Kept> {
    pub(crate) number: u32,
    pub(crate) seat: Chair<K>,
}

impl<K: Kept> Model for Pass<K> {
    ghost use Rattle.aim_turnstile.specs.Models.{PassModel};
    ghost use Rattle.aim_turnstile.specs.Turned.{Sits};

    ghost Value = { PassModel K.Setting K.Entry };

    ghost view = { λ p. record { table = p.seat.table_id; setting = p.seat.me.0.setting; number = p.number; seen = p.seat.me.0.seen; mine = p.seat.me.0.mine } };

    ghost invariant = { λ p. Sits K.caller_of p.number p.seat.me };
}

impl<K: Kept> Pass<K> {
    /// The pass's number.
    pub fn number(&self) -> u32
        ensures { result ≡ self.now.number }
    {
        self.number
    }

    /// What the pass has of its own entries is all entries of its number that it has seen. This is a law: the call does
    /// nothing.
    pub fn has_own_entries(&self)
        ensures { entries_of K.caller_of self.now.number self.now.seen ≡ self.now.mine }
    {
        let _ = &self.seat;
    }
}

/// A note of the history that a pass had seen. It has no bytes.
#[derive(Drop)]
pub struct Front<K: Kept> {
    pub(crate) seat: Chair<K>,
}

impl<K: Kept> Model for Front<K> {
    ghost use Rattle.aim_turnstile.specs.Models.{FrontModel};
    ghost use Rattle.aim_turnstile.specs.Turned.{Shows};

    ghost Value = { FrontModel K.Setting K.Entry };

    ghost view = { λ f. record { table = f.seat.table_id; setting = f.seat.me.0.setting; seen = f.seat.me.0.seen } };

    ghost invariant = { λ f. Shows f.seat.me };
}
