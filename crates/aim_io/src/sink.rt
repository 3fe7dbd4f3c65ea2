// Where bytes go.
ghost use Rattle.std.specs.Prelude.{◌≡◌, ◌<◌, List, ℕ, [], length, IfOk, OnOk};
ghost use Rattle.std.specs.declared.option.Option.{Option};
ghost use Rattle.std.specs.Io.{WritesAtMost};
ghost use Rattle.std.specs.Io.KnownBytes.{Keeps, WriteAppends};
ghost use Rattle.aim_io.specs.Causes.{HasCause};

use crate::Failed;

/// Where bytes go. A sink may tell which bytes it holds, may keep some of them back until it is settled, and counts its
/// faults.
pub trait Sink {
    /// The bytes that the sink holds, in order, those that it keeps back included, or `None` where it doesn't tell them.
    ghost held: { Self → Option (List ℕ) };

    /// The last of these bytes, which the sink hasn't handed on yet.
    ghost kept_back: { Self → List ℕ };

    /// How often the sink has failed. It never falls.
    ghost faults: { Self → ℕ };

    /// Adds the first bytes of `piece`, and says how many: at least one of a piece that isn't
    /// empty, and at most its length. A call that fails adds none.
    fn write(&mut self, piece: &[u8]) -> Result<usize, Failed>
        ensures bound { WritesAtMost result piece.now }
        ensures some { IfOk result (λ n. 0 < length piece.now → 0 < n) }
        ensures bytes { WriteAppends (held self.old) (held self.new) result piece.now }
        ensures cause { HasCause (faults self.old) (faults self.new) result };

    /// Hands on what is kept back. After a call that fails, the sink holds the same bytes as before, of which it may have
    /// handed on some.
    fn settle(&mut self) -> Result<(), Failed>
        ensures bytes { Keeps (held self.old) (held self.new) }
        ensures settled { OnOk result (kept_back self.new ≡ []) }
        ensures cause { HasCause (faults self.old) (faults self.new) result };
}
