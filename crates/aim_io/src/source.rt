// Where bytes come from.
ghost use Rattle.std.specs.Prelude.{List, ℕ, None};
ghost use Rattle.std.specs.declared.option.Option.{Option};
ghost use Rattle.std.specs.Io.{ReadsAtMost};
ghost use Rattle.std.specs.Io.KnownBytes.{ReadConsumes};
ghost use Rattle.aim_io.specs.Causes.{HasCause};
ghost use Rattle.aim_io.specs.Pieces.{TellsLast};

/// A read or a write has failed: the count of faults of the source or sink rose in that call, or
/// stands at its last value, 18,446,744,073,709,551,615.
#[derive(Clone, Copy, PartialEq, Eq)]
pub struct Failed;

/// Where bytes come from. A source may tell which bytes it has left, and counts its faults.
pub trait Source {
    /// The bytes that are left, in order, or `None` where the source doesn't tell them.
    ghost left: { Self → Option (List ℕ) };

    /// How often the source has failed. It never falls.
    ghost faults: { Self → ℕ };

    /// How many bytes the last read gave, and 0 where it failed, or `None` where the source doesn't tell it.
    ghost last_read: { Self → Option ℕ } = { λ _. None };

    /// Takes the first of the bytes that are left into the front of `buf`, and says how many: at
    /// most its length, and none into a buffer with room only where none is left. A call that
    /// fails takes none.
    fn read(&mut self, buf: &mut [u8]) -> Result<usize, Failed>
        ensures bound { ReadsAtMost result buf.new }
        ensures bytes { ReadConsumes (left self.old) (left self.new) result buf.new }
        ensures cause { HasCause (faults self.old) (faults self.new) result }
        ensures last { TellsLast (last_read self.new) result };
}
