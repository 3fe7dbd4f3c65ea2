//! Lines of any length.

ghost use Rattle.std.specs.Prelude.{◌≡◌, ◌⊎◌, ◌≤◌, ℕ, List, [], ◌∷◌, ◌++◌, take, Err};
ghost use Rattle.std.specs.Io.KnownBytes.{prepend_known};
ghost use Rattle.aim_io.specs.Causes.{Rose};
ghost use Rattle.aim_io.specs.Lines.{HasNoEnd};
ghost use Rattle.aim_session_command.specs.Reading.{GivesLine, NeedsRead};

use crate::ahead::Ahead;
use aim_io::Source;
use arrayvec::ArrayVec;

// So many of the first bytes of a line are kept: one more than a line of a script has.
const KEPT: usize = 401;

/// The first bytes of a line: of a longer one than scripts have so many that it is told from them.
pub(crate) type Kept = ArrayVec<u8, KEPT>;

/// What a call that asks for the next line gives.
pub(crate) enum Given {
    /// A line and its byte 10.
    Line,
    /// A line behind which the input ended.
    Last,
    /// The input ended before.
    Nothing,
}

/// Why no line is given.
pub(crate) enum Trouble {
    /// The source has failed.
    Read,
    /// 4,294,967,295 bytes of the line are there, and it may have more.
    Huge,
}

// Keeps a further byte of a line where it is one of the first.
fn keep(line: &mut Kept, byte: u8)
    ensures { (all : List ℕ) → line.old.items ≡ take 401 all → line.new.items ≡ take 401 (all ++ byte ∷ []) }
{
    if line.len() < KEPT {
        line.push(byte);
    }
}

/// Takes the next line, and keeps its first bytes. It reads only where no end of the line is held, and nothing once it has
/// seen the end of the input.
pub(crate) fn next_line<S: Source>(
    ahead: &mut Ahead,
    source: &mut S,
    line: &mut Kept,
) -> Result<Given, Trouble>
    ensures gives { GivesLine result (prepend_known ahead.old (S.left source.old)) (prepend_known ahead.new (S.left source.new)) line.new.items }
    ensures read { result ≡ Err Trouble.Read → HasNoEnd ahead.old × (ahead.new ≡ []) × Rose (S.faults source.old) (S.faults source.new) }
    ensures needed { (source.new ≡ source.old) ⊎ NeedsRead (prepend_known ahead.old (S.left source.old)) (S.left source.new) (S.last_read source.new) }
    ensures later { S.faults source.old ≤ S.faults source.new }
{
    line.clear();
    for count in 0..u32::MAX {
        match ahead.next(source) {
            Err(_) => return Err(Trouble::Read),
            Ok(None) if count == 0 => return Ok(Given::Nothing),
            Ok(None) => return Ok(Given::Last),
            Ok(Some(b'\n')) => return Ok(Given::Line),
            Ok(Some(byte)) => keep(line, byte),
        }
    }
    Err(Trouble::Huge)
}
