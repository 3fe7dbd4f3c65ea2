//! Reads a drive script.

ghost use Rattle.std.specs.Prelude.{◌≡◌, ◌≤◌, ◌⊎◌, Err, IfOk};
ghost use Rattle.std.specs.Io.KnownBytes.{IsAtEnd};
ghost use Rattle.aim_io.specs.Causes.{Rose};
ghost use Rattle.aim_drive_script.specs.Drafts.{ending_of};
ghost use Rattle.aim_drive_script.specs.Fits.{IsFit};
ghost use Rattle.aim_drive_script.specs.Scripts.{Reads, TakesAtMost};
ghost use Rattle.aim_drive_script.specs.Short.{LastNeeded, StopsShort};

use crate::drafts::Draft;
use crate::scripts::{DriveScript, Ending};
use aim_io::Source;
use aim_script::{Kind, Limit, kind_told, limit_told};
use aim_script_reading::{Refused, Stop, read_script};
use std::alloc::Global;

// What comes of a line or a limit that decides.
fn ending_of(refused: Refused<Kind, Limit>) -> Ending
    ensures { result ≡ ending_of refused }
{
    match refused {
        Refused::Bad(number, why) => Ending::Bad(number, kind_told(why)),
        Refused::Limit(bound) => Ending::Limit(limit_told(bound)),
    }
}

/// Reads a drive script to its end, or to the line that decides. Nothing is read behind a line that decides.
pub fn read_drive<S: Source>(alloc: Global, source: &mut S) -> Result<DriveScript, Ending>
    // The script exactly where the bytes are a whole one, and else what decides them.
    ensures reads { Reads (S.left source.old) result }
    ensures fits { IfOk result IsFit }
    ensures ended { IfOk result (λ _. IsAtEnd (S.left source.new)) }

    // A failing source, before a line decides.
    ensures short { result ≡ Err Ending.Read → StopsShort (S.left source.old) (S.left source.new) }
    ensures read { result ≡ Err Ending.Read → Rose (S.faults source.old) (S.faults source.new) }
    ensures source { S.faults source.old ≤ S.faults source.new }

    // No more than one byte past the greatest input is taken, and nothing is read behind bytes that decide.
    ensures most { TakesAtMost 67108865 (S.left source.old) (S.left source.new) }
    ensures needed { (source.new ≡ source.old) ⊎ LastNeeded (S.left source.old) (S.left source.new) (S.last_read source.new) }
{
    let mut draft = Draft::new(alloc);
    match read_script(alloc, source, &mut draft) {
        Ok(None) => draft.script(alloc),
        Ok(Some(refused)) => Err(ending_of(refused)),
        Err(Stop::Read) => Err(Ending::Read),
        Err(Stop::Halt(_)) => Err(Ending::NoMemory),
    }
}
