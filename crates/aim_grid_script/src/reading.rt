//! Reads a script of several crossings.

ghost use Rattle.std.specs.Prelude.{◌≡◌, ◌≤◌, ◌⊎◌, Err, IfOk, List};
ghost use Rattle.std.specs.Io.KnownBytes.{IsAtEnd};
ghost use Rattle.aim_io.specs.Causes.{Rose};
ghost use Rattle.aim_drive_script.specs.Scripts.{TakesAtMost};
ghost use Rattle.aim_grid_script.specs.declared.decisions.GridDecision.TheVariants as decision;
ghost use Rattle.aim_grid_script.specs.declared.lines.GridLine.{GridLine};
ghost use Rattle.aim_grid_script.specs.Fits.{AreRoutesOf, AreWithin};
ghost use Rattle.aim_grid_script.specs.Scripts.{Reads};
ghost use Rattle.aim_grid_script.specs.Short.{LastNeeded, StopsShort};
ghost use Rattle.aim_grid_script.specs.Stages.{Stands};
ghost use Rattle.aim_grid_script.specs.Verdicts.{at_end};

use crate::endings::{GridEnding, ending_of};
use crate::routes::Routes;
use crate::stages::GridStage;
use aim_io::Source;
use aim_script_reading::{Stop, read_script};
use std::alloc::Global;

// The routes of a script that is whole.
fn finished(stage: GridStage) -> Routes
    requires { (before : List GridLine) × Stands before stage × (at_end before ≡ decision.Whole) }
    ensures { (before : List GridLine) → Stands before stage → at_end before ≡ decision.Whole → AreRoutesOf before result × AreWithin result }
{
    match stage.at_end() {
        Some(routes) => routes,
        None => unreachable!(),
    }
}

/// Reads a script of several crossings to its end, or to the line that decides. Nothing is read behind a line that
/// decides.
pub fn read_grid<S: Source>(alloc: Global, source: &mut S) -> Result<Routes, GridEnding>
    // The routes exactly where the bytes are a whole script, and else what decides them.
    ensures reads { Reads (S.left source.old) result }
    ensures fits { IfOk result AreWithin }
    ensures ended { IfOk result (λ _. IsAtEnd (S.left source.new)) }

    // A failing source, before a line decides.
    ensures short { result ≡ Err GridEnding.Read → StopsShort (S.left source.old) (S.left source.new) }
    ensures read { result ≡ Err GridEnding.Read → Rose (S.faults source.old) (S.faults source.new) }
    ensures source { S.faults source.old ≤ S.faults source.new }

    // No more than one byte past the greatest input is taken, and nothing is read behind bytes that decide.
    ensures most { TakesAtMost 67108865 (S.left source.old) (S.left source.new) }
    ensures needed { (source.new ≡ source.old) ⊎ LastNeeded (S.left source.old) (S.left source.new) (S.last_read source.new) }
{
    let mut stage = GridStage::new();
    match read_script(alloc, source, &mut stage) {
        Ok(None) => Ok(finished(stage)),
        Ok(Some(refused)) => Err(ending_of(refused)),
        Err(Stop::Read) => Err(GridEnding::Read),
        Err(Stop::Halt(_)) => Err(GridEnding::NoMemory),
    }
}
