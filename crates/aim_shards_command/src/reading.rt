//! Reads a whole script.

ghost use Rattle.std.specs.Prelude.{◌≡◌, ◌<◌, ◌≤◌, ◌⊎◌, Err, None, length, IfOk};
ghost use Rattle.std.specs.Io.KnownBytes.{IsAtEnd};
ghost use Rattle.aim_io.specs.Causes.{Rose};
ghost use Rattle.aim_script_reading.specs.Short.{TakesAtMost};
ghost use Rattle.aim_shards_command.specs.Short.{LastNeeded, StopsShort};
ghost use Rattle.aim_shards_command.specs.Verdicts.{Comes};

use crate::decisions::{ClaimKind, ClaimLimit};
use crate::script::Script;
use aim_io::Source;
use aim_script_reading::{Refused, Stop, read_script};
use std::alloc::{AllocError, Global};

/// The lines of a script before the one that decides, and why the script isn't whole, if it isn't.
#[derive(Drop)]
pub struct ScriptRead {
    pub script: Script,
    pub refused: Option<Refused<ClaimKind, ClaimLimit>>,
}

/// Reads a script to the line that decides, or to the end of the input. Nothing is read behind a line that decides.
pub fn read_claims<S: Source>(alloc: Global, source: &mut S) -> Result<ScriptRead, Stop<AllocError>>
    ensures verdict { IfOk result (λ r. Comes r.script r.refused (S.left source.old)) }
    ensures some { IfOk result (λ r. r.refused ≡ None → 0 < length r.script) }
    ensures ended { IfOk result (λ r. r.refused ≡ None → IsAtEnd (S.left source.new)) }
    ensures short { result ≡ Err Stop.Read → StopsShort (S.left source.old) (S.left source.new) }
    ensures read { result ≡ Err Stop.Read → Rose (S.faults source.old) (S.faults source.new) }
    ensures source { S.faults source.old ≤ S.faults source.new }
    ensures needed { (source.new ≡ source.old) ⊎ LastNeeded (S.left source.old) (S.left source.new) (S.last_read source.new) }
    ensures most { TakesAtMost 67108865 (S.left source.old) (S.left source.new) }
{
    let mut script = Script::new(alloc);
    let refused = read_script(alloc, source, &mut script)?;
    Ok(ScriptRead { script, refused })
}
