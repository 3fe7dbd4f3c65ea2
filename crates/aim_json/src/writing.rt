//! Texts that are written.

ghost use Rattle.std.specs.Prelude.{◌≡◌, ◌++◌, ◌<◌, ◌≤◌, Some, IfOk, OnOk, OnErr, IsUtf8};
ghost use Rattle.serde_json.specs.Read.{read};
ghost use Rattle.aim_messages.specs.Lines.{KeepsRanges};
ghost use Rattle.aim_json.specs.Lines.{json_of, json_text};
ghost use Rattle.aim_json.specs.Entries.{entry_json, entry_json_text};

use crate::entries::entry_value;
use crate::lines::line_value;
use aim_messages::{Entry, Line, NoMemory};
use std::alloc::Global;

// The text of a line.
#[tactic(auto, using(crate::proofs::Values::line_has_no_float, crate::proofs::Values::line_is_shallow))]
fn line_text(alloc: Global, line: &Line, version: u8) -> Result<Vec<u8>, NoMemory>
    requires { KeepsRanges version line.now }
    ensures text { IfOk result (λ b. b.items ≡ json_text version line.now) }
    ensures utf8 { IfOk result (λ b. IsUtf8 b.items) }
    ensures reads { IfOk result (λ b. read b.items ≡ Some (json_of version line.now)) }
{
    line_value(alloc, version, line)?.to_vec(alloc)
}

// The text of an entry.
#[tactic(auto, using(crate::proofs::Values::entry_has_no_float, crate::proofs::Values::entry_is_shallow))]
fn entry_text(alloc: Global, position: u32, entry: &Entry) -> Result<Vec<u8>, NoMemory>
    ensures text { IfOk result (λ b. b.items ≡ entry_json_text position entry.now) }
    ensures utf8 { IfOk result (λ b. IsUtf8 b.items) }
    ensures reads { IfOk result (λ b. read b.items ≡ Some (entry_json position entry.now)) }
{
    entry_value(alloc, position, entry)?.to_vec(alloc)
}

/// Appends a line of a script of that version as JSON text, without a byte 10. Where memory runs out, nothing is
/// appended.
pub fn write_json_line(
    alloc: Global,
    line: &Line,
    version: u8,
    out: &mut Vec<u8>,
) -> Result<(), NoMemory>
    requires version { (0 < version) × (version ≤ 4) }
    requires ranges { KeepsRanges version line.now }
    ensures ok { OnOk result (out.new.items ≡ out.old.items ++ json_text version line.now) }
    ensures err { OnErr result (out.new.items ≡ out.old.items) }

    // What was appended reads as the line's value.
    ensures utf8 { OnOk result (IsUtf8 (json_text version line.now)) }
    ensures reads { OnOk result (read (json_text version line.now) ≡ Some (json_of version line.now)) }
{
    let text = line_text(alloc, line, version)?;
    out.extend_from_slice(&text)
}

/// Appends an entry at that position of the journal as JSON text, without a byte 10. Where memory runs out, nothing is
/// appended.
pub fn write_json_entry(
    alloc: Global,
    position: u32,
    entry: &Entry,
    out: &mut Vec<u8>,
) -> Result<(), NoMemory>
    ensures ok { OnOk result (out.new.items ≡ out.old.items ++ entry_json_text position entry.now) }
    ensures err { OnErr result (out.new.items ≡ out.old.items) }

    // What was appended reads as the entry's value.
    ensures utf8 { OnOk result (IsUtf8 (entry_json_text position entry.now)) }
    ensures reads { OnOk result (read (entry_json_text position entry.now) ≡ Some (entry_json position entry.now)) }
{
    let text = entry_text(alloc, position, entry)?;
    out.extend_from_slice(&text)
}
