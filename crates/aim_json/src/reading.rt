//! Lines that are read.

ghost use Rattle.std.specs.Prelude.{◌≡◌, ◌⊎◌, ◌<◌, ◌≤◌, Some, None, Ok, Err, IfOk, IsUtf8};
ghost use Rattle.serde_json.specs.Data.{Data, depth};
ghost use Rattle.serde_json.specs.Read.{read, max_depth};
ghost use Rattle.serde_json.specs.View.{view};
ghost use Rattle.aim_messages.specs.declared.script.Line.{Line};
ghost use Rattle.aim_messages.specs.Lines.{KeepsRanges};
ghost use Rattle.aim_text_lines.specs.Ranges.{IsLine};
ghost use Rattle.aim_json.specs.Lines.{json_of};
ghost use Rattle.aim_json.specs.Reading.{if_its_value, json_line_at, line_of};

use crate::spelling::spelled;
use crate::write_json_line;
use aim_messages::Line;
use aim_text_lines::read_line;
use serde_json::Value;
use std::alloc::Global;

/// Why bytes aren't read as a line.
#[derive(Clone, Copy, PartialEq, Eq)]
pub enum JsonFault {
    /// Memory has run out.
    NoMemory,
    /// They are no JSON text.
    Json,
    /// They are JSON text, and its value is no line's.
    Form,
}

// The line, if that is its value.
fn if_its_value(alloc: Global, line: Line, version: u8, value: &Value) -> Result<Line, JsonFault>
    requires version { (0 < version) × (version ≤ 4) }
    requires ranges { KeepsRanges version line }
    requires nests { depth (view value.now) ≤ max_depth }
    ensures { (result ≡ Err JsonFault.NoMemory) ⊎ (result ≡ if_its_value version (view value.now) line) }
{
    let mut wanted = Vec::new(alloc);
    let Ok(()) = write_json_line(alloc, &line, version, &mut wanted) else {
        return Err(JsonFault::NoMemory);
    };
    let Ok(found) = value.to_vec(alloc) else {
        return Err(JsonFault::NoMemory);
    };
    if wanted.as_slice() == found.as_slice() {
        Ok(line)
    } else {
        Err(JsonFault::Form)
    }
}

// The line whose value it is.
fn line_of(alloc: Global, value: &Value, version: u8) -> Result<Line, JsonFault>
    requires version { (0 < version) × (version ≤ 4) }
    requires nests { depth (view value.now) ≤ max_depth }
    ensures { (result ≡ Err JsonFault.NoMemory) ⊎ (result ≡ line_of version (view value.now)) }
{
    let Ok(text) = spelled(alloc, value) else {
        return Err(JsonFault::NoMemory);
    };
    match read_line(&text, version) {
        Ok(line) => if_its_value(alloc, line, version, value),
        Err(_) => Err(JsonFault::Form),
    }
}

// The line that the bytes are.
fn json_line(alloc: Global, line: &[u8], version: u8) -> Result<Line, JsonFault>
    requires { (0 < version) × (version ≤ 4) }
    ensures { (result ≡ Err JsonFault.NoMemory) ⊎ (result ≡ json_line_at version line.now) }
{
    match Value::from_slice(alloc, line) {
        Ok(value) => line_of(alloc, &value, version),
        Err(error) => if error.is_memory() {
            Err(JsonFault::NoMemory)
        } else {
            Err(JsonFault::Json)
        },
    }
}

/// Reads a line of a script of that version, which is 1 to 4, as JSON text. Members may come in any order, and white
/// space between them, as `serde_json` reads them: of two members of one name the last counts.
pub fn read_json_line(alloc: Global, line: &[u8], version: u8) -> Result<Line, JsonFault>
    requires { (0 < version) × (version ≤ 4) }
    ensures value { (result ≡ Err JsonFault.NoMemory) ⊎ (result ≡ json_line_at version line.now) }

    // What that is: the line whose value the text is, or why there is none.
    ensures ok { IfOk result (λ l. IsLine l × KeepsRanges version l × IsUtf8 line.now × (read line.now ≡ Some (json_of version l))) }
    ensures json { result ≡ Err JsonFault.Json → IsUtf8 line.now → read line.now ≡ None }
    ensures form { result ≡ Err JsonFault.Form → IsUtf8 line.now × (d : Data) × (read line.now ≡ Some d) × ((l : Line) → IsLine l → KeepsRanges version l → json_of version l ≡ d → ⊥) }
{
    json_line(alloc, line, version)
}
