//! Laws of JSON texts: what is read has exactly the line's value, a line's value is read as the line, and no two lines, and
//! no two entries, have one value. Each is the contract of a function that does nothing.

ghost use Rattle.std.specs.Prelude.{ℕ, ◌≡◌, List, Some, None, Ok, Err, IsUtf8};
ghost use Rattle.aim_messages.specs.declared.script.Line.{Line};
ghost use Rattle.aim_messages.specs.declared.entries.Entry.{Entry};
ghost use Rattle.aim_messages.specs.Texts.{IsOneLine};
ghost use Rattle.aim_json.specs.Lines.{json_text, json_of};
ghost use Rattle.aim_json.specs.Entries.{entry_json_text, entry_json};
ghost use Rattle.serde_json.specs.Data.{Data};
ghost use Rattle.serde_json.specs.Read.{read};
ghost use Rattle.aim_messages.specs.Lines.{KeepsRanges};
ghost use Rattle.aim_messages.specs.Actors.{IsCallerOf};
ghost use Rattle.aim_text_words.specs.Ranges.{Is32};
ghost use Rattle.aim_text_entries.specs.Ranges.{IsEntry};
ghost use Rattle.aim_text_lines.specs.Ranges.{IsLine};
ghost use Rattle.aim_json.specs.Reading.{json_line_at};

use crate::reading::JsonFault;

/// No text that is written has a byte 10 in it.
pub fn text_is_one_line()
    ensures line { (version : ℕ) (line : Line) → IsOneLine (json_text version line) }
    ensures entry { (position : ℕ) (entry : Entry) → IsOneLine (entry_json_text position entry) }
{}

/// Text whose value is that of a line which keeps its ranges is read as the line.
pub fn value_is_read()
    ensures { (version : ℕ) (bytes : List ℕ) (line : Line) → IsLine line → KeepsRanges version line → IsUtf8 bytes → read bytes ≡ Some (json_of version line) → json_line_at version bytes ≡ Ok line }
{}

/// Reading the text that is written for a line which keeps its ranges gives the line back.
pub fn line_is_read_again()
    ensures { (version : ℕ) (line : Line) → IsLine line → KeepsRanges version line → json_line_at version (json_text version line) ≡ Ok line }
{}

/// Bytes that are read as a line are text whose value is the line's, and the line keeps its ranges.
pub fn line_was_read()
    ensures { (version : ℕ) (bytes : List ℕ) (line : Line) → json_line_at version bytes ≡ Ok line → IsLine line × KeepsRanges version line × IsUtf8 bytes × (read bytes ≡ Some (json_of version line)) }
{}

/// No two lines have one value.
pub fn line_has_one_value()
    ensures { (version : ℕ) (a b : Line) → IsLine a → KeepsRanges version a → IsLine b → KeepsRanges version b → json_of version a ≡ json_of version b → a ≡ b }
{}

/// Bytes are of the kind `Json` where they are no UTF-8 or no JSON text.
pub fn no_text_was_read()
    ensures { (version : ℕ) (bytes : List ℕ) → json_line_at version bytes ≡ Err JsonFault.Json → IsUtf8 bytes → read bytes ≡ None }
{}

/// Bytes are of the kind `Form` where they are JSON text whose value is no line's.
pub fn no_line_was_read()
    ensures { (version : ℕ) (bytes : List ℕ) → json_line_at version bytes ≡ Err JsonFault.Form → IsUtf8 bytes × (d : Data) × (read bytes ≡ Some d) × ((l : Line) → IsLine l → KeepsRanges version l → json_of version l ≡ d → ⊥) }
{}

/// No two entries have one value.
pub fn entry_has_one_value()
    ensures { (i j : ℕ) (a b : Entry) → Is32 i → Is32 j → IsEntry a → IsEntry b → IsCallerOf a.caller a.act → IsCallerOf b.caller b.act → entry_json i a ≡ entry_json j b → (i ≡ j) × (a ≡ b) }
{}
