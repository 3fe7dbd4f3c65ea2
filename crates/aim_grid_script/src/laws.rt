//! Laws of the texts: what is spelled is read again, what is read is spelled so, and no two lines have one spelling.
//! Each is the contract of a function that does nothing.

ghost use Rattle.std.specs.Prelude.{◌≡◌, ℕ, List, Ok};
ghost use Rattle.aim_messages.specs.Texts.{IsOneLine};
ghost use Rattle.aim_grid_script.specs.declared.lines.GridLine.{GridLine};
ghost use Rattle.aim_grid_script.specs.Legs.{grid_line_at};
ghost use Rattle.aim_grid_script.specs.Spelled.{grid_line_text, IsGridLine, KeepsGridRanges};

/// Reading the text of a line that keeps its ranges gives the line back.
pub fn grid_line_is_read_again()
    ensures { (version : ℕ) (line : GridLine) → IsGridLine line → KeepsGridRanges version line → grid_line_at version (grid_line_text version line) ≡ Ok line }
{}

/// Bytes that are read as a line are its text, and the line keeps its ranges.
pub fn grid_line_is_spelled_so()
    ensures { (version : ℕ) (bytes : List ℕ) (line : GridLine) → grid_line_at version bytes ≡ Ok line → IsGridLine line × KeepsGridRanges version line × (bytes ≡ grid_line_text version line) }
{}

/// No two lines have one text.
pub fn grid_line_has_one_text()
    ensures { (version : ℕ) (a b : GridLine) → IsGridLine a → KeepsGridRanges version a → IsGridLine b → KeepsGridRanges version b → grid_line_text version a ≡ grid_line_text version b → a ≡ b }
{}

/// No text has a byte 10 in it.
pub fn grid_text_is_one_line()
    ensures { (version : ℕ) (line : GridLine) → IsGridLine line → KeepsGridRanges version line → IsOneLine (grid_line_text version line) }
{}
