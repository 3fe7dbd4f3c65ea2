//! Laws of the texts of lines and messages: what is spelled is read again, what is read is spelled so, and no two
//! values have one spelling. Each is the contract of a function that does nothing.
ghost use Rattle.std.specs.Prelude.{◌≡◌, ℕ, List, Ok};
ghost use Rattle.aim_messages.specs.declared.messages.Message.{Message};
ghost use Rattle.aim_messages.specs.declared.script.Line.{Line};
ghost use Rattle.aim_messages.specs.Lines.{line_text, KeepsRanges};
ghost use Rattle.aim_messages.specs.Texts.{message_text, IsOneLine};
ghost use Rattle.aim_text_words.specs.Ranges.{IsMessage};
ghost use Rattle.aim_text_lines.specs.Ranges.{IsLine};
ghost use Rattle.aim_text_lines.specs.Reading.{line_at};

/// Reading the text of a line that keeps its ranges gives the line back.
pub fn line_is_read_again()
    ensures { (version : ℕ) (line : Line) → IsLine line → KeepsRanges version line → line_at version (line_text version line) ≡ Ok line }
{}

/// Bytes that are read as a line are its text, and the line keeps its ranges.
pub fn line_is_spelled_so()
    ensures { (version : ℕ) (bytes : List ℕ) (line : Line) → line_at version bytes ≡ Ok line → IsLine line × KeepsRanges version line × (bytes ≡ line_text version line) }
{}

/// No two lines have one text.
pub fn line_has_one_text()
    ensures { (version : ℕ) (a b : Line) → IsLine a → KeepsRanges version a → IsLine b → KeepsRanges version b → line_text version a ≡ line_text version b → a ≡ b }
{}

/// No two messages have one text.
pub fn message_has_one_text()
    ensures { (m n : Message) → IsMessage m → IsMessage n → message_text m ≡ message_text n → m ≡ n }
{}

/// No text has a byte 10 in it.
pub fn text_is_one_line()
    ensures message { (m : Message) → IsMessage m → IsOneLine (message_text m) }
    ensures line { (version : ℕ) (line : Line) → IsLine line → KeepsRanges version line → IsOneLine (line_text version line) }
{}
