// Tables of words: each row is a word and what it says.
ghost use Rattle.std.specs.Prelude.{◌≡◌, take, drop};
ghost use Rattle.aim_text_words.specs.Tables.{look_up, rows_of};

use aim_messages::LineKind;

/// What the row of that word says, or that fault where no row has the word.
pub fn look_up<F: Copy>(rows: &[(&[u8], F)], fault: LineKind, word: &[u8]) -> Result<F, LineKind>
    ensures { result ≡ look_up fault (rows_of rows.now) word.now }
{
    for row in rows {
        if word == row.0 {
            return Ok(row.1);
        }
    }
    Err(fault)
}
