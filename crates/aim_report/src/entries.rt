//! The lines of a journal.

ghost use Rattle.std.specs.Prelude.{◌≡◌, ◌++◌, ◌≤◌, length, OnOk};
ghost use Rattle.aim_script.specs.Decided.{printed};
ghost use Rattle.aim_messages.specs.Texts.{entry_text as text_of, spaced};
ghost use Rattle.aim_report.specs.Reports.{end_words, journal_lines};

use crate::NoMemory;
use aim_messages::{Entry, Text, write_entry};

// Appends the line of an entry.
fn put_entry(out: &mut Vec<u8>, position: u32, entry: &Entry) -> Result<(), NoMemory>
    ensures { OnOk result (out.new.items ≡ out.old.items ++ printed (text_of position entry.now)) }
{
    write_entry(position, entry, out)?;
    Ok(out.push(b'\n')?)
}

/// Appends the lines of a journal's entries, which are numbered from 0. Where memory runs out, it is not said what was
/// appended.
pub fn put_entries(out: &mut Vec<u8>, journal: &[Entry]) -> Result<(), NoMemory>
    requires { length journal.now ≤ 4294967295 }
    ensures { OnOk result (out.new.items ≡ out.old.items ++ journal_lines 0 journal.now) }
{
    for (position, entry) in journal.iter().enumerate() {
        put_entry(out, position as u32, entry)?;
    }
    Ok(())
}

/// Appends the last line, which tells a number of entries. Where memory runs out, it is not said what was appended.
pub fn put_end(out: &mut Vec<u8>, entries: u32) -> Result<(), NoMemory>
    ensures { OnOk result (out.new.items ≡ out.old.items ++ printed (spaced (end_words entries))) }
{
    let mut text = Text::new();
    text.word(b"end");
    text.number(entries);
    out.extend_from_slice(text.line())?;
    Ok(out.push(b'\n')?)
}
