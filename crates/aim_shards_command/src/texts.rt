//! The printed history.

ghost use Rattle.std.specs.Prelude.{◌≡◌, ◌≤◌, ◌+◌, ◌++◌, ◌∷◌, [], length, IfOk, OnOk};
ghost use Rattle.aim_messages.specs.Texts.{spaced};
ghost use Rattle.aim_messages.specs.Writing.{added};
ghost use Rattle.aim_shards_command.specs.ClaimTexts.{printed};
ghost use Rattle.aim_shards_command.specs.Texts.{act_words, answer_word, claim_line, claim_lines, claim_words, end_words, history_text};

use aim_messages::Text;
use aim_shards::{ClaimAct, ClaimEntry};
use std::alloc::{AllocError, Global};

// The word for an answer.
fn answer_word(yes: bool) -> &'static [u8]
    ensures word { result.now ≡ answer_word yes }
    ensures short { length result.now ≤ 3 }
{
    if yes { b"yes" } else { b"no" }
}

// Adds the words of an act.
fn put_act(text: &mut Text, act: &ClaimAct)
    requires { length text.old ≤ 100 }
    ensures words { text.new ≡ added text.old (act_words act.now) }
    ensures fits { length text.new ≤ length text.old + 20 }
{
    match act {
        ClaimAct::Claim(set) => {
            text.word(b"claim");
            text.number(*set);
        }
        ClaimAct::Free(ticket) => {
            text.word(b"free");
            text.number(*ticket);
        }
    }
}

// Adds the words of an entry.
fn put_words(text: &mut Text, entry: &ClaimEntry)
    requires { text.old ≡ [] }
    ensures words { text.new ≡ added [] (claim_words entry.now) }
    ensures fits { length text.new ≤ 100 }
{
    text.number(entry.ticket);
    text.number(entry.caller);
    put_act(text, &entry.act);
    text.word(answer_word(entry.yes));
}

// Appends the text of an entry.
fn put_text(out: &mut Vec<u8>, entry: &ClaimEntry) -> Result<(), AllocError>
    ensures { OnOk result (out.new.items ≡ out.old.items ++ spaced (claim_words entry.now)) }
{
    let mut text = Text::new();
    put_words(&mut text, entry);
    out.extend_from_slice(text.line())
}

// Appends the line of an entry.
fn put_entry(out: &mut Vec<u8>, entry: &ClaimEntry) -> Result<(), AllocError>
    ensures { OnOk result (out.new.items ≡ out.old.items ++ claim_line entry.now) }
{
    put_text(out, entry)?;
    Ok(out.push(b'\n')?)
}

// Appends the lines of all entries.
fn put_entries(out: &mut Vec<u8>, log: &[ClaimEntry]) -> Result<(), AllocError>
    ensures { OnOk result (out.new.items ≡ out.old.items ++ claim_lines log.now) }
{
    for entry in log {
        put_entry(out, entry)?;
    }
    Ok(())
}

// Appends the last line, behind so many entries.
fn put_end(out: &mut Vec<u8>, entries: usize) -> Result<(), AllocError>
    ensures { OnOk result (out.new.items ≡ out.old.items ++ printed (spaced (end_words entries))) }
{
    let mut text = Text::new();
    text.word(b"end");
    text.number(entries as u64);
    out.extend_from_slice(text.line())?;
    Ok(out.push(b'\n')?)
}

/// The lines of all entries, and how many they are.
pub fn text_of(alloc: Global, log: &[ClaimEntry]) -> Result<Vec<u8>, AllocError>
    ensures { IfOk result (λ text. text.items ≡ history_text log.now) }
{
    let mut text = Vec::new(alloc);
    put_entries(&mut text, log)?;
    put_end(&mut text, log.len())?;
    Ok(text)
}
