//! Texts that are written. None takes memory but for the bytes that it appends.

ghost use Rattle.std.specs.Prelude.{◌≡◌, ◌++◌, ◌<◌, ◌≤◌, take, length, decimal, OnOk, OnErr};
ghost use Rattle.aim_messages.specs.Lines.{line_text, KeepsRanges};
ghost use Rattle.aim_messages.specs.Texts.{entry_text, reply_text, message_text};

mod entries;
mod lines;
mod text;
mod words;

use crate::entries::Entry;
use crate::messages::Message;
use crate::replies::Reply;
use crate::script::Line;
use crate::writing::entries::{put_entry, put_message, put_reply};
use crate::writing::lines::put_line;
pub use crate::writing::text::Text;
use itoa::Buffer;
pub use std::alloc::AllocError as NoMemory;

/// Appends the decimal text of a number. Where memory runs out, nothing is appended.
pub fn put_number(out: &mut Vec<u8>, n: u64) -> Result<(), NoMemory>
    ensures ok { OnOk result (out.new.items ≡ out.old.items ++ decimal n) }
    ensures err { OnErr result (out.new.items ≡ out.old.items) }
{
    let mut buffer = Buffer::new();
    out.extend_from_slice(buffer.format(n).as_bytes())
}

/// Appends the spelling of a line in a script of that version. Where memory runs out, nothing is appended.
#[tactic(auto, using(crate::proofs::Words::line_added))]
pub fn write_line(line: &Line, version: u8, out: &mut Vec<u8>) -> Result<(), NoMemory>
    requires version { (0 < version) × (version ≤ 4) }
    requires ranges { KeepsRanges version line.now }
    ensures ok { OnOk result (out.new.items ≡ out.old.items ++ line_text version line.now) }
    ensures err { OnErr result (out.new.items ≡ out.old.items) }
{
    let mut text = Text::new();
    put_line(&mut text, version, line);
    out.extend_from_slice(text.line())
}

/// Appends the text of a message, as scripts and logs have it. Where memory runs out, nothing is appended.
#[tactic(auto, using(crate::proofs::Words::spaced_added))]
pub fn write_message(message: &Message, out: &mut Vec<u8>) -> Result<(), NoMemory>
    ensures ok { OnOk result (out.new.items ≡ out.old.items ++ message_text message.now) }
    ensures err { OnErr result (out.new.items ≡ out.old.items) }
{
    let mut text = Text::new();
    put_message(&mut text, message);
    out.extend_from_slice(text.line())
}

/// Appends the text of a reply. Where memory runs out, nothing is appended.
#[tactic(auto, using(crate::proofs::Words::spaced_added))]
pub fn write_reply(reply: &Reply, out: &mut Vec<u8>) -> Result<(), NoMemory>
    ensures ok { OnOk result (out.new.items ≡ out.old.items ++ reply_text reply.now) }
    ensures err { OnErr result (out.new.items ≡ out.old.items) }
{
    let mut text = Text::new();
    put_reply(&mut text, reply);
    out.extend_from_slice(text.line())
}

/// Appends the text of an entry, without a byte 10. Where memory runs out, nothing is appended.
#[tactic(auto, using(crate::proofs::Words::entry_added))]
pub fn write_entry(position: u32, entry: &Entry, out: &mut Vec<u8>) -> Result<(), NoMemory>
    ensures ok { OnOk result (out.new.items ≡ out.old.items ++ entry_text position entry.now) }
    ensures err { OnErr result (out.new.items ≡ out.old.items) }
{
    let mut text = Text::new();
    put_entry(&mut text, position, entry);
    out.extend_from_slice(text.line())
}

/// Puts the text of an entry, without a byte 10, at the front of `out`, and answers how many bytes it has. It fits
/// for every entry.
#[tactic(auto, using(crate::proofs::Words::entry_added))]
pub fn entry_text(position: u32, entry: &Entry, out: &mut [u8; 400]) -> usize
    ensures text { take result out.new ≡ entry_text position entry.now }
    ensures fits { result < 400 }
{
    let mut text = Text::new();
    put_entry(&mut text, position, entry);
    text.give(out)
}
