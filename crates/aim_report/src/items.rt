//! The lines of a driver's log.

ghost use Rattle.std.specs.Prelude.{◌≡◌, ◌++◌, ◌∷◌, ◌≤◌, [], length, codes, decimal, OnOk};
ghost use Rattle.aim_messages.specs.Texts.{message_words, reply_words, spaced};
ghost use Rattle.aim_report.specs.Reports.{item_line, item_words, log_lines};

use crate::NoMemory;
use aim_driver::LogItem;
use aim_messages::{Message, Reply, Text, put_number, write_message, write_reply};

// Appends the first words of an item's line.
fn put_head(out: &mut Vec<u8>, vehicle: u32, what: &[u8], step: u32) -> Result<(), NoMemory>
    requires { length what.now ≤ 20 }
    ensures { OnOk result (out.new.items ≡
        out.old.items ++ spaced (codes "log" ∷ decimal vehicle ∷ what.now ∷ decimal step ∷ [])) }
{
    let mut text = Text::new();
    text.word(b"log");
    text.number(vehicle);
    text.word(what);
    text.number(step);
    out.extend_from_slice(text.line())
}

// Appends a space and a number.
fn put_next(out: &mut Vec<u8>, n: u32) -> Result<(), NoMemory>
    ensures { OnOk result (out.new.items ≡ out.old.items ++ 32 ∷ decimal n) }
{
    out.push(b' ')?;
    put_number(out, n as u64)
}

// Appends the words of a message that was sent.
fn put_sent(out: &mut Vec<u8>, vehicle: u32, step: u32, message: &Message) -> Result<(), NoMemory>
    ensures { OnOk result (out.new.items ≡ out.old.items ++
        spaced (codes "log" ∷ decimal vehicle ∷ codes "sent" ∷ decimal step ∷ message_words message.now)) }
{
    put_head(out, vehicle, b"sent", step)?;
    out.push(b' ')?;
    write_message(message, out)
}

// Appends the words of a reply that came.
fn put_got(
    out: &mut Vec<u8>,
    vehicle: u32,
    step: u32,
    seq: u32,
    reply: &Reply,
) -> Result<(), NoMemory>
    ensures { OnOk result (out.new.items ≡ out.old.items ++
        spaced (codes "log" ∷ decimal vehicle ∷ codes "got" ∷ decimal step ∷ decimal seq ∷ reply_words reply.now)) }
{
    put_head(out, vehicle, b"got", step)?;
    put_next(out, seq)?;
    out.push(b' ')?;
    write_reply(reply, out)
}

// Appends the words of an entrance.
fn put_entered(out: &mut Vec<u8>, vehicle: u32, step: u32, id: u32) -> Result<(), NoMemory>
    ensures { OnOk result (out.new.items ≡ out.old.items ++
        spaced (codes "log" ∷ decimal vehicle ∷ codes "entered" ∷ decimal step ∷ decimal id ∷ [])) }
{
    put_head(out, vehicle, b"entered", step)?;
    put_next(out, id)
}

// Appends the words of an item.
fn put_words(out: &mut Vec<u8>, vehicle: u32, item: &LogItem) -> Result<(), NoMemory>
    ensures { OnOk result (out.new.items ≡ out.old.items ++ spaced (item_words vehicle item.now)) }
{
    match item {
        LogItem::Sent { step, message } => put_sent(out, vehicle, *step, message),
        LogItem::Got { step, seq, reply } => put_got(out, vehicle, *step, *seq, reply),
        LogItem::Entered { step, id } => put_entered(out, vehicle, *step, *id),
    }
}

// Appends the line of an item.
fn put_item(out: &mut Vec<u8>, vehicle: u32, item: &LogItem) -> Result<(), NoMemory>
    ensures { OnOk result (out.new.items ≡ out.old.items ++ item_line vehicle item.now) }
{
    put_words(out, vehicle, item)?;
    Ok(out.push(b'\n')?)
}

/// Appends the lines of a vehicle's log. Where memory runs out, it is not said what was appended.
pub fn put_log(out: &mut Vec<u8>, vehicle: u32, log: &[LogItem]) -> Result<(), NoMemory>
    ensures { OnOk result (out.new.items ≡ out.old.items ++ log_lines vehicle log.now) }
{
    for item in log {
        put_item(out, vehicle, item)?;
    }
    Ok(())
}
