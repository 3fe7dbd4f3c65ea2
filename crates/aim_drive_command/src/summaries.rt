//! The printed counts of a drive.

ghost use Rattle.std.specs.Prelude.{◌≡◌, ◌++◌, ◌≤◌, length, filter, map, OnOk, IfOk, if◌then◌else◌};
ghost use Rattle.aim_drive.specs.Making.{log_of};
ghost use Rattle.aim_drive_command.specs.Summaries.{counted, has_entered, is_confirm, is_reject, summary, summary_lines};

use aim_drive::{Drove, Logged};
use aim_driver::LogItem;
use aim_messages::{Entry, Reply, Text};
use aim_report::NoMemory;
use std::alloc::Global;

// How many entries are confirms.
fn confirms(journal: &[Entry]) -> usize
    ensures { result ≡ length (filter is_confirm journal.now) }
{
    journal
        .iter()
        .filter(|entry| matches!(entry.reply, Reply::Confirm { .. }))
        .count()
}

// How many entries are rejects.
fn rejects(journal: &[Entry]) -> usize
    ensures { result ≡ length (filter is_reject journal.now) }
{
    journal
        .iter()
        .filter(|entry| matches!(entry.reply, Reply::Reject { .. }))
        .count()
}

// Whether the vehicle of the log has entered.
fn has_entered(logged: &Logged) -> bool
    ensures { result ≡ has_entered (log_of logged.now) }
{
    logged
        .driver
        .log()
        .iter()
        .any(|item| matches!(item, LogItem::Entered { .. }))
}

// One, or nothing.
fn one_if(holds: bool) -> usize
    ensures { result ≡ if holds then 1 else 0 }
{
    if holds { 1 } else { 0 }
}

// How many vehicles have entered.
fn entered(logs: &[Logged]) -> usize
    ensures { result ≡ length (filter (λ l. has_entered (log_of l)) logs.now) }
{
    let mut count = 0;
    for logged in logs {
        count += one_if(has_entered(logged));
    }
    count
}

// Appends a line of a word and a number.
fn put_count(out: &mut Vec<u8>, word: &[u8], n: u64) -> Result<(), NoMemory>
    requires { length word.now ≤ 20 }
    ensures { OnOk result (out.new.items ≡ out.old.items ++ counted word.now n) }
{
    let mut text = Text::new();
    text.word(word);
    text.number(n);
    out.extend_from_slice(text.line())?;
    Ok(out.push(b'\n')?)
}

// The text of these counts.
fn text_of_counts(
    alloc: Global,
    steps: u64,
    entries: u64,
    confirms: u64,
    rejects: u64,
    entered: u64,
) -> Result<Vec<u8>, NoMemory>
    ensures { IfOk result (λ text. text.items ≡ summary_lines steps entries confirms rejects entered) }
{
    let mut text = Vec::new(alloc);
    put_count(&mut text, b"steps", steps)?;
    put_count(&mut text, b"entries", entries)?;
    put_count(&mut text, b"confirms", confirms)?;
    put_count(&mut text, b"rejects", rejects)?;
    put_count(&mut text, b"entered", entered)?;
    put_count(&mut text, b"end", entries)?;
    Ok(text)
}

/// The text that counts a drive of so many steps.
pub(crate) fn summary_of(alloc: Global, steps: u32, drove: &Drove) -> Result<Vec<u8>, NoMemory>
    ensures { IfOk result (λ text. text.items ≡ summary steps drove.now.journal.items (map log_of drove.now.logs.items)) }
{
    let confirms = confirms(&drove.journal);
    let rejects = rejects(&drove.journal);
    let entered = entered(&drove.logs);
    text_of_counts(
        alloc,
        steps as u64,
        drove.journal.len() as u64,
        confirms as u64,
        rejects as u64,
        entered as u64,
    )
}
