//! Why a script isn't whole, and the line that says so.

ghost use Rattle.std.specs.Prelude.{◌≡◌, ◌≤◌, [], length, take};
ghost use Rattle.aim_messages.specs.Texts.{spaced};
ghost use Rattle.aim_messages.specs.Writing.{added};
ghost use Rattle.aim_shards_command.specs.ClaimTexts.{kind_text, limit_text, printed, refused_words, why_text};

use aim_messages::{LineKind, Text};
use aim_script_reading::{Bound, Refused, Why};

/// Why a line of a script is at fault behind those before it.
#[derive(Clone, Copy)]
pub enum ClaimKind {
    /// It spells no line.
    Spelling(LineKind),
    /// A line of that form may not stand at that place.
    Order,
    /// A number of the `shards` line is out of its range.
    Shards,
    /// The set doesn't lie on the grid, is too large, or is one too many.
    Set,
    /// The caller, the set or the call isn't there, or it is one call too many.
    Call,
}

/// A script of claims has no limits of its own.
#[derive(Clone, Copy)]
pub enum ClaimLimit {}

// The word for a kind of line that can't be read.
fn spelling_text(kind: LineKind) -> &'static [u8]
    ensures text { result.now ≡ kind_text (ClaimKind.Spelling kind) }
    ensures short { length result.now ≤ 11 }
{
    match kind {
        LineKind::Words => b"words",
        LineKind::Number => b"number",
        LineKind::Range => b"range",
        LineKind::Unknown => b"unknown",
    }
}

// The word for a kind of line at fault.
fn kind_text(kind: ClaimKind) -> &'static [u8]
    ensures text { result.now ≡ kind_text kind }
    ensures short { length result.now ≤ 11 }
{
    match kind {
        ClaimKind::Spelling(kind) => spelling_text(kind),
        ClaimKind::Order => b"order",
        ClaimKind::Shards => b"shards",
        ClaimKind::Set => b"set",
        ClaimKind::Call => b"call",
    }
}

// The word for why a line is at fault.
fn why_text(why: Why<ClaimKind>) -> &'static [u8]
    ensures text { result.now ≡ why_text why }
    ensures short { length result.now ≤ 11 }
{
    match why {
        Why::Long => b"long",
        Why::End => b"end",
        Why::Fault(kind) => kind_text(kind),
    }
}

// The word for a limit.
fn limit_text(limit: Bound<ClaimLimit>) -> &'static [u8]
    ensures text { result.now ≡ limit_text limit }
    ensures short { length result.now ≤ 11 }
{
    match limit {
        Bound::Bytes => b"bytes",
        Bound::Lines => b"lines",
        Bound::Further(none) => match none {},
    }
}

// Adds the words of the line.
fn put_refused(text: &mut Text, refused: Refused<ClaimKind, ClaimLimit>)
    requires { text.old ≡ [] }
    ensures words { text.new ≡ added [] (refused_words refused) }
    ensures fits { length text.new ≤ 50 }
{
    match refused {
        Refused::Bad(number, why) => {
            text.word(b"bad");
            text.word(b"line");
            text.number(number);
            text.word(why_text(why));
        }
        Refused::Limit(limit) => {
            text.word(b"limit");
            text.word(limit_text(limit));
        }
    }
}

/// Puts the line that says why a script isn't whole at the front of `line`, its byte 10 included, and says how long it is.
/// Takes no memory.
pub fn refused_line(refused: Refused<ClaimKind, ClaimLimit>, line: &mut [u8; 400]) -> usize
    ensures text { take result line.new ≡ printed (spaced (refused_words refused)) }
    ensures fits { result ≤ 400 }
{
    let mut text = Text::new();
    put_refused(&mut text, refused);
    let len = text.give(line);
    line[len] = b'\n';
    len + 1
}
