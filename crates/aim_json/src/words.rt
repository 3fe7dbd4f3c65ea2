//! The words that are fixed, and names.

ghost use Rattle.std.specs.Prelude.{◌≡◌};
ghost use Rattle.aim_messages.specs.Texts.{turn_word, class_word, field_word, pace_word};
ghost use Rattle.aim_messages.specs.Lines.{name_word, kind_word, window_word, IsName};

use aim_messages::{Field, Name, Turn};

pub(crate) fn turn_text(turn: Turn) -> &'static str
    ensures { result.now ≡ turn_word turn }
{
    match turn {
        Turn::Left => "left",
        Turn::Straight => "straight",
        Turn::Right => "right",
    }
}

pub(crate) fn class_text(emergency: bool) -> &'static str
    ensures { result.now ≡ class_word emergency }
{
    if emergency { "emergency" } else { "car" }
}

pub(crate) fn field_text(field: Field) -> &'static str
    ensures { result.now ≡ field_word field }
{
    match field {
        Field::Lane => "lane",
        Field::Turn => "turn",
        Field::Arrive => "arrive",
        Field::Max => "max",
        Field::Speed => "speed",
        Field::Accel => "accel",
        Field::Length => "length",
        Field::Width => "width",
        Field::Steps => "steps",
        Field::Spans => "spans",
        Field::Latest => "latest",
    }
}

pub(crate) fn pace_text(accelerate: bool) -> &'static str
    ensures { result.now ≡ pace_word accelerate }
{
    if accelerate { "fast" } else { "steady" }
}

pub(crate) fn kind_text(kind: u8) -> &'static str
    ensures { result.now ≡ kind_word kind }
{
    match kind {
        0 => "fcfs",
        1 => "emerg",
        2 => "light",
        _ => "light-emerg",
    }
}

pub(crate) fn window_text(ahead: bool) -> &'static str
    ensures { result.now ≡ window_word ahead }
{
    if ahead { "early" } else { "start" }
}

/// A name's text.
#[tactic(auto, using(crate::proofs::Names::name_is_utf8))]
pub(crate) fn name_text(name: &Name) -> &str
    requires { IsName name.now }
    ensures { result.now ≡ name_word name.now }
{
    match str::from_utf8(&name.bytes[..usize::from(name.len)]) {
        Ok(text) => text,
        Err(_) => unreachable!(),
    }
}
