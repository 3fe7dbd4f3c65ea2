//! The words that are fixed.

ghost use Rattle.std.specs.Prelude.{◌≡◌, ◌≤◌, length};
ghost use Rattle.aim_messages.specs.Texts.{turn_word, class_word, field_word, pace_word};
ghost use Rattle.aim_messages.specs.Lines.{kind_word, window_word};

use crate::messages::Turn;
use crate::replies::Field;

pub(crate) fn turn_text(turn: Turn) -> &'static [u8]
    ensures word { result.now ≡ turn_word turn }
    ensures short { length result.now ≤ 8 }
{
    match turn {
        Turn::Left => b"left",
        Turn::Straight => b"straight",
        Turn::Right => b"right",
    }
}

pub(crate) fn class_text(emergency: bool) -> &'static [u8]
    ensures word { result.now ≡ class_word emergency }
    ensures short { length result.now ≤ 9 }
{
    if emergency { b"emergency" } else { b"car" }
}

pub(crate) fn field_text(field: Field) -> &'static [u8]
    ensures word { result.now ≡ field_word field }
    ensures short { length result.now ≤ 6 }
{
    match field {
        Field::Lane => b"lane",
        Field::Turn => b"turn",
        Field::Arrive => b"arrive",
        Field::Max => b"max",
        Field::Speed => b"speed",
        Field::Accel => b"accel",
        Field::Length => b"length",
        Field::Width => b"width",
        Field::Steps => b"steps",
        Field::Spans => b"spans",
        Field::Latest => b"latest",
    }
}

pub(crate) fn pace_text(accelerate: bool) -> &'static [u8]
    ensures word { result.now ≡ pace_word accelerate }
    ensures short { length result.now ≤ 6 }
{
    if accelerate { b"fast" } else { b"steady" }
}

pub(crate) fn kind_text(kind: u8) -> &'static [u8]
    ensures word { result.now ≡ kind_word kind }
    ensures short { length result.now ≤ 11 }
{
    match kind {
        0 => b"fcfs",
        1 => b"emerg",
        2 => b"light",
        _ => b"light-emerg",
    }
}

pub(crate) fn window_text(ahead: bool) -> &'static [u8]
    ensures word { result.now ≡ window_word ahead }
    ensures short { length result.now ≤ 5 }
{
    if ahead { b"early" } else { b"start" }
}
