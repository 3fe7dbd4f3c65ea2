// The fields of texts. Each is a word, or is read with the fields beside it.
ghost use Rattle.std.specs.Prelude.{bytes_eq, codes, []};
ghost use Rattle.aim_text_words.specs.Faults.{value_of, turns, classes, number32, number8, later_than};
ghost use Rattle.aim_text_words.specs.Reading.{turn_of, is_emergency};
ghost use Rattle.aim_text_words.specs.Tables.{rows_of};
ghost use Rattle.aim_text_words.specs.Steps.{Gives, read_in, numbers_in, choice_in, vehicle_in, params_in, windowed_in, body_in, message_in};

use crate::forms::MessageForm;
use crate::numbers::number;
use crate::tables::look_up;
use crate::words::Words;
use aim_messages::{Body, LineKind, Message, Params, Turn};

/// A number of 32 bits.
#[tactic(auto, unfolding(crate::specs::Steps::read_in))]
pub fn number32(words: &mut Words<'_>) -> Result<u32, LineKind>
    ensures { Gives result words.new (read_in number32 value_of words.old) }
{
    let word = words.word()?;
    let n = number(word, 0, u64::from(u32::MAX))?;
    Ok(n as u32)
}

/// So many numbers of 32 bits.
#[tactic(auto, unfolding(crate::specs::Steps::numbers_in))]
pub fn numbers<const N: usize>(words: &mut Words<'_>) -> Result<[u32; N], LineKind>
    ensures { Gives result words.new (numbers_in [] N words.old) }
{
    let mut numbers = [0; N];
    for i in 0..N {
        numbers[i] = number32(words)?;
    }
    Ok(numbers)
}

/// What a table's row says of the next word.
#[tactic(auto, unfolding(crate::specs::Steps::choice_in))]
pub fn choice<F: Copy>(words: &mut Words<'_>, rows: &[(&[u8], F)]) -> Result<F, LineKind>
    ensures { Gives result words.new (choice_in (rows_of rows.now) words.old) }
{
    let word = words.word()?;
    look_up(rows, LineKind::Words, word)
}

/// A number of a byte.
#[tactic(auto, unfolding(crate::specs::Steps::read_in))]
pub fn number8(words: &mut Words<'_>) -> Result<u8, LineKind>
    ensures { Gives result words.new (read_in number8 value_of words.old) }
{
    let word = words.word()?;
    let n = number(word, 0, u64::from(u8::MAX))?;
    Ok(n as u8)
}

const TURNS: [(&[u8], Turn); 3] = [
    (b"left", Turn::Left),
    (b"straight", Turn::Straight),
    (b"right", Turn::Right),
];

/// A turn.
pub fn turn(words: &mut Words<'_>) -> Result<Turn, LineKind>
    ensures { Gives result words.new (read_in turns turn_of words.old) }
{
    choice(words, &TURNS)
}

// Whether a vehicle of that class is an emergency vehicle.
const CLASSES: [(&[u8], bool); 2] = [(b"car", false), (b"emergency", true)];

#[tactic(auto, using(crate::proofs::TableLaws::class_read))]
fn is_emergency(words: &mut Words<'_>) -> Result<bool, LineKind>
    ensures { Gives result words.new (read_in classes is_emergency words.old) }
{
    choice(words, &CLASSES)
}

/// SPEED MAX ACCEL LENGTH WIDTH CLASS, behind the lane, the turn and the arrival, which is to be in that step alone.
#[tactic(auto, unfolding(crate::specs::Steps::vehicle_in))]
pub fn vehicle(words: &mut Words<'_>, lane: u8, turn: Turn, arrive: u32) -> Result<Params, LineKind>
    ensures { Gives result words.new (vehicle_in lane turn arrive words.old) }
{
    let [speed, max_speed, accel, length, width] = numbers::<5>(words)?;
    let emergency = is_emergency(words)?;
    Ok(Params {
        lane,
        turn,
        arrive,
        latest: arrive,
        speed,
        max_speed,
        accel,
        length,
        width,
        emergency,
    })
}

// LANE TURN ARRIVE SPEED MAX ACCEL LENGTH WIDTH CLASS
#[tactic(auto, unfolding(crate::specs::Steps::params_in))]
fn params(words: &mut Words<'_>) -> Result<Params, LineKind>
    ensures { Gives result words.new (params_in words.old) }
{
    let lane = number8(words)?;
    let turn = turn(words)?;
    let arrive = number32(words)?;
    vehicle(words, lane, turn, arrive)
}

// A step above that one.
#[tactic(auto, unfolding(crate::specs::Steps::read_in))]
fn later(words: &mut Words<'_>, step: u32) -> Result<u32, LineKind>
    ensures { Gives result words.new (read_in (later_than step) value_of words.old) }
{
    let word = words.word()?;
    let n = number(word, u64::from(step) + 1, u64::from(u32::MAX))?;
    Ok(n as u32)
}

// LANE TURN ARRIVE SPEED MAX ACCEL LENGTH WIDTH CLASS LATEST
#[tactic(auto, unfolding(crate::specs::Steps::windowed_in))]
fn windowed(words: &mut Words<'_>) -> Result<Params, LineKind>
    ensures { Gives result words.new (windowed_in words.old) }
{
    let params = params(words)?;
    let latest = later(words, params.arrive)?;
    Ok(Params { latest, ..params })
}

#[tactic(auto, unfolding(crate::specs::Steps::body_in))]
fn change_in_window(words: &mut Words<'_>) -> Result<Body, LineKind>
    ensures { Gives result words.new (body_in MessageForm.ChangeInWindow words.old) }
{
    let id = number32(words)?;
    let params = windowed(words)?;
    Ok(Body::Change(id, params))
}

#[tactic(auto, unfolding(crate::specs::Steps::body_in))]
fn change(words: &mut Words<'_>) -> Result<Body, LineKind>
    ensures { Gives result words.new (body_in MessageForm.Change words.old) }
{
    let id = number32(words)?;
    let params = params(words)?;
    Ok(Body::Change(id, params))
}

#[tactic(auto, unfolding(crate::specs::Steps::body_in))]
fn body(words: &mut Words<'_>, form: MessageForm) -> Result<Body, LineKind>
    ensures { Gives result words.new (body_in form words.old) }
{
    match form {
        MessageForm::Request => params(words).map(Body::Request),
        MessageForm::RequestInWindow => windowed(words).map(Body::Request),
        MessageForm::Change => change(words),
        MessageForm::ChangeInWindow => change_in_window(words),
        MessageForm::Cancel => number32(words).map(Body::Cancel),
        MessageForm::Done => number32(words).map(Body::Done),
    }
}

/// A message of that form, behind the word that says so.
#[tactic(auto, unfolding(crate::specs::Steps::message_in))]
pub fn message(words: &mut Words<'_>, form: MessageForm) -> Result<Message, LineKind>
    ensures { Gives result words.new (message_in form words.old) }
{
    let seq = number32(words)?;
    let body = body(words, form)?;
    Ok(Message { seq, body })
}
