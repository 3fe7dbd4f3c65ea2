//! The words that the program takes.

ghost use Rattle.std.specs.Prelude.{◌≡◌, ◌≤◌, map, Bool, IfSome};
ghost use Rattle.std.specs.String.{string_bytes};
ghost use Rattle.aim.specs.Commands.{IsWithin, asks_help as is_help, command_alone as command_of_one, command_of as command_in, command_of_number as command_with_number, command_with as command_of_two, command_of_numbers as command_of_three, command_to_print as command_of_four, number_in as number_of, topic_of as topic_in};

use crate::help::Topic;
use aim_messages::{LATEST_MOMENT, LineKind};
use aim_shards_command::number;
use aim_text_words::tables::look_up;

/// What the program can be asked to do.
pub enum Command {
    /// `replay`: replay the script of the input.
    Replay,
    /// `chart STEP`: replay it, and print the chart of that step.
    Chart(u32),
    /// `replay-json`: replay the script of the input, whose lines are JSON text, and print JSON lines.
    ReplayJson,
    /// `session`: answer the lines of the input, and go on behind one that isn't taken.
    Session,
    /// `drive WORKERS`: run the drive script of the input with so many workers, 1 to 64.
    Drive(u32),
    /// `grid WORKERS`: run the routes of the input over several crossings with so many workers, 1 to 64.
    Grid(u32),
    /// `generate NUMBER COUNT`: run generated traffic of so many vehicles, 1 to 256, and print counts.
    Generate(u32, u32),
    /// `generate NUMBER COUNT script`: print the script of that traffic.
    Traffic(u32, u32),
    /// `shards WORKERS`: run the script of claims of the input with so many workers, 1 to 64.
    Shards(u32),
    /// `mail WORKERS`: run the script of events of the input over a mailbox with so many workers, 1 to 64.
    Mail(u32),
    /// `help`, or `help WORD`: tell what the words are, or what a word does.
    Help(Topic),
    /// `version`: tell the versions of the program and of scripts.
    Version,
}

// The commands of one word, but for those that ask for help.
#[derive(Clone, Copy)]
enum Alone {
    Replay,
    ReplayJson,
    Session,
    Version,
}

// Their words.
const ALONE: [(&[u8], Alone); 5] = [
    (b"replay", Alone::Replay),
    (b"replay-json", Alone::ReplayJson),
    (b"session", Alone::Session),
    (b"version", Alone::Version),
    (b"--version", Alone::Version),
];

// The words of which the help tells.
const TOPICS: [(&[u8], Topic); 11] = [
    (b"replay", Topic::Replay),
    (b"replay-json", Topic::ReplayJson),
    (b"session", Topic::Session),
    (b"chart", Topic::Chart),
    (b"drive", Topic::Drive),
    (b"grid", Topic::Grid),
    (b"mail", Topic::Mail),
    (b"shards", Topic::Shards),
    (b"generate", Topic::Generate),
    (b"help", Topic::Help),
    (b"version", Topic::Version),
];

// The commands of two words, the second of which is a number.
#[derive(Clone, Copy)]
enum Numbered {
    Chart,
    Drive,
    Grid,
    Shards,
    Mail,
}

// Their first words.
const NUMBERED: [(&[u8], Numbered); 5] = [
    (b"chart", Numbered::Chart),
    (b"drive", Numbered::Drive),
    (b"grid", Numbered::Grid),
    (b"shards", Numbered::Shards),
    (b"mail", Numbered::Mail),
];

// The number that the word spells, if it is one from `low` to `most`.
fn number_in(word: &[u8], low: u32, most: u32) -> Option<u32>
    ensures value { result ≡ number_of low most word.now }
    ensures within { IfSome result (λ n. (low ≤ n) × (n ≤ most)) }
{
    match number(word) {
        Ok(n) if low <= n && n <= most => Some(n),
        _ => None,
    }
}

// Whether the word asks for help.
fn asks_help(word: &[u8]) -> bool
    ensures { result ≡ is_help word.now }
{
    word == b"help".as_slice() || word == b"--help".as_slice() || word == b"-h".as_slice()
}

// Of what the help tells at that word, if it does.
fn topic_of(word: &[u8]) -> Option<Topic>
    ensures { result ≡ topic_in word.now }
{
    look_up(&TOPICS, LineKind::Unknown, word).ok()
}

// The command of one word, if it is in the table.
fn command_alone(word: &[u8]) -> Option<Command>
    ensures value { result ≡ command_of_one word.now }
    ensures within { IfSome result IsWithin }
{
    if asks_help(word) {
        return Some(Command::Help(Topic::Words));
    }
    match look_up(&ALONE, LineKind::Unknown, word).ok()? {
        Alone::Replay => Some(Command::Replay),
        Alone::ReplayJson => Some(Command::ReplayJson),
        Alone::Session => Some(Command::Session),
        Alone::Version => Some(Command::Version),
    }
}

// The command of a word and a number, if they are in the table.
fn command_of_number(word: &[u8], number: &[u8]) -> Option<Command>
    ensures value { result ≡ command_with_number word.now number.now }
    ensures within { IfSome result IsWithin }
{
    match look_up(&NUMBERED, LineKind::Unknown, word).ok()? {
        Numbered::Chart => number_in(number, 0, LATEST_MOMENT).map(Command::Chart),
        Numbered::Drive => number_in(number, 1, 64).map(Command::Drive),
        Numbered::Grid => number_in(number, 1, 64).map(Command::Grid),
        Numbered::Shards => number_in(number, 1, 64).map(Command::Shards),
        Numbered::Mail => number_in(number, 1, 64).map(Command::Mail),
    }
}

// The command of two words, if they are in the table. A word that asks for help may stand before the other one or behind it.
fn command_with(word: &[u8], other: &[u8]) -> Option<Command>
    ensures value { result ≡ command_of_two word.now other.now }
    ensures within { IfSome result IsWithin }
{
    if asks_help(word) {
        return topic_of(other).map(Command::Help);
    }
    if asks_help(other) {
        return topic_of(word).map(Command::Help);
    }
    command_of_number(word, other)
}

// The command of three words, if they are in the table.
fn command_of_numbers(word: &[u8], number: &[u8], count: &[u8]) -> Option<Command>
    ensures value { result ≡ command_of_three word.now number.now count.now }
    ensures within { IfSome result IsWithin }
{
    if word == b"generate".as_slice() {
        let number = number_in(number, 0, u32::MAX)?;
        let count = number_in(count, 1, 256)?;
        return Some(Command::Generate(number, count));
    }
    None
}

// The command of four words, if they are in the table.
fn command_to_print(word: &[u8], number: &[u8], count: &[u8], what: &[u8]) -> Option<Command>
    ensures value { result ≡ command_of_four word.now number.now count.now what.now }
    ensures within { IfSome result IsWithin }
{
    if word == b"generate".as_slice() && what == b"script".as_slice() {
        let number = number_in(number, 0, u32::MAX)?;
        let count = number_in(count, 1, 256)?;
        return Some(Command::Traffic(number, count));
    }
    None
}

/// The command of the words, if they are in the table.
pub fn command_of(words: &[String]) -> Option<Command>
    ensures value { result ≡ command_in (map string_bytes words.now) }
    ensures within { IfSome result IsWithin }
{
    match words {
        [word] => command_alone(word.as_bytes()),
        [word, other] => command_with(word.as_bytes(), other.as_bytes()),
        [word, number, count] => {
            command_of_numbers(word.as_bytes(), number.as_bytes(), count.as_bytes())
        }
        [word, number, count, what] => command_to_print(
            word.as_bytes(),
            number.as_bytes(),
            count.as_bytes(),
            what.as_bytes(),
        ),
        _ => None,
    }
}
