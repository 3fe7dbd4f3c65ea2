//! What the words of the command line ask for.

use anyhow::{Result, bail};

/// What is measured.
#[derive(Clone, Copy)]
pub enum Part {
    Text,
    Json,
    Tiles,
    Crossings,
    Book,
}

/// All that is measured, with the words for it, in the order in which it is measured.
pub const PARTS: [(&str, Part); 5] = [
    ("text", Part::Text),
    ("json", Part::Json),
    ("tiles", Part::Tiles),
    ("crossings", Part::Crossings),
    ("book", Part::Book),
];

/// What a word asks to measure.
pub fn part_of(word: &str) -> Result<Part> {
    for &(name, part) in &PARTS {
        if name == word {
            return Ok(part);
        }
    }
    bail!("no such measurement: {word}; text, json, tiles, crossings or book")
}

// The number that a word spells.
fn spelled(word: &str) -> Result<u32> {
    match word.parse::<u32>() {
        Ok(number) => Ok(number),
        Err(_) => bail!("no number below 2^32: {word}"),
    }
}

/// The number that the words ask for, if there is a word.
pub fn number(words: &[String]) -> Result<Option<u32>> {
    match words {
        [word, ..] => Ok(Some(spelled(word.as_str())?)),
        [] => Ok(None),
    }
}

/// The two numbers that the words ask for, if there is a word.
pub fn numbers(words: &[String]) -> Result<Option<(u32, u32)>> {
    match words {
        [first, second, ..] => Ok(Some((spelled(first.as_str())?, spelled(second.as_str())?))),
        [_] => bail!("a number is missing: book VEHICLES TURNS"),
        [] => Ok(None),
    }
}
