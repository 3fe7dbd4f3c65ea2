//! The lines of scripts of claims.

ghost use Rattle.std.specs.Prelude.{◌≡◌, ◌≤◌, ◌==◌, Some, None, count_by, length, map, MatchResult};
ghost use Rattle.aim_text_words.specs.Faults.{number_fault, value_of, words_of};
ghost use Rattle.aim_text_words.specs.Reading.{unless};
ghost use Rattle.aim_shards_command.specs.Lines.{form_of, line_of, numbers_fault, numbers_of, shard_line_at};

use aim_messages::LineKind;
use aim_text_words::numbers::number as number_within;
use aim_text_words::tables::look_up;
use aim_text_words::words::Words;
use arrayvec::ArrayVec;

/// A line of a script of claims, with its numbers in their order.
#[derive(Clone, Copy)]
pub enum ShardLine {
    /// The rows and columns of the grid, the steps, and the callers.
    Shards(u32, u32, u32),
    /// The first and last row, the first and last column, and the first and last step of a set.
    Set([u32; 6]),
    /// A caller, and the number of the set that it claims.
    Claim(u32, u32),
    /// A caller, and the number of its call whose ticket it frees.
    Free(u32, u32),
    /// The end of the script.
    End,
}

/// The forms of lines.
#[derive(Clone, Copy)]
pub enum ShardForm {
    Shards,
    Set,
    Claim,
    Free,
    End,
}

// The first words of lines, and their forms.
const FORMS: [(&[u8], ShardForm); 5] = [
    (b"shards", ShardForm::Shards),
    (b"set", ShardForm::Set),
    (b"claim", ShardForm::Claim),
    (b"free", ShardForm::Free),
    (b"end", ShardForm::End),
];

// The form of a line that begins with that word.
fn form_of(word: &[u8]) -> Result<ShardForm, LineKind>
    ensures { result ≡ form_of word.now }
{
    look_up(&FORMS, LineKind::Unknown, word)
}

// How many numbers a line of the form has.
fn numbers_of(form: ShardForm) -> usize
    ensures { result ≡ numbers_of form }
{
    match form {
        ShardForm::Shards => 3,
        ShardForm::Set => 6,
        ShardForm::Claim | ShardForm::Free => 2,
        ShardForm::End => 0,
    }
}

/// The number of 32 bits that the word spells.
pub fn number(word: &[u8]) -> Result<u32, LineKind>
    ensures { result ≡ unless (value_of word.now) (number_fault 0 4294967295 word.now) }
{
    let n = number_within(word, 0, u64::from(u32::MAX))?;
    Ok(n as u32)
}

// How many spaces the line has.
fn spaces(line: &[u8]) -> usize
    ensures { result ≡ count_by (λ b. b == 32) line.now }
{
    line.iter().filter(|b| **b == b' ').count()
}

// How many words the line has.
#[tactic(auto, using(crate::proofs::Counting::words_counted))]
fn count(line: &[u8]) -> usize
    ensures { result ≡ length (words_of line.now) }
{
    spaces(line) + 1
}

// The numbers that the words spell.
fn numbers(words: &mut Words<'_>) -> Result<ArrayVec<u32, 6>, LineKind>
    requires { length words.old ≤ 6 }
    ensures { MatchResult result (λ ns. (ns.items ≡ map value_of words.old) × (numbers_fault words.old ≡ None)) (λ why. numbers_fault words.old ≡ Some why) }
{
    let mut numbers = ArrayVec::new();
    while let Some(word) = words.next() {
        numbers.push(number(word)?);
    }
    Ok(numbers)
}

// The line of the form with these numbers.
fn line_of(form: ShardForm, numbers: &[u32]) -> ShardLine
    requires { length numbers.now ≡ numbers_of form }
    ensures { result ≡ line_of form numbers.now }
{
    match form {
        ShardForm::Shards => ShardLine::Shards(numbers[0], numbers[1], numbers[2]),
        ShardForm::Set => ShardLine::Set([
            numbers[0], numbers[1], numbers[2], numbers[3], numbers[4], numbers[5],
        ]),
        ShardForm::Claim => ShardLine::Claim(numbers[0], numbers[1]),
        ShardForm::Free => ShardLine::Free(numbers[0], numbers[1]),
        ShardForm::End => ShardLine::End,
    }
}

/// Reads a line of a script of claims: the line for its one spelling, else the kind of the first of these rules that the
/// bytes break.
///
/// 1. `Unknown`: the first word is `shards`, `set`, `claim`, `free` or `end`. Words are what stands between the spaces.
/// 2. `Words`: the line has as many words as its form.
/// 3. From the left, each further word spells a number, else `Number`, which has at most 32 bits, else `Range`.
pub fn read_shard_line(line: &[u8]) -> Result<ShardLine, LineKind>
    ensures { result ≡ shard_line_at line.now }
{
    let mut words = Words::new(line);
    let Some(word) = words.next() else {
        return Err(LineKind::Unknown);
    };
    let form = form_of(word)?;
    if count(line) != numbers_of(form) + 1 {
        return Err(LineKind::Words);
    }
    let numbers = numbers(&mut words)?;
    Ok(line_of(form, &numbers))
}
