// Numbers as they are spelled: digits, and no 0 before others.
ghost use Rattle.std.specs.Prelude.{◌≡◌, ◌≤◌, ◌&&◌, ◌+◌, ◌-◌, ◌*◌, None, Some, Ok, Err, if◌then◌else◌, nat_lt, true};
ghost use Rattle.std.specs.List.{list_all};
ghost use Rattle.aim_text_words.specs.Faults.{is_digit, is_number, begins_with_digit, value_of, number_fault};
ghost use Rattle.aim_text_words.specs.Reading.{unless};
ghost use Rattle.aim_messages.specs.declared.script.LineKind.{LineKind};

use aim_messages::LineKind;

#[inline]
fn is_digit(b: u8) -> bool
    ensures { result ≡ is_digit b }
{
    b.is_ascii_digit()
}

/// Whether the word begins with a digit.
pub fn begins_with_digit(word: &[u8]) -> bool
    ensures { result ≡ begins_with_digit word.now }
{
    match word {
        [b, ..] => is_digit(*b),
        [] => false,
    }
}

fn are_digits(word: &[u8]) -> bool
    ensures { result ≡ list_all is_digit word.now }
{
    word.iter().all(|b| is_digit(*b))
}

// Whether the word begins as a number does: with a byte, and with no 0 before others.
fn has_lead(word: &[u8]) -> bool
    ensures { is_number word.now ≡ (result && list_all is_digit word.now) }
{
    !matches!(word, [] | [b'0', _, ..])
}

// The number with a digit behind it, where it is below 2^64.
fn with_digit(value: u64, digit: u8) -> Option<u64>
    requires { is_digit digit ≡ true }
    ensures { result ≡ (if nat_lt 18446744073709551615 (10 * value + (digit - 48)) then None else Some (10 * value + (digit - 48))) }
{
    value.checked_mul(10)?.checked_add(u64::from(digit - b'0'))
}

// The number that the digits write, where it is at most `high`. It looks at each byte once.
#[tactic(auto, using(crate::proofs::NumberLaws::value_grows))]
fn value_up_to(word: &[u8], high: u64) -> Result<u64, LineKind>
    ensures { result ≡ (if list_all is_digit word.now then (if nat_lt high (value_of word.now) then Err LineKind.Range else Ok (value_of word.now)) else Err LineKind.Number) }
{
    let mut value = 0u64;
    let mut digits = word;
    while let [b, rest @ ..] = digits {
        if !is_digit(*b) {
            return Err(LineKind::Number);
        }
        let Some(next) = with_digit(value, *b) else {
            return too_great(rest);
        };
        value = next;
        digits = rest;
    }
    if value <= high {
        Ok(value)
    } else {
        Err(LineKind::Range)
    }
}

// What is wrong with a word that goes on with these bytes behind digits of too great a number.
fn too_great(rest: &[u8]) -> Result<u64, LineKind>
    ensures { result ≡ (if list_all is_digit rest.now then Err LineKind.Range else Err LineKind.Number) }
{
    if are_digits(rest) {
        Err(LineKind::Range)
    } else {
        Err(LineKind::Number)
    }
}

/// The number that the word spells, from `low` to `high`.
pub fn number(word: &[u8], low: u64, high: u64) -> Result<u64, LineKind>
    ensures { result ≡ unless (value_of word.now) (number_fault low high word.now) }
{
    if !has_lead(word) {
        return Err(LineKind::Number);
    }
    match value_up_to(word, high) {
        Ok(n) if n < low => Err(LineKind::Range),
        read => read,
    }
}
