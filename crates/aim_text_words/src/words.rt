// The words of a text, one after the other.
ghost use Rattle.std.specs.Prelude.{◌≡◌, ◌≢◌, ◌<◌, ◌≤◌, ◌-◌, ℕ, [], ◌∷◌, length, slice_index, MatchOption, MatchResult};
ghost use Rattle.aim_text_words.specs.Faults.{words_of, first, rest, word_at, just};
ghost use Rattle.aim_text_words.specs.Steps.{Gives, read_in, nothing, end_in, word_in};
ghost use Rattle.aim_messages.specs.declared.script.LineKind.{LineKind};

use aim_messages::LineKind;
use std::marker::Model;

// The place of the first space, or the length where there is none.
#[inline]
fn space(bytes: &[u8]) -> usize
    ensures within { result ≤ length bytes.now }
    ensures before { (k : ℕ) → k < result → slice_index bytes.now k ≢ 32 }
    ensures found { result < length bytes.now → slice_index bytes.now result ≡ 32 }
{
    for (i, b) in bytes.iter().enumerate() {
        if *b == b' ' {
            return i;
        }
    }
    bytes.len()
}

/// The words that are still to be read. They are split at each space.
#[derive(Drop)]
pub struct Words<'a> {
    // What is left, where a word is left.
    left: Option<&'a [u8]>,
}

impl<'a> Model for Words<'a> {
    ghost use Rattle.std.specs.Prelude.{List, ℕ};

    ghost Value = { List (List ℕ) };

    ghost use Rattle.aim_text_words.specs.Steps.{words_left};

    ghost view = { λ w. words_left w.left };
}

impl<'a> Words<'a> {
    /// All words of a text.
    pub fn new(text: &'a [u8]) -> Words<'a>
        ensures { result ≡ words_of text.now }
    {
        Words { left: Some(text) }
    }

    /// The next word, where one is left.
    pub fn next(&mut self) -> Option<&'a [u8]>
        ensures { MatchOption result ((self.old ≡ []) × (self.new ≡ [])) (λ word. self.old ≡ word.now ∷ self.new) }
    {
        let bytes = self.left?;
        let i = space(bytes);
        if i < bytes.len() {
            self.left = Some(&bytes[i + 1..]);
            Some(&bytes[..i])
        } else {
            self.left = None;
            Some(bytes)
        }
    }

    /// The next word, which is not to be missing.
    pub fn word(&mut self) -> Result<&'a [u8], LineKind>
        ensures { MatchResult result (λ word. self.old ≡ word.now ∷ self.new) (λ kind. (self.old ≡ []) × (kind ≡ LineKind.Words)) }
    {
        self.next().ok_or(LineKind::Words)
    }

    /// Passes a word that is to be this one.
    #[tactic(auto, unfolding(crate::specs::Steps::read_in))]
    pub fn keyword(&mut self, keyword: &[u8]) -> Result<(), LineKind>
        ensures { Gives result self.new (read_in (just keyword.now) nothing self.old) }
    {
        if self.word()? == keyword {
            Ok(())
        } else {
            Err(LineKind::Words)
        }
    }

    /// Whether no word is left, as it is to be.
    #[tactic(auto, unfolding(crate::specs::Steps::end_in))]
    pub fn end(&mut self) -> Result<(), LineKind>
        ensures { result ≡ end_in self.old }
    {
        match self.next() {
            None => Ok(()),
            Some(_) => Err(LineKind::Words),
        }
    }

    /// The next word, or the empty one where none is left.
    pub fn take(&mut self) -> &'a [u8]
        ensures word { result.now ≡ first self.old }
        ensures left { self.new ≡ rest self.old }
    {
        match self.next() {
            Some(word) => word,
            None => b"",
        }
    }

    /// The word that stands so many words ahead, or the empty one where none stands there. No word is passed.
    pub fn ahead(&self, count: usize) -> &'a [u8]
        ensures { result.now ≡ word_at self.now count }
    {
        let mut words = Words { left: self.left };
        for _ in 0..count {
            words.take();
        }
        words.take()
    }
}
