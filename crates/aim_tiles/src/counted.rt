//! Words that are counted as they are read or written.

ghost use Rattle.std.specs.Prelude.{◌≡◌, ℕ, ◌+◌, ◌^◌, ◌<◌, ◌≤◌, bit_and, bit_or, IfOk, length, slice_index, slice_range, slice_set, replicate};
ghost use Rattle.std.specs.Int.{bit_not, w64};

use crate::NoMemory;
use crate::counters::Steps;
use std::alloc::Global;
use std::marker::{Brand, PhantomData};
use std::sync::ledger::Ledger;

/// Words that belong to the ledger `L`. They can be read, marked, unmarked and cleared, and nothing else reaches them:
/// each of these calls takes the ledger's own count, which no other call can make, and counts its words.
#[derive(Drop)]
pub(crate) struct CountedWords<L: Ledger> {
    items: Vec<u64>,
    ledger: PhantomData<L>,
}

impl<L: Ledger> CountedWords<L> {
    /// So many words, all 0.
    pub(crate) fn new(alloc: Global, count: usize) -> Result<CountedWords<L>, NoMemory>
        ensures { IfOk result (λ words. words.items.items ≡ replicate count 0) }
    {
        Ok(CountedWords {
            items: vec![in alloc; 0; count]?,
            ledger: PhantomData,
        })
    }

    /// So many words from a place on.
    #[inline]
    pub(crate) fn read(&self, at: usize, count: usize, steps: &mut Steps<L>) -> &[u64]
        requires { at + count ≤ length self.now.items.items }
        ensures words { result.now ≡ slice_range self.now.items.items at (at + count) }
        ensures len { length result.now ≡ count }
        ensures cost { steps.new ≡ steps.old + count }
    {
        steps.add(count);
        &self.items[at..at + count]
    }

    /// Sets the mask's bits in one word.
    #[inline]
    pub(crate) fn mark(&mut self, at: usize, mask: u64, steps: &mut Steps<L>)
        requires { at < length self.old.items.items }
        ensures words { self.new.items.items ≡ slice_set self.old.items.items at (bit_or (slice_index self.old.items.items at) mask) }
        ensures cost { steps.new ≡ steps.old + 1 }
    {
        steps.add(1);
        self.items[at] |= mask;
    }

    /// Clears the mask's bits in one word.
    #[inline]
    pub(crate) fn unmark(&mut self, at: usize, mask: u64, steps: &mut Steps<L>)
        requires { at < length self.old.items.items }
        ensures words { self.new.items.items ≡ slice_set self.old.items.items at (bit_and (slice_index self.old.items.items at) (bit_not w64 mask)) }
        ensures fits { mask < 2 ^ 64 }
        ensures cost { steps.new ≡ steps.old + 1 }
    {
        steps.add(1);
        self.items[at] &= !mask;
    }

    /// Clears so many words from a place on.
    pub(crate) fn clear(&mut self, at: usize, count: usize, steps: &mut Steps<L>)
        requires { at + count ≤ length self.old.items.items }
        ensures within { (k : ℕ) → at ≤ k → k < at + count → slice_index self.new.items.items k ≡ 0 }
        ensures below { (k : ℕ) → k < at → slice_index self.new.items.items k ≡ slice_index self.old.items.items k }
        ensures above { (k : ℕ) → at + count ≤ k → slice_index self.new.items.items k ≡ slice_index self.old.items.items k }
        ensures len { length self.new.items.items ≡ length self.old.items.items }
        ensures cost { steps.new ≡ steps.old + count }
    {
        steps.add(count);
        self.items[at..at + count].fill(0);
    }

    /// The words without their ledger, whose count they take.
    pub(crate) fn leave(self, steps: Steps<L>) -> CountedWords<Brand>
        ensures { result.items.items ≡ self.items.items }
    {
        drop(steps);
        let CountedWords { items, ledger: _ } = self;
        CountedWords {
            items,
            ledger: PhantomData,
        }
    }
}

impl CountedWords<Brand> {
    /// The words in a ledger.
    pub(crate) fn join<L: Ledger>(self) -> CountedWords<L>
        ensures { result.items.items ≡ self.items.items }
    {
        let CountedWords { items, ledger: _ } = self;
        CountedWords {
            items,
            ledger: PhantomData,
        }
    }
}
