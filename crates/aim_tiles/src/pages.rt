//! A ring of pages of words.

ghost use Rattle.std.specs.Prelude.{◌≡◌, ℕ, ◌+◌, ◌*◌, ◌%◌, ◌^◌, ◌<◌, ◌≤◌, bit_and, bit_or, IfOk, length, slice_index, slice_range, slice_set, replicate, vec_len};
ghost use Rattle.std.specs.Int.{bit_not, w64};
ghost use Rattle.aim_tiles.specs.Cells.{in_range};

use crate::NoMemory;
use crate::counted::CountedWords;
use crate::counters::Steps;
use std::alloc::Global;
use std::marker::Brand;
use std::sync::ledger::Ledger;

/// As many pages as the horizon has steps, each of one word for each row. They belong to the ledger `L`.
///
/// The words count whoever reads or writes them.
#[derive(Drop)]
pub(crate) struct Pages<L: Ledger> {
    words: CountedWords<L>,
    size: usize,
    horizon: u32,
    pub(crate) ghost whole: { length words.items.items ≡ horizon * size },
    pub(crate) ghost some: { 0 < size },
    pub(crate) ghost few: { size ≤ 64 },
    pub(crate) ghost ahead: { 0 < horizon },
    pub(crate) ghost near: { horizon ≤ 8192 },
}

impl<L: Ledger> Pages<L> {
    pub(crate) fn new(alloc: Global, size: u32, horizon: u32) -> Result<Pages<L>, NoMemory>
        requires some { 0 < size }
        requires few { size ≤ 64 }
        requires ahead { 0 < horizon }
        requires near { horizon ≤ 8192 }
        ensures { IfOk result (λ pages. (pages.words.items.items ≡ replicate (horizon * size) 0) × (pages.size ≡ size) × (pages.horizon ≡ horizon)) }
    {
        Ok(Pages {
            words: CountedWords::new(alloc, (horizon * size) as usize)?,
            size: size as usize,
            horizon,
        })
    }

    /// How many words a page has.
    pub(crate) fn size(&self) -> usize
        ensures size { result ≡ self.now.size }
        ensures few { result ≤ 64 }
    {
        self.size
    }

    /// How many steps have a page.
    pub(crate) fn horizon(&self) -> u32
        ensures horizon { result ≡ self.now.horizon }
        ensures near { result ≤ 8192 }
    {
        self.horizon
    }

    /// Whether the step is one of those from now on that have a page.
    #[inline]
    pub(crate) fn has_page(&self, now: u32, step: u32) -> bool
        requires { now ≤ 1073741824 }
        ensures { result ≡ in_range now self.now.horizon step }
    {
        now <= step && step < now + self.horizon
    }

    /// Where the page of a step begins.
    #[inline]
    pub(crate) fn page(&self, step: u32) -> usize
        ensures place { result ≡ step % self.now.horizon * self.now.size }
        ensures within { result + self.now.size ≤ length self.now.words.items.items }
    {
        (step % self.horizon) as usize * self.size
    }

    /// Where the page of a step begins, where that of the step before it in a list is known.
    #[inline]
    pub(crate) fn page_after(&self, page: usize, before: u32, step: u32) -> usize
        requires { page ≡ before % self.now.horizon * self.now.size }
        ensures place { result ≡ step % self.now.horizon * self.now.size }
        ensures within { result + self.now.size ≤ length self.now.words.items.items }
    {
        if step == before {
            page
        } else {
            self.page(step)
        }
    }

    /// The words of so many rows from a place on.
    #[inline]
    pub(crate) fn read(&self, at: usize, count: usize, steps: &mut Steps<L>) -> &[u64]
        requires { at + count ≤ length self.now.words.items.items }
        ensures words { result.now ≡ slice_range self.now.words.items.items at (at + count) }
        ensures len { length result.now ≡ count }
        ensures cost { steps.new ≡ steps.old + count }
    {
        self.words.read(at, count, steps)
    }

    /// The words of so many rows of a step, from one row on.
    #[inline]
    pub(crate) fn read_rows(&self, step: u32, row: u8, count: usize, steps: &mut Steps<L>) -> &[u64]
        requires { row + count ≤ self.now.size }
        ensures words { result.now ≡ slice_range self.now.words.items.items (step % self.now.horizon * self.now.size + row) (step % self.now.horizon * self.now.size + row + count) }
        ensures len { length result.now ≡ count }
        ensures cost { steps.new ≡ steps.old + count }
    {
        self.read(self.page(step) + row as usize, count, steps)
    }

    /// Sets the mask's bits in one word.
    #[inline]
    pub(crate) fn mark(&mut self, at: usize, mask: u64, steps: &mut Steps<L>)
        requires { at < length self.old.words.items.items }
        ensures words { self.new.words.items.items ≡ slice_set self.old.words.items.items at (bit_or (slice_index self.old.words.items.items at) mask) }
        ensures size { self.new.size ≡ self.old.size }
        ensures horizon { self.new.horizon ≡ self.old.horizon }
        ensures cost { steps.new ≡ steps.old + 1 }
    {
        self.words.mark(at, mask, steps);
    }

    /// Clears the mask's bits in one word.
    #[inline]
    pub(crate) fn unmark(&mut self, at: usize, mask: u64, steps: &mut Steps<L>)
        requires { at < length self.old.words.items.items }
        ensures words { self.new.words.items.items ≡ slice_set self.old.words.items.items at (bit_and (slice_index self.old.words.items.items at) (bit_not w64 mask)) }
        ensures fits { mask < 2 ^ 64 }
        ensures size { self.new.size ≡ self.old.size }
        ensures horizon { self.new.horizon ≡ self.old.horizon }
        ensures cost { steps.new ≡ steps.old + 1 }
    {
        self.words.unmark(at, mask, steps);
    }

    /// Clears the page that begins at a place.
    pub(crate) fn clear(&mut self, page: usize, steps: &mut Steps<L>)
        requires { page + self.old.size ≤ length self.old.words.items.items }
        ensures page { (k : ℕ) → page ≤ k → k < page + self.old.size → slice_index self.new.words.items.items k ≡ 0 }
        ensures below { (k : ℕ) → k < page → slice_index self.new.words.items.items k ≡ slice_index self.old.words.items.items k }
        ensures above { (k : ℕ) → page + self.old.size ≤ k → slice_index self.new.words.items.items k ≡ slice_index self.old.words.items.items k }
        ensures size { self.new.size ≡ self.old.size }
        ensures horizon { self.new.horizon ≡ self.old.horizon }
        ensures cost { steps.new ≡ steps.old + self.old.size }
    {
        self.words.clear(page, self.size, steps);
    }
}

impl<L: Ledger> Pages<L> {
    /// The pages without their ledger, whose count they take.
    pub(crate) fn leave(self, steps: Steps<L>) -> Pages<Brand>
        ensures words { result.words.items.items ≡ self.words.items.items }
        ensures size { result.size ≡ self.size }
        ensures horizon { result.horizon ≡ self.horizon }
    {
        let Pages {
            words,
            size,
            horizon,
        } = self;
        Pages {
            words: words.leave(steps),
            size,
            horizon,
        }
    }
}

impl Pages<Brand> {
    /// The pages in a ledger.
    pub(crate) fn join<L: Ledger>(self) -> Pages<L>
        ensures words { result.words.items.items ≡ self.words.items.items }
        ensures size { result.size ≡ self.size }
        ensures horizon { result.horizon ≡ self.horizon }
    {
        let Pages {
            words,
            size,
            horizon,
        } = self;
        Pages {
            words: words.join(),
            size,
            horizon,
        }
    }
}
