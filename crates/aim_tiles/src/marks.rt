//! The marks of many cells.

ghost use Rattle.std.specs.Prelude.{◌≡◌, ℕ, ◌+◌, ◌*◌, ◌<◌, ◌≤◌, ◌&&◌, ◌||◌, not, nat_le, true, length};
ghost use Rattle.aim_geometry.specs.Cells.{Cell};
ghost use Rattle.aim_sheets.specs.Spans.{AreMarked, in_span, in_spans};
ghost use Rattle.aim_tiles.specs.Cells.{in_box};
ghost use Rattle.aim_tiles.specs.Pages.{has_mark};
ghost use Rattle.aim_tiles.specs.Sheets.{AreAhead, AreTiles};

use crate::counters::Steps;
use crate::pages::Pages;
use aim_sheets::Span;
use std::sync::ledger::Ledger;

/// Marks the cells of the spans.
pub(crate) fn mark_spans<L: Ledger>(pages: &mut Pages<L>, spans: &[Span], steps: &mut Steps<L>)
    requires marked { AreMarked spans.now }
    requires tiles { AreTiles pages.old.size spans.now }
    ensures marks { (now : ℕ) → AreAhead now pages.old.horizon spans.now → (cell : Cell) → in_box pages.old.size pages.old.horizon now cell ≡ true → has_mark pages.new.words.items.items pages.old.size pages.old.horizon cell ≡ (has_mark pages.old.words.items.items pages.old.size pages.old.horizon cell || in_spans spans.now cell) }
    ensures size { pages.new.size ≡ pages.old.size }
    ensures horizon { pages.new.horizon ≡ pages.old.horizon }
    ensures cost { steps.new ≡ steps.old + length spans.now }
{
    let mut page = 0;
    let mut step = 0;
    for span in spans {
        page = pages.page_after(page, step, span.step);
        step = span.step;
        pages.mark(page + span.row as usize, span.mask, steps);
    }
}

// Takes the marks from the span's cells, if its step has a page.
#[inline]
fn unmark_span<L: Ledger>(pages: &mut Pages<L>, now: u32, span: Span, steps: &mut Steps<L>)
    requires row { span.row < pages.old.size }
    requires last { now ≤ 1073741824 }
    ensures marks { (cell : Cell) → in_box pages.old.size pages.old.horizon now cell ≡ true → has_mark pages.new.words.items.items pages.old.size pages.old.horizon cell ≡ (has_mark pages.old.words.items.items pages.old.size pages.old.horizon cell && not (in_span span cell)) }
    ensures size { pages.new.size ≡ pages.old.size }
    ensures horizon { pages.new.horizon ≡ pages.old.horizon }
    ensures cost { steps.new ≤ steps.old + 1 }
    ensures counted { steps.old ≤ steps.new }
{
    if pages.has_page(now, span.step) {
        let page = pages.page(span.step);
        pages.unmark(page + span.row as usize, span.mask, steps);
    }
}

/// Takes the marks from the cells of the spans.
pub(crate) fn unmark_spans<L: Ledger>(
    pages: &mut Pages<L>,
    now: u32,
    spans: &[Span],
    steps: &mut Steps<L>,
)
    requires marked { AreMarked spans.now }
    requires tiles { AreTiles pages.old.size spans.now }
    requires last { now ≤ 1073741824 }
    ensures marks { (cell : Cell) → in_box pages.old.size pages.old.horizon now cell ≡ true → has_mark pages.new.words.items.items pages.old.size pages.old.horizon cell ≡ (has_mark pages.old.words.items.items pages.old.size pages.old.horizon cell && not (in_spans spans.now cell)) }
    ensures size { pages.new.size ≡ pages.old.size }
    ensures horizon { pages.new.horizon ≡ pages.old.horizon }
    ensures cost { steps.new ≤ steps.old + length spans.now }
    ensures counted { steps.old ≤ steps.new }
{
    for span in spans {
        unmark_span(pages, now, *span, steps);
    }
}

/// Takes the marks from all cells of so many steps from now on.
pub(crate) fn clear_pages<L: Ledger>(
    pages: &mut Pages<L>,
    now: u32,
    leaving: u32,
    steps: &mut Steps<L>,
)
    requires few { leaving ≤ pages.old.horizon }
    requires last { now ≤ 1073741824 }
    ensures marks { (cell : Cell) → in_box pages.old.size pages.old.horizon now cell ≡ true → has_mark pages.new.words.items.items pages.old.size pages.old.horizon cell ≡ (has_mark pages.old.words.items.items pages.old.size pages.old.horizon cell && nat_le (now + leaving) cell.step) }
    ensures size { pages.new.size ≡ pages.old.size }
    ensures horizon { pages.new.horizon ≡ pages.old.horizon }
    ensures cost { steps.new ≡ steps.old + pages.old.size * leaving }
{
    for gone in 0..leaving {
        let page = pages.page(now + gone);
        pages.clear(page, steps);
    }
}
