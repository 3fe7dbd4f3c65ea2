//! The search for a taken cell.

ghost use Rattle.std.specs.Prelude.{◌≡◌, ℕ, ◌+◌, ◌<◌, ◌≤◌, length, slice_index_or, IfNone, IfSome};
ghost use Rattle.std.specs.Option.{option_copied};
ghost use Rattle.aim_geometry.specs.Rects.{has_bit};
ghost use Rattle.aim_geometry.specs.Cells.{cell_at};
ghost use Rattle.aim_sheets.specs.Spans.{AreMarked, in_spans};
ghost use Rattle.aim_tiles.specs.Searches.{is_hit, IsClear, IsFirstHit, IsRun, spans_of};
ghost use Rattle.aim_tiles.specs.Sheets.{AreTiles};

use crate::counters::Steps;
use crate::lanes::meeting_from;
use crate::pages::Pages;
use aim_sheets::{Sheet, Span};
use std::sync::ledger::Ledger;

// Gathers the masks of the first spans, as far as they are of one step and of neighbouring rows, and
// says how many these are.
fn gather(spans: &[Span], masks: &mut [u64; 64]) -> usize
    requires some { 0 < length spans.now }
    requires few { (k : ℕ) (d : Span) → k < length spans.now → (slice_index_or spans.now k d).row < 64 }
    ensures some { 0 < result }
    ensures within { result ≤ length spans.now }
    ensures few { result ≤ 64 }
    ensures run { IsRun spans.now masks.new result }
{
    let first = spans[0];
    masks[0] = first.mask;
    let mut count = 1;
    while count < spans.len()
        && spans[count].step == first.step
        && spans[count].row as usize == first.row as usize + count
    {
        masks[count] = spans[count].mask;
        count += 1;
    }
    count
}

// The columns of the own sheet, if there is one, in a row of a step.
fn own_mask(own: Option<&Sheet>, step: u32, row: u8) -> u64
    ensures { (column : ℕ) → has_bit result column ≡ in_spans (spans_of (option_copied own.entry)) (cell_at step row column) }
{
    match own {
        Some(sheet) => sheet.mask(step, row),
        None => 0,
    }
}

// The first taken cell of a run of spans, whose masks are given.
fn first_in_run<L: Ledger>(
    pages: &Pages<L>,
    now: u32,
    run: &[Span],
    masks: &[u64],
    own: Option<&Sheet>,
    steps: &mut Steps<L>,
) -> Option<(u32, u8, u8)>
    requires some { 0 < length run.now }
    requires last { now ≤ 1073741824 }
    requires masks { length masks.now ≡ length run.now }
    requires run { IsRun run.now masks.now (length run.now) }
    requires tiles { AreTiles pages.now.size run.now }
    requires marked { AreMarked run.now }
    ensures found { IfSome result (λ r. IsFirstHit (is_hit pages.now.words.items.items pages.now.size pages.now.horizon now (spans_of (option_copied own.entry))) run.now (cell_at r.0 r.1 r.2)) }
    ensures none { IfNone result ((k : ℕ) (d : Span) → k < length run.now → IsClear (is_hit pages.now.words.items.items pages.now.size pages.now.horizon now (spans_of (option_copied own.entry))) (slice_index_or run.now k d)) }
    ensures cost { steps.new ≤ steps.old + length run.now }
    ensures counted { steps.old ≤ steps.new }
{
    let first = run[0];
    if !pages.has_page(now, first.step) {
        return None;
    }
    let words = pages.read_rows(first.step, first.row, run.len(), steps);
    let mut at = 0;
    while let Some(place) = meeting_from(masks, words, at) {
        let span = run[place];
        let hit = span.mask & words[place] & !own_mask(own, span.step, span.row);
        if hit != 0 {
            return Some((span.step, span.row, hit.trailing_zeros() as u8));
        }
        at = place + 1;
    }
    None
}

/// The first taken cell of the spans that is none of the own sheet's.
pub(crate) fn first_in_spans<L: Ledger>(
    pages: &Pages<L>,
    now: u32,
    spans: &[Span],
    own: Option<&Sheet>,
    steps: &mut Steps<L>,
) -> Option<(u32, u8, u8)>
    requires last { now ≤ 1073741824 }
    requires tiles { AreTiles pages.now.size spans.now }
    requires marked { AreMarked spans.now }
    ensures found { IfSome result (λ r. IsFirstHit (is_hit pages.now.words.items.items pages.now.size pages.now.horizon now (spans_of (option_copied own.entry))) spans.now (cell_at r.0 r.1 r.2)) }
    ensures none { IfNone result ((k : ℕ) (d : Span) → k < length spans.now → IsClear (is_hit pages.now.words.items.items pages.now.size pages.now.horizon now (spans_of (option_copied own.entry))) (slice_index_or spans.now k d)) }
    ensures cost { steps.new ≤ steps.old + length spans.now }
    ensures counted { steps.old ≤ steps.new }
{
    let mut masks = [0; 64];
    let mut at = 0;
    while at < spans.len() {
        let rest = &spans[at..];
        let count = gather(rest, &mut masks);
        let found = first_in_run(pages, now, &rest[..count], &masks[..count], own, steps);
        if found.is_some() {
            return found;
        }
        at += count;
    }
    None
}
