//! Whether spans lie where a table has cells.

ghost use Rattle.std.specs.Prelude.{◌≡◌, ◌↔◌, ◌+◌, ◌<◌, ◌≤◌, ◌^◌, All, IsTrue};
ghost use Rattle.aim_tiles.specs.Cells.{in_range};

use aim_sheets::Span;

// Whether the mask has no column from this one on.
fn is_below(mask: u64, size: usize) -> bool
    requires { size ≤ 64 }
    ensures { IsTrue result ↔ (mask < 2 ^ size) }
{
    size == 64 || mask >> size == 0
}

// Whether the span's row and columns are below the size.
fn is_tile(span: &Span, size: usize) -> bool
    requires { size ≤ 64 }
    ensures { IsTrue result ↔ ((span.now.row < size) × (span.now.mask < 2 ^ size)) }
{
    (span.row as usize) < size && is_below(span.mask, size)
}

/// Whether the rows and columns of the spans are below the size.
pub(crate) fn are_tiles(spans: &[Span], size: usize) -> bool
    requires { size ≤ 64 }
    ensures { IsTrue result ↔ All (λ span. (span.row < size) × (span.mask < 2 ^ size)) spans.now }
{
    spans.iter().all(|span| is_tile(span, size))
}

/// Whether the spans' steps are among those from now on up to the horizon.
pub(crate) fn are_ahead(spans: &[Span], now: u32, horizon: u32) -> bool
    requires now { now ≤ 1073741824 }
    requires horizon { horizon ≤ 8192 }
    ensures { IsTrue result ↔ All (λ span. IsTrue (in_range now horizon span.step)) spans.now }
{
    spans
        .iter()
        .all(|span| now <= span.step && span.step < now + horizon)
}
