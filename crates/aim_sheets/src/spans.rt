//! Tiles of one row in one step.

ghost use Rattle.std.specs.Prelude.{◌≡◌};
ghost use Rattle.aim_sheets.specs.Spans.{is_at, precedes};

/// Some tiles of a row in a step: column `c` where bit `c` of the mask is set.
#[derive(Clone, Copy, PartialEq, Eq)]
pub struct Span {
    pub step: u32,
    pub row: u8,
    pub mask: u64,
}

impl Span {
    /// Whether the span is of this step and row.
    pub(crate) fn is_at(&self, step: u32, row: u8) -> bool
        ensures { result ≡ is_at self.now step row }
    {
        self.step == step && self.row == row
    }

    /// Whether the span is of an earlier step, or of a lower row of the same step.
    pub(crate) fn precedes(&self, step: u32, row: u8) -> bool
        ensures { result ≡ precedes self.now step row }
    {
        self.step < step || self.step == step && self.row < row
    }
}
