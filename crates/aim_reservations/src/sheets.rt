//! The steps of a sheet's cells.

ghost use Rattle.std.specs.Prelude.{◌≡◌, ◌↔◌, IsTrue};
ghost use Rattle.aim_reservations.specs.SpanSteps.{IsFirstStep, Reaches};

use aim_sheets::Sheet;

/// Whether some cell of the sheet is of the step or of a later one.
pub fn reaches(sheet: &Sheet, step: u32) -> bool
    ensures { IsTrue result ↔ Reaches sheet.now.spans step }
{
    match sheet.spans().last() {
        Some(span) => span.step >= step,
        None => false,
    }
}

/// The least step of the sheet's cells, or 0 where it has none.
pub fn first_step(sheet: &Sheet) -> u32
    ensures { IsFirstStep sheet.now.spans result }
{
    match sheet.spans().first() {
        Some(span) => span.step,
        None => 0,
    }
}
