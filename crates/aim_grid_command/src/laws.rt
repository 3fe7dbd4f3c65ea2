//! What the printed text tells, as the contract of a function that does nothing.

ghost use Rattle.std.specs.Prelude.{◌≡◌, ◌<◌, ℕ, List, Some, slice_get};
ghost use Rattle.aim_drive_command.specs.Ordered.{log_among};
ghost use Rattle.aim_grid.specs.Headline.{VehicleLog};
ghost use Rattle.aim_grid_script.specs.declared.lines.GridLine.{GridLine};
ghost use Rattle.aim_grid_script.specs.Said.{vehicles_of};
ghost use Rattle.aim_grid_command.specs.Commands.{IsReport};

/// A text that reports a run of a script's lines reports one: it has one journal of each crossing, and one log of each
/// vehicle there.
pub fn a_text_tells_one_run()
    ensures journals { (lines : List GridLine) (text : List ℕ) (a b : IsReport lines text) → a.journals ≡ b.journals }
    ensures logs { (lines : List GridLine) (text : List ℕ) (a b : IsReport lines text) (c v : ℕ) (xs ys : List VehicleLog) →
        slice_get a.logs c ≡ Some xs → slice_get b.logs c ≡ Some ys → v < vehicles_of lines → log_among v xs ≡ log_among v ys }
{}
