//! What the promises of reading say, each as the contract of a function that does nothing.

ghost use Rattle.std.specs.Prelude.{ℕ, List, ◌++◌, length, Some};
ghost use Rattle.aim_messages.specs.declared.script.Line.{Line};
ghost use Rattle.aim_io.specs.Lines.{whole_lines};
ghost use Rattle.aim_script.specs.Spellings.{Spelled};
ghost use Rattle.aim_replay_command.specs.Replays.{AreWhole, LastNeededBy, StopsShortBy, WroteEntriesOf};

/// Where the last read was needed, what stood before it decides nothing: none of its whole lines decides, and none goes
/// past a limit. So where the bytes before a read decide, that read isn't made.
pub fn what_stood_before_a_needed_read_decides_nothing()
    ensures { (w : Spelled) (front piece rest : List ℕ) →
        LastNeededBy w (Some (front ++ (piece ++ rest))) (Some rest) (Some (length piece)) →
        (before : List Line) × AreWhole w.reads (whole_lines front) before }
{}

/// Where the source fails, what was read decides nothing, and the lines of the entries of its whole lines are written.
pub fn what_is_read_of_a_source_that_fails_decides_nothing()
    ensures { (w : Spelled) (bytes rest old new : List ℕ) →
        StopsShortBy w (Some (bytes ++ rest)) (Some rest) (Some old) (Some new) →
        (before : List Line) × AreWhole w.reads (whole_lines bytes) before × WroteEntriesOf w before old new }
{}
