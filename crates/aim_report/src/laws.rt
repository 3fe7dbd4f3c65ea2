//! What the printed stays mean, and what a report tells, each as the contract of a function that does nothing.

ghost use Rattle.std.specs.Prelude.{◌≡◌, ◌≤◌, ◌↔◌, ℕ, List};
ghost use Rattle.aim_messages.specs.declared.entries.Entry.{Entry};
ghost use Rattle.aim_geometry.specs.Cells.{Cell};
ghost use Rattle.aim_layout.specs.Intersection.{Intersection};
ghost use Rattle.aim_rules.specs.Cells.{IsIn};
ghost use Rattle.aim_safety.specs.Tiles.{IsRising};
ghost use Rattle.aim_report.specs.declared.stays.Stay.{Stay};
ghost use Rattle.aim_report.specs.Apart.{AreOnOwnTiles, TilesAreApart, TilesAreOwn};
ghost use Rattle.aim_report.specs.Reports.{Logged, report};
ghost use Rattle.aim_report.specs.Stays.{AreCovering, IsLongest, stays};
ghost use Rattle.aim_report.specs.Told.{AreTold, log_in};

/// Of cells in rising order, each once, the stays are their longest runs of neighbouring steps of a tile: a cell is
/// among them exactly where a stay has it, and no stay could be longer by a step.
pub fn stays_are_the_longest_runs()
    ensures cover { (cells : List Cell) (c : Cell) → IsRising cells → (IsIn c cells ↔ AreCovering (stays cells) c) }
    ensures longest { (cells : List Cell) (s : Stay) → IsRising cells → IsIn s (stays cells) → IsLongest s cells }
{}

/// The printed tiles don't overlap: of no tile do two lines say that two vehicles' drivers are on it in one step. And each
/// is its vehicle's own: a Confirm of the vehicle has it, and no other lane's green claims it.
pub fn printed_tiles_are_apart()
    ensures apart { (i : Intersection) (h : List Entry) (logs : List Logged) → i.grid.n ≤ 64 → AreTold h logs → AreOnOwnTiles i h logs →
        TilesAreApart (report i h logs) }
    ensures own { (i : Intersection) (h : List Entry) (logs : List Logged) → i.grid.n ≤ 64 → AreTold h logs → AreOnOwnTiles i h logs →
        TilesAreOwn i h (report i h logs) }
{}

/// A report tells the journal, and the log of each vehicle: where two drives have one report, these are the same. Of a
/// vehicle without a log and of one with an empty log it tells the same, that is nothing.
pub fn a_report_tells_the_journal_and_the_logs()
    ensures journal { (i j : Intersection) (h k : List Entry) (logs others : List Logged) → AreTold h logs → AreTold k others → report i h logs ≡ report j k others → h ≡ k }
    ensures logs { (i j : Intersection) (h k : List Entry) (logs others : List Logged) (v : ℕ) → AreTold h logs → AreTold k others → report i h logs ≡ report j k others → log_in logs v ≡ log_in others v }
{}
