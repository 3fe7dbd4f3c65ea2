//! Laws of the definitions, each the contract of a function that does nothing. They hold of every kind of script.

ghost use Rattle.std.specs.Prelude.{◌≡◌, ◌⊎◌, ◌↔◌, ℕ, List, [], ◌∷◌, ◌++◌, length, None, Some};
ghost use Rattle.aim_io.specs.Lines.{Outcome, outcomes_of, whole_lines};
ghost use Rattle.aim_script_reading.specs.declared.decisions.Refused.{Refused as AnyRefused};
ghost use Rattle.aim_script_reading.specs.First.{FirstDecides, IsOfTheFirst};
ghost use Rattle.aim_script_reading.specs.Rules.{Rules};
ghost use Rattle.aim_script_reading.specs.Short.{AreDecided, AreUndecided, HasNoDecision, LastNeededBy, StopsShort, script_after};
ghost use Rattle.aim_script_reading.specs.Verdicts.{IsScript, verdict};

/// A verdict is of the first line that decides: the lines before it decide nothing, and that line decides; or no line
/// decides, and the verdict is of the end of the input.
pub fn verdict_is_of_the_first_line_that_decides<L, K, M>()
    ensures { (r : Rules L K M) (bytes : List ℕ) → IsOfTheFirst r (outcomes_of bytes) (verdict r bytes) }
{}

/// There is one first line that decides at most.
pub fn one_line_decides_first<L, K, M>()
    ensures { (r : Rules L K M) (answers : List Outcome) (before other : List L) (d e : AnyRefused K M)
        (f : FirstDecides r [] answers before d) (g : FirstDecides r [] answers other e) → length f.fronts ≡ length g.fronts }
{}

/// No line before the one that decides is at fault behind those before it, and none goes past a limit.
pub fn lines_before_a_verdict_are_no_fault<L, K, M>()
    ensures { (r : Rules L K M) (bytes : List ℕ) → IsScript r (verdict r bytes).before }
{}

/// Bytes decide, where whatever stands behind them the script comes to the same, or they are undecided, where it
/// doesn't; and never both.
pub fn bytes_decide_or_do_not<L, K, M>()
    ensures one { (r : Rules L K M) (bytes : List ℕ) → AreDecided r bytes ⊎ AreUndecided r bytes }
    ensures only { (r : Rules L K M) (bytes : List ℕ) → AreDecided r bytes → AreUndecided r bytes → ⊥ }
{}

/// Bytes are undecided just where none of their whole lines decides, and no limit does: so a whole line that decides is
/// a decision, whatever stands behind it.
pub fn undecided_bytes_hold_no_decision<L, K, M>()
    ensures lines { (r : Rules L K M) (bytes : List ℕ) → AreUndecided r bytes ↔ HasNoDecision r bytes }
    ensures whole { (r : Rules L K M) (bytes : List ℕ) (h : HasNoDecision r bytes) → script_after r [] (whole_lines bytes) ≡ Some h.before }
    ensures decided { (r : Rules L K M) (bytes : List ℕ) → script_after r [] (whole_lines bytes) ≡ None → AreDecided r bytes }
{}

/// What decides, decides with more behind it; no bytes at all decide nothing.
pub fn decisions_stay<L, K, M>()
    ensures more { (r : Rules L K M) (front more : List ℕ) → AreDecided r front → AreDecided r (front ++ more) }
    ensures none { (r : Rules L K M) → AreUndecided r [] }
{}

/// A read is needed just where what stood before it is undecided: so where the bytes before a read decide, it isn't
/// made.
pub fn reads_are_needed_where_nothing_is_decided<L, K, M>()
    ensures { (r : Rules L K M) (front piece rest : List ℕ) → LastNeededBy r (Some (front ++ (piece ++ rest))) (Some rest) (Some (length piece)) ↔ AreUndecided r front }
{}

/// What is left behind a needed read, and how much it gave, tell what stood before it.
pub fn one_read_is_the_last<L, K, M>()
    ensures { (r : Rules L K M) (bytes rest : List ℕ) (n : ℕ) (x y : LastNeededBy r (Some bytes) (Some rest) (Some n)) → (x.front ≡ y.front) × (x.piece ≡ y.piece) }
{}

/// Of bytes that decide, one byte is the first with which they do: whoever reads byte after byte needs it, and no
/// further one.
pub fn one_byte_decides<L, K, M>()
    ensures { (r : Rules L K M) (bytes : List ℕ) → AreDecided r bytes →
        (front : List ℕ) × (byte : ℕ) × (rest : List ℕ) × (bytes ≡ front ++ byte ∷ rest) ×
        LastNeededBy r (Some bytes) (Some rest) (Some 1) × AreDecided r (front ++ byte ∷ []) }
{}

/// Reading stops short just where the bytes that were read are undecided.
pub fn reading_stops_short_where_nothing_is_decided<L, K, M>()
    ensures { (r : Rules L K M) (bytes rest : List ℕ) → StopsShort r (Some (bytes ++ rest)) (Some rest) ↔ AreUndecided r bytes }
{}
