//! Laws of the definitions, each the contract of a function that does nothing.

ghost use Rattle.std.specs.Prelude.{◌≡◌, ◌≤◌, ℕ, List};
ghost use Rattle.aim_script.specs.declared.decisions.Kind.{Kind};
ghost use Rattle.aim_script.specs.declared.decisions.Limit.{Limit};
ghost use Rattle.aim_script.specs.Decided.{kind_text, limit_text};
ghost use Rattle.aim_text_session.specs.Numbers.{fault_number, limit_number};
ghost use Rattle.aim_text_session.specs.Words.{word_of};

/// The word of a fault's number is the one that a replay prints of the fault, and so it is of a limit, for all that a line of a
/// session can have.
pub fn fault_words_are_those_of_scripts()
    ensures fault { (k : Kind) → fault_number k ≤ 22 → word_of (fault_number k) ≡ kind_text k }
    ensures limit { (l : Limit) → limit_number l ≤ 22 → word_of (limit_number l) ≡ limit_text l }
{}

/// No two faults, no two limits, and no fault and limit have one number.
pub fn numbers_tell_faults_apart()
    ensures fault { (j k : Kind) → fault_number j ≡ fault_number k → j ≡ k }
    ensures limit { (l m : Limit) → limit_number l ≡ limit_number m → l ≡ m }
    ensures apart { (k : Kind) (l : Limit) → fault_number k ≡ limit_number l → ⊥ }
{}
