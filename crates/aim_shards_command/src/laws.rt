//! What the printed text tells, as the contract of a function that does nothing.

ghost use Rattle.std.specs.Prelude.{◌≡◌, ℕ, List};
ghost use Rattle.aim_shards_command.specs.declared.lines.ShardLine.{ShardLine};
ghost use Rattle.aim_shards_command.specs.Commands.{IsReport};

/// A text that reports a run reports one: it has one history.
pub fn a_text_tells_one_run()
    ensures { (lines others : List ShardLine) (text : List ℕ) (a : IsReport lines text) (b : IsReport others text) → a.log ≡ b.log }
{}
