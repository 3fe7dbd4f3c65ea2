//! What the printed text tells, as the contract of a function that does nothing.

ghost use Rattle.std.specs.Prelude.{◌≡◌, ℕ, List};
ghost use Rattle.aim_messages.specs.declared.script.Line.{Line};
ghost use Rattle.aim_mail_command.specs.Commands.{IsReport};

/// A text that reports a run reports one: it has one journal.
pub fn a_text_tells_one_run()
    ensures { (lines others : List Line) (text : List ℕ) (a : IsReport lines text) (b : IsReport others text) → a.journal ≡ b.journal }
{}
