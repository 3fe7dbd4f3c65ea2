//! A law of the definitions, the contract of a function that does nothing.

ghost use Rattle.std.specs.Prelude.{List};
ghost use Rattle.aim_messages.specs.declared.script.Line.{Line};
ghost use Rattle.aim_mail_script.specs.Replayed.{AreReplayed};
ghost use Rattle.aim_mail_script.specs.Scripts.{AreEvents};

/// The lines of a whole script of events could be replayed as they are, and none of them is an order.
pub fn events_could_be_replayed()
    ensures { (lines : List Line) → AreEvents lines → AreReplayed lines }
{}
