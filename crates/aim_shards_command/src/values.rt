//! Which values the entries of a history have: those of their types. Each call does nothing.

ghost use Rattle.std.specs.Prelude.{All};
ghost use Rattle.aim_text_words.specs.Ranges.{Is32};
ghost use Rattle.aim_shards_command.specs.Told.{AreTold, IsAct, IsTold};

use aim_shards::{ClaimAct, ClaimEntry};

fn number_fits(number: u32)
    ensures { Is32 number }
{}

fn act_fits(act: &ClaimAct)
    ensures { IsAct act.now }
{
    match act {
        ClaimAct::Claim(set) => number_fits(*set),
        ClaimAct::Free(ticket) => number_fits(*ticket),
    }
}

fn entry_fits(entry: &ClaimEntry)
    ensures { IsTold entry.now }
{
    number_fits(entry.ticket);
    number_fits(entry.caller);
    act_fits(&entry.act);
}

/// Each entry of the history has the values of its types.
pub fn entries_fit(log: &[ClaimEntry])
    ensures { AreTold log.now }
{
    for entry in log {
        entry_fits(entry);
    }
}
