//! Laws of what agents do and of what a drive leaves, each the contract of a function that does nothing.

ghost use Rattle.std.specs.Prelude.{◌≡◌, ℕ, List, Some, None};
ghost use Rattle.aim_messages.specs.declared.entries.Entry.{Entry};
ghost use Rattle.aim_driver.specs.Fits.{Fits};
ghost use Rattle.aim_turnstile.specs.Models.{HasPass};
ghost use Rattle.aim_manager.specs.Seen.{caller_of};
ghost use Rattle.aim_manager.specs.declared.keeper.BookSetting.{BookSetting};
ghost use Rattle.aim_agents.specs.declared.agents.Trouble.TheVariants as trouble;
ghost use Rattle.aim_agents.specs.Agents.{AgentModel};
ghost use Rattle.aim_agents.specs.Went.{Went};
ghost use Rattle.aim_agents.specs.Followed.{IsNew, Followed, Halted};
ghost use Rattle.aim_agents.specs.Driven.{JournalInOrder};

/// What a new agent did, turn by turn, is what its driver follows with the fates of its links and the replies of its
/// calls. Where it came to a journal without room, the driver follows one call more.
pub fn what_agents_do_is_followed()
    ensures calm { (s : BookSetting) (first last : ℕ) (a b : AgentModel) → IsNew a → Went s first last a b → b.trouble ≡ None → Followed first last a b }
    ensures full { (s : BookSetting) (first last : ℕ) (a b : AgentModel) → IsNew a → Went s first last a b → b.trouble ≡ Some trouble.Full → Halted first last a b }
{}

/// The log of an agent without trouble fits each history that has its pass, as its vehicle's.
pub fn what_agents_do_fits()
    ensures { (s : BookSetting) (first last : ℕ) (a b : AgentModel) (h : List Entry) → IsNew a → Went s first last a b → b.trouble ≡ None → HasPass caller_of h b.pass
        → Fits h b.pass.number b.driver.log }
{}

/// Of each journal that begins with what the passes of a drive have seen and that has no other caller's entries, the
/// moments don't fall; of one moment the orders come first; and the calls of agents of one run, of one moment, stand in
/// the order of the agents.
pub fn journal_in_order()
    ensures { (s : BookSetting) → JournalInOrder s }
{}
