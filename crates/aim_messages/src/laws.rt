//! Laws of messages and callers: which messages are the same, and who may act. Each is the contract of a function that
//! does nothing.
ghost use Rattle.std.specs.Prelude.{◌≡◌, ◌↔◌, ℕ, true};
ghost use Rattle.aim_messages.specs.declared.messages.Message.{Message};
ghost use Rattle.aim_messages.specs.Same.{same_message};
ghost use Rattle.aim_messages.specs.declared.entries.Act.{Act};
ghost use Rattle.aim_messages.specs.Actors.{IsCallerOf, IsOrder};

use crate::entries::OPERATOR;

/// Two messages are the same exactly where the test of the definitions says so.
pub fn same_messages_are_equal()
    ensures { (m n : Message) → (same_message m n ≡ true ↔ m ≡ n) }
{}

/// A caller that may act is `OPERATOR` exactly where the act is an order.
pub fn operator_gives_orders()
    ensures { (caller : ℕ) (act : Act) → IsCallerOf caller act → (caller ≡ OPERATOR ↔ IsOrder act) }
{}
