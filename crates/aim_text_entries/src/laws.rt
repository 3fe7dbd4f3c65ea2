//! Laws of the texts of entries and replies: what is spelled is read again, what is read is spelled so, and no two
//! values have one spelling. Each is the contract of a function that does nothing.
ghost use Rattle.std.specs.Prelude.{◌≡◌, ℕ, List, Ok, Err};
ghost use Rattle.aim_messages.specs.declared.replies.Reply.{Reply};
ghost use Rattle.aim_messages.specs.declared.entries.Entry.{Entry};
ghost use Rattle.aim_messages.specs.Texts.{reply_text, entry_text, IsOneLine};
ghost use Rattle.aim_messages.specs.Actors.{IsCallerOf};
ghost use Rattle.aim_messages.specs.Windows.{ActHasWindow};
ghost use Rattle.aim_text_words.specs.Ranges.{Is32};
ghost use Rattle.aim_text_entries.specs.Entries.{entry_at};
ghost use Rattle.aim_text_entries.specs.Ranges.{IsReply, IsEntry};

use aim_messages::LineKind;

/// No two replies have one text.
pub fn reply_has_one_text()
    ensures { (a b : Reply) → IsReply a → IsReply b → reply_text a ≡ reply_text b → a ≡ b }
{}

/// Reading the text of an entry gives its position and the entry back, where a message that asks for a crossing has its
/// last step of arrival no earlier than its first.
pub fn entry_is_read_again()
    ensures { (position : ℕ) (entry : Entry) → Is32 position → IsEntry entry → IsCallerOf entry.caller entry.act → ActHasWindow entry.act → entry_at (entry_text position entry) ≡ Ok (position, entry) }
{}

/// Bytes that are read as an entry are its text. Its caller is `OPERATOR` where its act is an order, and a vehicle
/// below 65,536 where its act is a message, and one that asks for a crossing has its last step of arrival no earlier
/// than its first.
pub fn entry_is_spelled_so()
    ensures { (bytes : List ℕ) (position : ℕ) (entry : Entry) → entry_at bytes ≡ Ok (position, entry) → Is32 position × IsEntry entry × IsCallerOf entry.caller entry.act × ActHasWindow entry.act × (bytes ≡ entry_text position entry) }
{}

/// No two entries have one text.
pub fn entry_has_one_text()
    ensures { (i j : ℕ) (a b : Entry) → Is32 i → Is32 j → IsEntry a → IsEntry b → IsCallerOf a.caller a.act → IsCallerOf b.caller b.act → entry_text i a ≡ entry_text j b → (i ≡ j) × (a ≡ b) }
{}

/// No text has a byte 10 in it.
pub fn text_is_one_line()
    ensures reply { (reply : Reply) → IsReply reply → IsOneLine (reply_text reply) }
    ensures entry { (position : ℕ) (entry : Entry) → Is32 position → IsEntry entry → IsOneLine (entry_text position entry) }
{}

/// Bytes that spell no entry are never of the kind `Unknown`.
pub fn entry_is_never_unknown()
    ensures { (bytes : List ℕ) → entry_at bytes ≡ Err LineKind.Unknown → ⊥ }
{}
