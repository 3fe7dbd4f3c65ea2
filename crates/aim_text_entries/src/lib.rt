//! Reads the entries of journals, whose types and texts `aim_messages` has.
#![tactic(auto)]

ghost use Rattle.std.specs.Prelude.{◌≡◌};
ghost use Rattle.aim_text_entries.specs.Entries.{entry_at};

mod entries;
mod forms;
pub mod laws;
mod replies;

use aim_messages::{Entry, LineKind};

/// Reads an entry and its position: both for the text of an entry whose caller is `OPERATOR` where its act is an
/// order, and a vehicle below 65,536 where its act is a message. A message that asks for a crossing has a last step of
/// arrival where a word behind its class begins with a digit, and else its first is its last. Else the first wrong word
/// from the left decides.
///
/// - `Words`: a word is missing, or stands where none or another may stand. Such are a word in the caller's place
///   and one behind `held` that are neither the one word allowed there nor begin with a digit.
/// - `Number`: a word in a number's place isn't spelled as a number.
/// - `Range`: the number is too great for its field, the caller isn't below 65,536, or the last step of arrival isn't
///   above the first.
#[tactic(auto, using(crate::proofs::EntryStepLaws::entry_is))]
pub fn read_entry(line: &[u8]) -> Result<(u32, Entry), LineKind>
    ensures { result ≡ entry_at line.now }
{
    entries::entry(line)
}
