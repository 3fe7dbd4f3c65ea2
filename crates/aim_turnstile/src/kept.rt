//! What stands under a turn.
ghost use Rattle.std.specs.Prelude.{◌≡◌, ℕ, Bool, List, [], ◌∷◌, ◌++◌, MatchBool};

/// A value that callers change one after another, each call adding at most one entry to its list.
///
/// Its list and its setting are what contracts see of it: the setting is what no call changes.
pub trait Kept: Drop {
    type Setting;

    type Entry;

    type Call;

    type Answer;

    /// What no call changes.
    ghost setting: { Self → Self.Setting };

    /// The entries so far, in order.
    ghost entries: { Self → List Self.Entry };

    /// The number of the caller whose entry it is.
    ghost caller_of: { Self.Entry → ℕ };

    /// Which lists of entries are lawful under a setting.
    ghost is_lawful: { Self.Setting → List Self.Entry → Type 0 };

    /// Whether the caller may make the call.
    ghost may_call: { Self.Setting → ℕ → Self.Call → Type 0 };

    /// What a call does: the list before it, the list after it, and its answer.
    ghost does: { Self.Setting → ℕ → Self.Call → List Self.Entry → List Self.Entry → Self.Answer → Type 0 };

    /// Whether an answer tells that an entry was made.
    ghost is_made: { Self.Answer → Bool };

    /// Makes one call, and gives the value back with the answer. It adds one entry of the caller exactly where `made`
    /// says so of the answer.
    fn apply(self, caller: u32, call: Self::Call) -> (Self, Self::Answer)
        requires may_call { may_call (setting self) caller call }
        ensures setting { setting result.0 ≡ setting self }
        ensures does { does (setting self) caller call (entries self) (entries result.0) result.1 }
        ensures entry { MatchBool (is_made result.1)
            ((e : Self.Entry) × (entries result.0 ≡ entries self ++ e ∷ []) × (caller_of e ≡ caller))
            (entries result.0 ≡ entries self) }
        ensures lawful { is_lawful (setting result.0) (entries result.0) };

    /// Whether the answer tells that an entry was made.
    fn made(answer: &Self::Answer) -> bool
        ensures { result ≡ is_made answer.now };

    /// A value with no entry is lawful.
    ghost lawful_empty: { (s : Self.Setting) → is_lawful s [] };

    /// A beginning of a lawful list is lawful.
    ghost lawful_prefix: { (s : Self.Setting) (xs ys : List Self.Entry) → is_lawful s (xs ++ ys) → is_lawful s xs };
}
