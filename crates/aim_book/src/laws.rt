//! The law of how many sheets a book keeps: it is a question about the vehicle's own entries alone.

ghost use Rattle.std.specs.Prelude.{◌≡◌, ℕ, List, [], ◌∷◌, ◌++◌};
ghost use Rattle.aim_messages.specs.declared.entries.Entry.{Entry};
ghost use Rattle.aim_book.specs.Sheets.{own, sheets_kept};

/// How many sheets are kept for a vehicle is told by the entries of that vehicle, over any history: none by the empty one,
/// as many as before by an entry of another caller, and as many by the vehicle's own entries as by all.
pub fn sheets_are_those_of_own_entries()
    ensures none { (v : ℕ) → sheets_kept v [] ≡ 0 }
    ensures other { (v : ℕ) (h : List Entry) (e : Entry) → (e.caller ≡ v → ⊥) → sheets_kept v (h ++ e ∷ []) ≡ sheets_kept v h }
    ensures own { (v : ℕ) (h : List Entry) → sheets_kept v (own v h) ≡ sheets_kept v h }
{}
