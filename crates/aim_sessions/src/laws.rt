//! Laws of sessions, calls, distances and histories. Each is the contract of a function that does nothing.

ghost use Rattle.std.specs.Prelude.{◌≡◌, ℕ, ◌<◌, ◌||◌, true, false, List, [], ◌∷◌, ◌++◌, length, Option, None, Some, replicate, slice_index_or, slice_set};
ghost use Rattle.std.specs.List.{list_any};
ghost use Rattle.aim_messages.specs.declared.entries.Act.{Act};
ghost use Rattle.aim_messages.specs.declared.entries.Entry.{Entry};
ghost use Rattle.aim_messages.specs.declared.messages.Message.{Message};
ghost use Rattle.aim_messages.specs.declared.replies.Reason.{Reason};
ghost use Rattle.aim_messages.specs.declared.replies.Reply.{Reply};
ghost use Rattle.aim_messages.specs.declared.messages.Params.{Params};
ghost use Rattle.aim_layout.specs.Intersection.{Intersection};
ghost use Rattle.aim_rules.specs.Answer.{answer};
ghost use Rattle.aim_rules.specs.Approach.{calling, is_coming, others_come};
ghost use Rattle.aim_rules.specs.Asking.{standing_next};
ghost use Rattle.aim_rules.specs.History.{Fresh, fresh, is_fresh, now_of, params_of};
ghost use Rattle.aim_rules.specs.Holds.{holds};
ghost use Rattle.aim_rules.specs.Kept.{are_below};
ghost use Rattle.aim_sessions.specs.declared.sessions.Look.{Look};
ghost use Rattle.aim_sessions.specs.declared.sessions.Session.{Session};
ghost use Rattle.aim_sessions.specs.Kept.{AreSessions, no_session, session_after};
ghost use Rattle.aim_sessions.specs.Looks.{is_fresh_look, look_of};
ghost use Rattle.aim_sessions.specs.Calls.{AreCalls, call_of, is_call_in};
ghost use Rattle.aim_sessions.specs.Distances.{AreDistances, distances_next};

/// Sessions that go on with each fresh message are those of the history.
pub fn sessions_are_those_of_the_history()
    ensures none { (vehicles : ℕ) → AreSessions (replicate vehicles no_session) [] }
    ensures fresh { (rows : List Session) (h : List Entry) (e : Entry) (m : Message) → AreSessions rows (fresh h) → e.caller < length rows → e.act ≡ Act.Message m →
        is_fresh h e ≡ is_fresh_look (look_of (slice_index_or rows e.caller no_session).last m) }
    ensures more { (rows : List Session) (h : List Entry) (e : Entry) (m : Message) → AreSessions rows (fresh h) → e.caller < length rows → e.act ≡ Act.Message m →
        look_of (slice_index_or rows e.caller no_session).last m ≡ Look.Fresh →
        AreSessions (slice_set rows e.caller (session_after m e.reply (slice_index_or rows e.caller no_session).next)) (fresh (h ++ e ∷ [])) }
    ensures same { (rows : List Session) (h : List Entry) (e : Entry) → is_fresh h e ≡ false → AreSessions rows (fresh h) → AreSessions rows (fresh (h ++ e ∷ [])) }
{}

/// The answers to a number that is not above the vehicle's greatest, over any history, legal or not.
pub fn answers_by_the_look()
    ensures stale { (i : Intersection) (rows : List Session) (h : List Entry) (v moment last : ℕ) (m : Message) → AreSessions rows (fresh h) → v < length rows →
        look_of (slice_index_or rows v no_session).last m ≡ Look.Stale last → answer i h v moment (Act.Message m) ≡ Reply.Stale last }
    ensures repeat { (i : Intersection) (rows : List Session) (h : List Entry) (v moment : ℕ) (m : Message) (reply : Reply) → AreSessions rows (fresh h) → v < length rows →
        look_of (slice_index_or rows v no_session).last m ≡ Look.Repeat reply → answer i h v moment (Act.Message m) ≡ reply }
    ensures reused { (i : Intersection) (rows : List Session) (h : List Entry) (v moment : ℕ) (m : Message) → AreSessions rows (fresh h) → v < length rows →
        look_of (slice_index_or rows v no_session).last m ≡ Look.Reused →
        answer i h v moment (Act.Message m) ≡ Reply.Reject (Reason.Reused m.seq) (standing_next (fresh h) v) (holds i (fresh h) v (now_of h moment)) }
{}

/// Calls that go on with each fresh message are those of the history.
pub fn calls_are_those_of_the_history()
    ensures none { (i : Intersection) (vehicles : ℕ) → AreCalls i (replicate vehicles None) [] }
    ensures more { (i : Intersection) (calls : List (Option (ℕ × ℕ))) (h : List Entry) (e : Entry) (m : Message) → AreCalls i calls (fresh h) → e.caller < length calls →
        is_fresh h e ≡ true → e.act ≡ Act.Message m → AreCalls i (slice_set calls e.caller (call_of i (calling i e.reply (params_of m.body)))) (fresh (h ++ e ∷ [])) }
    ensures same { (i : Intersection) (calls : List (Option (ℕ × ℕ))) (h : List Entry) (e : Entry) → is_fresh h e ≡ false → AreCalls i calls (fresh h) → AreCalls i calls (fresh (h ++ e ∷ [])) }
{}

/// The lanes of the calls, that of the message at hand noted, are those in which an emergency approaches.
pub fn lanes_are_those_approached()
    ensures { (i : Intersection) (calls : List (Option (ℕ × ℕ))) (xs : List Fresh) (v : ℕ) (p : Params) (now lane : ℕ) → AreCalls i calls xs → are_below (length calls) xs ≡ true → v < length calls →
        list_any (is_call_in now i.times.horizon lane) (slice_set calls v (call_of i (Some p))) ≡ (is_coming i now lane (Some p) || others_come i xs v now lane) }
{}

/// Distances that go on with each fresh message are the reservation distances of the history.
pub fn distances_are_those_of_the_history()
    ensures none { AreDistances (replicate 16 None) [] }
    ensures more { (ds : List (Option ℕ)) (xs : List Fresh) (x : Fresh) → length ds ≡ 16 → AreDistances ds xs → AreDistances (distances_next ds x) (xs ++ x ∷ []) }
    ensures entry { (ds : List (Option ℕ)) (h : List Entry) (e : Entry) → length ds ≡ 16 → is_fresh h e ≡ true → AreDistances ds (fresh h) →
        AreDistances (distances_next ds (record { place = length h; now = now_of h e.moment; entry = e })) (fresh (h ++ e ∷ [])) }
    ensures same { (ds : List (Option ℕ)) (h : List Entry) (e : Entry) → is_fresh h e ≡ false → AreDistances ds (fresh h) → AreDistances ds (fresh (h ++ e ∷ [])) }
{}
