//! Laws of links and of drivers, each the contract of a function that does nothing.

ghost use Rattle.std.specs.Prelude.{◌≡◌, ◌↔◌, ℕ, Some, None, ◌+◌, ◌-◌, ◌<◌, ◌≤◌, false, true, List, [], ◌∷◌, ◌++◌, length, reverse};
ghost use Rattle.aim_driver.specs.Links.{LinkModel, next_place, IsNext, NoneComes};
ghost use Rattle.aim_messages.specs.declared.entries.Entry.{Entry};
ghost use Rattle.aim_driver.specs.declared.plans.DrivePlan.{DrivePlan};
ghost use Rattle.aim_driver.specs.declared.links.Fate.{Fate};
ghost use Rattle.aim_messages.specs.declared.replies.Reply.{Reply};
ghost use Rattle.aim_driver.specs.Follows.{turns, course, follows_from, follows};
ghost use Rattle.aim_driver.specs.declared.logs.LogItem.{LogItem};
ghost use Rattle.aim_messages.specs.declared.messages.Body.TheVariants as body;
ghost use Rattle.aim_driver.specs.declared.logs.Entrance.{Entrance};
ghost use Rattle.aim_driver.specs.declared.logs.LogItem.TheVariants as item;
ghost use Rattle.aim_driver.specs.declared.logs.Window.{Window};
ghost use Rattle.aim_driver.specs.Logs.{Crossing, active, granted, has_stopped, latest};
ghost use Rattle.aim_driver.specs.Keeps.{is_over, keeps};
ghost use Rattle.aim_driver.specs.Rules.{entrance, is_done_sent, is_open, number, sendings};
ghost use Rattle.aim_driver.specs.Turns.{State, begun, hears_all};
ghost use Rattle.aim_driver.specs.Fits.{AreCallsOf, replies_of, HasReply, Fits};
ghost use Rattle.aim_driver.specs.Progress.{Progress, HasCome, progress, progress_in};
ghost use Rattle.aim_driver.specs.Crossings.{crossing_of, first_entrance, CrossesAsGranted};

/// What a link delivers next is the one thing that comes first, by the step at which it comes and then by the order of
/// sending.
pub fn next_comes_first<T>()
    ensures { (l : LinkModel T) (step place : ℕ) → (next_place l step ≡ Some place ↔ IsNext T l step place) }
{}

/// A link delivers nothing exactly where nothing comes at that step or before it.
pub fn nothing_comes<T>()
    ensures { (l : LinkModel T) (step : ℕ) → (next_place l step ≡ None ↔ NoneComes T l step) }
{}

/// The log that a driver follows fits every history in which the vehicle's entries carry the calls that it follows,
/// where the replies of these entries are the replies of its calls.
pub fn what_follows_fits()
    ensures { (plan : DrivePlan) (up down : List Fate) (first until : ℕ) (h : List Entry) (v : ℕ) →
        let f = follows_from plan up down first until (replies_of h v) in
        AreCallsOf f.1 h v → Fits h v f.0 }
{}

/// In a log that keeps the rules the driver entered at most once.
pub fn enters_once()
    ensures { (log : List LogItem) → keeps log ≡ true → first_entrance log ≡ entrance (reverse log) }
{}

/// Where a log keeps the rules and fits a history as vehicle v's, and the driver entered, it crosses as the history
/// granted: v has an entry there whose reply tells that the reservation is held, one that confirms it with a window in
/// which the driver entered, and all messages of a greater number than the first are DONE, sent past the last step of
/// the crossing.
pub fn crosses_as_granted()
    ensures { (h : List Entry) (v : ℕ) (log : List LogItem) (c : Crossing) →
        keeps log ≡ true → Fits h v log → crossing_of log ≡ Some c → CrossesAsGranted (HasReply h v) log c }
{}

/// What a driver follows doesn't depend on the step at which its turns begin, as long as that is not past its plan's
/// first step.
pub fn turns_may_begin_later()
    ensures { (plan : DrivePlan) (up down : List Fate) (first until : ℕ) (replies : List Reply) →
        first ≤ plan.first → first ≤ until → follows_from plan up down first until replies ≡ follows plan up down until replies }
{}

/// The turns of some steps and then those of the steps behind them are the turns of all of these.
pub fn turns_go_on()
    ensures { (plan : DrivePlan) (up down : List Fate) (first mid until : ℕ) (replies : List Reply) →
        first ≤ mid → mid ≤ until → course plan up down first until replies ≡ turns plan mid (until - mid) (course plan up down first mid replies) }
{}

/// The log that a driver follows keeps the rules, whatever becomes of its messages and whatever the replies are.
pub fn what_follows_keeps_the_rules()
    ensures { (plan : DrivePlan) (up down : List Fate) (first until : ℕ) (replies : List Reply) →
        plan.lead ≤ 65536 → keeps (follows_from plan up down first until replies).0 ≡ true }
{}

/// A driver follows at most 128 calls: it sends at most 64 messages, and none comes more than twice.
pub fn follows_few_calls()
    ensures { (plan : DrivePlan) (up down : List Fate) (first until : ℕ) (replies : List Reply) →
        length (follows_from plan up down first until replies).1 ≤ 128 }
{}

/// Who is told in time crosses: a driver that is active within its window, and heard no EmergencyStop, enters in that
/// turn.
pub fn who_is_told_in_time_crosses()
    ensures { (plan : DrivePlan) (step id : ℕ) (w : Window) (s : State) →
        (let past = reverse (hears_all step s).log in
        entrance past ≡ None → active past ≡ Some id → granted past id ≡ Some w → has_stopped past ≡ false →
        is_open plan (Some w) step ≡ true →
        crossing_of (begun plan step s).log ≡ Some (record { step = step; id = id; window = Some w })) }
{}

/// Who is past its crossing says so: in that turn it sends DONE, unless it has sent its 64 messages.
pub fn who_is_past_its_crossing_is_done()
    ensures { (plan : DrivePlan) (step : ℕ) (e : Entrance) (w : Window) (s : State) →
        (let past = reverse (hears_all step s).log in
        entrance past ≡ Some e → granted past e.id ≡ Some w → is_done_sent past ≡ false → sendings past < 64 →
        is_over e.step w step ≡ true →
        (begun plan step s).log ≡ (hears_all step s).log ++ item.Sent step (record { seq = number (latest past) + 1; body = body.Done e.id }) ∷ []) }
{}

/// How far a driver has come: behind its turns, in which it made as many calls as it has replies, it is exactly one of
/// these: through, inside, shut out by a stop, waiting for a window that is still to come, out of messages, or asking.
pub fn each_driver_is_one_of_six()
    ensures some { (plan : DrivePlan) (up down : List Fate) (first until : ℕ) (replies : List Reply) →
        plan.lead ≤ 65536 → first ≤ until →
        (let f = follows_from plan up down first until replies in
        length f.1 ≡ length replies → HasCome plan (reverse f.0) until (progress plan f.0 until)) }
    ensures one { (plan : DrivePlan) (past : List LogItem) (until : ℕ) (p : Progress) →
        HasCome plan past until p → progress_in plan past until ≡ p }
{}
