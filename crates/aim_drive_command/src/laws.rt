//! Laws, each the contract of a function that does nothing. The lines of generated traffic are a whole drive script, as
//! which their text is read. A drive whose drivers are one run has one journal with its logs, and so one text is
//! printed of it.

ghost use Rattle.std.specs.Prelude.{◌≡◌, ◌≢◌, ◌+◌, ◌<◌, ◌≤◌, ℕ, List, ◌++◌, filter, length, reverse, slice_get, Option, Some};
ghost use Rattle.aim_io.specs.Known.{AppendsFront};
ghost use Rattle.aim_messages.specs.declared.entries.Entry.{Entry};
ghost use Rattle.aim_messages.specs.declared.entries.TheConstants.{OPERATOR};
ghost use Rattle.aim_messages.specs.declared.replies.Reply.{Reply};
ghost use Rattle.aim_messages.specs.declared.script.Line.{Line};
ghost use Rattle.aim_layout.specs.Intersection.{Intersection};
ghost use Rattle.aim_driver.specs.declared.plans.DrivePlan.{DrivePlan};
ghost use Rattle.aim_driver.specs.declared.links.Fate.{Fate};
ghost use Rattle.aim_driver.specs.Fits.{entries_of};
ghost use Rattle.aim_driver.specs.Follows.{follows};
ghost use Rattle.aim_script.specs.declared.decisions.Decision.{Decision};
ghost use Rattle.aim_script.specs.declared.decisions.Decision.TheVariants as decision;
ghost use Rattle.aim_driver.specs.declared.orders.Ordered.{Ordered};
ghost use Rattle.aim_script.specs.Said.{vehicles_of};
ghost use Rattle.aim_driver.specs.Progress.{through, inside, shut_out, waiting, spent, asking, HasCome, how_many, progress};
ghost use Rattle.aim_drive_script.specs.Said.{Drive, drives_of, orders_of, until_of};
ghost use Rattle.aim_drive_script.specs.Scripts.{IsDrive};
ghost use Rattle.aim_drive_script.specs.Verdicts.{drive_verdict};
ghost use Rattle.aim_drive.specs.Headline.{Headline, VehicleLog};
ghost use Rattle.aim_drive_command.specs.Traffic.{traffic_lines, traffic_text};
ghost use Rattle.aim_drive_command.specs.Ordered.{log_among};
ghost use Rattle.aim_drive_command.specs.Progress.{progress_at_end};
ghost use Rattle.aim_drive_command.specs.Races.{NoneRace};
ghost use Rattle.aim_drive_command.specs.Summaries.{has_entered, is_confirm, is_reject, summary_lines};
ghost use Rattle.aim_drive_command.specs.Runs.{IsRunOf};
ghost use Rattle.aim_script_reading.specs.Commands.{Shows, ShowsFront};
ghost use Rattle.aim_drive_command.specs.Commands.{IsReport, IsText, IsTextOf, status_for};
ghost use Rattle.aim_drive_command.specs.Generated.{IsSummary, Counts, CountsFront};

/// Generated traffic is a whole drive script: no line is at fault behind those before it, and none goes past a limit.
pub fn traffic_is_a_drive()
    ensures { (number count : ℕ) → 0 < count → count ≤ 256 → IsDrive (traffic_lines number count) }
{}

/// The text of generated traffic is read as these lines, to its end: the script is whole, and has no orders.
pub fn text_of_traffic_is_read()
    ensures { (number count : ℕ) → 0 < count → count ≤ 256 →
        drive_verdict (traffic_text number count) ≡ record { before = traffic_lines number count; decision = decision.Whole 0 } }
{}

/// The next call of a driver depends on no more than the replies to its calls before it: whatever replies come behind
/// them, it is that call, or there is none.
pub fn next_call_by_the_replies_before_it()
    ensures { (plan : DrivePlan) (up down : List Fate) (until : ℕ) (replies more : List Reply) →
        slice_get (follows plan up down until (replies ++ more)).1 (length replies)
        ≡ slice_get (follows plan up down until replies).1 (length replies) }
{}

/// Where all drivers are in one run, the headline holds of one journal at most, and of one list of logs.
pub fn one_run_has_one_journal()
    ensures journal { (i : Intersection) (vehicles until size : ℕ) (drives : List Drive) (orders : List Ordered)
        (h k : List Entry) (logs others : List VehicleLog) → length drives ≤ size →
        Headline i vehicles until size drives orders h logs → Headline i vehicles until size drives orders k others →
        h ≡ k }
    ensures logs { (i : Intersection) (vehicles until size : ℕ) (drives : List Drive) (orders : List Ordered)
        (h k : List Entry) (logs others : List VehicleLog) → length drives ≤ size →
        Headline i vehicles until size drives orders h logs → Headline i vehicles until size drives orders k others →
        logs ≡ others }
{}

/// With one worker a script's lines have one journal at most, and one list of logs.
pub fn one_worker_has_one_run()
    ensures journal { (lines : List Line) (h k : List Entry) (logs others : List VehicleLog) →
        IsRunOf 1 lines h logs → IsRunOf 1 lines k others → h ≡ k }
    ensures logs { (lines : List Line) (h k : List Entry) (logs others : List VehicleLog) →
        IsRunOf 1 lines h logs → IsRunOf 1 lines k others → logs ≡ others }
{}

/// With one worker a script has one text. Where it is written twice behind the same bytes, the bytes and the statuses
/// are the same. A front that is written is one of that text.
pub fn one_worker_has_one_text()
    ensures text { (lines : List Line) (d : Decision) (text other : List ℕ) →
        IsTextOf 1 lines d text → IsTextOf 1 lines d other → text ≡ other }
    ensures shown { (bytes before after other : List ℕ) (status another : ℕ) →
        Shows (IsText 1) status_for bytes (Some before) (Some after) status → Shows (IsText 1) status_for bytes (Some before) (Some other) another →
        (after ≡ other) × (status ≡ another) }
    ensures front { (bytes text : List ℕ) (old new : Option (List ℕ)) → ShowsFront (IsText 1) bytes old new →
        IsText 1 bytes text → AppendsFront old new text }
{}

/// Workers matter only where calls race: where calls of one moment are of one run, the journal and the logs are those of
/// one worker, and so is the text.
pub fn workers_matter_only_where_calls_race()
    ensures run { (workers : ℕ) (lines : List Line) (h : List Entry) (logs : List VehicleLog) →
        IsRunOf workers lines h logs → NoneRace workers lines h → IsRunOf 1 lines h logs }
    ensures text { (workers : ℕ) (lines : List Line) (text other : List ℕ) (a : IsReport workers lines text) →
        NoneRace workers lines a.journal → IsReport 1 lines other → text ≡ other }
{}

/// A journal is short: it has at most 128 entries of a vehicle, and one of each order.
pub fn a_journal_is_short()
    ensures vehicle { (workers : ℕ) (lines : List Line) (h : List Entry) (logs : List VehicleLog) →
        IsRunOf workers lines h logs → (v : ℕ) → v ≢ OPERATOR → length (entries_of h v) ≤ 128 }
    ensures orders { (workers : ℕ) (lines : List Line) (h : List Entry) (logs : List VehicleLog) →
        IsRunOf workers lines h logs → length (entries_of h OPERATOR) ≡ length (orders_of lines) }
{}

/// A text that reports a run reports one: it has one journal, and the same log of each vehicle, whatever the workers.
pub fn a_text_tells_one_run()
    ensures journal { (workers others : ℕ) (lines : List Line) (text : List ℕ) (a : IsReport workers lines text)
        (b : IsReport others lines text) → a.journal ≡ b.journal }
    ensures logs { (workers others : ℕ) (lines : List Line) (text : List ℕ) (a : IsReport workers lines text)
        (b : IsReport others lines text) (v : ℕ) → v < vehicles_of lines → log_among v a.logs ≡ log_among v b.logs }
{}

/// Generated traffic has one text of six lines for each number and count. Where it is written twice behind the same
/// bytes, the bytes are the same. A front that is written is one of that text.
pub fn generated_traffic_has_one_summary()
    ensures text { (number count : ℕ) (text other : List ℕ) →
        IsSummary number count text → IsSummary number count other → text ≡ other }
    ensures shown { (number count : ℕ) (before after other : List ℕ) →
        Counts number count (Some before) (Some after) → Counts number count (Some before) (Some other) →
        after ≡ other }
    ensures front { (number count : ℕ) (text : List ℕ) (old new : Option (List ℕ)) →
        CountsFront number count old new → IsSummary number count text → AppendsFront old new text }
{}

/// At its end each driver of a drive is one of six, and of no other (law `each_driver_is_one_of_six` of `aim_driver`).
/// These six are all drivers, and those that are through or inside have entered.
pub fn each_driver_ends_as_one_of_six()
    ensures each { (workers : ℕ) (lines : List Line) (h : List Entry) (logs : List VehicleLog) →
        IsDrive lines → IsRunOf workers lines h logs → (k : ℕ) (d : Drive) (x : VehicleLog) →
        slice_get (drives_of lines) k ≡ Some d → slice_get logs k ≡ Some x →
        HasCome d.plan (reverse x.1) (until_of lines) (progress d.plan x.1 (until_of lines)) }
    ensures all { (workers : ℕ) (lines : List Line) (h : List Entry) (logs : List VehicleLog) → IsRunOf workers lines h logs →
        (let ps = progress_at_end lines logs in length (drives_of lines) ≡
        how_many through ps + how_many inside ps + how_many shut_out ps + how_many waiting ps + how_many spent ps + how_many asking ps) }
    ensures entered { (workers : ℕ) (lines : List Line) (h : List Entry) (logs : List VehicleLog) → IsRunOf workers lines h logs →
        (let ps = progress_at_end lines logs in length (filter has_entered logs) ≡ how_many through ps + how_many inside ps) }
{}

/// The summary of generated traffic counts who entered: those that are through and those that are inside, of as many
/// drivers as were asked for.
pub fn a_summary_counts_who_entered()
    ensures entered { (number count : ℕ) (text : List ℕ) (a : IsSummary number count text) →
        (let lines = traffic_lines number count in let ps = progress_at_end lines a.logs in
        text ≡ summary_lines (until_of lines) (length a.journal) (length (filter is_confirm a.journal))
        (length (filter is_reject a.journal)) (how_many through ps + how_many inside ps)) }
    ensures all { (number count : ℕ) (text : List ℕ) (a : IsSummary number count text) →
        (let ps = progress_at_end (traffic_lines number count) a.logs in count ≡
        how_many through ps + how_many inside ps + how_many shut_out ps + how_many waiting ps + how_many spent ps + how_many asking ps) }
{}
