//! Laws of legs, of what travellers do and of what several crossings promise, each the contract of a function that does
//! nothing.

ghost use Rattle.std.specs.Prelude.{◌≡◌, ℕ, ◌≤◌, true, List, [], Some, None, ◌≢◌, false, map, Option};
ghost use Rattle.aim_messages.specs.declared.replies.Reply.{Reply};
ghost use Rattle.aim_driver.specs.declared.plans.DrivePlan.{DrivePlan};
ghost use Rattle.aim_driver.specs.declared.links.Fate.{Fate};
ghost use Rattle.aim_driver.specs.declared.logs.Entrance.{Entrance};
ghost use Rattle.aim_driver.specs.Crossings.{first_entrance};
ghost use Rattle.aim_driver.specs.Follows.{Course, turn, course, follows};
ghost use Rattle.aim_grid.specs.Acked.{acked};
ghost use Rattle.aim_grid.specs.Route.{EachStep, IsRoute};
ghost use Rattle.aim_grid.specs.Models.{LegModel, TravellerModel};
ghost use Rattle.aim_grid.specs.Rode.{Managers, Rode};
ghost use Rattle.aim_grid.specs.Travels.{IsTravellerOf, SetsOut};
ghost use Rattle.aim_grid.specs.Legs.{AreFollowed, AreFresh, legs_told};
ghost use Rattle.aim_messages.specs.declared.entries.Entry.{Entry};
ghost use Rattle.aim_geometry.specs.Cells.{Cell};
ghost use Rattle.aim_layout.specs.Intersection.{Intersection};
ghost use Rattle.aim_layout.specs.Valid.{IsValid};
ghost use Rattle.aim_rules.specs.Claims.{green};
ghost use Rattle.aim_rules.specs.Legal.{IsLegal};
ghost use Rattle.aim_safety.specs.Occupied.{Passage, passage, is_on, is_occupied};
ghost use Rattle.aim_safety.specs.Reserved.{Crosses, IsReserved};
ghost use Rattle.aim_grid.specs.Travelled.{Ride, AreLate, AreLegs, IsLeg, log_of};

/// Over links that deliver all in time, a driver that is through does nothing more.
pub fn who_is_through_rests()
    ensures { (plan : DrivePlan) (first mid until : ℕ) (replies : List Reply) (s : ℕ) → first ≤ mid → mid ≤ until →
        let c = course plan [] [] first mid replies in
        c.goes_on ≡ true → acked c.state.log ≡ Some s → course plan [] [] first until replies ≡ c }
{}

/// A driver that comes to be through in a turn gets its Ack at the step of that turn.
pub fn the_ack_comes_in_its_turn()
    ensures { (plan : DrivePlan) (step s : ℕ) (c : Course) →
        acked c.state.log ≡ None → acked (turn plan step c).state.log ≡ Some s → s ≡ step }
{}

/// Nothing stands in a driver's log before its plan's first step.
pub fn logs_begin_with_their_plans()
    ensures { (plan : DrivePlan) (up down : List Fate) (until : ℕ) (replies : List Reply) →
        EachStep (λ t. plan.first ≤ t) (follows plan up down until replies).0 }
{}

/// A traveller that has set out took no turn yet.
pub fn setting_out_takes_no_turn()
    ensures { (managers : Managers) (first vehicle : ℕ) (legs : List LegModel) (t : TravellerModel) →
        SetsOut vehicle legs t → IsTravellerOf managers t → Rode managers first first legs t }
{}

/// Each leg of a traveller without trouble is what its driver follows up to the last step, where it was begun, and each
/// was begun exactly where the leg before got the Ack that answers its DONE.
pub fn what_travellers_do_is_followed()
    ensures { (managers : Managers) (until : ℕ) (legs : List LegModel) (t : TravellerModel) →
        AreFresh legs → Rode managers 0 until legs t → t.agent.trouble ≡ None → AreFollowed until (Some 0) legs (legs_told t) }
{}

/// The logs of a vehicle's legs are in order, where no plan begins with the very step that it is told from.
pub fn legs_are_in_order()
    ensures { (until : ℕ) (journal : ℕ → List Entry) (rides : List Ride) →
        AreLate rides → AreLegs until journal (Some 0) rides → IsRoute (map log_of rides) }
{}

/// A driver that entered on a leg has a crossing there, on a Confirm of its own vehicle.
pub fn who_entered_on_a_leg_crosses()
    ensures { (i : Intersection) (vehicles until : ℕ) (h : List Entry) (begun : Option ℕ) (r : Ride) (t : Entrance) →
        IsLegal i vehicles h → r.plan.lead ≤ 65536 → IsLeg until h begun r → first_entrance r.log ≡ Some t →
        Crosses i h r.vehicle r.log t }
{}

/// Each tile on which a driver is was reserved for it, in that step.
pub fn legs_are_on_tiles_of_their_own()
    ensures { (i : Intersection) (vehicles until : ℕ) (h : List Entry) (begun : Option ℕ) (r : Ride) (c : Cell) →
        IsValid i → IsLegal i vehicles h → r.plan.lead ≤ 65536 → IsLeg until h begun r → is_occupied i h r.log c ≡ true →
        IsReserved i h r.vehicle r.log c }
{}

/// Two drivers whose legs are at one crossing are never on one tile in one step.
pub fn legs_are_apart()
    ensures { (i : Intersection) (vehicles until : ℕ) (h : List Entry) (begun begun' : Option ℕ) (r q : Ride) (c : Cell) →
        IsValid i → IsLegal i vehicles h → r.vehicle ≢ q.vehicle → r.plan.lead ≤ 65536 → q.plan.lead ≤ 65536 →
        IsLeg until h begun r → IsLeg until h begun' q → is_occupied i h r.log c ≡ true → is_occupied i h q.log c ≡ false }
{}

/// No driver is on a tile that the green of a lane other than its own claims then.
pub fn legs_are_clear()
    ensures { (i : Intersection) (vehicles until : ℕ) (h : List Entry) (begun : Option ℕ) (r : Ride) (t : Passage) (c : Cell) →
        IsValid i → IsLegal i vehicles h → r.plan.lead ≤ 65536 → IsLeg until h begun r →
        passage i h r.log ≡ Some t → is_on i t c ≡ true → green i h c t.grant.params.lane ≡ None }
{}
