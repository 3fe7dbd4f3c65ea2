//! The law of safety, what a driver that is on a tile was granted, and what the list of its tiles has, each the contract
//! of a function that does nothing.

ghost use Rattle.std.specs.Prelude.{◌≡◌, ◌≢◌, ◌↔◌, ℕ, true, false, List, Some, None};
ghost use Rattle.aim_messages.specs.declared.entries.Entry.{Entry};
ghost use Rattle.aim_layout.specs.Intersection.{Intersection};
ghost use Rattle.aim_layout.specs.Valid.{IsValid};
ghost use Rattle.aim_geometry.specs.Cells.{Cell};
ghost use Rattle.aim_rules.specs.Cells.{IsIn};
ghost use Rattle.aim_rules.specs.Claims.{green};
ghost use Rattle.aim_rules.specs.Legal.{IsLegal};
ghost use Rattle.aim_driver.specs.declared.logs.Entrance.{Entrance};
ghost use Rattle.aim_driver.specs.declared.logs.LogItem.{LogItem};
ghost use Rattle.aim_driver.specs.Crossings.{first_entrance};
ghost use Rattle.aim_driver.specs.Keeps.{keeps};
ghost use Rattle.aim_driver.specs.Fits.{Fits};
ghost use Rattle.aim_safety.specs.Occupied.{Passage, passage, is_on, is_occupied};
ghost use Rattle.aim_safety.specs.Reserved.{Crosses, IsReserved};
ghost use Rattle.aim_safety.specs.Tiles.{IsRising, occupied_cells};

/// Over every valid layout and every legal history, where the logs of two vehicles keep the rules of drivers and fit
/// the history:
///
/// - the two drivers are on no tile in one step;
/// - no driver is on a tile in a step in which a lane other than its own claims that tile by its green, and all
///   switches of the whole history count.
pub fn disjoint()
    ensures drivers { (i : Intersection) (vehicles : ℕ) (h : List Entry) (v w : ℕ) (a b : List LogItem) (c : Cell) →
        IsValid i → IsLegal i vehicles h → v ≢ w → keeps a ≡ true → keeps b ≡ true → Fits h v a → Fits h w b →
        is_occupied i h a c ≡ true → is_occupied i h b c ≡ false }
    ensures green { (i : Intersection) (vehicles : ℕ) (h : List Entry) (v : ℕ) (a : List LogItem) (x : Passage)
        (c : Cell) → IsValid i → IsLegal i vehicles h → keeps a ≡ true → Fits h v a →
        passage i h a ≡ Some x → is_on i x c ≡ true → green i h c x.grant.params.lane ≡ None }
{}

/// Whoever entered crosses: over every legal history, where the log of a vehicle keeps the rules of drivers and fits the
/// history, a driver that entered has a crossing, on a Confirm of its own vehicle.
pub fn who_entered_crosses()
    ensures { (i : Intersection) (vehicles : ℕ) (h : List Entry) (v : ℕ) (a : List LogItem) (t : Entrance) →
        IsLegal i vehicles h → keeps a ≡ true → Fits h v a → first_entrance a ≡ Some t → Crosses i h v a t }
{}

/// Each tile on which a driver is was reserved for it, in that step: over every valid layout and every legal history,
/// where the log of a vehicle keeps the rules of drivers and fits the history.
pub fn drivers_are_on_tiles_of_their_own()
    ensures { (i : Intersection) (vehicles : ℕ) (h : List Entry) (v : ℕ) (a : List LogItem) (c : Cell) →
        IsValid i → IsLegal i vehicles h → keeps a ≡ true → Fits h v a → is_occupied i h a c ≡ true →
        IsReserved i h v a c }
{}

/// The list of a driver's tiles has just those on which it is, in rising order of row, column and step, so each once.
pub fn list_has_the_tiles_of_the_driver()
    ensures has { (i : Intersection) (h : List Entry) (log : List LogItem) (c : Cell) →
        (IsIn c (occupied_cells i h log) ↔ (is_occupied i h log c ≡ true)) }
    ensures rising { (i : Intersection) (h : List Entry) (log : List LogItem) → IsRising (occupied_cells i h log) }
{}
