//! Laws of layouts, each the contract of a function that does nothing.

ghost use Rattle.std.specs.Prelude.{◌≡◌, ℕ, List, length};
ghost use Rattle.std.specs.List.{fold};
ghost use Rattle.aim_geometry.specs.Sites.{Site};
ghost use Rattle.aim_layout.specs.Added.{Added, AreTaken, added, layout_of};
ghost use Rattle.aim_layout.specs.Building.{bare};
ghost use Rattle.aim_layout.specs.Intersection.{Intersection};
ghost use Rattle.aim_layout.specs.Valid.{IsValid};

/// Lines that are taken, one after another, make the layout that they say.
pub fn layout_is_its_lines()
    ensures { (s : Site) (lanes version : ℕ) (lines : List Added) → AreTaken (bare s lanes version) lines → fold added (bare s lanes version) lines ≡ layout_of s lanes version lines }
{}

/// A valid layout is the layout of some lines, each taken where it stands.
pub fn valid_layout_is_of_taken_lines()
    ensures { (i : Intersection) → IsValid i → (lines : List Added)
        × AreTaken (bare (record { grid = i.grid; times = i.times }) (length i.lanes) i.version) lines
        × (layout_of (record { grid = i.grid; times = i.times }) (length i.lanes) i.version lines ≡ i) }
{}
