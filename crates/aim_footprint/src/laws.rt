//! Laws of the definitions, each the contract of a function that does nothing.

ghost use Rattle.std.specs.Prelude.{◌≡◌, Some, None, if◌then◌else◌};
ghost use Rattle.std.specs.Option.{option_or};
ghost use Rattle.aim_messages.specs.declared.messages.Params.{Params};
ghost use Rattle.aim_messages.specs.declared.replies.Field.{Field};
ghost use Rattle.aim_layout.specs.Intersection.{Intersection};
ghost use Rattle.aim_rules.specs.Bad.{bad, needs_too_many_spans};
ghost use Rattle.aim_footprint.specs.Fields.{bad_crossing};

/// The wrong fields of a request are those of its crossing, and then the spans.
pub fn fields_are_those_of_the_crossing_and_the_spans()
    ensures { (i : Intersection) (p : Params) → bad i p ≡ option_or (bad_crossing i p) (if needs_too_many_spans i p then Some Field.Spans else None) }
{}
