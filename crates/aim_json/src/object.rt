//! Objects that are made member by member.

ghost use Rattle.std.specs.Prelude.{◌≡◌, IfOk, OnOk};
ghost use Rattle.serde_json.specs.Data.{Data, Members, put as with_member};
ghost use Rattle.serde_json.specs.View.{members_view, view};

use serde_json::{Map, Value, put};
use std::alloc::{AllocError, Global};

// Puts a member.
fn put_value(
    members: &mut Map<String, Value>,
    alloc: Global,
    name: &str,
    value: Result<Value, AllocError>,
) -> Result<(), AllocError>
    ensures { (d : Data) → IfOk value (λ v. view v ≡ d) → OnOk result (members_view members.new.entries ≡ with_member name.now d (members_view members.old.entries)) }
{
    put(members, alloc, name, value?)
}

// The members and one more.
fn joined(
    alloc: Global,
    members: Result<Map<String, Value>, AllocError>,
    name: &str,
    value: Result<Value, AllocError>,
) -> Result<Map<String, Value>, AllocError>
    ensures { (ms : Members) (d : Data) → IfOk members (λ m. members_view m.entries ≡ ms) → IfOk value (λ v. view v ≡ d) → IfOk result (λ m. members_view m.entries ≡ with_member name.now d ms) }
{
    let mut members = members?;
    put_value(&mut members, alloc, name, value)?;
    Ok(members)
}

/// The members so far, unless memory ran out.
pub(crate) struct Object {
    alloc: Global,
    members: Result<Map<String, Value>, AllocError>,
}

impl Object {
    ghost use Rattle.std.specs.Prelude.{◌≡◌, IfOk};
    ghost use Rattle.serde_json.specs.Data.{Data, Members, object, no_members, put as with_member};
    ghost use Rattle.serde_json.specs.View.{view};
    ghost use Rattle.aim_json.specs.Members.{count, word};
    ghost use Rattle.aim_json.specs.Objects.{Holds};

    /// No member.
    pub fn new(alloc: Global) -> Object
        ensures { Holds result no_members }
    {
        Object {
            alloc,
            members: Ok(Map::new(alloc)),
        }
    }

    /// One member, which is a text.
    pub fn with(alloc: Global, name: &str, text: &str) -> Object
        ensures { Holds result (with_member name.now (word text.now) no_members) }
    {
        Object::new(alloc).word(name, text)
    }

    /// Adds a member.
    pub fn member(self, name: &str, value: Result<Value, AllocError>) -> Object
        ensures { (ms : Members) (d : Data) → Holds self ms → IfOk value (λ v. view v ≡ d) → Holds result (with_member name.now d ms) }
    {
        let Object { alloc, members } = self;
        Object {
            alloc,
            members: joined(alloc, members, name, value),
        }
    }

    /// Adds a member that is a text.
    pub fn word(self, name: &str, text: &str) -> Object
        ensures { (ms : Members) → Holds self ms → Holds result (with_member name.now (word text.now) ms) }
    {
        let value = Value::try_from_str(self.alloc, text);
        self.member(name, value)
    }

    /// Adds a member that is a number.
    pub fn count(self, name: &str, n: u32) -> Object
        ensures { (ms : Members) → Holds self ms → Holds result (with_member name.now (count n) ms) }
    {
        self.member(name, Ok(Value::from(n)))
    }

    /// The object, unless memory ran out.
    pub fn value(self) -> Result<Value, AllocError>
        ensures { (ms : Members) → Holds self ms → IfOk result (λ v. view v ≡ object ms) }
    {
        let Object { alloc: _, members } = self;
        match members {
            Ok(members) => Ok(Value::Object(members)),
            Err(e) => Err(e),
        }
    }
}
