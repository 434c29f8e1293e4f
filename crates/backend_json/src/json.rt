// Reading JSON texts as values, and writing objects.
ghost use Rattle.std.specs.Prelude.{◌≡◌, ◌⊎◌, ℕ, List, IfOk, MatchResult, Some, None};
ghost use Rattle.serde_json.specs.Data.{Data, Members, string, number, unsigned};
ghost use Rattle.serde_json.specs.Data.{put as with_member};
ghost use Rattle.serde_json.specs.Read.{read};
ghost use Rattle.serde_json.specs.View.{members_view, view};
ghost use Rattle.lw_types.specs.declared.refusal.Refusal.TheVariants.{OutOfMemory, BadMessage};

use lw_types::Refusal;
use serde_json::{Map, Value, put};
use std::alloc::{AllocError, Global};
use std::fmt;

/// The value of the text. Refused as `BadMessage` if the text is no JSON value.
pub(crate) fn read_value(alloc: Global, text: &str) -> Result<Value, Refusal>
    ensures { MatchResult result (λ value. read text.now ≡ Some (view value))
        (λ e. (e ≡ OutOfMemory) ⊎ ((e ≡ BadMessage) × (read text.now ≡ None))) }
{
    match Value::from_str(alloc, text) {
        Ok(value) => Ok(value),
        Err(e) if e.is_memory() => Err(Refusal::OutOfMemory),
        Err(_) => Err(Refusal::BadMessage),
    }
}

/// An object that is written member by member. If memory runs out for one member, the whole object
/// is lost; `whole` then returns the error, once.
#[derive(Drop)]
pub(crate) struct Object {
    alloc: Global,
    members: Result<Map<String, Value>, AllocError>,
}

impl Object {
    ghost use Rattle.std.specs.Prelude.{IfOk, List, ℕ};
    ghost use Rattle.serde_json.specs.Data.{Data, Members, no_members, object};
    ghost use Rattle.backend_json.specs.Writing.{HoldsMembers};

    pub(crate) fn new(alloc: Global) -> Self
        ensures { HoldsMembers result no_members }
    {
        Object {
            alloc,
            members: Ok(Map::new(alloc)),
        }
    }

    /// Puts a value under a name.
    fn value(self, name: &str, value: Result<Value, AllocError>) -> Self
        ensures { (members : Members) (d : Data) → HoldsMembers self members
            → IfOk value (λ v. view v ≡ d)
            → HoldsMembers result (with_member name.now d members) }
    {
        let alloc = self.alloc;
        Object {
            alloc,
            members: put_value(alloc, self.members, name, value),
        }
    }

    /// Puts the text of a value under a name.
    pub(crate) fn text<T: fmt::Display + Copy>(self, name: &str, value: T) -> Self
        ensures { (members : Members) (text : List ℕ) → HoldsMembers self members
            → T.output value ≡ Some text
            → HoldsMembers result (with_member name.now (string text) members) }
    {
        let text = text_value(self.alloc, value);
        self.value(name, text)
    }

    /// Puts a number under a name.
    pub(crate) fn number(self, name: &str, value: u64) -> Self
        ensures { (members : Members) (n : ℕ) → HoldsMembers self members → value ≡ n
            → HoldsMembers result (with_member name.now (number (unsigned n)) members) }
    {
        self.value(name, Ok(Value::from(value)))
    }

    /// Puts an object under a name.
    pub(crate) fn object(self, name: &str, inner: Object) -> Self
        ensures { (members inside : Members) → HoldsMembers self members → HoldsMembers inner inside
            → HoldsMembers result (with_member name.now (object inside) members) }
    {
        self.value(name, inner.whole())
    }

    /// The whole object.
    pub(crate) fn whole(self) -> Result<Value, AllocError>
        ensures { (members : Members) → HoldsMembers self members
            → IfOk result (λ value. view value ≡ object members) }
    {
        Ok(Value::Object(self.members?))
    }
}

fn put_value(
    alloc: Global,
    members: Result<Map<String, Value>, AllocError>,
    name: &str,
    value: Result<Value, AllocError>,
) -> Result<Map<String, Value>, AllocError>
    ensures { (before : Members) (d : Data)
        → IfOk members (λ map. members_view map.entries ≡ before)
        → IfOk value (λ v. view v ≡ d)
        → IfOk result (λ map. members_view map.entries ≡ with_member name.now d before) }
{
    let mut members = members?;
    put(&mut members, alloc, name, value?)?;
    Ok(members)
}

fn text_value<T: fmt::Display + Copy>(alloc: Global, value: T) -> Result<Value, AllocError>
    ensures { (text : List ℕ) → T.output value ≡ Some text
        → IfOk result (λ v. view v ≡ string text) }
{
    Ok(Value::String(value.to_string(alloc)?))
}
