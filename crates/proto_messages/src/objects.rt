//! JSON objects, made member by member.

ghost use Rattle.std.specs.Prelude.{◌≡◌, false, IfOk, OnOk, Some};
ghost use Rattle.serde_json.specs.Data.{Data, Members, boolean, no_members, object, put as with_member, string};
ghost use Rattle.serde_json.specs.View.{members_view, view};
ghost use Rattle.serde_json.specs.Written.{compact_text, has_float};
ghost use Rattle.proto_messages.specs.Objects.{Fills, Has, Puts, made};
ghost use Rattle.proto_messages.specs.Results.{natural};

use serde_json::{Map, Value, put};
use std::alloc::{AllocError, Global};

/// An object that is made member by member. Once memory was refused it has no value.
#[derive(Drop)]
pub(crate) struct Object {
    pub(crate) alloc: Global,
    members: Map<String, Value>,
    is_refused: bool,
}

/// What has a JSON value that is an object.
pub(crate) trait ToJson {
    ghost json: { Self → Data };

    /// Puts its members into an object that has none.
    fn put_members(&self, out: &mut Object)
        ensures { Fills (json self.now) (made out.old) (made out.new) };
}

/// Its object. Fails only when out of memory.
pub(crate) fn object_of<T: ToJson>(alloc: Global, value: &T) -> Result<Value, AllocError>
    ensures { IfOk result (λ object. view object ≡ T.json value.now) }
{
    let mut out = Object::new(alloc);
    value.put_members(&mut out);
    out.into_value()
}

/// The compact text of its object, where that has no float. Fails only when out of memory.
pub(crate) fn object_text<T: ToJson>(alloc: Global, value: &T) -> Result<Vec<u8>, AllocError>
    ensures { IfOk result (λ text. has_float (T.json value.now) ≡ false
        → text.items ≡ compact_text (T.json value.now)) }
{
    let value = object_of(alloc, value)?;
    value.to_vec(alloc)
}

// Puts a member that was made. Fails only when out of memory, as where it could not be made.
fn put_made(
    members: &mut Map<String, Value>,
    alloc: Global,
    key: &str,
    value: Result<Value, AllocError>,
) -> Result<(), AllocError>
    ensures { OnOk result ((d : Data) → IfOk value (λ made. view made ≡ d)
        → members_view members.new.entries
        ≡ with_member key.now d (members_view members.old.entries)) }
{
    match value {
        Ok(value) => put(members, alloc, key, value),
        Err(refused) => Err(refused),
    }
}

impl Object {
    /// One with no member.
    pub(crate) fn new(alloc: Global) -> Object
        ensures { Has no_members (made result) }
    {
        Object {
            alloc,
            members: Map::new(alloc),
            is_refused: false,
        }
    }

    /// Its value. Fails where memory was refused.
    pub(crate) fn into_value(self) -> Result<Value, AllocError>
        ensures { IfOk result (λ value. (ms : Members)
            × (made self ≡ Some ms) × (view value ≡ object ms)) }
    {
        if self.is_refused {
            return Err(AllocError);
        }
        Ok(Value::Object(self.members))
    }

    /// Puts a member, if it could be made.
    pub(crate) fn put(&mut self, key: &str, value: Result<Value, AllocError>)
        ensures { (d : Data) → IfOk value (λ made. view made ≡ d)
            → Puts key.now d (made self.old) (made self.new) }
    {
        match put_made(&mut self.members, self.alloc, key, value) {
            Ok(()) => {}
            Err(_refused) => self.is_refused = true,
        }
    }

    /// Puts a member that is an object.
    pub(crate) fn put_object<T: ToJson>(&mut self, key: &str, value: &T)
        ensures { Puts key.now (T.json value.now) (made self.old) (made self.new) }
    {
        let value = object_of(self.alloc, value);
        self.put(key, value);
    }

    /// Puts a member that is a text.
    pub(crate) fn put_text(&mut self, key: &str, text: &str)
        ensures { Puts key.now (string text.now) (made self.old) (made self.new) }
    {
        let value = Value::try_from_str(self.alloc, text);
        self.put(key, value);
    }

    /// Puts a member that is a natural number.
    pub(crate) fn put_number(&mut self, key: &str, number: u32)
        ensures { Puts key.now (natural number) (made self.old) (made self.new) }
    {
        self.put(key, Ok(Value::from(number)));
    }

    /// Puts a member that is a truth value.
    pub(crate) fn put_flag(&mut self, key: &str, is_set: bool)
        ensures { Puts key.now (boolean is_set) (made self.old) (made self.new) }
    {
        self.put(key, Ok(Value::Bool(is_set)));
    }
}
