//! The JSON values of lists.

ghost use Rattle.std.specs.Prelude.{◌≡◌, IfOk, map};
ghost use Rattle.serde_json.specs.View.{view};
ghost use Rattle.proto_messages.specs.Objects.{Puts, made};
ghost use Rattle.proto_messages.specs.Results.{array_of};

use crate::objects::{Object, ToJson, object_of};
use serde_json::Value;
use std::alloc::{AllocError, Global};

/// The array of the objects of these, in order.
pub(crate) fn array<T: ToJson>(alloc: Global, items: &[T]) -> Result<Value, AllocError>
    ensures { IfOk result (λ value. view value ≡ array_of (map T.json items.now)) }
{
    let mut values = Vec::new(alloc);
    for item in items {
        let value = object_of(alloc, item)?;
        values.push(value)?;
    }
    Ok(Value::Array(values))
}

/// Puts a member that is the array of the objects of these.
pub(crate) fn put_array<T: ToJson>(out: &mut Object, key: &str, items: &[T])
    ensures { Puts key.now (array_of (map T.json items.now)) (made out.old) (made out.new) }
{
    let value = array(out.alloc, items);
    out.put(key, value);
}
