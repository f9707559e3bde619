//! The members of an object, sent one behind the other in the order of their keys.

ghost use Rattle.std.specs.Prelude.{◌≡◌, OnOk, Some, map, option_map};
ghost use Rattle.proto_descriptors_json.specs.JsonText.{array_if_any, boolean_text, mark_if_true};
ghost use Rattle.proto_descriptors_json.specs.Written.{PutsMember};

use crate::values::{ToJson, send_each};
use serde::Serializer;

/// A key, and then its value.
pub(crate) fn put<S: Serializer, T: ToJson>(
    out: &mut S,
    key: &'static str,
    value: &T,
) -> Result<(), S::Error>
    ensures { OnOk result (PutsMember (key.now, Some (T.text value.now))
        (S.written out.old) (S.written out.new)) }
{
    out.key(key)?;
    value.send(out)
}

/// A value that is left out where there is none.
pub(crate) fn put_optional<S: Serializer, T: ToJson>(
    out: &mut S,
    key: &'static str,
    value: &Option<T>,
) -> Result<(), S::Error>
    ensures { OnOk result (PutsMember (key.now, option_map T.text value.now)
        (S.written out.old) (S.written out.new)) }
{
    match value {
        Some(value) => put(out, key, value),
        None => Ok(()),
    }
}

/// The list of the values, which is left out where there are none.
pub(crate) fn put_list<S: Serializer, T: ToJson>(
    out: &mut S,
    key: &'static str,
    values: &[T],
) -> Result<(), S::Error>
    ensures { OnOk result (PutsMember (key.now, array_if_any (map T.text values.now))
        (S.written out.old) (S.written out.new)) }
{
    if values.is_empty() {
        return Ok(());
    }
    out.key(key)?;
    out.begin_seq(None)?;
    send_each(out, values)?;
    out.end_seq()
}

/// A mark, which is left out where it is false.
pub(crate) fn put_mark<S: Serializer>(
    out: &mut S,
    key: &'static str,
    is_set: bool,
) -> Result<(), S::Error>
    ensures { OnOk result (PutsMember (key.now, mark_if_true is_set)
        (S.written out.old) (S.written out.new)) }
{
    put_optional(out, key, &mark_of(is_set))
}

/// The truth value that a mark is written as, none where it is left out.
pub(crate) fn mark_of(is_set: bool) -> Option<bool>
    ensures { option_map boolean_text result ≡ mark_if_true is_set }
{
    if is_set { Some(true) } else { None }
}
