//! The object of options, which begins with its first member and is left out where it has none.

ghost use Rattle.std.specs.Prelude.{OnOk, IfOk, [], option_map};
ghost use Rattle.proto_descriptors_json.specs.Written.{Opens, PutsOption, EndsOptions};

use crate::members::put;
use crate::values::ToJson;
use serde::Serializer;

/// One option, which is left out where it is not given. Answers whether the object has begun.
pub(crate) fn put_option<S: Serializer, T: ToJson>(
    out: &mut S,
    is_open: bool,
    key: &'static str,
    value: &Option<T>,
) -> Result<bool, S::Error>
    ensures { IfOk result (λ is_open_then. PutsOption
        is_open (key.now, option_map T.text value.now) is_open_then
        (S.written out.old) (S.written out.new)) }
{
    match value {
        Some(value) => {
            open(out, is_open)?;
            put(out, key, value)?;
            Ok(true)
        }
        None => Ok(is_open),
    }
}

/// Begins the object, if it has not begun.
fn open<S: Serializer>(out: &mut S, is_open: bool) -> Result<(), S::Error>
    ensures { OnOk result (Opens is_open (S.written out.old) (S.written out.new)) }
{
    if is_open {
        return Ok(());
    }
    out.key("options")?;
    out.begin_map(None)
}

/// Ends the object, if it has begun.
pub(crate) fn close<S: Serializer>(out: &mut S, is_open: bool) -> Result<(), S::Error>
    ensures { OnOk result (EndsOptions is_open [] (S.written out.old) (S.written out.new)) }
{
    if is_open { out.end_map() } else { Ok(()) }
}
