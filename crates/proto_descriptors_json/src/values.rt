//! What is written as one JSON value, and lists of it.

ghost use Rattle.std.specs.Prelude.{OnOk, map, string_bytes, decimal};
ghost use Rattle.std.specs.Fmt.{signed_decimal};
ghost use Rattle.proto_base.specs.Texts.{Text};
ghost use Rattle.proto_descriptors_json.specs.JsonText.{json_string, boolean_text};
ghost use Rattle.proto_descriptors_json.specs.Written.{PutsValue, PutsValues};

use serde::{Serialize, Serializer};

/// What is written as one JSON value, which has this text.
pub(crate) trait ToJson {
    ghost text: { Self → Text };

    fn send<S: Serializer>(&self, out: &mut S) -> Result<(), S::Error>
        ensures { OnOk result (PutsValue (text self.now) (S.written out.old) (S.written out.new)) };
}

impl ToJson for String {
    ghost text = { λ s. json_string (string_bytes s) };

    fn send<S: Serializer>(&self, out: &mut S) -> Result<(), S::Error> {
        self.serialize(out)
    }
}

impl ToJson for usize {
    ghost text = { λ n. decimal n };

    fn send<S: Serializer>(&self, out: &mut S) -> Result<(), S::Error> {
        self.serialize(out)
    }
}

impl ToJson for u32 {
    ghost text = { λ n. decimal n };

    fn send<S: Serializer>(&self, out: &mut S) -> Result<(), S::Error> {
        self.serialize(out)
    }
}

impl ToJson for i32 {
    ghost text = { λ n. signed_decimal n };

    fn send<S: Serializer>(&self, out: &mut S) -> Result<(), S::Error> {
        self.serialize(out)
    }
}

impl ToJson for bool {
    ghost text = { λ b. boolean_text b };

    fn send<S: Serializer>(&self, out: &mut S) -> Result<(), S::Error> {
        self.serialize(out)
    }
}

/// The values, one after the other.
pub(crate) fn send_each<S: Serializer, T: ToJson>(out: &mut S, values: &[T]) -> Result<(), S::Error>
    ensures { OnOk result
        (PutsValues (map T.text values.now) (S.written out.old) (S.written out.new)) }
{
    for value in values {
        value.send(out)?;
    }
    Ok(())
}
