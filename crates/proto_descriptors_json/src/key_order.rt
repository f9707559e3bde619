//! A law of the text: the order of the keys.

ghost use Rattle.proto_descriptors_json.specs.KeyOrder.{KeysRise};

/// The keys of each kind of object are written in the order of their bytes, each at most once.
pub fn keys_rise()
    ensures { KeysRise }
{}
