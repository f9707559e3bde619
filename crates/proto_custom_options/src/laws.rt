//! Laws of custom options, for the layers above. None of these does anything.

ghost use Rattle.proto_custom_options.specs.CustomOptions.{CoreTreesHaveNoCustom, CustomsRise, CustomsStand};

/// A tree of the core language has no custom option.
pub fn core_trees_have_no_custom()
    ensures { CoreTreesHaveNoCustom }
{}

/// Each option stands whole in its tree; the names of options and their words stand at rising tokens
/// of the text.
pub fn customs_stand_in_order()
    ensures whole { CustomsStand }
    ensures order { CustomsRise }
{}
