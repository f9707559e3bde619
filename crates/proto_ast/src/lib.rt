//! The parts of a schema's tree that checks and descriptors read: fields, ranges, options, numbers,
//! and what references mean.
#![tactic(auto)]

mod enum_values;
mod fields;
mod json_names;
mod labels;
mod numbers;
mod option_statements;
mod option_values;
mod options;
mod ranges;
mod reserved;
mod scene;
mod separated;
mod value_names;
mod version;

pub use enum_values::values;
pub use fields::{FieldAt, OptionAt, extension_fields, fields_of, next_field, options_between};
pub use json_names::{json_digest, json_name};
pub use labels::has_label;
pub use numbers::number_of;
pub use option_statements::{
    enum_options, file_options, message_options, method_options, service_options,
};
pub use option_values::{
    is_allowed, option_named, text_option, text_value, truth, truth_option, word, word_option,
};
pub use options::Element;
pub use ranges::{
    RangeAt, closed_ranges, enum_ranges, extension_ranges, extension_words, meet, reserved_ranges,
};
pub use reserved::{enum_reserved_names, reserved_names};
pub use scene::{EnumAt, MeantAt, Scene};
pub use value_names::ValueNames;
pub use version::{is_proto3, syntax_text};
