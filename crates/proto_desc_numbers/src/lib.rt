//! Flaws of a file, and those of its numbers and ranges: outside their limits, reserved, given
//! twice, overlapping.
#![tactic(auto)]

mod flaw;
mod number_lists;
mod numbers;
mod range_index;

pub use flaw::{Flaw, add_if, add_marked, least, repeats};
pub use number_lists::{field_numbers, field_ranges, value_numbers, value_ranges};
pub use numbers::{
    LEAST_VALUE, MOST_VALUE, NumberAt, add_field_numbers, add_outside_fields, add_outside_values,
    add_value_ranges, is_covered, is_within, number_tokens, repeated_flags,
};
pub use proto_ast::RangeAt;
pub use range_index::index_of;
