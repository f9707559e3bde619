//! The numbers of descriptors. A file has a descriptor only where its numbers are in their limits:
//! another number is 0.

ghost use Rattle.std.specs.Prelude.{◌≡◌, ◌≤◌};
ghost use Rattle.proto_desc_build.specs.Described.{field_number, value_number, default_number, number_range, value_range};

use proto_desc_numbers::RangeAt;
use proto_descriptors::{EnumReservedRange, NumberRange};

const MOST_FIELD: i128 = 536_870_911;

/// The number of a field.
pub(crate) fn field_number(number: i128) -> u32
    ensures value { result ≡ field_number number }
    ensures limit { result ≤ 536870911 }
{
    if 0 <= number && number <= MOST_FIELD {
        number as u32
    } else {
        0
    }
}

/// The number of an enum's value.
pub(crate) fn value_number(number: i128) -> i32
    ensures { result ≡ value_number number }
{
    if i128::from(i32::MIN) <= number && number <= i128::from(i32::MAX) {
        number as i32
    } else {
        0
    }
}

/// A number as a default.
pub(crate) fn default_number(number: i128) -> i128
    ensures { result ≡ default_number number }
{
    if i128::from(i64::MIN) <= number && number <= i128::from(u64::MAX) {
        number
    } else {
        0
    }
}

/// The range from its first number up to the one after its last.
pub(crate) fn number_range(range: RangeAt) -> NumberRange
    ensures { result ≡ number_range range }
{
    NumberRange {
        start: field_number(range.first),
        end: field_number(range.last) + 1,
    }
}

/// The range of an enum, from its first number to its last.
pub(crate) fn value_range(range: RangeAt) -> EnumReservedRange
    ensures { result ≡ value_range range }
{
    EnumReservedRange {
        start: value_number(range.first),
        end: value_number(range.last),
    }
}
