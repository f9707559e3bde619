//! The numbers and ranges of a message or an enum, in order.

ghost use Rattle.std.specs.Prelude.{◌≡◌, map, IfOk};
ghost use Rattle.proto_ast.specs.Scenes.{number_at, signed_value};
ghost use Rattle.proto_ast.specs.Views.{field_of};
ghost use Rattle.proto_desc_numbers.specs.NumberFlaws.{bound_of, enum_range_of, first_of_signed, most_field, most_value, number_of_field, number_of_value, range_of};

use crate::numbers::{MOST_FIELD, MOST_VALUE, NumberAt};
use proto_ast::{FieldAt, RangeAt, Scene};
use proto_base::NoMemory;
use proto_tree::{Range, RangeEnd, Signed, Value};
use std::alloc::Global;

// ---- of messages

fn number_of_field(scene: &Scene, field: FieldAt) -> NumberAt
    ensures { result ≡ number_of_field scene.now (field_of field.entry) }
{
    NumberAt {
        token: field.number,
        number: scene.number(field.number),
    }
}

/// The numbers of fields, in order, each by its token.
pub fn field_numbers(
    alloc: Global,
    scene: &Scene,
    fields: &[FieldAt],
) -> Result<Vec<NumberAt>, NoMemory>
    ensures { IfOk result (λ numbers. numbers.items
        ≡ map (number_of_field scene.now) (map field_of fields.now)) }
{
    let mut numbers = Vec::with_capacity(alloc, fields.len())?;
    for field in fields {
        numbers.push(number_of_field(scene, *field))?;
    }
    Ok(numbers)
}

fn field_bound(scene: &Scene, end: &RangeEnd<u32>) -> i128
    ensures { result ≡ bound_of most_field (number_at scene.now) end.now }
{
    match end {
        RangeEnd::Number(number) => scene.number(*number),
        RangeEnd::Max(_) => MOST_FIELD,
    }
}

fn range_of(scene: &Scene, range: &Range<u32>) -> RangeAt
    ensures { result ≡ range_of scene.now range.now }
{
    let first = scene.number(range.first);
    let last = match &range.up_to {
        Some(up_to) => field_bound(scene, &up_to.end),
        None => first,
    };
    RangeAt {
        token: range.first,
        first,
        last,
    }
}

/// The ranges of a message.
pub fn field_ranges(
    alloc: Global,
    scene: &Scene,
    ranges: &[&Range<u32>],
) -> Result<Vec<RangeAt>, NoMemory>
    ensures { IfOk result (λ found. found.items
        ≡ map (range_of scene.now) (map (λ r. r.now) ranges.now)) }
{
    let mut found = Vec::new(alloc);
    for range in ranges {
        found.push(range_of(scene, range))?;
    }
    Ok(found)
}

// ---- of enums, as of fields, over signed numbers, with a first token and a limit of their own

fn first_token(signed: Signed) -> u32
    ensures { result ≡ first_of_signed signed }
{
    match signed.minus {
        Some(minus) => minus,
        None => signed.number,
    }
}

fn number_of_value(scene: &Scene, value: &Value) -> NumberAt
    ensures { result ≡ number_of_value scene.now value.now }
{
    NumberAt {
        token: first_token(value.number),
        number: scene.signed_number(value.number),
    }
}

/// The numbers of values.
pub fn value_numbers(
    alloc: Global,
    scene: &Scene,
    values: &[&Value],
) -> Result<Vec<NumberAt>, NoMemory>
    ensures { IfOk result (λ numbers. numbers.items
        ≡ map (number_of_value scene.now) (map (λ v. v.now) values.now)) }
{
    let mut numbers = Vec::new(alloc);
    for value in values {
        numbers.push(number_of_value(scene, value))?;
    }
    Ok(numbers)
}

fn value_bound(scene: &Scene, end: &RangeEnd<Signed>) -> i128
    ensures { result ≡ bound_of most_value (signed_value scene.now) end.now }
{
    match end {
        RangeEnd::Number(number) => scene.signed_number(*number),
        RangeEnd::Max(_) => MOST_VALUE,
    }
}

fn enum_range_of(scene: &Scene, range: &Range<Signed>) -> RangeAt
    ensures { result ≡ enum_range_of scene.now range.now }
{
    let first = scene.signed_number(range.first);
    let last = match &range.up_to {
        Some(up_to) => value_bound(scene, &up_to.end),
        None => first,
    };
    RangeAt {
        token: first_token(range.first),
        first,
        last,
    }
}

/// The ranges of an enum.
pub fn value_ranges(
    alloc: Global,
    scene: &Scene,
    ranges: &[&Range<Signed>],
) -> Result<Vec<RangeAt>, NoMemory>
    ensures { IfOk result (λ found. found.items
        ≡ map (enum_range_of scene.now) (map (λ r. r.now) ranges.now)) }
{
    let mut found = Vec::new(alloc);
    for range in ranges {
        found.push(enum_range_of(scene, range))?;
    }
    Ok(found)
}
