//! What is wrong with numbers and ranges.

ghost use Rattle.std.specs.Prelude.{◌≡◌, ◌||◌, ◌++◌, List, map, IfOk, OnOk};
ghost use Rattle.std.specs.List.{list_any};
ghost use Rattle.proto_base.specs.declared.fault.FaultKind.TheVariants as kind;
ghost use Rattle.proto_desc_numbers.specs.Flaws.{earlier, after_earlier, marked};
ghost use Rattle.proto_desc_numbers.specs.NumberFlaws.{is_within, is_field_number, is_value_number, is_sound_range, is_inside, most_value, least_value, outside, broken_ranges, reserved_numbers, share, overlaps, repeated_numbers, field_number_flaws};
ghost use Rattle.proto_ast.specs.declared.ranges.RangeAt.{RangeAt as RangeOf};
ghost use Rattle.proto_desc_numbers.specs.RangeIndex.{IsRangeIndexOf};

use crate::flaw::{Flaw, add_if, add_marked, repeats};
use crate::range_index::{has_numbers, index_of, shares};
use proto_ast::{RangeAt, meet};
use proto_base::{FaultKind, NoMemory};
use std::alloc::{AllocError, Global};

/// The last field number.
pub(crate) const MOST_FIELD: i128 = 536_870_911;

/// The last number of a value of an enum.
pub const MOST_VALUE: i128 = 2_147_483_647;

/// The first number of a value of an enum.
pub const LEAST_VALUE: i128 = -2_147_483_648;

/// So many ranges are compared in halves.
const FEW: usize = 16;

/// A number, by the first token that it stands at.
#[derive(Clone, Copy)]
pub struct NumberAt {
    pub token: u32,
    pub number: i128,
}

/// Whether a number is one of those from the least to the most.
pub fn is_within(least: i128, most: i128, number: i128) -> bool
    ensures { result ≡ is_within least most number }
{
    least <= number && number <= most
}

// ---- limits

fn is_field_number(number: i128) -> bool
    ensures { result ≡ is_field_number number }
{
    is_within(1, MOST_FIELD, number) && !is_within(19_000, 19_999, number)
}

/// Adds a flaw at each number that no field may have.
pub fn add_outside_fields(found: &mut Vec<Flaw>, numbers: &[NumberAt]) -> Result<(), NoMemory>
    ensures { OnOk result (found.new.items ≡ found.old.items
        ++ outside is_field_number numbers.now) }
{
    for at in numbers {
        let is_outside = !is_field_number(at.number);
        add_if(found, is_outside, FaultKind::NumberRange, at.token)?;
    }
    Ok(())
}

/// Adds a flaw at each number that no value of an enum may have.
pub fn add_outside_values(found: &mut Vec<Flaw>, numbers: &[NumberAt]) -> Result<(), NoMemory>
    ensures { OnOk result (found.new.items ≡ found.old.items
        ++ outside is_value_number numbers.now) }
{
    for at in numbers {
        let is_outside = !is_within(LEAST_VALUE, MOST_VALUE, at.number);
        add_if(found, is_outside, FaultKind::NumberRange, at.token)?;
    }
    Ok(())
}

fn is_sound(least: i128, most: i128, range: RangeAt) -> bool
    ensures { result ≡ is_sound_range least most range }
{
    is_within(least, most, range.first)
        && is_within(least, most, range.last)
        && range.first <= range.last
}

/// Adds a flaw at each range with a bound outside the limits, or that ends before it begins.
pub(crate) fn add_broken_ranges(
    found: &mut Vec<Flaw>,
    least: i128,
    most: i128,
    ranges: &[RangeAt],
) -> Result<(), NoMemory>
    ensures { OnOk result (found.new.items ≡ found.old.items
        ++ broken_ranges least most ranges.now) }
{
    for range in ranges {
        let is_broken = !is_sound(least, most, *range);
        add_if(found, is_broken, FaultKind::NumberRange, range.token)?;
    }
    Ok(())
}

// ---- numbers in ranges

/// The range of one number.
fn alone(at: NumberAt) -> RangeAt
    ensures first { result.first ≡ at.number }
    ensures last { result.last ≡ at.number }
{
    RangeAt {
        token: at.token,
        first: at.number,
        last: at.number,
    }
}

/// Whether a number is inside one of the ranges that are indexed.
pub fn is_covered(index: &[RangeAt], at: NumberAt) -> bool
    ensures { (rs : List RangeOf) → IsRangeIndexOf rs index.now
        → result ≡ list_any (is_inside at.number) rs }
{
    shares(index, alone(at))
}

fn add_inside(
    found: &mut Vec<Flaw>,
    index: &[RangeAt],
    numbers: &[NumberAt],
) -> Result<(), NoMemory>
    ensures { OnOk result ((rs : List RangeOf) → IsRangeIndexOf rs index.now
        → found.new.items ≡ found.old.items ++ reserved_numbers rs numbers.now) }
{
    for at in numbers {
        let reserved = is_covered(index, *at);
        add_if(found, reserved, FaultKind::ReservedNumber, at.token)?;
    }
    Ok(())
}

/// Adds a flaw at each number inside a range.
pub(crate) fn add_reserved_numbers(
    alloc: Global,
    found: &mut Vec<Flaw>,
    ranges: &[RangeAt],
    numbers: &[NumberAt],
) -> Result<(), NoMemory>
    ensures { OnOk result (found.new.items ≡ found.old.items
        ++ reserved_numbers ranges.now numbers.now) }
{
    let index = index_of(alloc, ranges)?;
    add_inside(found, &index, numbers)
}

// ---- ranges that share a number

fn share(a: RangeAt, b: RangeAt) -> bool
    ensures { result ≡ share a b }
{
    has_numbers(a) && has_numbers(b) && meet(a, b)
}

fn shares_with_any(ranges: &[RangeAt], range: RangeAt) -> bool
    ensures { result ≡ list_any (λ r. share r range) ranges.now }
{
    ranges.iter().any(|other| share(*other, range))
}

/// For each of few ranges, whether it shares a number with an earlier one.
fn sharing_of_few(alloc: Global, ranges: &[RangeAt]) -> Result<Vec<bool>, NoMemory>
    ensures { IfOk result (λ flags. flags.items ≡ after_earlier share ranges.now) }
{
    let mut flags = Vec::new(alloc);
    for i in 0..ranges.len() {
        flags.push(shares_with_any(&ranges[..i], ranges[i]))?;
    }
    Ok(flags)
}

/// Whether a range shares a number with one that is indexed, or is known to share one.
fn shares_again(index: &[RangeAt], range: RangeAt, is_known: bool) -> bool
    ensures { (rs : List RangeOf) → IsRangeIndexOf rs index.now
        → result ≡ (list_any (λ r. share r range) rs || is_known) }
{
    shares(index, range) || is_known
}

/// Adds, for each range, whether it shares a number with one that is indexed or with an earlier one
/// of these; whether it does with one of these is known.
fn add_sharing(
    flags: &mut Vec<bool>,
    index: &[RangeAt],
    ranges: &[RangeAt],
    known: &[bool],
) -> Result<(), NoMemory>
    requires { known.now ≡ after_earlier share ranges.now }
    ensures { OnOk result ((rs : List RangeOf) → IsRangeIndexOf rs index.now
        → flags.new.items ≡ flags.old.items ++ earlier share rs ranges.now) }
{
    for i in 0..ranges.len() {
        flags.push(shares_again(index, ranges[i], known[i]))?;
    }
    Ok(())
}

/// For each range, whether it shares a number with an earlier one. The second half is looked up in
/// an index of the first, so that many ranges take little longer than a sort.
fn sharing(alloc: Global, ranges: &[RangeAt]) -> Result<Vec<bool>, NoMemory>
    ensures { IfOk result (λ flags. flags.items ≡ after_earlier share ranges.now) }
{
    if ranges.len() < FEW {
        return sharing_of_few(alloc, ranges);
    }
    let (front, back) = ranges.split_at(ranges.len() / 2);
    let mut flags = sharing(alloc, front)?;
    let known = sharing(alloc, back)?;
    let index = index_of(alloc, front)?;
    add_sharing(&mut flags, &index, back, &known)?;
    Ok(flags)
}

fn range_tokens(alloc: Global, ranges: &[RangeAt]) -> Result<Vec<u32>, AllocError>
    ensures { IfOk result (λ tokens. tokens.items ≡ map (λ r. r.token) ranges.now) }
{
    ranges.iter().map(|range| range.token).collect(alloc)
}

/// Adds a flaw at each range that shares a number with an earlier one.
pub(crate) fn add_overlaps(
    alloc: Global,
    found: &mut Vec<Flaw>,
    ranges: &[RangeAt],
) -> Result<(), NoMemory>
    ensures { OnOk result (found.new.items ≡ found.old.items ++ overlaps ranges.now) }
{
    let tokens = range_tokens(alloc, ranges)?;
    let flags = sharing(alloc, ranges)?;
    add_marked(found, FaultKind::RangeOverlap, &tokens, &flags)
}

// ---- numbers that are given twice

fn values(alloc: Global, numbers: &[NumberAt]) -> Result<Vec<i128>, AllocError>
    ensures { IfOk result (λ values. values.items ≡ map (λ n. n.number) numbers.now) }
{
    numbers.iter().map(|at| at.number).collect(alloc)
}

/// The tokens that the numbers stand at, in order.
pub fn number_tokens(alloc: Global, numbers: &[NumberAt]) -> Result<Vec<u32>, NoMemory>
    ensures { IfOk result (λ tokens. tokens.items ≡ map (λ n. n.token) numbers.now) }
{
    Ok(numbers.iter().map(|at| at.token).collect(alloc)?)
}

/// For each number, in order, whether an earlier one is equal.
pub fn repeated_flags(alloc: Global, numbers: &[NumberAt]) -> Result<Vec<bool>, NoMemory>
    ensures { IfOk result (λ flags. flags.items ≡ repeated_numbers numbers.now) }
{
    let keys = values(alloc, numbers)?;
    repeats(alloc, keys)
}

/// Adds a flaw at each field number that an earlier field has.
pub(crate) fn add_repeated_fields(
    alloc: Global,
    found: &mut Vec<Flaw>,
    numbers: &[NumberAt],
) -> Result<(), NoMemory>
    ensures { OnOk result (found.new.items ≡ found.old.items ++ marked kind.DuplicateNumber
        (map (λ n. n.token) numbers.now) (repeated_numbers numbers.now)) }
{
    let tokens = number_tokens(alloc, numbers)?;
    let flags = repeated_flags(alloc, numbers)?;
    add_marked(found, FaultKind::DuplicateNumber, &tokens, &flags)
}

// ---- all of a message or an enum

/// Adds what is wrong with the numbers of a message's fields, and with its ranges.
pub fn add_field_numbers(
    alloc: Global,
    found: &mut Vec<Flaw>,
    ranges: &[RangeAt],
    numbers: &[NumberAt],
) -> Result<(), NoMemory>
    ensures { OnOk result (found.new.items ≡ found.old.items
        ++ field_number_flaws ranges.now numbers.now) }
{
    add_outside_fields(found, numbers)?;
    add_repeated_fields(alloc, found, numbers)?;
    add_reserved_numbers(alloc, found, ranges, numbers)?;
    add_broken_ranges(found, 1, MOST_FIELD, ranges)?;
    add_overlaps(alloc, found, ranges)
}

/// Adds what is wrong with the ranges of an enum, and the numbers of its values inside them.
pub fn add_value_ranges(
    alloc: Global,
    found: &mut Vec<Flaw>,
    ranges: &[RangeAt],
    numbers: &[NumberAt],
) -> Result<(), NoMemory>
    ensures { OnOk result (found.new.items ≡ found.old.items ++
        (reserved_numbers ranges.now numbers.now
        ++ (broken_ranges least_value most_value ranges.now ++ overlaps ranges.now))) }
{
    add_reserved_numbers(alloc, found, ranges, numbers)?;
    add_broken_ranges(found, LEAST_VALUE, MOST_VALUE, ranges)?;
    add_overlaps(alloc, found, ranges)
}
