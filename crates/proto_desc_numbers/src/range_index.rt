//! Ranges in order, for looking up which share a number with another.

ghost use Rattle.std.specs.Prelude.{◌≡◌, ℤ, ◌≤◌, ◌-◌, ◌||◌, ◌&&◌, nat_lt, int_le, true, false, List, length, get_or, IfOk};
ghost use Rattle.std.specs.List.{list_any, filter};
ghost use Rattle.std.specs.List.Sorted.{IsPermutation, IsPartitionPoint};
ghost use Rattle.proto_ast.specs.declared.ranges.RangeAt.{RangeAt as RangeOf};
ghost use Rattle.proto_desc_numbers.specs.NumberFlaws.{share};
ghost use Rattle.proto_desc_numbers.specs.RangeIndex.{has_numbers, RangesAreInOrder, AreRaised, IsRangeIndexOf, range_reaches};

use proto_ast::RangeAt;
use proto_base::NoMemory;
use std::alloc::{AllocError, Global};

/// Whether a range does not end before it begins.
pub(crate) fn has_numbers(range: RangeAt) -> bool
    ensures { result ≡ has_numbers range }
{
    range.first <= range.last
}

fn with_numbers(alloc: Global, ranges: &[RangeAt]) -> Result<Vec<RangeAt>, AllocError>
    ensures { IfOk result (λ kept. kept.items ≡ filter has_numbers ranges.now) }
{
    ranges
        .iter()
        .filter(|range| range.first <= range.last)
        .map(|range| *range)
        .collect(alloc)
}

fn in_order(ranges: Vec<RangeAt>) -> Vec<RangeAt>
    ensures same { IsPermutation ranges.items result.items }
    ensures order { RangesAreInOrder result.items }
{
    let mut sorted = ranges;
    sorted.sort_unstable_by_key(|range| range.first);
    sorted
}

/// A range that ends where it or the one before it ends last.
fn raised_range(before: Option<RangeAt>, range: RangeAt) -> RangeAt
    ensures first { result.first ≡ range.first }
    ensures last { (n : ℤ) → int_le n result.last
        ≡ (range_reaches n before || int_le n range.last) }
{
    match before {
        Some(other) => {
            if other.last > range.last {
                RangeAt {
                    last: other.last,
                    ..range
                }
            } else {
                range
            }
        }
        None => range,
    }
}

fn raised_ranges(alloc: Global, ranges: &[RangeAt]) -> Result<Vec<RangeAt>, NoMemory>
    ensures { IfOk result (λ raised. AreRaised ranges.now raised.items) }
{
    let mut raised = Vec::new(alloc);
    let mut before = None;
    for range in ranges {
        let next = raised_range(before, *range);
        raised.push(next)?;
        before = Some(next);
    }
    Ok(raised)
}

/// An index of ranges, by which `shares` and `is_covered` look them up. Fails only when out of
/// memory.
pub fn index_of(alloc: Global, ranges: &[RangeAt]) -> Result<Vec<RangeAt>, NoMemory>
    ensures { IfOk result (λ index. IsRangeIndexOf ranges.now index.items) }
{
    let sorted = in_order(with_numbers(alloc, ranges)?);
    raised_ranges(alloc, &sorted)
}

/// How many of the ranges begin before another ends.
fn count_begun(index: &[RangeAt], range: RangeAt) -> usize
    ensures bound { result ≤ length index.now }
    ensures place { RangesAreInOrder index.now → IsPartitionPoint
        (λ r. int_le r.first range.last ≡ true)
        (λ r. int_le r.first range.last ≡ false) index.now result }
{
    index.partition_point(|other| other.first <= range.last)
}

fn reach_before(index: &[RangeAt], place: usize, range: RangeAt) -> bool
    requires { place ≤ length index.now }
    ensures { (d : RangeOf)
        → result ≡ (nat_lt 0 place && int_le range.first (get_or index.now (place - 1) d).last) }
{
    place > 0 && range.first <= index[place - 1].last
}

/// Whether one of the ranges that are indexed shares a number with a range.
pub(crate) fn shares(index: &[RangeAt], range: RangeAt) -> bool
    ensures { (rs : List RangeOf) → IsRangeIndexOf rs index.now
        → result ≡ list_any (λ r. share r range) rs }
{
    let place = count_begun(index, range);
    has_numbers(range) && reach_before(index, place, range)
}
