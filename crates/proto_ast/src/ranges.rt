//! Ranges of numbers, and those that are reserved, or left to extensions.

ghost use Rattle.std.specs.Prelude.{◌≡◌, ◌&&◌, ◌++◌, int_le, map, flat_map, IfOk, OnOk};
ghost use Rattle.proto_tree.specs.File.{enum_item_tree, member_tree, trees};
ghost use Rattle.proto_ast.specs.Parts.{closed_ranges, enum_ranges, extension_ranges, extension_words, ranges_of, reserved_ranges, statements};

use crate::separated::{push, push_separated};
use proto_base::NoMemory;
use proto_tree::{EnumItem, Member, Range, ReservedList, Signed};
use std::alloc::Global;

/// The numbers from the first to the last, both among them; by the range's first token.
#[derive(Clone, Copy)]
pub struct RangeAt {
    pub token: u32,
    pub first: i128,
    pub last: i128,
}

/// Whether neither of two ranges ends before the other begins.
pub fn meet(a: RangeAt, b: RangeAt) -> bool
    ensures { result ≡ (int_le a.first b.last && int_le b.first a.last) }
{
    a.first <= b.last && b.first <= a.last
}

fn push_reserved<'a, N: Drop>(
    found: &mut Vec<&'a Range<N>>,
    list: &'a ReservedList<N>,
) -> Result<(), NoMemory>
    ensures { OnOk result (map (λ r. r.now) found.new.items
        ≡ map (λ r. r.now) found.old.items ++ ranges_of list.now) }
{
    match list {
        ReservedList::Ranges(ranges) => push_separated(found, ranges),
        ReservedList::Names(_) => Ok(()),
    }
}

fn push_reserved_ranges<'a>(
    found: &mut Vec<&'a Range<u32>>,
    member: &'a Member,
) -> Result<(), NoMemory>
    ensures { OnOk result (map (λ r. r.now) found.new.items ≡ map (λ r. r.now) found.old.items
        ++ flat_map reserved_ranges (statements (member_tree member.now))) }
{
    match member {
        Member::Reserved(reserved) => push_reserved(found, &reserved.list),
        _ => Ok(()),
    }
}

// One loop for each kind of range: a loop that is passed what it pushes would need a closure, whose
// clauses are longer than the loop.

/// The ranges that a message reserves, in order.
pub fn reserved_ranges<'a>(
    alloc: Global,
    members: &'a [Member],
) -> Result<Vec<&'a Range<u32>>, NoMemory>
    ensures { IfOk result (λ found. map (λ r. r.now) found.items
        ≡ flat_map reserved_ranges (statements (trees member_tree members.now))) }
{
    let mut found = Vec::new(alloc);
    for member in members {
        push_reserved_ranges(&mut found, member)?;
    }
    Ok(found)
}

fn push_extension_ranges<'a>(
    found: &mut Vec<&'a Range<u32>>,
    member: &'a Member,
) -> Result<(), NoMemory>
    ensures { OnOk result (map (λ r. r.now) found.new.items ≡ map (λ r. r.now) found.old.items
        ++ flat_map extension_ranges (statements (member_tree member.now))) }
{
    match member {
        Member::Extensions(extensions) => push_separated(found, &extensions.ranges),
        _ => Ok(()),
    }
}

/// The ranges that a message leaves to extensions, in order.
pub fn extension_ranges<'a>(
    alloc: Global,
    members: &'a [Member],
) -> Result<Vec<&'a Range<u32>>, NoMemory>
    ensures { IfOk result (λ found. map (λ r. r.now) found.items
        ≡ flat_map extension_ranges (statements (trees member_tree members.now))) }
{
    let mut found = Vec::new(alloc);
    for member in members {
        push_extension_ranges(&mut found, member)?;
    }
    Ok(found)
}

fn push_closed_ranges<'a>(
    found: &mut Vec<&'a Range<u32>>,
    member: &'a Member,
) -> Result<(), NoMemory>
    ensures { OnOk result (map (λ r. r.now) found.new.items ≡ map (λ r. r.now) found.old.items
        ++ flat_map closed_ranges (statements (member_tree member.now))) }
{
    match member {
        Member::Reserved(reserved) => push_reserved(found, &reserved.list),
        Member::Extensions(extensions) => push_separated(found, &extensions.ranges),
        _ => Ok(()),
    }
}

/// The ranges of a message of both kinds, in order.
pub fn closed_ranges<'a>(
    alloc: Global,
    members: &'a [Member],
) -> Result<Vec<&'a Range<u32>>, NoMemory>
    ensures { IfOk result (λ found. map (λ r. r.now) found.items
        ≡ flat_map closed_ranges (statements (trees member_tree members.now))) }
{
    let mut found = Vec::new(alloc);
    for member in members {
        push_closed_ranges(&mut found, member)?;
    }
    Ok(found)
}

fn push_extension_word(found: &mut Vec<u32>, member: &Member) -> Result<(), NoMemory>
    ensures { OnOk result (found.new.items ≡ found.old.items
        ++ flat_map extension_words (statements (member_tree member.now))) }
{
    match member {
        Member::Extensions(extensions) => push(found, extensions.keyword),
        _ => Ok(()),
    }
}

/// The tokens of the word `extensions` of each such statement of a message, in order.
pub fn extension_words(alloc: Global, members: &[Member]) -> Result<Vec<u32>, NoMemory>
    ensures { IfOk result (λ found. found.items
        ≡ flat_map extension_words (statements (trees member_tree members.now))) }
{
    let mut found = Vec::new(alloc);
    for member in members {
        push_extension_word(&mut found, member)?;
    }
    Ok(found)
}

fn push_enum_ranges<'a>(
    found: &mut Vec<&'a Range<Signed>>,
    item: &'a EnumItem,
) -> Result<(), NoMemory>
    ensures { OnOk result (map (λ r. r.now) found.new.items ≡ map (λ r. r.now) found.old.items
        ++ flat_map enum_ranges (statements (enum_item_tree item.now))) }
{
    match item {
        EnumItem::Reserved(reserved) => push_reserved(found, &reserved.list),
        _ => Ok(()),
    }
}

/// The ranges that an enum reserves, in order.
pub fn enum_ranges<'a>(
    alloc: Global,
    items: &'a [EnumItem],
) -> Result<Vec<&'a Range<Signed>>, NoMemory>
    ensures { IfOk result (λ found. map (λ r. r.now) found.items
        ≡ flat_map enum_ranges (statements (trees enum_item_tree items.now))) }
{
    let mut found = Vec::new(alloc);
    for item in items {
        push_enum_ranges(&mut found, item)?;
    }
    Ok(found)
}
