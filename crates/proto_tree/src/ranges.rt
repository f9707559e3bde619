//! Reading ranges and reserved names of messages and enums.

ghost use Rattle.std.specs.Prelude.{◌≡◌, true};
ghost use Rattle.proto_tree.specs.Reading.{Gives, starts, stated, maybe, range_end_at, up_to_at, range_at, ranges_at, reserved_list_at, reserved_at, extensions_at};

use crate::class::{Class, Expected, Lexeme};
use crate::options::signed_number;
use crate::piece::{Piece, Statement};
use crate::reading::{Listed, Stop, first, one, separated_items, starts};
use crate::tree::{Extensions, Range, RangeEnd, Reserved, ReservedList, Separated, Signed, UpTo};
use std::alloc::Global;

/// A number: those of a message have no sign, those of an enum may have one.
pub trait Numeral: Drop {
    ghost use Rattle.proto_tree.specs.Reading.{Reader, Gives};

    /// How it is read.
    ghost number_at: { Reader Self };

    /// The number that stands first, and the tokens behind it.
    fn number(rest: &[Lexeme]) -> Result<(Self, &[Lexeme]), Stop>
        ensures { Gives (λ x. (x.0, x.1.now)) result (number_at rest.now) };
}

impl Numeral for u32 {
    ghost use Rattle.proto_tree.specs.Reading.{one_token};
    ghost use Rattle.proto_tree.specs.declared.class.Class.TheVariants as class;

    ghost number_at = { one_token class.Number };

    fn number(rest: &[Lexeme]) -> Result<(Self, &[Lexeme]), Stop> {
        one(rest, Class::Number)
    }
}

impl Numeral for Signed {
    ghost use Rattle.proto_tree.specs.Reading.{signed_at};

    ghost number_at = { signed_at };

    fn number(rest: &[Lexeme]) -> Result<(Self, &[Lexeme]), Stop> {
        signed_number(rest)
    }
}

#[tactic(auto, unfolding(crate::specs::Reading::range_end_at))]
fn range_end<N: Numeral>(rest: &[Lexeme]) -> Result<(RangeEnd<N>, &[Lexeme]), Stop>
    ensures { Gives (λ x. (x.0, x.1.now)) result (range_end_at N.number_at rest.now) }
{
    if starts(rest, Expected::One(Class::Max)) {
        let (at, rest) = first(rest, Expected::One(Class::Max));
        return Ok((RangeEnd::Max(at), rest));
    }
    let (number, rest) = N::number(rest)?;
    Ok((RangeEnd::Number(number), rest))
}

#[tactic(auto, unfolding(crate::specs::Reading::up_to_at))]
fn up_to<N: Numeral>(rest: &[Lexeme]) -> Result<(Option<UpTo<N>>, &[Lexeme]), Stop>
    ensures { Gives (λ x. (x.0, x.1.now)) result
        (maybe (Expected.One Class.To) (up_to_at N.number_at) rest.now) }
{
    if !starts(rest, Expected::One(Class::To)) {
        return Ok((None, rest));
    }
    let (to, rest) = first(rest, Expected::One(Class::To));
    let (end, rest) = range_end(rest)?;
    Ok((Some(UpTo { to, end }), rest))
}

#[tactic(auto, unfolding(crate::specs::Reading::range_at))]
fn range<N: Numeral>(rest: &[Lexeme]) -> Result<(Range<N>, &[Lexeme]), Stop>
    ensures { Gives (λ x. (x.0, x.1.now)) result (range_at N.number_at rest.now) }
{
    let (first, rest) = N::number(rest)?;
    let (up_to, rest) = up_to(rest)?;
    Ok((Range { first, up_to }, rest))
}

impl<N: Numeral> Listed for Range<N> {
    ghost use Rattle.proto_tree.specs.Reading.{range_at};

    ghost item_at = { λ w. range_at N.number_at };

    fn item(_alloc: Global, rest: &[Lexeme], _want: Expected) -> Result<(Self, &[Lexeme]), Stop> {
        range(rest)
    }
}

fn ranges<N: Numeral>(
    alloc: Global,
    rest: &[Lexeme],
) -> Result<(Separated<Range<N>>, &[Lexeme]), Stop>
    ensures { Gives (λ x. (x.0, x.1.now)) result (ranges_at N.number_at rest.now) }
{
    let number = Expected::One(Class::Number);
    separated_items(alloc, rest, Class::Comma, number, number)
}

#[tactic(auto, unfolding(crate::specs::Reading::reserved_list_at))]
fn reserved_list<N: Numeral>(
    alloc: Global,
    rest: &[Lexeme],
) -> Result<(ReservedList<N>, &[Lexeme]), Stop>
    ensures { Gives (λ x. (x.0, x.1.now)) result
        (reserved_list_at N.number_at rest.now) }
{
    if starts(rest, Expected::Text) {
        let (names, rest) = separated_items(
            alloc,
            rest,
            Class::Comma,
            Expected::Text,
            Expected::Text,
        )?;
        return Ok((ReservedList::Names(names), rest));
    }
    let (ranges, rest) = ranges(alloc, rest)?;
    Ok((ReservedList::Ranges(ranges), rest))
}

/// `reserved 1, 3 to max;` or `reserved "a", "b";`
#[tactic(auto, unfolding(crate::specs::Reading::reserved_at))]
pub fn reserved_statement<N: Numeral>(
    alloc: Global,
    rest: &[Lexeme],
) -> Result<(Reserved<N>, &[Lexeme]), Stop>
    requires { starts (Expected.One Class.Reserved) rest.now ≡ true }
    ensures { Gives (λ x. (x.0, x.1.now)) result (reserved_at N.number_at rest.now) }
{
    let (keyword, rest) = first(rest, Expected::One(Class::Reserved));
    let (list, rest) = reserved_list(alloc, rest)?;
    let (semicolon, rest) = one(rest, Class::Semicolon)?;
    Ok((
        Reserved {
            keyword,
            list,
            semicolon,
        },
        rest,
    ))
}

/// `extensions 100 to max;`
#[tactic(auto, unfolding(crate::specs::Reading::extensions_at))]
pub fn extensions(alloc: Global, rest: &[Lexeme]) -> Result<(Piece, &[Lexeme]), Stop>
    requires { starts (Expected.One Class.Extensions) rest.now ≡ true }
    ensures { Gives (λ x. (x.0, x.1.now)) result
        (stated Statement.Extensions extensions_at rest.now) }
{
    let (keyword, rest) = first(rest, Expected::One(Class::Extensions));
    let (ranges, rest) = ranges(alloc, rest)?;
    let (semicolon, rest) = one(rest, Class::Semicolon)?;
    let extensions = Extensions {
        keyword,
        ranges,
        semicolon,
    };
    Ok((Piece::Statement(Statement::Extensions(extensions)), rest))
}
