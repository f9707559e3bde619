//! Reading tokens from the left.

ghost use Rattle.std.specs.Prelude.{◌≡◌, true, Some};
ghost use Rattle.proto_tree.specs.Reading.{Gives, token, ◌then◌, starts, maybe_token, many, behind_at, from_at};

use crate::class::{Class, Expected, Lexeme};
use crate::list::Sequence;
use crate::tree::{Behind, Separated};
use proto_base::NoMemory;
use std::alloc::Global;

// No `OrNoMemory`: its fault says nothing more, and it is copied.
/// Why a statement was not read.
#[derive(Clone, Copy)]
pub enum Stop {
    /// The tokens are not those of the statement.
    Syntax,
    /// Memory ran out.
    Memory,
}

impl From<NoMemory> for Stop {
    ghost use Rattle.std.specs.Prelude.{◌≡◌};
    ghost use Rattle.proto_tree.specs.declared.reading.Stop.TheVariants.{Memory};

    ghost from_gives = { λ _ e. e ≡ Memory };

    fn from(_error: NoMemory) -> Self {
        Stop::Memory
    }
}

/// A token that is what is wanted, and the tokens behind it.
#[tactic(auto, unfolding(crate::specs::Reading::token))]
pub fn take(rest: &[Lexeme], want: Expected) -> Result<(u32, &[Lexeme]), Stop>
    ensures { Gives (λ x. (x.0, x.1.now)) result (token want rest.now) }
{
    match rest {
        [first, rest @ ..] => {
            if !want.fits(first.class) {
                return Err(Stop::Syntax);
            }
            Ok((first.at, rest))
        }
        [] => Err(Stop::Syntax),
    }
}

/// A token of the class, and the tokens behind it.
pub fn one(rest: &[Lexeme], class: Class) -> Result<(u32, &[Lexeme]), Stop>
    ensures { Gives (λ x. (x.0, x.1.now)) result (token (Expected.One class) rest.now) }
{
    take(rest, Expected::One(class))
}

/// Three tokens that are what is wanted, one behind another.
pub fn three(
    rest: &[Lexeme],
    first: Expected,
    second: Expected,
    third: Expected,
) -> Result<((u32, u32, u32), &[Lexeme]), Stop>
    ensures { Gives (λ x. ((x.0.0, (x.0.1, x.0.2)), x.1.now)) result
        ((token first then token second then token third) rest.now) }
{
    let (first, rest) = take(rest, first)?;
    let (second, rest) = take(rest, second)?;
    let (third, rest) = take(rest, third)?;
    Ok(((first, second, third), rest))
}

/// Whether the first token is what is wanted.
pub fn starts(rest: &[Lexeme], want: Expected) -> bool
    ensures { result ≡ starts want rest.now }
{
    match rest {
        [first, ..] => want.fits(first.class),
        [] => false,
    }
}

/// The first token, which was seen to be what is wanted, and the tokens behind it.
#[tactic(auto, unfolding(crate::specs::Reading::token))]
pub fn first(rest: &[Lexeme], want: Expected) -> (u32, &[Lexeme])
    requires { starts want rest.now ≡ true }
    ensures { token want rest.now ≡ Some (result.0, result.1.now) }
{
    // The contract alone asks for it.
    let _ = want;
    match rest {
        [first, rest @ ..] => (first.at, rest),
        [] => (0, rest),
    }
}

/// A token that may be left out.
pub fn option(rest: &[Lexeme], want: Expected) -> (Option<u32>, &[Lexeme])
    ensures { maybe_token want rest.now ≡ Some (result.0, result.1.now) }
{
    if starts(rest, want) {
        let (at, rest) = first(rest, want);
        return (Some(at), rest);
    }
    (None, rest)
}

/// What stands in a list, with separators between each two.
pub trait Listed: Drop {
    ghost use Rattle.proto_tree.specs.declared.class.Expected.{Expected};
    ghost use Rattle.proto_tree.specs.Reading.{Reader, Gives};

    /// How one is read that begins with what is wanted.
    ghost item_at: { Expected → Reader Self };

    /// One that begins with what is wanted, and the tokens behind it.
    fn item(alloc: Global, rest: &[Lexeme], want: Expected) -> Result<(Self, &[Lexeme]), Stop>
        ensures { Gives (λ x. (x.0, x.1.now)) result (item_at want rest.now) };
}

impl Listed for u32 {
    ghost use Rattle.proto_tree.specs.Reading.{token};

    ghost item_at = { token };

    fn item(_alloc: Global, rest: &[Lexeme], want: Expected) -> Result<(Self, &[Lexeme]), Stop> {
        take(rest, want)
    }
}

/// Items, each behind a separator, as often as there is one.
pub fn more_items<T: Listed>(
    alloc: Global,
    tokens: &[Lexeme],
    separator: Class,
    want: Expected,
) -> Result<(Sequence<Behind<T>>, &[Lexeme]), Stop>
    ensures { Gives (λ x. (x.0, x.1.now)) result
        (many (Expected.One separator) (behind_at separator (T.item_at want)) tokens.now) }
{
    let mut items = Sequence::new(alloc);
    let mut rest = tokens;
    for _ in 0..tokens.len() {
        if !starts(rest, Expected::One(separator)) {
            return Ok((items, rest));
        }
        let (separator, after) = first(rest, Expected::One(separator));
        let (item, after) = T::item(alloc, after, want)?;
        items.push(Behind { separator, item })?;
        rest = after;
    }
    Ok((items, rest))
}

/// A list with separators, whose first item may begin with something else.
#[tactic(auto, unfolding(crate::specs::Reading::from_at))]
pub fn separated_items<T: Listed>(
    alloc: Global,
    rest: &[Lexeme],
    separator: Class,
    first: Expected,
    want: Expected,
) -> Result<(Separated<T>, &[Lexeme]), Stop>
    ensures { Gives (λ x. (x.0, x.1.now)) result
        (from_at separator (T.item_at first) (T.item_at want) rest.now) }
{
    let (first, rest) = T::item(alloc, rest, first)?;
    let (more, rest) = more_items(alloc, rest, separator, want)?;
    Ok((Separated { first, rest: more }, rest))
}
