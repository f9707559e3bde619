//! Reading names and types.

ghost use Rattle.proto_tree.specs.Reading.{Gives, dotted_at, named_at, package_name_at, reference_at, type_at};

use crate::class::{Class, Expected, Lexeme};
use crate::reading::{Stop, first, separated_items, starts};
use crate::tree::{Dotted, FieldType, Reference};
use std::alloc::Global;

/// Words joined by dots.
pub fn dotted_words(alloc: Global, rest: &[Lexeme]) -> Result<(Dotted, &[Lexeme]), Stop>
    ensures { Gives (λ x. (x.0, x.1.now)) result (dotted_at rest.now) }
{
    separated_items(alloc, rest, Class::Dot, Expected::Word, Expected::Word)
}

/// The words that name a package.
pub fn package_name(alloc: Global, rest: &[Lexeme]) -> Result<(Dotted, &[Lexeme]), Stop>
    ensures { Gives (λ x. (x.0, x.1.now)) result (package_name_at rest.now) }
{
    separated_items(alloc, rest, Class::Dot, Expected::Name, Expected::Name)
}

/// Words joined by dots, the first of which is not a listed one.
fn unlisted_name(alloc: Global, rest: &[Lexeme]) -> Result<(Dotted, &[Lexeme]), Stop>
    ensures { Gives (λ x. (x.0, x.1.now)) result (named_at rest.now) }
{
    separated_items(
        alloc,
        rest,
        Class::Dot,
        Expected::One(Class::Name),
        Expected::Word,
    )
}

/// A reference, with a dot before it or without.
#[tactic(auto, unfolding(crate::specs::Reading::reference_at))]
pub fn reference(alloc: Global, rest: &[Lexeme]) -> Result<(Reference, &[Lexeme]), Stop>
    ensures { Gives (λ x. (x.0, x.1.now)) result (reference_at rest.now) }
{
    if starts(rest, Expected::One(Class::Dot)) {
        let (dot, rest) = first(rest, Expected::One(Class::Dot));
        let (words, rest) = dotted_words(alloc, rest)?;
        return Ok((
            Reference {
                dot: Some(dot),
                words,
            },
            rest,
        ));
    }
    let (words, rest) = unlisted_name(alloc, rest)?;
    Ok((Reference { dot: None, words }, rest))
}

/// The type of a field: the word of a scalar type, or a reference.
#[tactic(auto, unfolding(crate::specs::Reading::type_at))]
pub fn field_type(alloc: Global, rest: &[Lexeme]) -> Result<(FieldType, &[Lexeme]), Stop>
    ensures { Gives (λ x. (x.0, x.1.now)) result (type_at rest.now) }
{
    if starts(rest, Expected::One(Class::Scalar)) {
        let (word, rest) = first(rest, Expected::One(Class::Scalar));
        return Ok((FieldType::Scalar(word), rest));
    }
    let (words, rest) = reference(alloc, rest)?;
    Ok((FieldType::Reference(words), rest))
}
