//! Reading a piece: a statement, or what begins or ends a block.

ghost use Rattle.std.specs.Prelude.{◌≡◌, true};
ghost use Rattle.proto_tree.specs.Reading.{Gives, starts, stated, one_token, reserved_at, header_of, block_start, extending_at, close_at, empty_at, enum_piece_at, inner_piece_at};
ghost use Rattle.proto_tree.specs.Walk.{any_piece_in};

use crate::class::{Class, Expected, Lexeme};
use crate::context::Context;
use crate::methods::method;
use crate::names::reference;
use crate::options::option_statement;
use crate::piece::{Extending, Header, Heading, Piece, Statement};
use crate::ranges::{extensions, reserved_statement};
use crate::reading::{Stop, first, one, starts, three};
use crate::statements::{field, import, map_field, package, syntax, value};
use std::alloc::Global;

/// What stands before the brace of a block whose keyword is this one.
fn header_of(class: Class, heading: Heading) -> Header
    ensures { result ≡ header_of class heading }
{
    match class {
        Class::Message => Header::Message(heading),
        Class::Oneof => Header::Oneof(heading),
        Class::Enum => Header::Enum(heading),
        _ => Header::Service(heading),
    }
}

/// A keyword, a name and a brace.
fn opening(rest: &[Lexeme], class: Class) -> Result<(Piece, &[Lexeme]), Stop>
    ensures { Gives (λ x. (x.0, x.1.now)) result (block_start (header_of class) class rest.now) }
{
    let open = Expected::One(Class::Open);
    let ((keyword, name, open), rest) = three(rest, Expected::One(class), Expected::Name, open)?;
    let header = header_of(class, Heading { keyword, name });
    Ok((Piece::Open(header, open), rest))
}

fn close(rest: &[Lexeme]) -> Result<(Piece, &[Lexeme]), Stop>
    requires { starts (Expected.One Class.Close) rest.now ≡ true }
    ensures { Gives (λ x. (x.0, x.1.now)) result (close_at rest.now) }
{
    let (at, rest) = first(rest, Expected::One(Class::Close));
    Ok((Piece::Close(at), rest))
}

fn empty(rest: &[Lexeme]) -> Result<(Piece, &[Lexeme]), Stop>
    requires { starts (Expected.One Class.Semicolon) rest.now ≡ true }
    ensures { Gives (λ x. (x.0, x.1.now)) result (empty_at rest.now) }
{
    let (at, rest) = first(rest, Expected::One(Class::Semicolon));
    Ok((Piece::Statement(Statement::Empty(at)), rest))
}

#[tactic(auto, unfolding(crate::specs::Reading::enum_piece_at))]
fn enum_piece(alloc: Global, rest: &[Lexeme]) -> Result<(Piece, &[Lexeme]), Stop>
    ensures { Gives (λ x. (x.0, x.1.now)) result (enum_piece_at rest.now) }
{
    if starts(rest, Expected::One(Class::Close)) {
        return close(rest);
    }
    if starts(rest, Expected::One(Class::Semicolon)) {
        return empty(rest);
    }
    if starts(rest, Expected::One(Class::Option)) {
        return option_statement(alloc, rest);
    }
    if starts(rest, Expected::One(Class::Reserved)) {
        let (reserved, rest) = reserved_statement(alloc, rest)?;
        return Ok((Piece::Statement(Statement::EnumReserved(reserved)), rest));
    }
    value(alloc, rest)
}

fn reserved_piece(alloc: Global, rest: &[Lexeme]) -> Result<(Piece, &[Lexeme]), Stop>
    requires { starts (Expected.One Class.Reserved) rest.now ≡ true }
    ensures { Gives (λ x. (x.0, x.1.now)) result
        (stated Statement.Reserved (reserved_at (one_token Class.Number)) rest.now) }
{
    let (reserved, rest) = reserved_statement(alloc, rest)?;
    Ok((Piece::Statement(Statement::Reserved(reserved)), rest))
}

// What stands in front of the fields of an `extend` block.
#[tactic(auto, unfolding(crate::specs::Reading::extending_at))]
fn extending(alloc: Global, rest: &[Lexeme]) -> Result<(Piece, &[Lexeme]), Stop>
    requires { starts (Expected.One Class.Extend) rest.now ≡ true }
    ensures { Gives (λ x. (x.0, x.1.now)) result (extending_at rest.now) }
{
    let (keyword, rest) = first(rest, Expected::One(Class::Extend));
    let (extendee, rest) = reference(alloc, rest)?;
    let (open, rest) = one(rest, Class::Open)?;
    let extending = Extending { keyword, extendee };
    Ok((Piece::Open(Header::Extend(extending), open), rest))
}

#[tactic(auto, unfolding(crate::specs::Reading::inner_piece_at))]
fn piece(alloc: Global, rest: &[Lexeme]) -> Result<(Piece, &[Lexeme]), Stop>
    ensures { Gives (λ x. (x.0, x.1.now)) result (inner_piece_at rest.now) }
{
    match rest {
        [first, ..] => match first.class {
            Class::Close => close(rest),
            Class::Semicolon => empty(rest),
            Class::Message => opening(rest, Class::Message),
            Class::Oneof => opening(rest, Class::Oneof),
            Class::Enum => opening(rest, Class::Enum),
            Class::Service => opening(rest, Class::Service),
            Class::Syntax => syntax(rest),
            Class::Import => import(rest),
            Class::Package => package(alloc, rest),
            Class::Option => option_statement(alloc, rest),
            Class::Map => map_field(alloc, rest),
            Class::Reserved => reserved_piece(alloc, rest),
            Class::Extensions => extensions(alloc, rest),
            Class::Rpc => method(alloc, rest),
            Class::Extend => extending(alloc, rest),
            _ => field(alloc, rest),
        },
        [] => field(alloc, rest),
    }
}

/// A piece, read as the context asks.
pub fn any_piece(
    alloc: Global,
    context: Context,
    rest: &[Lexeme],
) -> Result<(Piece, &[Lexeme]), Stop>
    ensures { Gives (λ x. (x.0, x.1.now)) result (any_piece_in context rest.now) }
{
    match context {
        Context::Enum => enum_piece(alloc, rest),
        _ => piece(alloc, rest),
    }
}
