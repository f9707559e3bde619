//! Reading methods.

ghost use Rattle.std.specs.Prelude.{◌≡◌, true};
ghost use Rattle.proto_tree.specs.Reading.{Gives, starts, method_type_at, signature_at, ending_at, method_piece, method_at};

use crate::class::{Class, Expected, Lexeme};
use crate::names::reference;
use crate::piece::{Ending, Header, Piece, Statement};
use crate::reading::{Stop, first, one, option, starts, take};
use crate::tree::{MethodType, Signature};
use std::alloc::Global;

#[tactic(auto, unfolding(crate::specs::Reading::method_type_at))]
fn method_type(alloc: Global, rest: &[Lexeme]) -> Result<(MethodType, &[Lexeme]), Stop>
    ensures { Gives (λ x. (x.0, x.1.now)) result (method_type_at rest.now) }
{
    let (open, rest) = take(rest, Expected::Parenthesis)?;
    let (stream, rest) = option(rest, Expected::One(Class::Stream));
    let (reference, rest) = reference(alloc, rest)?;
    let (close, rest) = one(rest, Class::RightParenthesis)?;
    Ok((
        MethodType {
            open,
            stream,
            reference,
            close,
        },
        rest,
    ))
}

#[tactic(auto, unfolding(crate::specs::Reading::signature_at))]
fn signature(alloc: Global, rest: &[Lexeme]) -> Result<(Signature, &[Lexeme]), Stop>
    requires { starts (Expected.One Class.Rpc) rest.now ≡ true }
    ensures { Gives (λ x. (x.0, x.1.now)) result (signature_at rest.now) }
{
    let (keyword, rest) = first(rest, Expected::One(Class::Rpc));
    let (name, rest) = take(rest, Expected::Name)?;
    let (input, rest) = method_type(alloc, rest)?;
    let (returns, rest) = one(rest, Class::Returns)?;
    let (output, rest) = method_type(alloc, rest)?;
    Ok((
        Signature {
            keyword,
            name,
            input,
            returns,
            output,
        },
        rest,
    ))
}

#[tactic(auto, unfolding(crate::specs::Reading::ending_at))]
fn ending(rest: &[Lexeme]) -> Result<(Ending, &[Lexeme]), Stop>
    ensures { Gives (λ x. (x.0, x.1.now)) result (ending_at rest.now) }
{
    if starts(rest, Expected::One(Class::Semicolon)) {
        let (at, rest) = first(rest, Expected::One(Class::Semicolon));
        return Ok((Ending::Semicolon(at), rest));
    }
    let (at, rest) = one(rest, Class::Open)?;
    Ok((Ending::Open(at), rest))
}

fn method_piece(signature: Signature, ending: Ending) -> Piece
    ensures { result ≡ method_piece signature ending }
{
    match ending {
        Ending::Semicolon(at) => Piece::Statement(Statement::Method(signature, at)),
        Ending::Open(at) => Piece::Open(Header::Method(signature), at),
    }
}

/// A method that ends in a `;`, or the beginning of one with a block.
#[tactic(auto, unfolding(crate::specs::Reading::method_at))]
pub fn method(alloc: Global, rest: &[Lexeme]) -> Result<(Piece, &[Lexeme]), Stop>
    requires { starts (Expected.One Class.Rpc) rest.now ≡ true }
    ensures { Gives (λ x. (x.0, x.1.now)) result (method_at rest.now) }
{
    let (signature, rest) = signature(alloc, rest)?;
    let (ending, rest) = ending(rest)?;
    Ok((method_piece(signature, ending), rest))
}
