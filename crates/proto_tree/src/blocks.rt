//! Reading blocks: what stands between two braces, and the second brace.

ghost use Rattle.std.specs.Prelude.{◌≡◌, [], ◌∷◌, ◌++◌, MatchResult, true};
ghost use Rattle.proto_tree.specs.Answer.{FaultOf, FoundIn, IsBody, IsMet, braced, extended};
ghost use Rattle.proto_tree.specs.File.{service_item_tree, member_tree, trees};
ghost use Rattle.proto_tree.specs.Tree.{allows};

use crate::class::Lexeme;
use crate::context::{Context, Kind};
use crate::items::{Single, member_of, service_item_of};
use crate::piece::{Extending, Header, Heading, Piece};
use crate::pieces::any_piece;
use crate::reading::Stop;
use crate::tree::{Block, Extend, Extension, Member, Method, MethodEnd, ServiceItem};
use std::alloc::Global;

/// Why a file was not read: when out of memory, or how many tokens are left where it goes wrong.
#[derive(Clone, Copy)]
pub enum Fault {
    /// Memory ran out.
    Memory,
    /// No piece that may stand there is read where so many tokens are left.
    Syntax(usize),
}

/// What was met in a block: an item of it, or the brace that ends it.
#[derive(Drop)]
pub enum Found<T: Drop> {
    Item(T),
    Close(u32),
}

/// Adds the item at the end.
pub fn push<T: Drop>(items: &mut Vec<T>, item: T) -> Result<(), Fault>
    ensures { MatchResult result (λ _. items.new.items ≡ items.old.items ++ item ∷ [])
        (λ e. e ≡ Fault.Memory) }
{
    match items.push(item) {
        Ok(()) => Ok(()),
        Err(_) => Err(Fault::Memory),
    }
}

/// A block: its heading, and its members between two braces.
pub fn block<T: Drop>(heading: Heading, open: u32, members: Vec<T>, close: u32) -> Block<T>
    ensures { result ≡ braced heading «open» members close }
{
    Block {
        keyword: heading.keyword,
        name: heading.name,
        open,
        members,
        close,
    }
}

/// The next piece, wherever it may stand.
pub fn next_piece(
    alloc: Global,
    context: Context,
    tokens: &[Lexeme],
) -> Result<(Piece, &[Lexeme]), Fault>
    requires { tokens.now ≡ [] → allows context Kind.Close ≡ true }
    ensures { MatchResult result (λ x. IsMet context tokens.now x.0 x.1.now)
        (FaultOf context tokens.now) }
{
    match any_piece(alloc, context, tokens) {
        Ok(found) => Ok(found),
        Err(Stop::Memory) => Err(Fault::Memory),
        Err(Stop::Syntax) => Err(Fault::Syntax(tokens.len())),
    }
}

/// The next item of a block that holds no other, or the brace that ends it.
fn single<T: Single>(alloc: Global, tokens: &[Lexeme]) -> Result<(Found<T>, &[Lexeme]), Fault>
    ensures { MatchResult result (λ x. FoundIn T.CONTEXT T.tree tokens.now x.0 x.1.now)
        (FaultOf T.CONTEXT tokens.now) }
{
    let (piece, rest) = next_piece(alloc, T::CONTEXT, tokens)?;
    match piece {
        Piece::Statement(statement) => match T::of(statement) {
            Some(item) => Ok((Found::Item(item), rest)),
            None => Err(Fault::Syntax(tokens.len())),
        },
        Piece::Open(header, _) => {
            drop(header);
            Err(Fault::Syntax(tokens.len()))
        }
        Piece::Close(close) => Ok((Found::Close(close), rest)),
    }
}

/// What stands in a block that holds no other, and the brace that ends it.
pub fn singles<T: Single>(
    alloc: Global,
    tokens: &[Lexeme],
) -> Result<(Vec<T>, u32, &[Lexeme]), Fault>
    ensures { MatchResult result (λ x. IsBody T.CONTEXT tokens.now (trees T.tree x.0.items) x.1
        x.2.now) (FaultOf T.CONTEXT tokens.now) }
{
    let mut items = Vec::new(alloc);
    let mut rest = tokens;
    loop {
        let (found, after) = single(alloc, rest)?;
        match found {
            Found::Close(close) => {
                items.shrink_to_fit();
                return Ok((items, close, after));
            }
            Found::Item(item) => push(&mut items, item)?,
        }
        rest = after;
    }
}

/// The next item of a service, or the brace that ends it.
fn service_item(alloc: Global, tokens: &[Lexeme]) -> Result<(Found<ServiceItem>, &[Lexeme]), Fault>
    ensures { MatchResult result (λ x. FoundIn Context.Service service_item_tree tokens.now x.0
        x.1.now) (FaultOf Context.Service tokens.now) }
{
    let (piece, rest) = next_piece(alloc, Context::Service, tokens)?;
    match piece {
        Piece::Statement(statement) => match service_item_of(statement) {
            Some(item) => Ok((Found::Item(item), rest)),
            None => Err(Fault::Syntax(tokens.len())),
        },
        Piece::Open(header, open) => match header {
            Header::Method(signature) => {
                let (items, close, rest) = singles(alloc, rest)?;
                let end = MethodEnd::Block { open, items, close };
                let method = Method { signature, end };
                Ok((Found::Item(ServiceItem::Method(method)), rest))
            }
            other => {
                drop(other);
                Err(Fault::Syntax(tokens.len()))
            }
        },
        Piece::Close(close) => Ok((Found::Close(close), rest)),
    }
}

/// What stands in a service, and the brace that ends it.
pub fn service_items(
    alloc: Global,
    tokens: &[Lexeme],
) -> Result<(Vec<ServiceItem>, u32, &[Lexeme]), Fault>
    ensures { MatchResult result (λ x. IsBody Context.Service tokens.now
        (trees service_item_tree x.0.items) x.1 x.2.now) (FaultOf Context.Service tokens.now) }
{
    let mut items = Vec::new(alloc);
    let mut rest = tokens;
    loop {
        let (found, after) = service_item(alloc, rest)?;
        match found {
            Found::Close(close) => {
                items.shrink_to_fit();
                return Ok((items, close, after));
            }
            Found::Item(item) => push(&mut items, item)?,
        }
        rest = after;
    }
}

/// An `extend` block, put together of its beginning, its fields and its braces.
pub fn extend(extending: Extending, open: u32, fields: Vec<Extension>, close: u32) -> Extend
    ensures { result ≡ extended extending «open» fields close }
{
    Extend {
        keyword: extending.keyword,
        extendee: extending.extendee,
        open,
        fields,
        close,
    }
}

/// The next member of a message, or the brace that ends it.
#[cycle(messages)]
fn member(alloc: Global, tokens: &[Lexeme]) -> Result<(Found<Member>, &[Lexeme]), Fault>
    ensures { MatchResult result (λ x. FoundIn Context.Message member_tree tokens.now x.0 x.1.now)
        (FaultOf Context.Message tokens.now) }
{
    let (piece, rest) = next_piece(alloc, Context::Message, tokens)?;
    match piece {
        Piece::Statement(statement) => match member_of(statement) {
            Some(item) => Ok((Found::Item(item), rest)),
            None => Err(Fault::Syntax(tokens.len())),
        },
        Piece::Open(header, open) => match header {
            Header::Message(heading) => {
                let (items, close, rest) = members(alloc, rest)?;
                let message = block(heading, open, items, close);
                Ok((Found::Item(Member::Message(message)), rest))
            }
            Header::Oneof(heading) => {
                let (items, close, rest) = singles(alloc, rest)?;
                let oneof = block(heading, open, items, close);
                Ok((Found::Item(Member::Oneof(oneof)), rest))
            }
            Header::Enum(heading) => {
                let (items, close, rest) = singles(alloc, rest)?;
                let nested = block(heading, open, items, close);
                Ok((Found::Item(Member::Enum(nested)), rest))
            }
            Header::Extend(extending) => {
                let (fields, close, rest) = singles(alloc, rest)?;
                let extended = extend(extending, open, fields, close);
                Ok((Found::Item(Member::Extend(extended)), rest))
            }
            other => {
                drop(other);
                Err(Fault::Syntax(tokens.len()))
            }
        },
        Piece::Close(close) => Ok((Found::Close(close), rest)),
    }
}

/// The members of a message, and the brace that ends it.
#[cycle(messages)]
pub fn members(alloc: Global, tokens: &[Lexeme]) -> Result<(Vec<Member>, u32, &[Lexeme]), Fault>
    ensures { MatchResult result (λ x. IsBody Context.Message tokens.now
        (trees member_tree x.0.items) x.1 x.2.now) (FaultOf Context.Message tokens.now) }
{
    let mut items = Vec::new(alloc);
    let mut rest = tokens;
    loop {
        let (found, after) = member(alloc, rest)?;
        match found {
            Found::Close(close) => {
                items.shrink_to_fit();
                return Ok((items, close, after));
            }
            Found::Item(item) => push(&mut items, item)?,
        }
        rest = after;
    }
}
