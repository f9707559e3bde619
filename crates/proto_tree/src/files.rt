//! Reading a file.

ghost use Rattle.std.specs.Prelude.{◌≡◌, ◌≢◌, true, [], IfOk, IfErr, MatchResult, MatchOption};
ghost use Rattle.proto_tree.specs.Answer.{FaultOf, IsBlockItem, IsItemBefore, IsOuter, IsUnread};
ghost use Rattle.proto_tree.specs.File.{item_tree, trees, tree_of_file};
ghost use Rattle.proto_tree.specs.Place.{IsShallow, IsTooDeep};
ghost use Rattle.proto_tree.specs.Tree.{Tree, Spells, allows, header_kind, inside};

use crate::blocks::{Fault, block, extend, members, next_piece, push, service_items, singles};
use crate::class::{Class, Lexeme};
use crate::context::{Context, kind_of};
use crate::items::item_of;
use crate::piece::{Header, Piece};
use crate::tree::{File, Item};
use std::alloc::Global;

/// The message, enum or service that begins so, from the tokens behind its brace on.
fn block_item(
    alloc: Global,
    header: Header,
    open: u32,
    tokens: &[Lexeme],
) -> Result<(Item, &[Lexeme]), Fault>
    requires { allows Context.Start (header_kind header) ≡ true }
    ensures { MatchResult result (λ x. IsBlockItem header «open» tokens.now (item_tree x.0) x.1.now)
        (FaultOf (inside header) tokens.now) }
{
    match header {
        Header::Message(heading) => {
            let (items, close, rest) = members(alloc, tokens)?;
            Ok((Item::Message(block(heading, open, items, close)), rest))
        }
        Header::Enum(heading) => {
            let (items, close, rest) = singles(alloc, tokens)?;
            Ok((Item::Enum(block(heading, open, items, close)), rest))
        }
        Header::Service(heading) => {
            let (items, close, rest) = service_items(alloc, tokens)?;
            Ok((Item::Service(block(heading, open, items, close)), rest))
        }
        Header::Extend(extending) => {
            let (fields, close, rest) = singles(alloc, tokens)?;
            Ok((Item::Extend(extend(extending, open, fields, close)), rest))
        }
        other => {
            drop(other);
            Err(Fault::Syntax(0))
        }
    }
}

/// An item that may stand here, and where what follows it stands.
fn item(
    alloc: Global,
    context: Context,
    tokens: &[Lexeme],
) -> Result<(Item, Context, &[Lexeme]), Fault>
    requires outer { IsOuter context }
    requires some { tokens.now ≢ [] }
    ensures { MatchResult result (λ x. IsItemBefore context tokens.now (item_tree x.0) x.1 x.2.now)
        (FaultOf context tokens.now) }
{
    let (piece, rest) = next_piece(alloc, context, tokens)?;
    let kind = kind_of(&piece);
    if !context.allows(kind) {
        drop(piece);
        return Err(Fault::Syntax(tokens.len()));
    }
    match piece {
        Piece::Statement(statement) => match item_of(statement) {
            Some(item) => Ok((item, context.after(kind), rest)),
            None => Err(Fault::Syntax(tokens.len())),
        },
        Piece::Open(header, open) => {
            let (item, rest) = block_item(alloc, header, open, rest)?;
            Ok((item, context.after(kind), rest))
        }
        Piece::Close(_) => Err(Fault::Syntax(tokens.len())),
    }
}

/// All items of a file.
fn items(alloc: Global, tokens: &[Lexeme]) -> Result<Vec<Item>, Fault>
    ensures { MatchResult result (λ xs. Spells (trees item_tree xs.items) tokens.now)
        (FaultOf Context.Start tokens.now) }
{
    let mut items = Vec::new(alloc);
    let mut context = Context::Start;
    let mut rest = tokens;
    while !rest.is_empty() {
        let (found, next, after) = item(alloc, context, rest)?;
        push(&mut items, found)?;
        context = next;
        rest = after;
    }
    Ok(items)
}

/// How many braces may be open at once.
const LIMIT: u32 = 32;

/// The first brace that is one too many.
fn too_deep(tokens: &[Lexeme]) -> Option<usize>
    ensures { MatchOption result (IsShallow tokens.now) (IsTooDeep tokens.now) }
{
    let mut depth: u32 = 0;
    for (i, token) in tokens.iter().enumerate() {
        match token.class {
            Class::Open => {
                if depth == LIMIT {
                    return Some(i);
                }
                depth += 1;
            }
            Class::Close => depth = depth.saturating_sub(1),
            _ => {}
        }
    }
    None
}

/// Why there is no tree: the index of a token, or how many there are.
#[derive(Clone, Copy)]
pub enum Unread {
    /// No tree has the tokens; the longest good front ends before this token.
    Syntax(usize),
    /// This brace is the first that is one too many.
    TooDeep(usize),
    /// Memory ran out.
    Memory,
}

/// The tree of a file.
pub fn file(alloc: Global, tokens: &[Lexeme]) -> Result<File, Unread>
    // The answered tree is well-formed and has these tokens, and no more than 32 braces are open at
    // once.
    ensures found { IfOk result (λ f. Spells (tree_of_file f) tokens.now × IsShallow tokens.now) }
    // There is no other.
    ensures only { IfOk result (λ f. (t : Tree) → Spells t tokens.now → t ≡ tree_of_file f) }
    // Where there is none, or too many braces are open, which fault it is, and where.
    ensures fault { IfErr result (IsUnread tokens.now) }
{
    if let Some(at) = too_deep(tokens) {
        return Err(Unread::TooDeep(at));
    }
    match items(alloc, tokens) {
        Ok(items) => Ok(File { items }),
        Err(Fault::Memory) => Err(Unread::Memory),
        Err(Fault::Syntax(left)) => Err(Unread::Syntax(tokens.len() - left)),
    }
}
