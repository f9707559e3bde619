//! The piece at the front of some bytes.

ghost use Rattle.std.specs.Prelude.{◌≡◌, ◌<◌, ◌≤◌, ◌^◌, length, ◌↔◌, false, IsTrue, IfSome, IfOk};
ghost use Rattle.std.specs.List.{prefix_len, list_all};
ghost use Rattle.proto_text.specs.Classes.{is_identifier, is_digit};
ghost use Rattle.proto_text.specs.Pieces.{is_in_line, is_hex_tail, is_number};
ghost use Rattle.proto_text.specs.Bytes.{is_octal, is_hex};
ghost use Rattle.proto_text.specs.declared.kind.PieceKind.TheVariants as PieceKind;
ghost use Rattle.proto_text.specs.declared.kind.TokenKind.TheVariants as TokenKind;
ghost use Rattle.proto_text.specs.First.{IsFirstPiece};
ghost use Rattle.proto_text.specs.Scan.{close_len, comment_at, scanned_number, scanned_string, piece_at};

use crate::class::{Class, class_of_byte, is_identifier_byte};
use crate::ending::string_close;
use crate::escape::is_allowed;
use crate::fault::LexFault;
use crate::kind::{PieceKind, TokenKind};
use proto_base::OrNoMemory;
use std::alloc::Global;

fn identifier_len(bytes: &[u8]) -> usize
    ensures value { result ≡ prefix_len is_identifier bytes.now }
    ensures bound { result ≤ length bytes.now }
{
    for (i, byte) in bytes.iter().enumerate() {
        if !is_identifier_byte(*byte) {
            return i;
        }
    }
    bytes.len()
}

fn line_len(bytes: &[u8]) -> usize
    ensures value { result ≡ prefix_len is_in_line bytes.now }
    ensures bound { result ≤ length bytes.now }
{
    for (i, byte) in bytes.iter().enumerate() {
        if *byte == b'\n' {
            return i;
        }
    }
    bytes.len()
}

fn are_octal(bytes: &[u8]) -> bool
    ensures { result ≡ list_all is_octal bytes.now }
{
    bytes.iter().all(|b| *b >= b'0' && *b <= b'7')
}

fn are_hex(bytes: &[u8]) -> bool
    ensures { result ≡ list_all is_hex bytes.now }
{
    bytes.iter().all(|b| b.is_ascii_hexdigit())
}

fn are_digits(bytes: &[u8]) -> bool
    ensures { result ≡ list_all is_digit bytes.now }
{
    bytes.iter().all(|b| b.is_ascii_digit())
}

fn is_number_text(bytes: &[u8]) -> bool
    ensures { result ≡ is_number bytes.now }
{
    match bytes {
        [] => false,
        [b'0', rest @ ..] => are_octal(rest) || is_hex_text(rest),
        _ => are_digits(bytes),
    }
}

fn is_hex_text(bytes: &[u8]) -> bool
    ensures { result ≡ is_hex_tail bytes.now }
{
    match bytes {
        [] | [_] => false,
        [x, digits @ ..] => (*x == b'x' || *x == b'X') && are_hex(digits),
    }
}

fn block_close(bytes: &[u8]) -> Option<usize>
    ensures value { result ≡ close_len false bytes.now }
    ensures bound { IfSome result (λ n. n ≤ length bytes.now) }
{
    let mut star = false;
    for (i, byte) in bytes.iter().enumerate() {
        if star && *byte == b'/' {
            return Some(i + 1);
        }
        star = *byte == b'*';
    }
    None
}

#[tactic(auto, unfolding(crate::specs::Scan::comment_at))]
fn comment(bytes: &[u8]) -> Result<(PieceKind, usize), LexFault>
    requires { length bytes.now < 2 ^ 32 }
    ensures { result ≡ comment_at bytes.now }
{
    match bytes {
        [b'/', rest @ ..] => Ok((PieceKind::LineComment, 2 + line_len(rest))),
        [b'*', rest @ ..] => match block_close(rest) {
            Some(n) => Ok((PieceKind::BlockComment, 2 + n)),
            None => Err(LexFault::OpenComment),
        },
        _ => Err(LexFault::BadChar),
    }
}

#[tactic(auto, unfolding(crate::specs::Scan::scanned_number))]
fn number(bytes: &[u8], len: usize) -> Result<(PieceKind, usize), LexFault>
    requires { len ≤ length bytes.now }
    ensures { result ≡ scanned_number len bytes.now }
{
    if is_number_text(&bytes[..len]) {
        Ok((PieceKind::Solid(TokenKind::Number), len))
    } else {
        Err(LexFault::BadNumber)
    }
}

#[tactic(auto, unfolding(crate::specs::Scan::scanned_string))]
fn string(quote: u8, bytes: &[u8]) -> Result<(PieceKind, usize), LexFault>
    requires { length bytes.now < 2 ^ 32 }
    ensures { result ≡ scanned_string quote bytes.now }
{
    match string_close(quote, bytes) {
        Some(n) => Ok((PieceKind::Solid(TokenKind::Text), 1 + n)),
        None => Err(LexFault::OpenString),
    }
}

#[tactic(auto, unfolding(crate::specs::Scan::piece_at))]
fn scan_piece(bytes: &[u8]) -> Result<(PieceKind, usize), LexFault>
    requires { length bytes.now < 2 ^ 32 }
    ensures { result ≡ piece_at bytes.now }
{
    let [first, rest @ ..] = bytes else {
        return Err(LexFault::BadChar);
    };
    match class_of_byte(*first) {
        Class::Space => Ok((PieceKind::Blank, 1)),
        Class::Letter => Ok((PieceKind::Solid(TokenKind::Word), 1 + identifier_len(rest))),
        Class::Digit => number(bytes, 1 + identifier_len(rest)),
        Class::Quote => string(*first, rest),
        Class::Mark => Ok((PieceKind::Solid(TokenKind::Punctuation), 1)),
        Class::Slash => comment(rest),
        Class::Other => Err(LexFault::BadChar),
    }
}

fn raw_piece(bytes: &[u8]) -> Result<(PieceKind, usize), LexFault>
    requires { length bytes.now < 2 ^ 32 }
    ensures value { result ≡ piece_at bytes.now }
    ensures some { IfOk result (λ found. 0 < found.1) }
    ensures fits { IfOk result (λ found. found.1 ≤ length bytes.now) }
    ensures quoted { IfOk result (λ found. found.0 ≡ PieceKind.Solid TokenKind.Text → 2 ≤ found.1) }
{
    scan_piece(bytes)
}

/// Why no piece was read: none that is whole and allowed begins there, or out of memory.
pub type Stop = OrNoMemory<LexFault>;

fn is_text(kind: PieceKind) -> bool
    ensures { IsTrue result ↔ (kind ≡ PieceKind.Solid TokenKind.Text) }
{
    match kind {
        PieceKind::Solid(TokenKind::Text) => true,
        _ => false,
    }
}

/// The piece at the front of the bytes: its kind, and how many bytes it takes. Refused where none
/// that is whole and allowed begins them, or when out of memory.
pub fn piece(alloc: Global, bytes: &[u8]) -> Result<(PieceKind, usize), Stop>
    requires some { 0 < length bytes.now }
    requires short { length bytes.now < 2 ^ 32 }
    ensures first { IsFirstPiece bytes.now result }
    ensures some { IfOk result (λ found. 0 < found.1) }
    ensures fits { IfOk result (λ found. found.1 ≤ length bytes.now) }
{
    let (kind, len) = match raw_piece(bytes) {
        Ok(found) => found,
        Err(fault) => return Err(Stop::Fault(fault)),
    };
    if is_text(kind) {
        let (_, behind) = bytes.split_at(1);
        let (body, _) = behind.split_at(len - 2);
        let allowed = is_allowed(alloc, body)?;
        if !allowed {
            return Err(Stop::Fault(LexFault::BadEscape));
        }
    }
    Ok((kind, len))
}
