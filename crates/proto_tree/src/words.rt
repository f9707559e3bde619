//! The class of a token by its kind and its text.

ghost use Rattle.std.specs.Prelude.{◌≡◌, [], ◌∷◌};
ghost use Rattle.proto_tree.specs.Words.{class_in, of_length, listed, marks, text_class, class_by, is_listed, class_as};
ghost use Rattle.proto_tree.specs.Classes.{fits};

use crate::class::{Class, Expected};
use proto_base::Profile;
use proto_text::{TokenKind, stands_for};

fn of_two(text: &str) -> Class
    ensures { result ≡ class_in (of_length 2 listed) Class.Name text.now }
{
    match text {
        "to" => Class::To,
        _ => Class::Name,
    }
}

fn of_three(text: &str) -> Class
    ensures { result ≡ class_in (of_length 3 listed) Class.Name text.now }
{
    match text.as_bytes() {
        [b'r', b'p', b'c'] => Class::Rpc,
        [b'm', b'a', b'p'] => Class::Map,
        [b'm', b'a', b'x'] => Class::Max,
        _ => Class::Name,
    }
}

fn of_four(text: &str) -> Class
    ensures { result ≡ class_in (of_length 4 listed) Class.Name text.now }
{
    match text {
        "enum" => Class::Enum,
        "weak" => Class::Weak,
        "bool" => Class::Scalar,
        _ => Class::Name,
    }
}

fn of_five(text: &str) -> Class
    ensures { result ≡ class_in (of_length 5 listed) Class.Name text.now }
{
    match text {
        "int32" | "int64" | "float" | "bytes" => Class::Scalar,
        "oneof" => Class::Oneof,
        "group" => Class::OtherListed,
        _ => Class::Name,
    }
}

fn of_six(text: &str) -> Class
    ensures { result ≡ class_in (of_length 6 listed) Class.Name text.now }
{
    match text {
        "string" | "uint32" | "uint64" | "double" | "sint32" | "sint64" => Class::Scalar,
        "option" => Class::Option,
        "import" => Class::Import,
        "syntax" => Class::Syntax,
        "stream" => Class::Stream,
        "public" => Class::Public,
        "extend" => Class::Extend,
        _ => Class::Name,
    }
}

fn of_seven(text: &str) -> Class
    ensures { result ≡ class_in (of_length 7 listed) Class.Name text.now }
{
    match text {
        "message" => Class::Message,
        "package" => Class::Package,
        "service" => Class::Service,
        "returns" => Class::Returns,
        "fixed32" | "fixed64" => Class::Scalar,
        _ => Class::Name,
    }
}

fn of_eight(text: &str) -> Class
    ensures { result ≡ class_in (of_length 8 listed) Class.Name text.now }
{
    match text {
        "optional" => Class::Optional,
        "repeated" => Class::Repeated,
        "required" => Class::Required,
        "reserved" => Class::Reserved,
        "sfixed32" | "sfixed64" => Class::Scalar,
        _ => Class::Name,
    }
}

fn of_ten(text: &str) -> Class
    ensures { result ≡ class_in (of_length 10 listed) Class.Name text.now }
{
    match text {
        "extensions" => Class::Extensions,
        _ => Class::Name,
    }
}

/// The class of a word: a listed word's own, or that of a name.
fn word_class(text: &str) -> Class
    ensures { result ≡ class_in listed Class.Name text.now }
{
    match text.len() {
        2 => of_two(text),
        3 => of_three(text),
        4 => of_four(text),
        5 => of_five(text),
        6 => of_six(text),
        7 => of_seven(text),
        8 => of_eight(text),
        10 => of_ten(text),
        _ => Class::Name,
    }
}

/// The class of a byte of punctuation.
fn class_of_mark(mark: u8) -> Class
    ensures { result ≡ class_in marks Class.Other (mark ∷ []) }
{
    match mark {
        b';' => Class::Semicolon,
        b'=' => Class::Equals,
        b'.' => Class::Dot,
        b',' => Class::Comma,
        b'{' => Class::Open,
        b'}' => Class::Close,
        b'[' => Class::LeftBracket,
        b']' => Class::RightBracket,
        b'(' => Class::LeftParenthesis,
        b')' => Class::RightParenthesis,
        b'<' => Class::Less,
        b'>' => Class::Greater,
        b'-' => Class::Minus,
        b':' => Class::Colon,
        _ => Class::Other,
    }
}

fn mark_class(text: &str) -> Class
    ensures { result ≡ class_in marks Class.Other text.now }
{
    match text.as_bytes() {
        [mark] => class_of_mark(*mark),
        _ => Class::Other,
    }
}

/// A string that names an edition of the language, or another one.
fn text_class(text: &str) -> Class
    ensures { result ≡ text_class text.now }
{
    if stands_for(text, b"proto2") || stands_for(text, b"proto3") {
        return Class::ProtoText;
    }
    Class::OtherText
}

/// The class of a token.
pub fn token_class(kind: TokenKind, text: &str) -> Class
    ensures { result ≡ class_by kind text.now }
{
    match kind {
        TokenKind::Word => word_class(text),
        TokenKind::Number => Class::Number,
        TokenKind::Text => text_class(text),
        TokenKind::Punctuation => mark_class(text),
    }
}

/// The class of a token in a language.
pub fn class_as(profile: Profile, class: Class) -> Class
    ensures { result ≡ class_as profile class }
{
    match profile {
        Profile::Core => class,
        Profile::AsWritten => match class {
            Class::LeftParenthesis => Class::NameParenthesis,
            Class::Weak => Class::ImportWeak,
            class => class,
        },
    }
}

/// Whether a word is listed. A reference without a leading dot begins with no listed word.
pub fn is_listed(word: &str) -> bool
    ensures { result ≡ is_listed word.now }
{
    !Expected::One(Class::Name).fits(word_class(word))
}

/// Whether a word may name a value of an enum.
pub fn may_name_value(word: &str) -> bool
    ensures { result ≡ fits Expected.ValueName (class_by TokenKind.Word word.now) }
{
    Expected::ValueName.fits(word_class(word))
}
