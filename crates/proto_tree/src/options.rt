//! Reading options and their values.

ghost use Rattle.std.specs.Prelude.{◌≡◌, true, false};
ghost use Rattle.proto_tree.specs.Flat.{other_expected};
ghost use Rattle.proto_tree.specs.Reading.{Gives, starts, stated, token, many, signed_at, joined_at, constant_at, setting_at, settings_at, maybe_settings, option_at, within_at, aggregate_at, custom_at, custom_value_at, plain_at};

use crate::class::{Class, Expected, Lexeme};
use crate::list::Sequence;
use crate::on_heap::OnHeap;
use crate::piece::{Piece, Statement};
use crate::reading::{Listed, Stop, first, more_items, one, option, separated_items, starts, take};
use crate::tree::{
    Aggregate, Atom, Constant, Custom, CustomValue, Joined, Option_, Plain, Reference, Setting,
    Settings, Signed,
};
use std::alloc::Global;

/// A number, with a `-` before it where there is one.
#[tactic(auto, unfolding(crate::specs::Reading::signed_at))]
pub fn signed_number(rest: &[Lexeme]) -> Result<(Signed, &[Lexeme]), Stop>
    ensures { Gives (λ x. (x.0, x.1.now)) result (signed_at rest.now) }
{
    let (minus, rest) = option(rest, Expected::One(Class::Minus));
    let (number, rest) = one(rest, Class::Number)?;
    Ok((Signed { minus, number }, rest))
}

fn more_texts(alloc: Global, tokens: &[Lexeme]) -> Result<(Sequence<u32>, &[Lexeme]), Stop>
    ensures { Gives (λ x. (x.0, x.1.now)) result (many Expected.Text (token Expected.Text) tokens.now) }
{
    let mut items = Sequence::new(alloc);
    let mut rest = tokens;
    for _ in 0..tokens.len() {
        if !starts(rest, Expected::Text) {
            return Ok((items, rest));
        }
        let (item, after) = first(rest, Expected::Text);
        items.push(item)?;
        rest = after;
    }
    Ok((items, rest))
}

#[tactic(auto, unfolding(crate::specs::Reading::joined_at))]
fn joined_texts(alloc: Global, rest: &[Lexeme]) -> Result<(Joined, &[Lexeme]), Stop>
    requires { starts Expected.Text rest.now ≡ true }
    ensures { Gives (λ x. (x.0, x.1.now)) result (joined_at rest.now) }
{
    let (first, rest) = first(rest, Expected::Text);
    let (more, rest) = more_texts(alloc, rest)?;
    Ok((Joined { first, rest: more }, rest))
}

/// What stands between the braces of a value, and the brace that ends it.
fn within(alloc: Global, tokens: &[Lexeme]) -> Result<(Sequence<Atom>, u32, &[Lexeme]), Stop>
    ensures { Gives (λ x. ((x.0, x.1), x.2.now)) result (within_at false 0 tokens.now) }
{
    let mut atoms = Sequence::new(alloc);
    let mut rest = tokens;
    let mut depth: usize = 0;
    let mut colon = false;
    for _ in 0..tokens.len() {
        let [token, after @ ..] = rest else {
            return Err(Stop::Syntax);
        };
        let atom = match token.class {
            Class::Close => {
                if depth == 0 {
                    return Ok((atoms, token.at, after));
                }
                depth -= 1;
                Atom::Close(token.at)
            }
            Class::Open => {
                depth += 1;
                Atom::Open(token.at)
            }
            Class::Colon => Atom::Colon(token.at),
            class => {
                if Expected::OptionName.fits(class) {
                    Atom::Word(token.at)
                } else if other_expected(colon).fits(class) {
                    Atom::Other(token.at)
                } else {
                    return Err(Stop::Syntax);
                }
            }
        };
        colon = Expected::One(Class::Colon).fits(token.class);
        atoms.push(atom)?;
        rest = after;
    }
    Err(Stop::Syntax)
}

fn other_expected(colon: bool) -> Expected
    ensures { result ≡ other_expected colon }
{
    if colon {
        return Expected::Element;
    }
    Expected::Atom
}

#[tactic(auto, unfolding(crate::specs::Reading::aggregate_at))]
fn aggregate(alloc: Global, rest: &[Lexeme]) -> Result<(Aggregate, &[Lexeme]), Stop>
    requires { starts (Expected.One Class.Open) rest.now ≡ true }
    ensures { Gives (λ x. (x.0, x.1.now)) result (aggregate_at rest.now) }
{
    let (open, rest) = first(rest, Expected::One(Class::Open));
    let (atoms, close, rest) = within(alloc, rest)?;
    Ok((Aggregate { open, atoms, close }, rest))
}

/// The value of an option.
#[tactic(auto, unfolding(crate::specs::Reading::constant_at))]
fn constant(alloc: Global, rest: &[Lexeme]) -> Result<(Constant, &[Lexeme]), Stop>
    ensures { Gives (λ x. (x.0, x.1.now)) result (constant_at rest.now) }
{
    if starts(rest, Expected::Constant) {
        let (word, rest) = first(rest, Expected::Constant);
        return Ok((Constant::Word(word), rest));
    }
    if starts(rest, Expected::Text) {
        let (text, rest) = joined_texts(alloc, rest)?;
        return Ok((Constant::Text(text), rest));
    }
    let (number, rest) = signed_number(rest)?;
    Ok((Constant::Number(number), rest))
}

/// The value of a custom option.
#[tactic(auto, unfolding(crate::specs::Reading::custom_value_at))]
fn custom_value(alloc: Global, rest: &[Lexeme]) -> Result<(CustomValue, &[Lexeme]), Stop>
    ensures { Gives (λ x. (x.0, x.1.now)) result (custom_value_at rest.now) }
{
    if starts(rest, Expected::One(Class::Open)) {
        let (value, rest) = aggregate(alloc, rest)?;
        return Ok((CustomValue::Aggregate(value), rest));
    }
    let (value, rest) = constant(alloc, rest)?;
    Ok((CustomValue::Constant(value), rest))
}

/// The name of an extension, in parentheses, and words behind it, with a value.
#[tactic(auto, unfolding(crate::specs::Reading::custom_at))]
fn custom(alloc: Global, rest: &[Lexeme]) -> Result<(Custom, &[Lexeme]), Stop>
    requires { starts (Expected.One Class.NameParenthesis) rest.now ≡ true }
    ensures { Gives (λ x. (x.0, x.1.now)) result (custom_at rest.now) }
{
    let (open, rest) = first(rest, Expected::One(Class::NameParenthesis));
    let (dot, rest) = option(rest, Expected::One(Class::Dot));
    let (words, rest) = separated_items(alloc, rest, Class::Dot, Expected::Word, Expected::Word)?;
    let name = Reference { dot, words };
    let (close, rest) = one(rest, Class::RightParenthesis)?;
    let (path, rest) = more_items(alloc, rest, Class::Dot, Expected::OptionName)?;
    let (equals, rest) = one(rest, Class::Equals)?;
    let (value, rest) = custom_value(alloc, rest)?;
    Ok((
        Custom {
            open,
            name,
            close,
            path,
            equals,
            value,
        },
        rest,
    ))
}

/// `name = value`
#[tactic(auto, unfolding(crate::specs::Reading::plain_at))]
fn plain(alloc: Global, rest: &[Lexeme]) -> Result<(Plain, &[Lexeme]), Stop>
    ensures { Gives (λ x. (x.0, x.1.now)) result (plain_at rest.now) }
{
    let (name, rest) = take(rest, Expected::OptionName)?;
    let (equals, rest) = one(rest, Class::Equals)?;
    let (value, rest) = constant(alloc, rest)?;
    Ok((
        Plain {
            name,
            equals,
            value,
        },
        rest,
    ))
}

#[tactic(auto, unfolding(crate::specs::Reading::setting_at))]
fn setting(alloc: Global, rest: &[Lexeme]) -> Result<(Setting, &[Lexeme]), Stop>
    ensures { Gives (λ x. (x.0, x.1.now)) result (setting_at rest.now) }
{
    if starts(rest, Expected::One(Class::NameParenthesis)) {
        let (custom, rest) = custom(alloc, rest)?;
        let custom = OnHeap::new(alloc, custom)?;
        return Ok((Setting::Custom(custom), rest));
    }
    let (plain, rest) = plain(alloc, rest)?;
    Ok((Setting::Plain(plain), rest))
}

impl Listed for Setting {
    ghost use Rattle.proto_tree.specs.Reading.{setting_at};

    ghost item_at = { λ w. setting_at };

    fn item(alloc: Global, rest: &[Lexeme], _want: Expected) -> Result<(Self, &[Lexeme]), Stop> {
        setting(alloc, rest)
    }
}

/// The settings of a field or a value, where it has some.
#[tactic(auto, unfolding(crate::specs::Reading::settings_at))]
pub fn settings(
    alloc: Global,
    rest: &[Lexeme],
) -> Result<(Option<OnHeap<Settings>>, &[Lexeme]), Stop>
    ensures { Gives (λ x. (x.0, x.1.now)) result (maybe_settings rest.now) }
{
    if !starts(rest, Expected::One(Class::LeftBracket)) {
        return Ok((None, rest));
    }
    let (open, rest) = first(rest, Expected::One(Class::LeftBracket));
    let name = Expected::OptionName;
    let (list, rest) = separated_items(alloc, rest, Class::Comma, name, name)?;
    let (close, rest) = one(rest, Class::RightBracket)?;
    let settings = OnHeap::new(alloc, Settings { open, list, close })?;
    Ok((Some(settings), rest))
}

/// `option name = value;`
#[tactic(auto, unfolding(crate::specs::Reading::option_at))]
pub fn option_statement(alloc: Global, rest: &[Lexeme]) -> Result<(Piece, &[Lexeme]), Stop>
    ensures { Gives (λ x. (x.0, x.1.now)) result (stated Statement.Option option_at rest.now) }
{
    let (keyword, rest) = one(rest, Class::Option)?;
    let (setting, rest) = setting(alloc, rest)?;
    let (semicolon, rest) = one(rest, Class::Semicolon)?;
    let option = Option_ {
        keyword,
        setting,
        semicolon,
    };
    Ok((Piece::Statement(Statement::Option(option)), rest))
}
