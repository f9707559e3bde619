//! Reading the statements of a file, a message and an enum.

ghost use Rattle.std.specs.Prelude.{◌≡◌, true};
ghost use Rattle.proto_tree.specs.Reading.{Gives, starts, stated, syntax_at, import_at, modifier_at, package_at, field_at, map_field_at, value_at, token, one_token, maybe, maybe_settings, ◌then◌};

use crate::class::{Class, Expected, Lexeme};
use crate::names::{field_type, package_name};
use crate::on_heap::OnHeap;
use crate::options::settings;
use crate::piece::{Piece, Statement};
use crate::ranges::Numeral;
use crate::reading::{Stop, first, one, option, starts, take, three};
use crate::tree::{Field, Import, MapField, Modifier, Package, Settings, Signed, Syntax, Value};
use std::alloc::Global;

/// `syntax = "proto3";`
#[tactic(auto, unfolding(crate::specs::Reading::syntax_at))]
pub fn syntax(rest: &[Lexeme]) -> Result<(Piece, &[Lexeme]), Stop>
    requires { starts (Expected.One Class.Syntax) rest.now ≡ true }
    ensures { Gives (λ x. (x.0, x.1.now)) result (stated Statement.Syntax syntax_at rest.now) }
{
    let equals = Expected::One(Class::Equals);
    let text = Expected::One(Class::ProtoText);
    let semicolon = Expected::One(Class::Semicolon);
    let (keyword, rest) = first(rest, Expected::One(Class::Syntax));
    let ((equals, text, semicolon), rest) = three(rest, equals, text, semicolon)?;
    let syntax = Syntax {
        keyword,
        equals,
        text,
        semicolon,
    };
    Ok((Piece::Statement(Statement::Syntax(syntax)), rest))
}

/// What stands behind `import`, where something does.
#[tactic(auto, unfolding(crate::specs::Reading::modifier_at))]
fn modifier(rest: &[Lexeme]) -> Result<(Option<Modifier>, &[Lexeme]), Stop>
    ensures { Gives (λ x. (x.0, x.1.now)) result (maybe Expected.Modifier modifier_at rest.now) }
{
    if !starts(rest, Expected::Modifier) {
        return Ok((None, rest));
    }
    if starts(rest, Expected::One(Class::Public)) {
        let (at, rest) = first(rest, Expected::One(Class::Public));
        return Ok((Some(Modifier::Public(at)), rest));
    }
    let (at, rest) = one(rest, Class::ImportWeak)?;
    Ok((Some(Modifier::Weak(at)), rest))
}

/// `import public "path";`
#[tactic(auto, unfolding(crate::specs::Reading::import_at))]
pub fn import(rest: &[Lexeme]) -> Result<(Piece, &[Lexeme]), Stop>
    requires { starts (Expected.One Class.Import) rest.now ≡ true }
    ensures { Gives (λ x. (x.0, x.1.now)) result (stated Statement.Import import_at rest.now) }
{
    let (keyword, rest) = first(rest, Expected::One(Class::Import));
    let (modifier, rest) = modifier(rest)?;
    let (path, rest) = take(rest, Expected::Text)?;
    let (semicolon, rest) = one(rest, Class::Semicolon)?;
    let import = Import {
        keyword,
        modifier,
        path,
        semicolon,
    };
    Ok((Piece::Statement(Statement::Import(import)), rest))
}

/// `package a.b;`
#[tactic(auto, unfolding(crate::specs::Reading::package_at))]
pub fn package(alloc: Global, rest: &[Lexeme]) -> Result<(Piece, &[Lexeme]), Stop>
    requires { starts (Expected.One Class.Package) rest.now ≡ true }
    ensures { Gives (λ x. (x.0, x.1.now)) result (stated Statement.Package package_at rest.now) }
{
    let (keyword, rest) = first(rest, Expected::One(Class::Package));
    let (name, rest) = package_name(alloc, rest)?;
    let (semicolon, rest) = one(rest, Class::Semicolon)?;
    let package = Package {
        keyword,
        name,
        semicolon,
    };
    Ok((Piece::Statement(Statement::Package(package)), rest))
}

/// What stands behind the type of a field, its name first, or what a value is.
#[derive(Drop)]
struct NumberAndSettings<N: Drop> {
    name: u32,
    equals: u32,
    number: N,
    settings: Option<OnHeap<Settings>>,
    semicolon: u32,
}

fn number_and_settings<N: Numeral>(
    alloc: Global,
    rest: &[Lexeme],
    name: Expected,
) -> Result<(NumberAndSettings<N>, &[Lexeme]), Stop>
    ensures { Gives (λ x. (
      (x.0.name, (x.0.equals, (x.0.number, (x.0.settings, x.0.semicolon)))),
      x.1.now,
    )) result ((token name
        then one_token Class.Equals
        then N.number_at
        then maybe_settings
        then one_token Class.Semicolon) rest.now) }
{
    let (name, rest) = take(rest, name)?;
    let (equals, rest) = one(rest, Class::Equals)?;
    let (number, rest) = N::number(rest)?;
    let (settings, rest) = settings(alloc, rest)?;
    let (semicolon, rest) = one(rest, Class::Semicolon)?;
    Ok((
        NumberAndSettings {
            name,
            equals,
            number,
            settings,
            semicolon,
        },
        rest,
    ))
}

/// `repeated Type name = 1 [settings];`
#[tactic(auto, unfolding(crate::specs::Reading::field_at))]
pub fn field(alloc: Global, rest: &[Lexeme]) -> Result<(Piece, &[Lexeme]), Stop>
    ensures { Gives (λ x. (x.0, x.1.now)) result (stated Statement.Field field_at rest.now) }
{
    let (label, rest) = option(rest, Expected::Label);
    let (kind, rest) = field_type(alloc, rest)?;
    let (numbered, rest) = number_and_settings::<u32>(alloc, rest, Expected::Name)?;
    let field = Field {
        label,
        kind,
        name: numbered.name,
        equals: numbered.equals,
        number: numbered.number,
        settings: numbered.settings,
        semicolon: numbered.semicolon,
    };
    Ok((Piece::Statement(Statement::Field(field)), rest))
}

/// `map<key, Type> name = 1 [settings];`
#[tactic(auto, unfolding(crate::specs::Reading::map_field_at))]
pub fn map_field(alloc: Global, rest: &[Lexeme]) -> Result<(Piece, &[Lexeme]), Stop>
    requires { starts (Expected.One Class.Map) rest.now ≡ true }
    ensures { Gives (λ x. (x.0, x.1.now)) result (stated Statement.MapField map_field_at rest.now) }
{
    let less = Expected::One(Class::Less);
    let scalar = Expected::One(Class::Scalar);
    let comma = Expected::One(Class::Comma);
    let (keyword, rest) = first(rest, Expected::One(Class::Map));
    let ((open, key, comma), rest) = three(rest, less, scalar, comma)?;
    let (value, rest) = field_type(alloc, rest)?;
    let (close, rest) = one(rest, Class::Greater)?;
    let (numbered, rest) = number_and_settings::<u32>(alloc, rest, Expected::Name)?;
    let field = MapField {
        keyword,
        open,
        key,
        comma,
        value,
        close,
        name: numbered.name,
        equals: numbered.equals,
        number: numbered.number,
        settings: numbered.settings,
        semicolon: numbered.semicolon,
    };
    Ok((Piece::Statement(Statement::MapField(field)), rest))
}

/// `NAME = -1 [settings];`
#[tactic(auto, unfolding(crate::specs::Reading::value_at))]
pub fn value(alloc: Global, rest: &[Lexeme]) -> Result<(Piece, &[Lexeme]), Stop>
    ensures { Gives (λ x. (x.0, x.1.now)) result (stated Statement.Value value_at rest.now) }
{
    let (numbered, rest) = number_and_settings::<Signed>(alloc, rest, Expected::ValueName)?;
    let value = Value {
        name: numbered.name,
        equals: numbered.equals,
        number: numbered.number,
        settings: numbered.settings,
        semicolon: numbered.semicolon,
    };
    Ok((Piece::Statement(Statement::Value(value)), rest))
}
