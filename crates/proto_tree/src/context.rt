//! Where a piece may stand.

ghost use Rattle.std.specs.Prelude.{◌≡◌};
ghost use Rattle.proto_tree.specs.Tree.{option_kind, statement_kind, header_kind, kind_of, in_file, in_message, in_enum, in_service, before_package, allows, after};

use crate::piece::{Header, Piece, Statement};
use crate::tree::Setting;

/// Where a piece stands: at the start of a file, later in it, behind its package, or in a block.
#[derive(Clone, Copy)]
pub enum Context {
    /// The start of a file, where `syntax` may stand.
    Start,
    /// A file that has no package yet.
    File,
    /// A file that has its package.
    Packaged,
    Message,
    Oneof,
    Enum,
    Service,
    Method,
    Extend,
}

/// What a piece is.
#[derive(Clone, Copy)]
pub enum Kind {
    Syntax,
    Import,
    Package,
    /// An option that is set by its word.
    Option,
    /// An option that is set by the name of an extension.
    CustomOption,
    /// A field without a label.
    Field,
    LabeledField,
    MapField,
    Reserved,
    Extensions,
    Value,
    EnumReserved,
    Method,
    /// A lone `;`.
    Empty,
    OpenMessage,
    OpenOneof,
    OpenEnum,
    OpenService,
    OpenMethod,
    OpenExtend,
    Close,
}

/// What kind of option it is.
fn option_kind(setting: &Setting) -> Kind
    ensures { result ≡ option_kind setting.now }
{
    match setting {
        Setting::Plain(_) => Kind::Option,
        Setting::Custom(_) => Kind::CustomOption,
    }
}

/// What kind of piece a statement is.
pub fn statement_kind(statement: &Statement) -> Kind
    ensures { result ≡ statement_kind statement.now }
{
    match statement {
        Statement::Syntax(_) => Kind::Syntax,
        Statement::Import(_) => Kind::Import,
        Statement::Package(_) => Kind::Package,
        Statement::Option(option) => option_kind(&option.setting),
        Statement::Field(field) => match field.label {
            Some(_) => Kind::LabeledField,
            None => Kind::Field,
        },
        Statement::MapField(_) => Kind::MapField,
        Statement::Reserved(_) => Kind::Reserved,
        Statement::Extensions(_) => Kind::Extensions,
        Statement::Value(_) => Kind::Value,
        Statement::EnumReserved(_) => Kind::EnumReserved,
        Statement::Method(_, _) => Kind::Method,
        Statement::Empty(_) => Kind::Empty,
    }
}

/// What kind of piece the beginning of a block is.
pub fn header_kind(header: &Header) -> Kind
    ensures { result ≡ header_kind header.now }
{
    match header {
        Header::Message(_) => Kind::OpenMessage,
        Header::Oneof(_) => Kind::OpenOneof,
        Header::Enum(_) => Kind::OpenEnum,
        Header::Service(_) => Kind::OpenService,
        Header::Method(_) => Kind::OpenMethod,
        Header::Extend(_) => Kind::OpenExtend,
    }
}

/// What kind of piece it is.
pub fn kind_of(piece: &Piece) -> Kind
    ensures { result ≡ kind_of piece.now }
{
    match piece {
        Piece::Statement(statement) => statement_kind(statement),
        Piece::Open(header, _) => header_kind(header),
        Piece::Close(_) => Kind::Close,
    }
}

/// What may stand in a file at any place.
fn in_file(kind: Kind) -> bool
    ensures { result ≡ in_file kind }
{
    match kind {
        Kind::Import | Kind::Option | Kind::CustomOption | Kind::Empty => true,
        Kind::OpenMessage | Kind::OpenEnum | Kind::OpenService | Kind::OpenExtend => true,
        _ => false,
    }
}

/// What may stand in a file that has no package yet.
fn before_package(kind: Kind) -> bool
    ensures { result ≡ before_package kind }
{
    match kind {
        Kind::Package => true,
        kind => in_file(kind),
    }
}

/// What may stand in a message.
fn in_message(kind: Kind) -> bool
    ensures { result ≡ in_message kind }
{
    match kind {
        Kind::Field | Kind::LabeledField | Kind::MapField => true,
        Kind::Option | Kind::CustomOption => true,
        Kind::Reserved | Kind::Extensions | Kind::Empty => true,
        Kind::OpenMessage | Kind::OpenOneof | Kind::OpenEnum | Kind::OpenExtend => true,
        Kind::Close => true,
        _ => false,
    }
}

/// What may stand in an enum.
fn in_enum(kind: Kind) -> bool
    ensures { result ≡ in_enum kind }
{
    match kind {
        Kind::Value | Kind::EnumReserved | Kind::Empty => true,
        Kind::Option | Kind::CustomOption => true,
        Kind::Close => true,
        _ => false,
    }
}

/// What may stand in a service.
fn in_service(kind: Kind) -> bool
    ensures { result ≡ in_service kind }
{
    match kind {
        Kind::Method | Kind::OpenMethod | Kind::Empty => true,
        Kind::Option | Kind::CustomOption => true,
        Kind::Close => true,
        _ => false,
    }
}

impl Context {
    /// Whether a piece of this kind may stand here.
    pub fn allows(self, kind: Kind) -> bool
        ensures { result ≡ allows self kind }
    {
        match self {
            Context::Start => match kind {
                Kind::Syntax => true,
                kind => before_package(kind),
            },
            Context::File => before_package(kind),
            Context::Packaged => in_file(kind),
            Context::Message => in_message(kind),
            Context::Oneof => match kind {
                Kind::Field | Kind::CustomOption | Kind::Close => true,
                _ => false,
            },
            Context::Enum => in_enum(kind),
            Context::Service => in_service(kind),
            Context::Method => match kind {
                Kind::Option | Kind::CustomOption | Kind::Empty | Kind::Close => true,
                _ => false,
            },
            Context::Extend => match kind {
                Kind::Field | Kind::LabeledField | Kind::Close => true,
                _ => false,
            },
        }
    }

    /// Where the next piece of the same block stands.
    pub fn after(self, kind: Kind) -> Context
        ensures { result ≡ after self kind }
    {
        match self {
            Context::Start | Context::File => match kind {
                Kind::Package => Context::Packaged,
                _ => Context::File,
            },
            other => other,
        }
    }
}
