//! The pieces of a file: statements, and what begins and ends a block.

use crate::tree::{
    Extensions, Field, Import, MapField, Option_, Package, Reference, Reserved, Signature, Signed,
    Syntax, Value,
};

/// What ends in a `;`.
#[derive(Drop)]
pub enum Statement {
    Syntax(Syntax),
    Import(Import),
    Package(Package),
    Option(Option_),
    Field(Field),
    MapField(MapField),
    Reserved(Reserved<u32>),
    Extensions(Extensions),
    Value(Value),
    EnumReserved(Reserved<Signed>),
    Method(Signature, u32),
    Empty(u32),
}

/// The keyword and the name before a `{`.
#[derive(Clone, Copy)]
pub struct Heading {
    pub keyword: u32,
    pub name: u32,
}

/// What an `extend` block begins with: the keyword, and a reference to a message.
#[derive(Drop)]
pub struct Extending {
    pub keyword: u32,
    pub extendee: Reference,
}

/// What stands before a `{`.
#[derive(Drop)]
pub enum Header {
    Message(Heading),
    Oneof(Heading),
    Enum(Heading),
    Service(Heading),
    Method(Signature),
    Extend(Extending),
}

/// What ends the signature of a method.
#[derive(Clone, Copy)]
pub enum Ending {
    Semicolon(u32),
    Open(u32),
}

/// A statement, or what begins or ends a block, with the index of its brace.
#[derive(Drop)]
pub enum Piece {
    Statement(Statement),
    Open(Header, u32),
    Close(u32),
}
