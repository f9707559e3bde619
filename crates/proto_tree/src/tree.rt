//! The tree of a file. Each token of the file has its index, from 0, in a named field; no text is
//! kept.

ghost use Rattle.std.specs.Prelude.{◌≡◌};
ghost use Rattle.proto_tree.specs.Modifiers.{is_public, is_weak};

use crate::list::Sequence;
use crate::on_heap::OnHeap;

/// A separator and what stands behind it.
#[derive(Drop)]
pub struct Behind<T: Drop> {
    pub separator: u32,
    pub item: T,
}

/// One or more items with a separator between each two.
#[derive(Drop)]
pub struct Separated<T: Drop> {
    pub first: T,
    pub rest: Sequence<Behind<T>>,
}

/// Words joined by dots.
pub type Dotted = Separated<u32>;

/// The name of a message or an enum, with the dot before it where there is one. One without it
/// begins with no listed word.
#[derive(Drop)]
pub struct Reference {
    pub dot: Option<u32>,
    pub words: Dotted,
}

/// The type of a field: the word of a scalar type, or a reference.
#[derive(Drop)]
pub enum FieldType {
    Scalar(u32),
    Reference(Reference),
}

/// A number, with the `-` before it where there is one.
#[derive(Clone, Copy)]
pub struct Signed {
    pub minus: Option<u32>,
    pub number: u32,
}

/// Strings that join to one text.
#[derive(Drop)]
pub struct Joined {
    pub first: u32,
    pub rest: Sequence<u32>,
}

/// A token between the braces of a value: a brace, a `:`, a word, or another one.
#[derive(Clone, Copy)]
pub enum Atom {
    Open(u32),
    Close(u32),
    Colon(u32),
    Word(u32),
    Other(u32),
}

/// `{ .. }`, in which as many braces are closed as are opened.
#[derive(Drop)]
pub struct Aggregate {
    pub open: u32,
    pub atoms: Sequence<Atom>,
    pub close: u32,
}

/// The value of an option.
#[derive(Drop)]
pub enum Constant {
    Word(u32),
    Number(Signed),
    Text(Joined),
}

/// `name = value`
#[derive(Drop)]
pub struct Plain {
    pub name: u32,
    pub equals: u32,
    pub value: Constant,
}

/// The value of a custom option.
#[derive(Drop)]
pub enum CustomValue {
    Constant(Constant),
    Aggregate(Aggregate),
}

/// `(a.name).field = value`: the name of an extension, and words behind it.
#[derive(Drop)]
pub struct Custom {
    pub open: u32,
    pub name: Reference,
    pub close: u32,
    pub path: Sequence<Behind<u32>>,
    pub equals: u32,
    pub value: CustomValue,
}

/// An option that is set, by its word or by the name of an extension.
#[derive(Drop)]
pub enum Setting {
    Plain(Plain),
    Custom(OnHeap<Custom>),
}

/// `[name = value, ..]`
#[derive(Drop)]
pub struct Settings {
    pub open: u32,
    pub list: Separated<Setting>,
    pub close: u32,
}

/// `syntax = "proto3";`
#[derive(Clone, Copy)]
pub struct Syntax {
    pub keyword: u32,
    pub equals: u32,
    pub text: u32,
    pub semicolon: u32,
}

/// `import public "path";`
#[derive(Clone, Copy)]
pub struct Import {
    pub keyword: u32,
    pub modifier: Option<Modifier>,
    pub path: u32,
    pub semicolon: u32,
}

/// What stands behind `import`.
#[derive(Clone, Copy)]
pub enum Modifier {
    /// `public`
    Public(u32),
    /// `weak`, in files as written.
    Weak(u32),
}

impl Import {
    /// Whether it is a public import.
    pub fn is_public(&self) -> bool
        ensures { result ≡ is_public self.now.modifier }
    {
        matches!(self.modifier, Some(Modifier::Public(_)))
    }

    /// Whether it is a weak import.
    pub fn is_weak(&self) -> bool
        ensures { result ≡ is_weak self.now.modifier }
    {
        matches!(self.modifier, Some(Modifier::Weak(_)))
    }
}

/// `package a.b;`
#[derive(Drop)]
pub struct Package {
    pub keyword: u32,
    pub name: Dotted,
    pub semicolon: u32,
}

/// `option name = value;`
#[derive(Drop)]
pub struct Option_ {
    pub keyword: u32,
    pub setting: Setting,
    pub semicolon: u32,
}

/// `repeated Type name = 1 [settings];` A field of a oneof has no label.
#[derive(Drop)]
pub struct Field {
    pub label: Option<u32>,
    pub kind: FieldType,
    pub name: u32,
    pub equals: u32,
    pub number: u32,
    pub settings: Option<OnHeap<Settings>>,
    pub semicolon: u32,
}

/// `map<key, Type> name = 1 [settings];`
#[derive(Drop)]
pub struct MapField {
    pub keyword: u32,
    pub open: u32,
    pub key: u32,
    pub comma: u32,
    pub value: FieldType,
    pub close: u32,
    pub name: u32,
    pub equals: u32,
    pub number: u32,
    pub settings: Option<OnHeap<Settings>>,
    pub semicolon: u32,
}

/// The last number of a range, or `max`.
#[derive(Drop)]
pub enum RangeEnd<N: Drop> {
    Number(N),
    Max(u32),
}

/// `to` and the end of a range.
#[derive(Drop)]
pub struct UpTo<N: Drop> {
    pub to: u32,
    pub end: RangeEnd<N>,
}

/// A number, or a range of numbers.
#[derive(Drop)]
pub struct Range<N: Drop> {
    pub first: N,
    pub up_to: Option<UpTo<N>>,
}

/// What is reserved: names, each in a string, or ranges of numbers.
#[derive(Drop)]
pub enum ReservedList<N: Drop> {
    Names(Separated<u32>),
    Ranges(Separated<Range<N>>),
}

/// `reserved 1, 3 to max;` or `reserved "a", "b";` The numbers of a message are `u32`, those of an
/// enum `Signed`.
#[derive(Drop)]
pub struct Reserved<N: Drop> {
    pub keyword: u32,
    pub list: ReservedList<N>,
    pub semicolon: u32,
}

/// `extensions 100 to max;`
#[derive(Drop)]
pub struct Extensions {
    pub keyword: u32,
    pub ranges: Separated<Range<u32>>,
    pub semicolon: u32,
}

/// A value of an enum: `NAME = -1 [settings];`
#[derive(Drop)]
pub struct Value {
    pub name: u32,
    pub equals: u32,
    pub number: Signed,
    pub settings: Option<OnHeap<Settings>>,
    pub semicolon: u32,
}

/// `(stream Type)`
#[derive(Drop)]
pub struct MethodType {
    pub open: u32,
    pub stream: Option<u32>,
    pub reference: Reference,
    pub close: u32,
}

/// `rpc Name (Input) returns (Output)`
#[derive(Drop)]
pub struct Signature {
    pub keyword: u32,
    pub name: u32,
    pub input: MethodType,
    pub returns: u32,
    pub output: MethodType,
}

/// What ends a method: a `;`, or a block of options.
#[derive(Drop)]
pub enum MethodEnd {
    Semicolon(u32),
    Block {
        open: u32,
        items: Vec<MethodItem>,
        close: u32,
    },
}

/// A method: its signature, and what ends it.
#[derive(Drop)]
pub struct Method {
    pub signature: Signature,
    pub end: MethodEnd,
}

/// What stands in the block of a method.
#[derive(Drop)]
pub enum MethodItem {
    Option(Option_),
    Empty(u32),
}

/// A keyword, a name, and what stands between braces.
#[derive(Drop)]
pub struct Block<T: Drop> {
    pub keyword: u32,
    pub name: u32,
    pub open: u32,
    pub members: Vec<T>,
    pub close: u32,
}

/// `message Name { .. }`
pub type Message = Block<Member>;

/// `oneof name { .. }`
pub type Oneof = Block<OneofItem>;

/// `enum Name { .. }`
pub type Enum = Block<EnumItem>;

/// `service Name { .. }`
pub type Service = Block<ServiceItem>;

/// An extension: a field that an `extend` block gives to the message that it names.
#[derive(Drop)]
pub struct Extension {
    pub field: Field,
}

/// `extend Message { optional Type name = 100; .. }`
#[derive(Drop)]
pub struct Extend {
    pub keyword: u32,
    pub extendee: Reference,
    pub open: u32,
    pub fields: Vec<Extension>,
    pub close: u32,
}

/// What stands in a message.
#[derive(Drop)]
pub enum Member {
    Field(Field),
    MapField(MapField),
    Oneof(Oneof),
    Message(Message),
    Enum(Enum),
    Extend(Extend),
    Option(Option_),
    Reserved(Reserved<u32>),
    Extensions(Extensions),
    Empty(u32),
}

/// What stands in a oneof: a field without a label, or a custom option.
#[derive(Drop)]
pub enum OneofItem {
    Field(Field),
    Option(Option_),
}

/// What stands in an enum.
#[derive(Drop)]
pub enum EnumItem {
    Value(Value),
    Option(Option_),
    Reserved(Reserved<Signed>),
    Empty(u32),
}

/// What stands in a service.
#[derive(Drop)]
pub enum ServiceItem {
    Method(Method),
    Option(Option_),
    Empty(u32),
}

/// What stands in a file.
#[derive(Drop)]
pub enum Item {
    Syntax(Syntax),
    Import(Import),
    Package(Package),
    Option(Option_),
    Message(Message),
    Enum(Enum),
    Service(Service),
    Extend(Extend),
    Empty(u32),
}

/// A whole file, in order.
#[derive(Drop)]
pub struct File {
    pub items: Vec<Item>,
}

impl File {
    /// Lets the tree go. A crate that ends it by this call need not prove how each of its
    /// parts is dropped.
    pub fn release(self) {}
}
