//! What may be wrong with the schemas of a workspace.

ghost use Rattle.std.specs.Prelude.{◌≡◌};
ghost use Rattle.proto_base.specs.FaultTable.{kind_number, kind_name, phase_of, answer_number, answer_name};

use crate::no_memory::NoMemory;
use std::alloc::{AllocError, AllocFailed};
use std::{error, fmt};
use thiserror::Error;

/// The faults of schemas, in the order of their numbers, which begin at 1.
#[derive(Clone, Copy, Debug, PartialEq, Eq)]
pub enum FaultKind {
    /// 1: a file of more than 1,048,576 bytes.
    TooLarge,
    /// 2: a file that is not UTF-8.
    NotUtf8,
    /// 3: a character that begins no token, white space or comment.
    BadChar,
    /// 4: a block comment that is not closed.
    OpenComment,
    /// 5: a string that is not closed.
    OpenString,
    /// 6: a string with a refused escape, or whose value is not UTF-8.
    BadEscape,
    /// 7: a word that begins with a digit and is no number.
    BadNumber,
    /// 8: a statement that the grammar does not have.
    Syntax,
    /// 9: more than 32 braces open at once.
    TooDeep,
    /// 10: an import of a path that is not in the workspace.
    UnknownImport,
    /// 11: an import of a path that the file imports before.
    DoubleImport,
    /// 12: an import that leads back to its file.
    ImportCycle,
    /// 13: a full name that an earlier declaration or a package has.
    DuplicateName,
    /// 14: a reference that means nothing.
    Unresolved,
    /// 15: a reference of a method or of an `extend` that means an enum.
    WrongKind,
    /// 16: a reference that means a generated map entry.
    MapEntryRef,
    /// 17: a number or a range outside its limits.
    NumberRange,
    /// 18: a field number that an earlier field has.
    DuplicateNumber,
    /// 19: a number inside a reserved or extension range.
    ReservedNumber,
    /// 20: a name that is reserved, or reserved twice.
    ReservedName,
    /// 21: a range that shares a number with an earlier one.
    RangeOverlap,
    /// 22: an enum without values.
    EmptyEnum,
    /// 23: an enum whose first value has to be 0 and is not.
    FirstNotZero,
    /// 24: an enum of a proto2 file in a field of a proto3 file.
    ClosedEnum,
    /// 25: a proto2 field without a label.
    Label,
    /// 26: a map key of a type that no key has.
    BadMap,
    /// 27: an option that the element does not have, or with a value of another kind.
    BadOption,
    /// 28: a default that the field does not have.
    BadDefault,
    /// 29: a oneof without fields.
    EmptyOneof,
    /// 30: a JSON name that an earlier field has.
    JsonClash,
    /// 31: a word of proto2 in a proto3 file.
    NotInProto3,
    /// 32: a value number that an earlier value has, without leave.
    AliasNotAllowed,
    /// 33: a path that is no workspace path.
    BadPath,
    /// 34: a path that is given twice.
    DoublePath,
    /// 35: more files than a workspace holds.
    TooManyFiles,
    /// 36: an extension whose number is inside no extension range of what it extends.
    NotExtendable,
    /// 37: an extension whose number an earlier one of the same message has.
    DuplicateExtension,
    /// 38: an extension with the label `required`.
    RequiredExtension,
    /// 39: a custom option whose extension is one of another element.
    NotAnOption,
}

impl fmt::Display for FaultKind {
    fn fmt<W: fmt::Write>(&self, f: &mut fmt::Formatter<W>) -> fmt::Result {
        write!(f, "{} {}: {}", self.number(), self.name(), self.text())
    }
}

impl error::Error for FaultKind {}

impl FaultKind {
    /// What is wrong, in words, for people.
    fn text(self) -> &'static str {
        match self {
            FaultKind::TooLarge => "a file of more than 1,048,576 bytes",
            FaultKind::NotUtf8 => "a file that is not UTF-8",
            FaultKind::BadChar => "a character that begins no token, white space or comment",
            FaultKind::OpenComment => "a block comment that is not closed",
            FaultKind::OpenString => "a string that is not closed",
            FaultKind::BadEscape => "a string with a refused escape, or whose value is not UTF-8",
            FaultKind::BadNumber => "a word that begins with a digit and is no number",
            FaultKind::Syntax => "a statement that the grammar does not have",
            FaultKind::TooDeep => "more than 32 braces open at once",
            FaultKind::UnknownImport => "an import of a path that is not in the workspace",
            FaultKind::DoubleImport => "an import of a path that the file imports before",
            FaultKind::ImportCycle => "an import that leads back to its file",
            FaultKind::DuplicateName => "a full name that an earlier declaration or a package has",
            FaultKind::Unresolved => "a reference that means nothing",
            FaultKind::WrongKind => "a reference of a method or of an `extend` that means an enum",
            FaultKind::MapEntryRef => "a reference that means a generated map entry",
            FaultKind::NumberRange => "a number or a range outside its limits",
            FaultKind::DuplicateNumber => "a field number that an earlier field has",
            FaultKind::ReservedNumber => "a number inside a reserved or extension range",
            FaultKind::ReservedName => "a name that is reserved, or reserved twice",
            FaultKind::RangeOverlap => "a range that shares a number with an earlier one",
            FaultKind::EmptyEnum => "an enum without values",
            FaultKind::FirstNotZero => "an enum whose first value has to be 0 and is not",
            FaultKind::ClosedEnum => "an enum of a proto2 file in a field of a proto3 file",
            FaultKind::Label => "a proto2 field without a label",
            FaultKind::BadMap => "a map key of a type that no key has",
            FaultKind::BadOption =>
                "an option that the element does not have, or with a value of another kind",
            FaultKind::BadDefault => "a default that the field does not have",
            FaultKind::EmptyOneof => "a oneof without fields",
            FaultKind::JsonClash => "a JSON name that an earlier field has",
            FaultKind::NotInProto3 => "a word of proto2 in a proto3 file",
            FaultKind::AliasNotAllowed => "a value number that an earlier value has, without leave",
            FaultKind::BadPath => "a path that is no workspace path",
            FaultKind::DoublePath => "a path that is given twice",
            FaultKind::TooManyFiles => "more files than a workspace holds",
            FaultKind::NotExtendable =>
                "an extension's number inside no extension range of what it extends",
            FaultKind::DuplicateExtension =>
                "an extension's number that an earlier one of the same message has",
            FaultKind::RequiredExtension => "a required extension",
            FaultKind::NotAnOption => "a custom option whose extension is one of another element",
        }
    }

    /// The number of the fault, from 1 to 39.
    pub fn number(self) -> u32
        ensures { result ≡ kind_number self }
    {
        match self {
            FaultKind::TooLarge => 1,
            FaultKind::NotUtf8 => 2,
            FaultKind::BadChar => 3,
            FaultKind::OpenComment => 4,
            FaultKind::OpenString => 5,
            FaultKind::BadEscape => 6,
            FaultKind::BadNumber => 7,
            FaultKind::Syntax => 8,
            FaultKind::TooDeep => 9,
            FaultKind::UnknownImport => 10,
            FaultKind::DoubleImport => 11,
            FaultKind::ImportCycle => 12,
            FaultKind::DuplicateName => 13,
            FaultKind::Unresolved => 14,
            FaultKind::WrongKind => 15,
            FaultKind::MapEntryRef => 16,
            FaultKind::NumberRange => 17,
            FaultKind::DuplicateNumber => 18,
            FaultKind::ReservedNumber => 19,
            FaultKind::ReservedName => 20,
            FaultKind::RangeOverlap => 21,
            FaultKind::EmptyEnum => 22,
            FaultKind::FirstNotZero => 23,
            FaultKind::ClosedEnum => 24,
            FaultKind::Label => 25,
            FaultKind::BadMap => 26,
            FaultKind::BadOption => 27,
            FaultKind::BadDefault => 28,
            FaultKind::EmptyOneof => 29,
            FaultKind::JsonClash => 30,
            FaultKind::NotInProto3 => 31,
            FaultKind::AliasNotAllowed => 32,
            FaultKind::BadPath => 33,
            FaultKind::DoublePath => 34,
            FaultKind::TooManyFiles => 35,
            FaultKind::NotExtendable => 36,
            FaultKind::DuplicateExtension => 37,
            FaultKind::RequiredExtension => 38,
            FaultKind::NotAnOption => 39,
        }
    }

    /// The name of the fault.
    pub fn name(self) -> &'static str
        ensures { result.now ≡ kind_name self }
    {
        match self {
            FaultKind::TooLarge => "TooLarge",
            FaultKind::NotUtf8 => "NotUtf8",
            FaultKind::BadChar => "BadChar",
            FaultKind::OpenComment => "OpenComment",
            FaultKind::OpenString => "OpenString",
            FaultKind::BadEscape => "BadEscape",
            FaultKind::BadNumber => "BadNumber",
            FaultKind::Syntax => "Syntax",
            FaultKind::TooDeep => "TooDeep",
            FaultKind::UnknownImport => "UnknownImport",
            FaultKind::DoubleImport => "DoubleImport",
            FaultKind::ImportCycle => "ImportCycle",
            FaultKind::DuplicateName => "DuplicateName",
            FaultKind::Unresolved => "Unresolved",
            FaultKind::WrongKind => "WrongKind",
            FaultKind::MapEntryRef => "MapEntryRef",
            FaultKind::NumberRange => "NumberRange",
            FaultKind::DuplicateNumber => "DuplicateNumber",
            FaultKind::ReservedNumber => "ReservedNumber",
            FaultKind::ReservedName => "ReservedName",
            FaultKind::RangeOverlap => "RangeOverlap",
            FaultKind::EmptyEnum => "EmptyEnum",
            FaultKind::FirstNotZero => "FirstNotZero",
            FaultKind::ClosedEnum => "ClosedEnum",
            FaultKind::Label => "Label",
            FaultKind::BadMap => "BadMap",
            FaultKind::BadOption => "BadOption",
            FaultKind::BadDefault => "BadDefault",
            FaultKind::EmptyOneof => "EmptyOneof",
            FaultKind::JsonClash => "JsonClash",
            FaultKind::NotInProto3 => "NotInProto3",
            FaultKind::AliasNotAllowed => "AliasNotAllowed",
            FaultKind::BadPath => "BadPath",
            FaultKind::DoublePath => "DoublePath",
            FaultKind::TooManyFiles => "TooManyFiles",
            FaultKind::NotExtendable => "NotExtendable",
            FaultKind::DuplicateExtension => "DuplicateExtension",
            FaultKind::RequiredExtension => "RequiredExtension",
            FaultKind::NotAnOption => "NotAnOption",
        }
    }

    /// The phase that finds the fault: 0 paths, 1 text, 2 grammar, 3 imports, 4 names,
    /// 5 references, 6 checks.
    pub fn phase(self) -> u32
        ensures { result ≡ phase_of self }
    {
        match self {
            FaultKind::TooLarge => 1,
            FaultKind::NotUtf8 => 1,
            FaultKind::BadChar => 1,
            FaultKind::OpenComment => 1,
            FaultKind::OpenString => 1,
            FaultKind::BadEscape => 1,
            FaultKind::BadNumber => 1,
            FaultKind::Syntax => 2,
            FaultKind::TooDeep => 2,
            FaultKind::UnknownImport => 3,
            FaultKind::DoubleImport => 3,
            FaultKind::ImportCycle => 3,
            FaultKind::DuplicateName => 4,
            FaultKind::Unresolved => 5,
            FaultKind::WrongKind => 5,
            FaultKind::MapEntryRef => 5,
            FaultKind::NumberRange => 6,
            FaultKind::DuplicateNumber => 6,
            FaultKind::ReservedNumber => 6,
            FaultKind::ReservedName => 6,
            FaultKind::RangeOverlap => 6,
            FaultKind::EmptyEnum => 6,
            FaultKind::FirstNotZero => 6,
            FaultKind::ClosedEnum => 6,
            FaultKind::Label => 6,
            FaultKind::BadMap => 6,
            FaultKind::BadOption => 6,
            FaultKind::BadDefault => 6,
            FaultKind::EmptyOneof => 6,
            FaultKind::JsonClash => 6,
            FaultKind::NotInProto3 => 6,
            FaultKind::AliasNotAllowed => 6,
            FaultKind::BadPath => 0,
            FaultKind::DoublePath => 0,
            FaultKind::TooManyFiles => 0,
            FaultKind::NotExtendable => 6,
            FaultKind::DuplicateExtension => 6,
            FaultKind::RequiredExtension => 6,
            FaultKind::NotAnOption => 6,
        }
    }
}

/// A fault at a place: a file and an offset in it, in bytes from 0.
#[derive(Debug, Drop, Error)]
#[error("{kind}: {path}: byte {offset}")]
pub struct Fault {
    /// The file, by its path in the workspace.
    pub path: String,
    /// Where in the file, in bytes from 0.
    pub offset: u32,
    /// What is wrong there.
    pub kind: FaultKind,
}

impl Fault {
    /// The number of the fault, from 1 to 39.
    pub fn number(&self) -> u32
        ensures { result ≡ kind_number self.now.kind }
    {
        self.kind.number()
    }

    /// The name of the fault.
    pub fn name(&self) -> &'static str
        ensures { result.now ≡ kind_name self.now.kind }
    {
        self.kind.name()
    }
}

/// Why no files, no link, no descriptors or no schema is answered: the least fault of the schemas,
/// or out of memory.
#[derive(Debug, Drop, Error)]
pub enum SchemaFault {
    /// The schemas have faults: the least of them.
    #[error("{0}")]
    Schema(Fault),
    /// A growth was refused; nothing is said of the schemas.
    #[error("no memory")]
    NoMemory,
}

impl SchemaFault {
    /// The number of the fault, from 1 to 39, or 0 when out of memory.
    pub fn number(&self) -> u32
        ensures { result ≡ answer_number self.now }
    {
        match self {
            SchemaFault::Schema(fault) => fault.number(),
            SchemaFault::NoMemory => 0,
        }
    }

    /// The name of the fault, or `NoMemory`.
    pub fn name(&self) -> &'static str
        ensures { result.now ≡ answer_name self.now }
    {
        match self {
            SchemaFault::Schema(fault) => fault.name(),
            SchemaFault::NoMemory => "NoMemory",
        }
    }
}

impl From<NoMemory> for SchemaFault {
    ghost use Rattle.proto_base.specs.declared.fault.SchemaFault.TheVariants.{NoMemory as OutOfMemory};

    ghost from_gives = { λ _ e. e ≡ OutOfMemory };

    fn from(_e: NoMemory) -> SchemaFault {
        SchemaFault::NoMemory
    }
}

impl From<AllocError> for SchemaFault {
    ghost use Rattle.proto_base.specs.declared.fault.SchemaFault.TheVariants.{NoMemory as OutOfMemory};

    ghost from_gives = { λ _ e. e ≡ OutOfMemory };

    fn from(_e: AllocError) -> SchemaFault {
        SchemaFault::NoMemory
    }
}

impl<T: Drop> From<AllocFailed<T>> for SchemaFault {
    ghost use Rattle.proto_base.specs.declared.fault.SchemaFault.TheVariants.{NoMemory as OutOfMemory};

    ghost from_gives = { λ _ e. e ≡ OutOfMemory };

    fn from(_e: AllocFailed<T>) -> SchemaFault {
        SchemaFault::NoMemory
    }
}
