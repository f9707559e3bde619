//! Descriptors, with the field names of descriptor.proto.
#![tactic(auto)]

mod copying;
mod enumeration;
mod field;
mod file;
mod message;
mod service;

pub use enumeration::{
    EnumDescriptor, EnumOptions, EnumReservedRange, EnumValueDescriptor, EnumValueOptions,
};
pub use field::{CType, FieldDescriptor, FieldOptions, FieldRole, FieldType, JsType, Label};
pub use file::{FileDescriptor, FileOptions, OptimizeMode, Syntax, copy_files};
pub use message::{MessageDescriptor, MessageOptions, NumberRange, OneofDescriptor};
pub use service::{
    IdempotencyLevel, MethodDescriptor, MethodOptions, ServiceDescriptor, ServiceOptions,
};
