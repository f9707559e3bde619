//! The checks of linked files, the descriptors of those that pass them, with their JSON text, and
//! schemas that compile: files from their bytes to their descriptors, or to their link alone.
#![tactic(auto)]

mod checking;
mod described;
mod described_items;
mod descriptor_copies;
mod descriptors;
mod file_options;
mod head;
mod json_form;
pub mod laws;
mod new_texts;
mod printed_schema;
mod put_texts;
mod renewing;
mod replacing;
mod schema;
mod texts;

pub use checking::{check, pass_checks};
pub use described::file_descriptor;
pub use descriptors::Descriptors;
pub use json_form::{files_to_json, to_json};
pub use printed_schema::PrintedSchema;
pub use proto_base::{NoMemory, SchemaFault as CheckFault, SchemaFault as OpenFault};
pub use proto_descriptors::{
    CType, EnumDescriptor, EnumOptions, EnumReservedRange, EnumValueDescriptor, EnumValueOptions,
    FieldDescriptor, FieldOptions, FieldRole, FieldType, FileDescriptor, FileOptions,
    IdempotencyLevel, JsType, Label, MessageDescriptor, MessageOptions, MethodDescriptor,
    MethodOptions, NumberRange, OneofDescriptor, OptimizeMode, ServiceDescriptor, ServiceOptions,
    Syntax,
};
pub use proto_tree::Steps;
pub use schema::{CheckedSchema, Schema};
