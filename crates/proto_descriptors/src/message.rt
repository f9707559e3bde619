//! Messages, with those nested in them.

ghost use Rattle.std.specs.Prelude.{◌≡◌, IfOk, map, string_bytes};
ghost use Rattle.proto_descriptors.specs.Views.{descriptor_tree, enum_desc, field_desc, message_desc, messages_desc, oneof_desc};
ghost use Rattle.proto_descriptors.specs.declared.message.MessageDescriptor.{out-MessageDescriptor};
ghost use Rattle.proto_base.specs.Texts.{Text};

use crate::copying::{HasCopy, copies};
use crate::enumeration::EnumDescriptor;
use crate::field::FieldDescriptor;
use proto_base::NoMemory;
use std::alloc::Global;

/// A message, its lists in source order; a map field's entry is in `nested_type` at its place.
#[derive(Drop)]
pub struct MessageDescriptor {
    /// The name that its declaration gives it.
    pub name: String,
    /// The fields, those of its oneofs among them.
    pub field: Vec<FieldDescriptor>,
    /// The extensions that stand right in it, whichever message they extend.
    pub extension: Vec<FieldDescriptor>,
    /// The messages right in it, and the entries of its map fields.
    pub nested_type: Vec<MessageDescriptor>,
    /// The enums right in it.
    pub enum_type: Vec<EnumDescriptor>,
    /// The numbers that are left to extensions.
    pub extension_range: Vec<NumberRange>,
    /// The oneofs.
    pub oneof_decl: Vec<OneofDescriptor>,
    /// The numbers that no field may have.
    pub reserved_range: Vec<NumberRange>,
    /// The names that no field may have.
    pub reserved_name: Vec<String>,
    /// The options right in its block.
    pub options: MessageOptions,
}

/// The same messages in the same order. Fails only when out of memory.
#[cycle(message_copies)]
pub(crate) fn copied_messages(
    alloc: Global,
    messages: &[MessageDescriptor],
) -> Result<Vec<MessageDescriptor>, NoMemory>
    ensures { IfOk result
        (λ copy. map descriptor_tree copy.items ≡ map descriptor_tree messages.now) }
{
    let mut copy = Vec::with_capacity(alloc, messages.len())?;
    for message in messages {
        let own = copied_message(alloc, message)?;
        copy.push(own)?;
    }
    Ok(copy)
}

/// The same message, with those nested in it.
#[cycle(message_copies)]
fn copied_message(alloc: Global, message: &MessageDescriptor) -> Result<MessageDescriptor, NoMemory>
    ensures { IfOk result (λ copy. descriptor_tree copy ≡ descriptor_tree message.now) }
{
    let nested_type = copied_messages(alloc, &message.nested_type)?;
    message_around(alloc, message, nested_type)
}

/// The same message, but with these nested in it.
fn message_around(
    alloc: Global,
    message: &MessageDescriptor,
    nested_type: Vec<MessageDescriptor>,
) -> Result<MessageDescriptor, NoMemory>
    ensures { IfOk result (λ copy. descriptor_tree copy
        ≡ record {
          message = message_desc (out-MessageDescriptor message.now);
          nested_type = messages_desc nested_type.items;
        }) }
{
    let contents = copied_contents(alloc, message)?;
    let numbers = copied_numbers(alloc, message)?;
    Ok(MessageDescriptor {
        name: contents.name,
        field: contents.field,
        extension: contents.extension,
        nested_type,
        enum_type: contents.enum_type,
        extension_range: numbers.extension_range,
        oneof_decl: numbers.oneof_decl,
        reserved_range: numbers.reserved_range,
        reserved_name: numbers.reserved_name,
        options: message.options,
    })
}

/// The name of a message and what stands in it, but for messages.
#[derive(Drop)]
struct Contents {
    name: String,
    field: Vec<FieldDescriptor>,
    extension: Vec<FieldDescriptor>,
    enum_type: Vec<EnumDescriptor>,
}

fn copied_contents(alloc: Global, message: &MessageDescriptor) -> Result<Contents, NoMemory>
    ensures name { IfOk result
        (λ copy. string_bytes copy.name ≡ string_bytes (out-MessageDescriptor message.now).name) }
    ensures field { IfOk result (λ copy. map field_desc copy.field.items
        ≡ map field_desc (out-MessageDescriptor message.now).field.items) }
    ensures extension { IfOk result (λ copy. map field_desc copy.extension.items
        ≡ map field_desc (out-MessageDescriptor message.now).extension.items) }
    ensures enum_type { IfOk result (λ copy. map enum_desc copy.enum_type.items
        ≡ map enum_desc (out-MessageDescriptor message.now).enum_type.items) }
{
    let name = message.name.copy(alloc)?;
    let field = copies(alloc, &message.field)?;
    let extension = copies(alloc, &message.extension)?;
    let enum_type = copies(alloc, &message.enum_type)?;
    Ok(Contents {
        name,
        field,
        extension,
        enum_type,
    })
}

/// The oneofs of a message, and its numbers and names that are no field's.
#[derive(Drop)]
struct Numbers {
    extension_range: Vec<NumberRange>,
    oneof_decl: Vec<OneofDescriptor>,
    reserved_range: Vec<NumberRange>,
    reserved_name: Vec<String>,
}

fn copied_numbers(alloc: Global, message: &MessageDescriptor) -> Result<Numbers, NoMemory>
    ensures extension_range { IfOk result (λ copy. copy.extension_range.items
        ≡ (out-MessageDescriptor message.now).extension_range.items) }
    ensures oneof_decl { IfOk result (λ copy. map oneof_desc copy.oneof_decl.items
        ≡ map oneof_desc (out-MessageDescriptor message.now).oneof_decl.items) }
    ensures reserved_range { IfOk result (λ copy. copy.reserved_range.items
        ≡ (out-MessageDescriptor message.now).reserved_range.items) }
    ensures reserved_name { IfOk result (λ copy. map string_bytes copy.reserved_name.items
        ≡ map string_bytes (out-MessageDescriptor message.now).reserved_name.items) }
{
    let extension_range = Vec::from_slice(alloc, &message.extension_range)?;
    let oneof_decl = copies(alloc, &message.oneof_decl)?;
    let reserved_range = Vec::from_slice(alloc, &message.reserved_range)?;
    let reserved_name = copies(alloc, &message.reserved_name)?;
    Ok(Numbers {
        extension_range,
        oneof_decl,
        reserved_range,
        reserved_name,
    })
}

/// Field numbers from `start` up to `end`, which is not one of them.
#[derive(Clone, Copy)]
pub struct NumberRange {
    /// The first number.
    pub start: u32,
    /// The number behind the last.
    pub end: u32,
}

/// A oneof.
#[derive(Drop)]
pub struct OneofDescriptor {
    /// Its name.
    pub name: String,
}

impl HasCopy for OneofDescriptor {
    ghost View = { Text };

    ghost view = { λ o. oneof_desc o };

    fn copy(&self, alloc: Global) -> Result<OneofDescriptor, NoMemory> {
        let name = self.name.copy(alloc)?;
        Ok(OneofDescriptor { name })
    }
}

/// The options that stand in a message.
#[derive(Clone, Copy)]
pub struct MessageOptions {
    /// Whether the message is no longer to be used.
    pub deprecated: Option<bool>,
    /// Whether its C++ class has no `descriptor()`.
    pub no_standard_descriptor_accessor: Option<bool>,
    /// Whether the message was made for a map field.
    pub map_entry: bool,
}
