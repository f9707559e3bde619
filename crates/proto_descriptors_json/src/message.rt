//! The text of messages, with those nested in them.

ghost use Rattle.std.specs.Prelude.{OnOk};
ghost use Rattle.proto_descriptors_json.specs.DescriptorText.{message_texts, range_text, oneof_text, message_options_slots};
ghost use Rattle.proto_descriptors_json.specs.JsonText.{array_if_any};
ghost use Rattle.proto_descriptors_json.specs.MessageText.{tree_text, before_nested, after_nested};
ghost use Rattle.proto_descriptors_json.specs.Written.{PutsValue, PutsMember, PutsMembers, options_slot};
ghost use Rattle.proto_descriptors.specs.Views.{oneof_desc, descriptor_tree, messages_desc};

use crate::members::{mark_of, put, put_list};
use crate::options::{close, put_option};
use crate::values::ToJson;
use proto_descriptors::{MessageDescriptor, MessageOptions, NumberRange, OneofDescriptor};
use serde::Serializer;

/// The list of the messages at this key, left out where there are none.
#[cycle(messages)]
pub(crate) fn put_messages<S: Serializer>(
    out: &mut S,
    key: &'static str,
    messages: &[MessageDescriptor],
) -> Result<(), S::Error>
    ensures { OnOk result (PutsMember
        (key.now, array_if_any (message_texts (messages_desc messages.now)))
        (S.written out.old) (S.written out.new)) }
{
    if messages.is_empty() {
        return Ok(());
    }
    out.key(key)?;
    out.begin_seq(None)?;
    for message in messages {
        put_message(out, message)?;
    }
    out.end_seq()
}

/// A message with those nested in it.
#[cycle(messages)]
fn put_message<S: Serializer>(out: &mut S, message: &MessageDescriptor) -> Result<(), S::Error>
    ensures { OnOk result (PutsValue (tree_text (descriptor_tree message.now))
        (S.written out.old) (S.written out.new)) }
{
    out.begin_map(None)?;
    put_before_nested(out, message)?;
    put_messages(out, "nestedType", &message.nested_type)?;
    put_after_nested(out, message)?;
    out.end_map()
}

/// The members whose keys are below `nestedType`.
fn put_before_nested<S: Serializer>(
    out: &mut S,
    message: &MessageDescriptor,
) -> Result<(), S::Error>
    ensures { OnOk result (PutsMembers (before_nested message.now)
        (S.written out.old) (S.written out.new)) }
{
    put_list(out, "enumType", &message.enum_type)?;
    put_list(out, "extension", &message.extension)?;
    put_list(out, "extensionRange", &message.extension_range)?;
    put_list(out, "field", &message.field)?;
    put(out, "name", &message.name)
}

/// The members whose keys are above `nestedType`.
fn put_after_nested<S: Serializer>(out: &mut S, message: &MessageDescriptor) -> Result<(), S::Error>
    ensures { OnOk result (PutsMembers (after_nested message.now)
        (S.written out.old) (S.written out.new)) }
{
    put_list(out, "oneofDecl", &message.oneof_decl)?;
    put_options(out, &message.options)?;
    put_list(out, "reservedName", &message.reserved_name)?;
    put_list(out, "reservedRange", &message.reserved_range)
}

impl ToJson for NumberRange {
    ghost text = { λ r. range_text r };

    fn send<S: Serializer>(&self, out: &mut S) -> Result<(), S::Error> {
        out.begin_map(None)?;
        put(out, "end", &self.end)?;
        put(out, "start", &self.start)?;
        out.end_map()
    }
}

impl ToJson for OneofDescriptor {
    ghost text = { λ o. oneof_text (oneof_desc o) };

    fn send<S: Serializer>(&self, out: &mut S) -> Result<(), S::Error> {
        out.begin_map(None)?;
        put(out, "name", &self.name)?;
        out.end_map()
    }
}

/// The options in a message, left out where there is nothing to say.
fn put_options<S: Serializer>(out: &mut S, options: &MessageOptions) -> Result<(), S::Error>
    ensures { OnOk result (PutsMember (options_slot (message_options_slots options.now))
        (S.written out.old) (S.written out.new)) }
{
    let is_open = put_option(out, false, "deprecated", &options.deprecated)?;
    let is_open = put_option(out, is_open, "mapEntry", &mark_of(options.map_entry))?;
    let accessor = &options.no_standard_descriptor_accessor;
    let is_open = put_option(out, is_open, "noStandardDescriptorAccessor", accessor)?;
    close(out, is_open)
}
