//! The text of fields of messages.

ghost use Rattle.std.specs.Prelude.{[], ◌∷◌, IfOk, OnOk, take, drop, codes, option_map};
ghost use Rattle.serde.specs.Event.{Log};
ghost use Rattle.proto_descriptors_json.specs.DescriptorText.{c_type_name, js_type_name, label_name, type_word, field_slots, field_text, field_options_slots};
ghost use Rattle.proto_descriptors_json.specs.JsonText.{json_string};
ghost use Rattle.proto_descriptors_json.specs.Written.{EndsOptions, PutsMember, PutsMembers, options_slot};
ghost use Rattle.proto_descriptors.specs.Views.{field_desc, role_extendee, role_json_name};

use crate::members::{put, put_mark, put_optional};
use crate::options::{close, put_option};
use crate::values::ToJson;
use proto_descriptors::{
    CType, FieldDescriptor, FieldOptions, FieldRole, FieldType, JsType, Label,
};
use serde::Serializer;

impl ToJson for Label {
    ghost text = { λ l. json_string (label_name l) };

    fn send<S: Serializer>(&self, out: &mut S) -> Result<(), S::Error> {
        out.str(self.name())
    }
}

impl ToJson for FieldType {
    ghost text = { λ t. json_string (type_word t) };

    fn send<S: Serializer>(&self, out: &mut S) -> Result<(), S::Error> {
        out.str(self.name())
    }
}

impl ToJson for CType {
    ghost text = { λ t. json_string (c_type_name t) };

    fn send<S: Serializer>(&self, out: &mut S) -> Result<(), S::Error> {
        out.str(self.name())
    }
}

impl ToJson for JsType {
    ghost text = { λ t. json_string (js_type_name t) };

    fn send<S: Serializer>(&self, out: &mut S) -> Result<(), S::Error> {
        out.str(self.name())
    }
}

impl ToJson for FieldDescriptor {
    ghost text = { λ f. field_text (field_desc f) };

    fn send<S: Serializer>(&self, out: &mut S) -> Result<(), S::Error> {
        out.begin_map(None)?;
        put_first(out, self)?;
        put_rest(out, self)?;
        out.end_map()
    }
}

/// The members up to `number`.
fn put_first<S: Serializer>(out: &mut S, field: &FieldDescriptor) -> Result<(), S::Error>
    ensures { OnOk result (PutsMembers (take 6 (field_slots (field_desc field.now)))
        (S.written out.old) (S.written out.new)) }
{
    put_optional(out, "defaultValue", &field.default_value)?;
    put_role(out, &field.role)?;
    put(out, "label", &field.label)?;
    put(out, "name", &field.name)?;
    put(out, "number", &field.number)
}

/// The extendee of an extension, or the JSON name of a regular field.
fn put_role<S: Serializer>(out: &mut S, role: &FieldRole) -> Result<(), S::Error>
    ensures { OnOk result (PutsMembers (
        (codes "extendee", option_map json_string (role_extendee role.now))
        ∷ (codes "jsonName", option_map json_string (role_json_name role.now)) ∷ [])
        (S.written out.old) (S.written out.new)) }
{
    match role {
        FieldRole::Regular { json_name } => put(out, "jsonName", json_name),
        FieldRole::Extension { extendee } => put(out, "extendee", extendee),
    }
}

/// The members from `oneofIndex` on.
fn put_rest<S: Serializer>(out: &mut S, field: &FieldDescriptor) -> Result<(), S::Error>
    ensures { OnOk result (PutsMembers (drop 6 (field_slots (field_desc field.now)))
        (S.written out.old) (S.written out.new)) }
{
    put_optional(out, "oneofIndex", &field.oneof_index)?;
    put_options(out, &field.options)?;
    put_mark(out, "proto3Optional", field.proto3_optional)?;
    put(out, "type", &field.field_type)?;
    put_optional(out, "typeName", &field.type_name)
}

/// The options at a field, left out where none is written.
fn put_options<S: Serializer>(out: &mut S, options: &FieldOptions) -> Result<(), S::Error>
    ensures { OnOk result (PutsMember (options_slot (field_options_slots options.now))
        (S.written out.old) (S.written out.new)) }
{
    let is_open = put_first_options(out, options)?;
    put_later_options(out, is_open, options)
}

/// The options up to `lazy`. Answers whether their object has begun.
fn put_first_options<S: Serializer>(out: &mut S, options: &FieldOptions) -> Result<bool, S::Error>
    ensures { IfOk result (λ is_open. (last : Log)
        → EndsOptions is_open (drop 4 (field_options_slots options.now)) (S.written out.new) last
        → PutsMember (options_slot (field_options_slots options.now)) (S.written out.old) last) }
{
    let is_open = put_option(out, false, "ctype", &options.ctype)?;
    let is_open = put_option(out, is_open, "deprecated", &options.deprecated)?;
    let is_open = put_option(out, is_open, "jstype", &options.jstype)?;
    put_option(out, is_open, "lazy", &options.lazy)
}

/// The options from `packed` on, and the end of their object.
fn put_later_options<S: Serializer>(
    out: &mut S,
    is_open: bool,
    options: &FieldOptions,
) -> Result<(), S::Error>
    ensures { OnOk result (EndsOptions is_open (drop 4 (field_options_slots options.now))
        (S.written out.old) (S.written out.new)) }
{
    let is_open = put_option(out, is_open, "packed", &options.packed)?;
    let is_open = put_option(out, is_open, "unverifiedLazy", &options.unverified_lazy)?;
    let is_open = put_option(out, is_open, "weak", &options.weak)?;
    close(out, is_open)
}
