//! The text of enums and their values.

ghost use Rattle.std.specs.Prelude.{OnOk};
ghost use Rattle.proto_descriptors_json.specs.DescriptorText.{enum_slots, enum_text, enum_value_text, enum_range_text, enum_options_slots, enum_value_options_slots};
ghost use Rattle.proto_descriptors_json.specs.Written.{PutsMember, PutsMembers, options_slot};
ghost use Rattle.proto_descriptors.specs.Views.{enum_desc, enum_value_desc};

use crate::members::{put, put_list};
use crate::options::{close, put_option};
use crate::values::ToJson;
use proto_descriptors::{
    EnumDescriptor, EnumOptions, EnumReservedRange, EnumValueDescriptor, EnumValueOptions,
};
use serde::Serializer;

impl ToJson for EnumDescriptor {
    ghost text = { λ e. enum_text (enum_desc e) };

    fn send<S: Serializer>(&self, out: &mut S) -> Result<(), S::Error> {
        out.begin_map(None)?;
        put_members(out, self)?;
        out.end_map()
    }
}

/// The members of an enum, in their order.
fn put_members<S: Serializer>(out: &mut S, enumeration: &EnumDescriptor) -> Result<(), S::Error>
    ensures { OnOk result (PutsMembers (enum_slots (enum_desc enumeration.now))
        (S.written out.old) (S.written out.new)) }
{
    put(out, "name", &enumeration.name)?;
    put_options(out, &enumeration.options)?;
    put_list(out, "reservedName", &enumeration.reserved_name)?;
    put_list(out, "reservedRange", &enumeration.reserved_range)?;
    put_list(out, "value", &enumeration.value)
}

impl ToJson for EnumValueDescriptor {
    ghost text = { λ v. enum_value_text (enum_value_desc v) };

    fn send<S: Serializer>(&self, out: &mut S) -> Result<(), S::Error> {
        out.begin_map(None)?;
        put(out, "name", &self.name)?;
        put(out, "number", &self.number)?;
        put_value_options(out, &self.options)?;
        out.end_map()
    }
}

impl ToJson for EnumReservedRange {
    ghost text = { λ r. enum_range_text r };

    fn send<S: Serializer>(&self, out: &mut S) -> Result<(), S::Error> {
        out.begin_map(None)?;
        put(out, "end", &self.end)?;
        put(out, "start", &self.start)?;
        out.end_map()
    }
}

/// The options in an enum, left out where none is written.
fn put_options<S: Serializer>(out: &mut S, options: &EnumOptions) -> Result<(), S::Error>
    ensures { OnOk result (PutsMember (options_slot (enum_options_slots options.now))
        (S.written out.old) (S.written out.new)) }
{
    let is_open = put_option(out, false, "allowAlias", &options.allow_alias)?;
    let is_open = put_option(out, is_open, "deprecated", &options.deprecated)?;
    close(out, is_open)
}

/// The option at a value of an enum, left out where it is not written.
fn put_value_options<S: Serializer>(out: &mut S, options: &EnumValueOptions) -> Result<(), S::Error>
    ensures { OnOk result (PutsMember (options_slot (enum_value_options_slots options.now))
        (S.written out.old) (S.written out.new)) }
{
    let is_open = put_option(out, false, "deprecated", &options.deprecated)?;
    close(out, is_open)
}
