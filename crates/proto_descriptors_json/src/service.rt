//! The text of services and their methods.

ghost use Rattle.std.specs.Prelude.{OnOk};
ghost use Rattle.proto_descriptors_json.specs.DescriptorText.{idempotency_level_name, service_text, method_slots, method_text, service_options_slots, method_options_slots};
ghost use Rattle.proto_descriptors_json.specs.JsonText.{json_string};
ghost use Rattle.proto_descriptors_json.specs.Written.{PutsMember, PutsMembers, options_slot};
ghost use Rattle.proto_descriptors.specs.Views.{service_desc, method_desc};

use crate::members::{put, put_list, put_mark};
use crate::options::{close, put_option};
use crate::values::ToJson;
use proto_descriptors::{
    IdempotencyLevel, MethodDescriptor, MethodOptions, ServiceDescriptor, ServiceOptions,
};
use serde::Serializer;

impl ToJson for IdempotencyLevel {
    ghost text = { λ l. json_string (idempotency_level_name l) };

    fn send<S: Serializer>(&self, out: &mut S) -> Result<(), S::Error> {
        out.str(self.name())
    }
}

impl ToJson for ServiceDescriptor {
    ghost text = { λ s. service_text (service_desc s) };

    fn send<S: Serializer>(&self, out: &mut S) -> Result<(), S::Error> {
        out.begin_map(None)?;
        put_list(out, "method", &self.method)?;
        put(out, "name", &self.name)?;
        put_options(out, &self.options)?;
        out.end_map()
    }
}

impl ToJson for MethodDescriptor {
    ghost text = { λ m. method_text (method_desc m) };

    fn send<S: Serializer>(&self, out: &mut S) -> Result<(), S::Error> {
        out.begin_map(None)?;
        put_members(out, self)?;
        out.end_map()
    }
}

/// The members of a method, in their order.
fn put_members<S: Serializer>(out: &mut S, method: &MethodDescriptor) -> Result<(), S::Error>
    ensures { OnOk result (PutsMembers (method_slots (method_desc method.now))
        (S.written out.old) (S.written out.new)) }
{
    put_mark(out, "clientStreaming", method.client_streaming)?;
    put(out, "inputType", &method.input_type)?;
    put(out, "name", &method.name)?;
    put_method_options(out, &method.options)?;
    put(out, "outputType", &method.output_type)?;
    put_mark(out, "serverStreaming", method.server_streaming)
}

/// The option in a service, left out where it is not written.
fn put_options<S: Serializer>(out: &mut S, options: &ServiceOptions) -> Result<(), S::Error>
    ensures { OnOk result (PutsMember (options_slot (service_options_slots options.now))
        (S.written out.old) (S.written out.new)) }
{
    let is_open = put_option(out, false, "deprecated", &options.deprecated)?;
    close(out, is_open)
}

/// The options in a method, left out where none is written.
fn put_method_options<S: Serializer>(out: &mut S, options: &MethodOptions) -> Result<(), S::Error>
    ensures { OnOk result (PutsMember (options_slot (method_options_slots options.now))
        (S.written out.old) (S.written out.new)) }
{
    let is_open = put_option(out, false, "deprecated", &options.deprecated)?;
    let is_open = put_option(out, is_open, "idempotencyLevel", &options.idempotency_level)?;
    close(out, is_open)
}
