//! Services and their methods.

ghost use Rattle.std.specs.Prelude.{◌≡◌};
ghost use Rattle.proto_descriptors.specs.Descriptors.{MethodDesc, ServiceDesc};
ghost use Rattle.proto_descriptors.specs.Names.{idempotency_level_name};
ghost use Rattle.proto_descriptors.specs.Views.{method_desc, service_desc};

use crate::copying::{HasCopy, copies};
use proto_base::NoMemory;
use std::alloc::Global;

/// A service.
#[derive(Drop)]
pub struct ServiceDescriptor {
    /// Its name.
    pub name: String,
    /// Its methods, in source order.
    pub method: Vec<MethodDescriptor>,
    /// The options right in its block.
    pub options: ServiceOptions,
}

impl HasCopy for ServiceDescriptor {
    ghost View = { ServiceDesc };

    ghost view = { λ s. service_desc s };

    fn copy(&self, alloc: Global) -> Result<ServiceDescriptor, NoMemory> {
        let name = self.name.copy(alloc)?;
        let method = copies(alloc, &self.method)?;
        Ok(ServiceDescriptor {
            name,
            method,
            options: self.options,
        })
    }
}

/// A method. The types are full names behind a dot.
#[derive(Drop)]
pub struct MethodDescriptor {
    /// Its name.
    pub name: String,
    /// The message that it takes.
    pub input_type: String,
    /// The message that it answers.
    pub output_type: String,
    /// The options in its block.
    pub options: MethodOptions,
    /// Whether it takes a stream of messages.
    pub client_streaming: bool,
    /// Whether it answers a stream of messages.
    pub server_streaming: bool,
}

impl HasCopy for MethodDescriptor {
    ghost View = { MethodDesc };

    ghost view = { λ m. method_desc m };

    fn copy(&self, alloc: Global) -> Result<MethodDescriptor, NoMemory> {
        let name = self.name.copy(alloc)?;
        let input_type = self.input_type.copy(alloc)?;
        let output_type = self.output_type.copy(alloc)?;
        Ok(MethodDescriptor {
            name,
            input_type,
            output_type,
            options: self.options,
            client_streaming: self.client_streaming,
            server_streaming: self.server_streaming,
        })
    }
}

/// The options that stand in a service.
#[derive(Clone, Copy)]
pub struct ServiceOptions {
    /// Whether the service is no longer to be used.
    pub deprecated: Option<bool>,
}

/// The options that stand in a method.
#[derive(Clone, Copy)]
pub struct MethodOptions {
    /// Whether the method is no longer to be used.
    pub deprecated: Option<bool>,
    /// What a caller may rest on when it calls the method twice.
    pub idempotency_level: Option<IdempotencyLevel>,
}

/// What a caller may rest on when it calls a method twice.
#[derive(Clone, Copy)]
pub enum IdempotencyLevel {
    /// Nothing.
    Unknown,
    /// The method changes nothing.
    NoSideEffects,
    /// A second call changes nothing more.
    Idempotent,
}

impl IdempotencyLevel {
    /// The name in descriptor.proto.
    pub fn name(self) -> &'static str
        ensures { result.now ≡ idempotency_level_name self }
    {
        match self {
            IdempotencyLevel::Unknown => "IDEMPOTENCY_UNKNOWN",
            IdempotencyLevel::NoSideEffects => "NO_SIDE_EFFECTS",
            IdempotencyLevel::Idempotent => "IDEMPOTENT",
        }
    }
}
