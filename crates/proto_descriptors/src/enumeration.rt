//! Enums and their values.

ghost use Rattle.proto_descriptors.specs.Descriptors.{EnumDesc, EnumValueDesc};
ghost use Rattle.proto_descriptors.specs.Views.{enum_desc, enum_value_desc};

use crate::copying::{HasCopy, copies};
use proto_base::NoMemory;
use std::alloc::Global;

/// An enum. All lists are in source order.
#[derive(Drop)]
pub struct EnumDescriptor {
    /// The name that its declaration gives it.
    pub name: String,
    /// The values.
    pub value: Vec<EnumValueDescriptor>,
    /// The numbers that no value may have.
    pub reserved_range: Vec<EnumReservedRange>,
    /// The names that no value may have.
    pub reserved_name: Vec<String>,
    /// The options in its block.
    pub options: EnumOptions,
}

impl HasCopy for EnumDescriptor {
    ghost View = { EnumDesc };

    ghost view = { λ e. enum_desc e };

    fn copy(&self, alloc: Global) -> Result<EnumDescriptor, NoMemory> {
        let name = self.name.copy(alloc)?;
        let value = copies(alloc, &self.value)?;
        let reserved_range = Vec::from_slice(alloc, &self.reserved_range)?;
        let reserved_name = copies(alloc, &self.reserved_name)?;
        Ok(EnumDescriptor {
            name,
            value,
            reserved_range,
            reserved_name,
            options: self.options,
        })
    }
}

/// A value of an enum.
#[derive(Drop)]
pub struct EnumValueDescriptor {
    /// Its name.
    pub name: String,
    /// Its number.
    pub number: i32,
    /// The options in brackets behind it.
    pub options: EnumValueOptions,
}

impl HasCopy for EnumValueDescriptor {
    ghost View = { EnumValueDesc };

    ghost view = { λ v. enum_value_desc v };

    fn copy(&self, alloc: Global) -> Result<EnumValueDescriptor, NoMemory> {
        let name = self.name.copy(alloc)?;
        Ok(EnumValueDescriptor {
            name,
            number: self.number,
            options: self.options,
        })
    }
}

/// Numbers from `start` to `end`, both among them.
#[derive(Clone, Copy)]
pub struct EnumReservedRange {
    /// The first number.
    pub start: i32,
    /// The last number.
    pub end: i32,
}

/// The options that stand in an enum.
#[derive(Clone, Copy)]
pub struct EnumOptions {
    /// Whether two values may have one number.
    pub allow_alias: Option<bool>,
    /// Whether the enum is no longer to be used.
    pub deprecated: Option<bool>,
}

/// The options that stand at a value of an enum.
#[derive(Clone, Copy)]
pub struct EnumValueOptions {
    /// Whether the value is no longer to be used.
    pub deprecated: Option<bool>,
}
