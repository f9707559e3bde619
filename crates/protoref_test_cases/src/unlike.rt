//! Why a row does not hold.

ghost use Rattle.std.specs.Prelude.{◌<◌, IsTrue, OnOk, length, string_bytes};

use proto_base::{NoMemory, SchemaFault};
use proto_edit::Refusal;
use std::alloc::Global;

/// The name of a fault or a refusal.
#[derive(Drop)]
pub(crate) struct Name {
    pub(crate) text: &'static str,
    ghost some: { 0 < length text.now },
}

/// What is otherwise, in words.
#[derive(Drop)]
pub(crate) struct Words {
    pub(crate) text: String,
    ghost some: { 0 < length (string_bytes text) },
}

/// Out of memory, the name of a fault or a refusal that no row speaks of, or what is otherwise, in
/// words.
#[derive(Drop)]
pub(crate) enum Unlike {
    NoMemory,
    Named(Name),
    Told(Words),
}

impl From<NoMemory> for Unlike {
    fn from(_e: NoMemory) -> Unlike {
        Unlike::NoMemory
    }
}

impl From<SchemaFault> for Unlike {
    fn from(fault: SchemaFault) -> Unlike {
        match fault {
            SchemaFault::NoMemory => Unlike::NoMemory,
            SchemaFault::Schema(fault) => Unlike::Named(Name { text: fault.name() }),
        }
    }
}

impl From<Refusal> for Unlike {
    fn from(refusal: Refusal) -> Unlike {
        match refusal {
            Refusal::NoMemory => Unlike::NoMemory,
            refusal => Unlike::Named(Name {
                text: refusal.name(),
            }),
        }
    }
}

fn in_words(alloc: Global, told: &str, wanted: &str) -> Result<Words, NoMemory> {
    let text = format!(in alloc; "{told}, not {wanted}")?;
    Ok(Words { text })
}

/// What was told in place of what was wanted, unless it holds.
pub(crate) fn expect(alloc: Global, holds: bool, told: &str, wanted: &str) -> Result<(), Unlike>
    ensures { OnOk result (IsTrue holds) }
{
    if holds {
        return Ok(());
    }
    match in_words(alloc, told, wanted) {
        Ok(words) => Err(Unlike::Told(words)),
        Err(NoMemory) => Err(Unlike::NoMemory),
    }
}
