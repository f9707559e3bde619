//! What the references of one file mean, and which words they may begin with.

ghost use Rattle.std.specs.Prelude.{◌≡◌, ◌↔◌, ◌<◌, ◌==◌, true, [], ◌∷◌, ◌++◌, length, IfOk, OnOk};
ghost use Rattle.std.specs.List.{list_any};
ghost use Rattle.proto_names_affected.specs.FileMeanings.{is_begun, place_of};

use proto_base::NoMemory;
use proto_names_table::Meant;
use std::alloc::Global;
use std::marker::Model;

/// What the references of a file mean, in order. It is asked in a step whether one of them begins
/// with a word, where none does.
#[derive(Drop)]
pub struct FileMeanings {
    list: Vec<Meant>,
    /// For each remainder that a key leaves by the length of this: whether a reference begins with
    /// a word of such a key. Twice as many as references, so that few words share one.
    begun: Vec<bool>,
}

impl Model for FileMeanings {
    ghost use Rattle.std.specs.Global.{Vec};
    ghost use Rattle.proto_names_table.specs.declared.ids.Meant.{Meant};
    ghost use Rattle.proto_names_affected.specs.FileMeanings.{AreBegun};

    ghost Value = { Vec Meant };

    ghost view = { λ m. m.list };

    ghost invariant = { λ m. AreBegun m.begun.items m.list.items };
}

impl FileMeanings {
    /// None yet, of a file with so many references. Fails only when out of memory.
    pub fn new(alloc: Global, count: usize) -> Result<FileMeanings, NoMemory>
        ensures { IfOk result (λ meanings. meanings.items ≡ []) }
    {
        let begun = vec![in alloc; false; count.saturating_mul(2).saturating_add(1)]?;
        let list = Vec::with_capacity(alloc, count)?;
        Ok(FileMeanings { list, begun })
    }

    /// The same. Fails only when out of memory.
    pub fn copy(&self, alloc: Global) -> Result<FileMeanings, NoMemory>
        ensures { IfOk result (λ copy. copy.items ≡ self.now.items) }
    {
        let begun = Vec::from_slice(alloc, &self.begun)?;
        let list = Vec::from_slice(alloc, &self.list)?;
        Ok(FileMeanings { list, begun })
    }

    /// Puts what the next reference means behind the others. Fails only when out of memory.
    pub fn push(&mut self, meant: Meant) -> Result<(), NoMemory>
        ensures { OnOk result (self.new.items ≡ self.old.items ++ meant ∷ []) }
    {
        let place = place_of(meant.first, self.begun.len());
        self.begun[place] = true;
        self.list.push(meant)?;
        Ok(())
    }

    /// What they mean, in order.
    pub fn as_slice(&self) -> &[Meant]
        ensures { result.now ≡ self.now.items }
    {
        &self.list
    }

    /// Whether the references of both mean the same, in order.
    pub fn is_same(&self, other: &FileMeanings) -> bool
        ensures { (result ≡ true) ↔ (self.now.items ≡ other.now.items) }
    {
        self.list.as_slice() == other.list.as_slice()
    }

    /// Whether one of the references begins with a word of this key.
    pub fn begins_with(&self, key: u32) -> bool
        ensures { result ≡ list_any (λ m. m.first == key) self.now.items }
    {
        is_begun(&self.begun, key) && begins(&self.list, key)
    }
}

/// The remainder of a key.
pub(crate) fn place_of(key: u32, len: usize) -> usize
    requires { 0 < len }
    ensures { result ≡ place_of len key }
{
    key as usize % len
}

fn is_begun(begun: &[bool], key: u32) -> bool
    requires { 0 < length begun.now }
    ensures { result ≡ is_begun begun.now key }
{
    begun[place_of(key, begun.len())]
}

fn begins(meant: &[Meant], key: u32) -> bool
    ensures { result ≡ list_any (λ m. m.first == key) meant.now }
{
    meant.iter().any(|m| m.first == key)
}
