//! Flaws of a file, each at one of its tokens.

ghost use Rattle.std.specs.Prelude.{◌≡◌, ◌++◌, ◌∷◌, [], List, length, IfOk, OnOk};
ghost use Rattle.std.specs.List.{Contains, list_any};
ghost use Rattle.proto_desc_numbers.specs.declared.flaw.Flaw.{Flaw as FlawOf};
ghost use Rattle.proto_desc_numbers.specs.Flaws.{flaw_if, marked, after_earlier, comes_before, IsLeastOfFlaws};

use indexmap::IndexSet;
use proto_base::{FaultKind, NoMemory};
use std::alloc::Global;
use std::hash::Hash;

/// A fault of a kind, at the token with an index.
#[derive(Clone, Copy)]
pub struct Flaw {
    pub token: u32,
    pub kind: FaultKind,
}

/// Adds a flaw of the kind at the token, where it holds.
pub fn add_if(
    found: &mut Vec<Flaw>,
    holds: bool,
    kind: FaultKind,
    token: u32,
) -> Result<(), NoMemory>
    ensures { OnOk result (found.new.items ≡ found.old.items ++ flaw_if holds kind token) }
{
    if holds {
        found.push(Flaw { token, kind })?;
    }
    Ok(())
}

/// Adds a flaw of the kind at each token whose flag is set, in order; each token has a flag.
pub fn add_marked(
    found: &mut Vec<Flaw>,
    kind: FaultKind,
    tokens: &[u32],
    flags: &[bool],
) -> Result<(), NoMemory>
    requires { length tokens.now ≡ length flags.now }
    ensures { OnOk result (found.new.items ≡ found.old.items ++ marked kind tokens.now flags.now) }
{
    for i in 0..tokens.len() {
        add_if(found, flags[i], kind, tokens[i])?;
    }
    Ok(())
}

/// So many keys are compared one by one.
const FEW: usize = 16;

/// Whether one of the keys is equal to this one.
fn has_equal<K: Eq>(keys: &[K], key: &K) -> bool
    ensures { result ≡ list_any (λ k. K.eq k key.now) keys.now }
{
    keys.iter().any(|other| *other == *key)
}

/// For each of few keys, in order, whether one before it is equal.
fn repeats_of_few<K: Eq>(alloc: Global, keys: &[K]) -> Result<Vec<bool>, NoMemory>
    ensures { IfOk result (λ flags. flags.items ≡ after_earlier K.eq keys.now) }
{
    let mut flags = Vec::with_capacity(alloc, keys.len())?;
    for i in 0..keys.len() {
        flags.push(has_equal(&keys[..i], &keys[i]))?;
    }
    Ok(flags)
}

/// The same of any number of keys.
fn repeats_of_many<K: Eq + Hash + Drop>(alloc: Global, keys: Vec<K>) -> Result<Vec<bool>, NoMemory>
    ensures flags { IfOk result (λ flags. flags.items ≡ after_earlier K.eq keys.items) }
{
    let mut seen = IndexSet::new(alloc);
    let mut flags = Vec::new(alloc);
    for key in keys {
        let is_new = seen.insert(key)?;
        flags.push(!is_new)?;
    }
    Ok(flags)
}

/// For each key, in order, whether one before it is equal.
pub fn repeats<K: Eq + Hash + Drop>(alloc: Global, keys: Vec<K>) -> Result<Vec<bool>, NoMemory>
    ensures flags { IfOk result (λ flags. flags.items ≡ after_earlier K.eq keys.items) }
{
    if keys.len() < FEW {
        repeats_of_few(alloc, &keys)
    } else {
        repeats_of_many(alloc, keys)
    }
}

fn comes_before(a: Flaw, b: Flaw) -> bool
    ensures { result ≡ comes_before a b }
{
    a.token < b.token || a.token == b.token && a.kind.number() < b.kind.number()
}

/// The least of one more flaw and those of which a flaw is the least.
fn lower(least: Option<Flaw>, flaw: Flaw) -> Option<Flaw>
    ensures { (others : List FlawOf) → IsLeastOfFlaws
        (Contains others) least → IsLeastOfFlaws (Contains (others ++ flaw ∷ [])) result }
{
    match least {
        Some(other) => Some(if comes_before(flaw, other) {
            flaw
        } else {
            other
        }),
        None => Some(flaw),
    }
}

/// The least of some flaws, by token and number; none of none.
pub fn least(found: &[Flaw]) -> Option<Flaw>
    ensures { IsLeastOfFlaws (Contains found.now) result }
{
    let mut least = None;
    for flaw in found {
        least = lower(least, *flaw);
    }
    least
}
