//! Edits of a text.

ghost use Rattle.std.specs.Prelude.{◌≡◌, ◌↔◌, IsTrue, ◌≤◌, ◌+◌, ◌-◌, List, ℕ, length, IfOk, IfErr, MatchOption, MatchResult};
ghost use Rattle.std.specs.String.{string_bytes};
ghost use Rattle.proto_base.specs.Texts.{text_limit};
ghost use Rattle.proto_text.specs.declared.splice.SpliceFault.TheVariants.{NoMemory};
ghost use Rattle.proto_text.specs.declared.splice.SpliceFault.TheVariants as SpliceFault;
ghost use Rattle.proto_text.specs.Edits.{IsCut, AreShort, inverse_of, inverse_from};
ghost use Rattle.proto_text.specs.Splicing.{edit_of, edits, IsTextPut, IsApplied, splice_number, splice_name};

use proto_base::MAX_LEN;
use std::alloc::{AllocError, Global};
use std::marker::Model;
use std::{fmt, mem};
use thiserror::Error;

/// What stands at an offset of a text, in bytes from 0, and what comes in its place.
#[derive(Debug, PartialEq, Eq, Drop)]
pub struct Splice {
    /// The offset of the old text, in bytes from 0.
    pub at: u32,
    /// What stands there.
    pub old: String,
    /// What comes in its place.
    pub new: String,
}

/// Why splices are refused, or cannot be applied.
#[derive(Debug, Drop, Error)]
pub enum SpliceFault {
    /// An old text is not at its place.
    Stale,
    /// The new text has more than 1,048,576 bytes.
    TooLarge,
    /// A splice begins before the end of the one before, or ends past 1,048,576 bytes.
    Disorder,
    /// There was no memory.
    NoMemory,
}

impl fmt::Display for SpliceFault {
    fn fmt<W: fmt::Write>(&self, f: &mut fmt::Formatter<W>) -> fmt::Result {
        f.write_str(self.text())
    }
}

impl SpliceFault {
    // Why, in words, for people.
    fn text(&self) -> &'static str {
        match self {
            SpliceFault::Stale => "an old text is not at its place",
            SpliceFault::TooLarge => "the new text has more than 1,048,576 bytes",
            SpliceFault::Disorder =>
                "the splices are out of order, or one ends past 1,048,576 bytes",
            SpliceFault::NoMemory => "no memory",
        }
    }

    /// The number of the fault, from 1 to 3; 0 when out of memory.
    pub fn number(&self) -> u32
        ensures { result ≡ splice_number self.now }
    {
        match self {
            SpliceFault::Stale => 1,
            SpliceFault::TooLarge => 2,
            SpliceFault::Disorder => 3,
            SpliceFault::NoMemory => 0,
        }
    }

    /// The name of the fault.
    pub fn name(&self) -> &'static str
        ensures { result.now ≡ splice_name self.now }
    {
        match self {
            SpliceFault::Stale => "Stale",
            SpliceFault::TooLarge => "TooLarge",
            SpliceFault::Disorder => "Disorder",
            SpliceFault::NoMemory => "NoMemory",
        }
    }
}

impl From<AllocError> for SpliceFault {
    ghost from_gives = { λ _ e. e ≡ NoMemory };

    fn from(_e: AllocError) -> SpliceFault {
        SpliceFault::NoMemory
    }
}

// What stands before the old text, and what behind it; the text begins at from.
fn parts_at<'a>(rest: &'a [u8], from: usize, at: usize, old: &[u8]) -> Option<(&'a [u8], &'a [u8])>
    ensures { MatchOption result
        ((kept after : List ℕ) → IsCut rest.now from at old.now kept after → ⊥)
        (λ parts. IsCut rest.now from at old.now parts.0.now parts.1.now) }
{
    if at < from || at - from > rest.len() {
        return None;
    }
    let (kept, behind) = rest.split_at(at - from);
    if old.len() > behind.len() {
        return None;
    }
    let (there, after) = behind.split_at(old.len());
    if there == old {
        Some((kept, after))
    } else {
        None
    }
}

fn all_put(alloc: Global, text: &[u8], splices: &[Splice]) -> Result<Option<Vec<u8>>, SpliceFault>
    ensures ok { IfOk result (λ new. IsTextPut text.now (edits splices.now) new) }
    ensures err { IfErr result (λ e. e ≡ SpliceFault.NoMemory) }
{
    let mut new = Vec::new(alloc);
    let mut rest = text;
    let mut from: usize = 0;
    for splice in splices {
        let old = splice.old.as_bytes();
        let (kept, after) = match parts_at(rest, from, splice.at as usize, old) {
            Some(parts) => parts,
            None => return Ok(None),
        };
        new.extend_from_slice(kept)?;
        new.extend_from_slice(splice.new.as_bytes())?;
        rest = after;
        from = splice.at as usize + old.len();
    }
    new.extend_from_slice(rest)?;
    Ok(Some(new))
}

// Turns one edit round; says where the text behind it begins, in the old and the new text.
fn turn(splice: &mut Splice, from: u32, to: u32) -> (u32, u32)
    requires after { from ≤ splice.now.at }
    requires old_fits { splice.now.at + length (string_bytes splice.now.old) ≤ text_limit }
    requires new_fits { (to + (splice.now.at - from)) + length
        (string_bytes splice.now.new) ≤ text_limit }
    ensures edit { edit_of splice.exit.now ≡ inverse_of to from (edit_of splice.entry.now) }
    ensures from { result.0 ≡ splice.entry.now.at + length (string_bytes splice.entry.now.old) }
    ensures to { result.1 ≡ (to + (splice.entry.now.at - from)) + length
        (string_bytes splice.entry.now.new) }
{
    let at = to + (splice.at - from);
    let places = (
        splice.at + splice.old.len() as u32,
        at + splice.new.len() as u32,
    );
    splice.at = at;
    mem::swap(&mut splice.old, &mut splice.new);
    places
}

// The edits that lead back.
fn inverse_splices(mut splices: Vec<Splice>) -> Vec<Splice>
    requires { AreShort 0 0 (edits splices.items) }
    ensures { edits result.items ≡ inverse_from 0 0 (edits splices.items) }
{
    let mut from: u32 = 0;
    let mut to: u32 = 0;
    for splice in splices.iter_mut() {
        let places = turn(splice, from, to);
        from = places.0;
        to = places.1;
    }
    splices
}

/// Edits in order, none of which ends past the limit.
#[derive(Debug, Drop)]
pub struct Splices {
    items: Vec<Splice>,
}

impl Model for Splices {
    ghost use Rattle.std.specs.Prelude.{List};
    ghost use Rattle.proto_text.specs.Edits.{Edit, AreShort};

    ghost Value = { List Edit };

    ghost use Rattle.proto_text.specs.Splicing.{edits};

    ghost view = { λ s. edits s.items.items };

    ghost invariant = { λ s. AreShort 0 0 (edits s.items.items) };
}

fn are_short(splices: &[Splice]) -> bool
    ensures { IsTrue result ↔ AreShort 0 0 (edits splices.now) }
{
    let mut from: usize = 0;
    let mut to: usize = 0;
    for splice in splices {
        let at = splice.at as usize;
        if at < from {
            return false;
        }
        let new_at = to + (at - from);
        let end = at + splice.old.len();
        let new_end = new_at + splice.new.len();
        if end > MAX_LEN || new_end > MAX_LEN {
            return false;
        }
        from = end;
        to = new_end;
    }
    true
}

impl Splices {
    /// The splices, where each begins no earlier than the one before ends and none ends past
    /// 1,048,576 bytes, in the text or in the new text; else they are refused as out of order.
    /// Takes no memory.
    pub fn new(splices: Vec<Splice>) -> Result<Splices, SpliceFault>
        ensures { MatchResult result
            (λ made. made ≡ edits splices.items)
            (λ e. (e ≡ SpliceFault.Disorder) × (AreShort 0 0 (edits splices.items) → ⊥)) }
    {
        if are_short(splices.as_slice()) {
            Ok(Splices { items: splices })
        } else {
            Err(SpliceFault::Disorder)
        }
    }

    /// The splices in order.
    pub fn as_slice(&self) -> &[Splice]
        ensures items { edits result.now ≡ self.now }
        ensures ordered { AreShort 0 0 self.now }
    {
        self.items.as_slice()
    }
}

/// The splices that lead back: with old and new text changed over, at their places in the new text.
/// Takes no memory.
pub fn invert(splices: Splices) -> Splices
    ensures { result ≡ inverse_from 0 0 splices }
{
    let Splices { items } = splices;
    Splices {
        items: inverse_splices(items),
    }
}

/// The text with each old text replaced by the new one.
/// It is refused as stale where an old text is not at its place, else as too large where the new
/// text would pass 1,048,576 bytes; and when out of memory.
pub fn apply_splices(alloc: Global, text: &[u8], splices: &Splices) -> Result<Vec<u8>, SpliceFault>
    ensures { IsApplied text.now splices.now result }
{
    match all_put(alloc, text, splices.as_slice())? {
        None => Err(SpliceFault::Stale),
        Some(new) => {
            if new.len() > MAX_LEN {
                Err(SpliceFault::TooLarge)
            } else {
                Ok(new)
            }
        }
    }
}
