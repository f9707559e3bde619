//! Changes of one file: made, copied and turned round.

ghost use Rattle.std.specs.Prelude.{◌≡◌, ◌+◌, ◌≤◌, ◌++◌, ◌∷◌, [], length, map, IfOk, OnOk};
ghost use Rattle.proto_base.specs.Texts.{text_limit};
ghost use Rattle.proto_text.specs.Edits.{AreShort};
ghost use Rattle.proto_text.specs.Splicing.{edits};
ghost use Rattle.proto_edit_entries.specs.Entries.{change_of, turned_round, inverted};

use crate::entry::Change;
use proto_base::NoMemory;
use proto_text::{Splice, SpliceFault, Splices, invert};
use std::alloc::Global;

/// One splice: the new word in place of the old one, which begins at this byte.
pub fn one_splice(alloc: Global, at: u32, old: &str, new: &str) -> Result<Splices, NoMemory>
    requires old_fits { at + length old.now ≤ text_limit }
    requires new_fits { at + length new.now ≤ text_limit }
    ensures { IfOk result (λ splices. splices
        ≡ record { at = at; old = old.now; new = new.now } ∷ []) }
{
    let mut list = Vec::new(alloc);
    push_splice(&mut list, alloc, at, old, new)?;
    in_order(list)
}

/// The list of splices that are in order, where none ends past 1,048,576 bytes, in the text or in
/// the new text. Fails only when out of memory.
pub fn in_order(list: Vec<Splice>) -> Result<Splices, NoMemory>
    requires { AreShort 0 0 (edits list.items) }
    ensures { IfOk result (λ splices. splices ≡ edits list.items) }
{
    match Splices::new(list) {
        Ok(splices) => Ok(splices),
        Err(SpliceFault::NoMemory) => Err(NoMemory),
        Err(_) => unreachable!(),
    }
}

// Adds the splice that puts the new word in place of the old one, which begins at this byte.
fn push_splice(
    list: &mut Vec<Splice>,
    alloc: Global,
    at: u32,
    old: &str,
    new: &str,
) -> Result<(), NoMemory>
    ensures { OnOk result (edits list.new.items
        ≡ edits list.old.items ++ record { at = at; old = old.now; new = new.now } ∷ []) }
{
    list.push(Splice {
        at,
        old: old.to_string(alloc)?,
        new: new.to_string(alloc)?,
    })?;
    Ok(())
}

fn copy_splices(alloc: Global, splices: &Splices) -> Result<Splices, NoMemory>
    ensures { IfOk result (λ copy. copy ≡ splices.now) }
{
    let mut list = Vec::new(alloc);
    let items = splices.as_slice();
    for splice in items {
        push_splice(
            &mut list,
            alloc,
            splice.at,
            splice.old.as_str(),
            splice.new.as_str(),
        )?;
    }
    in_order(list)
}

// Adds the change that leads back.
fn push_turned(back: &mut Vec<Change>, alloc: Global, change: &Change) -> Result<(), NoMemory>
    ensures { OnOk result (map change_of back.new.items
        ≡ map change_of back.old.items ++ turned_round (change_of change.now) ∷ []) }
{
    let path = change.path.as_str().to_string(alloc)?;
    let splices = copy_splices(alloc, &change.splices)?;
    back.push(Change {
        path,
        before: change.after,
        after: change.before,
        splices: invert(splices),
    })?;
    Ok(())
}

/// The changes that lead back: each with its lengths exchanged and its splices inverted.
pub fn all_turned_round(alloc: Global, changes: &[Change]) -> Result<Vec<Change>, NoMemory>
    ensures { IfOk result (λ back. map change_of back.items
        ≡ inverted (map change_of changes.now)) }
{
    let mut back = Vec::new(alloc);
    for change in changes {
        push_turned(&mut back, alloc, change)?;
    }
    Ok(back)
}
