//! Changes of a list, each with what stood there before, and the way back.

ghost use Rattle.std.specs.Prelude.{◌≡◌, ◌<◌, [], length, slice_set, OnOk, OnErr};
ghost use Rattle.proto_base.specs.Undone.{undone, with_values, AreWithin, IsNoted};
ghost use Rattle.std.specs.List.{All};

use crate::no_memory::NoMemory;
use std::mem;

/// A change of one element of a list.
#[derive(Drop)]
pub struct Change<T: Drop> {
    /// Its place, from 0.
    pub place: usize,
    /// What stood there before.
    pub was: T,
}

/// Puts a value at a place of a list, and notes in the log what stood there. Fails only when out of
/// memory; then neither the list nor the log has changed.
pub fn change_at<T: Drop>(
    items: &mut Vec<T>,
    log: &mut Vec<Change<T>>,
    place: usize,
    value: T,
) -> Result<(), NoMemory>
    requires { place < length items.old.items }
    ensures undone { undone log.new.items items.new.items ≡ undone log.old.items items.old.items }
    ensures len { length items.new.items ≡ length items.old.items }
    ensures within { AreWithin (length items.old.items) log.old.items
        → AreWithin (length items.old.items) log.new.items }
    ensures items { OnOk result (items.new.items ≡ slice_set items.old.items place value) }
    ensures noted { OnOk result
        (IsNoted log.old.items log.new.items items.old.items place) }
    ensures kept { OnErr result
        ((items.new.items ≡ items.old.items) × (log.new.items ≡ log.old.items)) }
{
    log.reserve(1)?;
    let was = mem::replace(&mut items[place], value);
    log.push(Change { place, was }).unwrap();
    Ok(())
}

/// Puts values at places of a list, one after another, and notes in the log what stood there. Fails
/// only when out of memory; then some of them may stand there, and the log tells which.
pub fn change_all_at<T: Drop>(
    items: &mut Vec<T>,
    log: &mut Vec<Change<T>>,
    places: &[u32],
    values: Vec<T>,
) -> Result<(), NoMemory>
    requires places { All (λ place. place < length items.old.items) places.now }
    requires paired { length values.items ≡ length places.now }
    ensures undone { undone log.new.items items.new.items ≡ undone log.old.items items.old.items }
    ensures len { length items.new.items ≡ length items.old.items }
    ensures within { AreWithin (length items.old.items) log.old.items
        → AreWithin (length items.old.items) log.new.items }
    ensures items { OnOk result
        (items.new.items ≡ with_values items.old.items places.now values.items) }
{
    let mut next = 0;
    for value in values {
        change_at(items, log, places[next] as usize, value)?;
        next += 1;
    }
    Ok(())
}

/// Takes the changes of a log back, the last one first. Takes no memory.
pub fn roll_back<T: Drop>(items: &mut Vec<T>, log: &mut Vec<Change<T>>)
    requires { AreWithin (length items.old.items) log.old.items }
    ensures items { items.new.items ≡ undone log.old.items items.old.items }
    ensures len { length items.new.items ≡ length items.old.items }
    ensures log { log.new.items ≡ [] }
{
    while let Some(change) = log.pop() {
        items[change.place] = change.was;
    }
}
