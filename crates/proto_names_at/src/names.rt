//! The name that stands at a token.

ghost use Rattle.std.specs.Prelude.{◌<◌, IfOk, length, option_map};
ghost use Rattle.std.specs.String.{string_bytes};
ghost use Rattle.proto_files.specs.Faults.{HasNoFault};
ghost use Rattle.proto_names_imports.specs.Links.{LinkFaults};
ghost use Rattle.proto_names_rules.specs.Grown.{at};
ghost use Rattle.proto_names.specs.LinkOfFiles.{IsLinkOf};
ghost use Rattle.proto_names_at.specs.NamesAt.{IsNameAt, at_place};

use crate::declared::declared_name;
use crate::defaults::default_name;
use crate::place::Place;
use crate::references::referred_name;
use proto_base::NoMemory;
use proto_files::Files;
use proto_names::Link;
use proto_resolved::CleanLinked;
use std::alloc::Global;

/// The name for which a token of one of the files stands: it declares it, is a word of a reference to
/// it, or a default that means it.
fn name_in_file<'a>(
    alloc: Global,
    linked: &CleanLinked<'a>,
    place: Place,
) -> Result<Option<&'a str>, NoMemory>
    requires { place.file < length linked.now.files }
    ensures { IfOk result (λ found.
        IsNameAt linked.now.files (at_place place) (option_map (λ text. text.now) found)) }
{
    // The files have no fault.
    linked.files();
    let declared = declared_name(alloc, linked, place)?;
    if declared.is_some() {
        return Ok(declared);
    }
    let found = referred_name(alloc, linked, place)?;
    if found.is_some() {
        return Ok(found);
    }
    default_name(alloc, linked, place)
}

/// The full name, without a leading dot, that stands at the token with this index of the file with
/// this number, both from 0: the one of which a rename changes the token, and `occurrences` has it.
/// None where no symbol that may be renamed stands there, and where there is no such token or file.
/// Fails only when out of memory.
pub fn name_at(
    alloc: Global,
    files: &Files,
    link: &Link,
    file: u32,
    token: u32,
) -> Result<Option<String>, NoMemory>
    requires link { IsLinkOf files.now link.now }
    requires linked { HasNoFault (LinkFaults files.now) }
    ensures { IfOk result (λ found.
        IsNameAt files.now (at file token) (option_map string_bytes found)) }
{
    if file as usize >= files.len() {
        return Ok(None);
    }
    let linked = CleanLinked::new(files, link);
    match name_in_file(alloc, &linked, Place { file, token })? {
        Some(name) => Ok(Some(name.to_string(alloc)?)),
        None => Ok(None),
    }
}
