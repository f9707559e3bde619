//! All faults of names.

ghost use Rattle.std.specs.Prelude.{◌≡◌, ◌≤◌, ◌^◌, ℕ, List, length, map, IfOk};
ghost use Rattle.std.specs.HashSet.{contains_text};
ghost use Rattle.std.specs.List.{All, list_any};
ghost use Rattle.proto_files.specs.Faults.{fault_at};
ghost use Rattle.proto_files.specs.FilesRead.{AreRead, ReadOf};
ghost use Rattle.proto_names_imports.specs.Links.{AreListings, link_skeleton, text_of};
ghost use Rattle.proto_names_rules.specs.Faults.{NameFault};
ghost use Rattle.proto_names_table.specs.Spelled.{AreSpelled, ClashFault, all_named};
ghost use Rattle.proto_names_faults.specs.AllFaults.{AreAllOf, NameFaults};
ghost use Rattle.proto_names_faults.specs.Clashes.{IsClash, is_package_named, shown};
ghost use Rattle.proto_names_faults.specs.Flaws.{AreFlawsOf};

use crate::flaw::{Flaw, add_flaw, kind_if};
use crate::full_names::{NamedText, named_texts};
use crate::listings::{all_spelled, listings};
use crate::located::listed;
use crate::taken::take_name;
use proto_base::{Fault, FaultKind, NoMemory};
use proto_files::{Files, are_read};
use proto_names_outline::listing::Listing;
use proto_names_table::spelled::Spelled;
use std::alloc::Global;
use std::collections::HashSet;

/// All faults of names: 13 DuplicateName, by path and offset, each once. Fails only when out of
/// memory.
pub fn name_faults(alloc: Global, files: &Files) -> Result<Vec<Fault>, NoMemory>
    ensures exact { IfOk result (λ v. AreAllOf (NameFaults files.now) (map fault_at v.items)) }
{
    // Each file has tokens and a tree.
    are_read(files);
    let flaws = name_flaws(alloc, files)?;
    listed(alloc, files, &flaws)
}

/// The flaws of all names.
fn name_flaws(alloc: Global, files: &Files) -> Result<Vec<Flaw>, NoMemory>
    ensures { IfOk result (λ ws. (reads : List ReadOf) → AreRead files.now reads → AreFlawsOf
        (NameFault (text_of files.now reads) (link_skeleton files.now reads).declared) ws.items) }
{
    let listings = listings(alloc, files)?;
    clashing_flaws(alloc, files, &listings)
}

/// The same by the listings of the files.
fn clashing_flaws(alloc: Global, files: &Files, listings: &[Listing]) -> Result<Vec<Flaw>, NoMemory>
    requires { AreListings files.now listings.now }
    ensures { IfOk result (λ ws. (reads : List ReadOf) → AreRead files.now reads → AreFlawsOf
        (NameFault (text_of files.now reads) (link_skeleton files.now reads).declared) ws.items) }
{
    // Its contract says that there are at most 4,096.
    let _count = files.len();
    let spelled = all_spelled(alloc, files, listings)?;
    clash_flaws(alloc, &spelled)
}

/// The flaws of names that clash.
fn clash_flaws(alloc: Global, files: &[Vec<Spelled>]) -> Result<Vec<Flaw>, NoMemory>
    requires count { length files.now ≤ 2 ^ 32 }
    requires spelled { All (λ v. AreSpelled v.items) files.now }
    ensures { IfOk result (λ ws. AreFlawsOf
        (ClashFault (all_named 0 (map (λ v. v.items) files.now))) ws.items) }
{
    let all = named_texts(alloc, files)?;
    let mut taken = package_names(alloc, &all)?;
    clashes(alloc, &all, &mut taken)
}

/// The names of the packages, as text.
fn package_names(alloc: Global, all: &[NamedText]) -> Result<HashSet<String>, NoMemory>
    ensures { IfOk result (λ taken. (text : List ℕ)
        → contains_text taken text ≡ list_any (is_package_named text) (map shown all.now)) }
{
    let mut taken = HashSet::new(alloc);
    for one in all {
        if one.kind.is_package() {
            take_name(alloc, &mut taken, one.text.as_str())?;
        }
    }
    Ok(taken)
}

/// The flaws of all that is no package and has the name of a package, or of what stands before it.
/// The names of packages are taken.
fn clashes(
    alloc: Global,
    all: &[NamedText],
    taken: &mut HashSet<String>,
) -> Result<Vec<Flaw>, NoMemory>
    requires { (text : List ℕ)
        → contains_text taken.old text ≡ list_any (is_package_named text) (map shown all.now) }
    ensures { IfOk result (λ ws. AreFlawsOf (IsClash (map shown all.now) (map shown all.now))
        ws.items) }
{
    let mut found = Vec::new(alloc);
    for one in all {
        if !one.kind.is_package() {
            let is_taken = take_name(alloc, taken, one.text.as_str())?;
            add_flaw(
                &mut found,
                one.file,
                one.token,
                kind_if(is_taken, FaultKind::DuplicateName),
            )?;
        }
    }
    Ok(found)
}
