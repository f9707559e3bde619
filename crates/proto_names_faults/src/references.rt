//! All faults of references.

ghost use Rattle.std.specs.Prelude.{◌≡◌, ◌<◌, ◌≤◌, ℕ, List, length, map, IfOk, OnOk};
ghost use Rattle.std.specs.List.{All};
ghost use Rattle.proto_files.specs.Faults.{HasNoFault, fault_at};
ghost use Rattle.proto_files.specs.FilesRead.{AreRead, ReadOf};
ghost use Rattle.proto_files.specs.GivenFiles.{file_at};
ghost use Rattle.proto_text.specs.Texts.{word_at};
ghost use Rattle.proto_tree.specs.Reads.{ReadsIn};
ghost use Rattle.proto_tree.specs.References.{dotted};
ghost use Rattle.proto_names_imports.specs.Links.{AreListings, IsListing, link_skeleton, text_of};
ghost use Rattle.proto_names_outline.specs.Listing.{needs};
ghost use Rattle.proto_names_rules.specs.Faults.{ReferenceFault};
ghost use Rattle.proto_names_rules.specs.Joined.{ArePlain};
ghost use Rattle.proto_names_rules.specs.Names.{Workspace};
ghost use Rattle.proto_names_table.specs.Tables.{IsTable};
ghost use Rattle.proto_names.specs.FileReferences.{AreLinked, IsFileLinked};
ghost use Rattle.proto_names.specs.Referring.{IsReadBy, reference_by};
ghost use Rattle.proto_names_faults.specs.AllFaults.{AreAllOf, NameFaults, ReferenceFaults};
ghost use Rattle.proto_names_faults.specs.Flaws.{AreAdded, AreFlawsOf};
ghost use Rattle.proto_names_faults.specs.NamesOfFiles.{AreFileRows, AreRowsOf};
ghost use Rattle.proto_names_faults.specs.Resolving.{IsFaultIn, IsListedFault};

use crate::flaw::{Flaw, add_flaw};
use crate::listings::listings;
use crate::located::listed;
use crate::names::{Names, names_of_files};
use crate::resolving::{kind_fault, resolved_kind};
use crate::sight::all_sight;
use proto_base::{Fault, NoMemory};
use proto_file_sets::FileSet;
use proto_files::{Files, Words, are_read};
use proto_names::{Lookup, token_of};
use proto_names_outline::listing::{Listing, Use};
use std::alloc::Global;

/// All faults of references of files whose names do not clash: 14 Unresolved, 15 WrongKind and
/// 16 MapEntryRef, by path, offset and number, each once. Fails only when out of memory.
pub fn reference_faults(alloc: Global, files: &Files) -> Result<Vec<Fault>, NoMemory>
    requires names { HasNoFault (NameFaults files.now) }
    ensures exact { IfOk result (λ v. AreAllOf (ReferenceFaults files.now)
        (map fault_at v.items)) }
{
    // Each file has tokens and a tree.
    are_read(files);
    let flaws = reference_flaws(alloc, files)?;
    listed(alloc, files, &flaws)
}

/// The flaws of all references.
fn reference_flaws(alloc: Global, files: &Files) -> Result<Vec<Flaw>, NoMemory>
    ensures { IfOk result (λ ws. (reads : List ReadOf) → AreRead files.now reads → AreFlawsOf
        (ReferenceFault (text_of files.now reads) (link_skeleton files.now reads)) ws.items) }
{
    let listings = listings(alloc, files)?;
    flaws_by_listings(alloc, files, &listings)
}

/// The same by their listings.
fn flaws_by_listings(
    alloc: Global,
    files: &Files,
    listings: &[Listing],
) -> Result<Vec<Flaw>, NoMemory>
    requires { AreListings files.now listings.now }
    ensures { IfOk result (λ ws. (reads : List ReadOf) → AreRead files.now reads → AreFlawsOf
        (ReferenceFault (text_of files.now reads) (link_skeleton files.now reads)) ws.items) }
{
    let names = names_of_files(alloc, files, listings)?;
    flaws_by_names(alloc, files, listings, &names)
}

/// The same by their names, too.
fn flaws_by_names(
    alloc: Global,
    files: &Files,
    listings: &[Listing],
    names: &Names,
) -> Result<Vec<Flaw>, NoMemory>
    requires listings { AreListings files.now listings.now }
    requires rows { AreFileRows files.now listings.now names.now.table names.now.rows.items }
    ensures { IfOk result (λ ws. (reads : List ReadOf) → AreRead files.now reads
        → AreRowsOf files.now reads names.now.table names.now.rows.items → AreFlawsOf
        (ReferenceFault (text_of files.now reads) (link_skeleton files.now reads)) ws.items) }
{
    let seen = all_sight(alloc, files)?;
    flaws_of_uses(alloc, files, &seen, names, listings)
}

/// The same by what the files see, too.
fn flaws_of_uses(
    alloc: Global,
    files: &Files,
    seen: &[FileSet],
    names: &Names,
    listings: &[Listing],
) -> Result<Vec<Flaw>, NoMemory>
    requires listings { AreListings files.now listings.now }
    requires seen { length seen.now ≡ length files.now }
    requires rows { AreFileRows files.now listings.now names.now.table names.now.rows.items }
    ensures { IfOk result (λ ws. (reads : List ReadOf) → AreRead files.now reads
        → AreLinked names.now.table seen.now names.now.rows.items files.now reads → AreFlawsOf
        (ReferenceFault (text_of files.now reads) (link_skeleton files.now reads)) ws.items) }
{
    are_read(files);
    let mut found = Vec::new(alloc);
    for file in 0..files.len() {
        let lookup = Lookup {
            file: file as u32,
            table: &names.table,
            seen: &seen[file],
            rows: &names.rows[file],
        };
        add_file_flaws(files, &lookup, &listings[file], &mut found)?;
    }
    Ok(found)
}

/// Adds the flaws of the references of one file.
fn add_file_flaws(
    files: &Files,
    lookup: &Lookup,
    listing: &Listing,
    found: &mut Vec<Flaw>,
) -> Result<(), NoMemory>
    requires file { lookup.now.file < length files.now }
    requires table { IsTable lookup.now.table.now }
    requires listing { (r : ReadOf) × ReadsIn (file_at files.now lookup.now.file).profile
        (file_at files.now lookup.now.file).bytes r.tokens r.tree × IsListing r listing.now }
    requires rows { length lookup.now.rows.now ≡ length listing.now.declared.items }
    requires within { All (λ r. r < length lookup.now.table.now.rows.items) lookup.now.rows.now }
    ensures { OnOk result ((reads : List ReadOf) → AreRead files.now reads
        → IsFileLinked lookup.now.table.now lookup.now.seen.now lookup.now.rows.now files.now reads
        lookup.now.file
        → AreAdded (IsFaultIn files.now reads lookup.now.file) found.old.items found.new.items) }
{
    let words = Words::new(files, lookup.file);
    add_use_flaws(lookup, &words, &listing.used, found)
}

/// Adds the flaws of these references of a file.
fn add_use_flaws(
    lookup: &Lookup,
    words: &Words,
    uses: &[Use],
    found: &mut Vec<Flaw>,
) -> Result<(), NoMemory>
    requires table { IsTable lookup.now.table.now }
    requires rows { All (λ r. r < length lookup.now.table.now.rows.items) lookup.now.rows.now }
    requires scopes { All (λ u. needs u.scope ≤ length lookup.now.rows.now) uses.now }
    requires plain { All
        (λ u. ArePlain (map (word_at words.now) (dotted u.reference.now.words))) uses.now }
    ensures { OnOk result ((w : Workspace) (names : List (List (List ℕ)))
        → IsReadBy lookup.now.table.now lookup.now.seen.now lookup.now.rows.now names lookup.now.file w
        → AreAdded (IsListedFault w (reference_by lookup.now.file names (word_at words.now))
        lookup.now.file uses.now) found.old.items found.new.items) }
{
    for used in uses {
        let kind = resolved_kind(lookup, words, used);
        let token = token_of(used.reference);
        let fault = kind_fault(kind, used.wants);
        add_flaw(found, lookup.file, token, fault)?;
    }
    Ok(())
}
