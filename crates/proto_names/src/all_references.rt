//! What the references of all files mean, or the least that is faulty.

ghost use Rattle.std.specs.Prelude.{◌≡◌, ◌<◌, ℕ, List, [], length, get_or, map, IfOk, IfErr};
ghost use Rattle.std.specs.List.{All};
ghost use Rattle.proto_files.specs.GivenFiles.{file_at};
ghost use Rattle.proto_tree.specs.Reads.{ReadsIn};
ghost use Rattle.proto_names_rules.specs.Faults.{Fault, ReferenceFault};
ghost use Rattle.proto_names.specs.FileReferences.{AreFileMeant, AreLinked, IsFileReferenceError, IsFileLinked, IsLeastBad};
ghost use Rattle.proto_files.specs.FilesRead.{ReadOf, AreRead};
ghost use Rattle.proto_names_imports.specs.Links.{AreListings, IsListing, link_skeleton, text_of};
ghost use Rattle.proto_files.specs.FilesRead.{Each};
ghost use Rattle.proto_names_table.specs.Tables.{IsTable};

use crate::parts::Declarations;
use crate::references::{Lookup, ReferenceError, meanings};
use proto_base::NoMemory;
use proto_file_sets::FileSet;
use proto_files::{Files, Words, are_read};
use proto_names_affected::FileMeanings;
use proto_names_outline::listing::Listing;
use std::alloc::Global;

/// What the references of each file mean, in order; else the least that is faulty, by file, token
/// and number of its fault, or out of memory.
pub(crate) fn all_meanings(
    alloc: Global,
    files: &Files,
    seen: &[FileSet],
    declarations: &Declarations,
    listings: &[Listing],
) -> Result<Vec<FileMeanings>, ReferenceError>
    requires table { IsTable declarations.now.table }
    requires listings { AreListings files.now listings.now }
    requires seen { length seen.now ≡ length files.now }
    requires paired { length declarations.now.rows.items ≡ length files.now }
    requires rows { Each (λ k v. (d : Listing)
        → length v.items ≡ length (get_or listings.now k d).declared.items)
        declarations.now.rows.items }
    requires within { All (λ v. All (λ r. r < length declarations.now.table.rows.items) v.items)
        declarations.now.rows.items }
    ensures len { IfOk result (λ ms. length ms.items ≡ length files.now) }
    ensures within { IfOk result (λ ms.
        ((reads : List ReadOf) → AreRead files.now reads → AreLinked declarations.now.table seen.now
        declarations.now.rows.items files.now reads)
        → All (λ v. All (λ m. m.row < length declarations.now.table.rows.items) v.items) ms.items) }
    ensures meant { IfOk result (λ ms. (reads : List ReadOf)
        → AreRead files.now reads → AreLinked declarations.now.table seen.now
        declarations.now.rows.items files.now reads
        → (k : ℕ) → k < length files.now → AreFileMeant declarations.now.table files.now reads k
        (get_or (map (λ v. v.items) ms.items) k [])) }
    ensures clean { IfOk result (λ _. (reads : List ReadOf)
        → AreRead files.now reads → AreLinked declarations.now.table seen.now
        declarations.now.rows.items files.now reads
        → (f : Fault)
        → ReferenceFault (text_of files.now reads) (link_skeleton files.now reads) f → ⊥) }
    ensures fault { IfErr result (λ e. (reads : List ReadOf)
        → AreRead files.now reads → AreLinked declarations.now.table seen.now
        declarations.now.rows.items files.now reads
        → IsLeastBad files.now reads e) }
{
    are_read(files);
    let mut meant = Vec::new(alloc);
    for file in 0..files.len() {
        let lookup = Lookup {
            file: file as u32,
            table: &declarations.table,
            seen: &seen[file],
            rows: &declarations.rows[file],
        };
        let own = file_meanings(alloc, files, &lookup, &listings[file])?;
        meant.push(own).map_err(NoMemory::from)?;
    }
    Ok(meant)
}

/// What the references of one file mean, in order; else the first that is faulty, or out of
/// memory.
pub(crate) fn file_meanings(
    alloc: Global,
    files: &Files,
    lookup: &Lookup,
    listing: &Listing,
) -> Result<FileMeanings, ReferenceError>
    requires file { lookup.now.file < length files.now }
    requires table { IsTable lookup.now.table.now }
    requires listing { (r : ReadOf) × ReadsIn (file_at files.now lookup.now.file).profile
        (file_at files.now lookup.now.file).bytes r.tokens r.tree
        × IsListing r listing.now }
    requires rows { length lookup.now.rows.now ≡ length listing.now.declared.items }
    requires within { All (λ r. r < length lookup.now.table.now.rows.items) lookup.now.rows.now }
    ensures meant { IfOk result (λ ms. (reads : List ReadOf) → AreRead files.now reads
        → IsFileLinked lookup.now.table.now lookup.now.seen.now lookup.now.rows.now
        files.now reads lookup.now.file
        → AreFileMeant lookup.now.table.now files.now reads lookup.now.file ms.items) }
    ensures fault { IfErr result (λ e. (reads : List ReadOf) → AreRead files.now reads
        → IsFileLinked lookup.now.table.now lookup.now.seen.now lookup.now.rows.now
        files.now reads lookup.now.file
        → IsFileReferenceError files.now reads lookup.now.file e) }
{
    let words = Words::new(files, lookup.file);
    meanings(alloc, lookup, &words, &listing.used)
}
