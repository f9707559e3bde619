//! What the files declare and refer to, file by file.

ghost use Rattle.std.specs.Prelude.{◌≡◌, List, length, map, IfOk};
ghost use Rattle.std.specs.List.{All};
ghost use Rattle.proto_files.specs.FilesRead.{AreRead, Each, ReadOf, read_at};
ghost use Rattle.proto_names_imports.specs.Links.{AreListings, names_in, text_of};
ghost use Rattle.proto_names_outline.specs.FromTree.{items_in};
ghost use Rattle.proto_names_outline.specs.Listing.{package_first};
ghost use Rattle.proto_names_rules.specs.Grown.{at};
ghost use Rattle.proto_names_table.specs.LastWords.{named_as};
ghost use Rattle.proto_names_table.specs.Naming.{tree_named};
ghost use Rattle.proto_names_table.specs.Spelled.{AreSpelled, all_named, named_in};

use proto_base::NoMemory;
use proto_files::{Files, Words, are_read};
use proto_names_outline::file_listing::list_file;
use proto_names_outline::listing::Listing;
use proto_names_table::last_words::spelled_names;
use proto_names_table::spelled::Spelled;
use std::alloc::Global;

/// What each file declares and refers to. Fails only when out of memory.
pub(crate) fn listings<'a>(alloc: Global, files: &'a Files) -> Result<Vec<Listing<'a>>, NoMemory>
    ensures { IfOk result (λ ls. AreListings files.now ls.items) }
{
    let mut listings = Vec::new(alloc);
    for file in 0..files.len() as u32 {
        listings.push(list_file(alloc, files.tree(file))?)?;
    }
    Ok(listings)
}

/// The declarations of each file with their last words. Fails only when out of memory.
pub(crate) fn all_spelled<'a>(
    alloc: Global,
    files: &'a Files,
    listings: &[Listing],
) -> Result<Vec<Vec<Spelled<'a>>>, NoMemory>
    requires { AreListings files.now listings.now }
    ensures len { IfOk result (λ ss. length ss.items ≡ length files.now) }
    ensures spelled { IfOk result (λ ss. All (λ v. AreSpelled v.items) ss.items) }
    ensures each { IfOk result (λ ss. (reads : List ReadOf) → AreRead files.now reads
        → Each (λ k v. named_in k v.items
        ≡ map (named_as k (λ i. text_of files.now reads (at k i)))
        (package_first (items_in (read_at reads k).tree))) ss.items) }
    ensures names { IfOk result (λ ss. (reads : List ReadOf) → AreRead files.now reads → all_named 0
        (map (λ v. v.items) ss.items) ≡ tree_named
        (text_of files.now reads) 0 (map names_in reads)) }
{
    are_read(files);
    let mut all = Vec::new(alloc);
    for file in 0..files.len() as u32 {
        let words = Words::new(files, file);
        all.push(spelled_names(alloc, &words, &listings[file as usize].declared)?)?;
    }
    Ok(all)
}
