//! Whether edited files import what they imported, and what they import now.

ghost use Rattle.std.specs.Prelude.{◌≡◌, ◌↔◌, ◌<◌, List, length, map, None, true, false, IfOk, IfErr, IfSome, IsTrue};
ghost use Rattle.std.specs.List.{All};
ghost use Rattle.proto_files.specs.FilesRead.{AreRead, ReadOf};
ghost use Rattle.proto_files.specs.GivenFiles.{FileOf};
ghost use Rattle.proto_names_imports.specs.Laws.{AreImportsOf, KeepImports};
ghost use Rattle.proto_names_imports.specs.declared.import.FileImport.{FileImport as FileImportOf};
ghost use Rattle.proto_names_update.specs.declared.not_updated.NotUpdated.TheVariants.{NeedsRebuild};
ghost use Rattle.proto_names_update.specs.KeptImports.{AreImportsAt, HasOtherImports, HasUnsoundImports, WereImports};

use crate::not_updated::NotUpdated;
use proto_base::NoMemory;
use proto_files::{Files, Words};
use proto_names_imports::import::{FileImport, ImportError};
use proto_names_imports::one_file::resolve_imports_of;
use proto_names_imports::written::written_imports;
use proto_names_outline::wanted::imports as wanted_imports;
use std::alloc::Global;

/// Whether the files at these places import what they imported, given the imports of each file
/// before. Fails only when out of memory.
pub fn all_imports_kept(
    alloc: Global,
    files: &Files,
    places: &[u32],
    imports: &[Vec<FileImport>],
) -> Result<bool, NoMemory>
    requires places { All (λ place. place < length files.now) places.now }
    requires paired { length imports.now ≡ length files.now }
    ensures kept { IfOk result (λ kept. kept ≡ true → (before : List FileOf) (was : List ReadOf)
        → WereImports places.now files.now (map (λ v. v.items) imports.now) before was
        → (reads : List ReadOf) → AreRead files.now reads
        → KeepImports before was files.now reads) }
    ensures changed { IfOk result (λ kept. kept ≡ false
        → (reads : List ReadOf) → AreRead files.now reads
        → HasOtherImports files.now reads places.now (map (λ v. v.items) imports.now)) }
{
    for place in places {
        let kept = are_imports_kept(alloc, files, *place, &imports[*place as usize])?;
        if !kept {
            return Ok(false);
        }
    }
    Ok(true)
}

/// Whether the file at a place has these imports, in this order, by the numbers of the files that
/// they name. Not so where one names no file, or a file again. Fails only when out of memory.
pub fn are_imports_kept(
    alloc: Global,
    files: &Files,
    file: u32,
    before: &[FileImport],
) -> Result<bool, NoMemory>
    requires { file < length files.now }
    ensures kept { IfOk result (λ kept. kept ≡ true
        → (reads : List ReadOf) → AreRead files.now reads
        → AreImportsOf files.now reads file before.now) }
    ensures changed { IfOk result (λ kept. kept ≡ false
        → (reads : List ReadOf) → AreRead files.now reads
        → AreImportsOf files.now reads file before.now → ⊥) }
{
    match file_imports(alloc, files, file)? {
        Some(now) => Ok(are_same(&now, before)),
        None => Ok(false),
    }
}

/// The imports of the files at these places, one file's behind the other's, by the numbers of the
/// files that they name. A rebuild is needed where one names no file, or a file again.
pub fn imports_at(
    alloc: Global,
    files: &Files,
    places: &[u32],
) -> Result<Vec<Vec<FileImport>>, NotUpdated>
    requires { All (λ place. place < length files.now) places.now }
    ensures len { IfOk result (λ lists. length lists.items ≡ length places.now) }
    ensures within { IfOk result
        (λ lists. All (λ v. All (λ i. i.to < length files.now) v.items) lists.items) }
    ensures imports { IfOk result (λ lists. (reads : List ReadOf) → AreRead files.now reads
        → AreImportsAt files.now reads places.now (map (λ v. v.items) lists.items)) }
    ensures rebuild { IfErr result (λ e. e ≡ NeedsRebuild → (reads : List ReadOf)
        → AreRead files.now reads → HasUnsoundImports files.now reads places.now) }
{
    let mut lists = Vec::with_capacity(alloc, places.len())?;
    for place in places {
        match file_imports(alloc, files, *place)? {
            Some(own) => lists.push(own)?,
            None => return Err(NotUpdated::NeedsRebuild),
        }
    }
    Ok(lists)
}

/// The imports of a file, by the numbers of the files that they name, in the order in which they
/// are written. None where one names no file, or a file again. Fails only when out of memory.
pub fn file_imports(
    alloc: Global,
    files: &Files,
    file: u32,
) -> Result<Option<Vec<FileImport>>, NoMemory>
    requires { file < length files.now }
    ensures within { IfOk result
        (λ o. IfSome o (λ imports. All (λ i. i.to < length files.now) imports.items)) }
    ensures imports { IfOk result (λ o. IfSome o (λ imports. (reads : List ReadOf)
        → AreRead files.now reads → AreImportsOf files.now reads file imports.items)) }
    ensures none { IfOk result (λ o. o ≡ None → (reads : List ReadOf) → AreRead files.now reads
        → (imports : List FileImportOf) → AreImportsOf files.now reads file imports → ⊥) }
{
    let words = Words::new(files, file);
    let wanted = wanted_imports(alloc, files.tree(file))?;
    let written = written_imports(alloc, &words, &wanted)?;
    match resolve_imports_of(alloc, files, file, &written) {
        Ok(imports) => Ok(Some(imports)),
        Err(ImportError::Fault(_bad)) => Ok(None),
        Err(ImportError::NoMemory) => Err(NoMemory),
    }
}

/// Whether two lists have the same imports in the same order.
fn are_same(one: &[FileImport], other: &[FileImport]) -> bool
    ensures { IsTrue result ↔ (one.now ≡ other.now) }
{
    if one.len() != other.len() {
        return false;
    }
    for k in 0..one.len() {
        if !is_same(one[k], other[k]) {
            return false;
        }
    }
    true
}

/// Whether both name the same file, and are public or not.
fn is_same(one: FileImport, other: FileImport) -> bool
    ensures { IsTrue result ↔ (one ≡ other) }
{
    one.to == other.to && one.is_public == other.is_public
}
