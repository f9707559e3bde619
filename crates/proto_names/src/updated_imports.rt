//! The imports of files and what each file sees, once some of them are edited.

ghost use Rattle.std.specs.Prelude.{◌≡◌, ℕ, ◌<◌, ◌≤◌, ◌^◌, List, [], true, false, length, get_or, map, None, IfOk, OnOk};
ghost use Rattle.std.specs.List.{All};
ghost use Rattle.proto_files.specs.FilesRead.{AreRead, ReadOf};
ghost use Rattle.proto_base.specs.Undone.{AreWithin, undone};
ghost use Rattle.proto_names_imports.specs.Importing.{all_imports};
ghost use Rattle.proto_names_rules.specs.Marks.{MarksSeen};
ghost use Rattle.proto_names_rules.specs.Names.{Workspace};
ghost use Rattle.proto_names_affected.specs.Marking.{IsMarked, MarksStay};
ghost use Rattle.proto_names.specs.Sight.{AreLinkImports, IsSightOf, KeepsSight, StayBut, WasSight, public_files};

use crate::link_log::GraphLog;
use crate::parts::ImportGraph;
use proto_base::{NoMemory, change_all_at};
use proto_file_sets::FileSet;
use proto_files::Files;
use proto_names_affected::marking::mark_places;
use proto_names_imports::import::FileImport;
use proto_names_imports::import_cycles::none_leads_to_itself;
use proto_names_imports::laws::{kept_imports_stay, listed_imports_are_known};
use proto_names_imports::sight::{public_targets, see_again};
use proto_names_update::NotUpdated;
use proto_names_update::kept_imports::{all_imports_kept, imports_at};
use std::alloc::Global;

impl ImportGraph {
    /// Puts the imports of the edited files in place of those that they had, and what each file
    /// sees then in place of what it saw; the log has then what the files saw that see others than
    /// before, each once. Where all import what they imported, nothing changes. A rebuild is needed
    /// where an import names no file or a file again, and where one leads back to its file. Where
    /// it fails, some may be changed, and the log tells which.
    pub(crate) fn update(
        &mut self,
        alloc: Global,
        files: &Files,
        places: &[u32],
        log: &mut GraphLog,
    ) -> Result<(), NotUpdated>
        requires places { All (λ place. place < length files.now) places.now }
        requires was { WasSight places.now files.now (map (λ v. v.items) self.old.imports.items)
            self.old.seen.items }
        requires none { log.old.seen.items ≡ [] }
        ensures undone { undone log.new.imports.items self.new.imports.items
            ≡ undone log.old.imports.items self.old.imports.items }
        ensures len { length self.new.imports.items ≡ length self.old.imports.items }
        ensures within { AreWithin (length self.old.imports.items) log.old.imports.items
            → AreWithin (length self.old.imports.items) log.new.imports.items }
        ensures seen { undone log.new.seen.items self.new.seen.items ≡ self.old.seen.items }
        ensures seen_within { AreWithin (length self.new.seen.items) log.new.seen.items }
        ensures imports { OnOk result ((reads : List ReadOf) → AreRead files.now reads
            → AreLinkImports files.now reads (map (λ v. v.items) self.new.imports.items)) }
        ensures sight { OnOk result ((reads : List ReadOf) → AreRead files.now reads
            → IsSightOf files.now reads self.new.seen.items) }
        ensures was { All (λ c. get_or self.old.seen.items c.place [] ≡ c.was)
            log.new.seen.items }
        ensures unchanged { StayBut (map (λ c. c.place) log.new.seen.items)
            self.old.seen.items self.new.seen.items }
    {
        // The contracts of these say how many files there are, and what is known of their imports.
        let _count = files.len();
        kept_imports_stay();
        listed_imports_are_known();
        if all_imports_kept(alloc, files, places, &self.imports)? {
            return Ok(());
        }
        let now = imports_at(alloc, files, places)?;
        let stale = files_to_ask(alloc, &self.imports, &self.seen, places, &now)?;
        change_all_at(&mut self.imports, &mut log.imports, places, now)?;
        if !none_leads_to_itself(alloc, &self.imports, places)? {
            return Err(NotUpdated::NeedsRebuild);
        }
        see_again(alloc, &self.imports, &stale, &mut self.seen, &mut log.seen)?;
        Ok(())
    }
}

/// The files that may see others once those at these places have these imports in place of theirs:
/// these, and where one of them imports others publicly, each that saw it. Fails only when out of
/// memory.
fn files_to_ask(
    alloc: Global,
    imports: &[Vec<FileImport>],
    seen: &[FileSet],
    places: &[u32],
    now: &[Vec<FileImport>],
) -> Result<FileSet, NoMemory>
    requires places { All (λ place. place < length imports.now) places.now }
    requires seen { length seen.now ≡ length imports.now }
    requires paired { length now.now ≡ length places.now }
    ensures len { IfOk result (λ stale. length stale ≡ length imports.now) }
    ensures others { IfOk result (λ stale. (file : ℕ) → file < length imports.now
        → get_or stale file false ≡ false
        → KeepsSight places.now (map (λ v. v.items) imports.now) (map (λ v. v.items) now.now)
        (get_or seen.now file []) file) }
{
    let mut stale = FileSet::new(alloc, seen.len())?;
    mark_places(&mut stale, places);
    for k in 0..places.len() {
        let place = places[k];
        if !import_same_publicly(alloc, &imports[place as usize], &now[k])? {
            mark_who_sees(&mut stale, seen, place);
        }
    }
    Ok(stale)
}

/// Whether both lists name the same files publicly, in the same order. Fails only when out of
/// memory.
fn import_same_publicly(
    alloc: Global,
    one: &[FileImport],
    other: &[FileImport],
) -> Result<bool, NoMemory>
    ensures { IfOk result (λ same. same ≡ true → public_files one.now ≡ public_files other.now) }
{
    let one = public_targets(alloc, one)?;
    let other = public_targets(alloc, other)?;
    Ok(one.as_slice() == other.as_slice())
}

/// Puts the files into the set that see the one with this number.
fn mark_who_sees(marks: &mut FileSet, seen: &[FileSet], place: u32)
    requires { length seen.now ≡ length marks.old }
    ensures stay { MarksStay marks.old marks.new }
    ensures marked { (file : ℕ) → file < length marks.old
        → get_or (get_or seen.now file []) place false ≡ true → IsMarked marks.new file }
{
    for file in 0..seen.len() {
        mark_if_sees(marks, file, &seen[file], place);
    }
}

/// Puts a file into the set, if it sees the one with this number.
#[tactic(auto, using(proto_names_affected::proofs::Inserted::inserted_stay, proto_names_affected::proofs::Inserted::inserted_marked))]
fn mark_if_sees(marks: &mut FileSet, file: usize, seen: &FileSet, place: u32)
    requires { file < length marks.old }
    ensures stay { MarksStay marks.old marks.new }
    ensures marked { get_or seen.now place false ≡ true → IsMarked marks.new file }
{
    if seen.contains(place) {
        marks.insert_at(file);
    }
}
