//! Descriptors of edited files, made anew as far as the edit affects them.

ghost use Rattle.std.specs.Prelude.{◌≡◌, ◌<◌, length, option_map, All, IfOk, OnErr, OnOk};
ghost use Rattle.proto_desc.specs.Checked.{CheckFaults};
ghost use Rattle.proto_desc.specs.Edited.{AreCheckedDescriptors, AreDescriptorsOf};
ghost use Rattle.proto_desc.specs.Renewing.{AreMade, ArePut, IsMade, IsPut};
ghost use Rattle.proto_desc.specs.Views.{files_kept};
ghost use Rattle.proto_files.specs.Faults.{HasNoFault};
ghost use Rattle.proto_names.specs.Following.{WasMadeOf};
ghost use Rattle.proto_resolved.specs.Meanings.{HasEnumsMeant};
ghost use Rattle.proto_desc_affected.specs.Marks.{AreOthersKept};

use crate::described::file_descriptor;
use crate::descriptors::Descriptors;
use proto_base::NoMemory;
use proto_desc_affected::FileSummary;
use proto_desc_affected::laws::{
    clean_edits_are_sound, kept_files_tell_unaffected, unaffected_files_stay,
    wanted_enums_are_there,
};
use proto_desc_affected::marks::{
    files_of_enums, files_to_check, has_no_marked_extends, told_files_to_check,
};
use proto_desc_checks::file_flaws;
use proto_desc_extensions::option_flaws;
use proto_descriptors::FileDescriptor;
use proto_file_sets::FileSet;
use proto_names_update::NotUpdated;
use proto_resolved::enum_table::{EnumTable, enum_table_of};
use proto_resolved::scenes::scene;
use proto_resolved::{CleanLinked, Linked};
use std::alloc::Global;

/// What was made of a file that was checked again: its descriptor, and what is kept of it.
#[derive(Drop)]
pub(crate) struct Made {
    /// The number of the file.
    file: u32,
    descriptor: FileDescriptor,
    kept: FileSummary,
}

/// Checks a file again that has no `extend` block, and describes it. A rebuild is needed where it
/// has a flaw.
fn check_again(
    alloc: Global,
    linked: &Linked<'_>,
    table: &EnumTable,
    file: u32,
) -> Result<Made, NotUpdated>
    requires file { file < length linked.now.files }
    requires table { HasEnumsMeant linked.now.files linked.now.link file table.now }
    ensures file { IfOk result (λ made. made.file ≡ file) }
    ensures made { IfOk result (IsMade linked.now.files) }
{
    let files = linked.files();
    let scene = scene(alloc, linked, table, file)?;
    let tree = files.tree(file);
    let flaws = file_flaws(alloc, &scene, tree)?;
    if !flaws.is_empty() {
        return Err(NotUpdated::NeedsRebuild);
    }
    let of_options = option_flaws(alloc, linked, file)?;
    if !of_options.is_empty() {
        return Err(NotUpdated::NeedsRebuild);
    }
    let descriptor = file_descriptor(alloc, &scene, files.path(file), tree)?;
    let kept = FileSummary::new(alloc, linked, file)?;
    Ok(Made {
        file,
        descriptor,
        kept,
    })
}

/// Checks these files again, which have no `extend` block, and describes them: what was made of
/// each, in order. A rebuild is needed where one has a flaw.
fn check_affected(
    alloc: Global,
    linked: &Linked<'_>,
    table: &EnumTable,
    affected: &[u32],
) -> Result<Vec<Made>, NotUpdated>
    requires files { All (λ file. file < length linked.now.files) affected.now }
    requires table { All (λ file. HasEnumsMeant linked.now.files linked.now.link file table.now)
        affected.now }
    ensures { IfOk result (λ made. AreMade linked.now.files affected.now made.items) }
{
    let mut all = Vec::with_capacity(alloc, affected.len())?;
    for file in affected {
        all.push(check_again(alloc, linked, table, *file)?)?;
    }
    Ok(all)
}

impl Descriptors {
    /// Puts what was made of a file in place of what was there. Takes no memory.
    fn put_one(&mut self, made: Made)
        requires file { made.file < length self.old.file.items }
        requires kept { made.file < length self.old.kept.items }
        ensures { IsPut made self.old self.new }
    {
        let Made {
            file,
            descriptor,
            kept,
        } = made;
        self.file[file as usize] = descriptor;
        self.kept[file as usize] = kept;
    }

    /// Puts what was made of files in place of what was there. Takes no memory.
    fn put(&mut self, all: Vec<Made>)
        requires file { All (λ made. made.file < length self.old.file.items) all.items }
        requires kept { All (λ made. made.file < length self.old.kept.items) all.items }
        ensures { ArePut all.items self.old self.new }
    {
        for made in all {
            self.put_one(made);
        }
    }

    /// The files that the edit affects. Where it is told which have to be re-checked,
    /// these are asked, and those that refer to an enum of an edited file or have an `extend`
    /// block; else all files. Fails only when out of memory.
    fn affected(
        &self,
        alloc: Global,
        clean: &CleanLinked<'_>,
        places: &[u32],
        told: Option<&FileSet>,
    ) -> Result<FileSet, NoMemory>
        requires places { All (λ place. place < length clean.now.files) places.now }
        requires were { WasMadeOf AreCheckedDescriptors clean.now.files places.now
            (option_map (λ files. files.now) told) self.now }
        ensures len { IfOk result (λ affected. length affected ≡ length clean.now.files) }
        ensures others { IfOk result (λ affected. AreOthersKept places.now clean.now.files
            clean.now.link (files_kept self.now) affected) }
    {
        // By the law no name clashes with another.
        clean_edits_are_sound();
        let linked = clean.linked();
        match told {
            Some(told) => told_files_to_check(alloc, linked, places, &self.kept, told),
            None => files_to_check(alloc, linked, places, &self.kept),
        }
    }

    /// Makes these the descriptors of the files, which are those that they were of but at these
    /// places, as far as the edit affects a file. It may be told which files have to be re-checked.
    /// A rebuild is needed where a file that is affected has a flaw, or has or had an `extend`
    /// block. Where it fails, nothing is changed.
    pub(crate) fn renew(
        &mut self,
        alloc: Global,
        clean: &CleanLinked<'_>,
        places: &[u32],
        told: Option<&FileSet>,
    ) -> Result<(), NotUpdated>
        requires places { All (λ place. place < length clean.now.files) places.now }
        requires were { WasMadeOf AreCheckedDescriptors clean.now.files places.now
            (option_map (λ files. files.now) told) self.old }
        ensures clean { OnOk result (HasNoFault (CheckFaults clean.now.files)) }
        ensures descriptors { OnOk result (AreDescriptorsOf clean.now.files self.new) }
        ensures kept { OnErr result (self.new ≡ self.old) }
    {
        // By these laws what is kept tells the files that the edit does not affect, of these all is
        // as it was, and the table has what the other files mean.
        clean_edits_are_sound();
        kept_files_tell_unaffected();
        unaffected_files_stay();
        wanted_enums_are_there();
        let files = clean.files();
        let affected = self.affected(alloc, clean, places, told)?;
        if !has_no_marked_extends(alloc, files, &affected, &self.kept)? {
            return Err(NotUpdated::NeedsRebuild);
        }
        let wanted = files_of_enums(alloc, files, clean.link(), &affected)?;
        let table = enum_table_of(alloc, files, &wanted)?;
        // The files are few, so that those of the set can be listed.
        clean.file_count();
        let listed = affected.files(alloc)?;
        let all = check_affected(alloc, clean.linked(), &table, &listed)?;
        self.put(all);
        Ok(())
    }
}
