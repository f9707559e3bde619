//! A workspace that compiles.

ghost use Rattle.std.specs.Prelude.{◌≡◌, ◌+◌, ◌<◌, ◌≤◌, ◌^◌, List, length, map, IfOk, IfErr, OnOk, OnErr};
ghost use Rattle.std.specs.List.{All, AllPairs};
ghost use Rattle.proto_desc.specs.Checked.{AreDescribed};
ghost use Rattle.proto_desc.specs.Edited.{AreDescriptorsOf};
ghost use Rattle.proto_desc.specs.Views.{files_desc};
ghost use Rattle.proto_files.specs.Faults.{HasNoFault};
ghost use Rattle.proto_files.specs.GivenFiles.{files_of, files_of_as};
ghost use Rattle.proto_files.specs.FilesRead.{ReadOf, AreRead};
ghost use Rattle.proto_desc.specs.Opening.{IsOpenError};
ghost use Rattle.proto_desc.specs.Whole.{WorkspaceFaults, IsSortedOf};
ghost use Rattle.proto_names.specs.LinkOfFiles.{IsLinkOf};
ghost use Rattle.proto_edit_entries.specs.Entries.{AreRising, change_of};
ghost use Rattle.proto_edit_entries.specs.Putting.{IsPut, with_texts};
ghost use Rattle.proto_edit.specs.Answers.{IsPutRefusal};
ghost use Rattle.proto_edit.specs.Compiled.{AreCompiled};
ghost use Rattle.proto_option_files.specs.OptionFiles.{AreOptionFiles};

use proto_base::{NoMemory, Profile, SchemaFault};
use proto_desc::{Descriptors, Schema};
use proto_edit_entries::{Change, ChangedTexts, Refusal, changed_texts};
use proto_files::Files;
use proto_names::Link;
use proto_option_files::OptionFiles;
use proto_resolved::CleanLinked;
use proto_tree::Steps;
use std::alloc::Global;
use std::marker::Model;

/// Schemas that compile, with their descriptors: at most 4,096 files.
#[derive(Drop)]
pub struct Workspace {
    pub(crate) schema: Schema,
    /// Which files may have an option with a word.
    options: OptionFiles,
}

impl Model for Workspace {
    ghost use Rattle.std.specs.Prelude.{List};
    ghost use Rattle.proto_files.specs.GivenFiles.{FileOf};

    ghost Value = { List FileOf };

    ghost use Rattle.proto_edit.specs.Compiled.{AreCompiled};
    ghost use Rattle.proto_option_files.specs.OptionFiles.{AreOptionFiles};

    ghost view = { λ w. w.schema };

    ghost invariant = { λ w. AreCompiled w.schema × AreOptionFiles w.schema w.options };
}

impl Workspace {
    /// The files given, in the order of their paths, where they compile; else their least fault
    /// by phase, path, offset and number.
    pub fn open(alloc: Global, files: Vec<(String, Vec<u8>)>) -> Result<Workspace, SchemaFault>
        ensures files { IfOk result (λ w. IsSortedOf (files_of files.items) w) }
        ensures compiled { IfOk result (λ w. AreCompiled w) }
        ensures clean { IfOk result (λ _. HasNoFault (WorkspaceFaults (files_of files.items))) }
        ensures fault { IfErr result (λ e. IsOpenError (files_of files.items) e) }
    {
        Workspace::open_as(alloc, files, Profile::Core)
    }

    /// As `open`, for files of a language.
    pub fn open_as(
        alloc: Global,
        files: Vec<(String, Vec<u8>)>,
        profile: Profile,
    ) -> Result<Workspace, SchemaFault>
        ensures files { IfOk result (λ w. IsSortedOf (files_of_as profile files.items) w) }
        ensures compiled { IfOk result (λ w. AreCompiled w) }
        ensures clean { IfOk result (λ _. HasNoFault
            (WorkspaceFaults (files_of_as profile files.items))) }
        ensures fault { IfErr result (λ e. IsOpenError (files_of_as profile files.items) e) }
    {
        let schema = Schema::open_as(alloc, files, profile)?;
        // Its files are those of a workspace.
        let files = schema.files();
        files.len();
        match OptionFiles::new(alloc, files) {
            Ok(options) => Ok(Workspace { schema, options }),
            Err(_) => {
                schema.release();
                Err(SchemaFault::NoMemory)
            }
        }
    }

    /// The files, in the order of their paths.
    pub fn files(&self) -> &Files
        ensures files { result.now ≡ self.now }
        ensures compiled { AreCompiled self.now }
    {
        self.schema.files()
    }

    /// The link of the files: their names, and what each reference means.
    pub fn link(&self) -> &Link
        ensures { IsLinkOf self.now result.now }
    {
        self.schema.link()
    }

    // The files with their link.
    pub(crate) fn linked(&self) -> CleanLinked<'_>
        ensures linked { result.files ≡ self.now }
        ensures compiled { AreCompiled self.now }
    {
        CleanLinked::new(self.files(), self.link())
    }

    // Which files may have an option with a word.
    pub(crate) fn options(&self) -> &OptionFiles
        ensures { AreOptionFiles self.now result.now }
    {
        &self.options
    }

    /// The descriptors of the files. A copy of them is updated by `Descriptors::replace` where a copy
    /// of the files is edited.
    pub fn descriptors(&self) -> &Descriptors
        ensures described { AreDescribed self.now (files_desc result.now) }
        ensures descriptors { AreDescriptorsOf self.now result.now }
        // Each file has tokens and a tree, of which the descriptors are told.
        ensures read { (reads : List ReadOf) × AreRead self.now reads }
    {
        self.schema.descriptors()
    }

    /// An equal workspace. Fails only when out of memory.
    pub fn copy(&self, alloc: Global) -> Result<Workspace, NoMemory>
        ensures { IfOk result (λ w. w ≡ self.now) }
    {
        let options = self.options.copy(alloc)?;
        let schema = self.schema.copy(alloc)?;
        Ok(Workspace { schema, options })
    }

    // Gives the files at these places, which rise, these texts, where all files then compile; else
    // their least fault, or out of memory, and the workspace is unchanged. The words of the options
    // of these files alone are noted again.
    pub(crate) fn replace_counted(
        &mut self,
        alloc: Global,
        places: &[u32],
        texts: Vec<Vec<u8>>,
        steps: &mut Steps,
    ) -> Result<(), SchemaFault>
        requires places { All (λ place. place < length self.old) places.now }
        requires rising { AllPairs (λ a b. a < b) places.now }
        requires paired { length texts.items ≡ length places.now }
        requires steps { steps.old ≤ 2 ^ 63 }
        ensures files { OnOk result
            (self.new ≡ with_texts self.old places.now (map (λ t. t.items) texts.items)) }
        ensures clean { IfOk result (λ _. HasNoFault (WorkspaceFaults
            (with_texts self.old places.now (map (λ t. t.items) texts.items)))) }
        ensures fault { IfErr result (IsOpenError
            (with_texts self.old places.now (map (λ t. t.items) texts.items))) }
        ensures kept { OnErr result (self.new ≡ self.old) }
        ensures counted { OnOk result (steps.new ≡ steps.old + length places.now) }
        ensures refused { OnErr result
            ((steps.old ≤ steps.new) × (steps.new ≤ steps.old + length places.now)) }
    {
        match self.schema.replace_counted(alloc, places, texts, steps) {
            Ok(()) => {
                // Its files are those of a workspace.
                let files = self.schema.files();
                files.len();
                self.options.add_changed(alloc, files, places);
                Ok(())
            }
            Err(fault) => Err(fault),
        }
    }

    // Puts changes into the files, which are read again, once each. Where the changes cannot be
    // made, or what they leave does not compile, they are stale, and nothing changes.
    pub(crate) fn put(
        &mut self,
        alloc: Global,
        changes: &[Change],
        steps: &mut Steps,
    ) -> Result<(), Refusal>
        requires rising { AreRising (map change_of changes.now) }
        requires steps { steps.old ≤ 2 ^ 63 }
        ensures put { OnOk result (IsPut self.old (map change_of changes.now) self.new) }
        ensures compiled { OnOk result (AreCompiled self.new) }
        ensures err { IfErr result (IsPutRefusal self.old (map change_of changes.now)) }
        ensures kept { OnErr result (self.new ≡ self.old) }
        ensures counted { OnOk result (steps.new ≡ steps.old + length changes.now) }
        ensures refused { OnErr result ((steps.old ≤ steps.new)
            × (steps.new ≤ steps.old + 4096)) }
    {
        let Some(changed) = changed_texts(alloc, self.files(), changes)? else {
            return Err(Refusal::Stale);
        };
        let ChangedTexts { places, texts } = changed;
        match self.replace_counted(alloc, &places, texts, steps) {
            Ok(()) => Ok(()),
            Err(SchemaFault::NoMemory) => Err(Refusal::NoMemory),
            Err(SchemaFault::Schema(_)) => Err(Refusal::Stale),
        }
    }

    /// Lets the workspace go, as `Schema::release` does, and for the same reason ensures nothing.
    pub fn release(self) {
        self.schema.release();
    }
}
