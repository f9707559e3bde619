//! Copies of descriptors, and descriptors of files of which some were edited.

ghost use Rattle.std.specs.Prelude.{◌≡◌, ◌<◌, List, length, option_map, All, IfOk, IfErr, OnOk, OnErr};
ghost use Rattle.proto_desc.specs.Checked.{CheckFaults, IsCheckError};
ghost use Rattle.proto_desc.specs.Edited.{AreCheckedDescriptors, AreDescriptorsOf, WereDescribed};
ghost use Rattle.proto_desc.specs.Views.{files_desc, files_kept};
ghost use Rattle.proto_files.specs.Faults.{HasNoFault};
ghost use Rattle.proto_files.specs.GivenFiles.{FileOf};
ghost use Rattle.proto_names_imports.specs.Links.{LinkFaults};
ghost use Rattle.proto_names.specs.Following.{WasMadeOf};
ghost use Rattle.proto_resolved.specs.LinkOfFiles.{IsLinkOf};

use crate::checking::check;
use crate::descriptors::Descriptors;
use proto_base::{NoMemory, SchemaFault};
use proto_desc_affected::copy_file_summaries;
use proto_descriptors::copy_files;
use proto_file_sets::FileSet;
use proto_files::Files;
use proto_names_update::NotUpdated;
use proto_resolved::{CleanLinked, Derived, Link};
use std::alloc::Global;

impl Descriptors {
    /// A copy of the descriptors. Fails only when out of memory.
    pub fn copy(&self, alloc: Global) -> Result<Descriptors, NoMemory>
        ensures descriptors { IfOk result (λ d. files_desc d ≡ files_desc self.now) }
        ensures kept { IfOk result (λ d. files_kept d ≡ files_kept self.now) }
        ensures same { IfOk result (λ d. (files : List FileOf)
            → AreDescriptorsOf files self.now → AreDescriptorsOf files d) }
    {
        let file = copy_files(alloc, &self.file)?;
        let kept = copy_file_summaries(alloc, &self.kept)?;
        Ok(Descriptors { file, kept })
    }

    /// Changes these to the descriptors of the files, which differ from those before at these places
    /// alone; those before had no fault. It answers as `check` of the files does; after a refusal
    /// they are as they were.
    pub fn replace(
        &mut self,
        alloc: Global,
        files: &Files,
        link: &Link,
        places: &[u32],
    ) -> Result<(), SchemaFault>
        requires places { All (λ place. place < length files.now) places.now }
        requires link { IsLinkOf files.now link.now }
        requires clean { HasNoFault (LinkFaults files.now) }
        requires were { WereDescribed files.now places.now self.old }
        ensures clean { IfOk result (λ _. HasNoFault (CheckFaults files.now)) }
        ensures descriptors { OnOk result (AreDescriptorsOf files.now self.new) }
        ensures fault { IfErr result (IsCheckError files.now) }
        ensures kept { OnErr result (self.new ≡ self.old) }
    {
        let clean = CleanLinked::new(files, link);
        self.renew_or_check(alloc, &clean, places, None)
    }

    /// The same; it may be told which files have to be re-checked.
    fn renew_or_check(
        &mut self,
        alloc: Global,
        clean: &CleanLinked<'_>,
        places: &[u32],
        told: Option<&FileSet>,
    ) -> Result<(), SchemaFault>
        requires places { All (λ place. place < length clean.now.files) places.now }
        requires were { WasMadeOf AreCheckedDescriptors clean.now.files places.now
            (option_map (λ files. files.now) told) self.old }
        ensures clean { IfOk result (λ _. HasNoFault (CheckFaults clean.now.files)) }
        ensures descriptors { OnOk result (AreDescriptorsOf clean.now.files self.new) }
        ensures fault { IfErr result (IsCheckError clean.now.files) }
        ensures kept { OnErr result (self.new ≡ self.old) }
    {
        match self.renew(alloc, clean, places, told) {
            Ok(()) => Ok(()),
            Err(NotUpdated::NeedsRebuild) => {
                *self = check(alloc, clean.files(), clean.link())?;
                Ok(())
            }
            Err(NotUpdated::NoMemory) => Err(SchemaFault::NoMemory),
        }
    }
}

impl Derived for Descriptors {
    ghost IsMade = { AreCheckedDescriptors };

    ghost IsRefused = { IsCheckError };

    /// As `replace`; the files that are told save a look at each reference of all files.
    fn follow(
        &mut self,
        alloc: Global,
        files: &Files,
        link: &Link,
        places: &[u32],
        told: Option<&FileSet>,
    ) -> Result<(), SchemaFault> {
        let clean = CleanLinked::new(files, link);
        self.renew_or_check(alloc, &clean, places, told)
    }
}
