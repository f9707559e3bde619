//! Files that compile, with their link, and with their descriptors or without.

ghost use Rattle.std.specs.Prelude.{◌≡◌, List, IfOk, IfErr};
ghost use Rattle.proto_desc.specs.Checked.{AreDescribed};
ghost use Rattle.proto_desc.specs.Edited.{AreDescriptorsOf};
ghost use Rattle.proto_desc.specs.Views.{files_desc};
ghost use Rattle.proto_files.specs.Faults.{HasNoFault, IsFilesError};
ghost use Rattle.proto_files.specs.GivenFiles.{files_of, files_of_as};
ghost use Rattle.proto_files.specs.ReadFaults.{ReadFaults};
ghost use Rattle.proto_resolved.specs.LinkOfFiles.{IsLinkOf};
ghost use Rattle.proto_files.specs.FilesRead.{ReadOf, AreRead};
ghost use Rattle.proto_desc.specs.Opening.{AreReadOf, IsOpenError};
ghost use Rattle.proto_desc.specs.Whole.{FileFaults, WorkspaceFaults, IsSortedOf};

use crate::checking::{check, pass_checks};
use crate::descriptors::Descriptors;
use proto_base::{Profile, SchemaFault};
use proto_files::{Files, Paths, are_read};
use proto_resolved::Link;
use std::alloc::Global;
use std::marker::Model;

/// Files that compile: at most 4,096 in the order of their paths, with their link. Their descriptors
/// are not made.
#[derive(Drop)]
pub struct CheckedSchema {
    files: Files,
    link: Link,
}

impl Model for CheckedSchema {
    ghost use Rattle.std.specs.Prelude.{List};
    ghost use Rattle.proto_files.specs.GivenFiles.{FileOf};

    ghost Value = { List FileOf };

    ghost use Rattle.proto_files.specs.Faults.{HasNoFault};
    ghost use Rattle.proto_resolved.specs.LinkOfFiles.{IsLinkOf};
    ghost use Rattle.proto_desc.specs.Whole.{FileFaults};

    ghost view = { λ s. s.files };

    ghost invariant = { λ s. HasNoFault (FileFaults s.files) × IsLinkOf s.files s.link };
}

/// Schemas that compile: at most 4,096 files in the order of their paths, with their link and their
/// descriptors.
#[derive(Drop)]
pub struct Schema {
    pub(crate) files: Files,
    pub(crate) link: Link,
    pub(crate) descriptors: Descriptors,
}

impl Model for Schema {
    ghost use Rattle.std.specs.Prelude.{List};
    ghost use Rattle.proto_files.specs.GivenFiles.{FileOf};

    ghost Value = { List FileOf };

    ghost use Rattle.proto_desc.specs.Edited.{AreDescriptorsOf};
    ghost use Rattle.proto_files.specs.Faults.{HasNoFault};
    ghost use Rattle.proto_resolved.specs.LinkOfFiles.{IsLinkOf};
    ghost use Rattle.proto_desc.specs.Whole.{FileFaults};

    ghost view = { λ s. s.files };

    ghost invariant = { λ s. HasNoFault (FileFaults s.files)
        × (IsLinkOf s.files s.link × AreDescriptorsOf s.files s.descriptors) };
}

/// The link of files that were read, and their descriptors, where they have no fault.
pub fn link_and_descriptors(
    alloc: Global,
    files: &Files,
) -> Result<(Link, Descriptors), SchemaFault>
    requires { HasNoFault (ReadFaults files.now) }
    ensures clean { IfOk result (λ _. HasNoFault (FileFaults files.now)) }
    ensures link { IfOk result (λ l. IsLinkOf files.now l.0) }
    ensures described { IfOk result (λ l. AreDescriptorsOf files.now l.1) }
    ensures fault { IfErr result (IsFilesError (FileFaults files.now)) }
{
    let link = Link::new(alloc, files)?;
    match check(alloc, files, &link) {
        Ok(descriptors) => Ok((link, descriptors)),
        Err(fault) => {
            link.release();
            Err(fault)
        }
    }
}

// The files given, of a language, in the order of their paths, where neither their paths nor their
// texts have a fault.
pub(crate) fn files_read(
    alloc: Global,
    given: Vec<(String, Vec<u8>)>,
    profile: Profile,
) -> Result<Files, SchemaFault>
    ensures read { IfOk result (AreReadOf (files_of_as profile given.items)) }
    ensures fault { IfErr result (IsOpenError (files_of_as profile given.items)) }
{
    let paths = Paths::new_as(alloc, given, profile)?;
    Files::read(alloc, paths)
}

// The link of files that were read, where they have no fault.
fn checked_link(alloc: Global, files: &Files) -> Result<Link, SchemaFault>
    requires { HasNoFault (ReadFaults files.now) }
    ensures clean { IfOk result (λ _. HasNoFault (FileFaults files.now)) }
    ensures link { IfOk result (IsLinkOf files.now) }
    ensures fault { IfErr result (IsFilesError (FileFaults files.now)) }
{
    let link = Link::new(alloc, files)?;
    match pass_checks(alloc, files, &link) {
        Ok(()) => Ok(link),
        Err(fault) => {
            link.release();
            Err(fault)
        }
    }
}

impl CheckedSchema {
    /// The files given, as paths and bytes, in the order of their paths, where they compile; else
    /// their least fault by phase, path, offset and number, or out of memory: as `Schema::open`,
    /// without the descriptors.
    pub fn open(alloc: Global, files: Vec<(String, Vec<u8>)>) -> Result<CheckedSchema, SchemaFault>
        ensures files { IfOk result (λ s. IsSortedOf (files_of files.items) s) }
        ensures clean { IfOk result (λ _. HasNoFault (WorkspaceFaults (files_of files.items))) }
        ensures fault { IfErr result (λ e. IsOpenError (files_of files.items) e) }
    {
        CheckedSchema::open_as(alloc, files, Profile::Core)
    }

    /// As `open`, for files of a language.
    pub fn open_as(
        alloc: Global,
        files: Vec<(String, Vec<u8>)>,
        profile: Profile,
    ) -> Result<CheckedSchema, SchemaFault>
        ensures files { IfOk result (λ s. IsSortedOf (files_of_as profile files.items) s) }
        ensures clean { IfOk result (λ _. HasNoFault
            (WorkspaceFaults (files_of_as profile files.items))) }
        ensures fault { IfErr result (λ e. IsOpenError (files_of_as profile files.items) e) }
    {
        let files = files_read(alloc, files, profile)?;
        match checked_link(alloc, &files) {
            Ok(link) => Ok(CheckedSchema { files, link }),
            Err(fault) => {
                files.release();
                Err(fault)
            }
        }
    }

    /// The files, in the order of their paths.
    pub fn files(&self) -> &Files
        ensures files { result.now ≡ self.now }
        ensures compiled { HasNoFault (FileFaults self.now) }
    {
        &self.files
    }

    /// The link of the files: their names, and what each reference means.
    pub fn link(&self) -> &Link
        ensures { IsLinkOf self.now result.now }
    {
        &self.link
    }

    /// Lets the files go. A crate that ends them by this call need not prove how each of their parts
    /// is dropped. No clause: the files are gone after it, and nothing is left to speak of.
    pub fn release(self) {
        self.files.release();
        self.link.release();
    }
}

impl Schema {
    /// The files given, as paths and bytes, in the order of their paths, where they compile; else
    /// their least fault by phase, path, offset and number, or out of memory.
    pub fn open(alloc: Global, files: Vec<(String, Vec<u8>)>) -> Result<Schema, SchemaFault>
        ensures files { IfOk result (λ s. IsSortedOf (files_of files.items) s) }
        ensures clean { IfOk result (λ _. HasNoFault (WorkspaceFaults (files_of files.items))) }
        ensures fault { IfErr result (λ e. IsOpenError (files_of files.items) e) }
    {
        Schema::open_as(alloc, files, Profile::Core)
    }

    /// As `open`, for files of a language.
    pub fn open_as(
        alloc: Global,
        files: Vec<(String, Vec<u8>)>,
        profile: Profile,
    ) -> Result<Schema, SchemaFault>
        ensures files { IfOk result (λ s. IsSortedOf (files_of_as profile files.items) s) }
        ensures clean { IfOk result (λ _. HasNoFault
            (WorkspaceFaults (files_of_as profile files.items))) }
        ensures fault { IfErr result (λ e. IsOpenError (files_of_as profile files.items) e) }
    {
        let files = files_read(alloc, files, profile)?;
        match link_and_descriptors(alloc, &files) {
            Ok((link, descriptors)) => Ok(Schema {
                files,
                link,
                descriptors,
            }),
            Err(fault) => {
                files.release();
                Err(fault)
            }
        }
    }

    /// The files, in the order of their paths.
    pub fn files(&self) -> &Files
        ensures files { result.now ≡ self.now }
        ensures compiled { HasNoFault (FileFaults self.now) }
    {
        &self.files
    }

    /// The link of the files: their names, and what each reference means.
    pub fn link(&self) -> &Link
        ensures { IsLinkOf self.now result.now }
    {
        &self.link
    }

    /// The descriptors of the files. A copy of them is updated by `Descriptors::replace` where a copy
    /// of the files is edited.
    pub fn descriptors(&self) -> &Descriptors
        ensures described { AreDescribed self.now (files_desc result.now) }
        ensures descriptors { AreDescriptorsOf self.now result.now }
        // Each file has tokens and a tree, of which the descriptors are told.
        ensures read { (reads : List ReadOf) × AreRead self.now reads }
    {
        are_read(&self.files);
        &self.descriptors
    }

    /// Lets the schemas go. A crate that ends them by this call need not prove how each of their
    /// parts is dropped. No clause: the schema is gone after it, and nothing is left to speak of.
    pub fn release(self) {
        self.files.release();
        self.link.release();
    }
}
