//! Files that compile, with the JSON text of their descriptors.

ghost use Rattle.std.specs.Prelude.{string_bytes, IfOk, IfErr};
ghost use Rattle.proto_desc.specs.Opening.{IsOpenError};
ghost use Rattle.proto_desc.specs.Printing.{IsJsonOf};
ghost use Rattle.proto_desc.specs.Whole.{FileFaults, WorkspaceFaults, IsSortedOf};
ghost use Rattle.proto_files.specs.Faults.{HasNoFault, IsFilesError};
ghost use Rattle.proto_files.specs.GivenFiles.{files_of, files_of_as};
ghost use Rattle.proto_files.specs.ReadFaults.{ReadFaults};

use crate::checking::print;
use crate::schema::files_read;
use proto_base::{Profile, SchemaFault};
use proto_files::Files;
use proto_resolved::{Link, Linked};
use std::alloc::Global;

/// Files that compile: at most 4,096 in the order of their paths, with the JSON text of their
/// descriptors, as `to_json` makes it. One descriptor is there at a time, and the link is dropped
/// with the last, so that who prints the text has their memory.
#[derive(Drop)]
pub struct PrintedSchema {
    pub files: Files,
    pub text: String,
}

// The text of the descriptors of files that were read, where they have no fault.
fn printed_files(alloc: Global, files: &Files) -> Result<String, SchemaFault>
    requires { HasNoFault (ReadFaults files.now) }
    ensures clean { IfOk result (λ _. HasNoFault (FileFaults files.now)) }
    ensures text { IfOk result (λ text. IsJsonOf files.now (string_bytes text)) }
    ensures fault { IfErr result (IsFilesError (FileFaults files.now)) }
{
    let link = Link::new(alloc, files)?;
    let printed = print(alloc, &Linked::new(files, &link));
    link.release();
    match printed {
        Ok(text) => Ok(text),
        Err(fault) => Err(fault),
    }
}

impl PrintedSchema {
    /// The files given, as paths and bytes, in the order of their paths, where they compile; else
    /// their least fault by phase, path, offset and number, or out of memory: as `Schema::open`.
    pub fn open(alloc: Global, files: Vec<(String, Vec<u8>)>) -> Result<PrintedSchema, SchemaFault>
        ensures files { IfOk result (λ s. IsSortedOf (files_of files.items) s.files) }
        ensures clean { IfOk result (λ _. HasNoFault (WorkspaceFaults (files_of files.items))) }
        ensures text { IfOk result (λ s. IsJsonOf s.files (string_bytes s.text)) }
        ensures fault { IfErr result (λ e. IsOpenError (files_of files.items) e) }
    {
        PrintedSchema::open_as(alloc, files, Profile::Core)
    }

    /// As `open`, for files of a language.
    pub fn open_as(
        alloc: Global,
        files: Vec<(String, Vec<u8>)>,
        profile: Profile,
    ) -> Result<PrintedSchema, SchemaFault>
        ensures files { IfOk result (λ s. IsSortedOf (files_of_as profile files.items) s.files) }
        ensures clean { IfOk result (λ _. HasNoFault
            (WorkspaceFaults (files_of_as profile files.items))) }
        ensures text { IfOk result (λ s. IsJsonOf s.files (string_bytes s.text)) }
        ensures fault { IfErr result (λ e. IsOpenError (files_of_as profile files.items) e) }
    {
        let files = files_read(alloc, files, profile)?;
        match printed_files(alloc, &files) {
            Ok(text) => Ok(PrintedSchema { files, text }),
            Err(fault) => {
                files.release();
                Err(fault)
            }
        }
    }
}
