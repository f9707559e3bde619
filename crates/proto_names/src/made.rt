//! What is made of a link of files, and follows it where they are edited.

ghost use Rattle.std.specs.Prelude.{◌≡◌, ◌<◌, List, length, option_map, OnOk, OnErr, IfErr};
ghost use Rattle.std.specs.List.{All};
ghost use Rattle.proto_base.specs.declared.fault.SchemaFault.{SchemaFault as SchemaFaultOf};
ghost use Rattle.proto_files.specs.Faults.{HasNoFault};
ghost use Rattle.proto_files.specs.GivenFiles.{FileOf};
ghost use Rattle.proto_names_imports.specs.LinkErrors.{IsLinkError};
ghost use Rattle.proto_names_imports.specs.Links.{LinkFaults};
ghost use Rattle.proto_names.specs.Following.{WasMadeOf};
ghost use Rattle.proto_names.specs.LinkOfFiles.{IsLinkOf};

use crate::link::Link;
use proto_base::SchemaFault;
use proto_file_sets::FileSet;
use proto_files::Files;
use std::alloc::Global;

/// What is made of files and their link, and is made anew as far as they are edited.
pub trait Derived {
    /// It is made of the files.
    ghost IsMade: { List FileOf → Self → Type 0 };

    /// Why it cannot be made of the files.
    ghost IsRefused: { List FileOf → SchemaFaultOf → Type 0 };

    /// Makes it that of the files, of which this is the link, where it was that of files with other
    /// bytes at these places. If files are told, they are those that have to be looked at
    /// again: what a reference of any other file means is what it meant. After a refusal it is as
    /// it was.
    fn follow(
        &mut self,
        alloc: Global,
        files: &Files,
        link: &Link,
        places: &[u32],
        told: Option<&FileSet>,
    ) -> Result<(), SchemaFault>
        requires places { All (λ place. place < length files.now) places.now }
        requires link { IsLinkOf files.now link.now }
        requires clean { HasNoFault (LinkFaults files.now) }
        requires was { WasMadeOf IsMade files.now places.now (option_map (λ marks. marks.now) told)
            self.old }
        ensures made { OnOk result (IsMade files.now self.new) }
        ensures fault { IfErr result (IsRefused files.now) }
        ensures kept { OnErr result (self.new ≡ self.old) };
}

/// Nothing is made of the link.
#[derive(Clone, Copy)]
pub struct Nothing;

impl Derived for Nothing {
    ghost IsMade = { λ _ _. Unit {0} };

    ghost IsRefused = { λ files fault. IsLinkError files fault };

    /// Always answers, and makes nothing.
    fn follow(
        &mut self,
        _alloc: Global,
        _files: &Files,
        _link: &Link,
        _places: &[u32],
        _told: Option<&FileSet>,
    ) -> Result<(), SchemaFault>
        ensures { OnErr result ⊥ }
    {
        Ok(())
    }
}
