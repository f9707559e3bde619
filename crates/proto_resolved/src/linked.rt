//! Files with their link, as one value.

ghost use Rattle.std.specs.Prelude.{◌≡◌, length};
ghost use Rattle.proto_files.specs.Faults.{HasNoFault};
ghost use Rattle.proto_files.specs.GivenFiles.{AreWorkspaceFiles};
ghost use Rattle.proto_names.specs.LinkOfFiles.{IsLinkOf};
ghost use Rattle.proto_names_imports.specs.Links.{LinkFaults};
ghost use Rattle.proto_resolved.specs.LinkedFiles.{AreCleanLinked, AreLinked};

use proto_files::{Files, are_read};
use proto_names::Link;
use std::marker::Model;

/// Files with their link.
#[derive(Drop)]
pub struct Linked<'a> {
    files: &'a Files,
    link: &'a Link,
}

impl<'a> Model for Linked<'a> {
    ghost use Rattle.proto_names.specs.LinkOfFiles.{IsLinkOf};
    ghost use Rattle.proto_resolved.specs.LinkedFiles.{LinkedFiles};

    ghost Value = { LinkedFiles };

    ghost view = { λ l. record { files = l.files.now; link = l.link.now } };

    ghost invariant = { λ l. IsLinkOf l.files.now l.link.now };
}

impl<'a> Linked<'a> {
    /// Files with this link, which is theirs.
    pub fn new(files: &'a Files, link: &'a Link) -> Linked<'a>
        requires { IsLinkOf files.now link.now }
        ensures files { result.files ≡ files.entry.now }
        ensures link { result.link ≡ link.entry.now }
    {
        Linked { files, link }
    }

    /// The files.
    pub fn files(&self) -> &'a Files
        ensures files { result.now ≡ self.now.files }
        ensures linked { AreLinked self.now }
    {
        are_read(self.files);
        self.files
    }

    /// How many files there are.
    pub fn file_count(&self) -> usize
        ensures len { result ≡ length self.now.files }
        ensures workspace { AreWorkspaceFiles self.now.files }
    {
        self.files.len()
    }

    /// The link of the files.
    pub fn link(&self) -> &'a Link
        ensures link { result.now ≡ self.now.link }
        ensures linked { AreLinked self.now }
    {
        are_read(self.files);
        self.link
    }
}

/// Files whose imports, names and references have no fault, with their link.
#[derive(Drop)]
pub struct CleanLinked<'a> {
    linked: Linked<'a>,
}

impl<'a> Model for CleanLinked<'a> {
    ghost use Rattle.proto_files.specs.Faults.{HasNoFault};
    ghost use Rattle.proto_names_imports.specs.Links.{LinkFaults};
    ghost use Rattle.proto_resolved.specs.LinkedFiles.{LinkedFiles};

    ghost Value = { LinkedFiles };

    ghost view = { λ l. l.linked };

    ghost invariant = { λ l. HasNoFault (LinkFaults l.linked.files) };
}

impl<'a> CleanLinked<'a> {
    /// Files with this link, which is theirs; they have no fault.
    pub fn new(files: &'a Files, link: &'a Link) -> CleanLinked<'a>
        requires link { IsLinkOf files.now link.now }
        requires clean { HasNoFault (LinkFaults files.now) }
        ensures files { result.files ≡ files.entry.now }
        ensures link { result.link ≡ link.entry.now }
    {
        CleanLinked {
            linked: Linked::new(files, link),
        }
    }

    /// The files with their link.
    pub fn linked(&self) -> &Linked<'a>
        ensures linked { result.now ≡ self.now }
        ensures clean { AreCleanLinked self.now }
    {
        self.linked.files();
        &self.linked
    }

    /// The files.
    pub fn files(&self) -> &'a Files
        ensures files { result.now ≡ self.now.files }
        ensures clean { AreCleanLinked self.now }
    {
        self.linked.files()
    }

    /// How many files there are.
    pub fn file_count(&self) -> usize
        ensures len { result ≡ length self.now.files }
        ensures workspace { AreWorkspaceFiles self.now.files }
    {
        self.linked.file_count()
    }

    /// The link of the files.
    pub fn link(&self) -> &'a Link
        ensures link { result.now ≡ self.now.link }
        ensures clean { AreCleanLinked self.now }
    {
        self.linked.link()
    }
}
