//! What an edit would change, and other texts in place of those of files.

ghost use Rattle.std.specs.Prelude.{◌≡◌, ◌<◌, List, length, map, IfOk, IfErr, OnOk, OnErr};
ghost use Rattle.std.specs.List.{All, AllPairs};
ghost use Rattle.proto_desc.specs.Opening.{IsOpenError};
ghost use Rattle.proto_desc.specs.Whole.{WorkspaceFaults};
ghost use Rattle.proto_edit.specs.Answers.{asked};
ghost use Rattle.proto_edit.specs.Workspaces.{IsMappedStep, IsRefusal};
ghost use Rattle.proto_edit_entries.specs.Putting.{with_texts};
ghost use Rattle.proto_files.specs.Faults.{HasNoFault};
ghost use Rattle.proto_files.specs.GivenFiles.{FileOf};

use crate::laws::statements_are_known;
use crate::workspace::Workspace;
use proto_base::SchemaFault;
use proto_edit_entries::{Edit, Entry, Refusal};
use proto_tree::Steps;
use std::alloc::Global;

impl Workspace {
    /// What an edit would change, where it is admissible; else the least case that refuses it, or
    /// out of memory. No file is copied or read again.
    pub fn answer(&self, alloc: Global, edit: &Edit) -> Result<Entry, Refusal>
        ensures ok { IfOk result (λ entry. (after : List FileOf)
            × IsMappedStep self.now (asked edit.now) entry after) }
        ensures err { IfErr result (IsRefusal self.now (asked edit.now)) }
    {
        // The files compile, so what is admissible can be made.
        statements_are_known();
        self.files();
        let entry = self.entry_of(alloc, edit)?;
        Ok(entry)
    }

    /// Gives the files at these places, which rise, these texts, where all files then compile; else
    /// their least fault by phase, path, offset and number, or out of memory, and the workspace is
    /// unchanged.
    pub fn replace(
        &mut self,
        alloc: Global,
        places: &[u32],
        texts: Vec<Vec<u8>>,
    ) -> Result<(), SchemaFault>
        requires places { All (λ place. place < length self.old) places.now }
        requires rising { AllPairs (λ a b. a < b) places.now }
        requires paired { length texts.items ≡ length places.now }
        ensures files { OnOk result
            (self.new ≡ with_texts self.old places.now (map (λ t. t.items) texts.items)) }
        ensures clean { IfOk result (λ _. HasNoFault (WorkspaceFaults
            (with_texts self.old places.now (map (λ t. t.items) texts.items)))) }
        ensures fault { IfErr result (IsOpenError
            (with_texts self.old places.now (map (λ t. t.items) texts.items))) }
        ensures kept { OnErr result (self.new ≡ self.old) }
    {
        self.replace_counted(alloc, places, texts, &mut Steps::new())
    }
}
