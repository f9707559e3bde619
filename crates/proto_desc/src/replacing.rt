//! Files that compile: copies of them, and other texts for some of them.

ghost use Rattle.std.specs.Prelude.{◌≡◌, ◌+◌, ◌<◌, ◌≤◌, ◌^◌, length, map, All, AllPairs, IfOk, IfErr, OnOk, OnErr};
ghost use Rattle.proto_desc.specs.Opening.{IsOpenError};
ghost use Rattle.proto_desc.specs.Whole.{WorkspaceFaults};
ghost use Rattle.proto_edit_entries.specs.Putting.{with_texts};
ghost use Rattle.proto_files.specs.Faults.{HasNoFault};

use crate::new_texts::read_texts;
use crate::put_texts::{put_back, put_texts};
use crate::schema::Schema;
use proto_base::{NoMemory, SchemaFault};
use proto_files::are_read;
use proto_tree::Steps;
use std::alloc::Global;

impl Schema {
    /// A copy of the schemas. Fails only when out of memory.
    pub fn copy(&self, alloc: Global) -> Result<Schema, NoMemory>
        ensures { IfOk result (λ s. s ≡ self.now) }
    {
        let files = self.files.copy(alloc)?;
        let link = self.link.copy(alloc)?;
        let descriptors = self.descriptors.copy(alloc)?;
        Ok(Schema {
            files,
            link,
            descriptors,
        })
    }

    /// Gives the files at these places, which rise, these texts, where the files then compile; else
    /// their least fault by phase, path, offset and number, or out of memory, and nothing changes.
    /// Only these texts are read.
    pub fn replace(
        &mut self,
        alloc: Global,
        places: &[u32],
        texts: Vec<Vec<u8>>,
    ) -> Result<(), SchemaFault>
        requires places { All (λ place. place < length self.old) places.now }
        requires rising { AllPairs (λ a b. a < b) places.now }
        requires paired { length texts.items ≡ length places.now }
        ensures files { OnOk result
            (self.new ≡ with_texts self.old places.now (map (λ t. t.items) texts.items)) }
        ensures clean { IfOk result (λ _. HasNoFault (WorkspaceFaults
            (with_texts self.old places.now (map (λ t. t.items) texts.items)))) }
        ensures fault { IfErr result (IsOpenError
            (with_texts self.old places.now (map (λ t. t.items) texts.items))) }
        ensures kept { OnErr result (self.new ≡ self.old) }
    {
        self.replace_counted(alloc, places, texts, &mut Steps::new())
    }

    /// The same, and the count rises by one for each text that is parsed.
    pub fn replace_counted(
        &mut self,
        alloc: Global,
        places: &[u32],
        texts: Vec<Vec<u8>>,
        steps: &mut Steps,
    ) -> Result<(), SchemaFault>
        requires places { All (λ place. place < length self.old) places.now }
        requires rising { AllPairs (λ a b. a < b) places.now }
        requires paired { length texts.items ≡ length places.now }
        requires steps { steps.old ≤ 2 ^ 63 }
        ensures files { OnOk result
            (self.new ≡ with_texts self.old places.now (map (λ t. t.items) texts.items)) }
        ensures clean { IfOk result (λ _. HasNoFault (WorkspaceFaults
            (with_texts self.old places.now (map (λ t. t.items) texts.items)))) }
        ensures fault { IfErr result (IsOpenError
            (with_texts self.old places.now (map (λ t. t.items) texts.items))) }
        ensures kept { OnErr result (self.new ≡ self.old) }
        ensures counted { OnOk result (steps.new ≡ steps.old + length places.now) }
        ensures refused { OnErr result
            ((steps.old ≤ steps.new) × (steps.new ≤ steps.old + length places.now)) }
    {
        // Each file is read, of which the contract of this says it.
        are_read(&self.files);
        let read = read_texts(alloc, &self.files, places, texts, steps)?;
        let old = put_texts(alloc, &mut self.files, read)?;
        // The contract says that the files are those of a workspace and have no fault when read.
        let _count = self.files.len();
        let replaced = self
            .link
            .replace_with(alloc, &self.files, places, &mut self.descriptors);
        match replaced {
            Ok(()) => Ok(()),
            Err(fault) => {
                put_back(&mut self.files, old);
                Err(fault)
            }
        }
    }
}
