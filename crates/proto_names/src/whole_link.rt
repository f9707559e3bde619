//! The link of files, from their trees.

ghost use Rattle.std.specs.Prelude.{◌≡◌, ◌≢◌, ℕ, ◌<◌, List, [], length, get_or, map, None, IfOk, IfErr, OnOk, OnErr};
ghost use Rattle.std.specs.List.{All};
ghost use Rattle.proto_files.specs.Faults.{HasNoFault};
ghost use Rattle.proto_base.specs.FaultTable.{kind_number as number_of_kind};
ghost use Rattle.proto_names_affected.specs.FirstWords.{AreFirstsOf};
ghost use Rattle.proto_names_rules.specs.Faults.{Fault as FaultAtToken, ReferenceFault};
ghost use Rattle.proto_names.specs.FileReferences.{AreFileMeant, flaw_number};
ghost use Rattle.proto_names_imports.specs.Importing.{all_imports, import_flaw_number};
ghost use Rattle.proto_names_imports.specs.LinkErrors.{IsLinkError};
ghost use Rattle.proto_names.specs.Following.{WasMadeOf, WereLinkAndMade};
ghost use Rattle.proto_names.specs.LinkOfFiles.{AreNamesOf, HasNoImportFault, HasNoNameFault, IsLinkOf};
ghost use Rattle.proto_names.specs.Linking.{all_meant, references_to};
ghost use Rattle.proto_names.specs.Replacing.{IsReplaceError};
ghost use Rattle.proto_names.specs.Sight.{AreLinkImports, IsSightOf};
ghost use Rattle.proto_names.specs.declared.whole_link.Renewal.TheVariants.{Done, Refused};
ghost use Rattle.proto_base.specs.declared.fault.SchemaFault.{SchemaFault as SchemaFaultOf};
ghost use Rattle.proto_names_update.specs.Relinked.{WasLink};
ghost use Rattle.proto_names_imports.specs.Links.{AreListings, LinkFaults, link_imports, link_skeleton, text_of};
ghost use Rattle.proto_files.specs.FilesRead.{AreRead, Each, ReadOf};
ghost use Rattle.proto_names_table.specs.Tables.{IsTable};
ghost use Rattle.proto_names_outline.specs.declared.listing.Listing.{Listing};

use crate::all_references::all_meanings;
use crate::backlinks::references_by_name;
use crate::link::Link;
use crate::link_log::LinkLog;
use crate::made::{Derived, Nothing};
use crate::parts::{Declarations, ImportGraph, LinkParts, Resolutions};
use crate::read_files::{all_spelled, all_written, listings};
use crate::references::{ReferenceError, ReferenceFlaw};
use proto_base::{FaultKind, SchemaFault};
use proto_files::{Files, all_paths, are_read, fault_at_token};
use proto_names_affected::FirstWords;
use proto_names_imports::import::{FileImport, ImportError, ImportFlaw, resolve_imports};
use proto_names_imports::sight::all_seen;
use proto_names_outline::listing::Listing;
use proto_names_table::filling::{NameError, declare_all};
use proto_names_update::NotUpdated;
use std::alloc::Global;
use std::mem;

/// The kind of the fault that an import has.
fn import_kind(flaw: ImportFlaw) -> FaultKind
    ensures { number_of_kind result ≡ import_flaw_number flaw }
{
    match flaw {
        ImportFlaw::Unknown => FaultKind::UnknownImport,
        ImportFlaw::Double => FaultKind::DoubleImport,
        ImportFlaw::Cycle => FaultKind::ImportCycle,
    }
}

/// The imports of each file, by the numbers of the files that they name; else the least fault.
fn linked_imports(alloc: Global, files: &Files) -> Result<Vec<Vec<FileImport>>, SchemaFault>
    ensures len { IfOk result (λ imports. length imports.items ≡ length files.now) }
    ensures within { IfOk result (λ imports. All
        (λ v. All (λ i. i.to < length files.now) v.items) imports.items) }
    ensures imports { IfOk result (λ imports. (reads : List ReadOf) → AreRead files.now reads
        → all_imports 0 (map (λ v. v.items) imports.items) ≡ link_imports files.now reads) }
    ensures clean { IfOk result (λ _. HasNoImportFault files.now) }
    ensures fault { IfErr result (IsLinkError files.now) }
{
    // The contracts of these say that each file is read, and that the files are those of a
    // workspace.
    are_read(files);
    files.len();
    let written = all_written(alloc, files)?;
    let paths = all_paths(alloc, files)?;
    match resolve_imports(alloc, &paths, &written) {
        Ok(imports) => Ok(imports),
        Err(ImportError::Fault(bad)) => {
            let kind = import_kind(bad.flaw);
            Err(fault_at_token(alloc, files, bad.file, bad.token, kind))
        }
        Err(ImportError::NoMemory) => Err(SchemaFault::NoMemory),
    }
}

/// What the files import, and what each of them sees; else the least fault of an import.
fn linked_graph(alloc: Global, files: &Files) -> Result<ImportGraph, SchemaFault>
    ensures imports { IfOk result (λ graph. (reads : List ReadOf) → AreRead files.now reads
        → AreLinkImports files.now reads (map (λ v. v.items) graph.imports.items)) }
    ensures sight { IfOk result (λ graph. (reads : List ReadOf) → AreRead files.now reads
        → IsSightOf files.now reads graph.seen.items) }
    ensures fault { IfErr result (IsLinkError files.now) }
{
    // Its contract says that there are at most 4,096.
    let _count = files.len();
    let imports = linked_imports(alloc, files)?;
    let seen = all_seen(alloc, &imports)?;
    Ok(ImportGraph { imports, seen })
}

/// The table of the names of the files, and for each file the rows of its declarations; else the
/// least clash of names.
fn linked_names(
    alloc: Global,
    files: &Files,
    listings: &[Listing],
) -> Result<Declarations, SchemaFault>
    requires listings { AreListings files.now listings.now }
    requires imports { HasNoImportFault files.now }
    ensures table { IfOk result (λ d. IsTable d.table) }
    ensures names { IfOk result (λ d. (reads : List ReadOf)
        → AreRead files.now reads → AreNamesOf files.now reads d.table d.rows.items) }
    ensures paired { IfOk result (λ d. length d.rows.items ≡ length files.now) }
    ensures rows { IfOk result (λ d. Each
        (λ k v. (l : Listing) → length v.items ≡ length (get_or listings.now k l).declared.items)
        d.rows.items) }
    ensures within { IfOk result
        (λ d. All (λ v. All (λ r. r < length d.table.rows.items) v.items) d.rows.items) }
    ensures clean { IfOk result (λ _. HasNoNameFault files.now) }
    ensures fault { IfErr result (IsLinkError files.now) }
{
    // The contracts of these say that each file is read, and that the files are those of a
    // workspace.
    are_read(files);
    let _count = files.len();
    let spelled = all_spelled(alloc, files, listings)?;
    match declare_all(alloc, &spelled) {
        Ok(names) => {
            let (table, rows) = names;
            Ok(Declarations { table, rows })
        }
        Err(NameError::Clash { file, token }) => {
            let kind = FaultKind::DuplicateName;
            Err(fault_at_token(alloc, files, file, token, kind))
        }
        Err(NameError::NoMemory) => Err(SchemaFault::NoMemory),
    }
}

/// The kind of the fault that a reference has.
fn reference_kind(flaw: ReferenceFlaw) -> FaultKind
    ensures { number_of_kind result ≡ flaw_number flaw }
{
    match flaw {
        ReferenceFlaw::Unresolved => FaultKind::Unresolved,
        ReferenceFlaw::WrongKind => FaultKind::WrongKind,
        ReferenceFlaw::MapEntry => FaultKind::MapEntryRef,
    }
}

/// What the references of each file mean, and the references to each name; else the least fault.
fn linked_references(
    alloc: Global,
    files: &Files,
    graph: &ImportGraph,
    declarations: &Declarations,
    listings: &[Listing],
) -> Result<Resolutions, SchemaFault>
    requires table { IsTable declarations.now.table }
    requires listings { AreListings files.now listings.now }
    requires sight { (reads : List ReadOf) → AreRead files.now reads
        → IsSightOf files.now reads graph.now.seen.items }
    requires paired { length declarations.now.rows.items ≡ length files.now }
    requires rows { Each (λ k v. (d : Listing)
        → length v.items ≡ length (get_or listings.now k d).declared.items)
        declarations.now.rows.items }
    requires within { All (λ v. All (λ r. r < length declarations.now.table.rows.items) v.items)
        declarations.now.rows.items }
    requires names { (reads : List ReadOf) → AreRead files.now reads
        → AreNamesOf files.now reads declarations.now.table declarations.now.rows.items }
    requires no_name_fault { HasNoNameFault files.now }
    ensures len { IfOk result (λ r. length r.meant.items ≡ length files.now) }
    ensures meant { IfOk result (λ r. (reads : List ReadOf) → AreRead files.now reads → (k : ℕ) → k
        < length files.now → AreFileMeant declarations.now.table files.now reads k
        (get_or (map (λ v. v.items) r.meant.items) k [])) }
    ensures paired { IfOk result (λ r.
        length r.references.items ≡ length declarations.now.table.rows.items) }
    ensures references { IfOk result (λ r. (row : ℕ)
        → get_or (map (λ v. v.items) r.references.items) row []
        ≡ references_to row (all_meant 0 (map (λ v. v.items) r.meant.items))) }
    ensures firsts { IfOk result
        (λ r. AreFirstsOf r.firsts (map (λ v. v.items) r.meant.items)) }
    ensures clean { IfOk result (λ _. (reads : List ReadOf) → AreRead files.now reads →
        (f : FaultAtToken) → ReferenceFault (text_of files.now reads)
        (link_skeleton files.now reads) f → ⊥) }
    ensures fault { IfErr result (IsLinkError files.now) }
{
    // The contracts of these say that each file is read, and that the files are those of a
    // workspace.
    are_read(files);
    let _count = files.len();
    match all_meanings(alloc, files, &graph.seen, declarations, listings) {
        Ok(meant) => {
            let names = declarations.table.rows.len();
            let references = references_by_name(alloc, names, &meant)?;
            let firsts = FirstWords::of(alloc, &meant)?;
            Ok(Resolutions {
                meant,
                references,
                firsts,
            })
        }
        Err(ReferenceError::Fault(bad)) => {
            let kind = reference_kind(bad.flaw);
            Err(fault_at_token(alloc, files, bad.file, bad.token, kind))
        }
        Err(ReferenceError::NoMemory) => Err(SchemaFault::NoMemory),
    }
}

/// How a link was changed in place.
#[derive(Drop)]
enum Renewal {
    /// It is that of the files.
    Done,
    /// It cannot be changed, and no link of the files can be made.
    Refused(SchemaFault),
    /// It has to be made anew.
    Rebuild,
}

impl Link {
    /// The link of the files, where their imports, names and references have no fault; else the
    /// least fault by phase, path, offset and number, or out of memory.
    pub fn new(alloc: Global, files: &Files) -> Result<Link, SchemaFault>
        ensures link { IfOk result (IsLinkOf files.now) }
        ensures clean { IfOk result (λ _. HasNoFault (LinkFaults files.now)) }
        ensures read { IfOk result (λ _. (reads : List ReadOf) × AreRead files.now reads) }
        ensures fault { IfErr result (IsLinkError files.now) }
    {
        // Each file has tokens and a tree, and there are at most 4,096.
        are_read(files);
        let _count = files.len();
        let graph = linked_graph(alloc, files)?;
        let listings = listings(alloc, files)?;
        let declarations = linked_names(alloc, files, &listings)?;
        let resolutions = linked_references(alloc, files, &graph, &declarations, &listings)?;
        Ok(Link::from_parts(LinkParts {
            graph,
            declarations,
            resolutions,
        }))
    }

    /// Changes this link to that of the files, which differ from those before at these places alone;
    /// those before had no fault of imports, names and references. It answers as `Link::new` of the
    /// files does; after a refusal it is as it was.
    pub fn replace(
        &mut self,
        alloc: Global,
        files: &Files,
        places: &[u32],
    ) -> Result<(), SchemaFault>
        requires places { All (λ place. place < length files.now) places.now }
        requires link { WasLink IsLinkOf files.now places.now self.old }
        ensures link { OnOk result (IsLinkOf files.now self.new) }
        ensures clean { IfOk result (λ _. HasNoFault (LinkFaults files.now)) }
        ensures fault { IfErr result (IsLinkError files.now) }
        ensures kept { OnErr result (self.new ≡ self.old) }
    {
        self.replace_with(alloc, files, places, &mut Nothing)
    }

    /// As `replace`, and has what is made of the link follow it. Where that is refused, the link is
    /// as it was, and so is what is made of it.
    pub fn replace_with<M: Derived>(
        &mut self,
        alloc: Global,
        files: &Files,
        places: &[u32],
        made: &mut M,
    ) -> Result<(), SchemaFault>
        requires places { All (λ place. place < length files.now) places.now }
        requires were { WereLinkAndMade M.IsMade files.now places.now self.old made.old }
        ensures link { OnOk result (IsLinkOf files.now self.new) }
        ensures clean { IfOk result (λ _. HasNoFault (LinkFaults files.now)) }
        ensures made { OnOk result (M.IsMade files.now made.new) }
        ensures fault { IfErr result (IsReplaceError M.IsRefused files.now) }
        ensures kept { OnErr result ((self.new ≡ self.old) × (made.new ≡ made.old)) }
    {
        match self.renew(alloc, files, places, made) {
            Renewal::Done => Ok(()),
            Renewal::Refused(fault) => Err(fault),
            Renewal::Rebuild => self.make_anew(alloc, files, places, made),
        }
    }

    /// Changes this link in place, and has what is made of it follow, if it does not give up.
    fn renew<M: Derived>(
        &mut self,
        alloc: Global,
        files: &Files,
        places: &[u32],
        made: &mut M,
    ) -> Renewal
        requires places { All (λ place. place < length files.now) places.now }
        requires were { WereLinkAndMade M.IsMade files.now places.now self.old made.old }
        ensures done { result ≡ Done → IsLinkOf files.now self.new
            × HasNoFault (LinkFaults files.now) × M.IsMade files.now made.new }
        ensures refused { (fault : SchemaFaultOf) → result ≡ Refused fault
            → IsReplaceError M.IsRefused files.now fault }
        ensures kept { result ≢ Done → (self.new ≡ self.old) × (made.new ≡ made.old) }
    {
        let mut log = LinkLog::new(alloc, &self.parts);
        let updated = self.parts.update(alloc, files, places, &mut log);
        let answer = match updated {
            Ok(affected) => match made.follow(alloc, files, self, places, Some(&affected)) {
                Ok(()) => return Renewal::Done,
                Err(fault) => Renewal::Refused(fault),
            },
            Err(NotUpdated::NeedsRebuild) => Renewal::Rebuild,
            Err(NotUpdated::NoMemory) => Renewal::Refused(SchemaFault::NoMemory),
        };
        self.parts.roll_back(log);
        answer
    }

    /// Makes the link of the files anew, and has what is made of it follow.
    fn make_anew<M: Derived>(
        &mut self,
        alloc: Global,
        files: &Files,
        places: &[u32],
        made: &mut M,
    ) -> Result<(), SchemaFault>
        requires places { All (λ place. place < length files.now) places.now }
        requires made { WasMadeOf M.IsMade files.now places.now None made.old }
        ensures link { OnOk result (IsLinkOf files.now self.new) }
        ensures clean { IfOk result (λ _. HasNoFault (LinkFaults files.now)) }
        ensures made { OnOk result (M.IsMade files.now made.new) }
        ensures fault { IfErr result (IsReplaceError M.IsRefused files.now) }
        ensures kept { OnErr result ((self.new ≡ self.old) × (made.new ≡ made.old)) }
    {
        let link = Link::new(alloc, files)?;
        match made.follow(alloc, files, &link, places, None) {
            Ok(()) => {
                mem::replace(self, link).release();
                Ok(())
            }
            Err(fault) => {
                link.release();
                Err(fault)
            }
        }
    }
}
