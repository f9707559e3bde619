//! A link that is changed in place to that of its files, once some of them are edited.

ghost use Rattle.std.specs.Prelude.{◌≡◌, ◌≢◌, ◌<◌, ℕ, Bool, List, [], true, length, get_or, map, IfOk, OnErr, OnOk};
ghost use Rattle.std.specs.Global.{Vec as VecOf};
ghost use Rattle.std.specs.List.{All};
ghost use Rattle.proto_files.specs.Faults.{HasNoFault};
ghost use Rattle.proto_files.specs.FilesRead.{AreRead, ReadOf};
ghost use Rattle.proto_names_imports.specs.Links.{LinkFaults};
ghost use Rattle.proto_names_imports.specs.declared.import.FileImport.{FileImport as FileImportOf};
ghost use Rattle.proto_base.specs.Undone.{AreWithin, undone};
ghost use Rattle.proto_names_update.specs.NamesOfFiles.{WereNames};
ghost use Rattle.proto_names_affected.specs.ChangedFiles.{AreChangesMarked, kind_rows_of};
ghost use Rattle.proto_names_affected.specs.FirstWords.{AreFirstsOf, FirstsStay};
ghost use Rattle.proto_names_affected.specs.Marking.{MarksStay};
ghost use Rattle.proto_names_affected.specs.Sight.{IsSightMarked};
ghost use Rattle.proto_names.specs.FileReferences.{AreFileMeant, IsFileLinked};
ghost use Rattle.proto_names.specs.Following.{TellWhatToLook};
ghost use Rattle.proto_names.specs.LinkOfFiles.{IsLinkOf};
ghost use Rattle.proto_names.specs.LinkOfParts.{link_of};
ghost use Rattle.proto_names.specs.Renewal.{AreMeantBelow, AreRowsRenewed, DeclarationsFit, IsSightRenewed, ResolutionsFit, link_of_parts, undone_declarations, undone_resolutions};
ghost use Rattle.proto_names.specs.Renewed.{AreMeantAgain};
ghost use Rattle.proto_names.specs.Sight.{AreLinkImports};
ghost use Rattle.proto_names_update.specs.Relinked.{WasLink};
ghost use Rattle.proto_names_table.specs.Tables.{IsTable};

use crate::all_references::file_meanings;
use crate::link_log::{DeclarationLog, LinkLog, NamesLog};
use crate::parts::{Declarations, LinkParts, Resolutions};
use crate::references::{Lookup, ReferenceError};
use proto_base::laws::added_are_cut;
use proto_base::{Change, NoMemory, change_all_at, change_at};
use proto_file_sets::FileSet;
use proto_files::{Files, are_read};
use proto_names_affected::FileMeanings;
use proto_names_affected::changed_files::{Linked, kind_rows_at, marks_of_changes};
use proto_names_affected::kind_rows::KindRow;
use proto_names_affected::renewed_references::{grow_references, renew_references};
use proto_names_affected::sight::{Sighted, mark_by_sight};
use proto_names_outline::file_listing::list_file;
use proto_names_table::RefId;
use proto_names_update::NotUpdated;
use proto_names_update::renewed_names::renew_names;
use std::alloc::Global;

/// Files of which some are edited, and what each of them sees.
#[derive(Clone, Copy)]
struct Edited<'a> {
    /// The files now.
    files: &'a Files,
    /// The places of those that are edited.
    places: &'a [u32],
    /// For each file, the files that it sees now.
    seen: &'a [FileSet],
    /// What the files saw that see others than before.
    saw: &'a [Change<FileSet>],
}

/// What references are resolved by: the files, what each sees, and what they declare.
#[derive(Clone, Copy)]
struct Resolver<'a> {
    files: &'a Files,
    /// For each file, the files that it sees.
    seen: &'a [FileSet],
    declarations: &'a Declarations,
}

impl Declarations {
    /// Puts the names of the edited files into the table, in place of those that they had, and
    /// notes their rows. Answers the rows that each edited file declared before, with their kinds;
    /// the link needs a rebuild where `renew_names` says so. Where it answers no rows, some names
    /// may be changed, and the log tells which.
    fn update(
        &mut self,
        alloc: Global,
        files: &Files,
        places: &[u32],
        log: &mut DeclarationLog,
    ) -> Result<Vec<Vec<KindRow>>, NotUpdated>
        requires table { IsTable self.old.table }
        requires fits { DeclarationsFit log.old self.old }
        requires places { All (λ place. place < length files.now) places.now }
        requires paired { length self.old.rows.items ≡ length files.now }
        requires within { All (λ v. All (λ row. row < length self.old.table.rows.items) v.items)
            self.old.rows.items }
        requires were { WereNames places.now files.now self.old.table
            (map (λ v. v.items) self.old.rows.items) }
        ensures table { IsTable self.new.table }
        ensures fits { DeclarationsFit log.new self.new }
        ensures undone { undone_declarations log.new self.new
            ≡ undone_declarations log.old self.old }
        ensures before { IfOk result (λ before. map (λ v. v.items) before.items
            ≡ map (kind_rows_of self.old.table (map (λ v. v.items) self.old.rows.items))
            places.now) }
        ensures renewed { OnOk result (AreRowsRenewed places.now files.now
            self.old.table self.new.table self.old.rows.items self.new.rows.items) }
    {
        let before = kind_rows_at(alloc, &self.table, places, &self.rows)?;
        let renewed = renew_names(
            alloc,
            &mut self.table,
            &mut log.table,
            files,
            places,
            &self.rows,
        )?;
        change_all_at(&mut self.rows, &mut log.rows, places, renewed)?;
        Ok(before)
    }
}

/// Resolves the references of one file again. Answers false where one is faulty. Fails only when
/// out of memory. Unless it answers true, nothing is changed.
fn resolve_file(
    alloc: Global,
    resolver: Resolver,
    file: u32,
    meant: &mut Vec<FileMeanings>,
    log: &mut Vec<Change<FileMeanings>>,
) -> Result<bool, NoMemory>
    requires table { IsTable resolver.declarations.now.table }
    requires file { file < length resolver.files.now }
    requires paired { length resolver.declarations.now.rows.items ≡ length resolver.files.now }
    requires meant { length meant.old.items ≡ length resolver.files.now }
    requires within { All (λ v. All
        (λ row. row < length resolver.declarations.now.table.rows.items) v.items)
        resolver.declarations.now.rows.items }
    requires linked { (reads : List ReadOf) → AreRead resolver.files.now reads
        → IsFileLinked resolver.declarations.now.table
        (get_or resolver.seen.now file [])
        (get_or (map (λ v. v.items) resolver.declarations.now.rows.items) file [])
        resolver.files.now reads file }
    ensures undone { undone log.new.items meant.new.items ≡ undone log.old.items meant.old.items }
    ensures within { AreWithin (length meant.old.items) log.old.items
        → AreWithin (length meant.old.items) log.new.items }
    ensures len { length meant.new.items ≡ length meant.old.items }
    ensures below { AreMeantBelow (length resolver.entry.declarations.now.table.rows.items)
        log.old.items meant.old.items
        → AreMeantBelow (length resolver.entry.declarations.now.table.rows.items)
        log.new.items meant.new.items }
    ensures meant { IfOk result (λ done. done ≡ true → (reads : List ReadOf)
        → AreRead resolver.entry.files.now reads
        → AreFileMeant resolver.entry.declarations.now.table resolver.entry.files.now reads file
        (get_or (map (λ v. v.items) meant.new.items) file [])) }
    ensures others { (other : ℕ) → other ≢ file
        → get_or (map (λ v. v.items) meant.new.items) other []
        ≡ get_or (map (λ v. v.items) meant.old.items) other [] }
{
    are_read(resolver.files);
    let listing = list_file(alloc, resolver.files.tree(file))?;
    let place = file as usize;
    let lookup = Lookup {
        file,
        table: &resolver.declarations.table,
        seen: &resolver.seen[place],
        rows: &resolver.declarations.rows[place],
    };
    match file_meanings(alloc, resolver.files, &lookup, &listing) {
        Ok(own) => {
            put_meanings(meant, log, place, own)?;
            Ok(true)
        }
        Err(ReferenceError::Fault(_bad)) => Ok(false),
        Err(ReferenceError::NoMemory) => Err(NoMemory),
    }
}

/// Puts what the references of a file mean now in place of what they meant; where it is the same,
/// nothing is changed. Fails only when out of memory; then nothing is changed either.
fn put_meanings(
    meant: &mut Vec<FileMeanings>,
    log: &mut Vec<Change<FileMeanings>>,
    place: usize,
    own: FileMeanings,
) -> Result<(), NoMemory>
    requires { place < length meant.old.items }
    ensures undone { undone log.new.items meant.new.items ≡ undone log.old.items meant.old.items }
    ensures within { AreWithin (length meant.old.items) log.old.items
        → AreWithin (length meant.old.items) log.new.items }
    ensures len { length meant.new.items ≡ length meant.old.items }
    ensures below { (count : ℕ) → All (λ m. m.row < count) own.items
        → AreMeantBelow count log.old.items meant.old.items
        → AreMeantBelow count log.new.items meant.new.items }
    ensures own { OnOk result
        (get_or (map (λ v. v.items) meant.new.items) place [] ≡ own.items) }
    ensures others { (other : ℕ) → other ≢ place
        → get_or (map (λ v. v.items) meant.new.items) other []
        ≡ get_or (map (λ v. v.items) meant.old.items) other [] }
    ensures kept { OnErr result
        ((meant.new.items ≡ meant.old.items) × (log.new.items ≡ log.old.items)) }
{
    if meant[place].is_same(&own) {
        return Ok(());
    }
    change_at(meant, log, place, own)?;
    Ok(())
}

/// Resolves the references of the affected files again. Answers false where one is faulty. Fails
/// only when out of memory. Where it does not answer true, some files may be resolved, and the log
/// tells which.
fn resolve_again(
    alloc: Global,
    resolver: Resolver,
    affected: &FileSet,
    meant: &mut Vec<FileMeanings>,
    log: &mut Vec<Change<FileMeanings>>,
) -> Result<bool, NoMemory>
    requires table { IsTable resolver.declarations.now.table }
    requires sized { length affected.now ≡ length resolver.files.now }
    requires paired { length resolver.declarations.now.rows.items ≡ length resolver.files.now }
    requires meant { length meant.old.items ≡ length resolver.files.now }
    requires within { All (λ v. All
        (λ row. row < length resolver.declarations.now.table.rows.items) v.items)
        resolver.declarations.now.rows.items }
    requires linked { (reads : List ReadOf) → AreRead resolver.files.now reads → (file : ℕ)
        → file < length resolver.files.now
        → IsFileLinked resolver.declarations.now.table
        (get_or resolver.seen.now file [])
        (get_or (map (λ v. v.items) resolver.declarations.now.rows.items) file [])
        resolver.files.now reads file }
    ensures undone { undone log.new.items meant.new.items ≡ undone log.old.items meant.old.items }
    ensures within { AreWithin (length meant.old.items) log.old.items
        → AreWithin (length meant.old.items) log.new.items }
    ensures len { length meant.new.items ≡ length meant.old.items }
    ensures below { AreMeantBelow (length resolver.entry.declarations.now.table.rows.items)
        log.old.items meant.old.items
        → AreMeantBelow (length resolver.entry.declarations.now.table.rows.items)
        log.new.items meant.new.items }
    ensures meant { IfOk result (λ done. done ≡ true → (reads : List ReadOf)
        → AreRead resolver.entry.files.now reads
        → AreMeantAgain affected.now resolver.entry.declarations.now.table resolver.entry.files.now
        reads (map (λ v. v.items) meant.old.items) (map (λ v. v.items) meant.new.items)) }
{
    are_read(resolver.files);
    // Its contract says that there are at most 4,096.
    let _count = resolver.files.len();
    let again = affected.files(alloc)?;
    for file in &again {
        if !resolve_file(alloc, resolver, *file, meant, log)? {
            return Ok(false);
        }
    }
    Ok(true)
}

/// Puts those of the files that see others than before into the set that have to be re-resolved for
/// that. Fails only when out of memory.
fn mark_others(
    alloc: Global,
    affected: &mut FileSet,
    edited: Edited,
    declarations: &Declarations,
    meant: &[FileMeanings],
) -> Result<(), NoMemory>
    requires table { IsTable declarations.now.table }
    requires others { All (λ c. c.place < length affected.old) edited.saw.now }
    requires rows { length declarations.now.rows.items ≡ length affected.old }
    requires meant { length meant.now ≡ length affected.old }
    requires seen { length edited.seen.now ≡ length affected.old }
    ensures stay { OnOk result (MarksStay affected.old affected.new) }
    ensures marked { OnOk result ((before : List (List Bool))
        → All (λ c. get_or before c.place [] ≡ c.was) edited.entry.saw.now
        → All (λ c. IsSightMarked affected.new declarations.now.table
        (map (λ v. v.items) declarations.now.rows.items) (map (λ v. v.items) meant.now)
        before edited.entry.seen.now c.place) edited.entry.saw.now) }
{
    let sighted = Sighted {
        table: &declarations.table,
        rows: &declarations.rows,
        meant,
        sees: edited.seen,
    };
    mark_by_sight(alloc, affected, sighted, edited.saw)
}

/// The files that have to be re-resolved, where the declarations are those of the edited files,
/// given the rows and kinds that each of these declared before. Fails only when out of memory.
fn affected_files(
    alloc: Global,
    edited: Edited,
    declarations: &Declarations,
    resolutions: &Resolutions,
    before: &[Vec<KindRow>],
) -> Result<FileSet, NoMemory>
    requires table { IsTable declarations.now.table }
    requires places { All (λ place. place < length edited.files.now) edited.places.now }
    requires others { All (λ c. c.place < length edited.files.now) edited.saw.now }
    requires before { length before.now ≡ length edited.places.now }
    requires rows { length declarations.now.rows.items ≡ length edited.files.now }
    requires meant { length resolutions.now.meant.items ≡ length edited.files.now }
    requires seen { length edited.seen.now ≡ length edited.files.now }
    requires references { All
        (λ v. All (λ r. r.file < length resolutions.now.meant.items) v.items)
        resolutions.now.references.items }
    requires firsts { AreFirstsOf resolutions.now.firsts
        (map (λ v. v.items) resolutions.now.meant.items) }
    ensures len { IfOk result (λ affected. length affected ≡ length edited.entry.files.now) }
    ensures changes { IfOk result (λ affected. AreChangesMarked declarations.now.table affected
        edited.entry.places.now (map (λ v. v.items) resolutions.now.references.items)
        (map (λ v. v.items) resolutions.now.meant.items) (map (λ v. v.items) before.now)
        (map (kind_rows_of declarations.now.table
        (map (λ v. v.items) declarations.now.rows.items)) edited.entry.places.now)) }
    ensures sight { IfOk result (λ affected. (saw : List (List Bool))
        → All (λ c. get_or saw c.place [] ≡ c.was) edited.entry.saw.now
        → All (λ c. IsSightMarked affected declarations.now.table
        (map (λ v. v.items) declarations.now.rows.items)
        (map (λ v. v.items) resolutions.now.meant.items)
        saw edited.entry.seen.now c.place) edited.entry.saw.now) }
{
    let now = kind_rows_at(
        alloc,
        &declarations.table,
        edited.places,
        &declarations.rows,
    )?;
    let linked = Linked {
        table: &declarations.table,
        references: &resolutions.references,
        meant: &resolutions.meant,
        firsts: &resolutions.firsts,
    };
    let mut affected = marks_of_changes(alloc, linked, edited.places, before, &now)?;
    mark_others(
        alloc,
        &mut affected,
        edited,
        declarations,
        &resolutions.meant,
    )?;
    Ok(affected)
}

/// Changes declarations and resolutions to those of the edited files, as far as they are other
/// ones, given what each file sees now. Answers the files that were re-resolved; the link needs a
/// rebuild where a file declares what calls for that, or a reference has a fault. Where it answers
/// no files, some may be changed, and the log tells which.
#[tactic(auto, using(proto_names_affected::proofs::WordSets::firsts_same))]
fn update_names(
    alloc: Global,
    edited: Edited,
    declarations: &mut Declarations,
    resolutions: &mut Resolutions,
    log: &mut NamesLog,
) -> Result<FileSet, NotUpdated>
    requires places { All (λ place. place < length edited.files.now) edited.places.now }
    requires others { All (λ c. c.place < length edited.files.now) edited.saw.now }
    requires was { All (λ c. get_or (undone edited.saw.now edited.seen.now) c.place [] ≡ c.was)
        edited.saw.now }
    requires table { IsTable declarations.old.table }
    requires paired { length resolutions.old.references.items
        ≡ length declarations.old.table.rows.items }
    requires renewed { IsSightRenewed edited.places.now edited.files.now declarations.old
        resolutions.old (undone edited.saw.now edited.seen.now) edited.seen.now
        (map (λ c. c.place) edited.saw.now) }
    requires declared { DeclarationsFit log.old.declarations declarations.old }
    requires resolved { ResolutionsFit log.old.resolutions resolutions.old }
    requires none { log.old.resolutions.meant.items ≡ [] }
    requires firsts { AreFirstsOf resolutions.old.firsts
        (map (λ v. v.items) resolutions.old.meant.items) }
    ensures table { IsTable declarations.new.table }
    ensures declared { DeclarationsFit log.new.declarations declarations.new }
    ensures resolved { ResolutionsFit log.new.resolutions resolutions.new }
    ensures undeclared { undone_declarations log.new.declarations declarations.new
        ≡ undone_declarations log.old.declarations declarations.old }
    ensures unresolved { undone_resolutions log.new.resolutions resolutions.new
        ≡ undone_resolutions log.old.resolutions resolutions.old }
    ensures firsts_stay { FirstsStay resolutions.old.firsts resolutions.new.firsts }
    ensures firsts { OnOk result (AreFirstsOf resolutions.new.firsts
        (map (λ v. v.items) resolutions.new.meant.items)) }
    ensures paired { OnOk result (length resolutions.new.references.items
        ≡ length declarations.new.table.rows.items) }
    ensures link { OnOk result ((imports : List (VecOf FileImportOf))
        → ((reads : List ReadOf) → AreRead edited.entry.files.now reads
        → AreLinkImports edited.entry.files.now reads (map (λ v. v.items) imports))
        → IsLinkOf edited.entry.files.now (link_of_parts declarations.new.table imports
        declarations.new.rows.items edited.entry.seen.now resolutions.new.meant.items
        resolutions.new.references.items)) }
    ensures clean { OnOk result (HasNoFault (LinkFaults edited.entry.files.now)) }
    ensures told { IfOk result (λ affected. (imports : List (VecOf FileImportOf))
        → TellWhatToLook edited.entry.places.now edited.entry.files.now (link_of_parts
        declarations.old.table imports declarations.old.rows.items
        (undone edited.entry.saw.now edited.entry.seen.now)
        resolutions.old.meant.items resolutions.old.references.items) affected) }
{
    let Edited { files, places, .. } = edited;
    are_read(files);
    let _count = files.len();
    added_are_cut::<Vec<RefId>>();
    let before = declarations.update(alloc, files, places, &mut log.declarations)?;
    let names = declarations.table.rows.len();
    grow_references(alloc, &mut resolutions.references, names)?;
    let affected = affected_files(alloc, edited, declarations, resolutions, &before)?;
    let resolver = Resolver {
        files,
        seen: edited.seen,
        declarations,
    };
    if !resolve_again(
        alloc,
        resolver,
        &affected,
        &mut resolutions.meant,
        &mut log.resolutions.meant,
    )? {
        return Err(NotUpdated::NeedsRebuild);
    }
    renew_references(
        alloc,
        &mut resolutions.references,
        &mut log.resolutions.references,
        &log.resolutions.meant,
        &resolutions.meant,
    )?;
    resolutions
        .firsts
        .add_changed(&log.resolutions.meant, &resolutions.meant);
    Ok(affected)
}

impl LinkParts {
    /// Changes the parts to those of the edited files, as far as they are other ones. Answers the
    /// files that were re-resolved; the link needs a rebuild where a file declares what calls for
    /// that, or an import or a reference has a fault. Where it answers no files, some of the parts
    /// may be changed, and the log tells which.
    #[tactic(auto, using(proto_names_affected::proofs::WordSets::firsts_same))]
    pub(crate) fn update(
        &mut self,
        alloc: Global,
        files: &Files,
        places: &[u32],
        log: &mut LinkLog,
    ) -> Result<FileSet, NotUpdated>
        requires places { All (λ place. place < length files.now) places.now }
        requires table { IsTable self.old.declarations.table }
        requires paired { length self.old.resolutions.references.items
            ≡ length self.old.declarations.table.rows.items }
        requires link { WasLink IsLinkOf files.now places.now (link_of self.old) }
        requires declared { DeclarationsFit log.old.names.declarations self.old.declarations }
        requires resolved { ResolutionsFit log.old.names.resolutions self.old.resolutions }
        requires none { log.old.names.resolutions.meant.items ≡ [] }
        requires no_imports { log.old.graph.imports.items ≡ [] }
        requires no_seen { log.old.graph.seen.items ≡ [] }
        requires firsts { AreFirstsOf self.old.resolutions.firsts
            (map (λ v. v.items) self.old.resolutions.meant.items) }
        ensures table { IsTable self.new.declarations.table }
        ensures declared { DeclarationsFit log.new.names.declarations self.new.declarations }
        ensures resolved { ResolutionsFit log.new.names.resolutions self.new.resolutions }
        ensures undeclared { undone_declarations log.new.names.declarations self.new.declarations
            ≡ undone_declarations log.old.names.declarations self.old.declarations }
        ensures unresolved { undone_resolutions log.new.names.resolutions self.new.resolutions
            ≡ undone_resolutions log.old.names.resolutions self.old.resolutions }
        ensures within { AreWithin (length self.new.graph.imports.items)
            log.new.graph.imports.items }
        ensures imports { undone log.new.graph.imports.items self.new.graph.imports.items
            ≡ self.old.graph.imports.items }
        ensures seen { undone log.new.graph.seen.items self.new.graph.seen.items
            ≡ self.old.graph.seen.items }
        ensures seen_within { AreWithin (length self.new.graph.seen.items)
            log.new.graph.seen.items }
        ensures firsts_stay { FirstsStay self.old.resolutions.firsts
            self.new.resolutions.firsts }
        ensures firsts { OnOk result (AreFirstsOf self.new.resolutions.firsts
            (map (λ v. v.items) self.new.resolutions.meant.items)) }
        ensures paired { OnOk result (length self.new.resolutions.references.items
            ≡ length self.new.declarations.table.rows.items) }
        ensures link { OnOk result (IsLinkOf files.now (link_of self.new)) }
        ensures clean { OnOk result (HasNoFault (LinkFaults files.now)) }
        ensures read { OnOk result ((reads : List ReadOf) × AreRead files.now reads) }
        ensures told { IfOk result (TellWhatToLook places.now files.now (link_of self.old)) }
    {
        are_read(files);
        self.graph.update(alloc, files, places, &mut log.graph)?;
        let edited = Edited {
            files,
            places,
            seen: &self.graph.seen,
            saw: &log.graph.seen,
        };
        update_names(
            alloc,
            edited,
            &mut self.declarations,
            &mut self.resolutions,
            &mut log.names,
        )
    }
}
