//! The parts of a link: what files import, the names that they declare, and what their references
//! mean.

ghost use Rattle.std.specs.Prelude.{◌≡◌, map, IfOk};
ghost use Rattle.proto_names.specs.LinkOfParts.{link_of};
ghost use Rattle.proto_names_table.specs.Tables.{AreAlike, IsTable};

use crate::copying::{copied, copied_meanings, copied_sets};
use proto_base::NoMemory;
use proto_file_sets::FileSet;
use proto_names_affected::{FileMeanings, FirstWords};
use proto_names_imports::import::FileImport;
use proto_names_table::RefId;
use proto_names_table::table::Table;
use std::alloc::Global;

/// What files import, and which files each sees.
#[derive(Drop)]
pub(crate) struct ImportGraph {
    /// For each file, its imports, by the numbers of the files that they name.
    pub(crate) imports: Vec<Vec<FileImport>>,
    /// For each file, the files that it sees.
    pub(crate) seen: Vec<FileSet>,
}

/// The names that files declare.
#[derive(Drop)]
pub(crate) struct Declarations {
    pub(crate) table: Table,
    /// For each file, the rows of the names that it declares, its package first.
    pub(crate) rows: Vec<Vec<usize>>,
}

/// What the references of files mean.
#[derive(Drop)]
pub(crate) struct Resolutions {
    /// For each file, its references by their first tokens, which rise, with the keys of their
    /// first words and the rows of the names that they mean.
    pub(crate) meant: Vec<FileMeanings>,
    /// For each name, the references that mean it.
    pub(crate) references: Vec<Vec<RefId>>,
    /// Which files may have a reference that begins with a word.
    pub(crate) firsts: FirstWords,
}

/// The parts of a link.
#[derive(Drop)]
pub(crate) struct LinkParts {
    pub(crate) graph: ImportGraph,
    pub(crate) declarations: Declarations,
    pub(crate) resolutions: Resolutions,
}

impl ImportGraph {
    /// The same imports, and the same files seen. Fails only when out of memory.
    fn copy(&self, alloc: Global) -> Result<ImportGraph, NoMemory>
        ensures imports { IfOk result (λ copy. map (λ v. v.items) copy.imports.items
            ≡ map (λ v. v.items) self.now.imports.items) }
        ensures seen { IfOk result (λ copy. copy.seen.items
            ≡ self.now.seen.items) }
    {
        let imports = copied(alloc, &self.imports)?;
        let seen = copied_sets(alloc, &self.seen)?;
        Ok(ImportGraph { imports, seen })
    }
}

impl Declarations {
    /// The same names and rows. Fails only when out of memory.
    fn copy(&self, alloc: Global) -> Result<Declarations, NoMemory>
        ensures alike { IfOk result (λ copy. AreAlike self.now.table copy.table) }
        ensures table { IfOk result (λ copy. IsTable self.now.table → IsTable copy.table) }
        ensures rows { IfOk result (λ copy. map (λ v. v.items) copy.rows.items
            ≡ map (λ v. v.items) self.now.rows.items) }
    {
        let table = self.table.copy(alloc)?;
        let rows = copied(alloc, &self.rows)?;
        Ok(Declarations { table, rows })
    }
}

impl Resolutions {
    /// The same meanings and references. Fails only when out of memory.
    fn copy(&self, alloc: Global) -> Result<Resolutions, NoMemory>
        ensures meant { IfOk result (λ copy. map (λ v. v.items) copy.meant.items
            ≡ map (λ v. v.items) self.now.meant.items) }
        ensures references { IfOk result (λ copy. map (λ v. v.items) copy.references.items
            ≡ map (λ v. v.items) self.now.references.items) }
        ensures firsts { IfOk result (λ copy. copy.firsts ≡ self.now.firsts) }
    {
        let meant = copied_meanings(alloc, &self.meant)?;
        let references = copied(alloc, &self.references)?;
        let firsts = self.firsts.copy(alloc)?;
        Ok(Resolutions {
            meant,
            references,
            firsts,
        })
    }
}

impl LinkParts {
    /// Parts of the same link. Fails only when out of memory.
    pub(crate) fn copy(&self, alloc: Global) -> Result<LinkParts, NoMemory>
        ensures link { IfOk result (λ copy. link_of copy ≡ link_of self.now) }
        ensures table { IfOk result (λ copy.
            IsTable self.now.declarations.table → IsTable copy.declarations.table) }
        ensures firsts { IfOk result (λ copy.
            copy.resolutions.firsts ≡ self.now.resolutions.firsts) }
    {
        let graph = self.graph.copy(alloc)?;
        let declarations = self.declarations.copy(alloc)?;
        let resolutions = self.resolutions.copy(alloc)?;
        Ok(LinkParts {
            graph,
            declarations,
            resolutions,
        })
    }
}
