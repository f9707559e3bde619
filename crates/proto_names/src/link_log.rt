//! What was changed of the parts of a link, and how that is rolled back.

ghost use Rattle.std.specs.Prelude.{◌≡◌, [], length, take};
ghost use Rattle.proto_base.specs.Undone.{AreWithin, undone};
ghost use Rattle.proto_names_update.specs.NameLogs.{Fits, seen_of, undone_table};
ghost use Rattle.proto_names.specs.Renewal.{DeclarationsFit, ResolutionsFit};
ghost use Rattle.proto_names_table.specs.declared.table.Table.{Table as TableOf};
ghost use Rattle.proto_names_table.specs.Tables.{IsTable, IsUnchanged};

use crate::parts::{Declarations, ImportGraph, LinkParts, Resolutions};
use proto_base::{Change, roll_back};
use proto_file_sets::FileSet;
use proto_names_affected::FileMeanings;
use proto_names_affected::renewed_references::cut_references;
use proto_names_imports::import::FileImport;
use proto_names_table::RefId;
use proto_names_update::name_log::NameLog;
use std::alloc::Global;

/// What was changed of an import graph since the log began.
#[derive(Drop)]
pub(crate) struct GraphLog {
    /// Of the imports of each file.
    pub(crate) imports: Vec<Change<Vec<FileImport>>>,
    /// Of what each file sees.
    pub(crate) seen: Vec<Change<FileSet>>,
}

/// What was changed of declarations since the log began.
#[derive(Drop)]
pub(crate) struct DeclarationLog {
    /// Of the table of names.
    pub(crate) table: NameLog,
    /// Of the rows of each file's declarations.
    pub(crate) rows: Vec<Change<Vec<usize>>>,
}

/// What was changed of resolutions since the log began.
#[derive(Drop)]
pub(crate) struct ResolutionLog {
    /// Of what the references of each file mean.
    pub(crate) meant: Vec<Change<FileMeanings>>,
    /// Of the references to each name.
    pub(crate) references: Vec<Change<Vec<RefId>>>,
    /// How many lists of references there were.
    pub(crate) count: usize,
}

/// What was changed of declarations and resolutions since the log began.
#[derive(Drop)]
pub(crate) struct NamesLog {
    pub(crate) declarations: DeclarationLog,
    pub(crate) resolutions: ResolutionLog,
}

/// What was changed of the parts of a link since the log began.
#[derive(Drop)]
pub(crate) struct LinkLog {
    pub(crate) graph: GraphLog,
    pub(crate) names: NamesLog,
}

impl LinkLog {
    /// A log of no changes of these parts. Takes no memory.
    pub(crate) fn new(alloc: Global, parts: &LinkParts) -> LinkLog
        requires { IsTable parts.now.declarations.table }
        ensures imports { result.graph.imports.items ≡ [] }
        ensures seen { result.graph.seen.items ≡ [] }
        ensures table { undone_table result.names.declarations.table parts.now.declarations.table
            ≡ seen_of parts.now.declarations.table }
        ensures fits { Fits result.names.declarations.table parts.now.declarations.table }
        ensures rows { result.names.declarations.rows.items ≡ [] }
        ensures meant { result.names.resolutions.meant.items ≡ [] }
        ensures references { result.names.resolutions.references.items ≡ [] }
        ensures count { result.names.resolutions.count
            ≡ length parts.now.resolutions.references.items }
    {
        LinkLog {
            graph: GraphLog {
                imports: Vec::new(alloc),
                seen: Vec::new(alloc),
            },
            names: NamesLog {
                declarations: DeclarationLog {
                    table: NameLog::new(alloc, &parts.declarations.table),
                    rows: Vec::new(alloc),
                },
                resolutions: ResolutionLog {
                    meant: Vec::new(alloc),
                    references: Vec::new(alloc),
                    count: parts.resolutions.references.len(),
                },
            },
        }
    }
}

impl ImportGraph {
    /// Rolls back what the log has. Takes no memory.
    fn roll_back(&mut self, log: GraphLog)
        requires imports { AreWithin (length self.old.imports.items) log.imports.items }
        requires seen { AreWithin (length self.old.seen.items) log.seen.items }
        ensures imports { self.new.imports.items ≡ undone log.imports.items self.old.imports.items }
        ensures seen { self.new.seen.items ≡ undone log.seen.items self.old.seen.items }
    {
        let GraphLog {
            mut imports,
            mut seen,
        } = log;
        roll_back(&mut self.imports, &mut imports);
        roll_back(&mut self.seen, &mut seen);
    }
}

impl Declarations {
    /// Rolls back what the log has. Takes no memory.
    fn roll_back(&mut self, mut log: DeclarationLog)
        requires { DeclarationsFit log self.old }
        ensures unchanged { (was : TableOf) → undone_table log.table self.old.table ≡ seen_of was
            → IsUnchanged was self.new.table }
        ensures table { (was : TableOf) → undone_table log.table self.old.table ≡ seen_of was
            → IsTable was → IsTable self.new.table }
        ensures rows { self.new.rows.items ≡ undone log.rows.items self.old.rows.items }
    {
        roll_back(&mut self.rows, &mut log.rows);
        log.table.take_back(&mut self.table);
    }
}

impl Resolutions {
    /// Rolls back what the log has. Takes no memory.
    fn roll_back(&mut self, mut log: ResolutionLog)
        requires { ResolutionsFit log self.old }
        ensures meant { self.new.meant.items ≡ undone log.meant.items self.old.meant.items }
        ensures references { self.new.references.items
            ≡ take log.count (undone log.references.items self.old.references.items) }
        ensures firsts { self.new.firsts ≡ self.old.firsts }
    {
        roll_back(&mut self.references, &mut log.references);
        cut_references(&mut self.references, log.count);
        roll_back(&mut self.meant, &mut log.meant);
    }
}

impl LinkParts {
    /// Rolls back what the log has: the parts are as they were when it began. Takes no memory.
    pub(crate) fn roll_back(&mut self, log: LinkLog)
        requires imports { AreWithin (length self.old.graph.imports.items) log.graph.imports.items }
        requires seen { AreWithin (length self.old.graph.seen.items) log.graph.seen.items }
        requires declarations { DeclarationsFit log.names.declarations self.old.declarations }
        requires resolutions { ResolutionsFit log.names.resolutions self.old.resolutions }
        ensures unchanged { (was : TableOf)
            → undone_table log.names.declarations.table self.old.declarations.table ≡ seen_of was
            → IsUnchanged was self.new.declarations.table }
        ensures table { (was : TableOf)
            → undone_table log.names.declarations.table self.old.declarations.table ≡ seen_of was
            → IsTable was → IsTable self.new.declarations.table }
        ensures imports { self.new.graph.imports.items
            ≡ undone log.graph.imports.items self.old.graph.imports.items }
        ensures rows { self.new.declarations.rows.items
            ≡ undone log.names.declarations.rows.items self.old.declarations.rows.items }
        ensures seen { self.new.graph.seen.items
            ≡ undone log.graph.seen.items self.old.graph.seen.items }
        ensures meant { self.new.resolutions.meant.items
            ≡ undone log.names.resolutions.meant.items self.old.resolutions.meant.items }
        ensures references { self.new.resolutions.references.items
            ≡ take log.names.resolutions.count
            (undone log.names.resolutions.references.items self.old.resolutions.references.items) }
        ensures firsts { self.new.resolutions.firsts ≡ self.old.resolutions.firsts }
    {
        self.graph.roll_back(log.graph);
        self.declarations.roll_back(log.names.declarations);
        self.resolutions.roll_back(log.names.resolutions);
    }
}
