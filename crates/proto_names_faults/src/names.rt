//! The names of files in a table.

ghost use Rattle.std.specs.Prelude.{List, IfOk};
ghost use Rattle.proto_files.specs.FilesRead.{AreRead, ReadOf};
ghost use Rattle.proto_names_imports.specs.Links.{AreListings};
ghost use Rattle.proto_names_faults.specs.NamesOfFiles.{AreFileRows, AreRowsOf};

use crate::listings::all_spelled;
use proto_base::NoMemory;
use proto_files::{Files, are_read};
use proto_names_outline::listing::Listing;
use proto_names_table::filling::{NameError, declare_all};
use proto_names_table::table::Table;
use std::alloc::Global;

/// The names of files, and for each file the rows of what it declares, its package first.
#[derive(Drop)]
pub(crate) struct Names {
    pub(crate) table: Table,
    pub(crate) rows: Vec<Vec<usize>>,
}

/// The names of files whose names do not clash. Fails only when out of memory; it answers out of
/// memory, too, where a name clashes.
pub(crate) fn names_of_files(
    alloc: Global,
    files: &Files,
    listings: &[Listing],
) -> Result<Names, NoMemory>
    requires { AreListings files.now listings.now }
    ensures rows { IfOk result (λ n. AreFileRows files.now listings.now n.table n.rows.items) }
    ensures names { IfOk result (λ n. (reads : List ReadOf)
        → AreRead files.now reads → AreRowsOf files.now reads n.table n.rows.items) }
{
    // The contracts of these say that each file is read, and that the files are those of a
    // workspace.
    are_read(files);
    let _count = files.len();
    let spelled = all_spelled(alloc, files, listings)?;
    match declare_all(alloc, &spelled) {
        Ok(names) => {
            let (table, rows) = names;
            Ok(Names { table, rows })
        }
        Err(NameError::Clash { .. }) => Err(NoMemory),
        Err(NameError::NoMemory) => Err(NoMemory),
    }
}
