//! What rules find.

ghost use Rattle.std.specs.Prelude.{◌≡◌, ◌++◌, map, OnOk};
ghost use Rattle.proto_lint_names.specs.Listings.{IsListingOf, found_in};
ghost use Rattle.proto_lint_names.specs.Views.{finding_of};

use crate::found::{FileFindings, Found};
use proto_base::NoMemory;
use proto_lint_rules::Rule;
use std::alloc::Global;
use std::fmt;

/// What a rule found: the path of the file, the offset in bytes from 0, the rule, and the name that
/// is printed.
#[derive(Debug, PartialEq, Eq, PartialOrd, Ord, Drop)]
pub struct Finding {
    pub path: String,
    pub offset: u32,
    pub rule: Rule,
    pub name: String,
}

impl fmt::Display for Finding {
    fn fmt<W: fmt::Write>(&self, f: &mut fmt::Formatter<W>) -> fmt::Result {
        write!(
            f,
            "{} {}: {}: byte {}",
            self.rule, self.name, self.path, self.offset
        )
    }
}

/// The findings in the order of path, offset, rule and name, each once. Takes no memory.
pub fn sorted_findings(mut found: Vec<Finding>) -> Vec<Finding>
    ensures { IsListingOf (map finding_of found.items) (map finding_of result.items) }
{
    found.sort_unstable();
    found.dedup();
    found
}

/// Adds what was found in the file at a path. Fails only when out of memory.
pub fn add_findings(
    alloc: Global,
    all: &mut Vec<Finding>,
    path: &str,
    found: FileFindings,
) -> Result<(), NoMemory>
    ensures { OnOk result (map finding_of all.new.items
        ≡ map finding_of all.old.items ++ map (found_in path.now) found) }
{
    for Found { offset, rule, name } in found.into_vec() {
        let path = String::from_str(alloc, path)?;
        all.push(Finding {
            path,
            offset,
            rule,
            name,
        })?;
    }
    Ok(())
}
