//! Linting.

ghost use Rattle.std.specs.Prelude.{◌≡◌, ◌<◌, List, length, map, IfOk};
ghost use Rattle.proto_files.specs.FilesRead.{ReadOf, AreRead};
ghost use Rattle.proto_names.specs.LinkOfFiles.{IsLinkOf};
ghost use Rattle.proto_lint_names.specs.Listings.{IsListingOf};
ghost use Rattle.proto_lint_names.specs.Views.{finding_of};
ghost use Rattle.proto_lint.specs.Findings.{file_finds, findings};
ghost use Rattle.proto_lint.specs.Linters.{IsLinter};

use crate::heads::Heads;
use crate::imports::{Imports, add_imports};
use crate::packages::add_head;
use proto_base::NoMemory;
use proto_files::Files;
use proto_lint_names::{
    FileFindings, Finding, LintFile, Messages, RuleSet, Walk, add_blocks, add_findings,
    messages_of, sorted_findings,
};
use proto_names::Link;
use proto_resolved::Linked;
use std::alloc::Global;

/// A workspace with what the rules look up in it.
#[derive(Drop)]
pub(crate) struct Linter<'a> {
    pub(crate) linked: &'a Linked<'a>,
    pub(crate) rules: &'a RuleSet,
    heads: Heads<'a>,
    pub(crate) imports: Imports,
    messages: Messages<'a>,
}

impl<'a> Linter<'a> {
    /// Looks up what the rules need to know of all files.
    fn new(
        alloc: Global,
        linked: &'a Linked<'a>,
        rules: &'a RuleSet,
    ) -> Result<Linter<'a>, NoMemory>
        ensures linter { IfOk result IsLinter }
        ensures linked { IfOk result (λ l. l.linked.now ≡ linked.now) }
        ensures rules { IfOk result (λ l. l.rules.now ≡ rules.now) }
    {
        let files = linked.files();
        let messages = messages_of(alloc, linked)?;
        let imports = Imports::new(alloc, files)?;
        // The heads come last: they are the dearest to drop.
        let heads = Heads::new(alloc, files)?;
        Ok(Linter {
            linked,
            rules,
            heads,
            imports,
            messages,
        })
    }

    /// What the rules find in a file.
    fn finds_in(&self, alloc: Global, file: u32) -> Result<FileFindings, NoMemory>
        requires linter { IsLinter self.now }
        requires file { file < length self.now.linked.now.files }
        ensures { IfOk result (λ found. (reads : List ReadOf)
            → AreRead self.now.linked.now.files reads
            → found ≡ file_finds self.now.rules.now.chosen self.now.linked.now.files reads file) }
    {
        let Linter {
            linked,
            rules,
            heads,
            messages,
            ..
        } = self;
        let files = linked.files();
        let reading = LintFile::of(linked, file);
        let mut found = FileFindings::new(alloc);
        add_head(&mut found, rules, heads, file)?;
        add_imports(alloc, &mut found, self, &reading)?;
        let walk = Walk {
            rules,
            reading: &reading,
            messages,
        };
        let scope = heads.get(file).package();
        add_blocks(alloc, &mut found, &walk, scope, files.tree(file))?;
        Ok(found)
    }

    /// What the rules find, file after file.
    fn findings(&self, alloc: Global) -> Result<Vec<Finding>, NoMemory>
        requires { IsLinter self.now }
        ensures { IfOk result (λ found. (reads : List ReadOf)
            → AreRead self.now.linked.now.files reads
            → map finding_of found.items
            ≡ findings self.now.rules.now.chosen self.now.linked.now.files reads) }
    {
        let mut all = Vec::new(alloc);
        let files = self.linked.files();
        for file in 0..self.linked.file_count() as u32 {
            let found = self.finds_in(alloc, file)?;
            add_findings(alloc, &mut all, files.path(file), found)?;
        }
        Ok(all)
    }
}

/// What the rules of the set find in linked files, in the order of path, offset, rule identifier
/// and name; each finding once.
pub fn lint(
    alloc: Global,
    files: &Files,
    link: &Link,
    rules: &RuleSet,
) -> Result<Vec<Finding>, NoMemory>
    requires { IsLinkOf files.now link.now }
    ensures { IfOk result (λ found. (reads : List ReadOf) → AreRead files.now reads
        → IsListingOf (findings rules.now.chosen files.now reads) (map finding_of found.items)) }
{
    let linked = Linked::new(files, link);
    let linter = Linter::new(alloc, &linked, rules)?;
    let found = linter.findings(alloc);
    // Dropped before `?`, which would be one more exit that drops it.
    drop(linter);
    Ok(sorted_findings(found?))
}
