//! The imports of a workspace, and their rules.

ghost use Rattle.std.specs.Prelude.{◌≡◌, ◌↔◌, ◌++◌, ◌||◌, ℕ, ◌<◌, List, length, flat_map, map, true, option_map, option_to_list, IfOk, OnOk};
ghost use Rattle.std.specs.List.{All};
ghost use Rattle.proto_text.specs.Strings.{IsString};
ghost use Rattle.proto_text.specs.Texts.{word_at};
ghost use Rattle.proto_tree.specs.File.{item_tree, tree_of_file};
ghost use Rattle.proto_files.specs.GivenFiles.{paths_of};
ghost use Rattle.proto_names_rules.specs.Faults.{file_with_path};
ghost use Rattle.proto_names_rules.specs.Grown.{at};
ghost use Rattle.proto_names_outline.specs.FromTree.{imports_in as wanted_in};
ghost use Rattle.proto_names_outline.specs.Listing.{wanted_of};
ghost use Rattle.proto_names_imports.specs.ImportSteps.{IsFileIndex};
ghost use Rattle.proto_files.specs.FilesRead.{ReadOf, AreRead, Each, read_at};
ghost use Rattle.proto_names_imports.specs.Links.{link_imports, names_of_files, text_of};
ghost use Rattle.proto_lint_names.specs.Readings.{read_of_file, reading_of, word_in};
ghost use Rattle.proto_lint_names.specs.Placed.{found_by};
ghost use Rattle.proto_lint_rules.specs.Rules.{is_chosen};
ghost use Rattle.proto_lint_rules.specs.declared.rule.Rule.TheVariants as rule;
ghost use Rattle.proto_lint.specs.Imports.{ImportsOf, import_finds, import_no_public, import_used, imports_finds, import_statements_in};
ghost use Rattle.proto_lint.specs.ImportTables.{AreImportTablesOf, LeadsToMarked, MarksUsed, public_target, public_targets};

use crate::linting::Linter;
use crate::uses::used_files;
use indexmap::IndexMap;
use proto_base::NoMemory;
use proto_file_sets::FileSet;
use proto_files::{Files, Words, all_paths};
use proto_lint_names::{FileFindings, LintFile, Rule, RuleSet, Verdict};
use proto_names::are_read;
use proto_names_imports::first_places::{first_places, place_of};
use proto_names_imports::walk::reached_files;
use proto_names_outline::wanted;
use proto_names_outline::wanted::Wanted;
use proto_resolved::Linked;
use proto_text::string_value;
use proto_tree::{File, Import, Item};
use std::alloc::Global;
use std::marker::Model;

/// The files of a workspace by their paths, and for each file those that it imports publicly.
#[derive(Drop)]
pub struct Imports {
    files: IndexMap<String, u32>,
    public: Vec<Vec<u32>>,
}

/// The files by their paths.
fn files_by_path(alloc: Global, files: &Files) -> Result<IndexMap<String, u32>, NoMemory>
    ensures { IfOk result (λ index. IsFileIndex index (paths_of files.now)) }
{
    // There are at most 4,096 files.
    let _count = files.len();
    let paths = all_paths(alloc, files)?;
    let index = first_places(alloc, &paths)?;
    Ok(index)
}

/// The file that a public import names.
fn public_target(
    alloc: Global,
    index: &IndexMap<String, u32>,
    words: &Words,
    import: &Wanted,
) -> Result<Option<u32>, NoMemory>
    requires { IsString (word_at words.now import.now.path) }
    ensures { IfOk result (λ to. (paths : List (List ℕ)) → IsFileIndex index.now paths
        → to ≡ public_target paths (word_at words.now) (wanted_of import.now)) }
{
    if !import.is_public {
        return Ok(None);
    }
    let path = string_value(alloc, words.get(import.path))?;
    Ok(place_of(index, path.as_str()))
}

fn add(targets: &mut Vec<u32>, target: Option<u32>) -> Result<(), NoMemory>
    ensures { OnOk result (targets.new.items ≡ targets.old.items ++ option_to_list target) }
{
    if let Some(target) = target {
        targets.push(target)?;
    }
    Ok(())
}

/// The files that the public ones of these imports name.
fn public_targets(
    alloc: Global,
    index: &IndexMap<String, u32>,
    words: &Words,
    wanted: &[Wanted],
) -> Result<Vec<u32>, NoMemory>
    requires { All (λ w. IsString (word_at words.now w.path)) wanted.now }
    ensures { IfOk result (λ targets. (paths : List (List ℕ)) → IsFileIndex index.now paths
        → targets.items ≡ public_targets paths (word_at words.now) (map wanted_of wanted.now)) }
{
    let mut targets = Vec::new(alloc);
    for import in wanted {
        add(&mut targets, public_target(alloc, index, words, import)?)?;
    }
    Ok(targets)
}

/// The files that one file imports publicly.
fn public_of(
    alloc: Global,
    files: &Files,
    index: &IndexMap<String, u32>,
    file: u32,
) -> Result<Vec<u32>, NoMemory>
    requires { file < length files.now }
    ensures { IfOk result (λ public. (paths : List (List ℕ))
        → IsFileIndex index.now paths → (reads : List ReadOf) → AreRead files.now reads
        → public.items ≡ public_targets paths (λ i. text_of files.now reads (at file i))
        (wanted_in (read_at reads file).tree)) }
{
    let words = Words::new(files, file);
    let wanted = wanted::imports(alloc, files.tree(file))?;
    let public = public_targets(alloc, index, &words, &wanted)?;
    Ok(public)
}

/// For each file those that it imports publicly.
fn all_public(
    alloc: Global,
    files: &Files,
    index: &IndexMap<String, u32>,
) -> Result<Vec<Vec<u32>>, NoMemory>
    ensures len { IfOk result (λ public. length public.items ≡ length files.now) }
    ensures each { IfOk result (λ public. (paths : List (List ℕ))
        → IsFileIndex index.now paths → (reads : List ReadOf) → AreRead files.now reads
        → Each (λ k v. v.items ≡ public_targets paths (λ i. text_of files.now reads (at k i))
        (wanted_in (read_at reads k).tree)) public.items) }
{
    let mut public = Vec::new(alloc);
    for file in 0..files.len() as u32 {
        public.push(public_of(alloc, files, index, file)?)?;
    }
    Ok(public)
}

impl Imports {
    /// The imports of the files. Fails only when out of memory.
    pub fn new(alloc: Global, files: &Files) -> Result<Imports, NoMemory>
        ensures { IfOk result (AreImportTablesOf files.now) }
    {
        // Each file has tokens and a tree.
        are_read(files);
        let index = files_by_path(alloc, files)?;
        let public = all_public(alloc, files, &index)?;
        Ok(Imports {
            files: index,
            public,
        })
    }

    /// Whether public imports of any number lead from the file with this path to one of a set.
    fn leads(
        &self,
        alloc: Global,
        files: &Files,
        path: &str,
        set: &FileSet,
    ) -> Result<bool, NoMemory>
        requires imports { AreImportTablesOf files.now self.now }
        ensures { IfOk result (λ leads. (reads : List ReadOf) → AreRead files.now reads
            → (leads ≡ true) ↔ LeadsToMarked (link_imports files.now reads)
            (file_with_path (paths_of files.now) path.now) set.now) }
    {
        match place_of(&self.files, path) {
            Some(file) => {
                let seen = reached_files(alloc, &self.public, file)?;
                Ok(seen.intersects(set))
            }
            None => Ok(false),
        }
    }
}

// ---- the rules

fn add_import_no_public(
    alloc: Global,
    found: &mut FileFindings,
    rules: &RuleSet,
    reading: &LintFile,
    import: &Import,
) -> Result<(), NoMemory>
    requires { IsString (word_in (reading_of reading.now) import.now.path) }
    ensures { OnOk result (found.new ≡ found.old
        ++ found_by rules.now.chosen (reading_of reading.now) rule.ImportNoPublic
        (import_no_public (reading_of reading.now) import.now)) }
{
    let rule = Rule::ImportNoPublic;
    if rules.has(rule) && import.is_public() {
        let path = string_value(alloc, reading.text(import.path))?;
        found.add(rule, reading.offset(import.keyword), path.as_str())?;
    }
    Ok(())
}

fn import(item: &Item) -> Option<&Import>
    ensures { option_to_list (option_map (λ i. i.now) result) ≡ import_statements_in
        (item_tree item.now) }
{
    match item {
        Item::Import(import) => Some(import),
        _ => None,
    }
}

// Beside `imports` of proto_names_outline, which leaves out the keyword where findings stand.
/// The import statements of a file.
fn import_statements<'a>(alloc: Global, file: &'a File) -> Result<Vec<&'a Import>, NoMemory>
    ensures { IfOk result (λ imports. map (λ i. i.now) imports.items
        ≡ import_statements_in (tree_of_file file.now)) }
{
    let mut imports = Vec::new(alloc);
    for item in &file.items {
        if let Some(import) = import(item) {
            imports.push(import)?;
        }
    }
    Ok(imports)
}

/// The files that imports of a file are used for, if the rules ask for them.
fn files_used_for(
    alloc: Global,
    rules: &RuleSet,
    linked: &Linked<'_>,
    file: u32,
) -> Result<FileSet, NoMemory>
    requires { file < length linked.now.files }
    ensures { IfOk result (λ used. is_chosen rules.now.chosen rule.ImportUsed
        ≡ true → MarksUsed linked.now.files file used) }
{
    if rules.has(Rule::ImportUsed) {
        used_files(alloc, linked, file)
    } else {
        FileSet::new(alloc, 0)
    }
}

/// What the rules of imports know of a file: the workspace, the file as they read it, and the files
/// that its imports are used for, if the rules ask for them.
#[derive(Drop)]
struct FileImports<'a> {
    linter: &'a Linter<'a>,
    reading: &'a LintFile<'a>,
    used: FileSet,
}

impl<'a> Model for FileImports<'a> {
    ghost Value = { ImportsOf };

    ghost view = { λ i. record {
      rules = i.linter.now.rules.now.chosen;
      files = i.linter.now.linked.now.files;
      read = reading_of i.reading.now;
      file = i.reading.now.file;
    } };

    ghost invariant = { λ i. AreImportTablesOf i.linter.now.linked.now.files i.linter.now.imports
        × (is_chosen i.linter.now.rules.now.chosen rule.ImportUsed ≡ true
        → MarksUsed i.linter.now.linked.now.files i.reading.now.file i.used) };
}

impl<'a> FileImports<'a> {
    fn new(
        alloc: Global,
        linter: &'a Linter<'a>,
        reading: &'a LintFile<'a>,
    ) -> Result<FileImports<'a>, NoMemory>
        requires file { reading.now.file < length linter.now.linked.now.files }
        requires imports { AreImportTablesOf linter.now.linked.now.files linter.now.imports }
        ensures { IfOk result (λ i. i ≡ record {
          rules = linter.entry.now.rules.now.chosen;
          files = linter.entry.now.linked.now.files;
          read = reading_of reading.entry.now;
          file = reading.entry.now.file;
        }) }
    {
        let used = files_used_for(alloc, linter.rules, linter.linked, reading.file)?;
        Ok(FileImports {
            linter,
            reading,
            used,
        })
    }

    fn add_used(
        &self,
        alloc: Global,
        found: &mut FileFindings,
        import: &Import,
    ) -> Result<(), NoMemory>
        requires { IsString (word_in self.now.read import.now.path) }
        ensures { OnOk result ((reads : List ReadOf) → AreRead self.now.files reads
            → found.new ≡ found.old ++ found_by self.now.rules self.now.read rule.ImportUsed
            (import_used (names_of_files self.now.files reads) (paths_of self.now.files)
            self.now.read self.now.file import.now)) }
    {
        let FileImports {
            linter,
            reading,
            used,
        } = self;
        let rule = Rule::ImportUsed;
        if linter.rules.has(rule) && !import.is_public() {
            let path = string_value(alloc, reading.text(import.path))?;
            let passes = linter
                .imports
                .leads(alloc, linter.linked.files(), path.as_str(), used)?;
            found.add_unless(
                reading,
                Verdict { rule, passes },
                import.keyword,
                path.as_str(),
            )?;
        }
        Ok(())
    }

    fn add_import(
        &self,
        alloc: Global,
        found: &mut FileFindings,
        import: &Import,
    ) -> Result<(), NoMemory>
        requires { IsString (word_in self.now.read import.now.path) }
        ensures { OnOk result ((reads : List ReadOf) → AreRead self.now.files reads
            → found.new ≡ found.old ++ import_finds self.now.rules
            (names_of_files self.now.files reads) (paths_of self.now.files)
            self.now.read self.now.file import.now) }
    {
        add_import_no_public(alloc, found, self.linter.rules, self.reading, import)?;
        self.add_used(alloc, found, import)
    }

    fn add_statements(
        &self,
        alloc: Global,
        found: &mut FileFindings,
        statements: &[&Import],
    ) -> Result<(), NoMemory>
        requires { All (λ i. IsString (word_in self.now.read i.now.path)) statements.now }
        ensures { OnOk result ((reads : List ReadOf) → AreRead self.now.files reads
            → found.new ≡ found.old ++ flat_map (import_finds self.now.rules
            (names_of_files self.now.files reads) (paths_of self.now.files)
            self.now.read self.now.file) (map (λ i. i.now) statements.now)) }
    {
        for import in statements {
            self.add_import(alloc, found, import)?;
        }
        Ok(())
    }
}

/// Adds what the rules of imports find in the file that is read so. Fails only when out of memory.
pub fn add_imports(
    alloc: Global,
    found: &mut FileFindings,
    linter: &Linter,
    reading: &LintFile,
) -> Result<(), NoMemory>
    requires file { reading.now.file < length linter.now.linked.now.files }
    requires reading { (reads : List ReadOf) → AreRead linter.now.linked.now.files reads
        → reading_of reading.now ≡ read_of_file linter.now.linked.now.files reads reading.now.file }
    requires imports { AreImportTablesOf linter.now.linked.now.files linter.now.imports }
    ensures { OnOk result ((reads : List ReadOf) → AreRead linter.now.linked.now.files reads
        → found.new ≡ found.old ++ imports_finds linter.now.rules.now.chosen
        (names_of_files linter.now.linked.now.files reads) (paths_of linter.now.linked.now.files)
        (reading_of reading.now) reading.now.file
        (read_at reads reading.now.file).tree) }
{
    let files = linter.linked.files();
    let statements = import_statements(alloc, files.tree(reading.file))?;
    let imports = FileImports::new(alloc, linter, reading)?;
    imports.add_statements(alloc, found, &statements)
}
