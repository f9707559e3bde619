//! The cases of options that refuse a rename: a word that may name it, and fixed names.

ghost use Rattle.std.specs.Prelude.{◌≡◌, ◌↔◌, ◌<◌, ◌++◌, [], ◌∷◌, List, ℕ, length, true, string_bytes, IsTrue, IfOk, IfErr};
ghost use Rattle.proto_files.specs.FilesRead.{AreRead, ReadOf};
ghost use Rattle.proto_names_imports.specs.Links.{text_of};
ghost use Rattle.proto_names_rules.specs.Grown.{at};
ghost use Rattle.proto_names_rules.specs.Joined.{joined};
ghost use Rattle.proto_text.specs.Words.{is_run};
ghost use Rattle.proto_edit_rules.specs.Options.{is_named_in_values};
ghost use Rattle.proto_edit_rules.specs.Rename.{IsValueWord, NamesOptions, Target, name_map};
ghost use Rattle.proto_option_files.specs.OptionFiles.{AreOptionFiles};
ghost use Rattle.proto_option_values.specs.OptionValues.{IsOptionValue};
ghost use Rattle.proto_edit_captures.specs.FoundTargets.{IsTargetOf, IsFoundTarget};
ghost use Rattle.proto_edit_rename.specs.Cases.{IsFreeBefore};
ghost use Rattle.proto_edit_rename.specs.Renames.{IsRenameCase, IsRenameRefusal};

use proto_base::NoMemory;
use proto_edit_captures::{RenameTarget, beside, front};
use proto_edit_entries::Refusal;
use proto_files::{Files, Words};
use proto_names_rules::Kind;
use proto_option_files::OptionFiles;
use proto_option_values::{OptionWords, has_written, is_fixed, option_value};
use proto_resolved::CleanLinked;
use std::alloc::Global;

/// Whether names of this kind may stand in the path or the value of an option.
fn is_named_in_values(kind: Kind) -> bool
    ensures { result ≡ is_named_in_values kind }
{
    matches!(kind, Kind::Field | Kind::Value)
}

/// The simple name of the target.
fn own_word<'a>(files: &'a Files, target: RenameTarget) -> &'a str
    requires { target.file < length files.now }
    ensures { (reads : List ReadOf) → AreRead files.entry.now reads
        → result.now ≡ text_of files.entry.now reads (at target.entry.file target.entry.token) }
{
    Words::new(files, target.file).get(target.token)
}

// ---- case 19

/// The refusal for the first word of an option that may stand for the target, under its old or its
/// new name; none where there is none.
fn value_refusal<'a>(
    alloc: Global,
    linked: &CleanLinked<'a>,
    index: &OptionFiles,
    target: RenameTarget<'a>,
    to: &'a str,
) -> Result<Option<Refusal>, NoMemory>
    requires index { AreOptionFiles linked.now.files index.now }
    requires target { IsTargetOf linked.now.files target }
    requires file { target.file < length linked.now.files }
    ensures { IfOk result (λ refusal. (reads : List ReadOf) → AreRead linked.now.files reads
        → (t : Target) → IsFoundTarget linked.now.files reads target.entry t
        → IsOptionValue linked.now.files reads
        (IsValueWord linked.now.files reads t to.entry.now) refusal) }
{
    let files = linked.files();
    if !is_named_in_values(target.kind) {
        return Ok(None);
    }
    let words = OptionWords {
        old: own_word(files, target),
        new: Some(to),
    };
    option_value(alloc, linked, index, target.file, words)
}

/// Case 19: no word of an option may stand for the target.
pub(crate) fn check_values<'a>(
    alloc: Global,
    linked: &CleanLinked<'a>,
    index: &OptionFiles,
    target: RenameTarget<'a>,
    to: &'a str,
) -> Result<(), Refusal>
    requires index { AreOptionFiles linked.now.files index.now }
    requires target { IsTargetOf linked.now.files target }
    requires file { target.file < length linked.now.files }
    requires before { IsFreeBefore linked.now.files target.name.now to.now 19 }
    ensures free { IfOk result (λ _.
        IsFreeBefore linked.now.files target.entry.name.now to.entry.now 20) }
    ensures err { IfErr result
        (IsRenameRefusal linked.now.files target.entry.name.now to.entry.now) }
{
    linked.files();
    match value_refusal(alloc, linked, index, target, to)? {
        None => Ok(()),
        Some(refusal) => Err(refusal),
    }
}

// ---- case 20

/// The full name that the target gets.
fn new_name(
    alloc: Global,
    linked: &CleanLinked<'_>,
    target: RenameTarget,
    to: &str,
) -> Result<String, NoMemory>
    requires target { IsTargetOf linked.now.files target }
    requires file { target.file < length linked.now.files }
    ensures { IfOk result (λ name. (reads : List ReadOf) → AreRead linked.now.files reads
        → (t : Target) → IsFoundTarget linked.now.files reads target.entry t
        → joined ((name_map linked.now.files reads t to.now).parent ++ to.now ∷ [])
        ≡ string_bytes name) }
{
    let own = own_word(linked.files(), target);
    beside(alloc, front(target.name, own), to)
}

/// Whether the old or the new full name is that of an options message, or of what is in one or
/// around it, where some file is as written.
fn names_options(
    alloc: Global,
    linked: &CleanLinked<'_>,
    target: RenameTarget,
    to: &str,
) -> Result<bool, NoMemory>
    requires target { IsTargetOf linked.now.files target }
    requires file { target.file < length linked.now.files }
    requires word { is_run to.now ≡ true }
    ensures { IfOk result (λ is. (reads : List ReadOf) → AreRead linked.now.files reads
        → (t : Target) → IsFoundTarget linked.now.files reads target.entry t
        → IsTrue is ↔ NamesOptions linked.now.files reads t to.now) }
{
    if !has_written(linked.files()) {
        return Ok(false);
    }
    if is_fixed(target.name) {
        return Ok(true);
    }
    let name = new_name(alloc, linked, target, to)?;
    Ok(is_fixed(name.as_str()))
}

/// Case 20: the target has and gets no name by which options are looked up.
pub(crate) fn check_fixed(
    alloc: Global,
    linked: &CleanLinked<'_>,
    target: RenameTarget,
    to: &str,
) -> Result<(), Refusal>
    requires target { IsTargetOf linked.now.files target }
    requires file { target.file < length linked.now.files }
    requires word { is_run to.now ≡ true }
    requires before { IsFreeBefore linked.now.files target.name.now to.now 20 }
    ensures free { IfOk result (λ _. (n : ℕ)
        → IsRenameCase linked.now.files target.entry.name.now to.now n → ⊥) }
    ensures err { IfErr result (IsRenameRefusal linked.now.files target.entry.name.now to.now) }
{
    linked.files();
    if names_options(alloc, linked, target, to)? {
        return Err(Refusal::FixedName);
    }
    Ok(())
}
