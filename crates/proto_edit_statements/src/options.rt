//! Cases 19 and 20 of a deletion: what options may see of the field.

ghost use Rattle.std.specs.Prelude.{◌<◌, ℕ, List, IfOk, IfErr};
ghost use Rattle.proto_files.specs.FilesRead.{ReadOf, AreRead};
ghost use Rattle.proto_edit_statements.specs.Edits.{IsDeletionCase, IsDeletionRefusal};
ghost use Rattle.proto_edit_statements.specs.Fields.{IsFieldToken};
ghost use Rattle.proto_option_files.specs.OptionFiles.{AreOptionFiles};

use crate::deleting::FieldName;
use proto_edit_entries::Refusal;
use proto_files::Words;
use proto_option_files::OptionFiles;
use proto_option_values::{OptionWords, has_written, is_fixed, option_value};
use proto_resolved::CleanLinked;
use std::alloc::Global;

/// Case 19: no word of an option may stand for the field.
pub(crate) fn check_values(
    alloc: Global,
    linked: &CleanLinked<'_>,
    index: &OptionFiles,
    name: &str,
    field: FieldName,
) -> Result<(), Refusal>
    requires index { AreOptionFiles linked.now.files index.now }
    requires field { (reads : List ReadOf)
        → AreRead linked.now.files reads → IsFieldToken linked.now.files reads name.now field }
    requires before { (n : ℕ) → n < 17 → IsDeletionCase linked.now.files name.now n → ⊥ }
    ensures free { IfOk result (λ _. (n : ℕ) → n < 20
        → IsDeletionCase linked.now.files name.now n → ⊥) }
    ensures err { IfErr result (IsDeletionRefusal linked.now.files name.now) }
{
    let files = linked.files();
    let words = Words::new(files, field.file);
    let old = words.get(field.token);
    let asked = OptionWords { old, new: None };
    match option_value(alloc, linked, index, field.file, asked)? {
        Some(refusal) => Err(refusal),
        None => Ok(()),
    }
}

/// Case 20: the field is none of an options message, or no file is as written.
pub(crate) fn check_fixed(linked: &CleanLinked<'_>, name: &str) -> Result<(), Refusal>
    requires before { (n : ℕ) → n < 20 → IsDeletionCase linked.now.files name.now n → ⊥ }
    ensures free { IfOk result (λ _. (n : ℕ) → IsDeletionCase linked.now.files name.now n → ⊥) }
    ensures err { IfErr result (IsDeletionRefusal linked.now.files name.now) }
{
    let files = linked.files();
    if is_fixed(name) && has_written(files) {
        return Err(Refusal::FixedName);
    }
    Ok(())
}
