//! A field deleted.

ghost use Rattle.std.specs.Prelude.{◌≡◌, ◌<◌, ◌≤◌, ℕ, suc, List, length, map, IfOk, IfErr, string_bytes};
ghost use Rattle.proto_edit_entries.specs.Entries.{change_of};
ghost use Rattle.proto_files.specs.Faults.{HasNoFault};
ghost use Rattle.proto_files.specs.FilesRead.{ReadOf, AreRead};
ghost use Rattle.proto_names_imports.specs.Links.{LinkFaults};
ghost use Rattle.proto_edit_statements.specs.Edits.{HaveSmallNumbers, HasDeletionChanges, IsDeletionCase, IsDeletionRefusal};
ghost use Rattle.proto_files.specs.GivenFiles.{file_at};
ghost use Rattle.proto_edit_statements.specs.Fields.{IsFieldToken, IsPlaceOfField, StandsInOrder, is_field, last_replaced, text_by};
ghost use Rattle.proto_text.specs.Segments.{bytes_between, end_before};
ghost use Rattle.proto_text.specs.Texts.{offset_at};
ghost use Rattle.proto_text.specs.Tokens.{AreTokens};
ghost use Rattle.proto_text.specs.declared.lexer.Token.{Token};
ghost use Rattle.proto_edit_rules.specs.DeleteField.{reservation_text};
ghost use Rattle.proto_edit_statements.specs.Spliced.{AreChangesOfDeletion, IsChangeOfDeletion};
ghost use Rattle.proto_option_files.specs.OptionFiles.{AreOptionFiles};

use crate::alone::is_alone;
use crate::fields::{FieldPlace, field_at};
use crate::only::only;
use crate::options::{check_fixed, check_values};
use crate::splicing::splice_change;
use proto_ast::number_of;
use proto_base::NoMemory;
use proto_edit_entries::{Change, Refusal};
use proto_edit_statement_laws::laws::statements_are_one;
use proto_files::{Files, Words, are_read};
use proto_names_rules::Kind;
use proto_option_files::OptionFiles;
use proto_resolved::CleanLinked;
use proto_text::Span;
use std::alloc::Global;

/// A field: its file, and the token of its name.
#[derive(Clone, Copy)]
pub(crate) struct FieldName {
    pub(crate) file: u32,
    pub(crate) token: u32,
}

fn is_field(kind: Option<Kind>) -> bool
    ensures { result ≡ is_field kind }
{
    matches!(kind, Some(Kind::Field))
}

/// Cases 1 and 2: the field of this full name.
fn field_named(linked: &CleanLinked<'_>, name: &str) -> Result<FieldName, Refusal>
    ensures field { IfOk result (λ field. (reads : List ReadOf)
        → AreRead linked.now.files reads → IsFieldToken linked.now.files reads name.now field) }
    ensures free { IfOk result (λ _. (n : ℕ) → n < 10
        → IsDeletionCase linked.now.files name.now n → ⊥) }
    ensures err { IfErr result (IsDeletionRefusal linked.now.files name.now) }
{
    let link = linked.link();
    let Some(id) = link.symbol(name) else {
        return Err(Refusal::UnknownTarget);
    };
    if !is_field(link.kind_of(id)) {
        return Err(Refusal::KindNotAllowed);
    }
    // What is no package has a file and a token.
    let Some(file) = link.file_of(id) else {
        unreachable!();
    };
    let Some(token) = link.token_of(id) else {
        unreachable!();
    };
    Ok(FieldName { file, token })
}

/// The statements that reserve a number and a name.
fn reservation(alloc: Global, number: u64, name: &str) -> Result<String, NoMemory>
    ensures { IfOk result (λ text. string_bytes text ≡ reservation_text number name.now) }
{
    Ok(format!(in alloc; "reserved {number}; reserved \"{name}\";")?)
}

/// The text from the end of one token of a file through another.
fn text_between<'a>(files: &'a Files, file: u32, after: u32, last: u32) -> &'a str
    requires file { file < length files.now }
    requires order { after ≤ last }
    requires within { (tokens : List Token) → AreTokens
        (file_at files.now file).bytes tokens → last < length tokens }
    ensures { (tokens : List Token) → AreTokens (file_at files.entry.now file).bytes tokens
        → result.now ≡ bytes_between (file_at files.entry.now file).bytes
        (end_before tokens (suc after)) (end_before tokens (suc last)) }
{
    let tokens = files.tokens(file);
    let span = Span {
        start: tokens[after as usize].span.end,
        end: tokens[last as usize].span.end,
    };
    files.source(file).text(span)
}

/// What replaces the statement: the reservation, for a
/// oneof behind what stands after it.
fn text_of(
    alloc: Global,
    files: &Files,
    file: u32,
    place: FieldPlace,
    reservation: &str,
) -> Result<String, NoMemory>
    requires file { file < length files.now }
    requires within { StandsInOrder files.now file place }
    ensures { IfOk result (λ text. (tokens : List Token)
        → AreTokens (file_at files.now file).bytes tokens
        → string_bytes text ≡ text_by (file_at files.now file).bytes tokens place reservation.now) }
{
    let mut text = String::new(alloc);
    if let Some(close) = place.oneof {
        text.push_str(text_between(files, file, place.semicolon, close))?;
        text.push_str(" ")?;
    }
    text.push_str(reservation)?;
    Ok(text)
}

/// What is replaced: the statement; for a oneof, through its `}`.
fn span_of(files: &Files, file: u32, place: FieldPlace) -> Span
    requires file { file < length files.now }
    requires within { StandsInOrder files.now file place }
    ensures { (tokens : List Token) → AreTokens (file_at files.now file).bytes tokens
        → (result.start ≡ offset_at tokens place.first)
        × (result.end ≡ end_before tokens (suc (last_replaced place))) }
{
    let tokens = files.tokens(file);
    let last = place.oneof.unwrap_or(place.semicolon);
    Span {
        start: tokens[place.first as usize].span.start,
        end: tokens[last as usize].span.end,
    }
}

/// The change of the file that has the field; none where it would be too large.
fn change_of_file(
    alloc: Global,
    files: &Files,
    name: &str,
    field: FieldName,
    place: FieldPlace,
) -> Result<Option<Change>, NoMemory>
    requires small { HaveSmallNumbers files.now }
    requires field { (reads : List ReadOf) → AreRead files.now reads
        → IsFieldToken files.now reads name.now field }
    requires place { (reads : List ReadOf) → AreRead files.now reads
        → IsPlaceOfField files.now reads field place }
    ensures { IfOk result (λ found. (reads : List ReadOf) → AreRead files.now reads
        → IsChangeOfDeletion files.now reads name.now found) }
{
    are_read(files);
    let words = Words::new(files, field.file);
    let number = number_of(words.get(place.number)) as u64;
    let reservation = reservation(alloc, number, words.get(field.token))?;
    let text = text_of(alloc, files, field.file, place, reservation.as_str())?;
    let span = span_of(files, field.file, place);
    splice_change(alloc, files, field.file, span, text.as_str())
}

/// What the deletion changes, and case 16.
fn changes_of_deletion(
    alloc: Global,
    files: &Files,
    name: &str,
    field: FieldName,
    place: FieldPlace,
) -> Result<Vec<Change>, Refusal>
    requires linked { HasNoFault (LinkFaults files.now) }
    requires small { HaveSmallNumbers files.now }
    requires field { (reads : List ReadOf) → AreRead files.now reads
        → IsFieldToken files.now reads name.now field }
    requires place { (reads : List ReadOf) → AreRead files.now reads
        → IsPlaceOfField files.now reads field place }
    requires before { (n : ℕ) → n < 11 → IsDeletionCase files.now name.now n → ⊥ }
    ensures changes { IfOk result (λ cs. AreChangesOfDeletion files.now name.now
        (map change_of cs.items)) }
    ensures free { IfOk result (λ _. (n : ℕ) → n < 17
        → IsDeletionCase files.now name.now n → ⊥) }
    ensures err { IfErr result (IsDeletionRefusal files.now name.now) }
{
    are_read(files);
    statements_are_one();
    match change_of_file(alloc, files, name, field, place)? {
        Some(change) => Ok(only(alloc, change)?),
        None => Err(Refusal::TooLarge),
    }
}

/// What the deletion of the field of a full name, without a leading dot, changes; or the least case
/// that refuses it. Its number and its name are reserved. The index is asked which files may have
/// an option with the field's name.
pub fn delete_field(
    alloc: Global,
    linked: &CleanLinked<'_>,
    index: &OptionFiles,
    name: &str,
) -> Result<Vec<Change>, Refusal>
    requires index { AreOptionFiles linked.now.files index.now }
    requires small { HaveSmallNumbers linked.now.files }
    ensures ok { IfOk result (λ cs. HasDeletionChanges linked.now.files name.now
        (map change_of cs.items)) }
    ensures err { IfErr result (IsDeletionRefusal linked.now.files name.now) }
{
    let files = linked.files();
    statements_are_one();
    let field = field_named(linked, name)?;
    let tree = files.tree(field.file);
    if is_alone(tree, field.token) {
        return Err(Refusal::LastOfOneof);
    }
    // What is declared as a field stands in its file.
    let Some(place) = field_at(tree, field.token) else {
        unreachable!();
    };
    let changes = changes_of_deletion(alloc, files, name, field, place)?;
    check_values(alloc, linked, index, name, field)?;
    check_fixed(linked, name)?;
    Ok(changes)
}
