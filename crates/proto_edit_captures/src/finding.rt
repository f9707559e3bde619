//! The target that a name has.

ghost use Rattle.std.specs.Prelude.{◌≡◌, ◌<◌, ◌↔◌, ◌++◌, List, ℕ, true, IsTrue, IfOk, IfErr, IfSome, IfNone, Some, length};
ghost use Rattle.proto_case.specs.Camel.{entry_name};
ghost use Rattle.proto_files.specs.FilesRead.{ReadOf, AreRead};
ghost use Rattle.proto_names_imports.specs.Links.{text_of};
ghost use Rattle.proto_names_rules.specs.Grown.{at};
ghost use Rattle.proto_names_rules.specs.Linked.{is_package};
ghost use Rattle.proto_names.specs.Linking.{NameOf, name_at};
ghost use Rattle.proto_edit_rename_laws.specs.Inside.{IsInside};
ghost use Rattle.proto_edit_rules.specs.Rename.{may_rename};
ghost use Rattle.proto_edit_captures.specs.FoundTargets.{IsTargetOf, IsNoTarget, IsSpelled};
ghost use Rattle.proto_edit_captures.specs.Looked.{HasDeclared, IsEntryThere, IsNotDeclared, first_place};

use crate::parts::{beside, front, word};
use crate::rename_target::{NoTarget, RenameTarget};
use proto_base::NoMemory;
use proto_case::entry_name;
use proto_names::{Link, SymbolId};
use proto_names_rules::Kind;
use proto_resolved::CleanLinked;
use std::alloc::Global;

/// The kind of a declaration, and the token that it stands at.
#[derive(Clone, Copy)]
struct Declaration {
    kind: Kind,
    file: u32,
    token: u32,
}

/// Where a name of the link is declared; none for a package.
fn place(link: &Link, name: SymbolId) -> Option<Declaration>
    ensures some { IfSome result (λ p. (n : NameOf) × (name_at link.now name.row ≡ Some n)
        × (n.kind ≡ p.kind) × (first_place n ≡ at p.file p.token)) }
    ensures none { IfNone result ((n : NameOf) → name_at link.now name.row ≡ Some n
        → is_package n.kind ≡ true) }
{
    let kind = link.kind_of(name)?;
    let file = link.file_of(name)?;
    let token = link.token_of(name)?;
    Some(Declaration { kind, file, token })
}

fn is_entry(kind: Kind) -> bool
    ensures { IsTrue result ↔ (kind ≡ Kind.Entry) }
{
    matches!(kind, Kind::Entry)
}

/// Whether an entry is declared at the token.
fn is_entry_there(place: Declaration, file: u32, token: u32) -> bool
    ensures { IsTrue result ↔ IsEntryThere place.kind place.file place.token file token }
{
    is_entry(place.kind) && place.file == file && place.token == token
}

fn may_rename(kind: Kind) -> bool
    ensures { result ≡ may_rename kind }
{
    match kind {
        Kind::Message
        | Kind::Enum
        | Kind::Service
        | Kind::Field
        | Kind::Extension
        | Kind::Value
        | Kind::Method => true,
        _ => false,
    }
}

/// Whether the name is that of an entry which stands at the token.
fn is_entry_at(link: &Link, name: &str, file: u32, token: u32) -> bool
    ensures { IsTrue result ↔ HasDeclared link.now name.now Kind.Entry (at file token) }
{
    let Some(id) = link.symbol(name) else {
        return false;
    };
    match place(link, id) {
        Some(place) => is_entry_there(place, file, token),
        None => false,
    }
}

/// Whether a declaration has an entry beside it, and so is a map field.
fn has_entry(
    alloc: Global,
    linked: &CleanLinked<'_>,
    target: RenameTarget,
) -> Result<bool, NoMemory>
    requires { IsSpelled linked.now.files target }
    ensures { (reads : List ReadOf) → AreRead linked.now.files reads
        → (front : List ℕ) → target.entry.name.now
        ≡ front ++ text_of linked.now.files reads (at target.entry.file target.entry.token)
        → IfOk result (λ is. IsTrue is ↔ HasDeclared linked.now.link
        (front ++ entry_name
        (text_of linked.now.files reads (at target.entry.file target.entry.token)))
        Kind.Entry (at target.entry.file target.entry.token)) }
{
    let own = word(linked.files(), target.file, target.token);
    let front = front(target.name, own);
    let entry = entry_name(alloc, own)?;
    let name = beside(alloc, front, entry.as_str())?;
    Ok(is_entry_at(linked.link(), name.as_str(), target.file, target.token))
}

/// The declaration of this name in a link; it is not yet asked whether it is a map field.
fn declared_target<'a>(link: &Link, name: &'a str) -> Result<RenameTarget<'a>, NoTarget>
    ensures ok { IfOk result (λ target.
        HasDeclared link.now target.name.now target.kind (at target.file target.token)) }
    ensures named { IfOk result (λ target. target.name.now ≡ name.entry.now) }
    ensures kind { IfOk result (λ target. may_rename target.kind ≡ true) }
    ensures err { IfErr result (IsNotDeclared link.now name.entry.now) }
{
    let Some(id) = link.symbol(name) else {
        return Err(NoTarget::Unknown);
    };
    let Some(place) = place(link, id) else {
        return Err(NoTarget::NotAllowed);
    };
    if !may_rename(place.kind) {
        return Err(NoTarget::NotAllowed);
    }
    Ok(RenameTarget {
        name,
        kind: place.kind,
        file: place.file,
        token: place.token,
        is_map: false,
    })
}

/// The target with this full name, without a leading dot: its declaration, if that may be renamed.
pub fn find_target<'a>(
    alloc: Global,
    linked: &CleanLinked<'_>,
    name: &'a str,
) -> Result<RenameTarget<'a>, NoTarget>
    ensures ok { IfOk result (λ target. IsTargetOf linked.now.files target) }
    ensures named { IfOk result (λ target. target.name.now ≡ name.entry.now) }
    // It stands at a token of a file.
    ensures file { IfOk result (λ target. target.file < length linked.now.files) }
    ensures inside { IfOk result (λ target. (reads : List ReadOf) → AreRead linked.now.files reads
        → IsInside linked.now.files reads (at target.file target.token)) }
    ensures err { IfErr result (IsNoTarget linked.now.files name.entry.now) }
{
    let link = linked.link();
    let found = declared_target(link, name)?;
    let is_map = has_entry(alloc, linked, found)?;
    Ok(RenameTarget { is_map, ..found })
}
