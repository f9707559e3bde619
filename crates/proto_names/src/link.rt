//! The names of linked files, which files see them, and the references that mean them.

ghost use Rattle.std.specs.Prelude.{◌≡◌, ◌≢◌, ◌↔◌, ℕ, ◌<◌, ◌≤◌, ◌^◌, ◌==◌, true, List, [], length, map, get_or, slice_get, option_map, option_and_then, Some, None, IfOk, IfSome, IfNone, if◌then◌else◌};
ghost use Rattle.std.specs.List.{All, AllPairs, list_any};
ghost use Rattle.proto_files.specs.GivenFiles.{FileOf, file_at as file_at_place};
ghost use Rattle.proto_text.specs.Texts.{words};
ghost use Rattle.proto_text.specs.Tokens.{AreTokens};
ghost use Rattle.proto_text.specs.declared.lexer.Token.{Token};
ghost use Rattle.proto_tree.specs.References.{dotted};
ghost use Rattle.proto_names_affected.specs.FirstWords.{AreFirstsOf};
ghost use Rattle.proto_names_rules.specs.Joined.{joined, ArePlain};
ghost use Rattle.proto_names_update.specs.NamesOfFiles.{declared_names};
ghost use Rattle.proto_names.specs.LinkOfFiles.{IsLinkOf};
ghost use Rattle.proto_names.specs.LinkOfParts.{link_of};
ghost use Rattle.proto_names_rules.specs.Linked.{is_package};
ghost use Rattle.proto_names.specs.Linking.{NameOf, declared_row, name_of_row, name_at, name_text, declaring_file, declaring_token, row_at, meant_at, shows_text, is_visible};
ghost use Rattle.proto_file_sets.specs.FileSets.{IsIn};
ghost use Rattle.proto_files.specs.FilesRead.{ReadOf, AreRead};
ghost use Rattle.proto_names_imports.specs.Links.{names_of_files};
ghost use Rattle.proto_names_rules.specs.Names.{meaning};
ghost use Rattle.proto_names.specs.Scopes.{reference_in};
ghost use Rattle.proto_names_table.specs.Tables.{IsTable};

use crate::parts::LinkParts;
use crate::resolve::row_in_scope;
use proto_base::NoMemory;
use proto_file_sets::FileSet;
use proto_files::{Files, Words};
use proto_names_imports::import::FileImport;
use proto_names_rules::Kind;
use proto_names_table::table::{Row, Table};
use proto_names_table::{Meant, RefId, SymbolId};
use proto_tree::Reference;
use std::alloc::Global;
use std::marker::Model;

/// The names that a file declares, in order.
#[derive(Clone, Copy)]
pub struct DeclaredNames<'a> {
    rows: &'a [usize],
}

impl<'a> DeclaredNames<'a> {
    /// How many there are.
    pub fn len(&self) -> usize
        ensures { result ≡ length self.now.rows.now }
    {
        self.rows.len()
    }

    /// Whether there is none.
    pub fn is_empty(&self) -> bool
        ensures { result ≡ (length self.now.rows.now == 0) }
    {
        self.rows.is_empty()
    }

    /// The name at this place, from 0; none past the last.
    pub fn get(&self, place: usize) -> Option<SymbolId>
        ensures { option_map (λ id. id.row) result ≡ slice_get self.now.rows.now place }
    {
        let row = *self.rows.get(place)?;
        Some(SymbolId { row })
    }
}

/// The names of files without faults, and what their references mean.
#[derive(Drop)]
pub struct Link {
    pub(crate) parts: LinkParts,
}

impl Model for Link {
    ghost use Rattle.std.specs.Prelude.{◌≡◌, ◌<◌, length, map};
    ghost use Rattle.std.specs.List.{All, AllPairs};
    ghost use Rattle.proto_names_affected.specs.FirstWords.{AreFirstsOf};
    ghost use Rattle.proto_names.specs.Linking.{LinkOf};
    ghost use Rattle.proto_names.specs.LinkOfParts.{link_of};
    ghost use Rattle.proto_names_table.specs.Tables.{IsTable};

    ghost Value = { LinkOf };

    ghost view = { λ l. link_of l.parts };

    ghost invariant = { λ l. IsTable l.parts.declarations.table
        × (length l.parts.resolutions.references.items
        ≡ length l.parts.declarations.table.rows.items)
        × All (λ v. AllPairs (λ m n. m.token < n.token) v.items) l.parts.resolutions.meant.items
        × AreFirstsOf l.parts.resolutions.firsts
        (map (λ v. v.items) l.parts.resolutions.meant.items) };
}

/// The row with this index, if a file declares its name.
fn declared_row(rows: &[Row], index: usize) -> Option<&Row>
    ensures { option_map (λ r. r.now) result
        ≡ option_and_then declared_row (slice_get rows.now index) }
{
    let row = rows.get(index)?;
    if row.is_declared() { Some(row) } else { None }
}

/// The row with this index, if a file declares its name, but for a package's.
fn own_row(rows: &[Row], index: usize) -> Option<&Row>
    ensures exact { option_map (λ r. r.now) result ≡ option_and_then
        (λ r. if is_package r.symbol.kind then None else Some r)
        (option_and_then declared_row (slice_get rows.now index)) }
    ensures declared { IfSome result (λ r. r.now.is_declared ≡ true) }
{
    let row = declared_row(rows, index)?;
    if row.symbol.kind.is_package() {
        None
    } else {
        Some(row)
    }
}

/// Whether a name of the table has this text, in a file of the set.
fn shows(table: &Table, seen: &FileSet, name: &str) -> bool
    requires { IsTable table.now }
    ensures { result ≡ shows_text seen.now name.now (map name_of_row table.now.rows.items) }
{
    match table.index_of_name(name) {
        Some(row) => table.rows[row].is_seen(seen),
        None => false,
    }
}

/// The row of the name that the reference with this first token means, among references in order.
fn row_of_token(meant: &[Meant], token: u32) -> Option<usize>
    requires { AllPairs (λ m n. m.token < n.token) meant.now }
    ensures { result ≡ row_at meant.now token }
{
    match meant.binary_search_by_key(&token, |m| m.token) {
        Ok(place) => Some(meant[place].row),
        Err(_) => None,
    }
}

impl Link {
    /// A link of its parts.
    pub(crate) fn from_parts(parts: LinkParts) -> Link
        requires table { IsTable parts.declarations.table }
        requires rising { All (λ v. AllPairs (λ m n. m.token < n.token) v.items)
            parts.resolutions.meant.items }
        requires paired { length parts.resolutions.references.items
            ≡ length parts.declarations.table.rows.items }
        requires firsts { AreFirstsOf parts.resolutions.firsts
            (map (λ v. v.items) parts.resolutions.meant.items) }
        ensures { result ≡ link_of parts }
    {
        Link { parts }
    }

    /// The symbol of this full name, if a file declares it. Takes no memory.
    pub fn symbol(&self, name: &str) -> Option<SymbolId>
        ensures some { IfSome result (λ id. name_text self.now id.row ≡ Some name.now) }
        ensures none { IfNone result ((row : ℕ) → name_text self.now row ≢ Some name.now) }
        ensures once { (i j : ℕ) (text : List ℕ)
            → name_text self.now i ≡ Some text → name_text self.now j ≡ Some text → i ≡ j }
    {
        let row = self.parts.declarations.table.index_of_name(name)?;
        if self.parts.declarations.table.rows[row].is_declared() {
            Some(SymbolId { row })
        } else {
            None
        }
    }

    /// The full name of a symbol; none where this link has no such symbol, or no file declares it
    /// any more.
    pub fn name_of(&self, id: SymbolId) -> Option<&str>
        ensures { option_map (λ text. text.now) result ≡ name_text self.now id.row }
    {
        let row = declared_row(&self.parts.declarations.table.rows, id.row)?;
        Some(row.name.as_str())
    }

    /// The kind of a symbol; none where `name_of` answers none.
    pub fn kind_of(&self, id: SymbolId) -> Option<Kind>
        ensures { result ≡ option_map (λ n. n.kind) (name_at self.now id.row) }
    {
        let row = declared_row(&self.parts.declarations.table.rows, id.row)?;
        Some(row.symbol.kind)
    }

    /// The number of the file that declares a symbol; none where `name_of` answers none, and for a
    /// package, which many may declare.
    pub fn file_of(&self, id: SymbolId) -> Option<u32>
        ensures exact { result ≡ declaring_file self.now id.row }
        ensures declared { (row : ℕ) (n : NameOf)
            → name_at self.now row ≡ Some n → 0 < length n.files }
    {
        let row = own_row(&self.parts.declarations.table.rows, id.row)?;
        Some(row.symbol.file)
    }

    /// The index of the token at which a symbol is declared; none where `file_of` answers none.
    pub fn token_of(&self, id: SymbolId) -> Option<u32>
        ensures { result ≡ declaring_token self.now id.row }
    {
        let row = own_row(&self.parts.declarations.table.rows, id.row)?;
        Some(row.symbol.token)
    }

    /// The references that resolve to a symbol, by file and in order; empty where this link has no
    /// such symbol.
    pub fn references(&self, id: SymbolId) -> &[RefId]
        ensures exact { result.now ≡ get_or self.now.references id.row [] }
        ensures paired { length self.now.references ≡ length self.now.names }
    {
        match self.parts.resolutions.references.get(id.row) {
            Some(references) => references.as_slice(),
            None => &[],
        }
    }

    /// The symbols that a file declares, in the order of its text, packages first; none where there
    /// is no such file. Takes no memory.
    pub fn declared_in(&self, file: u32) -> DeclaredNames<'_>
        ensures exact { result.rows.now ≡ get_or self.now.rows file [] }
        ensures names { (files : List FileOf) (reads : List ReadOf)
            → IsLinkOf files self.now → AreRead files reads → file < length files
            → map (name_text self.now) result.rows.now
            ≡ map (λ name. Some (joined name)) (declared_names files reads file) }
    {
        match self.parts.declarations.rows.get(file as usize) {
            Some(rows) => DeclaredNames {
                rows: rows.as_slice(),
            },
            None => DeclaredNames { rows: &[] },
        }
    }

    /// The symbol to which the reference at this token of the file resolves; none where no reference
    /// begins there. Takes no memory.
    pub fn meaning(&self, file: u32, token: u32) -> Option<SymbolId>
        ensures { option_map (λ id. id.row) result ≡ meant_at self.now file token }
    {
        let meant = self.parts.resolutions.meant.get(file as usize)?;
        let row = row_of_token(meant.as_slice(), token)?;
        Some(SymbolId { row })
    }

    /// What the references of the file mean, in the order of their first tokens; empty where there
    /// is no such file. Takes no memory.
    pub fn meant_in(&self, file: u32) -> &[Meant]
        ensures exact { result.now ≡ get_or self.now.meant file [] }
        ensures rising { AllPairs (λ m n. m.token < n.token) result.now }
    {
        match self.parts.resolutions.meant.get(file as usize) {
            Some(meant) => meant.as_slice(),
            None => &[],
        }
    }

    /// Whether a reference of the file begins with a word of this key (`word_key`); false where
    /// there is no such file. Where none does, that mostly takes a few steps, however many
    /// references the file has. Takes no memory.
    pub fn begins_with(&self, file: u32, key: u32) -> bool
        ensures { result ≡ list_any (λ m. m.first == key) (get_or self.now.meant file []) }
    {
        match self.parts.resolutions.meant.get(file as usize) {
            Some(meant) => meant.begins_with(key),
            None => false,
        }
    }

    /// The files in which a reference may begin with a word of this key; in others none does. Takes
    /// no memory.
    pub fn files_beginning_with(&self, key: u32) -> &FileSet
        ensures files { (file : ℕ)
            → list_any (λ m. m.first == key) (get_or self.now.meant file []) ≡ true
            → IsIn result.now file }
        ensures few { length result.now ≤ 2 ^ 32 }
        ensures within { length result.now ≤ length self.now.meant }
    {
        self.parts.resolutions.firsts.files_of(key)
    }

    /// The imports of each file, in the order in which they are written, by the numbers of the files
    /// that they name. Takes no memory.
    pub fn imports(&self) -> &[Vec<FileImport>]
        ensures { map (λ v. v.items) result.now ≡ self.now.imports }
    {
        &self.parts.graph.imports
    }

    /// For each file the files that it sees. Takes no memory.
    pub fn seen(&self) -> &[FileSet]
        ensures { result.now ≡ self.now.seen }
    {
        &self.parts.graph.seen
    }

    /// Whether the file sees a name with this text; false where there is no such file. Takes no
    /// memory.
    pub fn visible(&self, file: u32, name: &str) -> bool
        ensures { result ≡ is_visible self.now file name.now }
    {
        match self.parts.graph.seen.get(file as usize) {
            Some(seen) => shows(&self.parts.declarations.table, seen, name),
            None => false,
        }
    }

    /// What a reference of a file means in a scope; none where it means nothing that is visible.
    /// The scope is the full name of what stands around it, empty for none; it need not be
    /// declared. Takes no memory.
    pub fn resolve(
        &self,
        files: &Files,
        file: u32,
        scope: &str,
        reference: &Reference,
    ) -> Option<SymbolId>
        requires link { IsLinkOf files.now self.now }
        requires file { file < length files.now }
        requires scope { (path : List (List ℕ)) × ArePlain path × (scope.now ≡ joined path) }
        requires words { (tokens : List Token) → AreTokens
            (file_at_place files.now file).bytes tokens → ArePlain
            (map (words (file_at_place files.now file).bytes tokens) (dotted reference.now.words)) }
        ensures within { IfSome result (λ id. id.row < length self.now.names) }
        ensures meant { (reads : List ReadOf) → AreRead files.now reads
            → (path : List (List ℕ)) → ArePlain path → scope.now ≡ joined path
            → option_and_then (λ id. name_text self.now id.row) result
            ≡ option_map joined (meaning (names_of_files files.now reads)
            (reference_in files.now reads file path reference.now)) }
        ensures none { (reads : List ReadOf) → AreRead files.now reads
            → (path : List (List ℕ)) → ArePlain path → scope.now ≡ joined path
            → (result ≡ None) ↔ (meaning (names_of_files files.now reads)
            (reference_in files.now reads file path reference.now) ≡ None) }
    {
        let seen = self.parts.graph.seen.get(file as usize)?;
        let words = Words::new(files, file);
        let table = &self.parts.declarations.table;
        let row = row_in_scope(table, seen, &words, scope, reference)?;
        Some(SymbolId { row })
    }

    /// A link of its own with the same value. Fails only when out of memory.
    pub fn copy(&self, alloc: Global) -> Result<Link, NoMemory>
        ensures { IfOk result (λ link. link ≡ self.now) }
    {
        let parts = self.parts.copy(alloc)?;
        Ok(Link::from_parts(parts))
    }

    /// Drops the link. A crate that ends it by this call need not prove how each of its parts is
    /// dropped.
    pub fn release(self) {}
}
