//! The names of a workspace in a table, each below another one.

ghost use Rattle.std.specs.Prelude.{◌≡◌, ◌≢◌, ℕ, List, if◌then◌else◌, slice_set, ◌+◌, ◌<◌, ◌≤◌, length, get_or, map, ◌++◌, ◌∷◌, [], OnOk, OnErr, IfOk, IfSome, IfNone, slice_index_or, take, true, MatchOption, ◌==◌, false, None, Some, string_bytes};
ghost use Rattle.std.specs.List.{list_any};
ghost use Rattle.std.specs.Str.{IsUtf8};
ghost use Rattle.proto_base.specs.Ascii as ascii;
ghost use Rattle.proto_names_table.specs.Filling.{IsRowOf};
ghost use Rattle.proto_names_table.specs.Indexes.{IsFrontOf, keys_in};
ghost use Rattle.proto_names_rules.specs.Forest.{under, front};
ghost use Rattle.proto_names_rules.specs.Joined.{joined, ArePlain, IsPlain};
ghost use Rattle.proto_names_rules.specs.Names.{Symbol as NamedSymbol};
ghost use Rattle.proto_names_rules.specs.declared.kind.Kind.TheVariants.{Package};
ghost use Rattle.proto_names_table.specs.Resolved.{SymbolIsDeclared, IsIndexOf, IsTaken, IsWithout};
ghost use Rattle.proto_names_table.specs.Search.{is_seen, is_visible_as, passes, HitsAt, IsHit};
ghost use Rattle.proto_names_table.specs.Undone.{TakesRow};
ghost use Rattle.proto_names_table.specs.Tables.{AreAlike, IsTable, IsUnchanged, with_declaration, names_of, look, row_of};

use crate::index::Index;
use crate::name::Name;
use proto_base::NoMemory;
use proto_file_sets::FileSet;
use proto_names_rules::{Kind, Wants};
use std::alloc::Global;
use std::sync::ArcStr;

/// What declares a name: its kind, its file and the token that it stands at.
#[derive(Clone, Copy)]
pub struct Symbol {
    /// What it declares.
    pub kind: Kind,
    /// The number of its file, from 0.
    pub file: u32,
    /// The index of its token among those of the file.
    pub token: u32,
}

/// A name, and what is known of it.
#[derive(Drop)]
pub struct Row {
    /// The full name, its words joined by `.`.
    pub name: Name,
    /// Its first declaration.
    pub symbol: Symbol,
    // Right behind the symbol, where it takes no room.
    /// Whether a file declares it. Where none does any more, the row stays, with what declared it
    /// last.
    pub(crate) is_declared: bool,
    /// The number of the name that this one stands right below.
    pub above: usize,
    /// Further files that declare it, of a package.
    pub more: Vec<u32>,
}

impl Row {
    /// Whether a reference's first word may stand for it where these files are seen.
    fn passes(&self, wants: Wants, is_last: bool, seen: &FileSet) -> bool
        ensures { result ≡ passes seen.now wants is_last self.now }
    {
        let fits = if is_last {
            wants.fits_alone(self.symbol.kind)
        } else {
            self.symbol.kind.is_outer()
        };
        fits && self.is_seen(seen)
    }

    /// Whether a reference that wants this may mean it where these files are seen.
    pub fn is_visible_as(&self, wants: Wants, seen: &FileSet) -> bool
        ensures { result ≡ is_visible_as seen.now wants self.now }
    {
        wants.may_resolve_to(self.symbol.kind) && self.is_seen(seen)
    }

    /// Whether one of its files is seen.
    pub fn is_seen(&self, seen: &FileSet) -> bool
        ensures { result ≡ is_seen seen.now self.now }
    {
        self.is_declared && (seen.contains(self.symbol.file) || sees_any(seen, &self.more))
    }

    /// Whether a file declares it.
    pub fn is_declared(&self) -> bool
        ensures { result ≡ self.now.is_declared }
    {
        self.is_declared
    }

    /// The same row, with files of its own. Fails only when out of memory.
    fn copy(&self, alloc: Global) -> Result<Row, NoMemory>
        ensures { IfOk result (λ row. row_of row ≡ row_of self.now) }
    {
        let name = self.name.copy(alloc)?;
        let mut more = Vec::new(alloc);
        more.extend_from_slice(&self.more)?;
        Ok(Row {
            name,
            symbol: self.symbol,
            above: self.above,
            more,
            is_declared: self.is_declared,
        })
    }
}

/// The same rows in the same order. Fails only when out of memory.
fn copied_rows(alloc: Global, rows: &[Row]) -> Result<Vec<Row>, NoMemory>
    ensures { IfOk result (λ copy. map row_of copy.items ≡ map row_of rows.now) }
{
    let mut copy = Vec::with_capacity(alloc, rows.len())?;
    for row in rows {
        let own = row.copy(alloc)?;
        copy.push(own)?;
    }
    Ok(copy)
}

/// Whether one of these files is seen.
fn sees_any(seen: &FileSet, files: &[u32]) -> bool
    ensures { result ≡ list_any (λ f. slice_index_or seen.now f false) files.now }
{
    for file in files {
        if seen.contains(*file) {
            return true;
        }
    }
    false
}

/// The first word of a reference, for which a search begins.
#[derive(Clone, Copy)]
pub struct FirstWord<'a> {
    /// Its text.
    pub text: &'a str,
    /// What the reference wants.
    pub wants: Wants,
    /// Whether no further word follows it.
    pub is_last: bool,
}

/// All names, each with a number: 0 stands for the empty one, and the row with index `k` has the
/// number `k + 1`.
#[derive(Drop)]
pub struct Table {
    /// The names but the empty one, each behind the one that it stands below.
    pub rows: Vec<Row>,
    /// The same rows by the number of the name above them and their last word.
    pub below: Index,
    /// The text of the package that is declared, for its prefixes to share; none before the first.
    pub(crate) begun: Option<ArcStr>,
}

impl Table {
    /// The text of the name with this number.
    pub fn text(&self, number: usize) -> &str
        requires { number ≤ length self.now.rows.items }
        ensures { result.now ≡ front (names_of self.now) number }
    {
        if number == 0 {
            ""
        } else {
            self.rows[number - 1].name.as_str()
        }
    }

    /// The index of the row of this word right below the name with this number, if there is one.
    pub fn find(&self, above: usize, word: &str) -> Option<usize>
        ensures { result ≡ look self.now above word.now }
    {
        self.below.find(above, word)
    }

    /// The index of the row with this name; none where no row has it.
    pub fn index_of_name(&self, text: &str) -> Option<usize>
        requires { IsTable self.now }
        ensures sound { IfSome result (λ k. (k < length self.now.rows.items)
            × (get_or (names_of self.now) k [] ≡ text.now)) }
        ensures complete { (k : ℕ) → k < length self.now.rows.items
            → get_or (names_of self.now) k [] ≡ text.now → result ≡ Some k }
    {
        let mut number = 0;
        let mut rest = text;
        while let Some((word, behind)) = split_at_dot(rest) {
            number = self.find(number, word)? + 1;
            rest = behind;
        }
        self.find(number, rest)
    }

    /// The index of the row for a reference's first word: outward from the scope, which is the
    /// number of a name, the first below which the word passes; `seen` has the files that are
    /// seen.
    pub fn search(&self, scope: usize, word: FirstWord, seen: &FileSet) -> Option<usize>
        requires table { IsTable self.now }
        requires within { scope ≤ length self.now.rows.items }
        requires plain { IsPlain word.text.now }
        ensures row { IfSome result (λ row. row < length self.now.rows.items) }
        ensures hit { IfSome result (λ row. (path : List (List ℕ)) → ArePlain path → front
            (names_of self.now) scope ≡ joined path → IsHit self.now seen.now
            word.entry.wants word.entry.is_last path word.entry.text.now row) }
        ensures none { IfNone result ((path : List (List ℕ)) → ArePlain path → front
            (names_of self.now) scope ≡ joined path → (k row : ℕ)
            → k ≤ length path → HitsAt self.now seen.now
            word.entry.wants word.entry.is_last path word.entry.text.now k row → ⊥) }
    {
        let mut number = scope;
        loop {
            if let Some(row) = self.passing(number, word, seen) {
                return Some(row);
            }
            if number == 0 {
                return None;
            }
            number = self.rows[number - 1].above;
        }
    }

    /// The row of the word right below this number, if it passes.
    fn passing(&self, number: usize, word: FirstWord, seen: &FileSet) -> Option<usize>
        requires table { IsTable self.now }
        requires within { number ≤ length self.now.rows.items }
        requires plain { IsPlain word.text.now }
        ensures some { IfSome result (λ row. (row < length self.now.rows.items)
            × (get_or (names_of self.now) row []
            ≡ under (front (names_of self.now) number) word.entry.text.now)
            × ((d : Row) → passes seen.now word.entry.wants word.entry.is_last
            (get_or self.now.rows.items row d) ≡ true)) }
        ensures none { IfNone result ((row : ℕ) → row < length self.now.rows.items
            → get_or (names_of self.now) row []
            ≡ under (front (names_of self.now) number) word.entry.text.now
            → (d : Row) → passes seen.now word.entry.wants word.entry.is_last
            (get_or self.now.rows.items row d) ≡ false) }
    {
        let row = self.find(number, word.text)?;
        if self.rows[row].passes(word.wants, word.is_last, seen) {
            Some(row)
        } else {
            None
        }
    }

    /// Declares a symbol by the number of the name above it; answers the index of its row, which is
    /// the old one where its name was declared before. Packages alone share a name: none for
    /// another symbol whose name is taken. Fails only when out of memory. Where it declares
    /// nothing, the table stays as it was. `cut_back` and `put_back` take back what it changes, but
    /// for a further file of a package: what keeps a log finds packages and does not declare them.
    pub fn declare(
        &mut self,
        alloc: Global,
        above: usize,
        word: &str,
        symbol: Symbol,
    ) -> Result<Option<usize>, NoMemory>
        requires table { IsTable self.old }
        requires within { above ≤ length self.old.rows.items }
        requires plain { IsPlain word.now }
        ensures table { OnOk result (IsTable self.new) }
        ensures index { IfOk result (λ o. IfSome o
            (λ _. SymbolIsDeclared self.old self.new
            (under (front (names_of self.old) above) word.now) symbol)) }
        ensures row { IfOk result (λ o. IfSome o
            (IsRowOf self.old self.new (under (front (names_of self.old) above) word.now) symbol)) }
        ensures change { IfOk result (λ o. IfSome o (TakesRow self.old self.new symbol)) }
        ensures clash { IfOk result (λ o. IfNone o
            (IsTaken self.old (under (front (names_of self.old) above) word.now) symbol)) }
        ensures clash_kept { IfOk result (λ o. IfNone o (IsUnchanged self.old self.new)) }
        ensures kept { OnErr result (IsUnchanged self.old self.new) }
    {
        match self.find(above, word) {
            None => {
                let row = self.add(alloc, above, word, symbol)?;
                Ok(Some(row))
            }
            Some(row) => self.declare_again(row, symbol),
        }
    }

    /// Declares a symbol in the row that its name has; answers the row, or none where the name is
    /// taken. Fails only when out of memory. Where it declares nothing, the table stays as it
    /// was.
    fn declare_again(&mut self, row: usize, symbol: Symbol) -> Result<Option<usize>, NoMemory>
        requires table { IsTable self.old }
        requires within { row < length self.old.rows.items }
        ensures table { OnOk result (IsTable self.new) }
        ensures index { IfOk result (λ o. IfSome o
            (λ _. SymbolIsDeclared self.old self.new (get_or (names_of self.old) row []) symbol)) }
        ensures row { IfOk result (λ o. IfSome o
            (IsRowOf self.old self.new (get_or (names_of self.old) row []) symbol)) }
        ensures change { IfOk result (λ o. IfSome o (TakesRow self.old self.new symbol)) }
        ensures clash { IfOk result (λ o. IfNone o
            (IsTaken self.old (get_or (names_of self.old) row []) symbol)) }
        ensures clash_kept { IfOk result (λ o. IfNone o (IsUnchanged self.old self.new)) }
        ensures kept { OnErr result (IsUnchanged self.old self.new) }
    {
        if self.rows[row].is_declared {
            self.share(row, symbol)
        } else {
            self.revive(row, symbol);
            Ok(Some(row))
        }
    }

    /// Declares a symbol in a row that a file declares: a package's in that of a package, and no
    /// other, for which it answers none. Fails only when out of memory. Where it declares
    /// nothing, the table stays as it was.
    fn share(&mut self, row: usize, symbol: Symbol) -> Result<Option<usize>, NoMemory>
        requires table { IsTable self.old }
        requires within { row < length self.old.rows.items }
        requires declared { (r : Row) → (get_or self.old.rows.items row r).is_declared ≡ true }
        ensures table { OnOk result (IsTable self.new) }
        ensures index { IfOk result (λ o. IfSome o
            (λ _. SymbolIsDeclared self.old self.new (get_or (names_of self.old) row []) symbol)) }
        ensures row { IfOk result (λ o. IfSome o
            (IsRowOf self.old self.new (get_or (names_of self.old) row []) symbol)) }
        ensures change { IfOk result (λ o. IfSome o (TakesRow self.old self.new symbol)) }
        ensures clash { IfOk result (λ o. IfNone o
            (IsTaken self.old (get_or (names_of self.old) row []) symbol)) }
        ensures clash_kept { IfOk result (λ o. IfNone o (IsUnchanged self.old self.new)) }
        ensures kept { OnErr result (IsUnchanged self.old self.new) }
    {
        if symbol.kind.is_package() && self.rows[row].symbol.kind.is_package() {
            add_file(&mut self.rows, row, symbol.file)?;
            Ok(Some(row))
        } else {
            Ok(None)
        }
    }

    /// A new row below the name with this number; answers its index. Fails only when out of
    /// memory; then the table stays as it was.
    pub(crate) fn add(
        &mut self,
        alloc: Global,
        above: usize,
        word: &str,
        symbol: Symbol,
    ) -> Result<usize, NoMemory>
        requires table { IsTable self.old }
        requires within { above ≤ length self.old.rows.items }
        requires plain { IsPlain word.now }
        requires new { look self.old above word.now ≡ None }
        ensures table { OnOk result (IsTable self.new) }
        ensures rows { IfOk result (λ k. (k ≡ length self.old.rows.items) ×
            ((r : Row) × (self.new.rows.items ≡ self.old.rows.items ++ r ∷ []) ×
            (r.name ≡ under (front (names_of self.old) above) word.now)
            × (r.symbol ≡ symbol) × (r.more.items ≡ []) × (r.is_declared ≡ true))) }
        ensures front { OnOk result (IsFrontOf self.old.below self.new.below) }
        ensures change { IfOk result (TakesRow self.old self.new symbol) }
        ensures kept { OnErr result (IsUnchanged self.old self.new) }
    {
        let name = self.new_name(alloc, above, word, symbol.kind)?;
        let index = self.rows.len();
        self.rows.reserve(1)?;
        self.below.add(alloc, above, word)?;
        self.rows
            .push(Row {
                name,
                symbol,
                above,
                more: Vec::new(alloc),
                is_declared: true,
            })
            .unwrap();
        Ok(index)
    }

    /// The name of a word right below the name with this number; a package's in the text of the
    /// name above it, or of the package that is declared, where that goes on with the word. Fails
    /// only when out of memory.
    fn new_name(
        &self,
        alloc: Global,
        above: usize,
        word: &str,
        kind: Kind,
    ) -> Result<Name, NoMemory>
        requires { above ≤ length self.now.rows.items }
        ensures { IfOk result (λ name. name ≡ under (front (names_of self.now) above) word.now) }
    {
        if kind.is_package() {
            if let Some(name) = self.shared_name(above, word) {
                return Ok(name);
            }
        }
        let text = full_name(alloc, self.text(above), word)?;
        Ok(Name::own(text))
    }

    /// The same name in a text that is there already; none where no such text is known. Takes no
    /// memory.
    fn shared_name(&self, above: usize, word: &str) -> Option<Name>
        requires { above ≤ length self.now.rows.items }
        ensures { IfSome result (λ name. name ≡ under (front (names_of self.now) above) word.now) }
    {
        if let Some(name) = self.name_behind(above, word) {
            return Some(name);
        }
        match &self.begun {
            Some(text) => Name::in_text(text, self.text(above), word),
            None => None,
        }
    }

    /// The same name in the text of the name above it; none where that does not go on with the
    /// word. Takes no memory.
    fn name_behind(&self, above: usize, word: &str) -> Option<Name>
        requires { above ≤ length self.now.rows.items }
        ensures { IfSome result (λ name. name ≡ under (front (names_of self.now) above) word.now) }
    {
        if above == 0 {
            None
        } else {
            self.rows[above - 1].name.below(word)
        }
    }

    /// Says which package is declared next, by its text, which its prefixes may share.
    pub(crate) fn begin_package(&mut self, text: ArcStr)
        ensures rows { self.new.rows ≡ self.old.rows }
        ensures below { self.new.below ≡ self.old.below }
    {
        self.begun = Some(text);
    }

    /// Takes the declaration of a row that is no package's away; answers what it was. The row
    /// stays, and no file declares it any more. Takes no memory.
    pub fn forget(&mut self, row: usize) -> Symbol
        requires table { IsTable self.old }
        requires within { row < length self.old.rows.items }
        requires other { (r : Row) → (get_or self.old.rows.items row r).symbol.kind ≢ Package }
        ensures table { IsTable self.new }
        ensures was { (r : Row) → result ≡ (get_or self.old.rows.items row r).symbol }
        ensures rows { (r : Row) → self.new.rows.items ≡ slice_set self.old.rows.items row
            (with_declaration result false (get_or self.old.rows.items row r)) }
        ensures below { self.new.below ≡ self.old.below }
        ensures index { (old rest : List NamedSymbol) → IsIndexOf self.old old
            → IsWithout (get_or (names_of self.old) row []) old rest → IsIndexOf self.new rest }
    {
        let symbol = self.rows[row].symbol;
        self.put_back(row, symbol, false);
        symbol
    }

    /// Declares a symbol in a row that no file declares any more; answers what declared it last.
    /// Takes no memory.
    pub fn revive(&mut self, row: usize, symbol: Symbol) -> Symbol
        requires table { IsTable self.old }
        requires within { row < length self.old.rows.items }
        requires free { (r : Row) → (get_or self.old.rows.items row r).is_declared ≡ false }
        ensures table { IsTable self.new }
        ensures was { (r : Row) → result ≡ (get_or self.old.rows.items row r).symbol }
        ensures rows { (r : Row) → self.new.rows.items ≡ slice_set self.old.rows.items row
            (with_declaration symbol true (get_or self.old.rows.items row r)) }
        ensures below { self.new.below ≡ self.old.below }
        ensures change { TakesRow self.old self.new symbol row }
        ensures index { SymbolIsDeclared self.old self.new
            (get_or (names_of self.old) row []) symbol }
    {
        let last = self.rows[row].symbol;
        self.put_back(row, symbol, true);
        last
    }

    /// Gives a row this declaration, and says whether a file has it: the way back of `forget` and
    /// `revive`. Takes no memory.
    pub fn put_back(&mut self, row: usize, symbol: Symbol, is_declared: bool)
        requires within { row < length self.old.rows.items }
        ensures rows { (r : Row) → self.new.rows.items ≡ slice_set self.old.rows.items row
            (with_declaration symbol is_declared (get_or self.old.rows.items row r)) }
        ensures below { self.new.below ≡ self.old.below }
    {
        let own = &mut self.rows[row];
        own.symbol = symbol;
        own.is_declared = is_declared;
    }

    /// Takes the last rows and words away, so that at most as many are left: the way back of `add`.
    /// Takes no memory.
    pub fn cut_back(&mut self, rows: usize, words: usize)
        ensures rows { self.new.rows.items ≡ take rows self.old.rows.items }
        ensures below { keys_in self.new.below
            ≡ (take words self.old.below.words.keys, take rows self.old.below.rows.keys) }
    {
        self.rows.truncate(rows);
        self.below.cut_back(words, rows);
    }

    /// The same table, with rows of its own. Fails only when out of memory.
    pub fn copy(&self, alloc: Global) -> Result<Table, NoMemory>
        ensures alike { IfOk result (AreAlike self.now) }
        ensures table { IfOk result (λ copy. IsTable self.now → IsTable copy) }
    {
        let rows = copied_rows(alloc, &self.rows)?;
        let below = self.below.copy(alloc)?;
        Ok(Table {
            rows,
            below,
            begun: None,
        })
    }
}

/// A word right below a name.
fn full_name(alloc: Global, above: &str, word: &str) -> Result<String, NoMemory>
    ensures { IfOk result (λ name. string_bytes name ≡ under above.now word.now) }
{
    let len = above.len().saturating_add(word.len()).saturating_add(1);
    let mut name = String::with_capacity(alloc, len)?;
    name.push_str(above)?;
    if !name.is_empty() {
        name.push_str(".")?;
    }
    name.push_str(word)?;
    Ok(name)
}

/// A further file of a package.
fn add_file(rows: &mut Vec<Row>, row: usize, file: u32) -> Result<(), NoMemory>
    requires { row < length rows.old.items }
    ensures added { OnOk result ((old new : Row) × (old ≡ get_or rows.old.items row old) ×
        (rows.new.items ≡ slice_set rows.old.items row new) × (new.name ≡ old.name) ×
        (new.symbol ≡ old.symbol) × (new.above ≡ old.above)
        × (new.more.items ≡ old.more.items ++ file ∷ [])
        × (new.is_declared ≡ old.is_declared)) }
    ensures kept { OnErr result (map row_of rows.new.items ≡ map row_of rows.old.items) }
{
    let row = &mut rows[row];
    row.more.push(file)?;
    Ok(())
}

/// A text before and after its first `.`; none where it has no `.`.
pub fn split_at_dot(text: &str) -> Option<(&str, &str)>
    ensures cases { MatchOption result (list_any (λ b. b == ascii.dot) text.now ≡ false)
        (λ x. (text.now ≡ x.0.now ++ ascii.dot ∷ x.1.now)
        × (list_any (λ b. b == ascii.dot) x.0.now ≡ false)) }
    ensures utf8 { IfSome result (λ x. IsUtf8 x.0.now × IsUtf8 x.1.now) }
{
    text.split_once('.')
}
