//! The JSON values of the parts of results.

ghost use Rattle.std.specs.Prelude.{◌≡◌, IfOk, map};
ghost use Rattle.serde_json.specs.View.{view};
ghost use Rattle.proto_messages.specs.Objects.{Fills, made};
ghost use Rattle.proto_messages.specs.Results.{action_data, action_word, array_of, diagnostic_data, document_edit_data, edited_document_data, edits_data, kind_number, location_data, position_data, range_data, severity_number, symbol_around_data, symbol_data, text_edit_data, version_data};
ghost use Rattle.proto_messages.specs.declared.results.Symbol.{out-Symbol};

use crate::lists::put_array;
use crate::objects::{Object, ToJson};
use crate::position::{Position, Range};
use crate::results::{
    ActionKind, CodeAction, Diagnostic, DocumentEdit, Location, Severity, Symbol, SymbolKind,
    TextEdit,
};
use serde_json::Value;
use std::alloc::{AllocError, Global};

impl ToJson for Position {
    ghost json = { λ position. position_data position };

    fn put_members(&self, out: &mut Object) {
        out.put_number("character", self.character);
        out.put_number("line", self.line);
    }
}

impl ToJson for Range {
    ghost json = { λ range. range_data range };

    fn put_members(&self, out: &mut Object) {
        out.put_object("end", &self.end);
        out.put_object("start", &self.start);
    }
}

impl ToJson for Location {
    ghost json = { λ location. location_data location };

    fn put_members(&self, out: &mut Object) {
        out.put_object("range", &self.range);
        out.put_text("uri", self.uri.as_str());
    }
}

fn kind_number(kind: SymbolKind) -> u32
    ensures { result ≡ kind_number kind }
{
    match kind {
        SymbolKind::Package => 4,
        SymbolKind::Method => 6,
        SymbolKind::Field => 8,
        SymbolKind::Enum => 10,
        SymbolKind::Interface => 11,
        SymbolKind::EnumMember => 22,
        SymbolKind::Struct => 23,
    }
}

/// The array of symbols, each with those in it.
#[cycle(symbols)]
pub(crate) fn symbols(alloc: Global, symbols: &[Symbol]) -> Result<Value, AllocError>
    ensures { IfOk result (λ value. view value ≡ array_of (map symbol_data symbols.now)) }
{
    let mut values = Vec::new(alloc);
    for symbol in symbols {
        let value = symbol_value(alloc, symbol)?;
        values.push(value)?;
    }
    Ok(Value::Array(values))
}

// A symbol with those in it.
#[cycle(symbols)]
fn symbol_value(alloc: Global, symbol: &Symbol) -> Result<Value, AllocError>
    ensures { IfOk result (λ value. view value ≡ symbol_data symbol.now) }
{
    let children = symbols(alloc, &symbol.children)?;
    symbol_around(alloc, symbol, children)
}

// A symbol round the value of those in it.
fn symbol_around(alloc: Global, symbol: &Symbol, children: Value) -> Result<Value, AllocError>
    ensures { IfOk result (λ value. view value
        ≡ symbol_around_data (out-Symbol symbol.now) (view children)) }
{
    let mut out = Object::new(alloc);
    put_symbol(&mut out, symbol, children);
    out.into_value()
}

// The members of a symbol round the value of those in it.
fn put_symbol(out: &mut Object, symbol: &Symbol, children: Value)
    ensures { Fills (symbol_around_data (out-Symbol symbol.now) (view children))
        (made out.old) (made out.new) }
{
    out.put("children", Ok(children));
    out.put_number("kind", kind_number(symbol.kind));
    out.put_text("name", symbol.name.as_str());
    out.put_object("range", &symbol.range);
    out.put_object("selectionRange", &symbol.selection);
}

impl ToJson for TextEdit {
    ghost json = { λ edit. text_edit_data edit };

    fn put_members(&self, out: &mut Object) {
        out.put_text("newText", self.text.as_str());
        out.put_object("range", &self.range);
    }
}

// The version of a document, null where it is not open.
fn version_value(version: Option<u64>) -> Value
    ensures { view result ≡ version_data version }
{
    match version {
        Some(number) => Value::from(number),
        None => Value::Null,
    }
}

// The document, as an edit names it.
#[derive(Drop)]
struct EditedDocument<'a> {
    edit: &'a DocumentEdit,
}

impl ToJson for EditedDocument<'_> {
    ghost json = { λ document. edited_document_data document.edit.now };

    fn put_members(&self, out: &mut Object) {
        out.put_text("uri", self.edit.uri.as_str());
        out.put("version", Ok(version_value(self.edit.version)));
    }
}

impl ToJson for DocumentEdit {
    ghost json = { λ document. document_edit_data document };

    fn put_members(&self, out: &mut Object) {
        put_array(out, "edits", &self.edits);
        out.put_object("textDocument", &EditedDocument { edit: self });
    }
}

/// The edits of several documents.
#[derive(Drop)]
pub(crate) struct WorkspaceEdit<'a> {
    pub(crate) documents: &'a [DocumentEdit],
}

impl ToJson for WorkspaceEdit<'_> {
    ghost json = { λ edit. edits_data edit.documents.now };

    fn put_members(&self, out: &mut Object) {
        put_array(out, "documentChanges", self.documents);
    }
}

fn action_word(kind: ActionKind) -> &'static str
    ensures { result.now ≡ action_word kind }
{
    match kind {
        ActionKind::QuickFix => "quickfix",
        ActionKind::Refactor => "refactor",
    }
}

impl ToJson for CodeAction {
    ghost json = { λ action. action_data action };

    fn put_members(&self, out: &mut Object) {
        let edit = WorkspaceEdit {
            documents: &self.edits,
        };
        out.put_object("edit", &edit);
        out.put_text("kind", action_word(self.kind));
        out.put_text("title", self.title.as_str());
    }
}

fn severity_number(severity: Severity) -> u32
    ensures { result ≡ severity_number severity }
{
    match severity {
        Severity::Error => 1,
        Severity::Warning => 2,
    }
}

impl ToJson for Diagnostic {
    ghost json = { λ diagnostic. diagnostic_data diagnostic };

    fn put_members(&self, out: &mut Object) {
        out.put_text("code", self.code.as_str());
        out.put_text("message", self.message.as_str());
        out.put_object("range", &self.range);
        out.put_number("severity", severity_number(self.severity));
        out.put_text("source", "protoref");
    }
}
