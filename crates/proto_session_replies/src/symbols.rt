//! The declarations of a document.

ghost use Rattle.std.specs.Prelude.{◌≡◌, ◌<◌, [], ◌∷◌, All, List, IfOk, IfSome, None, find, length, option_map};
ghost use Rattle.std.specs.List.{AllZip};
ghost use Rattle.proto_answers.specs.Symbols.{symbols_of};
ghost use Rattle.proto_base.specs.GivenFiles.{file_of, file_of_as, files_of};
ghost use Rattle.proto_files.specs.Faults.{HasNoFault};
ghost use Rattle.proto_files.specs.FilesRead.{AreRead, ReadOf};
ghost use Rattle.proto_files.specs.PathFaults.{PathFaults};
ghost use Rattle.proto_files.specs.ReadFaults.{ReadFaults};
ghost use Rattle.proto_session_files.specs.Views.{view_at};
ghost use Rattle.proto_session_replies.specs.Symbols.{IsSentSymbol, IsSymbolsReply, has_path, sent_kind};

use crate::reply::Reply;
use crate::requesting::sent_range;
use proto_answers::{Symbol, symbols_in};
use proto_base::{NoMemory, Profile, SchemaFault};
use proto_edit::{Files, Kind};
use proto_files::{Paths, Words, are_read};
use proto_messages::{Answer, Symbol as SentSymbol, SymbolKind};
use proto_positions::Encoding;
use proto_session_files::{View, schema_of};
use std::alloc::Global;

fn sent_kind(kind: Kind) -> SymbolKind
    ensures { result ≡ sent_kind kind }
{
    match kind {
        Kind::Package => SymbolKind::Package,
        Kind::Message => SymbolKind::Struct,
        Kind::Entry => SymbolKind::Struct,
        Kind::Enum => SymbolKind::Enum,
        Kind::Service => SymbolKind::Interface,
        Kind::Field => SymbolKind::Field,
        Kind::EntryField => SymbolKind::Field,
        Kind::Oneof => SymbolKind::Field,
        Kind::Value => SymbolKind::EnumMember,
        Kind::Method => SymbolKind::Method,
        Kind::Extension => SymbolKind::Field,
    }
}

// A declaration of the first file, as the protocol has it.
fn sent_symbol(alloc: Global, files: &Files, symbol: &Symbol) -> Result<SentSymbol, NoMemory>
    requires { 0 < length files.now }
    ensures { IfOk result (λ sent. (reads : List ReadOf) → AreRead files.now reads
        → symbol.now.location.file ≡ 0 → IsSentSymbol files.now reads symbol.now sent) }
{
    let name = Words::new(files, 0).get(symbol.token).to_string(alloc)?;
    let range = sent_range(symbol.location.range);
    Ok(SentSymbol {
        name,
        kind: sent_kind(symbol.kind),
        range,
        selection: range,
        children: Vec::new(alloc),
    })
}

fn sent_symbols(alloc: Global, files: &Files, all: &[Symbol]) -> Result<Vec<SentSymbol>, NoMemory>
    requires { 0 < length files.now }
    ensures { IfOk result (λ sent. (reads : List ReadOf) → AreRead files.now reads
        → All (λ s. s.location.file ≡ 0) all.now
        → AllZip (IsSentSymbol files.now reads) all.now sent.items) }
{
    let mut sent = Vec::new(alloc);
    for symbol in all {
        sent.push(sent_symbol(alloc, files, symbol)?)?;
    }
    Ok(sent)
}

// The first file at a path.
fn file_at<'a>(files: &'a [(String, Vec<u8>)], path: &str) -> Option<&'a (String, Vec<u8>)>
    ensures { option_map (λ file. file_of file.now) result
        ≡ find (has_path path.now) (files_of files.now) }
{
    for file in files {
        if file.0.as_str() == path {
            return Some(file);
        }
    }
    None
}

// A list of a copy of the file.
fn copied_alone(alloc: Global, file: &(String, Vec<u8>)) -> Result<Vec<(String, Vec<u8>)>, NoMemory>
    ensures { IfOk result (λ files. files_of files.items ≡ file_of file.now ∷ []) }
{
    let mut files = Vec::new(alloc);
    let path = String::from_str(alloc, file.0.as_str())?;
    files.push((path, Vec::from_slice(alloc, file.1.as_slice())?))?;
    Ok(files)
}

// The file of a language alone, where its path, its text and its grammar have no fault.
fn read_alone(
    alloc: Global,
    file: &(String, Vec<u8>),
    profile: Profile,
) -> Result<Option<Files>, NoMemory>
    ensures some { IfOk result (λ found. IfSome found (λ files.
        files ≡ file_of_as profile file.now ∷ [])) }
    ensures none { IfOk result (λ found. found ≡ None → HasNoFault
        (PathFaults 4096 ((file_of_as profile file.now).path ∷ [])) → HasNoFault
        (ReadFaults (file_of_as profile file.now ∷ [])) → ⊥) }
{
    let files = copied_alone(alloc, file)?;
    let paths = match Paths::new_as(alloc, files, profile) {
        Ok(paths) => paths,
        Err(SchemaFault::NoMemory) => return Err(NoMemory),
        Err(SchemaFault::Schema(_)) => return Ok(None),
    };
    match Files::read(alloc, paths) {
        Ok(files) => Ok(Some(files)),
        Err(SchemaFault::NoMemory) => Err(NoMemory),
        Err(SchemaFault::Schema(_)) => Ok(None),
    }
}

// The declarations of the first file.
fn symbols_of(alloc: Global, encoding: Encoding, files: &Files) -> Result<Vec<SentSymbol>, NoMemory>
    requires { 0 < length files.now }
    ensures { IfOk result (λ sent. (reads : List ReadOf) → AreRead files.now reads
        → AllZip (IsSentSymbol files.now reads) (symbols_of encoding files.now reads 0)
        sent.items) }
{
    are_read(files);
    let all = symbols_in(alloc, files, encoding, 0)?;
    sent_symbols(alloc, files, all.as_slice())
}

// The declarations of a file of a language by its own text.
fn symbols_alone(
    alloc: Global,
    encoding: Encoding,
    file: &(String, Vec<u8>),
    profile: Profile,
) -> Result<Option<Vec<SentSymbol>>, NoMemory>
    ensures some { IfOk result (λ found. IfSome found (λ sent. (reads : List ReadOf)
        × AreRead (file_of_as profile file.now ∷ []) reads
        × AllZip (IsSentSymbol (file_of_as profile file.now ∷ []) reads)
        (symbols_of encoding (file_of_as profile file.now ∷ []) reads 0) sent.items)) }
    ensures none { IfOk result (λ found. found ≡ None → HasNoFault
        (PathFaults 4096 ((file_of_as profile file.now).path ∷ [])) → HasNoFault
        (ReadFaults (file_of_as profile file.now ∷ [])) → ⊥) }
{
    let Some(files) = read_alone(alloc, file, profile)? else {
        return Ok(None);
    };
    are_read(&files);
    let sent = symbols_of(alloc, encoding, &files);
    files.release();
    Ok(Some(sent?))
}

/// The declarations of a document by its own text; null where it is no schema that the client sees,
/// and where it has a fault of its path, text or grammar. Fails only when out of memory.
pub fn symbols_reply(alloc: Global, view: &View, uri: &str) -> Result<Reply, NoMemory>
    ensures { IfOk result (IsSymbolsReply (view_at view.now) uri.now) }
{
    let Some(path) = schema_of(alloc, view.home, uri)? else {
        return Ok(Reply::Result(Answer::Null));
    };
    let Some(file) = file_at(view.files, path.as_str()) else {
        return Ok(Reply::Result(Answer::Null));
    };
    match symbols_alone(alloc, view.encoding, file, view.profile)? {
        Some(sent) => Ok(Reply::Result(Answer::Symbols(sent))),
        None => Ok(Reply::Result(Answer::Null)),
    }
}
