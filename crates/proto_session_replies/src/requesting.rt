//! Requests about what stands at a position.

ghost use Rattle.std.specs.Prelude.{◌≡◌, ◌<◌, true, IfOk, length};
ghost use Rattle.std.specs.List.{AllZip};
ghost use Rattle.proto_desc.specs.Whole.{WorkspaceFaults};
ghost use Rattle.proto_files.specs.Faults.{HasNoFault};
ghost use Rattle.proto_files.specs.GivenFiles.{file_at};
ghost use Rattle.proto_messages.specs.Messages.{document_position_view};
ghost use Rattle.proto_positions.specs.Positions.{offset_of};
ghost use Rattle.proto_session_files.specs.Views.{view_at};
ghost use Rattle.proto_session_replies.specs.Placing.{IsAllSent, IsRenamingReply, IsSpotIfAny, asked_at};
ghost use Rattle.proto_session_replies.specs.Replies.{Compiles, IsDefinitionReply, IsDocumentEdit, IsPreparedReply, IsReferencesReply, IsRenameReply, IsSeen, IsSent, IsTextEdit, SaysFault, counted, sent_range};

use crate::reply::{Reply, failure};
use crate::sentences::{LINE_ENDS, NO_NAME, fault_text, refusal_text};
use proto_answers::{
    Answer as EditAnswer, FileEdits, FileOffset, Location, Range, definition_at, prepare_rename,
    references_at, rename_at,
};
use proto_base::NoMemory;
use proto_edit::{Files, Workspace};
use proto_messages::{
    Answer, DocumentEdit, DocumentPosition, ErrorCode, Location as SentLocation,
    Position as SentPosition, Range as SentRange, TextEdit,
};
use proto_positions::{Encoding, Position, RangeEdit, offset_of};
use proto_session_files::{View, bring, schema_of, sent_position, uri_at, version_at};
use protoref_output::path_of;
use std::alloc::Global;

// The offset of a position in one of the files.
fn offset_in(files: &Files, encoding: Encoding, file: u32, position: SentPosition) -> usize
    requires { file < length files.now }
    ensures { result ≡ offset_of encoding (file_at files.now file).bytes (counted position) }
{
    let text = files.source(file).as_bytes();
    let position = Position {
        line: position.line,
        character: position.character,
    };
    offset_of(text, encoding, position)
}

/// The offset in one of the files that a client asks about; none where it asks about none of these.
/// Fails only when out of memory.
pub(crate) fn spot(
    alloc: Global,
    view: &View,
    files: &Files,
    uri: &str,
    position: SentPosition,
) -> Result<Option<FileOffset>, NoMemory>
    ensures { IfOk result (IsSpotIfAny (view_at view.now) files.now
        (asked_at uri.now position)) }
{
    let Some(path) = schema_of(alloc, view.home, uri)? else {
        return Ok(None);
    };
    let Some(file) = files.place_of_path(path.as_str()) else {
        return Ok(None);
    };
    let offset = offset_in(files, view.encoding, file, position);
    Ok(Some(FileOffset { file, offset }))
}

/// A range as the protocol has it.
pub(crate) fn sent_range(range: Range) -> SentRange
    ensures { result ≡ sent_range range }
{
    SentRange {
        start: sent_position(range.start),
        end: sent_position(range.end),
    }
}

// A location of one of the files, under the URI that the client has for it.
fn sent(
    alloc: Global,
    view: &View,
    files: &Files,
    location: &Location,
) -> Result<SentLocation, NoMemory>
    ensures { IfOk result (IsSent (view_at view.now) files.now location.now) }
{
    Ok(SentLocation {
        uri: uri_at(alloc, view, path_of(files, location.file))?,
        range: sent_range(location.range),
    })
}

fn all_sent(
    alloc: Global,
    view: &View,
    files: &Files,
    locations: &[Location],
) -> Result<Reply, NoMemory>
    ensures { IfOk result (IsAllSent (view_at view.now) files.now locations.now) }
{
    let mut all = Vec::new(alloc);
    for location in locations {
        all.push(sent(alloc, view, files, location)?)?;
    }
    Ok(Reply::Result(Answer::Locations(all)))
}

// Where what stands at a position of the files of a workspace is declared.
fn definition_in(
    alloc: Global,
    view: &View,
    workspace: &Workspace,
    at: &DocumentPosition,
) -> Result<Reply, NoMemory>
    requires { Compiles (view_at view.now) workspace.now }
    ensures { IfOk result (IsDefinitionReply (view_at view.now)
        (document_position_view at.now)) }
{
    let files = workspace.files();
    let Some(spot) = spot(alloc, view, files, at.uri.as_str(), at.position)? else {
        return Ok(Reply::Result(Answer::Null));
    };
    match definition_at(alloc, workspace, view.encoding, spot)? {
        Some(location) => all_sent(alloc, view, files, &[location]),
        None => Ok(Reply::Result(Answer::Null)),
    }
}

// Whether the client sees the file with this number as it is.
fn is_seen(view: &View, files: &Files, file: u32) -> bool
    ensures { result ≡ true → IsSeen (view_at view.now) files.now file }
{
    if file as usize >= files.len() || files.profile(file) != view.profile {
        return false;
    }
    let path = files.path(file);
    let text = files.source(file).as_bytes();
    for seen in view.files {
        if seen.0.as_str() == path {
            return seen.1.as_slice() == text;
        }
    }
    false
}

// The same while the files do not compile, from files that did: null where the client sees one of
// the two files otherwise.
fn definition_before(
    alloc: Global,
    view: &View,
    workspace: &Workspace,
    at: &DocumentPosition,
) -> Result<Reply, NoMemory>
    requires { HasNoFault (WorkspaceFaults (view_at view.now).files) → ⊥ }
    ensures { IfOk result (IsDefinitionReply (view_at view.now)
        (document_position_view at.now)) }
{
    let files = workspace.files();
    let Some(spot) = spot(alloc, view, files, at.uri.as_str(), at.position)? else {
        return Ok(Reply::Result(Answer::Null));
    };
    if !is_seen(view, files, spot.file) {
        return Ok(Reply::Result(Answer::Null));
    }
    let Some(location) = definition_at(alloc, workspace, view.encoding, spot)? else {
        return Ok(Reply::Result(Answer::Null));
    };
    if !is_seen(view, files, location.file) {
        return Ok(Reply::Result(Answer::Null));
    }
    all_sent(alloc, view, files, &[location])
}

/// Where what stands at a position is declared; null where no name stands there. While the files do
/// not compile, it is answered from the last that did, where the client sees the two files as they
/// were then, and else null. Fails only when out of memory.
pub fn definition_reply(
    alloc: Global,
    good: &mut Option<Workspace>,
    view: &View,
    at: &DocumentPosition,
) -> Result<Reply, NoMemory>
    ensures { IfOk result (IsDefinitionReply (view_at view.now)
        (document_position_view at.now)) }
{
    let compiles = bring(alloc, good, view.files, view.profile)?;
    let Some(workspace) = good.as_ref() else {
        return Ok(Reply::Result(Answer::Null));
    };
    if compiles {
        definition_in(alloc, view, workspace, at)
    } else {
        definition_before(alloc, view, workspace, at)
    }
}

/// The failure that says why the files do not compile. Fails only when out of memory.
fn fault_reply(alloc: Global, good: &Option<Workspace>, view: &View) -> Result<Reply, NoMemory>
    requires { HasNoFault (WorkspaceFaults (view_at view.now).files) → ⊥ }
    ensures { IfOk result (SaysFault (view_at view.now)) }
{
    let text = fault_text(alloc, good, view.files, view.profile)?;
    Ok(Reply::Failure(ErrorCode::RequestFailed, text))
}

fn references_in(
    alloc: Global,
    view: &View,
    workspace: &Workspace,
    at: &DocumentPosition,
    with_declaration: bool,
) -> Result<Reply, NoMemory>
    requires { Compiles (view_at view.now) workspace.now }
    ensures { IfOk result (IsReferencesReply (view_at view.now)
        (document_position_view at.now) with_declaration) }
{
    let files = workspace.files();
    let Some(spot) = spot(alloc, view, files, at.uri.as_str(), at.position)? else {
        return Ok(Reply::Result(Answer::Null));
    };
    match references_at(alloc, workspace, view.encoding, spot, with_declaration)? {
        Some(found) => all_sent(alloc, view, files, found.as_slice()),
        None => Ok(Reply::Result(Answer::Null)),
    }
}

/// Where the name that stands at a position is used, and declared, if that is asked for; null where
/// none stands there; the least fault where the files do not compile. Fails only when out of
/// memory.
pub fn references_reply(
    alloc: Global,
    good: &mut Option<Workspace>,
    view: &View,
    at: &DocumentPosition,
    with_declaration: bool,
) -> Result<Reply, NoMemory>
    ensures { IfOk result (IsReferencesReply (view_at view.now)
        (document_position_view at.now) with_declaration) }
{
    if !bring(alloc, good, view.files, view.profile)? {
        return fault_reply(alloc, good, view);
    }
    match good.as_ref() {
        Some(workspace) => references_in(alloc, view, workspace, at, with_declaration),
        None => unreachable!(),
    }
}

fn prepared_in(
    alloc: Global,
    view: &View,
    workspace: &Workspace,
    at: &DocumentPosition,
) -> Result<Reply, NoMemory>
    requires { Compiles (view_at view.now) workspace.now }
    ensures { IfOk result (IsPreparedReply (view_at view.now)
        (document_position_view at.now)) }
{
    let files = workspace.files();
    let Some(spot) = spot(alloc, view, files, at.uri.as_str(), at.position)? else {
        return Ok(Reply::Result(Answer::Null));
    };
    match prepare_rename(alloc, workspace, view.encoding, spot)? {
        Some(prepared) => {
            let range = sent_range(prepared.location.range);
            Ok(Reply::Result(Answer::Renameable(range, prepared.word)))
        }
        None => Ok(Reply::Result(Answer::Null)),
    }
}

/// What a rename at a position would replace; null where no name stands there; the least fault
/// where the files do not compile. Fails only when out of memory.
pub fn prepared_reply(
    alloc: Global,
    good: &mut Option<Workspace>,
    view: &View,
    at: &DocumentPosition,
) -> Result<Reply, NoMemory>
    ensures { IfOk result (IsPreparedReply (view_at view.now)
        (document_position_view at.now)) }
{
    if !bring(alloc, good, view.files, view.profile)? {
        return fault_reply(alloc, good, view);
    }
    match good.as_ref() {
        Some(workspace) => prepared_in(alloc, view, workspace, at),
        None => unreachable!(),
    }
}

// A text edit as the protocol has it.
fn text_edit(alloc: Global, edit: &RangeEdit) -> Result<TextEdit, NoMemory>
    ensures { IfOk result (IsTextEdit edit.now) }
{
    Ok(TextEdit {
        range: SentRange {
            start: sent_position(edit.start),
            end: sent_position(edit.end),
        },
        text: String::from_str(alloc, edit.new.as_str())?,
    })
}

fn text_edits(alloc: Global, edits: &[RangeEdit]) -> Result<Vec<TextEdit>, NoMemory>
    ensures { IfOk result (λ all. AllZip IsTextEdit edits.now all.items) }
{
    let mut all = Vec::new(alloc);
    for edit in edits {
        all.push(text_edit(alloc, edit)?)?;
    }
    Ok(all)
}

// The edits of a file, under the client's URI and with the version of its text.
fn document_edit(alloc: Global, view: &View, edits: &FileEdits) -> Result<DocumentEdit, NoMemory>
    ensures { IfOk result (IsDocumentEdit (view_at view.now) edits.now) }
{
    let path = edits.path.as_str();
    Ok(DocumentEdit {
        uri: uri_at(alloc, view, path)?,
        version: version_at(view, path),
        edits: text_edits(alloc, edits.edits.as_slice())?,
    })
}

/// The edits of files as the protocol has them. Fails only when out of memory.
pub(crate) fn document_edits(
    alloc: Global,
    view: &View,
    edits: &[FileEdits],
) -> Result<Vec<DocumentEdit>, NoMemory>
    ensures { IfOk result (λ all. AllZip (IsDocumentEdit (view_at view.now))
        edits.now all.items) }
{
    let mut all = Vec::new(alloc);
    for of_file in edits {
        all.push(document_edit(alloc, view, of_file)?)?;
    }
    Ok(all)
}

// What is replied where a rename has this answer.
fn renaming_reply(
    alloc: Global,
    view: &View,
    files: &Files,
    answer: &EditAnswer,
) -> Result<Reply, NoMemory>
    ensures { IfOk result (IsRenamingReply (view_at view.now) files.now answer.now) }
{
    match answer {
        EditAnswer::Edits(edits) => {
            let edits = document_edits(alloc, view, edits.as_slice())?;
            Ok(Reply::Result(Answer::Edits(edits)))
        }
        EditAnswer::LineEnds => failure(alloc, ErrorCode::RequestFailed, LINE_ENDS),
        EditAnswer::Refused(refusal) => {
            let text = refusal_text(alloc, refusal, files)?;
            Ok(Reply::Failure(ErrorCode::RequestFailed, text))
        }
    }
}

fn rename_in(
    alloc: Global,
    view: &View,
    workspace: &Workspace,
    at: &DocumentPosition,
    to: &str,
) -> Result<Reply, NoMemory>
    requires { Compiles (view_at view.now) workspace.now }
    ensures { IfOk result (IsRenameReply (view_at view.now)
        (document_position_view at.now) to.now) }
{
    let files = workspace.files();
    let Some(spot) = spot(alloc, view, files, at.uri.as_str(), at.position)? else {
        return Ok(Reply::Result(Answer::Null));
    };
    match rename_at(alloc, workspace, view.encoding, spot, to)? {
        Some(answer) => renaming_reply(alloc, view, files, &answer),
        None => failure(alloc, ErrorCode::RequestFailed, NO_NAME),
    }
}

/// The edits of a rename of what stands at a position, or why there are none. Fails only when out
/// of memory.
pub fn rename_reply(
    alloc: Global,
    good: &mut Option<Workspace>,
    view: &View,
    at: &DocumentPosition,
    to: &str,
) -> Result<Reply, NoMemory>
    ensures { IfOk result (IsRenameReply (view_at view.now)
        (document_position_view at.now) to.now) }
{
    if !bring(alloc, good, view.files, view.profile)? {
        return fault_reply(alloc, good, view);
    }
    match good.as_ref() {
        Some(workspace) => rename_in(alloc, view, workspace, at, to),
        None => unreachable!(),
    }
}
