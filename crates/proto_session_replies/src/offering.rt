//! What a client is offered to do with a part of a document.

ghost use Rattle.std.specs.Prelude.{◌≡◌, ◌<◌, ◌≤◌, ◌↔◌, ◌++◌, List, Option, IfOk, IsTrue, OnOk, length, map, option_to_list};
ghost use Rattle.std.specs.Global.{Vec};
ghost use Rattle.std.specs.List.{AllZip};
ghost use Rattle.proto_answers.specs.Actions.{IsDeletionAt};
ghost use Rattle.proto_files.specs.GivenFiles.{file_at};
ghost use Rattle.proto_lint_names.specs.Views.{finding_of};
ghost use Rattle.proto_session_files.specs.Views.{view_at};
ghost use Rattle.proto_session_replies.specs.Edits.{AreOffers, AreUnusedImports, IsAction, IsActionsReply, IsDropOffered, IsOnLines, OfferOf, deletion_offers};
ghost use Rattle.proto_session_replies.specs.Replies.{Compiles};

use crate::reply::Reply;
use crate::requesting::{document_edits, spot};
use proto_answers::{FileEdits, FileOffset, field_deletion, import_drop};
use proto_base::NoMemory;
use proto_edit::{Files, Workspace};
use proto_files::are_read;
use proto_lint::{Finding, Rule, RuleSet, lint};
use proto_messages::{ActionKind, Answer, CodeAction, Range as SentRange};
use proto_session_files::{View, bring, position_in};
use std::alloc::Global;

const DELETE_FIELD: &str = "Delete the field and reserve its number and name";

const DROP_IMPORT: &str = "Drop the unused import";

// An offer as the protocol has it.
fn action(
    alloc: Global,
    view: &View,
    title: &str,
    kind: ActionKind,
    edits: &[FileEdits],
) -> Result<CodeAction, NoMemory>
    ensures { IfOk result (IsAction (view_at view.now)
        (record { title = title.now; kind = kind; edits = edits.now })) }
{
    Ok(CodeAction {
        title: String::from_str(alloc, title)?,
        kind,
        edits: document_edits(alloc, view, edits)?,
    })
}

// Adds the deletion of the field that is declared at an offset, if it is offered.
fn add_deletion(
    alloc: Global,
    actions: &mut Vec<CodeAction>,
    view: &View,
    workspace: &Workspace,
    spot: FileOffset,
) -> Result<(), NoMemory>
    ensures { OnOk result ((deletion : Option (Vec FileEdits))
        × IsDeletionAt workspace.now view.now.encoding spot deletion
        × (added : List CodeAction) × (actions.new.items ≡ actions.old.items ++ added)
        × AllZip (IsAction (view_at view.now)) (deletion_offers deletion) added) }
{
    let Some(edits) = field_deletion(alloc, workspace, view.encoding, spot)? else {
        return Ok(());
    };
    let edits = edits.as_slice();
    actions.push(action(alloc, view, DELETE_FIELD, ActionKind::Refactor, edits)?)?;
    Ok(())
}

// The imports of all files that no reference needs.
fn unused_imports(alloc: Global, workspace: &Workspace) -> Result<Vec<Finding>, NoMemory>
    ensures { IfOk result (λ found.
        AreUnusedImports workspace.now (map finding_of found.items)) }
{
    are_read(workspace.files());
    let mut rules = RuleSet::none();
    rules.insert(Rule::ImportUsed);
    lint(alloc, workspace.files(), workspace.link(), &rules)
}

// Whether a line is one of those of a range.
fn is_between(line: u32, range: SentRange) -> bool
    ensures { IsTrue result ↔ ((range.start.line ≤ line) × (line ≤ range.end.line)) }
{
    range.start.line <= line && line <= range.end.line
}

// Lines of a file.
#[derive(Clone, Copy)]
struct FileLines {
    file: u32,
    range: SentRange,
}

// Whether a finding stands on one of the lines.
fn is_on_lines(view: &View, files: &Files, lines: FileLines, finding: &Finding) -> bool
    requires { lines.file < length files.now }
    ensures { IsTrue result ↔ IsOnLines view.now.encoding (file_at files.now lines.file)
        lines.range (finding_of finding.now) }
{
    if finding.path.as_str() != files.path(lines.file) {
        return false;
    }
    let text = files.source(lines.file).as_bytes();
    let position = position_in(text, view.encoding, finding.offset as usize);
    is_between(position.line, lines.range)
}

// The drop of an unused import that stands on one of the lines, if it is offered.
fn drop_action(
    alloc: Global,
    view: &View,
    workspace: &Workspace,
    lines: FileLines,
    finding: &Finding,
) -> Result<Option<CodeAction>, NoMemory>
    requires { lines.file < length workspace.now }
    ensures { IfOk result (λ action. (offers : List OfferOf)
        × IsDropOffered workspace.now view.now.encoding (file_at workspace.now lines.file)
        lines.range (finding_of finding.now) offers
        × AllZip (IsAction (view_at view.now)) offers (option_to_list action)) }
{
    if finding.rule != Rule::ImportUsed {
        return Ok(None);
    }
    if !is_on_lines(view, workspace.files(), lines, finding) {
        return Ok(None);
    }
    let Some(edits) = import_drop(alloc, workspace, view.encoding, finding)? else {
        return Ok(None);
    };
    let edits = edits.as_slice();
    let action = action(alloc, view, DROP_IMPORT, ActionKind::QuickFix, edits)?;
    Ok(Some(action))
}

// What is offered at an offset, and for a range.
fn actions_at(
    alloc: Global,
    view: &View,
    workspace: &Workspace,
    spot: FileOffset,
    range: SentRange,
) -> Result<Vec<CodeAction>, NoMemory>
    requires { spot.file < length workspace.now }
    ensures { IfOk result (λ actions. (offers : List OfferOf)
        × AreOffers workspace.now view.now.encoding spot range offers
        × AllZip (IsAction (view_at view.now)) offers actions.items) }
{
    let mut actions = Vec::new(alloc);
    add_deletion(alloc, &mut actions, view, workspace, spot)?;
    let unused = unused_imports(alloc, workspace)?;
    let file = spot.file;
    let lines = FileLines { file, range };
    for finding in unused.as_slice() {
        if let Some(action) = drop_action(alloc, view, workspace, lines, finding)? {
            actions.push(action)?;
        }
    }
    Ok(actions)
}

fn actions_in(
    alloc: Global,
    view: &View,
    workspace: &Workspace,
    uri: &str,
    range: SentRange,
) -> Result<Vec<CodeAction>, NoMemory>
    requires { Compiles (view_at view.now) workspace.now }
    ensures { IfOk result (λ actions. IsActionsReply (view_at view.now) uri.now range
        (Reply.Result (Answer.Actions actions))) }
{
    match spot(alloc, view, workspace.files(), uri, range.start)? {
        Some(spot) => actions_at(alloc, view, workspace, spot, range),
        None => Ok(Vec::new(alloc)),
    }
}

/// What is offered for a range of a document: nothing where the files do not compile. Fails only
/// when out of memory.
pub fn actions_reply(
    alloc: Global,
    good: &mut Option<Workspace>,
    view: &View,
    uri: &str,
    range: SentRange,
) -> Result<Reply, NoMemory>
    ensures { IfOk result (IsActionsReply (view_at view.now) uri.now range) }
{
    if !bring(alloc, good, view.files, view.profile)? {
        return Ok(Reply::Result(Answer::Actions(Vec::new(alloc))));
    }
    match good.as_ref() {
        Some(workspace) => {
            let actions = actions_in(alloc, view, workspace, uri, range)?;
            Ok(Reply::Result(Answer::Actions(actions)))
        }
        None => unreachable!(),
    }
}
