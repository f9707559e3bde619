//! A workspace that is edited and led back. A call that memory refused changed nothing, and is made
//! again. One function owns a workspace, all else borrows it.

ghost use Rattle.std.specs.Prelude.{◌≡◌, ◌≢◌, ◌++◌, [], ◌∷◌, IfErr, IfOk, IsTrue, OnOk, map};
ghost use Rattle.proto_edit.specs.Compiled.{AreCompiled};
ghost use Rattle.proto_edit.specs.Workspaces.{IsMappedStep, IsRefusal, Run, accepted};
ghost use Rattle.protoref_test_cases.specs.RowsHold.{AreLed, IsLed, RowHolds, ShowsPart, StepsHold, UndoneSo, UndosHold, UndosLead, row_files, written_row, written_step, undo_of};
ghost use Rattle.protoref_test_cases.specs.Told.{told_of};
ghost use Rattle.proto_desc.specs.Whole.{IsSortedOf};

use crate::calls::{are_texts, edit_of, is_said, open};
use crate::file_texts::{text_of_files, text_of_row};
use crate::row::{Row, Undo};
use crate::step::Step;
use crate::told::expect_told;
use crate::unlike::{Name, Unlike, expect};
use proto_base::NoMemory;
use proto_edit::{Edit, Entry, Files, Refusal, Workspace, to_json};
use std::alloc::Global;

// A workspace, and the entries of the edits that led to it, from the first to the last.
#[derive(Drop)]
struct Edited {
    workspace: Workspace,
    entries: Vec<Entry>,
}

fn begin_edits(alloc: Global, files: &[(&str, &str)]) -> Result<Edited, Unlike>
    ensures sorted { IfOk result (λ e. IsSortedOf (row_files files.now) e.workspace) }
    ensures compiled { IfOk result (λ e. AreCompiled e.workspace) }
    ensures none { IfOk result (λ e. e.entries.items ≡ []) }
{
    let workspace = open(alloc, files)?;
    let entries = Vec::new(alloc);
    Ok(Edited { workspace, entries })
}

// ---- what a workspace holds

// The text of the descriptors, the paths and the files.
fn state(alloc: Global, workspace: &Workspace) -> Result<Vec<u8>, NoMemory> {
    let mut state = to_json(alloc, workspace.descriptors())?.into_bytes();
    add_files(&mut state, workspace.files())?;
    Ok(state)
}

fn add_files(state: &mut Vec<u8>, files: &Files) -> Result<(), NoMemory> {
    for file in files {
        state.extend_from_slice(file.path.as_bytes())?;
        state.extend_from_slice(file.source.as_bytes())?;
    }
    Ok(())
}

fn words_of(state: &[u8]) -> &str {
    str::from_utf8(state).unwrap_or("a state that is no text")
}

fn expect_state(alloc: Global, workspace: &Workspace, wanted: &[u8]) -> Result<(), Unlike> {
    let state = state(alloc, workspace)?;
    let holds = state.as_slice() == wanted;
    expect(alloc, holds, words_of(state.as_slice()), words_of(wanted))
}

fn expect_files(alloc: Global, workspace: &Workspace, files: &[(&str, &str)]) -> Result<(), Unlike>
    ensures { OnOk result (workspace.now ≡ row_files files.now) }
{
    let holds = are_texts(workspace, files);
    expect_texts(alloc, holds, workspace.files(), files)
}

// What the files are in place of those of the row, unless it holds.
fn expect_texts(
    alloc: Global,
    holds: bool,
    files: &Files,
    wanted: &[(&str, &str)],
) -> Result<(), Unlike>
    ensures { OnOk result (IsTrue holds) }
{
    if holds {
        return Ok(());
    }
    let told = text_of_files(alloc, files)?;
    let wanted = text_of_row(alloc, wanted)?;
    expect(alloc, holds, told.as_str(), wanted.as_str())
}

// The files are these, and this stands in the descriptors.
fn expect_held(
    alloc: Global,
    workspace: &Workspace,
    files: &[(&str, &str)],
    part: &str,
) -> Result<(), Unlike>
    ensures files { OnOk result (workspace.now ≡ row_files files.now) }
    ensures shown { OnOk result (ShowsPart workspace.now part.now) }
{
    expect_files(alloc, workspace, files)?;
    expect_shown(alloc, workspace, part)
}

// This stands in the descriptors.
fn expect_shown(alloc: Global, workspace: &Workspace, part: &str) -> Result<(), Unlike>
    ensures { OnOk result (ShowsPart workspace.now part.now) }
{
    let json = to_json(alloc, workspace.descriptors())?;
    let holds = json.as_str().contains(part);
    expect(alloc, holds, json.as_str(), part)
}

// The workspace is as these files were opened.
fn expect_first(
    alloc: Global,
    workspace: &Workspace,
    files: &[(&str, &str)],
    first: &[u8],
) -> Result<(), Unlike>
    ensures { OnOk result (workspace.now ≡ row_files files.now) }
{
    expect_files(alloc, workspace, files)?;
    expect_state(alloc, workspace, first)
}

// ---- edits one after another

type Answer = Result<Entry, Refusal>;

fn apply(alloc: Global, workspace: &mut Workspace, step: Step) -> Answer
    ensures ok { IfOk result (λ cs. IsMappedStep workspace.old
        (written_step step.entry).edit cs workspace.new) }
    ensures err { IfErr result (λ r. IsRefusal workspace.old (written_step step.entry).edit r
        × (workspace.new ≡ workspace.old)) }
{
    let edit = edit_of(alloc, step)?;
    workspace.apply(alloc, edit)
}

// Made once more in the files before, where memory refused it. A second time is out of memory.
fn answered_again(
    alloc: Global,
    workspace: &mut Workspace,
    step: Step,
    before: &[u8],
) -> Result<Answer, Unlike>
    ensures { IfOk result (λ a. Run workspace.old
        ((written_step step.entry).edit ∷ []) (a ∷ []) workspace.new) }
{
    expect_state(alloc, workspace, before)?;
    match apply(alloc, workspace, step) {
        Ok(entry) => Ok(Ok(entry)),
        Err(Refusal::NoMemory) => Err(Unlike::NoMemory),
        Err(refusal) => Ok(Err(refusal)),
    }
}

// What the step's edit is answered.
fn answer_of_step(alloc: Global, workspace: &mut Workspace, step: Step) -> Result<Answer, Unlike>
    ensures { IfOk result (λ a. Run workspace.old
        ((written_step step.entry).edit ∷ []) (a ∷ []) workspace.new) }
{
    let before = state(alloc, workspace)?;
    match apply(alloc, workspace, step) {
        Ok(entry) => Ok(Ok(entry)),
        Err(Refusal::NoMemory) => answered_again(alloc, workspace, step, before.as_slice()),
        Err(refusal) => Ok(Err(refusal)),
    }
}

// An entry is put behind the others.
fn accept(entries: &mut Vec<Entry>, answer: Answer) -> Result<(), NoMemory>
    ensures { OnOk result (entries.new.items ≡ entries.old.items ++ accepted (answer ∷ [])) }
{
    match answer {
        Ok(entry) => Ok(entries.push(entry)?),
        Err(_refusal) => Ok(()),
    }
}

// The edit is answered so.
fn expect_answer(
    alloc: Global,
    entries: &mut Vec<Entry>,
    answer: Answer,
    wanted: &str,
) -> Result<(), Unlike>
    ensures told { OnOk result (told_of answer ≡ wanted.now) }
    ensures entries { OnOk result
        (entries.new.items ≡ entries.old.items ++ accepted (answer ∷ [])) }
{
    expect_told(alloc, &answer, wanted)?;
    Ok(accept(entries, answer)?)
}

fn expect_step(alloc: Global, edited: &mut Edited, step: Step) -> Result<(), Unlike>
    ensures { OnOk result (IsLed edited.old.workspace edited.old.entries.items
        (written_step step.entry) edited.new.workspace edited.new.entries.items) }
{
    let answer = answer_of_step(alloc, &mut edited.workspace, step)?;
    let (.., wanted) = step;
    expect_answer(alloc, &mut edited.entries, answer, wanted)
}

// The steps are answered as they say, each in the workspace as it then stands.
fn expect_answers(alloc: Global, edited: &mut Edited, steps: &[Step]) -> Result<(), Unlike>
    ensures { OnOk result (AreLed edited.old.workspace edited.old.entries.items
        (map written_step steps.now) edited.new.workspace edited.new.entries.items) }
{
    for &step in steps {
        expect_step(alloc, edited, step)?;
    }
    Ok(())
}

// ---- the way back

fn undo_again(
    alloc: Global,
    workspace: &mut Workspace,
    entry: &Entry,
    before: &[u8],
) -> Result<(), Unlike> {
    expect_state(alloc, workspace, before)?;
    Ok(workspace.undo(alloc, entry)?)
}

fn undo(alloc: Global, workspace: &mut Workspace, entry: &Entry) -> Result<(), Unlike> {
    let before = state(alloc, workspace)?;
    match workspace.undo(alloc, entry) {
        Err(Refusal::NoMemory) => undo_again(alloc, workspace, entry, before.as_slice()),
        answer => Ok(answer?),
    }
}

// From the last entry to the first.
fn undo_one_by_one(
    alloc: Global,
    workspace: &mut Workspace,
    entries: &[Entry],
) -> Result<(), Unlike> {
    for entry in entries.iter().rev() {
        undo(alloc, workspace, entry)?;
    }
    Ok(())
}

// The name of a refusal, or `done`.
fn name_of(answer: &Result<(), Refusal>) -> &'static str {
    match answer {
        Ok(()) => "done",
        Err(refusal) => refusal.name(),
    }
}

// One undo is answered so, and leaves these files.
fn expect_undo(
    alloc: Global,
    workspace: &mut Workspace,
    entries: &[Entry],
    undo: &Undo,
) -> Result<(), Unlike>
    ensures undone { OnOk result (UndoneSo entries.now workspace.old (undo_of undo.now)) }
    ensures files { OnOk result (workspace.new ≡ (undo_of undo.now).files) }
{
    let (number, said, files) = *undo;
    let Some(entry) = entries.get(number) else {
        return Err(Unlike::Named(Name {
            text: "no such entry",
        }));
    };
    let (_, name) = said;
    let answer = workspace.undo(alloc, entry);
    let told = name_of(&answer);
    let holds = is_said(answer, said);
    expect(alloc, holds, told, name)?;
    expect_files(alloc, workspace, files)
}

fn expect_undos(
    alloc: Global,
    workspace: &mut Workspace,
    entries: &[Entry],
    undos: &[Undo],
) -> Result<(), Unlike>
    ensures { OnOk result (UndosLead entries.now workspace.old
        (map undo_of undos.now) workspace.new) }
{
    for undo in undos {
        expect_undo(alloc, workspace, entries, undo)?;
    }
    Ok(())
}

// As undos say, if there are any; else from the last entry to the first.
fn undo_each(
    alloc: Global,
    workspace: &mut Workspace,
    entries: &[Entry],
    undos: &[Undo],
) -> Result<(), Unlike>
    ensures { OnOk result (map undo_of undos.now ≢ [] → UndosLead entries.now
        workspace.old (map undo_of undos.now) workspace.new) }
{
    if undos.is_empty() {
        undo_one_by_one(alloc, workspace, entries)
    } else {
        expect_undos(alloc, workspace, entries, undos)
    }
}

// The entries lead back at once.
fn expect_back_at_once(
    alloc: Global,
    edited: &Edited,
    files: &[(&str, &str)],
    first: &[u8],
) -> Result<(), Unlike> {
    let entries = edited.entries.as_slice();
    let back = edited.workspace.undo_all(alloc, entries)?;
    let held = expect_first(alloc, &back, files, first);
    back.release();
    held
}

// They lead back one by one, as undos say, if there are any.
fn expect_back(
    alloc: Global,
    edited: &mut Edited,
    files: &[(&str, &str)],
    first: &[u8],
    undos: &[Undo],
) -> Result<(), Unlike>
    ensures { OnOk result (map undo_of undos.now ≢ [] → UndosLead edited.old.entries.items
        edited.old.workspace (map undo_of undos.now) (row_files files.now)) }
{
    let entries = edited.entries.as_slice();
    undo_each(alloc, &mut edited.workspace, entries, undos)?;
    expect_first(alloc, &edited.workspace, files, first)
}

// The files of the row afterwards.
fn files_of<'a>(row: &Row<'a>) -> &'a [(&'a str, &'a str)]
    ensures { row_files result.now ≡ (written_row row.now).after }
{
    match row.after {
        [] => row.files,
        after => after,
    }
}

// The row's files and descriptors afterwards, and the way back.
fn expect_after(
    alloc: Global,
    edited: &mut Edited,
    row: &Row,
    first: &[u8],
    undos: &[Undo],
) -> Result<(), Unlike>
    ensures files { OnOk result (edited.old.workspace ≡ (written_row row.now).after) }
    ensures shown { OnOk result (ShowsPart edited.old.workspace (written_row row.now).part) }
    ensures back { OnOk result (map undo_of undos.now ≢ [] → UndosLead edited.old.entries.items
        edited.old.workspace (map undo_of undos.now) (written_row row.now).files) }
{
    expect_held(alloc, &edited.workspace, files_of(row), row.json)?;
    expect_back_at_once(alloc, edited, row.files, first)?;
    expect_back(alloc, edited, row.files, first, undos)
}

// ---- a run

fn add_edit(alloc: Global, edits: &mut Vec<Edit>, step: Step) -> Result<(), NoMemory> {
    let edit = edit_of(alloc, step)?;
    Ok(edits.push(edit)?)
}

fn edits_of(alloc: Global, steps: &[Step]) -> Result<Vec<Edit>, NoMemory> {
    let mut edits = Vec::new(alloc);
    for &step in steps {
        add_edit(alloc, &mut edits, step)?;
    }
    Ok(edits)
}

type Ran = (Workspace, Vec<Answer>);

fn run(alloc: Global, workspace: &Workspace, steps: &[Step]) -> Result<Ran, NoMemory> {
    let edits = edits_of(alloc, steps)?;
    workspace.apply_all(alloc, edits.as_slice())
}

// The answers of the run are those of the steps.
fn expect_run_answers(
    alloc: Global,
    edited: &mut Edited,
    answers: Vec<Answer>,
    steps: &[Step],
) -> Result<(), Unlike> {
    let holds = answers.len() == steps.len();
    expect(alloc, holds, "other answers", "one a step")?;
    for (answer, &(.., wanted)) in answers.into_iter().zip(steps) {
        expect_answer(alloc, &mut edited.entries, answer, wanted)?;
    }
    Ok(())
}

fn expect_ran(
    alloc: Global,
    edited: &mut Edited,
    answers: Vec<Answer>,
    row: &Row,
    first: &[u8],
    undos: &[Undo],
) -> Result<(), Unlike> {
    expect_run_answers(alloc, edited, answers, row.steps)?;
    expect_after(alloc, edited, row, first, undos)
}

fn expect_run(
    alloc: Global,
    workspace: &Workspace,
    row: &Row,
    first: &[u8],
    undos: &[Undo],
) -> Result<(), Unlike> {
    let (workspace, answers) = run(alloc, workspace, row.steps)?;
    let entries = Vec::new(alloc);
    let mut ran = Edited { workspace, entries };
    let held = expect_ran(alloc, &mut ran, answers, row, first, undos);
    ran.workspace.release();
    held
}

// ---- a row

// As one run, which leaves the workspace as it is, and step by step.
fn expect_ways(
    alloc: Global,
    edited: &mut Edited,
    row: &Row,
    first: &[u8],
    undos: &[Undo],
) -> Result<(), Unlike>
    ensures row { OnOk result (AreCompiled edited.old.workspace → RowHolds (written_row row.now)) }
    ensures undos { OnOk result (edited.old.entries.items ≡ []
        → UndosHold (written_row row.now) (map undo_of undos.now)) }
{
    expect_run(alloc, &edited.workspace, row, first, undos)?;
    expect_first(alloc, &edited.workspace, row.files, first)?;
    expect_answers(alloc, edited, row.steps)?;
    expect_after(alloc, edited, row, first, undos)
}

fn expect_edited(
    alloc: Global,
    edited: &mut Edited,
    row: &Row,
    undos: &[Undo],
) -> Result<(), Unlike>
    ensures row { OnOk result (AreCompiled edited.old.workspace → RowHolds (written_row row.now)) }
    ensures undos { OnOk result (edited.old.entries.items ≡ []
        → UndosHold (written_row row.now) (map undo_of undos.now)) }
{
    let first = state(alloc, &edited.workspace)?;
    expect_ways(alloc, edited, row, first.as_slice(), undos)
}

/// The steps are answered as they say, one after another.
pub(crate) fn expect_steps(
    alloc: Global,
    files: &[(&str, &str)],
    steps: &[Step],
) -> Result<(), Unlike>
    ensures { OnOk result (StepsHold (row_files files.now) (map written_step steps.now)) }
{
    let mut edited = begin_edits(alloc, files)?;
    let held = expect_answers(alloc, &mut edited, steps);
    edited.workspace.release();
    held
}

/// The row holds as one run and step by step, with the way back at once and one by one, as undos
/// say, if there are any.
pub(crate) fn expect_row(alloc: Global, row: &Row, undos: &[Undo]) -> Result<(), Unlike>
    ensures row { OnOk result (RowHolds (written_row row.now)) }
    ensures undos { OnOk result (UndosHold (written_row row.now) (map undo_of undos.now)) }
{
    let mut edited = begin_edits(alloc, row.files)?;
    let held = expect_edited(alloc, &mut edited, row, undos);
    edited.workspace.release();
    held
}
