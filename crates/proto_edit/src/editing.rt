//! Edits of a workspace, and the way back.

ghost use Rattle.std.specs.Prelude.{◌≡◌, ◌+◌, ◌≤◌, ◌^◌, length, map, reverse, IfOk, IfErr, OnOk, OnErr};
ghost use Rattle.proto_edit.specs.Answers.{asked, IsPutRefusal, IsUndoRefusal, IsUndoAllRefusal, LeadsBack};
ghost use Rattle.proto_edit.specs.Compiled.{AreCompiled};
ghost use Rattle.proto_edit_entries.specs.Entries.{change_of, AreRising};
ghost use Rattle.proto_edit_entries.specs.Putting.{IsPut};
ghost use Rattle.proto_edit.specs.Workspaces.{rename as rename_asked, delete_field as delete_asked, add_import as add_asked, drop_import as drop_asked, IsAdmissible, AreChanges, IsRefusal, IsMappedStep, IsUndo, Run, Undone};

use crate::laws::statements_are_known;
use crate::workspace::Workspace;
use proto_base::NoMemory;
use proto_edit_entries::{Change, Edit, Entry, Refusal, all_turned_round};
use proto_edit_rename::rename;
use proto_edit_statement_described::laws::numbers_are_read;
use proto_edit_statements::{add_import, delete_field, drop_import};
use proto_files::are_read;
use proto_tree::Steps;
use std::alloc::Global;

impl Workspace {
    // What a rename changes, file by file, or the least case that refuses it.
    fn changes_of_rename(&self, alloc: Global, name: &str, to: &str) -> Result<Vec<Change>, Refusal>
        ensures ok { IfOk result (λ cs. IsAdmissible self.now (rename_asked name.now to.now)
            × AreChanges self.now (rename_asked name.now to.now) (map change_of cs.items)) }
        ensures err { IfErr result (IsRefusal self.now (rename_asked name.now to.now)) }
    {
        rename(alloc, &self.linked(), self.options(), name, to)
    }

    // What the deletion of a field changes, or the least case that refuses it. The numbers
    // of fields that compile are small.
    fn changes_of_deletion(&self, alloc: Global, name: &str) -> Result<Vec<Change>, Refusal>
        ensures ok { IfOk result (λ cs. IsAdmissible self.now (delete_asked name.now)
            × AreChanges self.now (delete_asked name.now) (map change_of cs.items)) }
        ensures err { IfErr result (IsRefusal self.now (delete_asked name.now)) }
    {
        numbers_are_read();
        delete_field(alloc, &self.linked(), self.options(), name)
    }

    // What an added import changes, or the least case that refuses it.
    fn changes_of_addition(
        &self,
        alloc: Global,
        file: &str,
        path: &str,
    ) -> Result<Vec<Change>, Refusal>
        ensures ok { IfOk result (λ cs. IsAdmissible self.now (add_asked file.now path.now)
            × AreChanges self.now (add_asked file.now path.now) (map change_of cs.items)) }
        ensures err { IfErr result (IsRefusal self.now (add_asked file.now path.now)) }
    {
        add_import(alloc, self.files(), self.link(), file, path)
    }

    // What a dropped import changes, or the least case that refuses it.
    fn changes_of_drop(&self, alloc: Global, file: &str, path: &str) -> Result<Vec<Change>, Refusal>
        ensures ok { IfOk result (λ cs. IsAdmissible self.now (drop_asked file.now path.now)
            × AreChanges self.now (drop_asked file.now path.now) (map change_of cs.items)) }
        ensures err { IfErr result (IsRefusal self.now (drop_asked file.now path.now)) }
    {
        drop_import(alloc, self.files(), self.link(), file, path)
    }

    // What an edit changes, file by file, or the least case that refuses it.
    fn change(&self, alloc: Global, edit: &Edit) -> Result<Vec<Change>, Refusal>
        ensures ok { IfOk result (λ cs. IsAdmissible self.now
            (asked edit.now) × AreChanges self.now (asked edit.now) (map change_of cs.items)) }
        ensures err { IfErr result (IsRefusal self.now (asked edit.now)) }
    {
        are_read(self.files());
        match edit {
            Edit::Rename { name, to } => self.changes_of_rename(alloc, name.as_str(), to.as_str()),
            Edit::DeleteField { name } => self.changes_of_deletion(alloc, name.as_str()),
            Edit::AddImport { file, path } => self.changes_of_addition(
                alloc,
                file.as_str(),
                path.as_str(),
            ),
            Edit::DropImport { file, path } => self.changes_of_drop(
                alloc,
                file.as_str(),
                path.as_str(),
            ),
        }
    }

    // What an edit changes, as an entry, or the least case that refuses it.
    pub(crate) fn entry_of(&self, alloc: Global, edit: &Edit) -> Result<Entry, Refusal>
        ensures ok { IfOk result (λ entry. IsAdmissible self.now
            (asked edit.now) × AreChanges self.now (asked edit.now) entry) }
        ensures err { IfErr result (IsRefusal self.now (asked edit.now)) }
    {
        // The files compile, so what is admissible changes them.
        statements_are_known();
        self.files();
        let changes = self.change(alloc, edit)?;
        match Entry::new(changes) {
            Some(entry) => Ok(entry),
            None => unreachable!(),
        }
    }

    // Edits this workspace; each changed file is read again, once.
    fn make(&mut self, alloc: Global, edit: &Edit, steps: &mut Steps) -> Result<Entry, Refusal>
        requires steps { steps.old ≤ 2 ^ 63 }
        ensures ok { IfOk result (λ entry. IsMappedStep self.old (asked edit.now) entry self.new) }
        ensures err { IfErr result (λ r. IsRefusal self.old
            (asked edit.now) r × (self.new ≡ self.old)) }
        ensures counted { IfOk result (λ entry. steps.new ≡ steps.old + length entry) }
        ensures refused { OnErr result ((steps.old ≤ steps.new)
            × (steps.new ≤ steps.old + 4096)) }
    {
        // The files compile, so what is admissible can be made.
        statements_are_known();
        self.files();
        let entry = self.entry_of(alloc, edit)?;
        match self.put(alloc, entry.changes(), steps) {
            Ok(()) => Ok(entry),
            Err(Refusal::NoMemory) => Err(Refusal::NoMemory),
            Err(_) => unreachable!(),
        }
    }

    // The workspace with changes, if they can be made and what they leave compiles.
    fn with_changes(&self, alloc: Global, changes: &[Change]) -> Result<Workspace, Refusal>
        requires { AreRising (map change_of changes.now) }
        ensures put { IfOk result (IsPut self.now (map change_of changes.now)) }
        ensures compiled { IfOk result AreCompiled }
        ensures err { IfErr result (IsPutRefusal self.now (map change_of changes.now)) }
    {
        let mut workspace = self.copy(alloc)?;
        match workspace.put(alloc, changes, &mut Steps::new()) {
            Ok(()) => Ok(workspace),
            Err(refusal) => {
                workspace.release();
                Err(refusal)
            }
        }
    }

    /// The workspace after an edit, and what the edit changed, where it is admissible
    /// here; else the least case that refuses it. The new files compile to the old
    /// descriptors under the edit's map.
    pub fn with_edit(&self, alloc: Global, edit: &Edit) -> Result<(Workspace, Entry), Refusal>
        ensures ok { IfOk result (λ x. IsMappedStep self.now (asked edit.now) x.1 x.0) }
        ensures err { IfErr result (IsRefusal self.now (asked edit.now)) }
    {
        // The files compile, so what is admissible can be made.
        statements_are_known();
        self.files();
        let entry = self.entry_of(alloc, edit)?;
        match self.with_changes(alloc, entry.changes()) {
            Ok(workspace) => Ok((workspace, entry)),
            Err(Refusal::NoMemory) => Err(Refusal::NoMemory),
            Err(_) => unreachable!(),
        }
    }

    /// The workspace before an entry. It is refused as stale exactly where a file of the entry is
    /// absent or not as the entry left it, or the files before it would not compile.
    pub fn without_entry(&self, alloc: Global, entry: &Entry) -> Result<Workspace, Refusal>
        ensures ok { IfOk result (IsUndo self.now entry.now) }
        ensures err { IfErr result (IsUndoRefusal self.now entry.now) }
    {
        let back = all_turned_round(alloc, entry.changes())?;
        self.with_changes(alloc, &back)
    }

    /// Edits this workspace and answers what was changed; a refused edit changes nothing.
    pub fn apply(&mut self, alloc: Global, edit: Edit) -> Result<Entry, Refusal>
        ensures ok { IfOk result (λ entry. IsMappedStep self.old (asked edit) entry self.new) }
        ensures err { IfErr result (λ r. IsRefusal self.old
            (asked edit) r × (self.new ≡ self.old)) }
    {
        self.apply_counted(alloc, edit, &mut Steps::new())
    }

    /// The same, and counts the files that are parsed: those that it changes, once each. An edit
    /// that is refused has counted at most 4,096.
    pub fn apply_counted(
        &mut self,
        alloc: Global,
        edit: Edit,
        steps: &mut Steps,
    ) -> Result<Entry, Refusal>
        requires steps { steps.old ≤ 2 ^ 63 }
        ensures ok { IfOk result (λ entry. IsMappedStep self.old (asked edit) entry self.new) }
        ensures err { IfErr result (λ r. IsRefusal self.old
            (asked edit) r × (self.new ≡ self.old)) }
        ensures counted { IfOk result (λ entry. steps.new ≡ steps.old + length entry) }
        ensures refused { OnErr result ((steps.old ≤ steps.new)
            × (steps.new ≤ steps.old + 4096)) }
    {
        self.make(alloc, &edit, steps)
    }

    /// Undoes an entry in this workspace; a refused undo changes nothing.
    pub fn undo(&mut self, alloc: Global, entry: &Entry) -> Result<(), Refusal>
        ensures ok { IfOk result (λ _. IsUndo self.old entry.now self.new) }
        ensures err { IfErr result (λ r. IsUndoRefusal self.old entry.now r
            × (self.new ≡ self.old)) }
    {
        self.undo_counted(alloc, entry, &mut Steps::new())
    }

    /// The same, and counts the files that are parsed: those of the entry, once each. Where it is
    /// refused it has counted at most 4,096.
    pub fn undo_counted(
        &mut self,
        alloc: Global,
        entry: &Entry,
        steps: &mut Steps,
    ) -> Result<(), Refusal>
        requires steps { steps.old ≤ 2 ^ 63 }
        ensures ok { IfOk result (λ _. IsUndo self.old entry.now self.new) }
        ensures err { IfErr result (λ r. IsUndoRefusal self.old entry.now r
            × (self.new ≡ self.old)) }
        ensures counted { OnOk result (steps.new ≡ steps.old + length entry.now) }
        ensures refused { OnErr result ((steps.old ≤ steps.new)
            × (steps.new ≤ steps.old + 4096)) }
    {
        let back = all_turned_round(alloc, entry.changes())?;
        self.put(alloc, &back, steps)
    }

    /// The run of the edits: the workspace after them, and what each of them is answered. Fails
    /// only when out of memory, which is the answer to no edit of the run.
    pub fn apply_all(
        &self,
        alloc: Global,
        edits: &[Edit],
    ) -> Result<(Workspace, Vec<Result<Entry, Refusal>>), NoMemory>
        ensures { IfOk result (λ x. Run self.now (map asked edits.now) x.1.items x.0) }
    {
        let mut workspace = self.copy(alloc)?;
        let mut answers = Vec::new(alloc);
        for edit in edits {
            let answer = match workspace.make(alloc, edit, &mut Steps::new()) {
                Ok(entry) => Ok(entry),
                Err(Refusal::NoMemory) => {
                    workspace.release();
                    return Err(NoMemory);
                }
                Err(refusal) => Err(refusal),
            };
            match answers.push(answer) {
                Ok(()) => {}
                Err(_) => {
                    workspace.release();
                    return Err(NoMemory);
                }
            }
        }
        Ok((workspace, answers))
    }

    /// Undoes the entries, which are given first to last, from the last to the first. Stale exactly
    /// where one of them cannot be undone in what the ones after it left.
    pub fn undo_all(&self, alloc: Global, entries: &[Entry]) -> Result<Workspace, Refusal>
        ensures ok { IfOk result (Undone self.now (reverse entries.now)) }
        ensures err { IfErr result (IsUndoAllRefusal self.now (reverse entries.now)) }
        // From the files of a run, undoing its entries leads back.
        ensures back { LeadsBack self.now entries.now result }
    {
        statements_are_known();
        let mut workspace = self.copy(alloc)?;
        for entry in entries.iter().rev() {
            match workspace.undo(alloc, entry) {
                Ok(()) => {}
                Err(refusal) => {
                    workspace.release();
                    return Err(refusal);
                }
            }
        }
        Ok(workspace)
    }
}
