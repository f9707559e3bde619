//! What is shown of files.

ghost use Rattle.std.specs.Prelude.{◌≡◌, IfOk, IfSome, None, map};
ghost use Rattle.proto_base.specs.GivenFiles.{files_of_as};
ghost use Rattle.proto_files.specs.Faults.{fault_at};
ghost use Rattle.proto_lint_names.specs.Views.{finding_of};
ghost use Rattle.proto_session_told.specs.Shown.{AreFindingsShown, IsShown, shown_fault, shown_finding, shown_of};

use proto_all_faults::laws::first_is_least;
use proto_base::{Fault, FaultKind, NoMemory, Profile};
use proto_edit::Workspace;
use proto_files::are_read;
use proto_lint::{Finding, RuleSet, lint};
use proto_messages::Severity;
use proto_session_files::{bring, faults_after};
use std::alloc::Global;

/// What is shown at an offset of a file.
#[derive(Drop)]
pub(crate) struct Shown {
    /// The path of the file.
    pub(crate) path: String,
    /// The offset, in bytes from 0.
    pub(crate) offset: u32,
    /// How grave it is.
    pub(crate) severity: Severity,
    /// What it is called.
    pub(crate) code: String,
    /// What a user reads.
    pub(crate) message: String,
    /// Whether an import of a path that is not there stands at the offset.
    pub(crate) is_unknown_import: bool,
}

// A fault, as `NUMBER NAME`.
fn shown_fault(alloc: Global, fault: &Fault) -> Result<Shown, NoMemory>
    ensures { IfOk result (λ shown. shown_of shown ≡ shown_fault (fault_at fault.now)) }
{
    let number = fault.number();
    let name = fault.name();
    Ok(Shown {
        path: String::from_str(alloc, fault.path.as_str())?,
        offset: fault.offset,
        severity: Severity::Error,
        code: String::from_str(alloc, name)?,
        message: format!(in alloc; "{number} {name}")?,
        is_unknown_import: number == FaultKind::UnknownImport.number(),
    })
}

// A finding, as `RULE name`.
fn shown_finding(alloc: Global, finding: &Finding) -> Result<Shown, NoMemory>
    ensures { IfOk result (λ shown. shown_of shown ≡ shown_finding (finding_of finding.now)) }
{
    let rule = finding.rule.name();
    let name = finding.name.as_str();
    Ok(Shown {
        path: String::from_str(alloc, finding.path.as_str())?,
        offset: finding.offset,
        severity: Severity::Warning,
        code: String::from_str(alloc, rule)?,
        message: format!(in alloc; "{rule} {name}")?,
        is_unknown_import: false,
    })
}

fn shown_faults(alloc: Global, listed: &[Fault]) -> Result<Vec<Shown>, NoMemory>
    ensures { IfOk result (λ shown. map shown_of shown.items
        ≡ map shown_fault (map fault_at listed.now)) }
{
    let mut shown = Vec::new(alloc);
    for fault in listed {
        shown.push(shown_fault(alloc, fault)?)?;
    }
    Ok(shown)
}

fn shown_findings(alloc: Global, listed: &[Finding]) -> Result<Vec<Shown>, NoMemory>
    ensures { IfOk result (λ shown. map shown_of shown.items
        ≡ map shown_finding (map finding_of listed.now)) }
{
    let mut shown = Vec::new(alloc);
    for finding in listed {
        shown.push(shown_finding(alloc, finding)?)?;
    }
    Ok(shown)
}

// What all rules find in a workspace.
fn findings_of(alloc: Global, workspace: &Workspace) -> Result<Vec<Shown>, NoMemory>
    ensures { IfOk result (λ shown.
        AreFindingsShown workspace.now (map shown_of shown.items)) }
{
    let rules = RuleSet::all();
    are_read(workspace.files());
    let listed = lint(alloc, workspace.files(), workspace.link(), &rules)?;
    shown_findings(alloc, listed.as_slice())
}

// What is shown of files that compile.
fn findings_in(alloc: Global, good: &Option<Workspace>) -> Result<Vec<Shown>, NoMemory>
    requires { good.now ≡ None → ⊥ }
    ensures { IfOk result (λ shown. IfSome good.now (λ w.
        AreFindingsShown w (map shown_of shown.items))) }
{
    match good {
        Some(workspace) => findings_of(alloc, workspace),
        None => unreachable!(),
    }
}

/// What is shown of files of a language: all faults of the first phase that has one, else what the
/// lint rules find. `good` is their workspace where they compile. Fails only when out of memory.
pub(crate) fn shown_of_files(
    alloc: Global,
    good: &mut Option<Workspace>,
    files: &[(String, Vec<u8>)],
    profile: Profile,
) -> Result<Vec<Shown>, NoMemory>
    ensures { IfOk result (λ shown.
        IsShown (files_of_as profile files.now) (map shown_of shown.items)) }
{
    if bring(alloc, good, files, profile)? {
        return findings_in(alloc, good);
    }
    // None is listed exactly where the files compile.
    first_is_least();
    let listed = faults_after(alloc, good, files, profile)?;
    shown_faults(alloc, listed.as_slice())
}
