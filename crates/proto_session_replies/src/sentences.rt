//! What is said where a request fails.

ghost use Rattle.std.specs.Prelude.{◌≡◌, ◌++◌, List, ℕ, IfOk, codes, string_bytes};
ghost use Rattle.proto_base.specs.GivenFiles.{files_of_as};
ghost use Rattle.proto_desc.specs.Whole.{WorkspaceFaults};
ghost use Rattle.proto_files.specs.Faults.{HasNoFault};
ghost use Rattle.protoref_output.specs.EditLines.{refused_line};
ghost use Rattle.proto_session_replies.specs.Replies.{IsFaultText};

use proto_all_faults::laws::first_is_least;
use proto_base::{NoMemory, Profile};
use proto_edit::{Files, Refusal, Workspace};
use proto_session_files::faults_after;
use protoref_output::{place_of_fault, refusal_line, schema_line};
use std::alloc::Global;

/// What is said where the folder cannot be read.
pub const LOST: &str = "protoref_serve cannot read the folder of the schemas";

/// What is said where editors would not all make the same of an edit.
pub(crate) const LINE_ENDS: &str =
    "a file that would change has line ends that editors treat in several ways";

/// What is said where no name stands that may be renamed.
pub(crate) const NO_NAME: &str = "no name that may be renamed stands here";

/// What is said where memory runs out.
pub const NO_MEMORY: &str = "out of memory";

// A line without the line feed at its end.
fn without_line_feed(line: String) -> String
    ensures { (text : List ℕ) → string_bytes line ≡ text ++ codes "\n"
        → string_bytes result ≡ text }
{
    let mut line = line;
    line.pop();
    line
}

/// The line of the least fault of files of a language that have one, without its line feed. `good`
/// are files that compiled. Fails only when out of memory.
pub(crate) fn fault_text(
    alloc: Global,
    good: &Option<Workspace>,
    files: &[(String, Vec<u8>)],
    profile: Profile,
) -> Result<String, NoMemory>
    requires { HasNoFault (WorkspaceFaults (files_of_as profile files.now)) → ⊥ }
    ensures { IfOk result (λ text.
        IsFaultText (files_of_as profile files.now) (string_bytes text)) }
{
    first_is_least();
    let listed = faults_after(alloc, good, files, profile)?;
    match listed.first() {
        Some(fault) => {
            let line = schema_line(alloc, fault, place_of_fault(files, fault))?;
            Ok(without_line_feed(line))
        }
        None => unreachable!(),
    }
}

/// The line of a refusal, without its line feed. Fails only when out of memory.
pub(crate) fn refusal_text(
    alloc: Global,
    refusal: &Refusal,
    files: &Files,
) -> Result<String, NoMemory>
    ensures { IfOk result (λ text.
        string_bytes text ++ codes "\n" ≡ refused_line files.now refusal.now) }
{
    let line = refusal_line(alloc, refusal, files)?;
    Ok(without_line_feed(line))
}
