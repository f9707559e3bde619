//! Files opened and compared, edits as rows ask them, and answers of an undo.

ghost use Rattle.std.specs.Prelude.{◌≡◌, ◌++◌, ◌-◌, ◌<◌, codes, length, map, string_bytes, IfOk, IfErr};
ghost use Rattle.std.specs.List.{repeat};
ghost use Rattle.std.specs.Cmp.Lexicographic.{pointwise};
ghost use Rattle.proto_edit.specs.Answers.{asked};
ghost use Rattle.proto_edit.specs.Compiled.{AreCompiled};
ghost use Rattle.protoref_test_cases.specs.Rows.{is_file, is_row_answer, row_edit, row_file};
ghost use Rattle.proto_files.specs.GivenFiles.{file_at, file_of};
ghost use Rattle.proto_desc.specs.Opening.{IsOpenError};
ghost use Rattle.proto_desc.specs.Whole.{IsSortedOf};

use crate::step::{Said, Step};
use proto_base::{NoMemory, Profile, SchemaFault};
use proto_edit::{Edit, Refusal, Workspace};
use proto_files::Files;
use std::alloc::Global;

// The file of a path and a text, as it is given to be opened.
fn file(alloc: Global, given: &(&str, &str)) -> Result<(String, Vec<u8>), NoMemory>
    ensures { IfOk result (λ f. file_of f ≡ row_file given.now.0.now given.now.1.now) }
{
    let (path, text) = *given;
    let path = String::from_str(alloc, path)?;
    let text = Vec::from_slice(alloc, text.as_bytes())?;
    Ok((path, text))
}

fn files(alloc: Global, texts: &[(&str, &str)]) -> Result<Vec<(String, Vec<u8>)>, NoMemory>
    ensures { IfOk result (λ fs. map file_of fs.items
        ≡ map (λ t. row_file t.0.now t.1.now) texts.now) }
{
    let mut files = Vec::new(alloc);
    for text in texts {
        files.push(file(alloc, text)?)?;
    }
    Ok(files)
}

/// The workspace of these files, or their least fault.
pub fn open(alloc: Global, texts: &[(&str, &str)]) -> Result<Workspace, SchemaFault>
    ensures files { IfOk result (λ w. IsSortedOf
        (map (λ t. row_file t.0.now t.1.now) texts.now) w) }
    ensures compiled { IfOk result (λ w. AreCompiled w) }
    ensures fault { IfErr result (λ e. IsOpenError
        (map (λ t. row_file t.0.now t.1.now) texts.now) e) }
{
    Workspace::open(alloc, files(alloc, texts)?)
}

// Whether the file at a place is of the core language and has this path and text.
fn is_text(files: &Files, place: u32, given: &(&str, &str)) -> bool
    requires { place < length files.now }
    ensures { result ≡ is_file (file_at files.now place)
        (row_file given.now.0.now given.now.1.now) }
{
    let (path, text) = *given;
    match files.profile(place) {
        Profile::Core => {
            files.path(place) == path && files.source(place).as_bytes() == text.as_bytes()
        }
        Profile::AsWritten => false,
    }
}

/// Whether these are the files, in the order of their paths.
pub fn are_texts(workspace: &Workspace, texts: &[(&str, &str)]) -> bool
    ensures { result ≡ pointwise is_file workspace.now
        (map (λ t. row_file t.0.now t.1.now) texts.now) }
{
    let files = workspace.files();
    if files.len() != texts.len() {
        return false;
    }
    for place in 0..texts.len() {
        if !is_text(files, place as u32, &texts[place]) {
            return false;
        }
    }
    true
}

/// The edit that a step asks.
pub fn edit_of(alloc: Global, step: Step) -> Result<Edit, NoMemory>
    ensures { IfOk result (λ e. asked e
        ≡ row_edit step.entry.0.now step.entry.1.now step.entry.2.now) }
{
    let (kind, of, to, _) = step;
    let of = String::from_str(alloc, of)?;
    let to = String::from_str(alloc, to)?;
    Ok(match kind {
        "rename" => Edit::Rename { name: of, to },
        "delete" => Edit::DeleteField { name: of },
        "add" => Edit::AddImport { file: of, path: to },
        _ => Edit::DropImport { file: of, path: to },
    })
}

/// Whether a refusal has this number and name; 0 and `done` where nothing is refused.
pub fn is_said<T: Drop>(answer: Result<T, Refusal>, said: Said) -> bool
    ensures { result ≡ is_row_answer answer said.entry.0 said.entry.1.now }
{
    let (number, name) = said;
    match answer {
        Ok(_) => number == 0 && name == "done",
        Err(refusal) => refusal.number() == number && refusal.name() == name,
    }
}

/// The text, and spaces behind it up to so many bytes.
pub fn padded_text(alloc: Global, text: &str, bytes: usize) -> Result<String, NoMemory>
    ensures { IfOk result (λ s. string_bytes s
        ≡ text.now ++ repeat (bytes - length text.now) (codes " ")) }
{
    let spaces = " ".repeat(alloc, bytes.saturating_sub(text.len()))?;
    let mut filled = String::from_str(alloc, text)?;
    filled.push_str(&spaces)?;
    Ok(filled)
}
