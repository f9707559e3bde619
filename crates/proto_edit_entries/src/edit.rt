//! Edits as they are asked.

ghost use Rattle.std.specs.Prelude.{◌≡◌, ◌==◌, ◌↔◌, IsTrue, true};
ghost use Rattle.std.specs.List.{list_all, slice_split};
ghost use Rattle.proto_base.specs.Ascii as ascii;
ghost use Rattle.proto_text.specs.Words.{is_run};
ghost use Rattle.proto_edit_entries.specs.EditsAsked.{asked, add_import, IsDotted, IsNotable};

use proto_files::is_workspace_path;
use proto_text::is_word;

/// An edit of a workspace. Full names have no leading dot. One that was refused can be asked again
/// by a clone of it.
#[derive(Clone, Debug, PartialEq, Eq, Drop)]
pub enum Edit {
    /// The symbol of this full name gets a new simple name.
    Rename { name: String, to: String },
    /// The field of this full name is deleted, and its number and name are reserved.
    DeleteField { name: String },
    /// The file imports a path.
    AddImport { file: String, path: String },
    /// The file imports a path no longer.
    DropImport { file: String, path: String },
}

fn is_run(word: &str) -> bool
    ensures { result ≡ is_run word.now }
{
    is_word(word)
}

fn has_words(name: &str) -> bool
    ensures { result ≡ list_all is_run (slice_split (λ b. b == ascii.dot) name.now) }
{
    name.split('.').all(|word| is_run(word))
}

// Whether the name is words, joined by dots.
fn is_dotted(name: &str) -> bool
    ensures { IsTrue result ↔ IsDotted name.now }
{
    has_words(name)
}

fn are_paths(file: &str, path: &str) -> bool
    ensures { IsTrue result ↔ IsNotable (add_import file.now path.now) }
{
    is_workspace_path(file) && is_workspace_path(path)
}

impl Edit {
    /// Whether the edit can be written down: its name is words joined by dots, its new name is a
    /// word, its file and its import are paths of a workspace.
    pub fn is_notable(&self) -> bool
        ensures { IsTrue result ↔ IsNotable (asked self.now) }
    {
        match self {
            Edit::Rename { name, to } => is_dotted(name.as_str()) && is_run(to.as_str()),
            Edit::DeleteField { name } => is_dotted(name.as_str()),
            Edit::AddImport { file, path } => are_paths(file.as_str(), path.as_str()),
            Edit::DropImport { file, path } => are_paths(file.as_str(), path.as_str()),
        }
    }
}
