//! What the program does for a request.

ghost use Rattle.std.specs.Prelude.{◌≡◌};
ghost use Rattle.protoref.specs.Errands.{errand_of, way_of};

use protoref_arguments::Request;
use protoref_commands::{Command, Edit};

/// What is to be done.
#[derive(Drop)]
pub enum Errand {
    /// Print this text.
    Print(String),
    /// Print the version of the program.
    PrintVersion,
    /// Run a command over the folder at a path.
    Run(Command, String),
}

/// How a command goes about a folder.
#[derive(Clone, Copy)]
pub enum Way {
    /// It reads alone.
    Reads,
    /// It writes.
    Changes,
    /// It writes what a run that was cut off has left undone.
    Recovers,
}

/// The text or the version that is asked for; or the command, and the root that it is asked for.
pub fn errand_for(request: Request) -> Errand
    ensures { result ≡ errand_of request }
{
    match request {
        Request::Help(text) => Errand::Print(text),
        Request::Version => Errand::PrintVersion,
        Request::Compile { root } => Errand::Run(Command::Compile, root),
        Request::Lint { root, rules } => Errand::Run(Command::Lint(rules), root),
        Request::Rename { root, name, to } => edit_over(Edit::Rename { name, to }, root),
        Request::DeleteField { root, name } => edit_over(Edit::DeleteField { name }, root),
        Request::AddImport { root, file, path } => edit_over(Edit::AddImport { file, path }, root),
        Request::DropImport { root, file, path } => edit_over(
            Edit::DropImport { file, path },
            root,
        ),
        Request::Undo { root } => Errand::Run(Command::Undo, root),
        Request::Log { root } => Errand::Run(Command::Log, root),
        Request::Recover { root } => Errand::Run(Command::Recover, root),
        Request::Migrate { root } => Errand::Run(Command::Migrate, root),
    }
}

fn edit_over(edit: Edit, root: String) -> Errand
    ensures { result ≡ Errand.Run (Command.Edit edit) root }
{
    Errand::Run(Command::Edit(edit), root)
}

/// Whether a command writes, and whether it is the recovery.
pub fn way_for(command: &Command) -> Way
    ensures { result ≡ way_of command.now }
{
    match command {
        Command::Compile => Way::Reads,
        Command::Lint(_) => Way::Reads,
        Command::Edit(_) => Way::Changes,
        Command::Undo => Way::Changes,
        Command::Log => Way::Reads,
        Command::Recover => Way::Recovers,
        Command::Migrate => Way::Changes,
    }
}
