//! What is asked for.

use proto_journal::Edit;
use proto_lint::RuleSet;

/// What is asked for.
#[derive(Drop)]
pub enum Command {
    /// The descriptors of the schemas.
    Compile,
    /// What these rules find in the schemas.
    Lint(RuleSet),
    /// An edit of the schemas, with an entry in the journal.
    Edit(Edit),
    /// The last entry of the journal undone.
    Undo,
    /// The entries of the journal.
    Log,
    /// A torn store brought back to before the last entry of its journal.
    Recover,
    /// The journal moved to the second version.
    Migrate,
}
