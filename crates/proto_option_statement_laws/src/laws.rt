//! The laws, as functions that do nothing.

ghost use Rattle.proto_option_statement_laws.specs.OptionLaws.{AdditionsLeaveOptions, DeletionsLeaveOptions, DropsLeaveOptions};

use proto_edit_statement_described::laws::{
    deletions_join, deletions_leave_no_fault, numbers_are_read, trees_are_deleted,
};
use proto_edit_statement_laws::laws::{
    additions_are_changes, additions_keep_links, deletions_are_changes, drops_are_changes,
    drops_keep_links, statements_are_exchanged,
};
use proto_text::laws::segments_are_made;

/// A deletion of a field that no case refuses leaves options: each has the same path and value, its
/// name means what it meant, and a reader who knows its words sees the same of the types that its
/// value may fill.
pub fn deletions_leave_options()
    ensures { DeletionsLeaveOptions }
{
    deletions_are_changes();
    deletions_join();
    deletions_leave_no_fault();
    numbers_are_read();
    trees_are_deleted();
}

/// So does an added import.
pub fn additions_leave_options()
    ensures { AdditionsLeaveOptions }
{
    additions_are_changes();
    additions_keep_links();
    segments_are_made();
    statements_are_exchanged();
}

/// So does a dropped import.
pub fn drops_leave_options()
    ensures { DropsLeaveOptions }
{
    drops_are_changes();
    drops_keep_links();
    statements_are_exchanged();
}
