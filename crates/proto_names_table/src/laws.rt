//! The laws, as functions that do nothing.

ghost use Rattle.proto_names_table.specs.Undone.{DeclarationsComeBack, RowsAddedAreCut};

/// What `forget`, `revive` and `add` have changed is as it was once `put_back` gives a row its own
/// declaration again (`declarations`), and `cut_back` leaves as many rows and words as there were
/// (`added`).
pub fn changes_are_taken_back()
    ensures declarations { DeclarationsComeBack }
    ensures added { RowsAddedAreCut }
{}
