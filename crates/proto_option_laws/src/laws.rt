//! The laws, as functions that do nothing.

ghost use Rattle.proto_option_laws.specs.Filled.{FilledAreReached, FilledAreUnaffected};
ghost use Rattle.proto_option_laws.specs.Renames.{RenamesKeepOptions, RenamesLeaveOptions};

/// A type that the value of an option may fill stands in a file to which the extension's file leads
/// by imports. So no word of the option is a name that none may be of what such a file declares.
pub fn filled_are_reached()
    ensures reached { FilledAreReached }
    ensures unaffected { FilledAreUnaffected }
{}

/// A rename that no case refuses leaves options: none goes, and each means and says what it did.
pub fn renames_leave_options()
    ensures kept { RenamesKeepOptions }
    ensures same { RenamesLeaveOptions }
{}
