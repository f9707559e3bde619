//! A law of what is told, for the layers above. It does nothing.

ghost use Rattle.proto_session_told.specs.Laws.{FilesAreToldOnce};

/// Each file of which something is shown is told of once, in the order of the paths.
pub fn files_are_told_once()
    ensures { FilesAreToldOnce }
{}
