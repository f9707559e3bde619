//! Laws of imports, for the layers above. None of these does anything.

ghost use Rattle.proto_names_imports.specs.AsWritten.{CoreFilesLink, NamesAskNoLanguage};
ghost use Rattle.proto_names_imports.specs.Laws.{KeptImportsAreEqual, KeptImportsAreSound, ListedImportsAreSound, ListedImportsAreThese};

/// Where each file is as it was, or names by its imports the files that it named, all known and
/// none twice, the imports between the files are those of before; and if none was faulty, none is.
pub fn kept_imports_stay()
    ensures equal { KeptImportsAreEqual }
    ensures sound { KeptImportsAreSound }
{}

/// Where each file has the imports of its list, all known and none twice, the imports between the
/// files are those of the lists; and if none leads back to its file, none is faulty.
pub fn listed_imports_are_known()
    ensures these { ListedImportsAreThese }
    ensures sound { ListedImportsAreSound }
{}

/// The names, imports and references of files do not ask for the files' language; and files of the
/// core language that have no fault of these have none as written.
pub fn names_ask_no_language()
    ensures same { NamesAskNoLanguage }
    ensures clean { CoreFilesLink }
{}
