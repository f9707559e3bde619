//! What holds of records and journals, for whoever builds on them. None of these does anything.

ghost use Rattle.proto_journal_records.specs.Laws.{IsTextOfOne, StatesKeepLength, IsReadInOneWay, JournalsGrow, JournalsMigrate, JournalsShrink};

/// A text is that of one record in one version, and does not get longer when its record is closed.
pub fn records_have_one_text()
    ensures one { IsTextOfOne }
    ensures length { StatesKeepLength }
{}

/// A journal has one list of records, and one version where there are any.
pub fn journals_are_read_in_one_way()
    ensures { IsReadInOneWay }
{}

/// A record more and a record less, and all of them in the second version.
pub fn journals_grow_and_shrink()
    ensures more { JournalsGrow }
    ensures less { JournalsShrink }
    ensures second { JournalsMigrate }
{}
