//! What holds of entries, for whoever builds on them. None of these does anything.

ghost use Rattle.proto_edit_entries.specs.Laws.{EntriesLeadBack, PutsAreShort, PutsAreWalked, PutsKeepPaths, PutsOnce, WalksPut};

/// Changes put one list of files, which has the paths of the old one.
pub fn puts_are_once()
    ensures once { PutsOnce }
    ensures paths { PutsKeepPaths }
{}

/// Files and changes gone through together, both in the order of their paths, are put as the paths
/// say.
pub fn walks_are_puts()
    ensures by_paths { WalksPut }
    ensures in_order { PutsAreWalked }
{}

/// From what an entry put, its changes turned round lead back.
pub fn entries_lead_back()
    ensures { EntriesLeadBack }
{}

/// Splices that put a text lie in order, where the old text and the new one have at most 1,048,576
/// bytes.
pub fn puts_are_short()
    ensures { PutsAreShort }
{}
