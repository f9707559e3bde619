//! What holds of torn stores and of their recovery, and of the move to the second version, for
//! whoever builds on them. None of these does anything.

ghost use Rattle.proto_journal_records.specs.RecoveryLaws.{CutStaysTorn, NoTextIsBoth, RecoveriesAreOne, RecoveryGoesOn, TornBetweenIsTorn, TornComesBack};
ghost use Rattle.proto_journal_records.specs.Migration.{MigrationsAreOne};

use crate::laws::{journals_are_read_in_one_way, journals_grow_and_shrink};

/// In a torn store each file of the entry is as before or as after it, and never both.
pub fn torn_stores()
    ensures either { TornBetweenIsTorn }
    ensures apart { NoTextIsBoth }
{}

/// Where no call of a store fails and memory is there, the
/// store decides what a recovery answers, and what it leaves.
pub fn recoveries_are_one()
    ensures { RecoveriesAreOne }
{
    journals_are_read_in_one_way();
}

/// A recovery leads back to the files and the journal from before the entry.
pub fn torn_stores_come_back()
    ensures back { TornComesBack }
    ensures cut { CutStaysTorn }
{
    journals_are_read_in_one_way();
}

/// Where a recovery was cut off, a later one does the rest.
pub fn recovery_goes_on()
    ensures { RecoveryGoesOn }
{
    journals_are_read_in_one_way();
    journals_grow_and_shrink();
}

/// Where no call of a store fails and memory is there, the store
/// decides what the move of its journal answers, and what it leaves.
pub fn migrations_are_one()
    ensures { MigrationsAreOne }
{
    journals_are_read_in_one_way();
}
