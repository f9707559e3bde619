//! A name that a rule asks for.

ghost use Rattle.std.specs.Prelude.{◌≡◌, ◌++◌, OnOk};
ghost use Rattle.proto_names_rules.specs.Forest.{under};
ghost use Rattle.proto_lint_names.specs.Placed.{found_by, unless};
ghost use Rattle.proto_lint_names.specs.Readings.{reading_of, word_in};

use crate::found::{FileFindings, Verdict};
use crate::walk::Walk;
use proto_base::NoMemory;

/// Adds a name that stands right in a scope, at its own token, unless it passes, if the rule is one
/// of those chosen.
pub(crate) fn add_name(
    found: &mut FileFindings,
    walk: &Walk,
    verdict: Verdict,
    scope: &str,
    token: u32,
) -> Result<(), NoMemory>
    ensures { OnOk result (found.new ≡ found.old
        ++ found_by walk.now.rules.now.chosen (reading_of walk.now.reading.now) verdict.rule
        (unless verdict.passes token
        (under scope.now (word_in (reading_of walk.now.reading.now) token)))) }
{
    if !walk.rules.has(verdict.rule) {
        return Ok(());
    }
    found.add_below_unless(walk.reading, verdict, scope, token)
}
