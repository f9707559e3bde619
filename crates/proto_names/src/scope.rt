//! The longest front of a scope that is a name of the table.

ghost use Rattle.std.specs.Prelude.{◌≡◌, ◌≤◌, ℕ, List, length};
ghost use Rattle.proto_names_rules.specs.Joined.{joined, ArePlain};
ghost use Rattle.proto_names.specs.Scopes.{IsScopeFront};
ghost use Rattle.proto_names_table.specs.Tables.{IsTable};

use proto_names_table::table::{Table, split_at_dot};

/// The number of the longest front of a scope, as text, that is a name of the table; 0 where none
/// is. The number of a row is one more than its index.
#[tactic(auto, using(crate::proofs::Scopes::scope_begun))]
pub(crate) fn scope_number(table: &Table, scope: &str) -> usize
    requires { IsTable table.now }
    ensures within { result ≤ length table.now.rows.items }
    ensures front { (path : List (List ℕ)) → ArePlain path
        → scope.now ≡ joined path → IsScopeFront table.now path result }
{
    let mut number = 0;
    let mut rest = scope;
    while let Some((word, behind)) = split_at_dot(rest) {
        match table.find(number, word) {
            Some(row) => number = row + 1,
            None => return number,
        }
        rest = behind;
    }
    match table.find(number, rest) {
        Some(row) => row + 1,
        None => number,
    }
}
