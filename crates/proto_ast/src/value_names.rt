//! The names of an enum's values, looked up.

ghost use Rattle.std.specs.Prelude.{◌≡◌, ℕ, List, map, IfOk};
ghost use Rattle.std.specs.Cmp.Lexicographic.{slice_cmp};
ghost use Rattle.std.specs.List.Sorted.{IsPermutation, IsSortedBy};
ghost use Rattle.std.specs.Ordering.{is_lt, nat_cmp};
ghost use Rattle.proto_ast.specs.Options.{is_one_of};

use proto_base::NoMemory;
use std::alloc::Global;
use std::marker::Model;

/// The names of the values of an enum, in order. Many defaults may ask one enum, which may have many
/// values, so that the names are sorted once.
#[derive(Drop)]
pub struct ValueNames<'a> {
    all: Vec<&'a str>,
    sorted: Vec<&'a str>,
}

impl<'a> Model for ValueNames<'a> {
    ghost use Rattle.std.specs.Prelude.{ℕ, List, map};
    ghost use Rattle.std.specs.Cmp.Lexicographic.{slice_cmp};
    ghost use Rattle.std.specs.List.Sorted.{IsPermutation, IsSortedBy};
    ghost use Rattle.std.specs.Ordering.{is_lt, nat_cmp};

    ghost Value = { List (List ℕ) };

    ghost view = { λ n. map (λ s. s.now) n.all.items };

    ghost invariant = { λ n. IsPermutation n.all.items n.sorted.items
        × IsSortedBy (λ s t. is_lt (slice_cmp nat_cmp s.now t.now)) n.sorted.items };
}

// Whether a name is one of those that rise.
fn is_among(sorted: &[&str], name: &str) -> bool
    requires { IsSortedBy (λ s t. is_lt (slice_cmp nat_cmp s.now t.now)) sorted.now }
    ensures { result ≡ is_one_of (map (λ s. s.now) sorted.now) name.now }
{
    match sorted.binary_search(&name) {
        Ok(_) => true,
        Err(_) => false,
    }
}

impl<'a> ValueNames<'a> {
    /// Takes the names in their order. Fails only when out of memory.
    pub fn new(alloc: Global, all: Vec<&'a str>) -> Result<ValueNames<'a>, NoMemory>
        ensures { IfOk result (λ n. n ≡ map (λ s. s.now) all.entry.items) }
    {
        let mut sorted = Vec::new(alloc);
        sorted.extend_from_slice(&all)?;
        sorted.sort_unstable();
        Ok(ValueNames { all, sorted })
    }

    /// The names, in their order.
    pub fn all(&self) -> &[&'a str]
        ensures { map (λ s. s.now) result.now ≡ self.now }
    {
        self.all.as_slice()
    }

    /// Whether a value has the name.
    pub fn has(&self, name: &str) -> bool
        ensures { result ≡ is_one_of self.now name.now }
    {
        is_among(&self.sorted, name)
    }
}
