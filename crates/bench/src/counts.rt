//! How many items of each kind stand at the top of a file.

ghost use Rattle.std.specs.Prelude.{◌≡◌, Bool, count_by};
ghost use Rattle.bench.specs.declared.kind.Kind.{Kind};
ghost use Rattle.bench.specs.Items.{is_item_of_kind};
ghost use Rattle.bench.specs.Reports.{AreCounts};

use crate::kind::Kind;
use proto_tree::{File, Item};

/// The items that a file has at its top, by their kind. Nested ones are not counted.
#[derive(Clone, Copy)]
pub struct Counts {
    pub messages: usize,
    pub enums: usize,
    pub services: usize,
    pub imports: usize,
    pub options: usize,
}

// What has a kind. Counting is proved over this alone, since a proof over whole trees is slow.
trait HasKind {
    ghost is_of: { Kind → Self → Bool };

    fn is_of(&self, kind: Kind) -> bool
        ensures { result ≡ is_of kind self.now };
}

impl HasKind for Item {
    ghost is_of = { is_item_of_kind };

    fn is_of(&self, kind: Kind) -> bool {
        match kind {
            Kind::Message => matches!(self, Item::Message(_)),
            Kind::Enum => matches!(self, Item::Enum(_)),
            Kind::Service => matches!(self, Item::Service(_)),
            Kind::Import => matches!(self, Item::Import(_)),
            Kind::Option => matches!(self, Item::Option(_)),
        }
    }
}

fn count_of<T: HasKind>(items: &[T], kind: Kind) -> usize
    ensures { result ≡ count_by (T.is_of kind) items.now }
{
    items.iter().filter(|item| item.is_of(kind)).count()
}

/// Counts the items of a file.
pub fn counts_of(file: &File) -> Counts
    ensures { AreCounts file.now result }
{
    let items = file.items.as_slice();
    Counts {
        messages: count_of(items, Kind::Message),
        enums: count_of(items, Kind::Enum),
        services: count_of(items, Kind::Service),
        imports: count_of(items, Kind::Import),
        options: count_of(items, Kind::Option),
    }
}
