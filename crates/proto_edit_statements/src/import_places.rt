//! Where an import is put into a file.

ghost use Rattle.std.specs.Prelude.{◌≡◌};
ghost use Rattle.proto_edit_statements.specs.ImportPlaces.{behind_all, ends_in, ends_of};
ghost use Rattle.proto_tree.specs.File.{item_tree, tree_of_file};

use proto_tree::{File, Item};

/// The `;` of the last statement of each kind behind which an import may be put.
#[derive(Clone, Copy)]
pub(crate) struct LastEnds {
    pub(crate) syntax: Option<u32>,
    pub(crate) packaged: Option<u32>,
    pub(crate) import: Option<u32>,
}

fn with_item(ends: LastEnds, item: &Item) -> LastEnds
    ensures { result ≡ ends_in ends (item_tree item.now) }
{
    match item {
        Item::Syntax(syntax) => LastEnds {
            syntax: Some(syntax.semicolon),
            ..ends
        },
        Item::Package(package) => LastEnds {
            packaged: Some(package.semicolon),
            ..ends
        },
        Item::Import(import) => LastEnds {
            import: Some(import.semicolon),
            ..ends
        },
        _ => ends,
    }
}

/// The `;` behind which an import is added: that of the last import; with none, of the package;
/// with neither, of the syntax. With none of these, none: it is added before all.
#[tactic(auto, using(crate::proofs::ImportEnds::ends_joined))]
pub fn end_before_import(file: &File) -> Option<u32>
    ensures { result ≡ behind_all (ends_of (tree_of_file file.now)) }
{
    let mut ends = LastEnds {
        syntax: None,
        packaged: None,
        import: None,
    };
    for item in &file.items {
        ends = with_item(ends, item);
    }
    ends.import.or(ends.packaged).or(ends.syntax)
}
