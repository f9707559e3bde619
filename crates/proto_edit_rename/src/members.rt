//! Fields and values by the tokens of their names.

ghost use Rattle.std.specs.Prelude.{◌≡◌, ◌++◌, None, map, IfOk, OnOk};
ghost use Rattle.proto_tree.specs.File.{oneof_item_tree, trees};
ghost use Rattle.proto_ast.specs.Parts.{fields_in, plain_field};
ghost use Rattle.proto_ast.specs.Views.{field_of};
ghost use Rattle.proto_edit_rename.specs.Members.{has_field, has_value};

use proto_ast::FieldAt;
use proto_base::NoMemory;
use proto_tree::{Field, OneofItem, Value};
use std::alloc::Global;

/// Whether one of the fields has this name token.
pub(crate) fn has_field(fields: &[FieldAt], token: u32) -> bool
    ensures { result ≡ has_field token (map field_of fields.now) }
{
    for field in fields {
        if field.name == token {
            return true;
        }
    }
    false
}

/// Whether one of the values has this name token.
pub(crate) fn has_value(values: &[&Value], token: u32) -> bool
    ensures { result ≡ has_value token (map (λ v. v.now) values.now) }
{
    for value in values {
        if value.name == token {
            return true;
        }
    }
    false
}

fn field_at(field: &Field) -> FieldAt<'_>
    ensures { field_of result ≡ plain_field None field.now }
{
    FieldAt {
        label: field.label,
        map_key: None,
        oneof: None,
        kind: &field.kind,
        name: field.name,
        number: field.number,
        settings: field.settings.as_ref(),
    }
}

fn push_item<'a>(fields: &mut Vec<FieldAt<'a>>, item: &'a OneofItem) -> Result<(), NoMemory>
    ensures { OnOk result (map field_of fields.new.items
        ≡ map field_of fields.old.items ++ fields_in (oneof_item_tree item.now)) }
{
    match item {
        OneofItem::Field(field) => {
            fields.push(field_at(field))?;
            Ok(())
        }
        OneofItem::Option(_) => Ok(()),
    }
}

/// The fields of a oneof, in order. Fails only when out of memory.
pub fn oneof_fields<'a>(alloc: Global, items: &'a [OneofItem]) -> Result<Vec<FieldAt<'a>>, NoMemory>
    ensures { IfOk result (λ fields. map field_of fields.items
        ≡ fields_in (trees oneof_item_tree items.now)) }
{
    let mut fields = Vec::new(alloc);
    for item in items {
        push_item(&mut fields, item)?;
    }
    Ok(fields)
}
