//! Where the statement of a field stands.

ghost use Rattle.std.specs.Prelude.{◌≡◌, Some, None, option_map};
ghost use Rattle.proto_edit_rules.specs.Statements.{first_index, first_token};
ghost use Rattle.proto_edit_statements.specs.FieldPlaces.{field_among, field_if, field_in, place_of_statement};
ghost use Rattle.proto_tree.specs.declared.piece.Statement.TheVariants as statement;
ghost use Rattle.proto_tree.specs.File.{item_tree, member_tree, message_tree, oneof_item_tree, oneof_tree, tree_of_file, trees};
ghost use Rattle.proto_tree.specs.Flat.{flat_type};

use proto_tree::{Field, FieldType, File, Item, MapField, Member, Message, Oneof, OneofItem};

/// The statement of a field, by its first token, the token of its number, and its `;`; and the `}`
/// of the oneof around it, if it is of one.
#[derive(Clone, Copy)]
pub struct FieldPlace {
    pub first: u32,
    pub number: u32,
    pub semicolon: u32,
    pub oneof: Option<u32>,
}

/// The first token of a type.
fn first_of_type(kind: &FieldType) -> u32
    ensures { result ≡ first_index (flat_type kind.now) }
{
    match kind {
        FieldType::Scalar(word) => *word,
        FieldType::Reference(reference) => match reference.dot {
            Some(dot) => dot,
            None => reference.words.first,
        },
    }
}

#[tactic(auto, using(crate::proofs::FieldTrees::first_unlabeled))]
fn first_of_field(field: &Field) -> u32
    ensures { result ≡ first_token (statement.Field field.now) }
{
    match field.label {
        Some(label) => label,
        None => first_of_type(&field.kind),
    }
}

/// The place of the field, if it has this name token.
fn field_place(field: &Field, name: u32, oneof: Option<u32>) -> Option<FieldPlace>
    ensures { result ≡ option_map place_of_statement
        (field_if name oneof (statement.Field field.now)) }
{
    if field.name != name {
        return None;
    }
    Some(FieldPlace {
        first: first_of_field(field),
        number: field.number,
        semicolon: field.semicolon,
        oneof,
    })
}

fn map_place(field: &MapField, name: u32) -> Option<FieldPlace>
    ensures { result ≡ option_map place_of_statement
        (field_if name None (statement.MapField field.now)) }
{
    if field.name != name {
        return None;
    }
    Some(FieldPlace {
        first: field.keyword,
        number: field.number,
        semicolon: field.semicolon,
        oneof: None,
    })
}

fn place_in_item_of_oneof(item: &OneofItem, name: u32, close: u32) -> Option<FieldPlace>
    ensures { result ≡ option_map place_of_statement
        (field_among name (Some close) (oneof_item_tree item.now)) }
{
    match item {
        OneofItem::Field(field) => field_place(field, name, Some(close)),
        OneofItem::Option(_) => None,
    }
}

fn place_in_items(items: &[OneofItem], name: u32, close: u32) -> Option<FieldPlace>
    ensures { result
        ≡ option_map place_of_statement (field_among name (Some close)
        (trees oneof_item_tree items.now)) }
{
    for item in items {
        if let Some(place) = place_in_item_of_oneof(item, name, close) {
            return Some(place);
        }
    }
    None
}

#[tactic(auto, using(crate::proofs::FieldTrees::oneof_place))]
fn place_in_oneof(oneof: &Oneof, name: u32) -> Option<FieldPlace>
    ensures { result ≡ option_map place_of_statement (field_in name (oneof_tree oneof.now)) }
{
    place_in_items(&oneof.members, name, oneof.close)
}

#[cycle(messages)]
fn place_in_message(message: &Message, name: u32) -> Option<FieldPlace>
    ensures { result ≡ option_map place_of_statement (field_in name (message_tree message.now)) }
{
    place_in_members(&message.members, name)
}

#[cycle(messages)]
fn place_in_members(members: &[Member], name: u32) -> Option<FieldPlace>
    ensures { result ≡ option_map place_of_statement
        (field_in name (trees member_tree members.now)) }
{
    for member in members {
        if let Some(place) = place_in_member(member, name) {
            return Some(place);
        }
    }
    None
}

#[cycle(messages)]
fn place_in_member(member: &Member, name: u32) -> Option<FieldPlace>
    ensures { result ≡ option_map place_of_statement (field_in name (member_tree member.now)) }
{
    match member {
        Member::Field(field) => field_place(field, name, None),
        Member::MapField(field) => map_place(field, name),
        Member::Oneof(oneof) => place_in_oneof(oneof, name),
        Member::Message(message) => place_in_message(message, name),
        _ => None,
    }
}

fn place_in_item(item: &Item, name: u32) -> Option<FieldPlace>
    ensures { result ≡ option_map place_of_statement (field_in name (item_tree item.now)) }
{
    match item {
        Item::Message(message) => place_in_message(message, name),
        _ => None,
    }
}

/// The place of the field with this name token, if a file has one.
pub fn field_at(file: &File, name: u32) -> Option<FieldPlace>
    ensures { result ≡ option_map place_of_statement (field_in name (tree_of_file file.now)) }
{
    for item in &file.items {
        if let Some(place) = place_in_item(item, name) {
            return Some(place);
        }
    }
    None
}
