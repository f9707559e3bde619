//! The fields of messages and of `extend` blocks, with their options.

ghost use Rattle.std.specs.Prelude.{◌≡◌, ◌≤◌, ◌++◌, [], ◌∷◌, Some, None, map, flat_map, option_map, IfOk, OnOk, MatchOption};
ghost use Rattle.proto_tree.specs.File.{extension_tree, member_tree, oneof_item_tree, trees};
ghost use Rattle.proto_ast.specs.Parts.{fields_from, fields_in, map_field, oneof_count, plain_field, separated, setting_options, settings_of, statement_fields, statements};
ghost use Rattle.proto_ast.specs.Views.{field_of, option_of};

use crate::separated::push;
use proto_base::NoMemory;
use proto_tree::{
    Constant, Extension, Field, FieldType, MapField, Member, OnHeap, OneofItem, Separated, Setting,
    Settings,
};
use std::alloc::Global;

/// An option: the token of its name, and its value.
#[derive(Clone, Copy)]
pub struct OptionAt<'a> {
    pub name: u32,
    pub value: &'a Constant,
}

/// A field: plain, of a oneof (by its place among the message's oneofs, from 0), or of a map (by
/// the token of its key's type). The kind of a map field is that of its values.
#[derive(Clone, Copy)]
pub struct FieldAt<'a> {
    pub label: Option<u32>,
    pub map_key: Option<u32>,
    pub oneof: Option<usize>,
    pub kind: &'a FieldType,
    pub name: u32,
    pub number: u32,
    pub settings: Option<&'a OnHeap<Settings>>,
}

/// Adds the option that a setting is; a custom option is none of these.
pub fn push_setting<'a>(
    options: &mut Vec<OptionAt<'a>>,
    setting: &'a Setting,
) -> Result<(), NoMemory>
    ensures { OnOk result (map option_of options.new.items
        ≡ map option_of options.old.items ++ setting_options setting.now) }
{
    match setting {
        Setting::Plain(plain) => push(
            options,
            OptionAt {
                name: plain.name,
                value: &plain.value,
            },
        ),
        Setting::Custom(_) => Ok(()),
    }
}

fn push_settings<'a>(
    options: &mut Vec<OptionAt<'a>>,
    list: &'a Separated<Setting>,
) -> Result<(), NoMemory>
    ensures { OnOk result (map option_of options.new.items
        ≡ map option_of options.old.items ++ flat_map setting_options (separated list.now)) }
{
    push_setting(options, &list.first)?;
    for behind in list.rest.as_slice() {
        push_setting(options, &behind.item)?;
    }
    Ok(())
}

/// The options between brackets that are set by their words, in order.
pub fn options_between<'a>(
    alloc: Global,
    settings: Option<&'a OnHeap<Settings>>,
) -> Result<Vec<OptionAt<'a>>, NoMemory>
    ensures { IfOk result (λ options. map option_of options.items
        ≡ settings_of (option_map (λ s. s.now) settings.entry)) }
{
    let mut options = Vec::new(alloc);
    if let Some(settings) = settings {
        let settings = settings.get();
        push_settings(&mut options, &settings.list)?;
    }
    Ok(options)
}

fn plain_field(oneof: Option<usize>, field: &Field) -> FieldAt<'_>
    ensures { field_of result ≡ plain_field oneof field.now }
{
    FieldAt {
        label: field.label,
        map_key: None,
        oneof,
        kind: &field.kind,
        name: field.name,
        number: field.number,
        settings: field.settings.as_ref(),
    }
}

fn push_field<'a>(
    found: &mut Vec<FieldAt<'a>>,
    oneof: Option<usize>,
    field: &'a Field,
) -> Result<(), NoMemory>
    ensures { OnOk result (map field_of found.new.items
        ≡ map field_of found.old.items ++ (plain_field oneof field.now ∷ [])) }
{
    push(found, plain_field(oneof, field))
}

fn map_field(field: &MapField) -> FieldAt<'_>
    ensures { field_of result ≡ map_field field.now }
{
    FieldAt {
        label: None,
        map_key: Some(field.key),
        oneof: None,
        kind: &field.value,
        name: field.name,
        number: field.number,
        settings: field.settings.as_ref(),
    }
}

fn push_map_field<'a>(found: &mut Vec<FieldAt<'a>>, field: &'a MapField) -> Result<(), NoMemory>
    ensures { OnOk result (map field_of found.new.items
        ≡ map field_of found.old.items ++ (map_field field.now ∷ [])) }
{
    push(found, map_field(field))
}

fn push_oneof_field<'a>(
    found: &mut Vec<FieldAt<'a>>,
    before: usize,
    item: &'a OneofItem,
) -> Result<(), NoMemory>
    ensures { OnOk result (map field_of found.new.items
        ≡ map field_of found.old.items ++ flat_map (statement_fields (Some before))
        (statements (oneof_item_tree item.now))) }
{
    match item {
        OneofItem::Field(field) => push_field(found, Some(before), field),
        OneofItem::Option(_) => Ok(()),
    }
}

fn push_oneof<'a>(
    found: &mut Vec<FieldAt<'a>>,
    before: usize,
    items: &'a [OneofItem],
) -> Result<(), NoMemory>
    ensures { OnOk result (map field_of found.new.items
        ≡ map field_of found.old.items ++ flat_map (statement_fields (Some before))
        (statements (trees oneof_item_tree items.now))) }
{
    for item in items {
        push_oneof_field(found, before, item)?;
    }
    Ok(())
}

fn push_fields<'a>(
    found: &mut Vec<FieldAt<'a>>,
    before: usize,
    member: &'a Member,
) -> Result<(), NoMemory>
    ensures { OnOk result (map field_of found.new.items
        ≡ map field_of found.old.items ++ fields_from before (member_tree member.now)) }
{
    match member {
        Member::Field(field) => push_field(found, None, field),
        Member::MapField(field) => push_map_field(found, field),
        Member::Oneof(oneof) => push_oneof(found, before, &oneof.members),
        _ => Ok(()),
    }
}

fn oneof_count(member: &Member) -> usize
    ensures count { result ≡ oneof_count (member_tree member.now) }
    ensures small { result ≤ 1 }
{
    match member {
        Member::Oneof(_) => 1,
        _ => 0,
    }
}

/// The fields of a message, with those of its oneofs, in order.
pub fn fields_of<'a>(alloc: Global, members: &'a [Member]) -> Result<Vec<FieldAt<'a>>, NoMemory>
    ensures { IfOk result (λ fields. map field_of fields.items
        ≡ fields_in (trees member_tree members.now)) }
{
    let mut fields = Vec::with_capacity(alloc, members.len())?;
    let mut oneofs = 0;
    for member in members {
        push_fields(&mut fields, oneofs, member)?;
        oneofs += oneof_count(member);
    }
    Ok(fields)
}

/// The fields of an `extend` block, in order.
pub fn extension_fields<'a>(
    alloc: Global,
    extensions: &'a [Extension],
) -> Result<Vec<FieldAt<'a>>, NoMemory>
    ensures { IfOk result (λ fields. map field_of fields.items
        ≡ fields_in (trees extension_tree extensions.now)) }
{
    let mut fields = Vec::new(alloc);
    for extension in extensions {
        push_field(&mut fields, None, &extension.field)?;
    }
    Ok(fields)
}

/// The first field of a oneof and what stands behind it, if the oneof has a field.
pub fn next_field(items: &[OneofItem]) -> Option<(&Field, &[OneofItem])>
    ensures { MatchOption result
        (fields_in (trees oneof_item_tree items.now) ≡ [])
        (λ next. fields_in (trees oneof_item_tree items.now)
        ≡ plain_field None next.0.now ∷ fields_in (trees oneof_item_tree next.1.now)) }
{
    let mut left = items;
    while let Some((item, rest)) = left.split_first() {
        left = rest;
        if let OneofItem::Field(field) = item {
            return Some((field, rest));
        }
    }
    None
}
