//! The rules of messages, their fields and their oneofs.

ghost use Rattle.std.specs.Prelude.{◌≡◌, ◌++◌, flat_map, map, OnOk};
ghost use Rattle.proto_tree.specs.File.{member_tree, trees};
ghost use Rattle.proto_ast.specs.Views.{field_of};
ghost use Rattle.proto_case.specs.Cases.{is_lower_snake};
ghost use Rattle.proto_lint_rules.specs.declared.rule.Rule.TheVariants as rule;
ghost use Rattle.proto_lint_names.specs.Placed.{found_at, found_by, unless_word};
ghost use Rattle.proto_lint_names.specs.Readings.{reading_of};
ghost use Rattle.proto_lint_names.specs.NameRules.{field_lower_snake_case, message_finds, oneof_finds};

use crate::Rule;
use crate::found::{FileFindings, Verdict, under};
use crate::names::add_name;
use crate::reading::LintFile;
use crate::walk::Walk;
use proto_ast::{FieldAt, fields_of};
use proto_base::NoMemory;
use proto_case::{is_lower_snake, is_pascal};
use proto_tree::{Message, Oneof};
use std::alloc::Global;

// The fields of a message with this full name.
fn add_each_field(
    found: &mut FileFindings,
    reading: &LintFile,
    message: &str,
    fields: &[FieldAt],
) -> Result<(), NoMemory>
    ensures { OnOk result (found.new ≡ found.old ++ map
        (found_at (reading_of reading.now) rule.FieldLowerSnakeCase)
        (flat_map (λ f. unless_word (reading_of reading.now) is_lower_snake message.now f.name)
        (map field_of fields.now))) }
{
    for field in fields {
        let rule = Rule::FieldLowerSnakeCase;
        let passes = is_lower_snake(reading.text(field.name));
        found.add_below_unless(reading, Verdict { rule, passes }, message, field.name)?;
    }
    Ok(())
}

fn add_field_names(
    alloc: Global,
    found: &mut FileFindings,
    walk: &Walk,
    scope: &str,
    message: &Message,
) -> Result<(), NoMemory>
    ensures { OnOk result (found.new ≡ found.old
        ++ found_by walk.now.rules.now.chosen (reading_of walk.now.reading.now)
        rule.FieldLowerSnakeCase (field_lower_snake_case (reading_of walk.now.reading.now)
        scope.now message.now.name (trees member_tree message.now.members.items))) }
{
    let Walk { rules, reading, .. } = *walk;
    if !rules.has(Rule::FieldLowerSnakeCase) {
        return Ok(());
    }
    let full_name = under(alloc, scope, reading.text(message.name))?;
    let fields = fields_of(alloc, &message.members)?;
    add_each_field(found, reading, &full_name, &fields)
}

/// Adds what the rules find at a message in a scope: its name, and those of its fields.
pub(crate) fn add_message(
    alloc: Global,
    found: &mut FileFindings,
    walk: &Walk,
    scope: &str,
    message: &Message,
) -> Result<(), NoMemory>
    ensures { OnOk result (found.new ≡ found.old
        ++ message_finds walk.now.rules.now.chosen (reading_of walk.now.reading.now)
        scope.now message.now.name (trees member_tree message.now.members.items)) }
{
    let token = message.name;
    let rule = Rule::MessagePascalCase;
    let passes = is_pascal(walk.reading.text(token));
    add_name(found, walk, Verdict { rule, passes }, scope, token)?;
    add_field_names(alloc, found, walk, scope, message)
}

/// Adds what the rules find at the name of a oneof in a scope.
pub(crate) fn add_oneof(
    found: &mut FileFindings,
    walk: &Walk,
    scope: &str,
    oneof: &Oneof,
) -> Result<(), NoMemory>
    ensures { OnOk result (found.new ≡ found.old
        ++ oneof_finds walk.now.rules.now.chosen (reading_of walk.now.reading.now)
        scope.now oneof.now.name) }
{
    let token = oneof.name;
    let rule = Rule::OneofLowerSnakeCase;
    let passes = is_lower_snake(walk.reading.text(token));
    add_name(found, walk, Verdict { rule, passes }, scope, token)
}
