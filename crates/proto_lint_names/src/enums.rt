//! The rules of enums and their values.

ghost use Rattle.std.specs.Prelude.{◌≡◌, ◌++◌, ◌||◌, ◌&&◌, not, nat_eq, codes, flat_map, map, IfOk, OnOk};
ghost use Rattle.std.specs.List.{ends_with, starts_with};
ghost use Rattle.std.specs.String.{string_bytes};
ghost use Rattle.proto_tree.specs.File.{enum_item_tree, trees};
ghost use Rattle.proto_ast.specs.Options.{truth_of, is_true};
ghost use Rattle.proto_ast.specs.Parts.{statements, values_in};
ghost use Rattle.proto_case.specs.Cases.{is_upper_snake};
ghost use Rattle.proto_lint_rules.specs.declared.rule.Rule.TheVariants as rule;
ghost use Rattle.proto_lint_names.specs.Placed.{found_at, found_by, unless_word};
ghost use Rattle.proto_lint_names.specs.Readings.{reading_of, word_in};
ghost use Rattle.proto_lint_names.specs.NameRules.{allowed_alias, allows_alias, enum_finds, enum_first_value_zero, enum_no_allow_alias, enum_value_prefix, enum_value_upper_snake_case, enum_zero_value_suffix, is_zero, value_prefix};

use crate::found::{FileFindings, Verdict, under};
use crate::names::add_name;
use crate::reading::LintFile;
use crate::walk::Walk;
use crate::{Rule, RuleSet};
use proto_ast::number_of;
use proto_base::NoMemory;
use proto_case::{is_pascal, is_upper_snake, upper};
use proto_tree::{Constant, Enum, EnumItem, Setting, Value};
use std::alloc::Global;

// The loops over items differ in their rule and in what it finds at one item alone; a common loop
// would be given the latter as a closure.

// ---- numbers

fn is_zero(reading: &LintFile, value: &Value) -> bool
    ensures { result ≡ is_zero (reading_of reading.now) value.now }
{
    number_of(reading.text(value.number.number)) == 0
}

fn add_first_value(
    found: &mut FileFindings,
    rules: &RuleSet,
    reading: &LintFile,
    scope: &str,
    items: &[EnumItem],
) -> Result<(), NoMemory>
    ensures { OnOk result (found.new ≡ found.old
        ++ found_by rules.now.chosen (reading_of reading.now) rule.EnumFirstValueZero
        (enum_first_value_zero (reading_of reading.now) scope.now
        (trees enum_item_tree items.now))) }
{
    if !rules.has(Rule::EnumFirstValueZero) {
        return Ok(());
    }
    for item in items {
        if let EnumItem::Value(value) = item {
            let passes = is_zero(reading, value);
            let rule = Rule::EnumFirstValueZero;
            return found.add_below_unless(reading, Verdict { rule, passes }, scope, value.name);
        }
    }
    Ok(())
}

fn has_zero_suffix(word: &str) -> bool
    ensures { result ≡ ends_with nat_eq word.now (codes "_UNSPECIFIED") }
{
    word.ends_with("_UNSPECIFIED")
}

fn add_zero_suffix(
    found: &mut FileFindings,
    reading: &LintFile,
    scope: &str,
    item: &EnumItem,
) -> Result<(), NoMemory>
    ensures { OnOk result (found.new ≡ found.old ++ map
        (found_at (reading_of reading.now) rule.EnumZeroValueSuffix)
        (flat_map (λ v. unless_word (reading_of reading.now)
        (λ w. not (is_zero (reading_of reading.now) v) || ends_with nat_eq w (codes "_UNSPECIFIED"))
        scope.now v.name) (values_in (enum_item_tree item.now)))) }
{
    match item {
        EnumItem::Value(value) => {
            let rule = Rule::EnumZeroValueSuffix;
            let passes = !is_zero(reading, value) || has_zero_suffix(reading.text(value.name));
            found.add_below_unless(reading, Verdict { rule, passes }, scope, value.name)
        }
        _ => Ok(()),
    }
}

fn add_zero_suffixes(
    found: &mut FileFindings,
    rules: &RuleSet,
    reading: &LintFile,
    scope: &str,
    items: &[EnumItem],
) -> Result<(), NoMemory>
    ensures { OnOk result (found.new ≡ found.old
        ++ found_by rules.now.chosen (reading_of reading.now) rule.EnumZeroValueSuffix
        (enum_zero_value_suffix (reading_of reading.now) scope.now
        (trees enum_item_tree items.now))) }
{
    if !rules.has(Rule::EnumZeroValueSuffix) {
        return Ok(());
    }
    for item in items {
        add_zero_suffix(found, reading, scope, item)?;
    }
    Ok(())
}

// ---- names

fn add_value_name(
    found: &mut FileFindings,
    reading: &LintFile,
    scope: &str,
    item: &EnumItem,
) -> Result<(), NoMemory>
    ensures { OnOk result (found.new ≡ found.old ++ map
        (found_at (reading_of reading.now) rule.EnumValueUpperSnakeCase)
        (flat_map (λ v. unless_word (reading_of reading.now) is_upper_snake scope.now v.name)
        (values_in (enum_item_tree item.now)))) }
{
    match item {
        EnumItem::Value(value) => {
            let rule = Rule::EnumValueUpperSnakeCase;
            let passes = is_upper_snake(reading.text(value.name));
            found.add_below_unless(reading, Verdict { rule, passes }, scope, value.name)
        }
        _ => Ok(()),
    }
}

fn add_value_names(
    found: &mut FileFindings,
    rules: &RuleSet,
    reading: &LintFile,
    scope: &str,
    items: &[EnumItem],
) -> Result<(), NoMemory>
    ensures { OnOk result (found.new ≡ found.old
        ++ found_by rules.now.chosen (reading_of reading.now) rule.EnumValueUpperSnakeCase
        (enum_value_upper_snake_case (reading_of reading.now) scope.now
        (trees enum_item_tree items.now))) }
{
    if !rules.has(Rule::EnumValueUpperSnakeCase) {
        return Ok(());
    }
    for item in items {
        add_value_name(found, reading, scope, item)?;
    }
    Ok(())
}

// What the names of an enum's values begin with.
fn value_prefix(alloc: Global, name: &str) -> Result<String, NoMemory>
    ensures { IfOk result (λ s. string_bytes s ≡ value_prefix name.now) }
{
    let mut prefix = upper(alloc, name)?;
    prefix.push('_')?;
    Ok(prefix)
}

fn has_prefix(word: &str, prefix: &str) -> bool
    ensures { result ≡ starts_with nat_eq word.now prefix.now }
{
    word.starts_with(prefix)
}

fn add_unprefixed(
    found: &mut FileFindings,
    reading: &LintFile,
    scope: &str,
    prefix: &str,
    item: &EnumItem,
) -> Result<(), NoMemory>
    ensures { OnOk result (found.new ≡ found.old ++ map
        (found_at (reading_of reading.now) rule.EnumValuePrefix)
        (flat_map (λ v. unless_word (reading_of reading.now)
        (λ w. starts_with nat_eq w prefix.now) scope.now v.name)
        (values_in (enum_item_tree item.now)))) }
{
    match item {
        EnumItem::Value(value) => {
            let rule = Rule::EnumValuePrefix;
            let passes = has_prefix(reading.text(value.name), prefix);
            found.add_below_unless(reading, Verdict { rule, passes }, scope, value.name)
        }
        _ => Ok(()),
    }
}

fn add_each_unprefixed(
    found: &mut FileFindings,
    reading: &LintFile,
    scope: &str,
    prefix: &str,
    items: &[EnumItem],
) -> Result<(), NoMemory>
    ensures { OnOk result (found.new ≡ found.old ++ map
        (found_at (reading_of reading.now) rule.EnumValuePrefix)
        (flat_map (λ v. unless_word (reading_of reading.now)
        (λ w. starts_with nat_eq w prefix.now) scope.now v.name)
        (values_in (trees enum_item_tree items.now)))) }
{
    for item in items {
        add_unprefixed(found, reading, scope, prefix, item)?;
    }
    Ok(())
}

fn add_prefixes(
    alloc: Global,
    found: &mut FileFindings,
    walk: &Walk,
    scope: &str,
    names: &Enum,
) -> Result<(), NoMemory>
    ensures { OnOk result (found.new ≡ found.old
        ++ found_by walk.now.rules.now.chosen (reading_of walk.now.reading.now)
        rule.EnumValuePrefix (enum_value_prefix (reading_of walk.now.reading.now)
        scope.now names.now.name (trees enum_item_tree names.now.members.items))) }
{
    let Walk { rules, reading, .. } = *walk;
    if !rules.has(Rule::EnumValuePrefix) {
        return Ok(());
    }
    let prefix = value_prefix(alloc, reading.text(names.name))?;
    add_each_unprefixed(found, reading, scope, &prefix, &names.members)
}

// ---- aliases

// These are as `truth` of proto_ast and `is_alias_option` of proto_desc_checks, over a Reading in
// place of a Scene.

fn is_true(reading: &LintFile, value: &Constant) -> bool
    ensures { result ≡ is_true (truth_of (word_in (reading_of reading.now)) value.now) }
{
    match value {
        Constant::Word(word) => reading.text(*word) == "true",
        _ => false,
    }
}

fn allows_alias(reading: &LintFile, setting: &Setting) -> bool
    ensures { result ≡ allows_alias (reading_of reading.now) setting.now }
{
    match setting {
        Setting::Plain(option) => {
            reading.text(option.name) == "allow_alias" && is_true(reading, &option.value)
        }
        Setting::Custom(_) => false,
    }
}

// What an item of an enum with this full name allows of aliases.
fn add_alias(
    found: &mut FileFindings,
    reading: &LintFile,
    full_name: &str,
    item: &EnumItem,
) -> Result<(), NoMemory>
    ensures { OnOk result (found.new ≡ found.old ++ map
        (found_at (reading_of reading.now) rule.EnumNoAllowAlias)
        (flat_map (allowed_alias (reading_of reading.now) full_name.now)
        (statements (enum_item_tree item.now)))) }
{
    match item {
        EnumItem::Option(option) => {
            let rule = Rule::EnumNoAllowAlias;
            let passes = !allows_alias(reading, &option.setting);
            found.add_unless(reading, Verdict { rule, passes }, option.keyword, full_name)
        }
        _ => Ok(()),
    }
}

fn add_each_alias(
    found: &mut FileFindings,
    reading: &LintFile,
    full_name: &str,
    items: &[EnumItem],
) -> Result<(), NoMemory>
    ensures { OnOk result (found.new ≡ found.old ++ map
        (found_at (reading_of reading.now) rule.EnumNoAllowAlias)
        (flat_map (allowed_alias (reading_of reading.now) full_name.now)
        (statements (trees enum_item_tree items.now)))) }
{
    for item in items {
        add_alias(found, reading, full_name, item)?;
    }
    Ok(())
}

fn add_aliases(
    alloc: Global,
    found: &mut FileFindings,
    walk: &Walk,
    scope: &str,
    names: &Enum,
) -> Result<(), NoMemory>
    ensures { OnOk result (found.new ≡ found.old
        ++ found_by walk.now.rules.now.chosen (reading_of walk.now.reading.now)
        rule.EnumNoAllowAlias (enum_no_allow_alias (reading_of walk.now.reading.now)
        scope.now names.now.name (trees enum_item_tree names.now.members.items))) }
{
    let Walk { rules, reading, .. } = *walk;
    if !rules.has(Rule::EnumNoAllowAlias) {
        return Ok(());
    }
    let full_name = under(alloc, scope, reading.text(names.name))?;
    add_each_alias(found, reading, &full_name, &names.members)
}

// ---- all of them

/// Adds what the rules find at an enum in a scope: its name, its options and its values.
pub(crate) fn add_enum(
    alloc: Global,
    found: &mut FileFindings,
    walk: &Walk,
    scope: &str,
    names: &Enum,
) -> Result<(), NoMemory>
    ensures { OnOk result (found.new ≡ found.old
        ++ enum_finds walk.now.rules.now.chosen (reading_of walk.now.reading.now)
        scope.now names.now.name (trees enum_item_tree names.now.members.items)) }
{
    let Walk { rules, reading, .. } = *walk;
    let items = names.members.as_slice();
    add_first_value(found, rules, reading, scope, items)?;
    add_aliases(alloc, found, walk, scope, names)?;
    let token = names.name;
    let rule = Rule::EnumPascalCase;
    let passes = is_pascal(reading.text(token));
    add_name(found, walk, Verdict { rule, passes }, scope, token)?;
    add_prefixes(alloc, found, walk, scope, names)?;
    add_value_names(found, rules, reading, scope, items)?;
    add_zero_suffixes(found, rules, reading, scope, items)
}
