//! The rules of packages, paths and syntax.

ghost use Rattle.std.specs.Prelude.{◌≡◌, ◌==◌, if◌then◌else◌, ◌<◌, ◌++◌, length, get_or, map, OnOk};
ghost use Rattle.std.specs.List.{list_all};
ghost use Rattle.std.specs.Str.{bytes_eq};
ghost use Rattle.proto_base.specs.Ascii as ascii;
ghost use Rattle.proto_case.specs.Cases.{is_lower_snake};
ghost use Rattle.proto_lint_rules.specs.declared.rule.Rule.TheVariants as rule;
ghost use Rattle.proto_lint.specs.Packages.{Head, file_name, found_unless, has_directory_like_package, has_directory_of_package, has_lower_snake_file, has_lower_snake_package, has_package, has_package_of_directory, has_version, head_finds, package_or_dash, package_unless, passes, slashed};

use crate::heads::{FileHead, Heads};
use proto_base::NoMemory;
use proto_case::{is_lower_snake, is_version};
use proto_lint_names::{FileFindings, Rule, RuleSet, last_part};

// ---- each rule, as what passes

/// Whether the file has a package.
fn has_package(head: &FileHead) -> bool
    ensures { result ≡ has_package head.now }
{
    !head.package().is_empty()
}

/// Whether the file has the package of the first file of its directory.
fn has_package_of_directory(heads: &Heads, head: &FileHead) -> bool
    ensures { result ≡ has_package_of_directory heads.now head.now }
{
    match heads.first_in_directory(head.directory()) {
        Some(first) => head.package() == first.package(),
        None => true,
    }
}

/// Whether a file with a package has the directory of the first file of that package.
fn has_directory_of_package(heads: &Heads, head: &FileHead) -> bool
    ensures { result ≡ has_directory_of_package heads.now head.now }
{
    if !has_package(head) {
        return true;
    }
    match heads.first_of_package(head.package()) {
        Some(first) => head.directory() == first.directory(),
        None => true,
    }
}

fn slash_for_dot(byte: u8) -> u8
    ensures { result ≡ (if byte == ascii.dot then ascii.slash else byte) }
{
    if byte == b'.' { b'/' } else { byte }
}

/// Whether a directory is a package's name with `/` for `.`.
fn is_slashed(directory: &[u8], name: &[u8]) -> bool
    ensures { result ≡ bytes_eq directory.now (slashed name.now) }
{
    if directory.len() != name.len() {
        return false;
    }
    for place in 0..name.len() {
        if directory[place] != slash_for_dot(name[place]) {
            return false;
        }
    }
    true
}

/// Whether a file with a package stands in the directory with the package's name.
fn has_directory_like_package(head: &FileHead) -> bool
    ensures { result ≡ has_directory_like_package head.now }
{
    !has_package(head) || is_slashed(head.directory().as_bytes(), head.package().as_bytes())
}

/// Whether each word of the package is lower snake.
fn are_lower_snake(words: &[&str]) -> bool
    ensures { result ≡ list_all is_lower_snake (map (λ w. w.now) words.now) }
{
    for word in words {
        if !is_lower_snake(word) {
            return false;
        }
    }
    true
}

fn has_lower_snake_package(head: &FileHead) -> bool
    ensures { result ≡ has_lower_snake_package head.now }
{
    are_lower_snake(head.words())
}

/// Whether the last part of a file's package is a version.
fn has_version(head: &FileHead) -> bool
    ensures { result ≡ has_version head.now }
{
    !has_package(head) || is_version(last_part(head.package()))
}

fn has_lower_snake_file(head: &FileHead) -> bool
    ensures { result ≡ has_lower_snake_file head.now }
{
    is_lower_snake(head.stem())
}

// ---- what they find

/// The package, or `-`.
fn package_or_dash<'a>(head: &'a FileHead) -> &'a str
    ensures { result.now ≡ package_or_dash head.entry.now }
{
    if has_package(head) {
        head.package()
    } else {
        "-"
    }
}

/// Whether a file passes a rule of packages. It passes each rule that is none.
fn passes(rule: Rule, heads: &Heads, head: &FileHead) -> bool
    ensures { result ≡ passes rule heads.now head.now }
{
    match rule {
        Rule::DirectorySamePackage => has_package_of_directory(heads, head),
        Rule::PackageDefined => has_package(head),
        Rule::PackageDirectoryMatch => has_directory_like_package(head),
        Rule::PackageLowerSnakeCase => has_lower_snake_package(head),
        Rule::PackageSameDirectory => has_directory_of_package(heads, head),
        Rule::PackageVersionSuffix => has_version(head),
        _ => true,
    }
}

/// Adds what a rule of packages finds: the package, at its name. A rule that is not chosen costs
/// nothing, since it is asked for before the file is looked at.
fn add_package(
    found: &mut FileFindings,
    rules: &RuleSet,
    rule: Rule,
    heads: &Heads,
    head: &FileHead,
) -> Result<(), NoMemory>
    ensures { OnOk result (found.new ≡ found.old
        ++ package_unless rules.now.chosen rule (passes rule heads.now head.now) head.now) }
{
    if rules.has(rule) && !passes(rule, heads, head) {
        found.add(rule, head.offset(), package_or_dash(head))?;
    }
    Ok(())
}

fn add_file_lower_snake_case(
    found: &mut FileFindings,
    rules: &RuleSet,
    head: &FileHead,
) -> Result<(), NoMemory>
    ensures { OnOk result (found.new ≡ found.old
        ++ found_unless rules.now.chosen rule.FileLowerSnakeCase
        (has_lower_snake_file head.now) 0 (file_name head.now)) }
{
    let rule = Rule::FileLowerSnakeCase;
    if rules.has(rule) && !has_lower_snake_file(head) {
        found.add(rule, 0, head.file_name())?;
    }
    Ok(())
}

fn add_syntax_specified(
    found: &mut FileFindings,
    rules: &RuleSet,
    head: &FileHead,
) -> Result<(), NoMemory>
    ensures { OnOk result (found.new ≡ found.old
        ++ found_unless rules.now.chosen rule.SyntaxSpecified head.now.has_syntax 0 head.now.path) }
{
    let rule = Rule::SyntaxSpecified;
    if rules.has(rule) && !head.has_syntax() {
        found.add(rule, 0, head.path())?;
    }
    Ok(())
}

/// Adds what the rules of packages, paths and syntax find in a file, by its number. Fails only when
/// out of memory.
pub fn add_head(
    found: &mut FileFindings,
    rules: &RuleSet,
    heads: &Heads,
    file: u32,
) -> Result<(), NoMemory>
    requires { file < length heads.now }
    ensures { OnOk result ((d : Head) → found.new ≡ found.old
        ++ head_finds rules.now.chosen heads.now (get_or heads.now file d)) }
{
    let head = heads.get(file);
    add_package(found, rules, Rule::DirectorySamePackage, heads, head)?;
    add_file_lower_snake_case(found, rules, head)?;
    add_package(found, rules, Rule::PackageDefined, heads, head)?;
    add_package(found, rules, Rule::PackageDirectoryMatch, heads, head)?;
    add_package(found, rules, Rule::PackageLowerSnakeCase, heads, head)?;
    add_package(found, rules, Rule::PackageSameDirectory, heads, head)?;
    add_package(found, rules, Rule::PackageVersionSuffix, heads, head)?;
    add_syntax_specified(found, rules, head)?;
    Ok(())
}
