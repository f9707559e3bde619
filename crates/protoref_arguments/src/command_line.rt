//! The words of the command line.

ghost use Rattle.std.specs.Prelude.{◌≡◌, ◌≤◌, ◌++◌, ◌∷◌, [], true, false, codes, drop, length, map, unwrap_or, MatchResult, string_bytes};
ghost use Rattle.std.specs.List.{list_all};
ghost use Rattle.clap.specs.Values.{kind_of};
ghost use Rattle.clap.specs.Walk.{all_of, first_of, rows_of, texts};
ghost use Rattle.clap.specs.Words.{found_of, subcommand_rows_of};
ghost use Rattle.proto_lint_rules.specs.Rules.{is_chosen};
ghost use Rattle.proto_lint_rules.specs.declared.rule.Rule.{Rule};
ghost use Rattle.protoref_arguments.specs.CommandLines.{asked_by_line, asked_by_words, asks_help, asks_version, names_rule, taken, lint, rename, delete_field, add_import, drop_import};
ghost use Rattle.protoref_arguments.specs.Marked.{begins_dashed, is_bad_at, words_marked, marks_for_word};
ghost use Rattle.protoref_arguments.specs.Matched.{asked_by_matches, asked_of, with_one, with_root, with_two};
ghost use Rattle.protoref_arguments.specs.Requests.{IsAnswerTo, IsReplyTo, IsWordsFaultOf, IsHelpOf, IsSetFor, IsTextOf, name_rule};

use crate::commands::program;
use crate::language::language_of;
use crate::request::{Request, UsageError};
use clap::error::ErrorKind;
use clap::{ArgMatches, Error};
use proto_base::Profile;
use proto_lint_rules::{Rule, RuleSet};
use std::alloc::Global;

/// Reads the words, of which the first is the program's name: the language of the schemas, and what
/// is asked for. `--version` alone behind the program's name asks for the version. Else the first word
/// there may be `--as-written`, which asks for the language as written, and the others are those of a
/// command. Behind the command each word is the text that it is, whatever it begins with, unless the
/// first of them asks for help.
/// `BadCommandLine` comes where the words are none of the program's, or name a rule that there is
/// not; `NoMemory` where memory runs out.
pub fn parse_arguments(alloc: Global, words: &[String]) -> Result<(Profile, Request), UsageError>
    ensures { IsAnswerTo (asked_by_line (drop 1 (map string_bytes words.now))) result }
{
    if asks_version(words) {
        return Ok((Profile::Core, Request::Version));
    }
    let (profile, words) = language_of(words);
    let request = request_by_words(alloc, words)?;
    Ok((profile, request))
}

// The words behind the program's name ask for the version.
fn asks_version(words: &[String]) -> bool
    ensures { result ≡ asks_version (drop 1 (map string_bytes words.now)) }
{
    words.len() == 2 && words[1].as_str() == "--version"
}

// What the words of a command ask for.
fn request_by_words(alloc: Global, words: &[String]) -> Result<Request, UsageError>
    ensures { IsReplyTo (asked_by_words (drop 1 (map string_bytes words.now))) result }
{
    let words = marked_words(alloc, words)?;
    let program = program(alloc)?;
    match program.try_get_matches_from(words.as_slice()) {
        Ok(matches) => request_of(alloc, &matches),
        Err(error) => help_of(alloc, &error),
    }
}

// The help, where it was asked for.
fn help_of(alloc: Global, error: &Error) -> Result<Request, UsageError>
    ensures { IsHelpOf (kind_of error.now) result }
{
    match error.kind() {
        ErrorKind::DisplayHelp => Ok(Request::Help(error.to_string(alloc)?)),
        ErrorKind::OutOfMemory => Err(UsageError::NoMemory),
        _ => Err(UsageError::BadCommandLine),
    }
}

// The words for `clap`, with `--` before those that are texts.
fn marked_words<'a>(alloc: Global, words: &'a [String]) -> Result<Vec<&'a str>, UsageError>
    ensures { MatchResult result
        (λ v. (texts v.items ≡ words_marked (map string_bytes words.now))
        × (begins_dashed (map string_bytes words.now) ≡ false)
        × (length words.now ≤ usize.MAX))
        (IsWordsFaultOf (begins_dashed (map string_bytes words.now))) }
{
    let mut marked = Vec::new(alloc);
    for (index, word) in words.iter().enumerate() {
        put_marked(&mut marked, index, word.as_str())?;
    }
    Ok(marked)
}

// Adds the word with this index, and `--` before it where the texts begin.
fn put_marked<'a>(marked: &mut Vec<&'a str>, index: usize, word: &'a str) -> Result<(), UsageError>
    ensures { MatchResult result
        (λ _. (texts marked.new.items ≡ texts marked.old.items
        ++ marks_for_word index word.entry.now)
        × (is_bad_at index word.entry.now ≡ false))
        (IsWordsFaultOf (is_bad_at index word.entry.now)) }
{
    if index == 1 && word.starts_with('-') && !asks_help(word) {
        return Err(UsageError::BadCommandLine);
    }
    if index == 2 && !asks_help(word) {
        marked.push("--")?;
    }
    Ok(marked.push(word)?)
}

fn asks_help(word: &str) -> bool
    ensures { result ≡ asks_help word.now }
{
    word == "-h" || word == "--help"
}

// What the matches ask for.
fn request_of(alloc: Global, matches: &ArgMatches<'_>) -> Result<Request, UsageError>
    ensures { IsReplyTo (asked_of (subcommand_rows_of matches.now)) result }
{
    let Some((command, matches)) = matches.subcommand() else {
        return Err(UsageError::BadCommandLine);
    };
    request_in(alloc, command, matches)
}

// What the command with this name and these matches asks for.
fn request_in(alloc: Global, command: &str, matches: &ArgMatches<'_>) -> Result<Request, UsageError>
    ensures { IsReplyTo (asked_by_matches command.now (rows_of (found_of matches.now))) result }
{
    let root = text_of(alloc, matches, "ROOT")?;
    request_with(alloc, command, matches, root)
}

// What the command asks for, of the schemas in this folder.
fn request_with(
    alloc: Global,
    command: &str,
    matches: &ArgMatches<'_>,
    root: String,
) -> Result<Request, UsageError>
    ensures { IsReplyTo
        (with_root command.now (rows_of (found_of matches.now)) (string_bytes root)) result }
{
    match command {
        "compile" => Ok(Request::Compile { root }),
        "lint" => lint_of(matches, root),
        "rename" => rename_of(alloc, matches, root),
        "delete-field" => delete_field_of(alloc, matches, root),
        "add-import" => add_import_of(alloc, matches, root),
        "drop-import" => drop_import_of(alloc, matches, root),
        "undo" => Ok(Request::Undo { root }),
        "log" => Ok(Request::Log { root }),
        "recover" => Ok(Request::Recover { root }),
        "migrate" => Ok(Request::Migrate { root }),
        _ => Err(UsageError::BadCommandLine),
    }
}

fn lint_of(matches: &ArgMatches<'_>, root: String) -> Result<Request, UsageError>
    ensures { IsReplyTo (taken lint (string_bytes root
        ∷ unwrap_or (all_of (codes "RULE") (rows_of (found_of matches.now))) [])) result }
{
    let rules = rules_in(matches)?;
    Ok(Request::Lint { root, rules })
}

// The rules that the matches name; all, where they name none.
fn rules_in(matches: &ArgMatches<'_>) -> Result<RuleSet, UsageError>
    ensures { IsSetFor (unwrap_or (all_of (codes "RULE") (rows_of (found_of matches.now))) [])
        result }
{
    match matches.get_strs("RULE") {
        Some(names) => rules_of(names),
        None => Ok(RuleSet::all()),
    }
}

fn rename_of(alloc: Global, matches: &ArgMatches<'_>, root: String) -> Result<Request, UsageError>
    ensures { IsReplyTo (with_two rename (codes "NAME") (codes "TO")
        (rows_of (found_of matches.now)) (string_bytes root)) result }
{
    let name = text_of(alloc, matches, "NAME")?;
    let to = text_of(alloc, matches, "TO")?;
    Ok(Request::Rename { root, name, to })
}

fn delete_field_of(
    alloc: Global,
    matches: &ArgMatches<'_>,
    root: String,
) -> Result<Request, UsageError>
    ensures { IsReplyTo (with_one delete_field (codes "NAME")
        (rows_of (found_of matches.now)) (string_bytes root)) result }
{
    let name = text_of(alloc, matches, "NAME")?;
    Ok(Request::DeleteField { root, name })
}

fn add_import_of(
    alloc: Global,
    matches: &ArgMatches<'_>,
    root: String,
) -> Result<Request, UsageError>
    ensures { IsReplyTo (with_two add_import (codes "FILE") (codes "PATH")
        (rows_of (found_of matches.now)) (string_bytes root)) result }
{
    let file = text_of(alloc, matches, "FILE")?;
    let path = text_of(alloc, matches, "PATH")?;
    Ok(Request::AddImport { root, file, path })
}

fn drop_import_of(
    alloc: Global,
    matches: &ArgMatches<'_>,
    root: String,
) -> Result<Request, UsageError>
    ensures { IsReplyTo (with_two drop_import (codes "FILE") (codes "PATH")
        (rows_of (found_of matches.now)) (string_bytes root)) result }
{
    let file = text_of(alloc, matches, "FILE")?;
    let path = text_of(alloc, matches, "PATH")?;
    Ok(Request::DropImport { root, file, path })
}

// The first value of an argument.
fn text_of(alloc: Global, matches: &ArgMatches<'_>, id: &str) -> Result<String, UsageError>
    ensures { IsTextOf (first_of id.now (rows_of (found_of matches.now))) result }
{
    match matches.get_str(id) {
        Some(text) => Ok(String::from_str(alloc, text)?),
        None => Err(UsageError::BadCommandLine),
    }
}

// The rules with these names; all, where none is named.
fn rules_of(names: &[&str]) -> Result<RuleSet, UsageError>
    ensures { IsSetFor (texts names.now) result }
{
    if names.is_empty() {
        return Ok(RuleSet::all());
    }
    named_rules(names)
}

// The rules with these names.
fn named_rules(names: &[&str]) -> Result<RuleSet, UsageError>
    ensures { MatchResult result
        (λ set. (list_all names_rule (texts names.now) ≡ true)
        × ((rule : Rule) → is_chosen set.chosen rule ≡ name_rule (texts names.now) rule))
        (λ fault. (fault ≡ UsageError.BadCommandLine)
        × (list_all names_rule (texts names.now) ≡ false)) }
{
    let mut rules = RuleSet::none();
    for name in names {
        match Rule::from_name(name) {
            Some(rule) => rules.insert(rule),
            None => return Err(UsageError::BadCommandLine),
        }
    }
    Ok(rules)
}
