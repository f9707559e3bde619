//! Which command the words of the command line ask for.

use proto_base::Profile;
use protoref_arguments::{Request, UsageError, parse_arguments};
use protoref_commands::{Rule, RuleSet};
use std::process::Abort;

/// A line, and what it asks for: a command and its words, joined by `|`; `help` that has these words; or help that tells of
/// each of the `rules`.
type Row = (&'static str, &'static str);

/// What a bad line asks for.
const REFUSAL: &str = "refusal";

// The rules of these names, with spaces between them, or `all`.
fn rules_named<R: Abort>(rt: &R, names: &str) -> RuleSet {
    if names == "all" {
        return RuleSet::all();
    }
    let mut rules = RuleSet::none();
    for name in names.split(' ') {
        match Rule::from_name(name) {
            Some(rule) => rules.insert(rule),
            None => assert!(rt; names.is_empty(), "no rule {name}"),
        }
    }
    rules
}

fn words_of<R: AllocGlobal + Abort>(rt: &R, line: &str) -> Vec<String> {
    let mut words = Vec::new(rt.alloc());
    for word in line.split(' ') {
        let word = String::from_str(rt.alloc(), word).expect(rt, "memory");
        words.push(word).expect(rt, "memory");
    }
    words
}

// Whether the line asks for what is wanted, in the language that is wanted.
fn is_asked<R: AllocGlobal + Abort>(rt: &R, line: &str, wanted: &str, language: Profile) -> bool {
    let words = words_of(rt, line);
    match parse_arguments(rt.alloc(), words.as_slice()) {
        Ok((profile, request)) => profile == language && asks_for(rt, &request, wanted),
        Err(UsageError::BadCommandLine) => wanted == REFUSAL,
        Err(UsageError::NoMemory) => false,
    }
}

fn expect_rows<R: AllocGlobal + Abort>(rt: &R, rows: &[Row]) {
    for (line, wanted) in rows {
        let is_wanted = is_asked(rt, line, wanted, Profile::Core);
        assert!(rt; is_wanted, "at {line}");
    }
}

/// Lines, and what each asks for in the language as written.
const AS_WRITTEN: &[Row] = &[
    ("protoref --as-written compile .", "compile|."),
    ("protoref --as-written rename . A.b c", "rename|.|A.b|c"),
    ("protoref --as-written --help", "help|Usage: protoref"),
    // The word stands once, and before a command.
    ("protoref --as-written", REFUSAL),
    ("protoref --as-written --version", REFUSAL),
    ("protoref --as-written --as-written compile .", REFUSAL),
];

/// Lines that ask for no language, and what each asks for.
const CORE: &[Row] = &[
    ("protoref compile .", "compile|."),
    ("protoref compile --as-written", "compile|--as-written"),
    ("protoref --version", "version"),
    // The word stands first, in just this spelling.
    ("protoref --As-Written compile .", REFUSAL),
    ("protoref --as-written= compile .", REFUSAL),
    ("protoref compile . --as-written", REFUSAL),
    ("protoref", REFUSAL),
];

#[test]
fn the_first_word_asks_for_a_language(rt: HostRuntime) {
    for (line, wanted) in AS_WRITTEN {
        let is_wanted = is_asked(&rt, line, wanted, Profile::AsWritten);
        assert!(&rt; is_wanted, "at {line}");
    }
    expect_rows(&rt, CORE);
}

fn asks_for<R: Abort>(rt: &R, request: &Request, wanted: &str) -> bool {
    let mut words = wanted.split('|');
    let command = words.next().unwrap_or("");
    let first = words.next().unwrap_or("");
    let second = words.next().unwrap_or("");
    let third = words.next().unwrap_or("");
    let (asked, root, name, more) = match request {
        Request::Help(text) if command == "help" => return text.as_str().contains(first),
        Request::Help(text) => return command == "rules" && tells_of_each_rule(text.as_str()),
        Request::Version => return command == "version",
        Request::Lint { root, rules } => {
            return command == "lint" && root.as_str() == first && *rules == rules_named(rt, second);
        }
        Request::Compile { root } => ("compile", root, "", ""),
        Request::Rename { root, name, to } => ("rename", root, name.as_str(), to.as_str()),
        Request::DeleteField { root, name } => ("delete-field", root, name.as_str(), ""),
        Request::AddImport { root, file, path } => (
            "add-import",
            root,
            file.as_str(),
            path.as_str(),
        ),
        Request::DropImport { root, file, path } => (
            "drop-import",
            root,
            file.as_str(),
            path.as_str(),
        ),
        Request::Undo { root } => ("undo", root, "", ""),
        Request::Log { root } => ("log", root, "", ""),
        Request::Recover { root } => ("recover", root, "", ""),
        Request::Migrate { root } => ("migrate", root, "", ""),
    };
    command == asked && first == root.as_str() && second == name && third == more
}

// Each rule has one line.
fn tells_of_each_rule(text: &str) -> bool {
    let mut rules = RuleSet::none();
    for line in text.lines() {
        let name = line.trim_start().split(' ').next().unwrap_or("");
        if let Some(rule) = Rule::from_name(name) {
            if rules.has(rule) {
                return false;
            }
            rules.insert(rule);
        }
    }
    rules == RuleSet::all()
}

const LINTS: &[Row] = &[
    ("protoref lint .", "lint|.|all"),
    ("protoref lint --x", "lint|--x|all"),
    ("protoref lint --", "lint|--|all"),
    (
        "protoref lint a IMPORT_USED DIRECTORY_SAME_PACKAGE",
        "lint|a|IMPORT_USED DIRECTORY_SAME_PACKAGE",
    ),
    (
        "protoref lint a DIRECTORY_SAME_PACKAGE IMPORT_USED DIRECTORY_SAME_PACKAGE",
        "lint|a|IMPORT_USED DIRECTORY_SAME_PACKAGE",
    ),
];

const REFUSED: &[Row] = &[
    // What is no command.
    ("protoref", REFUSAL),
    ("protoref compile", REFUSAL),
    ("protoref compile a b", REFUSAL),
    ("protoref compile a --help", REFUSAL),
    ("protoref compile -- a", REFUSAL),
    ("protoref Compile .", REFUSAL),
    ("protoref comp .", REFUSAL),
    ("protoref help", REFUSAL),
    ("protoref help compile", REFUSAL),
    ("protoref -x compile .", REFUSAL),
    // Other options and rules.
    ("protoref -hx", REFUSAL),
    ("protoref --help=x", REFUSAL),
    ("protoref -- compile .", REFUSAL),
    ("protoref --version .", REFUSAL),
    ("protoref --version --version", REFUSAL),
    ("protoref --versions", REFUSAL),
    ("protoref -V", REFUSAL),
    ("protoref lint", REFUSAL),
    ("protoref lint . NO_SUCH", REFUSAL),
    ("protoref lint . IMPORT_USED NO_SUCH", REFUSAL),
    ("protoref lint . import_used", REFUSAL),
    ("protoref lint . IMPORT_USED,PACKAGE_DEFINED", REFUSAL),
    ("protoref lint . ", REFUSAL),
    // Rules and commands that are not there.
    ("protoref lint . --help", REFUSAL),
    ("protoref lint . -x", REFUSAL),
    ("protoref lint -- . IMPORT_USED", REFUSAL),
    ("protoref Recover .", REFUSAL),
    ("protoref Migrate .", REFUSAL),
    ("protoref Rename . A B", REFUSAL),
    ("protoref delete_field . A", REFUSAL),
    ("protoref redo .", REFUSAL),
    // Edits with too few or too many words.
    ("protoref rename", REFUSAL),
    ("protoref rename . A", REFUSAL),
    ("protoref rename . A B C", REFUSAL),
    ("protoref delete-field .", REFUSAL),
    ("protoref delete-field . A B", REFUSAL),
    ("protoref add-import . a.proto", REFUSAL),
    ("protoref add-import . a.proto b.proto c.proto", REFUSAL),
    ("protoref drop-import . a.proto", REFUSAL),
    ("protoref drop-import . a.proto b.proto c.proto", REFUSAL),
    // Other words behind a root.
    ("protoref undo", REFUSAL),
    ("protoref undo . .", REFUSAL),
    ("protoref undo . --help", REFUSAL),
    ("protoref log", REFUSAL),
    ("protoref log . 1", REFUSAL),
    ("protoref recover", REFUSAL),
    ("protoref recover . .", REFUSAL),
    ("protoref recover . --help", REFUSAL),
    ("protoref migrate", REFUSAL),
    ("protoref migrate . .", REFUSAL),
    ("protoref migrate . --help", REFUSAL),
];

const TAKEN: &[Row] = &[
    ("protoref compile .", "compile|."),
    ("protoref compile a/b", "compile|a/b"),
    ("protoref compile -x", "compile|-x"),
    ("protoref compile --", "compile|--"),
    ("protoref compile --root=a", "compile|--root=a"),
    ("protoref compile ", "compile|"),
    ("protoref compile compile", "compile|compile"),
    ("protoref rename . A.b_c d_e", "rename|.|A.b_c|d_e"),
    ("protoref rename . A -x", "rename|.|A|-x"),
    ("protoref rename -r --name --", "rename|-r|--name|--"),
    ("protoref rename . A -h", "rename|.|A|-h"),
    ("protoref rename . A --help", "rename|.|A|--help"),
    ("protoref rename   ", "rename|||"),
    ("protoref delete-field a/b p.M.f", "delete-field|a/b|p.M.f"),
    ("protoref delete-field --x -f", "delete-field|--x|-f"),
    (
        "protoref add-import . a.proto b.proto",
        "add-import|.|a.proto|b.proto",
    ),
    (
        "protoref add-import . --file=a --path=b",
        "add-import|.|--file=a|--path=b",
    ),
    (
        "protoref drop-import . a.proto b.proto",
        "drop-import|.|a.proto|b.proto",
    ),
    ("protoref undo .", "undo|."),
    ("protoref undo undo", "undo|undo"),
    ("protoref log -l", "log|-l"),
    ("protoref log --", "log|--"),
    ("protoref recover .", "recover|."),
    ("protoref recover -r", "recover|-r"),
    ("protoref recover recover", "recover|recover"),
    ("protoref migrate .", "migrate|."),
    ("protoref migrate -m", "migrate|-m"),
    ("protoref migrate migrate", "migrate|migrate"),
];

#[test]
fn takes_the_words_as_they_stand(rt: HostRuntime) {
    expect_rows(&rt, TAKEN);
    expect_rows(&rt, LINTS);
}

#[test]
fn refuses_what_is_no_command(rt: HostRuntime) {
    expect_rows(&rt, REFUSED);
}

const USAGE: &str = "help|Usage: protoref";

/// Lines that ask for help, and words of it; of each command its example too.
const HELPS: &[Row] = &[
    ("protoref -h", USAGE),
    ("protoref --help", USAGE),
    ("protoref --help compile .", USAGE),
    ("protoref -h nothing", USAGE),
    ("protoref compile -h", USAGE),
    ("protoref compile --help", USAGE),
    ("protoref compile --help . .", USAGE),
    ("protoref lint -h", USAGE),
    ("protoref lint --help . NO_SUCH", USAGE),
    ("protoref rename -h", USAGE),
    ("protoref rename --help . A B", USAGE),
    ("protoref delete-field -h", USAGE),
    ("protoref add-import --help", USAGE),
    ("protoref drop-import -h", USAGE),
    ("protoref undo --help", USAGE),
    ("protoref log -h", USAGE),
    ("protoref recover --help", USAGE),
    ("protoref migrate -h", USAGE),
    ("protoref compile -h", "help|Example: protoref compile "),
    ("protoref lint -h", "help|Example: protoref lint "),
    ("protoref rename -h", "help|Example: protoref rename "),
    (
        "protoref delete-field -h",
        "help|Example: protoref delete-field ",
    ),
    (
        "protoref add-import -h",
        "help|Example: protoref add-import ",
    ),
    (
        "protoref drop-import -h",
        "help|Example: protoref drop-import ",
    ),
    ("protoref undo -h", "help|Example: protoref undo "),
    ("protoref log -h", "help|Example: protoref log "),
    ("protoref recover -h", "help|Example: protoref recover "),
    ("protoref migrate -h", "help|Example: protoref migrate "),
    // What the numbers and the statuses mean.
    ("protoref -h", "help|protoref --version prints the version"),
    (
        "protoref -h",
        "help|With --as-written as the first word custom options are read",
    ),
    (
        "protoref rename -h",
        "help|  19 OptionValue     a word of an option may stand for the symbol",
    ),
    (
        "protoref delete-field -h",
        "help|  20 FixedName      options are looked up by this name",
    ),
    (
        "protoref compile -h",
        "help|   1 TooLarge           a file of more than",
    ),
    (
        "protoref compile -h",
        "help|  14 Unresolved         a reference that means nothing",
    ),
    (
        "protoref compile -h",
        "help|  35 TooManyFiles       more files than a workspace holds",
    ),
    (
        "protoref compile -h",
        "help|  15 WrongKind          a reference of a method or of an `extend` that means an enum",
    ),
    (
        "protoref compile -h",
        "help|  36 NotExtendable      an extension's number inside no extension range of",
    ),
    (
        "protoref compile -h",
        "help|  37 DuplicateExtension an extension's number that an earlier one of the same",
    ),
    (
        "protoref compile -h",
        "help|  38 RequiredExtension  a required extension",
    ),
    (
        "protoref compile -h",
        "help|  39 NotAnOption        a custom option whose extension is one of another element",
    ),
    (
        "protoref lint -h",
        "help|1 with findings, as path:line:column: RULE name",
    ),
    (
        "protoref rename -h",
        "help|   7 Captured        a reference would mean",
    ),
    (
        "protoref delete-field -h",
        "help|  10 LastOfOneof    the field is the only one",
    ),
    (
        "protoref add-import -h",
        "help|  12 AlreadyImported the file imports the path",
    ),
    (
        "protoref drop-import -h",
        "help|  15 Needed      a reference means a symbol",
    ),
    (
        "protoref undo -h",
        "help|  17 Stale the files are not as the entry left them",
    ),
    (
        "protoref undo -h",
        "help|   2 NothingToUndo the journal has no entry",
    ),
    (
        "protoref log -h",
        "help|   1 BadJournal the journal is damaged",
    ),
    (
        "protoref recover -h",
        "help|  17 Stale the files are not as the entry left them",
    ),
    (
        "protoref migrate -h",
        "help|   5 JournalFull the journal would have more",
    ),
    (
        "protoref migrate -h",
        "help|2 with a line on standard error.",
    ),
    // A line of each rule.
    ("protoref lint --help", "rules"),
];

#[test]
fn gives_help(rt: HostRuntime) {
    expect_rows(&rt, HELPS);
}
