//! Texts in the core language and in the language as written: which have a tree, and where the
//! others go wrong.

use crate::expect::{expect, repeated_text, source_of};
use proto_base::Profile;
use proto_text::lex_as;
use proto_tree::{Atom, CustomValue, File, Item, Setting, parse_as};
use std::process::Abort;

/// What a text is in a language: a text with a tree, or one with a fault of this number at this
/// offset.
#[derive(Clone, Copy, PartialEq, Eq)]
enum Is {
    Tree,
    Fault(u32, u32),
}

fn read<R: AllocGlobal + Abort>(rt: &R, profile: Profile, text: &str) -> Is {
    let source = source_of(rt, text);
    match lex_as(rt.alloc(), &source, profile) {
        Ok(tokens) => match parse_as(rt.alloc(), &source, &tokens, profile) {
            Ok(file) => {
                file.release();
                Is::Tree
            }
            Err(fault) => Is::Fault(fault.number(), fault.offset()),
        },
        Err(fault) => Is::Fault(fault.number(), fault.offset()),
    }
}

/// Texts, each with what it is in the core language and what it is as written.
const TEXTS: &[(&str, Is, Is)] = &[
    ("option (x) = 1;", Is::Fault(8, 0), Is::Tree),
    ("option java_package = \"a\";", Is::Tree, Is::Tree),
    ("import weak \"a\";", Is::Fault(8, 0), Is::Tree),
    (
        "import public weak \"a\";",
        Is::Fault(8, 0),
        Is::Fault(8, 0),
    ),
    (
        "import weak public \"a\";",
        Is::Fault(8, 0),
        Is::Fault(8, 0),
    ),
    ("import weak;", Is::Fault(8, 0), Is::Fault(8, 0)),
    (
        "message M { weak \"a\"; }",
        Is::Fault(8, 12),
        Is::Fault(8, 12),
    ),
    (
        "package weak; message weak { string weak = 1; }",
        Is::Tree,
        Is::Tree,
    ),
    // Each word may stand in the parentheses and behind them, a listed one too.
    (
        "option (.a.message).b.option = \"q\" 'r';",
        Is::Fault(8, 0),
        Is::Tree,
    ),
    ("option (x) = -1;", Is::Fault(8, 0), Is::Tree),
    ("option (x) = { };", Is::Fault(8, 0), Is::Tree),
    (
        "option (x) = { a: 1 u { b: 2 } };",
        Is::Fault(3, 16),
        Is::Tree,
    ),
    (
        "option (x) = { a: [1, { b: 2 }], c < d: -1.5 >; };",
        Is::Fault(3, 16),
        Is::Tree,
    ),
    // A custom option may stand wherever an option may, and in a oneof.
    (
        "message M { option (x) = {}; oneof o { option (x) = 1; int32 a = 1; } }",
        Is::Fault(8, 12),
        Is::Tree,
    ),
    (
        "message M { oneof o { int32 a = 1; option (x).y = { b }; } }",
        Is::Fault(8, 35),
        Is::Tree,
    ),
    (
        "message M { optional int32 a = 1 [(x) = { b: 1.5 }, deprecated = true]; }",
        Is::Fault(3, 43),
        Is::Tree,
    ),
    (
        "message M { map<string, M> m = 1 [(x) = 1]; extend N { M n = 1 [(x) = 1]; } }",
        Is::Fault(8, 12),
        Is::Tree,
    ),
    (
        "enum E { V = 0 [(x).y = V]; option (z) = true; }",
        Is::Fault(8, 9),
        Is::Tree,
    ),
    (
        "service S { rpc R (M) returns (stream M) { option (x) = {}; } option (y) = 1; }",
        Is::Fault(8, 43),
        Is::Tree,
    ),
];

/// Texts with a fault in both languages, each with its fault in the core language and the one as
/// written.
const FAULTS: &[(&str, Is, Is)] = &[
    // A value whose braces do not match.
    ("option (x) = {", Is::Fault(8, 0), Is::Fault(8, 0)),
    ("option (x) = { a { }", Is::Fault(8, 0), Is::Fault(8, 0)),
    (
        "message M { option (x) = { a: 1 } }",
        Is::Fault(3, 28),
        Is::Fault(8, 12),
    ),
    (
        "package p; option (x) = { } };",
        Is::Fault(8, 11),
        Is::Fault(8, 11),
    ),
    (
        "package p; option (x) = { a: 1; }",
        Is::Fault(3, 27),
        Is::Fault(8, 11),
    ),
    // A `[` elsewhere than behind a `:`.
    (
        "option (x) = { [p.x]: 1 };",
        Is::Fault(3, 20),
        Is::Fault(8, 0),
    ),
    ("option (x) = { a [1] };", Is::Fault(8, 0), Is::Fault(8, 0)),
    (
        "option (x) = { a: [[1]] };",
        Is::Fault(3, 16),
        Is::Fault(8, 0),
    ),
    // Names and paths.
    ("option x = { };", Is::Fault(8, 0), Is::Fault(8, 0)),
    ("option () = 1;", Is::Fault(8, 0), Is::Fault(8, 0)),
    ("option (x.) = 1;", Is::Fault(8, 0), Is::Fault(8, 0)),
    ("option (x). = 1;", Is::Fault(8, 0), Is::Fault(8, 0)),
    ("option (x).(y) = 1;", Is::Fault(8, 0), Is::Fault(8, 0)),
    ("option x.(y) = 1;", Is::Fault(8, 0), Is::Fault(8, 0)),
    ("option (x) { a: 1 };", Is::Fault(3, 14), Is::Fault(8, 0)),
    // Places.
    (
        "message M { oneof o { option deprecated = true; } }",
        Is::Fault(8, 22),
        Is::Fault(8, 22),
    ),
    (
        "message M { oneof o { ; } }",
        Is::Fault(8, 22),
        Is::Fault(8, 22),
    ),
    (
        "extend M { option (x) = 1; }",
        Is::Fault(8, 11),
        Is::Fault(8, 11),
    ),
    (
        "message M { int32 a: 1; }",
        Is::Fault(3, 19),
        Is::Fault(8, 12),
    ),
    // Tokens.
    (
        "option (x) = { a: \"\\q\" };",
        Is::Fault(3, 16),
        Is::Fault(6, 18),
    ),
    (
        "option (x) = { a '\\377' };",
        Is::Fault(6, 17),
        Is::Fault(6, 17),
    ),
    (
        "option (x) = { a: \"b };",
        Is::Fault(3, 16),
        Is::Fault(5, 18),
    ),
    (
        "option (x) = { a: 1e5 };",
        Is::Fault(3, 16),
        Is::Fault(7, 18),
    ),
    (
        "option (x) = { a # b };",
        Is::Fault(3, 17),
        Is::Fault(3, 17),
    ),
    (
        "option (x) = { a: /b };",
        Is::Fault(3, 16),
        Is::Fault(3, 18),
    ),
    (
        "option (x) = { a: 1 /* };",
        Is::Fault(3, 16),
        Is::Fault(4, 20),
    ),
];

/// Values in braces: how many are open, and what the text is as written.
const DEEP: &[(usize, Is)] = &[(32, Is::Tree), (33, Is::Fault(9, 45))];

// A file with the options that everyone writes; protoc takes it.
const MESSAGES: &str =
    "syntax = \"proto3\"; package p; import \"d.proto\"; extend google.protobuf.MessageOptions { T x = 1000; } message T { int32 a = 1; U u = 2; } message U { int32 b = 1; } message A { option (x) = { a: 1 u { b: 2 } }; int32 f = 1; message B { option (p.x).a = 3; } }";

// The same without `: 1` behind `a` and without the `:` behind `b`.
const MESSAGES_WITHOUT_COLONS: &str =
    "syntax = \"proto3\"; package p; import \"d.proto\"; extend google.protobuf.MessageOptions { T x = 1000; } message T { int32 a = 1; U u = 2; } message U { int32 b = 1; } message A { option (x) = { a u { b 2 } }; int32 f = 1; message B { option (p.x).a = 3; } }";

fn expect_row<R: AllocGlobal + Abort>(rt: &R, text: &str, core: Is, written: Is) {
    expect(rt, read(rt, Profile::Core, text) == core, text);
    expect(rt, read(rt, Profile::AsWritten, text) == written, text);
}

#[test]
fn options_of_both_languages(rt: HostRuntime) {
    for (text, core, written) in TEXTS {
        expect_row(&rt, text, *core, *written);
    }
    for (text, core, written) in FAULTS {
        expect_row(&rt, text, *core, *written);
    }
    expect_row(&rt, MESSAGES, Is::Fault(3, 193), Is::Tree);
    expect_row(&rt, MESSAGES_WITHOUT_COLONS, Is::Fault(8, 177), Is::Tree);
}

#[test]
fn braces_of_values_are_counted(rt: HostRuntime) {
    for (depth, written) in DEEP {
        let mut text = repeated_text(&rt, "option (x) = ", 1, "{", *depth);
        let closing = repeated_text(&rt, "}", *depth, ";", 1);
        text.push_str(closing.as_str()).expect(&rt, "memory");
        let is_so = read(&rt, Profile::AsWritten, text.as_str()) == *written;
        expect(&rt, is_so, text.as_str());
    }
}

// Whether the atoms are a word at 10, a `:` at 11 and another token at 12.
fn are_atoms(atoms: &[Atom]) -> bool {
    match atoms {
        [Atom::Word(10), Atom::Colon(11), Atom::Other(12)] => true,
        _ => false,
    }
}

// Whether the first item is the option `(p.x).y = { a: 1 }`, by its tokens.
fn is_option(file: &File) -> bool {
    let Some(Item::Option(option)) = file.items.first() else {
        return false;
    };
    let Setting::Custom(custom) = &option.setting else {
        return false;
    };
    let custom = custom.get();
    let CustomValue::Aggregate(value) = &custom.value else {
        return false;
    };
    let (Some(word), Some(step)) = (
        custom.name.words.rest.as_slice().first(),
        custom.path.as_slice().first(),
    ) else {
        return false;
    };
    option.keyword == 0
        && custom.open == 1
        && custom.name.dot.is_none()
        && custom.name.words.first == 2
        && (word.separator == 3 && word.item == 4)
        && custom.close == 5
        && (step.separator == 6 && step.item == 7)
        && custom.equals == 8
        && value.open == 9
        && are_atoms(value.atoms.as_slice())
        && value.close == 13
        && option.semicolon == 14
}

#[test]
fn a_value_is_a_list_of_tokens(rt: HostRuntime) {
    let source = source_of(&rt, "option (p.x).y = { a: 1 };");
    let tokens = lex_as(rt.alloc(), &source, Profile::AsWritten).expect(&rt, "tokens");
    let file = parse_as(rt.alloc(), &source, &tokens, Profile::AsWritten).expect(&rt, "a tree");
    let is_so = is_option(&file);
    file.release();
    expect(&rt, is_so, "an option");
}
