//! Rules of names, versions, words and paths, and names in other styles, with answers worked out by hand.

use crate::expect::expect;
use proto_case::{
    camel_digest, camel_from, entry_name, is_lower_snake, is_pascal, is_upper_snake, is_version,
    upper,
};
use proto_files::is_workspace_path;
use proto_text::is_word;
use proto_tree::{is_listed, may_name_value};
use std::process::Abort;

/// A rule of names.
enum Rule {
    LowerSnake,
    UpperSnake,
    Pascal,
    Version,
    /// A word of a schema.
    Word,
    /// A path of a workspace.
    Path,
    /// A word that the grammar lists.
    Listed,
    /// A word that may name a value of an enum.
    ValueName,
}

const KEYWORDS: &str =
    "syntax|import|weak|public|package|message|enum|service|rpc|returns|stream|oneof|map|extensions|extend|group|optional|required|repeated|to|max";

/// Words that a block of an enum may begin with.
const STATEMENTS: &str = "option|reserved";

const SCALARS: &str =
    "double|float|int32|int64|uint32|uint64|sint32|sint64|fixed32|fixed64|sfixed32|sfixed64|bool|string|bytes";

const UNLISTED: &str = "messages|M|V|Message|extension|oneOf|int|int16|fixed|proto3|true|min|_to";

/// A rule, whether it holds, and names of which it does so, with `|` between them.
const NAMES: &[(Rule, bool, &str)] = &[
    (Rule::LowerSnake, true, "a|z9|a1_b|a_1|foo_bar_baz"),
    (
        Rule::LowerSnake,
        false,
        "|_|_a|a_|a__b|A|aB|1a|a-b|a.b|\u{e4}|a\u{e4}",
    ),
    (Rule::UpperSnake, true, "A|Z9|A1_B|A_1|FOO_BAR_BAZ"),
    (
        Rule::UpperSnake,
        false,
        "|_|_A|A_|A__B|a|Ab|1A|A-B|A.B|\u{c4}|A\u{c4}",
    ),
    (Rule::Pascal, true, "Foo|F|F1|FooBar|HTTPCode|A2b"),
    (
        Rule::Pascal,
        false,
        "|foo|fooBar|Foo_Bar|Foo_|_Foo|1Foo|Foo.Bar|F\u{f6}o",
    ),
    (
        Rule::Version,
        true,
        "v1|v9|v10|v1alpha|v1alpha1|v1beta|v12beta3|v2alpha20",
    ),
    (
        Rule::Version,
        false,
        "|v|V1|1|xv1|v0|v01|v1gamma|valpha|v1alph",
    ),
    // Stages that are none.
    (
        Rule::Version,
        false,
        "v1Alpha|v1alpha0|v1alpha01|v1beta0|v1alphabeta|v1alpha1beta1|v1alpha1x|v1p1|v1 ",
    ),
    (Rule::Word, true, "a|_|Z9_z"),
    (Rule::Word, false, "|9a|a-b|é|a "),
    (Rule::Path, true, "a/b-c_D.9/e.proto|.proto|..a/.proto"),
    (
        Rule::Path,
        false,
        "|a.prot|a/./b.proto|../b.proto|a//b.proto|/b.proto|a b.proto|\u{e4}.proto",
    ),
    (Rule::Listed, true, KEYWORDS),
    (Rule::Listed, true, STATEMENTS),
    (Rule::Listed, true, SCALARS),
    (Rule::Listed, false, UNLISTED),
    (Rule::ValueName, true, KEYWORDS),
    (Rule::ValueName, false, STATEMENTS),
    (Rule::ValueName, true, SCALARS),
    (Rule::ValueName, true, UNLISTED),
];

fn holds(rule: &Rule, name: &str) -> bool {
    match rule {
        Rule::LowerSnake => is_lower_snake(name),
        Rule::UpperSnake => is_upper_snake(name),
        Rule::Pascal => is_pascal(name),
        Rule::Version => is_version(name),
        Rule::Word => is_word(name),
        Rule::Path => is_workspace_path(name),
        Rule::Listed => is_listed(name),
        Rule::ValueName => may_name_value(name),
    }
}

#[test]
fn rules_of_names(rt: HostRuntime) {
    for (rule, wanted, names) in NAMES {
        for name in names.split('|') {
            expect(&rt, holds(rule, name) == *wanted, name);
        }
    }
}

/// What a name is turned into.
enum Style {
    Upper,
    Camel,
    /// Camel with its first letter in upper case.
    Pascal,
    Entry,
}

/// Names, each turned into another.
const TURNED: &[(Style, &str, &str)] = &[
    (Style::Upper, "", ""),
    (Style::Upper, "A", "A"),
    (Style::Upper, "foo", "FOO"),
    (Style::Upper, "FooBar", "FOO_BAR"),
    (Style::Upper, "HTTPCode", "HTTP_CODE"),
    (Style::Upper, "fooBar", "FOO_BAR"),
    (Style::Upper, "Foo2Bar", "FOO2_BAR"),
    (Style::Upper, "Foo_Bar", "FOO_BAR"),
    (Style::Upper, "ABC", "ABC"),
    (Style::Upper, "ABc", "A_BC"),
    (Style::Upper, "aB1C", "A_B1_C"),
    (Style::Upper, "_Foo", "_FOO"),
    (Style::Upper, "AB_c", "AB_C"),
    (Style::Upper, "\u{e4}B", "\u{e4}B"),
    (Style::Upper, "\u{e4}Bc", "\u{e4}_BC"),
    (Style::Camel, "foo_bar", "fooBar"),
    (Style::Camel, "_foo__Bar_", "FooBar"),
    (Style::Camel, "a_\u{e4}", "a\u{e4}"),
    (Style::Pascal, "foo_bar", "FooBar"),
    (Style::Pascal, "\u{e4}_1a", "\u{e4}1a"),
    (Style::Entry, "foo_bar", "FooBarEntry"),
    (Style::Entry, "FooEntry", "FooEntryEntry"),
    (Style::Entry, "_1", "1Entry"),
];

fn is_turned<R: AllocGlobal + Abort>(rt: &R, style: &Style, name: &str, wanted: &str) -> bool {
    let turned = match style {
        Style::Upper => upper(rt.alloc(), name),
        Style::Camel => camel_from(rt.alloc(), false, name),
        Style::Pascal => camel_from(rt.alloc(), true, name),
        Style::Entry => entry_name(rt.alloc(), name),
    };
    turned.expect(rt, "memory").as_str() == wanted
}

/// Names, each in camel case, and in camel case with its first letter in upper case.
const CAMELS: &[(&str, &str, &str)] = &[
    ("", "", ""),
    ("_", "", ""),
    ("ab", "ab", "Ab"),
    ("_a", "A", "A"),
    ("a_", "a", "A"),
    ("a__b", "aB", "AB"),
    ("a_b_c", "aBC", "ABC"),
    ("\u{e4}b_c", "\u{e4}bC", "\u{e4}bC"),
    ("a_\u{e4}b", "a\u{e4}b", "A\u{e4}b"),
    (
        "a_\u{20ac}_\u{1f600}b",
        "a\u{20ac}\u{1f600}b",
        "A\u{20ac}\u{1f600}b",
    ),
];

#[test]
fn pieces_of_camel_case(rt: HostRuntime) {
    for (name, camel, pascal) in CAMELS {
        expect(&rt, is_turned(&rt, &Style::Camel, name, camel), name);
        expect(&rt, is_turned(&rt, &Style::Pascal, name, pascal), name);
    }
}

/// Two names, and whether their camel case is one.
const DIGESTS: &[(&str, &str, bool)] = &[
    ("foo_bar", "fooBar", true),
    ("foo__bar", "foo_bar_", true),
    ("_foo", "Foo", true),
    ("_", "", true),
    ("a_\u{e4}", "a\u{e4}", true),
    ("foobar", "foo_bar", false),
    ("foo", "_foo", false),
    ("ab", "ba", false),
    ("a", "", false),
];

#[test]
fn numbers_of_camel_case(rt: HostRuntime) {
    for (a, b, is_one) in DIGESTS {
        expect(&rt, (camel_digest(a) == camel_digest(b)) == *is_one, a);
    }
    // 97 * 31 + 66
    expect(&rt, camel_digest("a_b") == 3_073, "by value");
}

#[test]
fn names_in_other_styles(rt: HostRuntime) {
    for (style, name, wanted) in TURNED {
        expect(&rt, is_turned(&rt, style, name, wanted), name);
    }
}
