//! Texts with and without a tree, and where those without go wrong.

use crate::expect::{expect, repeated_text, source_of};
use proto_text::lex;
use proto_tree::{
    FieldType, File, Item, Member, ParseFault, ServiceItem, Steps, parse, parse_counted,
};
use std::process::Abort;

fn read<R: AllocGlobal + Abort>(rt: &R, text: &str) -> Result<File, ParseFault> {
    let source = source_of(rt, text);
    let tokens = lex(rt.alloc(), &source).expect(rt, "tokens");
    parse(rt.alloc(), &source, &tokens)
}

/// A statement right in a file: its kind, and its first and its last token.
type Shape = (&'static str, u32, u32);

/// What is said of a text.
enum Said {
    /// A tree of these statements.
    Tree(&'static [Shape]),
    /// A tree of so many messages of four tokens.
    Messages(usize),
    /// A tree whose first field has token 3 as its label, and a type behind a dot at token 5.
    Label,
    /// A tree whose first method takes token 6 as `stream`, 8 as a type behind a dot, and 12 as the type of its answers.
    Stream,
    /// The number, the name and the offset of its fault.
    Fault(u32, &'static str, u32),
}

fn shape_of(item: &Item) -> Shape {
    match item {
        Item::Syntax(syntax) => ("syntax", syntax.keyword, syntax.semicolon),
        Item::Import(import) => ("import", import.keyword, import.semicolon),
        Item::Package(package) => ("package", package.keyword, package.semicolon),
        Item::Option(option) => ("option", option.keyword, option.semicolon),
        Item::Message(message) => ("message", message.keyword, message.close),
        Item::Enum(one) => ("enum", one.keyword, one.close),
        Item::Service(service) => ("service", service.keyword, service.close),
        Item::Extend(extend) => ("extend", extend.keyword, extend.close),
        Item::Empty(token) => ("empty", *token, *token),
    }
}

fn has_shape(item: &Item, shape: &Shape) -> bool {
    let (kind, first, last) = shape_of(item);
    kind == shape.0 && first == shape.1 && last == shape.2
}

fn has_shapes(file: &File, shapes: &[Shape]) -> bool {
    for (item, shape) in file.items.iter().zip(shapes) {
        if !has_shape(item, shape) {
            return false;
        }
    }
    file.items.len() == shapes.len()
}

fn has_messages(file: &File, count: usize) -> bool {
    for (place, item) in file.items.iter().enumerate() {
        let (kind, first, last) = shape_of(item);
        if kind != "message" || first as usize / 4 != place || last as usize / 4 != place {
            return false;
        }
    }
    file.items.len() == count
}

// Whether this is said of a text with this tree.
fn is_said(file: &File, said: &Said) -> bool {
    match (said, file.items.first()) {
        (Said::Tree(shapes), _) => has_shapes(file, *shapes),
        (Said::Messages(count), _) => has_messages(file, *count),
        (Said::Label, Some(Item::Message(message))) => {
            let Some(Member::Field(field)) = message.members.first() else {
                return false;
            };
            let FieldType::Reference(reference) = &field.kind else {
                return false;
            };
            field.label == Some(3) && reference.dot == Some(4) && reference.words.first == 5
        }
        (Said::Stream, Some(Item::Service(service))) => {
            let Some(ServiceItem::Method(method)) = service.members.first() else {
                return false;
            };
            let (input, output) = (&method.signature.input, &method.signature.output);
            input.stream == Some(6)
                && input.reference.dot == Some(7)
                && input.reference.words.first == 8
                && output.stream.is_none()
                && output.reference.dot.is_none()
                && output.reference.words.first == 12
        }
        _ => false,
    }
}

// Whether what is said is answered.
fn is_answered(answer: Result<File, ParseFault>, said: &Said) -> bool {
    match answer {
        Ok(file) => {
            let is_so = is_said(&file, said);
            file.release();
            is_so
        }
        Err(fault) => match said {
            Said::Fault(number, name, offset) => {
                fault.number() == *number && fault.name() == *name && fault.offset() == *offset
            }
            _ => false,
        },
    }
}

// Whether this is said of the text.
fn is_answer<R: AllocGlobal + Abort>(rt: &R, text: &str, said: &Said) -> bool {
    is_answered(read(rt, text), said)
}

// The same of a parse that is counted, and the count is one more.
fn is_counted<R: AllocGlobal + Abort>(rt: &R, steps: &mut Steps, text: &str, said: &Said) -> bool {
    let before = steps.count();
    if before >= 1000 {
        return false;
    }
    let source = source_of(rt, text);
    let tokens = lex(rt.alloc(), &source).expect(rt, "tokens");
    let answer = parse_counted(rt.alloc(), &source, &tokens, steps);
    is_answered(answer, said) && steps.count() == before + 1
}

/// Texts, each with what is said of it. Tokens are counted in the texts.
const TEXTS: &[(&str, Said)] = &[
    ("message M { reserved 1, ; }", Said::Fault(8, "Syntax", 12)),
    (
        "message M { message message = 1; }",
        Said::Fault(8, "Syntax", 12),
    ),
    ("message M {", Said::Fault(8, "Syntax", 11)),
    ("enum E { option = 0; }", Said::Fault(8, "Syntax", 9)),
    (
        "syntax = \"proto4\"; message M {}",
        Said::Fault(8, "Syntax", 0),
    ),
    ("package a; package b;", Said::Fault(8, "Syntax", 11)),
    ("; syntax = \"proto3\";", Said::Fault(8, "Syntax", 2)),
    ("message M {} }", Said::Fault(8, "Syntax", 13)),
    (
        "message M { oneof o { optional string a = 1; } }",
        Said::Fault(8, "Syntax", 22),
    ),
    (
        "service S { rpc R (stream) returns (Foo); }",
        Said::Fault(8, "Syntax", 12),
    ),
    (
        "message M { optional int32 a = 1.5; }",
        Said::Fault(8, "Syntax", 12),
    ),
    ("message M { reserved -1; }", Said::Fault(8, "Syntax", 12)),
    ("import \"a.proto\" \"b\";", Said::Fault(8, "Syntax", 0)),
    ("", Said::Tree(&[])),
    (
        "message M { optional string message = 1; }",
        Said::Tree(&[("message", 0, 9)]),
    ),
    (
        "syntax = '\\160roto2'; package a.message; ; import public 'x.proto'; option java_package = \"a\" 'b';",
        Said::Tree(&[
            ("syntax", 0, 3),
            ("package", 4, 8),
            ("empty", 9, 9),
            ("import", 10, 13),
            ("option", 14, 19),
        ]),
    ),
    (
        "message M { map<string, .a.B> m = 1 [deprecated = true, json_name = \"x\"]; oneof o { M m = 2; } extensions 4, 100 to max; reserved \"a\", \"b\"; enum E { reserved -5 to -1, 7 to max; V = -1 [deprecated = true]; reserved = 1; } ; }",
        Said::Fault(8, "Syntax", 206),
    ),
    (
        "message M { map<string, .a.B> m = 1 [deprecated = true, json_name = \"x\"]; oneof o { M m = 2; } extensions 4, 100 to max; reserved \"a\", \"b\"; enum E { reserved -5 to -1, 7 to max; V = -1 [deprecated = true]; message = 1; } ; }",
        Said::Tree(&[("message", 0, 76)]),
    ),
    (
        "service S { rpc A (B) returns (stream stream.C) { option deprecated = -1; ; } option x = y; ; }",
        Said::Fault(8, "Syntax", 12),
    ),
    (
        "service S { rpc A (B) returns (stream .stream.C) { option deprecated = -1; ; } option x = y; ; }",
        Said::Tree(&[("service", 0, 31)]),
    ),
    // A label, and `stream`, before a dot.
    ("message M { optional.Foo x = 1; }", Said::Label),
    (
        "service S { rpc R (stream.Foo) returns (Foo); }",
        Said::Stream,
    ),
];

/// Texts with `extend` blocks, each with what is said of it.
const EXTENDS: &[(&str, Said)] = &[
    (
        "extend M { optional int32 a = 1; }",
        Said::Tree(&[("extend", 0, 9)]),
    ),
    (
        "message M { extend .a.M { int32 a = 1; M b = 2 [deprecated = true]; } } extend.N { }",
        Said::Tree(&[("message", 0, 25), ("extend", 26, 30)]),
    ),
    (
        "message M { extensions 100; } extend M { ; }",
        Said::Fault(8, "Syntax", 41),
    ),
    (
        "extend M { map<string, string> m = 1; }",
        Said::Fault(8, "Syntax", 11),
    ),
    (
        "extend M { option deprecated = true; }",
        Said::Fault(8, "Syntax", 11),
    ),
    ("extend M { extend N { } }", Said::Fault(8, "Syntax", 11)),
    (
        "extend M { optional group G = 1 { } }",
        Said::Fault(8, "Syntax", 11),
    ),
    (
        "extend M { oneof o { int32 a = 1; } }",
        Said::Fault(8, "Syntax", 11),
    ),
    ("extend M { reserved 1; }", Said::Fault(8, "Syntax", 11)),
    (
        "extend M { };",
        Said::Tree(&[("extend", 0, 3), ("empty", 4, 4)]),
    ),
    (
        "extend M optional int32 a = 1;",
        Said::Fault(8, "Syntax", 0),
    ),
    ("service S { extend M { } }", Said::Fault(8, "Syntax", 12)),
    ("extend message { }", Said::Fault(8, "Syntax", 0)),
    ("message M { extend N = 1; }", Said::Fault(8, "Syntax", 12)),
];

/// Braces that are too many: a piece of a text, how often it stands there, the same of a piece behind it, and the fault.
const DEEP: &[(&str, usize, &str, usize, Said)] = &[
    ("message M{", 33, "}", 33, Said::Fault(9, "TooDeep", 329)),
    ("{", 33, "", 0, Said::Fault(9, "TooDeep", 32)),
    (
        "message M{",
        32,
        "extend M{",
        1,
        Said::Fault(9, "TooDeep", 328),
    ),
    // A `}` with no brace open closes none.
    ("}", 1, "{", 33, Said::Fault(9, "TooDeep", 33)),
];

#[test]
fn texts_with_and_without_a_tree(rt: HostRuntime) {
    for (text, said) in TEXTS {
        expect(&rt, is_answer(&rt, text, said), text);
    }
    for (text, said) in EXTENDS {
        expect(&rt, is_answer(&rt, text, said), text);
    }
    for (first, count, second, more, said) in DEEP {
        let text = repeated_text(&rt, first, *count, second, *more);
        expect(&rt, is_answer(&rt, text.as_str(), said), text.as_str());
    }
}

#[test]
fn parses_are_counted(rt: HostRuntime) {
    let mut steps = Steps::new();
    assert!(rt; steps.count() == 0);
    for (text, said) in TEXTS {
        expect(&rt, is_counted(&rt, &mut steps, text, said), text);
    }
    let text = repeated_text(&rt, "message M { }", 4096, "", 0);
    let is_large = is_counted(&rt, &mut steps, text.as_str(), &Said::Messages(4096));
    expect(&rt, is_large, "a large file");
}
