//! A link of two files of which one gets another text.

ghost use Rattle.std.specs.Prelude.{◌≡◌, ◌≢◌, ◌<◌, ℕ, length};
ghost use Rattle.std.specs.List.{All};
ghost use Rattle.proto_files.specs.GivenFiles.{file_at, paths_of};
ghost use Rattle.proto_tree.specs.File.{tree_of_file};
ghost use Rattle.proto_tree.specs.Reads.{ReadsIn};

use super::calls::{Ask, Told, expect_fault, expect_rows, expect_text, given_files, read};
use proto_base::SchemaFault;
use proto_files::Files;
use proto_names::Link;
use proto_text::{Source, Token, lex_as};
use proto_tree::{File, parse_as};
use std::process::Abort;

// Gives the second file a text; answers what stood there.
fn set_second<R: AllocGlobal + Abort>(
    rt: &R,
    files: &mut Files,
    text: &str,
) -> (Source, Vec<Token>, File)
    requires { length files.old ≡ 2 }
    ensures len { length files.new ≡ 2 }
    ensures paths { paths_of files.old ≡ paths_of files.new }
    ensures others { (file : ℕ) → file ≢ 1 → file_at files.old file ≡ file_at files.new file }
    ensures profile { (file_at files.new 1).profile ≡ (file_at files.old 1).profile }
    ensures read { ReadsIn (file_at files.old 1).profile result.0 result.1.items (tree_of_file result.2) }
{
    let bytes = Vec::from_slice(rt.alloc(), text.as_bytes()).expect(rt, "memory");
    let source = Source::new(bytes).expect(rt, "a source");
    let profile = files.profile(1);
    let tokens = lex_as(rt.alloc(), &source, profile).expect(rt, "tokens");
    let tree = parse_as(rt.alloc(), &source, &tokens, profile).expect(rt, "a tree");
    files.set(1, source, tokens, tree)
}

// The link of the files tells the rows, also where those at these places are taken for edited ones.
fn expect_at<R: AllocGlobal + Abort>(
    rt: &R,
    files: &Files,
    places: &[u32],
    rows: &[Told],
) -> Result<(), SchemaFault>
    requires { All (λ place. place < length files.now) places.now }
{
    let mut link = Link::new(rt.alloc(), files)?;
    link.replace(rt.alloc(), files, places)?;
    expect_rows(rt, &link, files, rows);
    link.release();
    Ok(())
}

// The link tells the rows before, and once the second file has another text those after, as does
// the link that is made of the files anew.
fn expect_replaced<R: AllocGlobal + Abort>(
    rt: &R,
    files: &mut Files,
    text: &str,
    before: &[Told],
    after: &[Told],
) -> Result<(), SchemaFault> {
    if files.len() != 2 {
        expect_text(rt, "files", "another number", "two");
        return Ok(());
    }
    let mut link = Link::new(rt.alloc(), files)?;
    expect_rows(rt, &link, files, before);
    let (_source, _tokens, tree) = set_second(rt, files, text);
    tree.release();
    link.replace(rt.alloc(), files, &[1])?;
    expect_rows(rt, &link, files, after);
    link.release();
    let anew = Link::new(rt.alloc(), files)?;
    expect_rows(rt, &anew, files, after);
    anew.release();
    // A place twice, places out of order, and all of them.
    expect_at(rt, files, &[1, 1], after)?;
    expect_at(rt, files, &[1, 0, 1], after)?;
    expect_at(rt, files, &[0, 1], after)
}

// What is answered where the second file has another text. The link then still tells the rows of
// the files as they were.
fn refusal_of<R: AllocGlobal + Abort>(
    rt: &R,
    files: &mut Files,
    text: &str,
    rows: &[Told],
) -> Result<(), SchemaFault> {
    if files.len() != 2 {
        expect_text(rt, "files", "another number", "two");
        return Ok(());
    }
    let mut link = Link::new(rt.alloc(), files)?;
    let (source, tokens, tree) = set_second(rt, files, text);
    let answer = link.replace(rt.alloc(), files, &[1]);
    let (_source, _tokens, tree) = files.set(1, source, tokens, tree);
    tree.release();
    expect_rows(rt, &link, files, rows);
    link.release();
    answer
}

const TEXTS: &str =
    r#"a.proto import "b.proto"; message A { optional M m = 1; }|b.proto message N {} message M { optional N n = 1; }"#;

const TOLD: &[Told] = &[
    (Ask::DeclaredIn(0), "", "A,A.m"),
    (Ask::DeclaredIn(1), "", "N,M,M.n"),
    (Ask::Name, "N", "N message b.proto:8"),
    (Ask::Name, "M", "M message b.proto:21"),
    (Ask::Name, "Other", "unknown"),
    (Ask::References, "N", "b.proto:34"),
    (Ask::References, "M", "a.proto:39"),
];

// `N` has another name, and a field.
const RENAMED: &str = "message Other { optional int32 k = 1; } message M { optional Other n = 1; }";

const TOLD_RENAMED: &[Told] = &[
    (Ask::DeclaredIn(0), "", "A,A.m"),
    (Ask::DeclaredIn(1), "", "Other,Other.k,M,M.n"),
    (Ask::Name, "N", "unknown"),
    (Ask::Name, "Other", "Other message b.proto:8"),
    (Ask::Name, "Other.k", "Other.k field b.proto:31"),
    (Ask::Name, "M", "M message b.proto:48"),
    (Ask::Name, "M.n", "M.n field b.proto:67"),
    (Ask::References, "Other", "b.proto:61"),
    (Ask::References, "M", "a.proto:39"),
    (Ask::MeantIn(0), "", "a.proto:39 M"),
    (Ask::MeantIn(1), "", "b.proto:61 Other"),
];

#[test]
fn a_message_has_another_name(rt: HostRuntime) {
    let mut files = read(&rt, given_files(&rt, TEXTS)).expect(&rt, "files");
    let linked = expect_replaced(&rt, &mut files, RENAMED, TOLD, TOLD_RENAMED);
    files.release();
    linked.expect(&rt, "a link");
}

// Texts of the second file, and the faults.
const FAULTS: &[(&str, &str)] = &[
    // The other file refers to what went.
    (
        "message N {} message Other { optional N n = 1; }",
        "a.proto:39: 14 Unresolved",
    ),
    // It refers to nothing itself.
    (
        "message N {} message M { optional Other n = 1; }",
        "b.proto:34: 14 Unresolved",
    ),
];

#[test]
fn a_refused_link_is_as_it_was(rt: HostRuntime) {
    for (text, said) in FAULTS {
        let mut files = read(&rt, given_files(&rt, TEXTS)).expect(&rt, "files");
        let answer = refusal_of(&rt, &mut files, text, TOLD);
        files.release();
        expect_fault(&rt, answer, said);
    }
}
