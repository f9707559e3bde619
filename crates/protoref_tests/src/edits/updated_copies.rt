//! Copies of the files, the link and the descriptors of a workspace, which are updated where a file gets another text; the
//! workspace stays. Tokens are counted in the texts.

ghost use Rattle.std.specs.Prelude.{◌≡◌, [], ◌∷◌, length};
ghost use Rattle.proto_desc.specs.Edited.{AreCleanlyDescribed};
ghost use Rattle.proto_names.specs.LinkOfFiles.{IsLinkOf};
ghost use Rattle.proto_names_update.specs.Edited.{AreSameBut};
ghost use Rattle.proto_names_update.specs.Relinked.{IsCleanLink};

use super::calls::texts;
use super::link_texts::link_text;
use proto_base::SchemaFault;
use proto_edit::{Descriptors, Files, Link, Workspace, to_json};
use proto_text::{Source, lex_as};
use proto_tree::parse_as;
use protoref_test_cases::open;
use std::process::Abort;

const FILES: &str =
    "a.proto import \"b.proto\"; message A { optional M m = 1; }|b.proto message M {} enum E { V = 0; }";

const LINKED: &str = "a.proto: A 0:4 A.m 0:8 7=M;b.proto: M 1:1,0:7 E 1:5 V 1:7;";

const DESCRIBED: &str =
    "{\"file\":[{\"dependency\":[\"b.proto\"],\"messageType\":[{\"field\":[{\"jsonName\":\"m\",\"label\":\"LABEL_OPTIONAL\",\"name\":\"m\",\"number\":1,\"type\":\"TYPE_MESSAGE\",\"typeName\":\".M\"}],\"name\":\"A\"}],\"name\":\"a.proto\"},{\"enumType\":[{\"name\":\"E\",\"value\":[{\"name\":\"V\",\"number\":0}]}],\"messageType\":[{\"name\":\"M\"}],\"name\":\"b.proto\"}]}";

// `M` is an enum here, and `E` has gone.
const OTHER: &str = "enum M { W = 0; }";

const OTHER_LINKED: &str = "a.proto: A 0:4 A.m 0:8 7=M;b.proto: M 1:1,0:7 W 1:3;";

const OTHER_DESCRIBED: &str =
    "{\"file\":[{\"dependency\":[\"b.proto\"],\"messageType\":[{\"field\":[{\"jsonName\":\"m\",\"label\":\"LABEL_OPTIONAL\",\"name\":\"m\",\"number\":1,\"type\":\"TYPE_ENUM\",\"typeName\":\".M\"}],\"name\":\"A\"}],\"name\":\"a.proto\"},{\"enumType\":[{\"name\":\"M\",\"value\":[{\"name\":\"W\",\"number\":0}]}],\"name\":\"b.proto\"}]}";

// Gives the second file the other text.
fn edit<R: AllocGlobal + Abort>(rt: &R, files: &mut Files)
    requires { length files.old ≡ 2 }
    ensures len { length files.new ≡ 2 }
    ensures same { AreSameBut (1 ∷ []) files.old files.new }
{
    let bytes = Vec::from_slice(rt.alloc(), OTHER.as_bytes()).expect(rt, "memory");
    let source = Source::new(bytes).expect(rt, "a source");
    let profile = files.profile(1);
    let tokens = lex_as(rt.alloc(), &source, profile).expect(rt, "tokens");
    let tree = parse_as(rt.alloc(), &source, &tokens, profile).expect(rt, "a tree");
    let (_source, _tokens, old) = files.set(1, source, tokens, tree);
    old.release();
}

// What link and descriptors of the files say.
fn expect_said<R: AllocGlobal + Abort>(
    rt: &R,
    files: &Files,
    link: &Link,
    descriptors: &Descriptors,
    (linked, described): (&str, &str),
) {
    let text = link_text(rt.alloc(), files, link).expect(rt, "memory");
    let text = text.as_str();
    assert!(rt; text == linked, "{text}, not {linked}");
    let json = to_json(rt.alloc(), descriptors).expect(rt, "memory");
    let json = json.as_str();
    assert!(rt; json == described, "{json}, not {described}");
}

// The copies say what the workspace does, until a file of theirs has another text. This alone owns
// the copied link.
fn expect_updated<R: AllocGlobal + Abort>(
    rt: &R,
    workspace: &Workspace,
    files: &mut Files,
) -> Result<(), SchemaFault>
    requires { files.old ≡ workspace.now }
{
    let mut link = workspace.link().copy(rt.alloc())?;
    let answer = expect_followed(rt, workspace, files, &mut link);
    link.release();
    answer
}

// This alone owns the copied descriptors.
fn expect_followed<R: AllocGlobal + Abort>(
    rt: &R,
    workspace: &Workspace,
    files: &mut Files,
    link: &mut Link,
) -> Result<(), SchemaFault>
    requires files { files.old ≡ workspace.now }
    requires link { IsLinkOf files.old link.old }
{
    // The contract says that these compile.
    let given = workspace.files();
    if given.len() != 2 || files.len() != 2 {
        assert!(rt; false, "another number of files");
        return Ok(());
    }
    let mut descriptors = workspace.descriptors().copy(rt.alloc())?;
    expect_said(rt, files, link, &descriptors, (LINKED, DESCRIBED));
    follow_edit(rt, files, link, &mut descriptors)
}

// Edits the second file, and has the link and the descriptors follow.
fn follow_edit<R: AllocGlobal + Abort>(
    rt: &R,
    files: &mut Files,
    link: &mut Link,
    descriptors: &mut Descriptors,
) -> Result<(), SchemaFault>
    requires len { length files.old ≡ 2 }
    requires link { IsCleanLink IsLinkOf files.old link.old }
    requires descriptors { AreCleanlyDescribed files.old descriptors.old }
{
    edit(rt, files);
    link.replace(rt.alloc(), files, &[1])?;
    let answer = descriptors.replace(rt.alloc(), files, link, &[1]);
    let wanted = (OTHER_LINKED, OTHER_DESCRIBED);
    expect_said(rt, files, link, descriptors, wanted);
    answer
}

// This alone owns the workspace and the copied files.
#[test]
fn follow_another_text(rt: HostRuntime) {
    let files = texts(rt.alloc(), FILES).expect(&rt, "memory");
    let workspace = open(rt.alloc(), files.as_slice()).expect(&rt, "a workspace");
    let mut copy = workspace.files().copy(rt.alloc()).expect(&rt, "memory");
    let answer = expect_updated(&rt, &workspace, &mut copy);
    copy.release();
    let (files, link, descriptors) = (workspace.files(), workspace.link(), workspace.descriptors());
    expect_said(&rt, files, link, descriptors, (LINKED, DESCRIBED));
    workspace.release();
    answer.expect(&rt, "updated copies");
}
