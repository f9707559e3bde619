//! Files as checks and descriptors read them.

ghost use Rattle.std.specs.Prelude.{◌≡◌, ◌<◌, [], length, get_or, map, option_map, IfOk};
ghost use Rattle.std.specs.List.{AllPairs};
ghost use Rattle.proto_ast.specs.Views.{enum_of, meant_of};
ghost use Rattle.proto_resolved.specs.Scenes.{AreScenes, IsSceneOf};
ghost use Rattle.proto_resolved.specs.Enums.{IsEnumTable, enum_in};
ghost use Rattle.proto_resolved.specs.Meanings.{HasEnumsMeant, enum_of_name, meant_in_table};

use crate::enum_table::{EnumTable, enum_at};
use crate::linked::Linked;
use proto_ast::{EnumAt, MeantAt, Scene, is_proto3};
use proto_base::NoMemory;
use proto_files::Words;
use proto_names::{Link, Meant, SymbolId};
use std::alloc::Global;

/// The enum of a name of the link; none for another name.
fn enum_named<'a>(link: &Link, table: &'a EnumTable<'a>, name: SymbolId) -> Option<EnumAt<'a>>
    ensures { option_map enum_of result ≡ enum_of_name link.now (enum_in table.now) name.row }
{
    let file = link.file_of(name)?;
    let token = link.token_of(name)?;
    enum_at(table, file, token)
}

/// What a reference means: its token, the full name, and the enum that has it.
fn meaning_of<'a>(link: &'a Link, table: &'a EnumTable<'a>, meant: Meant) -> MeantAt<'a>
    ensures token { result.token ≡ meant.token }
    ensures meant { meant_of result ≡ meant_in_table link.now (enum_in table.now) meant }
{
    let name = meant.symbol();
    MeantAt {
        token: meant.token(),
        name: link.name_of(name).unwrap_or(""),
        enumeration: enum_named(link, table, name),
    }
}

/// What the references of a file mean, in the order of their first tokens.
#[tactic(auto, using(crate::proofs::MeantEnums::means_rise))]
fn means<'a>(
    alloc: Global,
    link: &'a Link,
    table: &'a EnumTable<'a>,
    file: u32,
) -> Result<Vec<MeantAt<'a>>, NoMemory>
    ensures rising { IfOk result (λ means. AllPairs (λ m n. m.token < n.token) means.items) }
    ensures means { IfOk result (λ means. map meant_of means.items
        ≡ map (meant_in_table link.now (enum_in table.now)) (get_or link.now.meant file [])) }
{
    let mut means = Vec::new(alloc);
    for reference in link.meant_in(file) {
        means.push(meaning_of(link, table, *reference))?;
    }
    Ok(means)
}

/// The file with this number, from 0, as checks and descriptors read it. The table has the enums
/// that references of this file mean. Fails only when out of memory.
pub fn scene<'a>(
    alloc: Global,
    linked: &Linked<'a>,
    table: &'a EnumTable<'a>,
    file: u32,
) -> Result<Scene<'a>, NoMemory>
    requires file { file < length linked.now.files }
    requires table { HasEnumsMeant linked.now.files linked.now.link file table.now }
    ensures { IfOk result (IsSceneOf linked.now.files file) }
{
    let files = linked.files();
    let words = Words::new(files, file);
    let is_proto3 = is_proto3(&words, files.tree(file));
    let means = means(alloc, linked.link(), table, file)?;
    Ok(Scene::new(words, files.profile(file), is_proto3, means))
}

/// Each file as checks and descriptors read it, in the order of their paths. The table is of their
/// enums. Fails only when out of memory.
pub fn scenes<'a>(
    alloc: Global,
    linked: &Linked<'a>,
    table: &'a EnumTable<'a>,
) -> Result<Vec<Scene<'a>>, NoMemory>
    requires { IsEnumTable linked.now.files table.now }
    ensures { IfOk result (λ scenes. AreScenes linked.now.files scenes.items) }
{
    let mut scenes = Vec::new(alloc);
    for file in 0..linked.file_count() as u32 {
        scenes.push(scene(alloc, linked, table, file)?)?;
    }
    Ok(scenes)
}
