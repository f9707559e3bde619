//! The tokens of references that stand for the target of a rename.

ghost use Rattle.std.specs.Prelude.{◌≡◌, ◌==◌, ◌<◌, ◌++◌, length, IfOk, OnOk, option_to_list};
ghost use Rattle.std.specs.List.{count_by, list_any};
ghost use Rattle.proto_base.specs.Ascii as ascii;
ghost use Rattle.proto_tree.specs.References.{dotted};
ghost use Rattle.proto_names.specs.Linking.{name_text};
ghost use Rattle.proto_edit_rename.specs.StandingTokens.{IsStandingIn, goes_on, may_be_referred, words_after, words_in, words_behind, from_end, counted, standing_tokens};

use proto_base::NoMemory;
use proto_edit_captures::RenameTarget;
use proto_names::{Link, Meant};
use proto_names_outline::file_listing::list_file;
use proto_names_outline::listing::Use;
use proto_names_rules::Kind;
use proto_resolved::CleanLinked;
use proto_tree::Dotted;
use std::alloc::Global;

/// The tokens of a file that stand for the target of the rename, in the words of its references.
/// Each is found by counting: where a reference means a name that goes on from the target's, it has
/// as many words behind the one that stands for the target as that name has behind the target's.
pub(crate) fn standing_in(
    alloc: Global,
    linked: &CleanLinked<'_>,
    target: RenameTarget,
    file: u32,
) -> Result<Vec<u32>, NoMemory>
    requires { file < length linked.now.files }
    ensures { IfOk result (λ found. IsStandingIn linked.now.files target.entry file found.items) }
{
    let files = linked.files();
    let link = linked.link();
    // Fields, values and methods are neither meant nor hold what is meant.
    if !may_be_referred(target.kind) {
        return Ok(Vec::new(alloc));
    }
    // Nor is a file listed whose references mean nothing of it: most are such.
    let meant = link.meant_in(file);
    if !one_goes_on(link, target.name, meant) {
        return Ok(Vec::new(alloc));
    }
    let listing = list_file(alloc, files.tree(file))?;
    standing_words(alloc, link, target.name, &listing.used, meant)
}

/// Whether a reference may mean a symbol of this kind, or what stands in it.
fn may_be_referred(kind: Kind) -> bool
    ensures { result ≡ may_be_referred kind }
{
    kind.is_outer() || kind.is_extension()
}

/// Whether one of these means the name, or one that goes on from it.
fn one_goes_on(link: &Link, name: &str, meant: &[Meant]) -> bool
    ensures { result ≡ list_any (λ m. goes_on link.now name.now m.row) meant.now }
{
    meant.iter().any(|m| words_after(link, name, *m).is_some())
}

/// The words of references that stand for the name; the references come with what each means.
fn standing_words(
    alloc: Global,
    link: &Link,
    name: &str,
    uses: &[Use],
    meant: &[Meant],
) -> Result<Vec<u32>, NoMemory>
    requires { length meant.now ≡ length uses.now }
    ensures { IfOk result (λ found. found.items
        ≡ standing_tokens link.now name.now uses.now meant.now) }
{
    let mut found = Vec::new(alloc);
    for (place, used) in uses.iter().enumerate() {
        let token = standing_word(link, name, &used.reference.words, meant[place]);
        push_some(&mut found, token)?;
    }
    Ok(found)
}

fn push_some(found: &mut Vec<u32>, token: Option<u32>) -> Result<(), NoMemory>
    ensures { OnOk result (found.new.items ≡ found.old.items ++ option_to_list token) }
{
    if let Some(token) = token {
        found.push(token)?;
    }
    Ok(())
}

/// The word of a reference that stands for the name, if one does.
fn standing_word(link: &Link, name: &str, words: &Dotted, meant: Meant) -> Option<u32>
    ensures { result ≡ counted name.now (dotted words.now) (name_text link.now meant.row) }
{
    let behind = words_after(link, name, meant)?;
    from_end(words, behind)
}

/// How many words what is meant has behind the name; none where it is not the name and does not go
/// on from it.
fn words_after(link: &Link, name: &str, meant: Meant) -> Option<usize>
    ensures { result ≡ words_after link.now name.now meant.row }
{
    let text = link.name_of(meant.symbol())?;
    words_behind(name.as_bytes(), text.as_bytes())
}

/// How many words a name has behind a front; none where it does not go on from it and is not it.
pub(crate) fn words_behind(front: &[u8], name: &[u8]) -> Option<usize>
    ensures { result ≡ words_behind front.now name.now }
{
    match name.strip_prefix(front) {
        Some(rest) => words_in(rest),
        None => None,
    }
}

/// How many words stand in what is behind a name, with a point before each.
fn words_in(rest: &[u8]) -> Option<usize>
    ensures { result ≡ words_in rest.now }
{
    match rest {
        [] => Some(0),
        [first, ..] => {
            if *first == b'.' {
                Some(points(rest))
            } else {
                None
            }
        }
    }
}

fn points(text: &[u8]) -> usize
    ensures { result ≡ count_by (λ b. b == ascii.dot) text.now }
{
    text.iter().filter(|byte| **byte == b'.').count()
}

/// The word with so many behind it.
fn from_end(words: &Dotted, behind: usize) -> Option<u32>
    ensures { result ≡ from_end behind (dotted words.now) }
{
    let rest = words.rest.as_slice();
    if behind < rest.len() {
        return Some(rest[rest.len() - 1 - behind].item);
    }
    if behind == rest.len() {
        Some(words.first)
    } else {
        None
    }
}
