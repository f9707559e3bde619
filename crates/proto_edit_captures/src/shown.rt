//! What fits and is visible below a scope, under the new names of a rename.

ghost use Rattle.std.specs.Prelude.{◌≡◌, IfOk};
ghost use Rattle.proto_edit_captures.specs.NewTexts.{texts_of};
ghost use Rattle.proto_edit_captures.specs.ShownTexts.{entry_shown_if, first_fits, kind_named, shown_beside, shown_below, shows_fitting};

use crate::names::NewNames;
use crate::scope::Fit;
use proto_base::NoMemory;
use proto_names::Link;
use proto_names_rules::{Kind, below};
use std::alloc::Global;

/// The names that a file sees once a rename has changed those of the link.
#[derive(Clone, Copy)]
pub(crate) struct NamesAfter<'a> {
    pub(crate) link: &'a Link,
    pub(crate) names: &'a NewNames<'a>,
    pub(crate) file: u32,
}

/// The kind of the name with this text.
fn kind_named(link: &Link, name: &str) -> Option<Kind>
    ensures { result ≡ kind_named link.now name.now }
{
    let id = link.symbol(name)?;
    link.kind_of(id)
}

pub(crate) fn fits(kind: Kind, fit: Fit) -> bool
    ensures { result ≡ first_fits fit kind }
{
    if fit.is_long {
        kind.is_outer()
    } else {
        fit.wants.fits_alone(kind)
    }
}

/// Whether a name with this text fits and is visible.
fn is_shown(after: &NamesAfter, fit: Fit, name: &str) -> bool
    ensures { result ≡ shows_fitting after.now.link.now after.now.file fit name.now }
{
    match kind_named(after.link, name) {
        Some(kind) => fits(kind, fit) && after.link.visible(after.file, name),
        None => false,
    }
}

/// Whether below a scope something fits and is visible under the word, once the names are the new
/// ones. (The word is a new one, and nothing collides.)
pub(crate) fn is_shown_below(
    alloc: Global,
    after: &NamesAfter,
    fit: Fit,
    scope: &str,
    word: &str,
) -> Result<bool, NoMemory>
    ensures { IfOk result (λ b. b ≡ shown_below after.now.link.now after.now.file fit
        (texts_of after.now.names.now) scope.now word.now) }
{
    let own = below(alloc, scope, after.names.old)?;
    if own.as_str() == after.names.target {
        return is_shown_beside(alloc, after, fit, scope, word);
    }
    let name = below(alloc, scope, word)?;
    Ok(is_shown(after, fit, name.as_str()))
}

/// The same in the scope that the target stands right below.
fn is_shown_beside(
    alloc: Global,
    after: &NamesAfter,
    fit: Fit,
    scope: &str,
    word: &str,
) -> Result<bool, NoMemory>
    ensures { IfOk result (λ b. b ≡ shown_beside after.now.link.now after.now.file fit
        (texts_of after.now.names.now) scope.now word.now) }
{
    if word == after.names.new && is_shown(after, fit, after.names.target) {
        return Ok(true);
    }
    is_entry_shown(alloc, after, fit, scope, word)
}

/// The same for the entry of a map field alone.
fn is_entry_shown(
    alloc: Global,
    after: &NamesAfter,
    fit: Fit,
    scope: &str,
    word: &str,
) -> Result<bool, NoMemory>
    ensures { IfOk result (λ b. b ≡ entry_shown_if after.now.link.now after.now.file fit
        (texts_of after.now.names.now).entry scope.now word.now) }
{
    match &after.names.entry {
        Some(entry) => {
            if word != entry.new.as_str() {
                return Ok(false);
            }
            let name = below(alloc, scope, entry.old.as_str())?;
            Ok(is_shown(after, fit, name.as_str()))
        }
        None => Ok(false),
    }
}
