//! The change of a file that puts a word at some of its tokens.

ghost use Rattle.std.specs.Prelude.{◌≡◌, ◌+◌, ◌-◌, ◌*◌, ◌<◌, ◌≤◌, ◌++◌, ◌∷◌, [], All, length, map, replicate, true, false, if◌then◌else◌, slice_set, IfOk, IfErr, OnOk, MatchOption};
ghost use Rattle.proto_base.specs.Texts.{text_limit};
ghost use Rattle.proto_text.specs.Edits.{AreShort};
ghost use Rattle.proto_text.specs.SourceFacts.{IsSpan};
ghost use Rattle.proto_text.specs.Splicing.{edits};
ghost use Rattle.proto_edit_rename.specs.MadeChanges.{IsChangeAt, IsRewordFault, marked_from, marked_tokens, word_put, StandInOrder, bytes_in};

use proto_base::{MAX_LEN, NoMemory};
use proto_edit_entries::{Change, in_order};
use proto_files::Files;
use proto_text::{Source, Splice, Splices, Token};
use std::alloc::{AllocError, Global};

// No `OrNoMemory`: its fault says nothing more, and it is copied.
/// Why a file is not changed.
#[derive(Clone, Copy)]
pub(crate) enum RewordFault {
    /// It would have more than 1,048,576 bytes.
    TooLarge,
    NoMemory,
}

impl From<AllocError> for RewordFault {
    ghost use Rattle.proto_edit_rename.specs.declared.changing.RewordFault.TheVariants.{NoMemory};

    ghost from_gives = { λ _ e. e ≡ NoMemory };

    fn from(_e: AllocError) -> RewordFault {
        RewordFault::NoMemory
    }
}

impl From<NoMemory> for RewordFault {
    ghost use Rattle.proto_edit_rename.specs.declared.changing.RewordFault.TheVariants.{NoMemory as OutOfMemory};

    ghost from_gives = { λ _ e. e ≡ OutOfMemory };

    fn from(_e: NoMemory) -> RewordFault {
        RewordFault::NoMemory
    }
}

/// The change of a file that puts the word at these tokens of it, a splice for each; none where it
/// has none of them. They may come in any order, twice, or past its last token. Refused where the
/// file would be longer than one may be.
pub(crate) fn change_of_file(
    alloc: Global,
    files: &Files,
    file: u32,
    places: &[u32],
    to: &str,
) -> Result<Option<Change>, RewordFault>
    requires { file < length files.now }
    ensures change { IfOk result (λ found. IsChangeAt files.now file places.now to.now found) }
    ensures fault { IfErr result (IsRewordFault files.now file places.now to.now) }
{
    let source = files.source(file);
    let before = source.as_bytes().len() as u32;
    let tokens = files.tokens(file);
    // Most files have none: their tokens are neither marked nor gone through.
    if places.is_empty() {
        return Ok(None);
    }
    let found = marked_at(alloc, tokens, places)?;
    let changed = found.as_slice();
    if changed.is_empty() {
        return Ok(None);
    }
    let Some(after) = len_after(source, changed, to) else {
        return Err(RewordFault::TooLarge);
    };
    let splices = splices_at(alloc, source, changed, to);
    // The tokens end here, before either may fail.
    drop(found);
    let splices = splices?;
    Ok(Some(Change {
        path: files.path(file).to_string(alloc)?,
        before,
        after,
        splices,
    }))
}

/// The tokens at these places, in order.
fn marked_at(alloc: Global, tokens: &[Token], places: &[u32]) -> Result<Vec<Token>, NoMemory>
    ensures { IfOk result (λ found. found.items
        ≡ marked_tokens tokens.now (marked_from (replicate (length tokens.now) false) places.now)) }
{
    let marks = marks_of(alloc, tokens.len(), places)?;
    tokens_with_marks(alloc, tokens, &marks)
}

/// So many marks, of which these are set; what is past them is left out.
fn marks_of(alloc: Global, count: usize, places: &[u32]) -> Result<Vec<bool>, NoMemory>
    ensures { IfOk result (λ marks. marks.items ≡ marked_from (replicate count false) places.now) }
{
    let mut marks = vec![in alloc; false; count]?;
    for place in places {
        mark(&mut marks, *place as usize);
    }
    Ok(marks)
}

fn mark(marks: &mut Vec<bool>, place: usize)
    ensures { marks.new.items ≡ slice_set marks.old.items place true }
{
    if place < marks.len() {
        marks[place] = true;
    }
}

/// The tokens that are marked, in order.
fn tokens_with_marks(
    alloc: Global,
    tokens: &[Token],
    marks: &[bool],
) -> Result<Vec<Token>, NoMemory>
    requires { length marks.now ≡ length tokens.now }
    ensures { IfOk result (λ found. found.items ≡ marked_tokens tokens.now marks.now) }
{
    let mut found = Vec::new(alloc);
    for (place, token) in tokens.iter().enumerate() {
        push_if(&mut found, marks[place], *token)?;
    }
    Ok(found)
}

fn push_if(found: &mut Vec<Token>, is_marked: bool, token: Token) -> Result<(), NoMemory>
    ensures { OnOk result (found.new.items ≡ found.old.items
        ++ (if is_marked then token ∷ [] else [])) }
{
    if is_marked {
        found.push(token)?;
    }
    Ok(())
}

/// How many bytes the text has with the word in place of each of these tokens; none
/// where a text may not have as many.
fn len_after(source: &Source, tokens: &[Token], to: &str) -> Option<u32>
    requires some { 0 < length tokens.now }
    requires order { StandInOrder 0 (length source.now) tokens.now }
    ensures { MatchOption result
        (text_limit + bytes_in tokens.now < length source.now + length tokens.now * length to.now)
        (λ after. (after
        ≡ (length source.now + length tokens.now * length to.now) - bytes_in tokens.now)
        × (length source.now + length tokens.now * length to.now
        ≤ text_limit + bytes_in tokens.now)) }
{
    // With a word that is longer than a text may be, there is nothing to reckon.
    if to.len() > MAX_LEN {
        return None;
    }
    let kept = source.as_bytes().len() - total_len(tokens);
    let after = kept + tokens.len() * to.len();
    if after > MAX_LEN {
        None
    } else {
        Some(after as u32)
    }
}

/// How many bytes tokens of a text have.
fn total_len(tokens: &[Token]) -> usize
    requires { StandInOrder 0 text_limit tokens.now }
    ensures { result ≡ bytes_in tokens.now }
{
    let mut total = 0;
    for token in tokens {
        total += (token.span.end - token.span.start) as usize;
    }
    total
}

/// A splice for each of these tokens: the word in its place.
fn splices_at(
    alloc: Global,
    source: &Source,
    tokens: &[Token],
    to: &str,
) -> Result<Splices, NoMemory>
    requires spans { All (λ t. IsSpan source.now t.span) tokens.now }
    requires short { AreShort 0 0 (map (word_put source.now to.now) tokens.now) }
    ensures { IfOk result (λ splices. splices ≡ map (word_put source.now to.now) tokens.now) }
{
    let mut list = Vec::new(alloc);
    for token in tokens {
        push_splice(&mut list, alloc, source, *token, to)?;
    }
    in_order(list)
}

fn push_splice(
    list: &mut Vec<Splice>,
    alloc: Global,
    source: &Source,
    token: Token,
    to: &str,
) -> Result<(), NoMemory>
    requires { IsSpan source.now token.span }
    ensures { OnOk result (edits list.new.items
        ≡ edits list.old.items ++ word_put source.now to.now token ∷ []) }
{
    list.push(Splice {
        at: token.span.start,
        old: source.text(token.span).to_string(alloc)?,
        new: to.to_string(alloc)?,
    })?;
    Ok(())
}
