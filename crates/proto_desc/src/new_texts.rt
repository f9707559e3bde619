//! Reads other texts for files: the tokens of all first, and then their trees.

ghost use Rattle.std.specs.Prelude.{◌≡◌, ◌+◌, ◌<◌, ◌≤◌, ◌^◌, length, map, All, AllPairs, IfOk, IfErr, OnOk, OnErr};
ghost use Rattle.proto_desc.specs.NewTexts.{texts_at, given_text, lexed_text, read_text, file_with, IsLexedText, IsParsedText, IsReadText};
ghost use Rattle.proto_desc.specs.Opening.{IsOpenError};
ghost use Rattle.proto_edit_entries.specs.Putting.{with_texts};
ghost use Rattle.proto_files.specs.ReadFaults.{IsTextFault, IsGrammarFault};
ghost use Rattle.proto_files.specs.Reading.{IsFileError, IsFirstError};

use crate::texts::{GivenText, LexedText, ReadText};
use proto_base::{NoMemory, SchemaFault};
use proto_files::{Files, grammar_error, text_error};
use proto_text::{Source, lex_as};
use proto_tree::{Steps, parse_counted_as};
use std::alloc::Global;

// The texts, each with the place of its file.
fn texts_at(alloc: Global, places: &[u32], texts: Vec<Vec<u8>>) -> Result<Vec<GivenText>, NoMemory>
    requires { length texts.items ≡ length places.now }
    ensures { IfOk result (λ given. map given_text given.items
        ≡ texts_at places.now (map (λ t. t.items) texts.items)) }
{
    let mut given = Vec::new(alloc);
    for bytes in texts {
        let place = places[given.len()];
        given.push(GivenText { place, bytes })?;
    }
    Ok(given)
}

// A text with its tokens in the language of its file, or its fault.
fn lex_text(alloc: Global, files: &Files, text: GivenText) -> Result<LexedText, SchemaFault>
    requires { text.place < length files.now }
    ensures same { IfOk result (λ lexed. lexed_text lexed ≡ given_text text) }
    ensures lexed { IfOk result (IsLexedText files.now) }
    ensures fault { IfErr result
        (IsFileError IsTextFault (file_with files.now (given_text text))) }
{
    let GivenText { place, bytes } = text;
    let path = String::from_str(alloc, files.path(place))?;
    let source = match Source::new(bytes) {
        Ok(source) => source,
        Err(fault) => return Err(text_error(path, fault)),
    };
    match lex_as(alloc, &source, files.profile(place)) {
        Ok(tokens) => Ok(LexedText {
            place,
            source,
            tokens,
        }),
        Err(fault) => Err(text_error(path, fault)),
    }
}

// The texts with their tokens, or the fault of the first that has one.
fn lex_texts(
    alloc: Global,
    files: &Files,
    texts: Vec<GivenText>,
) -> Result<Vec<LexedText>, SchemaFault>
    requires { All (λ t. t.place < length files.now) texts.items }
    ensures same { IfOk result
        (λ lexed. map lexed_text lexed.items ≡ map given_text texts.items) }
    ensures lexed { IfOk result (λ lexed. All (IsLexedText files.now) lexed.items) }
    ensures fault { IfErr result (IsFirstError IsTextFault
        (map (λ t. file_with files.now (given_text t)) texts.items)) }
{
    let mut lexed = Vec::new(alloc);
    for text in texts {
        lexed.push(lex_text(alloc, files, text)?)?;
    }
    Ok(lexed)
}

// A text with its tree, or its fault.
fn parse_text(
    alloc: Global,
    files: &Files,
    text: LexedText,
    steps: &mut Steps,
) -> Result<ReadText, SchemaFault>
    requires place { text.place < length files.now }
    requires lexed { IsLexedText files.now text }
    requires steps { steps.old + 1 < 2 ^ 64 }
    ensures same { IfOk result (λ read. read_text read ≡ lexed_text text) }
    ensures read { IfOk result (IsParsedText files.now) }
    ensures fault { IfErr result
        (IsFileError IsGrammarFault (file_with files.now (lexed_text text))) }
    ensures counted { OnOk result (steps.new ≡ steps.old + 1) }
    ensures refused { OnErr result
        ((steps.old ≤ steps.new) × (steps.new ≤ steps.old + 1)) }
{
    let LexedText {
        place,
        source,
        tokens,
    } = text;
    let path = String::from_str(alloc, files.path(place))?;
    match parse_counted_as(alloc, &source, &tokens, files.profile(place), steps) {
        Ok(tree) => Ok(ReadText {
            place,
            source,
            tokens,
            tree,
        }),
        Err(fault) => Err(grammar_error(path, fault)),
    }
}

// The texts with their trees, or the fault of the first that has one.
fn parse_texts(
    alloc: Global,
    files: &Files,
    texts: Vec<LexedText>,
    steps: &mut Steps,
) -> Result<Vec<ReadText>, SchemaFault>
    requires places { All (λ t. t.place < length files.now) texts.items }
    requires lexed { All (IsLexedText files.now) texts.items }
    requires steps { steps.old + length texts.items < 2 ^ 64 }
    ensures same { IfOk result
        (λ read. map read_text read.items ≡ map lexed_text texts.items) }
    ensures read { IfOk result (λ read. All (IsParsedText files.now) read.items) }
    ensures fault { IfErr result (IsFirstError IsGrammarFault
        (map (λ t. file_with files.now (lexed_text t)) texts.items)) }
    ensures counted { OnOk result (steps.new ≡ steps.old + length texts.items) }
    ensures refused { OnErr result
        ((steps.old ≤ steps.new) × (steps.new ≤ steps.old + length texts.items)) }
{
    let mut read = Vec::new(alloc);
    for text in texts {
        read.push(parse_text(alloc, files, text, steps)?)?;
    }
    Ok(read)
}

/// Texts with their trees, each for the file at its place and in its language; or the least fault of
/// the files with these texts. The count rises by one for each text that is parsed.
pub fn read_texts(
    alloc: Global,
    files: &Files,
    places: &[u32],
    texts: Vec<Vec<u8>>,
    steps: &mut Steps,
) -> Result<Vec<ReadText>, SchemaFault>
    requires places { All (λ place. place < length files.now) places.now }
    requires rising { AllPairs (λ a b. a < b) places.now }
    requires paired { length texts.items ≡ length places.now }
    requires steps { steps.old ≤ 2 ^ 63 }
    ensures same { IfOk result (λ read. map read_text read.items
        ≡ texts_at places.now (map (λ t. t.items) texts.items)) }
    ensures places { IfOk result (λ read. All (λ t. t.place < length files.now) read.items) }
    ensures read { IfOk result (λ read. All (IsReadText files.now) read.items) }
    ensures fault { IfErr result (IsOpenError
        (with_texts files.now places.now (map (λ t. t.items) texts.items))) }
    ensures counted { OnOk result (steps.new ≡ steps.old + length places.now) }
    ensures refused { OnErr result
        ((steps.old ≤ steps.new) × (steps.new ≤ steps.old + length places.now)) }
{
    // The contract says that the files are those of a workspace and have no fault of their texts.
    let _count = files.len();
    let given = texts_at(alloc, places, texts)?;
    let lexed = lex_texts(alloc, files, given)?;
    parse_texts(alloc, files, lexed, steps)
}
