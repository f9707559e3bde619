//! Reads files: their tokens first, and then their trees.

ghost use Rattle.std.specs.Prelude.{◌≡◌, All, IfOk, IfErr};
ghost use Rattle.proto_files.specs.ReadFaults.{IsTextFault, IsGrammarFault};
ghost use Rattle.proto_files.specs.Reading.{IsFileError, IsFirstError, IsLexedFile, IsReadFile};
ghost use Rattle.proto_files.specs.Stages.{named_file, named_files, lexed_file, lexed_files, read_file, read_files};

use crate::stages::{LexedFile, NamedFile, ReadFile};
use crate::text_faults::{grammar_error, text_error};
use proto_base::SchemaFault;
use proto_text::{Source, lex_as};
use proto_tree::parse_as;
use std::alloc::Global;

fn lex_file(alloc: Global, file: NamedFile) -> Result<LexedFile, SchemaFault>
    ensures same { IfOk result (λ lexed. lexed_file lexed ≡ named_file file) }
    ensures lexed { IfOk result IsLexedFile }
    ensures fault { IfErr result (IsFileError IsTextFault (named_file file)) }
{
    let NamedFile {
        path,
        bytes,
        profile,
    } = file;
    let source = match Source::new(bytes) {
        Ok(source) => source,
        Err(fault) => return Err(text_error(path, fault)),
    };
    match lex_as(alloc, &source, profile) {
        Ok(tokens) => Ok(LexedFile {
            path,
            source,
            tokens,
            profile,
        }),
        Err(fault) => Err(text_error(path, fault)),
    }
}

/// The files with their tokens, or the fault of the first whose text has one.
pub fn lex_files(alloc: Global, files: Vec<NamedFile>) -> Result<Vec<LexedFile>, SchemaFault>
    ensures same { IfOk result (λ lexed. lexed_files lexed.items ≡ named_files files.items) }
    ensures lexed { IfOk result (λ lexed. All IsLexedFile lexed.items) }
    ensures fault { IfErr result (IsFirstError IsTextFault (named_files files.items)) }
{
    let mut lexed = Vec::new(alloc);
    for file in files {
        lexed.push(lex_file(alloc, file)?)?;
    }
    Ok(lexed)
}

fn parse_file(alloc: Global, file: LexedFile) -> Result<ReadFile, SchemaFault>
    requires { IsLexedFile file }
    ensures same { IfOk result (λ read. read_file read ≡ lexed_file file) }
    ensures read { IfOk result IsReadFile }
    ensures fault { IfErr result (IsFileError IsGrammarFault (lexed_file file)) }
{
    let LexedFile {
        path,
        source,
        tokens,
        profile,
    } = file;
    match parse_as(alloc, &source, &tokens, profile) {
        Ok(tree) => Ok(ReadFile {
            path,
            source,
            tokens,
            tree,
            profile,
        }),
        Err(fault) => Err(grammar_error(path, fault)),
    }
}

// As `lex_files`, one stage on: what is read, what it gives and its fault are types of their own.

/// The files with their trees, or the fault of the first whose tokens have none.
pub fn parse_files(alloc: Global, files: Vec<LexedFile>) -> Result<Vec<ReadFile>, SchemaFault>
    requires { All IsLexedFile files.items }
    ensures same { IfOk result (λ read. read_files read.items ≡ lexed_files files.items) }
    ensures read { IfOk result (λ read. All IsReadFile read.items) }
    ensures fault { IfErr result (IsFirstError IsGrammarFault (lexed_files files.items)) }
{
    let mut read = Vec::new(alloc);
    for file in files {
        read.push(parse_file(alloc, file)?)?;
    }
    Ok(read)
}
