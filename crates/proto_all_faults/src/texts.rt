//! All faults of texts, and all of their grammar.

ghost use Rattle.std.specs.Prelude.{map, IfOk, OnOk};
ghost use Rattle.proto_files.specs.Faults.{HasNoFault, fault_at};
ghost use Rattle.proto_files.specs.GivenFiles.{files_of_as};
ghost use Rattle.proto_files.specs.ReadFaults.{GrammarFaults, IsGrammarFault, IsTextFault, TextFaults};
ghost use Rattle.proto_files.specs.Reading.{HasNone};
ghost use Rattle.proto_names_faults.specs.AllFaults.{AreAllOf};
ghost use Rattle.proto_all_faults.specs.Steps.{AddsIfAny};

use crate::found::add_error;
use proto_base::{Fault, NoMemory, Profile};
use proto_files::{grammar_error, text_error};
use proto_names_faults::in_order;
use proto_text::{Source, lex_as};
use proto_tree::parse_as;
use std::alloc::Global;

/// Adds the fault of the text of a file of a language, if it has one.
fn add_text_fault(
    alloc: Global,
    found: &mut Vec<Fault>,
    path: &str,
    bytes: &[u8],
    profile: Profile,
) -> Result<(), NoMemory>
    ensures { OnOk result (AddsIfAny IsTextFault
        (record { path = path.now; bytes = bytes.now; profile = profile })
        (map fault_at found.old.items) (map fault_at found.new.items)) }
{
    let path = String::from_str(alloc, path)?;
    let source = match Source::new(Vec::from_slice(alloc, bytes)?) {
        Ok(source) => source,
        Err(fault) => return add_error(found, text_error(path, fault)),
    };
    match lex_as(alloc, &source, profile) {
        Ok(_) => Ok(()),
        Err(fault) => add_error(found, text_error(path, fault)),
    }
}

/// All faults of the texts of the files given, of a language, in order. Fails only when out of
/// memory.
pub(crate) fn text_faults(
    alloc: Global,
    given: &[(String, Vec<u8>)],
    profile: Profile,
) -> Result<Vec<Fault>, NoMemory>
    ensures { IfOk result (λ listed. AreAllOf
        (TextFaults (files_of_as profile given.now)) (map fault_at listed.items)) }
{
    let mut found = Vec::new(alloc);
    for file in given {
        add_text_fault(alloc, &mut found, file.0.as_str(), &file.1, profile)?;
    }
    Ok(in_order(found))
}

/// Adds the fault of the grammar of a file of a language whose text has none, if it has one.
fn add_grammar_fault(
    alloc: Global,
    found: &mut Vec<Fault>,
    path: &str,
    bytes: &[u8],
    profile: Profile,
) -> Result<(), NoMemory>
    requires { HasNone IsTextFault
        (record { path = path.now; bytes = bytes.now; profile = profile }) }
    ensures { OnOk result (AddsIfAny IsGrammarFault
        (record { path = path.now; bytes = bytes.now; profile = profile })
        (map fault_at found.old.items) (map fault_at found.new.items)) }
{
    // The text has no fault, so that only memory can be wanting.
    match Source::new(Vec::from_slice(alloc, bytes)?) {
        Ok(source) => add_fault_of_source(alloc, found, path, &source, profile),
        Err(_fault) => Err(NoMemory),
    }
}

/// The same of its text.
fn add_fault_of_source(
    alloc: Global,
    found: &mut Vec<Fault>,
    path: &str,
    source: &Source,
    profile: Profile,
) -> Result<(), NoMemory>
    ensures { OnOk result (AddsIfAny IsGrammarFault
        (record { path = path.now; bytes = source.now; profile = profile })
        (map fault_at found.old.items) (map fault_at found.new.items)) }
{
    let Ok(tokens) = lex_as(alloc, source, profile) else {
        return Err(NoMemory);
    };
    match parse_as(alloc, source, &tokens, profile) {
        Ok(tree) => {
            tree.release();
            Ok(())
        }
        Err(fault) => {
            let path = String::from_str(alloc, path)?;
            add_error(found, grammar_error(path, fault))
        }
    }
}

/// All faults of the grammar of the files given, of a language, whose texts have none, in order.
/// Fails only when out of memory.
pub(crate) fn grammar_faults(
    alloc: Global,
    given: &[(String, Vec<u8>)],
    profile: Profile,
) -> Result<Vec<Fault>, NoMemory>
    requires { HasNoFault (TextFaults (files_of_as profile given.now)) }
    ensures { IfOk result (λ listed. AreAllOf
        (GrammarFaults (files_of_as profile given.now)) (map fault_at listed.items)) }
{
    let mut found = Vec::new(alloc);
    for file in given {
        add_grammar_fault(alloc, &mut found, file.0.as_str(), &file.1, profile)?;
    }
    Ok(in_order(found))
}
