//! The answers over schemas that compile.

ghost use Rattle.std.specs.Prelude.{◌≡◌, ◌++◌, IfErr, IfOk, codes, string_bytes};
ghost use Rattle.protoref_output.specs.Answers.{status_of, printed_text};
ghost use Rattle.protoref_commands.specs.Linted.{IsLintOf};

use proto_desc::CheckedSchema;
use proto_lint::{RuleSet, lint};
use proto_names::are_read;
use protoref_output::{Answer, RunFault, Status, lines_of_findings};
use std::alloc::Global;

// The answer of the text of descriptors, on a line.
pub(crate) fn descriptors_answer(mut text: String) -> Result<Answer, RunFault>
    ensures text { IfOk result (λ answer. printed_text answer ≡ string_bytes text ++ codes "\n") }
    ensures status { IfOk result (λ answer. status_of answer ≡ Status.Done) }
    ensures err { IfErr result (λ e. e ≡ RunFault.NoMemory) }
{
    text.push('\n')?;
    Ok(Answer::Text(text, Status::Done))
}

// The lines of what the rules find, in the order of
// path, offset, rule and name, and whether there is one.
pub(crate) fn findings_answer(
    alloc: Global,
    schema: &CheckedSchema,
    rules: &RuleSet,
) -> Result<Answer, RunFault>
    ensures linted { IfOk result (λ answer. IsLintOf schema.now rules.now.chosen
        (printed_text answer) (status_of answer)) }
    ensures err { IfErr result (λ e. e ≡ RunFault.NoMemory) }
{
    let files = schema.files();
    are_read(files);
    let found = lint(alloc, files, schema.link(), rules)?;
    let text = lines_of_findings(alloc, files, found.as_slice())?;
    let status = if found.is_empty() {
        Status::Done
    } else {
        Status::Problem
    };
    Ok(Answer::Text(text, status))
}
