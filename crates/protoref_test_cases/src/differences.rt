//! What is otherwise than rows say.

ghost use Rattle.std.specs.Prelude.{◌≡◌, [], IfOk, IsOk, map, string_bytes};
ghost use Rattle.protoref_test_cases.specs.RowsHold.{RowHolds, StepsHold, UndosHold, row_files, written_row, written_step, undo_of};

use crate::edited::{expect_row, expect_steps};
use crate::row::{Row, Undo};
use crate::step::Step;
use crate::unlike::Unlike;
use proto_base::NoMemory;
use std::alloc::Global;

// What is otherwise, in words; an empty text where nothing is.
fn difference_text(alloc: Global, answer: Result<(), Unlike>) -> Result<String, NoMemory>
    ensures { IfOk result (λ s. string_bytes s ≡ [] → IsOk answer) }
{
    match answer {
        Ok(()) => Ok(String::new(alloc)),
        Err(Unlike::NoMemory) => Err(NoMemory),
        Err(Unlike::Named(name)) => Ok(String::from_str(alloc, name.text)?),
        Err(Unlike::Told(words)) => Ok(words.text),
    }
}

/// What is first otherwise than the row says, in words; an empty text only where it holds. It is
/// done as one run and step by step, and led back by these undos to the files that it begins with,
/// or by its entries, at once and one by one, where there are no undos.
pub fn difference(alloc: Global, row: &Row, undos: &[Undo]) -> Result<String, NoMemory>
    ensures row { IfOk result (λ s. string_bytes s ≡ [] → RowHolds (written_row row.now)) }
    ensures undos { IfOk result (λ s. string_bytes s ≡ []
        → UndosHold (written_row row.now) (map undo_of undos.now)) }
{
    difference_text(alloc, expect_row(alloc, row, undos))
}

/// What is first answered otherwise than these steps say, one after another; an empty text only
/// where all hold.
pub fn difference_of_answers(
    alloc: Global,
    files: &[(&str, &str)],
    steps: &[Step],
) -> Result<String, NoMemory>
    ensures { IfOk result (λ s. string_bytes s ≡ []
        → StepsHold (row_files files.now) (map written_step steps.now)) }
{
    difference_text(alloc, expect_steps(alloc, files, steps))
}
