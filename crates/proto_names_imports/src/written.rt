//! The imports of a file with their paths.

ghost use Rattle.std.specs.Prelude.{IfOk};
ghost use Rattle.std.specs.List.{All};
ghost use Rattle.proto_text.specs.Strings.{IsString};
ghost use Rattle.proto_text.specs.Texts.{word_at};
ghost use Rattle.proto_names_imports.specs.Written.{AreWritten};

use crate::import::WrittenImport;
use proto_base::NoMemory;
use proto_files::Words;
use proto_names_outline::wanted::Wanted;
use proto_text::string_value;
use std::alloc::Global;

/// The imports of a file, each with the token and the value of its path. Fails only when out of
/// memory.
pub fn written_imports(
    alloc: Global,
    words: &Words,
    wanted: &[Wanted],
) -> Result<Vec<WrittenImport>, NoMemory>
    requires strings { All (λ w. IsString (word_at words.now w.path)) wanted.now }
    ensures { IfOk result (λ ws. AreWritten (word_at words.now) wanted.now ws.items) }
{
    let mut written = Vec::new(alloc);
    for import in wanted {
        let path = string_value(alloc, words.get(import.path))?;
        written.push(WrittenImport {
            token: import.path,
            path,
            is_public: import.is_public,
        })?;
    }
    Ok(written)
}
