//! Whether imports lead from one file to another.

ghost use Rattle.std.specs.Prelude.{◌↔◌, ◌<◌, length, map, IfOk, IsTrue};
ghost use Rattle.std.specs.List.{All};
ghost use Rattle.proto_names_imports.specs.Importing.{all_imports};
ghost use Rattle.proto_names_rules.specs.Cycles.{Leads};

use proto_base::NoMemory;
use proto_names_imports::import::FileImport;
use proto_names_imports::walk::files_led_to;
use std::alloc::Global;

/// Whether a file is the other, or leads to it by these imports, public or not.
pub(crate) fn leads(
    alloc: Global,
    imports: &[Vec<FileImport>],
    from: u32,
    to: u32,
) -> Result<bool, NoMemory>
    requires within { All (λ v. All (λ i. i.to < length imports.now) v.items) imports.now }
    requires from { from < length imports.now }
    requires to { to < length imports.now }
    ensures { IfOk result (λ b. IsTrue b
        ↔ Leads (all_imports 0 (map (λ v. v.items) imports.now)) from to) }
{
    if from == to {
        return Ok(true);
    }
    let led_to = files_led_to(alloc, imports, &imports[from as usize])?;
    Ok(led_to.contains(to))
}
