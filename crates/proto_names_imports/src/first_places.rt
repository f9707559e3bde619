//! The first places of texts in lists.

ghost use Rattle.std.specs.Prelude.{◌≡◌, ◌≤◌, ◌^◌, length, map, IfOk};
ghost use Rattle.indexmap.specs.IndexMap.{get_by_text};
ghost use Rattle.proto_names_imports.specs.ImportSteps.{IsFileIndex};

use indexmap::IndexMap;
use proto_base::NoMemory;
use std::alloc::Global;

/// The places of the texts, counted from 0; of texts that are the same the first. Fails only when
/// out of memory.
pub fn first_places(alloc: Global, texts: &[&str]) -> Result<IndexMap<String, u32>, NoMemory>
    requires { length texts.now ≤ 2 ^ 32 }
    ensures { IfOk result (λ index. IsFileIndex index (map (λ t. t.now) texts.now)) }
{
    let mut index = IndexMap::new(alloc);
    let mut place = texts.len();
    // From the last to the first, so that the first stays.
    while place > 0 {
        place -= 1;
        let text = String::from_str(alloc, texts[place])?;
        index.insert(text, place as u32)?;
    }
    Ok(index)
}

/// The first place of a text; none for a text that has no place.
pub fn place_of(index: &IndexMap<String, u32>, text: &str) -> Option<u32>
    ensures { result ≡ get_by_text index.now text.now }
{
    index.get(text).copied()
}
