//! The file names that a store chooses for new items.

ghost use Rattle.std.specs.Prelude.{◌≡◌, ℕ, List, IfOk, string_bytes};
ghost use Rattle.std.specs.BTreeSet.{contains_text};
ghost use Rattle.store_model.specs.Names.{file_stem, candidate, IsFreeName};

use item_text::is_plain;
use outside::{NoMemory, etag_of};
use std::alloc::Global;
use std::collections::BTreeSet;
use values::Text;

/// The stem of the file name of a new item: its ident, where that is 1 to 100 bytes of ASCII
/// letters, digits, `_`, `-`, `.` and `@` and doesn't begin with `.`; else the lower-case hex
/// SHA-256 of the ident (this project's own rule).
#[tactic(auto, unfolding(crate::specs::Names::file_stem))]
pub fn file_stem(alloc: Global, ident: &str) -> Result<Text, NoMemory>
    ensures { IfOk result (λ stem. stem ≡ file_stem ident.now) }
{
    if is_plain(ident) {
        Ok(Text::copy_of(alloc, ident)?)
    } else {
        etag_of(alloc, ident.as_bytes())
    }
}

#[tactic(auto, unfolding(crate::specs::Names::candidate))]
fn candidate(alloc: Global, stem: &str, ending: &str, number: u64) -> Result<String, NoMemory>
    ensures { IfOk result (λ name. string_bytes name ≡ candidate stem.now ending.now number) }
{
    let made = if number == 0 {
        format!(in alloc; "{stem}{ending}")
    } else {
        format!(in alloc; "{stem}-{number}{ending}")
    };
    let Ok(name) = made else {
        return Err(NoMemory);
    };
    Ok(name)
}

/// The first of `stem`, `stem-1`, `stem-2` and so on, each with the ending added, that isn't
/// taken (this project's own rule). It looks up one name per name of this stem that is taken.
pub fn free_name(
    alloc: Global,
    stem: &str,
    ending: &str,
    taken: &BTreeSet<String>,
) -> Result<String, NoMemory>
    ensures { IfOk result (λ name. IsFreeName (contains_text taken.now) stem.now ending.now (string_bytes name)) }
{
    for number in 0..u64::MAX {
        let name = candidate(alloc, stem, ending, number)?;
        if !taken.contains(name.as_str()) {
            return Ok(name);
        }
    }
    // That many names don't fit into any memory.
    Err(NoMemory)
}
