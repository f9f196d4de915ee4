//! Which names of files are items, and which are in use.

ghost use Rattle.std.specs.Prelude.{◌≡◌, ℕ, List, not, IfOk};
ghost use Rattle.std.specs.List.{list_all, list_any};
ghost use Rattle.std.specs.Str.{bytes_eq};
ghost use Rattle.std.specs.BTreeSet.{contains_text};
ghost use Rattle.vdir_store.specs.Names.{is_ending, is_item, is_slash};

use outside::NoMemory;
use std::alloc::Global;
use std::collections::BTreeSet;
use store_model::Entry;

fn has_no_slash(bytes: &[u8]) -> bool
    ensures { result ≡ list_all (λ b. not (is_slash b)) bytes.now }
{
    bytes.iter().all(|b| *b != b'/')
}

/// Whether the items of a folder may have this ending: it begins with `.`, has another byte and
/// no `/` (this project's own rule). `VdirStore::new` needs it.
pub fn is_ending(text: &str) -> bool
    ensures { result ≡ is_ending text.now }
{
    match text.as_bytes() {
        [] => false,
        [first, rest @ ..] => *first == b'.' && (0 < rest.len() && has_no_slash(rest)),
    }
}

/// Whether a file of this name is an item.
#[tactic(auto, unfolding(crate::specs::Names::is_item))]
pub fn is_item(ending: &str, name: &str) -> bool
    ensures { result ≡ is_item ending.now name.now }
{
    let bytes = name.as_bytes();
    bytes.ends_with(ending.as_bytes()) && (ending.len() < name.len() && !bytes.ends_with(b".tmp"))
}

/// The names of some entries.
pub fn names_of(alloc: Global, entries: &[Entry]) -> Result<BTreeSet<String>, NoMemory>
    ensures { IfOk result (λ names. (q : List ℕ) → contains_text names q ≡ list_any (λ e. bytes_eq q e.href) entries.now) }
{
    let mut names = BTreeSet::new(alloc);
    for entry in entries {
        let Ok(name) = String::from_str(alloc, entry.href.as_str()) else {
            return Err(NoMemory);
        };
        let Ok(_) = names.insert(name) else {
            return Err(NoMemory);
        };
    }
    Ok(names)
}
