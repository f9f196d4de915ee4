//! The names of a folder's subfolders.

ghost use Rattle.std.specs.Prelude.{◌≡◌, ◌≤◌, IfOk, length};
ghost use Rattle.outside.specs.Subfolders.{IsInByteOrder};

use crate::folder::NoMemory;
use std::alloc::Global;
use values::Text;

/// The names in byte order, each of them once.
pub fn ordered(mut names: Vec<Text>) -> Vec<Text>
    ensures order { IsInByteOrder names.items result.items }
    ensures len { length result.items ≤ length names.items }
{
    names.sort_unstable();
    names.dedup();
    names
}

/// A copy of the names.
pub fn copied(alloc: Global, names: &[Text]) -> Result<Vec<Text>, NoMemory>
    ensures { IfOk result (λ copies. copies.items ≡ names.now) }
{
    let mut copies = Vec::new(alloc);
    for name in names {
        copies.push(Text::copy_of(alloc, name.as_str())?)?;
    }
    Ok(copies)
}
