//! The keys of a section, in byte order.

ghost use Rattle.std.specs.Prelude.{◌≡◌, ◌<◌, length, position, map, IfOk, IfSome};
ghost use Rattle.config_digest.specs.Order as spec;

use config_ini::Entry;
use std::alloc::{AllocError, Global};
use std::cmp::Ordering;

fn is_before(entry: &Entry, other: &Entry) -> bool
    ensures { result ≡ spec.is_before entry.now other.now }
{
    match entry.key.name.as_str().cmp(other.key.name.as_str()) {
        Ordering::Less => true,
        Ordering::Equal => false,
        Ordering::Greater => false,
    }
}

fn first_behind(entry: &Entry, sorted: &[&Entry]) -> Option<usize>
    ensures first { result ≡ position (λ o. spec.is_before entry.now o.now) sorted.now }
    ensures within { IfSome result (λ at. at < length sorted.now) }
{
    sorted.iter().position(|other| is_before(entry, other))
}

fn with_entry<'a>(sorted: Vec<&'a Entry>, entry: &'a Entry) -> Result<Vec<&'a Entry>, AllocError>
    ensures { IfOk result (λ all. map (λ e. e.now) all.items ≡ spec.placed entry.now (map (λ e. e.now) sorted.entry.items)) }
{
    let mut all = sorted;
    match first_behind(entry, all.as_slice()) {
        Some(at) => {
            all.insert(at, entry)?;
            Ok(all)
        }
        None => {
            all.push(entry)?;
            Ok(all)
        }
    }
}

/// The keys in byte order of their names.
pub(crate) fn in_order(alloc: Global, entries: &[Entry]) -> Result<Vec<&Entry>, AllocError>
    ensures { IfOk result (λ all. map (λ e. e.now) all.items ≡ spec.in_order entries.now) }
{
    let mut sorted = Vec::new(alloc);
    for entry in entries {
        sorted = with_entry(sorted, entry)?;
    }
    Ok(sorted)
}
