//! The children of a VCALENDAR by their UID.

ghost use Rattle.std.specs.Prelude.{◌≡◌, ◌++◌, ◌∷◌, [], ℕ, List, IfOk, OnOk, if◌then◌else◌, string_bytes};
ghost use Rattle.std.specs.List.{filter};
ghost use Rattle.std.specs.Str.{bytes_eq};
ghost use Rattle.file_text.specs.Groups.{IsLeft, group_of};
ghost use Rattle.file_text.specs.Parts.{has_uid};
ghost use Rattle.file_text.specs.Spans.{part_at, parts_at, children_at};

use crate::marks::Mark;
use crate::parts::{Span, part_at, uid_of};
use std::alloc::{AllocError, Global};
use std::collections::BTreeMap;

/// Adds a child behind those of its UID.
fn add(by_uid: &mut BTreeMap<String, Vec<Span>>, uid: String, child: Span) -> Result<(), AllocError>
    ensures { OnOk result ((lines : List Mark) (q : List ℕ) → children_at lines by_uid.new q ≡ (if bytes_eq q (string_bytes uid) then children_at lines by_uid.old q ++ part_at lines child ∷ [] else children_at lines by_uid.old q)) }
{
    by_uid.entry(uid)?.or_default().push(child)?;
    Ok(())
}

/// The children that have a UID, by it.
pub(crate) fn by_uid(
    alloc: Global,
    lines: &[Mark<'_>],
    children: &[Span],
) -> Result<BTreeMap<String, Vec<Span>>, AllocError>
    ensures { IfOk result (λ map. (q : List ℕ) → children_at lines.now map q ≡ filter (has_uid q) (parts_at lines.now children.now)) }
{
    let mut map = BTreeMap::new(alloc);
    for child in children {
        if let Some(uid) = uid_of(part_at(lines, *child)) {
            add(&mut map, String::from_str(alloc, uid)?, *child)?;
        }
    }
    Ok(map)
}

/// Takes the children of a UID away; none are left there.
fn take(alloc: Global, by_uid: &mut BTreeMap<String, Vec<Span>>, uid: &str) -> Vec<Span>
    ensures taken { (lines : List Mark) → parts_at lines result.items ≡ children_at lines by_uid.old uid.now }
    ensures left { (lines : List Mark) (q : List ℕ) → children_at lines by_uid.new q ≡ (if bytes_eq q uid.now then [] else children_at lines by_uid.old q) }
{
    match by_uid.remove(uid) {
        Some(children) => children,
        None => Vec::new(alloc),
    }
}

/// The children that make an item with the next child, or none where one before it has its UID. They are taken away.
pub(crate) fn next_group(
    alloc: Global,
    lines: &[Mark<'_>],
    by_uid: &mut BTreeMap<String, Vec<Span>>,
    child: Span,
) -> Result<Vec<Span>, AllocError>
    ensures group { IfOk result (λ group. (all before : List (List Mark)) → IsLeft lines.now by_uid.old all before → parts_at lines.now group.items ≡ group_of all before (part_at lines.now child)) }
    ensures left { OnOk result ((all before : List (List Mark)) → IsLeft lines.now by_uid.old all before → IsLeft lines.now by_uid.new all (before ++ part_at lines.now child ∷ [])) }
{
    match uid_of(part_at(lines, child)) {
        Some(uid) => Ok(take(alloc, by_uid, uid)),
        None => {
            let mut alone = Vec::new(alloc);
            alone.push(child)?;
            Ok(alone)
        }
    }
}
