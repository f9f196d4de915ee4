//! How many bytes the children of a joined file have, by the items that they make.

ghost use Rattle.std.specs.Prelude.{◌≡◌, ◌+◌, ◌<◌, ◌^◌, ◌++◌, ◌∷◌, ◌||◌, [], ℕ, List, IfOk, OnOk, nat_lt, if◌then◌else◌, length, string_bytes};
ghost use Rattle.std.specs.Str.{bytes_eq};
ghost use Rattle.file_text.specs.Lengths.{sum_at, AreSums, AreLengths};
ghost use Rattle.file_text.specs.Parts as parts;
ghost use Rattle.file_text.specs.Written.{written, all_written};

use crate::marks::Mark;
use crate::parts::uid_of;
use std::alloc::{AllocError, Global};
use std::collections::BTreeMap;

/// The bytes of the children so far, as they are written.
#[derive(Drop)]
pub(crate) struct Lengths {
    /// Those of each UID together.
    by_uid: BTreeMap<String, usize>,
    /// The most that the children of one item have.
    pub(crate) longest: usize,
}

/// The greater of two.
pub(crate) fn greater(first: usize, second: usize) -> usize
    ensures { (n : ℕ) → nat_lt n result ≡ (nat_lt n first || nat_lt n second) }
{
    if first < second { second } else { first }
}

/// Adds to the bytes of a UID; gives their sum.
fn add_to(
    by_uid: &mut BTreeMap<String, usize>,
    uid: String,
    count: usize,
) -> Result<usize, AllocError>
    ensures sum { IfOk result (λ sum. sum_at by_uid.old (string_bytes uid) + count < 2 ^ 64 → sum ≡ sum_at by_uid.old (string_bytes uid) + count) }
    ensures sums { OnOk result ((q : List ℕ) → sum_at by_uid.old (string_bytes uid) + count < 2 ^ 64 → sum_at by_uid.new q ≡ (if bytes_eq q (string_bytes uid) then sum_at by_uid.old q + count else sum_at by_uid.old q)) }
{
    let sum = by_uid.entry(uid)?.or_default();
    *sum = sum.saturating_add(count);
    Ok(*sum)
}

/// The bytes of the children that make an item with a child, and this child of so many bytes.
fn sum_with(
    alloc: Global,
    by_uid: &mut BTreeMap<String, usize>,
    child: &[Mark<'_>],
    count: usize,
) -> Result<usize, AllocError>
    ensures sum { IfOk result (λ sum. (all : List (List Mark)) → count ≡ length (written child.now) → length (all_written all) + count < 2 ^ 64 → AreSums by_uid.old all → sum ≡ length (all_written (parts.together (all ++ child.now ∷ []) child.now (parts.uid_of child.now)))) }
    ensures sums { OnOk result ((all : List (List Mark)) → count ≡ length (written child.now) → length (all_written all) + count < 2 ^ 64 → AreSums by_uid.old all → AreSums by_uid.new (all ++ child.now ∷ [])) }
{
    match uid_of(child) {
        Some(uid) => {
            let uid = String::from_str(alloc, uid)?;
            add_to(by_uid, uid, count)
        }
        None => Ok(count),
    }
}

impl Lengths {
    pub(crate) fn new(alloc: Global) -> Lengths
        ensures { AreLengths result [] }
    {
        Lengths {
            by_uid: BTreeMap::new(alloc),
            longest: 0,
        }
    }

    /// Adds a child of so many bytes.
    pub(crate) fn add(
        &mut self,
        alloc: Global,
        child: &[Mark<'_>],
        count: usize,
    ) -> Result<(), AllocError>
        ensures { OnOk result ((all : List (List Mark)) → count ≡ length (written child.now) → length (all_written all) + count < 2 ^ 64 → AreLengths self.old all → AreLengths self.new (all ++ child.now ∷ [])) }
    {
        let sum = sum_with(alloc, &mut self.by_uid, child, count)?;
        self.longest = greater(self.longest, sum);
        Ok(())
    }
}
