//! The file of items.

ghost use Rattle.std.specs.Prelude.{◌≡◌, ◌⊎◌, ◌≤◌, ◌∷◌, ◌++◌, [], ℕ, List, true, false, not, Ok, Err, Some, IfOk, IfErr, OnOk, if◌then◌else◌, map, length, string_bytes};
ghost use Rattle.std.specs.Prelude.{codes, ◌+◌, ◌||◌, nat_lt};
ghost use Rattle.std.specs.Str.{bytes_eq};
ghost use Rattle.item_text.specs.Items.{ItemValue, item_of};
ghost use Rattle.file_text.specs.Joining.{has, AreZones, AreChildren, IsJoining};
ghost use Rattle.file_text.specs.Joins as spec;
ghost use Rattle.file_text.specs.Parts as parts;
ghost use Rattle.file_text.specs.Spans.{parts_at};
ghost use Rattle.file_text.specs.Splits.{split};
ghost use Rattle.file_text.specs.Written.{written, folded, all_written};

use crate::lengths::{Lengths, greater};
use crate::marks::{Mark, Role, marks_of};
use crate::parts::{Level, PartKind, Span, cut, head_role, part_at, parts_of};
use crate::split::MAX_FILE;
use crate::written::{put_line, put_part, put_parts};
use bumpalo::Bump;
use item_text::lines::{Lines, without_mark};
use item_text::{Item, ItemError, MAX_ITEM};
use std::alloc::{AllocError, Global};
use std::collections::BTreeSet;
use values::Text;

/// What is written of the items so far.
#[derive(Drop)]
struct Joining {
    /// Whether a VCALENDAR was among them.
    begun: bool,
    /// The opening line and the properties of the first.
    head: String,
    /// Each time zone once.
    zones: String,
    /// The time zones that are written.
    seen: BTreeSet<Text>,
    children: String,
    lengths: Lengths,
    /// The items that are no VCALENDAR.
    others: String,
    /// The most bytes of one of these.
    longest_other: usize,
}

/// A file, and whether an item of it as it is split has more than 8 MiB.
#[derive(Drop)]
struct Measured {
    file: String,
    is_long: bool,
}

/// Whether a text stands in the set for the first time.
fn is_first(alloc: Global, seen: &mut BTreeSet<Text>, text: &str) -> Result<bool, AllocError>
    ensures first { IfOk result (λ first. first ≡ not (has seen.old.keys text.now)) }
    ensures sees { OnOk result ((q : List ℕ) → has seen.new.keys q ≡ (if bytes_eq text.now q then true else has seen.old.keys q)) }
{
    let copy = Text::copy_of(alloc, text)?;
    let first = seen.insert(copy)?;
    Ok(first)
}

/// Writes a time zone, where it wasn't written before.
fn put_zone(
    alloc: Global,
    zones: &mut String,
    seen: &mut BTreeSet<Text>,
    zone: &[Mark<'_>],
) -> Result<(), AllocError>
    ensures { OnOk result ((all : List (List ℕ)) → AreZones seen.old.keys (string_bytes zones.old) all → AreZones seen.new.keys (string_bytes zones.new) (all ++ written zone.now ∷ [])) }
{
    let mut text = String::new(alloc);
    put_part(&mut text, zone)?;
    if is_first(alloc, seen, text.as_str())? {
        zones.push_str(text.as_str())?;
        Ok(())
    } else {
        Ok(())
    }
}

/// Writes time zones that weren't written before.
fn put_zones(
    alloc: Global,
    zones: &mut String,
    seen: &mut BTreeSet<Text>,
    lines: &[Mark<'_>],
    spans: &[Span],
) -> Result<(), AllocError>
    ensures { OnOk result ((all : List (List ℕ)) → AreZones seen.old.keys (string_bytes zones.old) all → AreZones seen.new.keys (string_bytes zones.new) (all ++ map written (parts_at lines.now spans.now))) }
{
    for span in spans {
        put_zone(alloc, zones, seen, part_at(lines, *span))?;
    }
    Ok(())
}

/// Writes a child and counts it.
fn put_child(
    alloc: Global,
    out: &mut String,
    lengths: &mut Lengths,
    child: &[Mark<'_>],
) -> Result<(), AllocError>
    ensures { OnOk result ((all : List (List Mark)) → AreChildren (string_bytes out.old) lengths.old all → AreChildren (string_bytes out.new) lengths.new (all ++ child.now ∷ [])) }
{
    let before = out.len();
    put_part(out, child)?;
    let count = out.len() - before;
    lengths.add(alloc, child, count)
}

/// Writes children and counts them.
fn put_children(
    alloc: Global,
    out: &mut String,
    lengths: &mut Lengths,
    lines: &[Mark<'_>],
    spans: &[Span],
) -> Result<(), AllocError>
    ensures { OnOk result ((all : List (List Mark)) → AreChildren (string_bytes out.old) lengths.old all → AreChildren (string_bytes out.new) lengths.new (all ++ parts_at lines.now spans.now)) }
{
    for span in spans {
        put_child(alloc, out, lengths, part_at(lines, *span))?;
    }
    Ok(())
}

/// Writes the opening line and the properties of a VCALENDAR of these parts, where none has begun.
#[tactic(auto, unfolding(crate::specs::Joins::head_of))]
fn put_head(
    alloc: Global,
    begun: bool,
    head: &mut String,
    lines: &[Mark<'_>],
    spans: &[Span],
) -> Result<(), AllocError>
    ensures { parts_at lines.now spans.now ≡ parts.cut Level.Component lines.now → OnOk result (string_bytes head.new ≡ (if begun then string_bytes head.old else string_bytes head.old ++ spec.head_of lines.now)) }
{
    if begun {
        return Ok(());
    }
    put_line(head, "BEGIN:VCALENDAR")?;
    let properties = parts_of(alloc, PartKind::Property, lines, spans)?;
    put_parts(head, lines, &properties)?;
    Ok(())
}

impl Joining {
    fn new(alloc: Global) -> Joining
        ensures { IsJoining result [] }
    {
        Joining {
            begun: false,
            head: String::new(alloc),
            zones: String::new(alloc),
            seen: BTreeSet::new(alloc),
            children: String::new(alloc),
            lengths: Lengths::new(alloc),
            others: String::new(alloc),
            longest_other: 0,
        }
    }

    /// Adds an item that is a VCALENDAR.
    fn add_calendar(&mut self, alloc: Global, lines: &[Mark<'_>]) -> Result<(), AllocError>
        requires { spec.is_calendar (parts.head_role lines.now) ≡ true }
        ensures { OnOk result ((items : List (List Mark)) → IsJoining self.old items → IsJoining self.new (items ++ lines.now ∷ [])) }
    {
        let spans = cut(alloc, Level::Component, lines)?;
        put_head(alloc, self.begun, &mut self.head, lines, &spans)?;
        self.begun = true;
        let zones = parts_of(alloc, PartKind::Zone, lines, &spans)?;
        put_zones(alloc, &mut self.zones, &mut self.seen, lines, &zones)?;
        let children = parts_of(alloc, PartKind::Child, lines, &spans)?;
        put_children(
            alloc,
            &mut self.children,
            &mut self.lengths,
            lines,
            &children,
        )?;
        Ok(())
    }

    /// Adds an item that is no VCALENDAR.
    fn add_other(&mut self, lines: &[Mark<'_>]) -> Result<(), AllocError>
        requires { spec.is_calendar (parts.head_role lines.now) ≡ false }
        ensures { OnOk result ((items : List (List Mark)) → IsJoining self.old items → IsJoining self.new (items ++ lines.now ∷ [])) }
    {
        let before = self.others.len();
        put_part(&mut self.others, lines)?;
        let count = self.others.len() - before;
        self.longest_other = greater(self.longest_other, count);
        Ok(())
    }

    /// Adds an item.
    fn add(&mut self, alloc: Global, lines: &[Mark<'_>]) -> Result<(), AllocError>
        ensures { OnOk result ((items : List (List Mark)) → IsJoining self.old items → IsJoining self.new (items ++ lines.now ∷ [])) }
    {
        match head_role(lines) {
            Role::Calendar => self.add_calendar(alloc, lines),
            _ => self.add_other(lines),
        }
    }

    /// Adds the item of a text.
    fn add_text(&mut self, alloc: Global, text: &str) -> Result<(), ItemError>
        requires { (item : ItemValue) × (item_of text.now ≡ Some item) }
        ensures ok { OnOk result ((items : List (List Mark)) → IsJoining self.old items → IsJoining self.new (items ++ spec.item_marks text.now ∷ [])) }
        ensures err { IfErr result (λ e. e ≡ ItemError.NoMemory) }
    {
        let bump = Bump::new(alloc);
        let lines = match marks_of(alloc, &bump, Lines::of(without_mark(text))) {
            Ok(lines) => lines,
            Err(error) => return Err(error),
        };
        let Ok(()) = self.add(alloc, &lines) else {
            return Err(ItemError::NoMemory);
        };
        Ok(())
    }

    /// The file.
    #[tactic(auto, unfolding(crate::specs::Joins::joined))]
    fn finish(self) -> Result<Measured, AllocError>
        ensures file { IfOk result (λ joined. (items : List (List Mark)) → IsJoining self items → string_bytes joined.file ≡ spec.joined items) }
        ensures long { IfOk result (λ joined. (items : List (List Mark)) → IsJoining self items → joined.is_long ≡ (nat_lt 8_388_608 (spec.frame_of items + self.lengths.longest) || nat_lt 8_388_608 self.longest_other)) }
    {
        let Joining {
            begun,
            head: mut file,
            zones,
            seen: _,
            children,
            lengths,
            others,
            longest_other,
        } = self;
        file.push_str(zones.as_str())?;
        let front = file.len();
        file.push_str(children.as_str())?;
        let before = file.len();
        put_end(begun, &mut file)?;
        let frame = front + (file.len() - before);
        file.push_str(others.as_str())?;
        let is_long = is_any_long(frame, lengths.longest, longest_other);
        Ok(Measured { file, is_long })
    }
}

/// Whether two lengths together are more than 8 MiB.
fn is_over(first: usize, second: usize) -> bool
    ensures { result ≡ nat_lt 8_388_608 (first + second) }
{
    first.saturating_add(second) as u64 > MAX_ITEM
}

/// Whether the longest children in their frame, or the longest other item, have more than 8 MiB.
fn is_any_long(frame: usize, longest: usize, other: usize) -> bool
    ensures { result ≡ (nat_lt 8_388_608 (frame + longest) || nat_lt 8_388_608 other) }
{
    is_over(frame, longest) || is_over(0, other)
}

/// Writes the closing line, where a VCALENDAR has begun.
fn put_end(begun: bool, file: &mut String) -> Result<(), AllocError>
    ensures { OnOk result (string_bytes file.new ≡ (if begun then string_bytes file.old ++ folded (codes "END:VCALENDAR") else string_bytes file.old)) }
{
    if !begun {
        return Ok(());
    }
    put_line(file, "END:VCALENDAR")
}

/// The file of items, of any length.
fn joined(alloc: Global, items: &[Item]) -> Result<Measured, ItemError>
    ensures ok { IfOk result (λ joined. string_bytes joined.file ≡ spec.joined (map spec.item_marks (map (λ (item : ItemValue). item.text) items.now))) }
    ensures long { IfOk result (λ joined. length (string_bytes joined.file) ≤ 268_435_456 → joined.is_long ≡ spec.is_too_long (split (string_bytes joined.file))) }
    ensures err { IfErr result (λ e. e ≡ ItemError.NoMemory) }
{
    let mut joining = Joining::new(alloc);
    for item in items {
        let Ok(()) = joining.add_text(alloc, item.text()) else {
            return Err(ItemError::NoMemory);
        };
    }
    match joining.finish() {
        Ok(joined) => Ok(joined),
        Err(_) => Err(ItemError::NoMemory),
    }
}

/// The file of items (this project's own). It is read again by `split_file`.
///
/// Where some item is a VCALENDAR: one VCALENDAR with the properties of the first such item, each VTIMEZONE of the items in order whose
/// lines weren't written before, and all children in order. Then all other items in order. Each logical line is written trimmed and
/// folded; blank lines aren't written. Of no items it is no bytes.
///
/// `TooLong` exactly where the file has more than 256 MiB, or one of its items as split more than 8 MiB.
#[tactic(auto, unfolding(crate::specs::Joins::join, crate::specs::Joins::limited))]
pub fn join_file(alloc: Global, items: &[Item]) -> Result<Vec<u8>, ItemError>
    ensures ok { IfOk result (λ file. spec.join (map (λ (item : ItemValue). item.text) items.now) ≡ Ok file.items) }
    ensures err { IfErr result (λ e. (e ≡ ItemError.NoMemory) ⊎ ((e ≡ ItemError.TooLong) × (spec.join (map (λ (item : ItemValue). item.text) items.now) ≡ Err ItemError.TooLong))) }
{
    let Measured { file, is_long } = match joined(alloc, items) {
        Ok(joined) => joined,
        Err(error) => return Err(error),
    };
    if file.len() as u64 > MAX_FILE {
        return Err(ItemError::TooLong);
    }
    if is_long {
        return Err(ItemError::TooLong);
    }
    Ok(file.into_bytes())
}
