//! Items: read from their text.

ghost use Rattle.std.specs.Prelude.{◌≡◌, ◌⊎◌, ◌<◌, ◌≤◌, ◌^◌, Ok, Err, Some, None, IfOk, IfErr, [], true, map, is_some, length};
ghost use Rattle.std.specs.Option.{option_map, unwrap_or};
ghost use Rattle.hex.specs.Hex.{encode_lower};
ghost use Rattle.item_text.specs.Components.{placed};
ghost use Rattle.item_text.specs.AnotherUid.{IsWithUid, IsRefused};
ghost use Rattle.item_text.specs.Plain.{is_plain};
ghost use Rattle.item_text.specs.Refusals as refused;
ghost use Rattle.item_text.specs.Items.{item_of, read_item, item_of_text, uid_among};
ghost use Rattle.item_text.specs.Seen.{left_behind, count_of, size_of};
ghost use Rattle.item_text.specs.Walks.{children_seen};
ghost use Rattle.item_text.specs.Read.{IsTold};

use crate::children::{Children, calendar_fault};
use crate::edit::with_uid;
use crate::fp::{Fp, fp_hex};
use crate::lines::{Lines, without_mark};
use crate::normal::fingerprint;
use crate::walk::{Walk, go_over};
use bumpalo::Bump;
use std::alloc::{AllocError, Global};
use std::marker::Model;
use thiserror::Error;
use values::Text;

/// The longest text of an item, in bytes.
pub const MAX_ITEM: u64 = 8_388_608;

/// Why a text is not an item. Lines are numbered from 1, as they stand in the text.
#[derive(Debug, Drop, Error)]
pub enum ItemError {
    /// It has more than 8 MiB.
    #[error("too long")]
    TooLong,
    /// Its longest UTF-8 front has this many bytes.
    #[error("not UTF-8 at byte {place}")]
    NotUtf8 { place: u64 },
    /// The first line that isn't blank opens no component, or a VCALENDAR has no child.
    #[error("no component at line {line}")]
    NoComponent { line: u32 },
    /// A line closes a component that isn't the innermost one open, or the text ends within one.
    #[error("unbalanced at line {line}")]
    Unbalanced { line: u32 },
    /// A line behind the component isn't blank.
    #[error("text outside the component at line {line}")]
    Extra { line: u32 },
    /// A UID has more than 500 bytes.
    #[error("long UID at line {line}")]
    LongUid { line: u32 },
    /// Of several children of a VCALENDAR one has no UID, or not that of the first.
    #[error("several UIDs at line {line}")]
    TwoUids { line: u32 },
    #[error("out of memory")]
    NoMemory,
}

/// A calendar or contact item, as its text.
#[derive(Debug, Drop)]
pub struct Item {
    text: Text,
    ident: Text,
    has_uid: bool,
    version: Fp,
}

impl Model for Item {
    ghost use Rattle.std.specs.Prelude.{◌≡◌, Some};
    ghost use Rattle.item_text.specs.Items.{ItemValue, item_of};

    ghost Value = { ItemValue };

    ghost view = { λ i. record { text = i.text; ident = i.ident; has_uid = i.has_uid; version = i.version.0 } };

    ghost invariant = { λ i. item_of i.text ≡ Some (record { text = i.text; ident = i.ident; has_uid = i.has_uid; version = i.version.0 }) };
}

/// What the lines of a text tell of the item.
#[derive(Drop)]
struct Told {
    ident: Text,
    has_uid: bool,
    version: Fp,
}

/// The refusal that the children of a VCALENDAR give, whose opening line has the number.
#[tactic(auto, unfolding(crate::specs::Refusals::fault_of_calendar))]
fn children_fault(
    calendar: Option<u32>,
    children: Children<'_>,
) -> Result<Option<ItemError>, AllocError>
    ensures { IfOk result (λ fault. fault ≡ refused.fault_of_calendar calendar (children_seen children.entry [])) }
{
    match calendar {
        Some(number) => {
            let all = children.all()?;
            Ok(calendar_fault(number, &all))
        }
        None => Ok(None),
    }
}

/// The ident: the UID, or else the version in hex.
fn ident_of(alloc: Global, uid: Option<&str>, version: Fp) -> Result<Text, AllocError>
    ensures { IfOk result (λ ident. ident ≡ unwrap_or (option_map (λ x. x.now) uid.entry) (encode_lower version.0)) }
{
    match uid {
        Some(uid) => Text::copy_of(alloc, uid),
        None => fp_hex(alloc, version),
    }
}

/// What the lines of a text tell.
fn told_by<'a>(alloc: Global, bump: &'a Bump, mut lines: Lines<'a>) -> Result<Told, ItemError>
    requires { size_of lines < 2 ^ 32 }
    ensures ok { IfOk result (λ told. (refused.refusal_of (count_of lines.entry) (left_behind None lines.entry) ≡ None) × IsTold told (placed (left_behind None lines.entry))) }
    ensures err { IfErr result (λ e. (e ≡ ItemError.NoMemory) ⊎ (refused.refusal_of (count_of lines.entry) (left_behind None lines.entry) ≡ Some e)) }
{
    let walk = match go_over(alloc, bump, &mut lines) {
        Ok(walk) => walk,
        Err(error) => return Err(error),
    };
    if let Some(error) = walk.stack.end_fault(lines.count()) {
        return Err(error);
    }
    let Walk {
        stack: _,
        uid,
        calendar,
        children,
        mut kept,
    } = walk;
    match children_fault(calendar, children) {
        Ok(None) => {}
        Ok(Some(error)) => return Err(error),
        Err(_) => return Err(ItemError::NoMemory),
    }
    let version = fingerprint(&mut kept);
    let Ok(ident) = ident_of(alloc, uid, version) else {
        return Err(ItemError::NoMemory);
    };
    Ok(Told {
        ident,
        has_uid: uid.is_some(),
        version,
    })
}

/// What a text tells.
fn told_by_text(alloc: Global, text: &str) -> Result<Told, ItemError>
    requires { length text.now ≤ 8_388_608 }
    ensures ok { IfOk result (λ told. item_of_text text.now ≡ Ok (record { text = text.now; ident = told.ident; has_uid = told.has_uid; version = told.version.0 })) }
    ensures err { IfErr result (λ e. (e ≡ ItemError.NoMemory) ⊎ (item_of_text text.now ≡ Err e)) }
{
    let bump = Bump::new(alloc);
    match told_by(alloc, &bump, Lines::of(without_mark(text))) {
        Ok(told) => Ok(told),
        Err(error) => Err(error),
    }
}

impl Item {
    /// Reads an item. The lowest line that shows a fault is told; of the children of a VCALENDAR only where no line has one.
    #[tactic(auto, unfolding(crate::specs::Items::read_item, crate::specs::Items::item_of))]
    pub fn read(alloc: Global, text: &[u8]) -> Result<Item, ItemError>
        ensures answer { (result ≡ Err ItemError.NoMemory) ⊎ (result ≡ read_item text.now) }
        ensures kept { IfOk result (λ item. (item.text ≡ text.now) × (item_of item.text ≡ Some item)) }
    {
        if text.len() as u64 > MAX_ITEM {
            return Err(ItemError::TooLong);
        }
        let utf8 = match std::str::from_utf8(text) {
            Ok(utf8) => utf8,
            Err(error) => {
                return Err(ItemError::NotUtf8 {
                    place: error.valid_up_to() as u64,
                });
            }
        };
        let told = match told_by_text(alloc, utf8) {
            Ok(told) => told,
            Err(error) => return Err(error),
        };
        let Ok(text) = Text::copy_of(alloc, utf8) else {
            return Err(ItemError::NoMemory);
        };
        let Told {
            ident,
            has_uid,
            version,
        } = told;
        Ok(Item {
            text,
            ident,
            has_uid,
            version,
        })
    }

    /// The item with another UID, where that is a plain ident: 1 to 100 bytes of ASCII letters, digits, `_`, `-`, `.` and `@`, the
    /// first of them no `.` (this project's own rule). Each child of a VCALENDAR other than VTIMEZONE, or the top component of another
    /// name, has the line `UID:` and the new UID, ended by CRLF, in place of its first UID line with all that is folded into it, or
    /// directly behind its opening line where it has no UID (RFC 5545, section 3.8.4.7; RFC 6350, section 6.7.6). All other bytes stay.
    /// `TooLong` where that text has more than 8 MiB.
    pub fn with_uid(&self, alloc: Global, uid: &str) -> Result<Item, ItemError>
        requires { is_plain uid.now ≡ true }
        ensures item { IfOk result (λ item. IsWithUid self.now uid.now item) }
        ensures refused { IfErr result (IsRefused self.now.text uid.now) }
    {
        let Ok(edited) = with_uid(alloc, self.text.as_str(), uid) else {
            return Err(ItemError::NoMemory);
        };
        if edited.len() as u64 > MAX_ITEM {
            return Err(ItemError::TooLong);
        }
        let Ok(ident) = Text::copy_of(alloc, uid) else {
            return Err(ItemError::NoMemory);
        };
        Ok(Item {
            text: Text::of(edited),
            ident,
            has_uid: true,
            version: self.version,
        })
    }

    pub fn text(&self) -> &str
        ensures value { result.now ≡ self.now.text }
        ensures is_item { item_of self.now.text ≡ Some self.now }
    {
        self.text.as_str()
    }

    pub fn ident(&self) -> &str
        ensures value { result.now ≡ self.now.ident }
        ensures is_item { item_of self.now.text ≡ Some self.now }
    {
        self.ident.as_str()
    }

    /// Whether its ident is a UID of the text, and not its fingerprint.
    pub fn has_uid(&self) -> bool
        ensures value { result ≡ self.now.has_uid }
        ensures is_item { item_of self.now.text ≡ Some self.now }
    {
        self.has_uid
    }

    pub fn fp(&self) -> Fp
        ensures value { result.0 ≡ self.now.version }
        ensures is_item { item_of self.now.text ≡ Some self.now }
    {
        self.version
    }
}
