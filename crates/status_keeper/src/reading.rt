//! Reading the text of a status file.

ghost use Rattle.std.specs.Prelude.{◌≡◌, ◌≢◌, ◌∷◌, ◌&&◌, [], codes, length, Ok, IfSome, IfNone, IfOk, option_map, string_bytes};
ghost use Rattle.std.specs.Str.{bytes_eq};
ghost use Rattle.serde_json.specs.Find.{as_object};
ghost use Rattle.serde_json.specs.View.{view, members_view};
ghost use Rattle.status_keeper.specs.Idents.{IsRising};
ghost use Rattle.status_keeper.specs.Rows.{row_idents};
ghost use Rattle.status_keeper.specs.Status.{fp_from, fp_of, fp_at, text_at, row_of_parts, row_from, is_version, two_rows, status_rows, rows_from, kept_text};
ghost use Rattle.status_keeper.specs.Reading.{Gives};

use crate::keeper::KeeperError;
use crate::row::Row;
use hex::FromHex;
use item_text::Fp;
use serde_json::{Map, Value};
use std::alloc::Global;
use values::Text;

/// A version, if these digits are its hex text in lower case.
fn fp_if_lower(digits: &str, bytes: [u8; 32]) -> Option<Fp>
    ensures { result ≡ fp_from digits.now (Ok bytes) }
{
    let mut again = [0u8; 64];
    match hex::encode_to_slice(bytes, &mut again) {
        Ok(()) => {
            if again.as_slice() == digits.as_bytes() {
                Some(Fp(bytes))
            } else {
                None
            }
        }
        Err(_) => None,
    }
}

/// The version of 64 lower-case hex digits.
#[tactic(auto, unfolding(crate::specs::Status::fp_of))]
fn read_fp(digits: &str) -> Option<Fp>
    ensures { result ≡ fp_of digits.now }
{
    match <[u8; 32] as FromHex>::from_hex(digits) {
        Ok(bytes) => fp_if_lower(digits, bytes),
        Err(_) => None,
    }
}

fn fp_at(value: &Value) -> Option<Fp>
    ensures { result ≡ fp_at (view value.now) }
{
    match value {
        Value::String(digits) => read_fp(digits.as_str()),
        Value::Null => None,
        Value::Bool(_) => None,
        Value::Number(_) => None,
        Value::Array(_) => None,
        Value::Object(_) => None,
    }
}

/// A text or null.
fn text_at(value: Value) -> Option<Option<Text>>
    ensures { result ≡ text_at (view value) }
{
    match value {
        Value::Null => Some(None),
        Value::String(text) => Some(Some(Text::of(text))),
        Value::Bool(_) => None,
        Value::Number(_) => None,
        Value::Array(_) => None,
        Value::Object(_) => None,
    }
}

/// The parts of a row.
#[derive(Drop)]
struct Parts {
    fp: Value,
    href_a: Value,
    etag_a: Value,
    href_b: Value,
    etag_b: Value,
}

fn five(parts: Vec<Value>) -> Option<Parts>
    ensures some { IfSome result (λ p. parts.items ≡ p.fp ∷ p.href_a ∷ p.etag_a ∷ p.href_b ∷ p.etag_b ∷ []) }
    ensures none { IfNone result (length parts.items ≢ 5) }
{
    let mut rest = parts.into_iter();
    let fp = rest.next()?;
    let href_a = rest.next()?;
    let etag_a = rest.next()?;
    let href_b = rest.next()?;
    let etag_b = rest.next()?;
    if rest.next().is_some() {
        return None;
    }
    Some(Parts {
        fp,
        href_a,
        etag_a,
        href_b,
        etag_b,
    })
}

fn row_of_parts(ident: String, parts: Parts) -> Option<Row>
    ensures value { result ≡ row_of_parts (string_bytes ident) (view parts.fp) (view parts.href_a) (view parts.etag_a) (view parts.href_b) (view parts.etag_b) }
    ensures ident { IfSome result (λ row. row.ident ≡ string_bytes ident) }
{
    let Parts {
        fp,
        href_a,
        etag_a,
        href_b,
        etag_b,
    } = parts;
    let fp = fp_at(&fp)?;
    let href_a = text_at(href_a)?;
    let etag_a = text_at(etag_a)?;
    let href_b = text_at(href_b)?;
    let etag_b = text_at(etag_b)?;
    Some(Row {
        ident: Text::of(ident),
        fp,
        href_a,
        etag_a,
        href_b,
        etag_b,
    })
}

/// The row of an ident.
fn read_row(ident: String, value: Value) -> Option<Row>
    ensures value { result ≡ row_from (string_bytes ident) (view value) }
    ensures ident { IfSome result (λ row. row.ident ≡ string_bytes ident) }
{
    let Value::Array(parts) = value else {
        return None;
    };
    match five(parts) {
        Some(parts) => row_of_parts(ident, parts),
        None => None,
    }
}

/// The rows of these members, in byte order of idents.
fn read_rows(alloc: Global, members: Map<String, Value>) -> Result<Vec<Row>, KeeperError>
    ensures answer { Gives (rows_from 1 (members_view members.entries)) result }
    ensures rising { IfOk result (λ rows. IsRising (row_idents rows.items)) }
{
    let mut rest = members;
    let Ok(mut rows) = Vec::with_capacity(alloc, rest.len()) else {
        return Err(KeeperError::NoMemory);
    };
    let mut number: u32 = 1;
    'rows: while let Some((ident, value)) = rest.pop_first() {
        let Some(row) = read_row(ident, value) else {
            return Err(KeeperError::Damaged(number));
        };
        let Ok(()) = rows.push(row) else {
            return Err(KeeperError::NoMemory);
        };
        number = number.saturating_add(1);
    }
    Ok(rows)
}

/// Two members of an object, in byte order of keys.
#[derive(Drop)]
struct Members {
    first_key: String,
    first: Value,
    second_key: String,
    second: Value,
}

fn two_members(members: Map<String, Value>) -> Option<Members>
    ensures some { IfSome result (λ t. members.entries ≡ (t.first_key, t.first) ∷ (t.second_key, t.second) ∷ []) }
    ensures none { IfNone result (length members.entries ≢ 2) }
{
    let mut rest = members;
    let (first_key, first) = rest.pop_first()?;
    let (second_key, second) = rest.pop_first()?;
    if rest.pop_first().is_some() {
        return None;
    }
    Some(Members {
        first_key,
        first,
        second_key,
        second,
    })
}

fn is_form(rows_key: &str, version_key: &str, version: &Value) -> bool
    ensures { result ≡ (bytes_eq rows_key.now (codes "rows") && (bytes_eq version_key.now (codes "version") && is_version (view version.now))) }
{
    if rows_key != "rows" {
        return false;
    }
    if version_key != "version" {
        return false;
    }
    match version.as_u64() {
        Some(number) => number == 1,
        None => false,
    }
}

fn object_of(value: Value) -> Option<Map<String, Value>>
    ensures { option_map (λ m. members_view m.entries) result ≡ as_object (view value) }
{
    match value {
        Value::Object(members) => Some(members),
        Value::Null => None,
        Value::Bool(_) => None,
        Value::Number(_) => None,
        Value::String(_) => None,
        Value::Array(_) => None,
    }
}

fn rows_of_two(status: Members) -> Option<Map<String, Value>>
    ensures { option_map (λ m. members_view m.entries) result ≡ two_rows (string_bytes status.first_key) (view status.first) (string_bytes status.second_key) (view status.second) }
{
    let Members {
        first_key,
        first,
        second_key,
        second,
    } = status;
    if is_form(first_key.as_str(), second_key.as_str(), &second) {
        object_of(first)
    } else {
        None
    }
}

/// The rows of a status: the keys `rows` and `version`, and no others.
fn status_rows(value: Value) -> Option<Map<String, Value>>
    ensures { option_map (λ m. members_view m.entries) result ≡ status_rows (view value) }
{
    let Value::Object(members) = value else {
        return None;
    };
    match two_members(members) {
        Some(status) => rows_of_two(status),
        None => None,
    }
}

/// The rows that a text within the limit means.
#[tactic(auto, unfolding(crate::specs::Status::kept_text))]
pub(crate) fn read_status(alloc: Global, bytes: &[u8]) -> Result<Vec<Row>, KeeperError>
    ensures answer { Gives (kept_text bytes.now) result }
    ensures rising { IfOk result (λ rows. IsRising (row_idents rows.items)) }
{
    match Value::from_slice(alloc, bytes) {
        Ok(value) => match status_rows(value) {
            Some(members) => read_rows(alloc, members),
            None => Err(KeeperError::Damaged(0)),
        },
        Err(error) => {
            if error.is_memory() {
                Err(KeeperError::NoMemory)
            } else {
                Err(KeeperError::Damaged(0))
            }
        }
    }
}
