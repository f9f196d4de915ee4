//! Lines of a key and a value, and what kind a line is.

ghost use Rattle.std.specs.Prelude.{◌≡◌, ◌<◌, not, map, length, position, string_bytes, Some, IfOk, IfSome};
ghost use Rattle.std.specs.Char.{to_ascii_lowercase};
ghost use Rattle.std.specs.Str.{IsAscii};
ghost use Rattle.std.specs.Option.{option_copied};
ghost use Rattle.config_ini.specs.Lines as spec;

use crate::kinds::{Key, LineKind};
use crate::lines::{is_blank, is_passed};
use crate::titles::section_line;
use std::alloc::{AllocError, Global};
use values::{Bytes, Text};

/// The ending of a key whose value says how to fetch the text.
const FETCH: &[u8] = b".fetch";

fn is_key_byte(byte: u8) -> bool
    ensures { result ≡ spec.is_key_byte byte }
{
    byte.is_ascii_alphanumeric() || (byte == b'_' || byte == b'.')
}

/// Where a key ends: the first byte that it can't have.
fn key_end(text: &[u8]) -> Option<usize>
    ensures first { result ≡ position (λ b. not (spec.is_key_byte b)) text.now }
    ensures within { IfSome result (λ at. at < length text.now) }
{
    text.iter().position(|b| !is_key_byte(*b))
}

/// The value behind `=` or `:`.
fn behind_mark(rest: &[u8]) -> Option<&[u8]>
    ensures { option_copied result ≡ spec.behind_mark rest.now }
{
    let mut left = rest;
    while let [first, behind @ ..] = left {
        if is_blank(*first) {
            left = behind;
        } else if *first == b'=' || *first == b':' {
            return Some(behind);
        } else {
            return None;
        }
    }
    None
}

/// ASCII bytes as a text.
pub(crate) fn ascii_text(alloc: Global, bytes: &[u8]) -> Result<Text, AllocError>
    requires { IsAscii bytes.now }
    ensures { IfOk result (λ text. text ≡ bytes.now) }
{
    match std::str::from_utf8(bytes) {
        Ok(text) => Text::copy_of(alloc, text),
        Err(_) => unreachable!(),
    }
}

fn lowered(alloc: Global, key: &[u8]) -> Result<String, AllocError>
    requires { IsAscii key.now }
    ensures { IfOk result (λ text. string_bytes text ≡ map to_ascii_lowercase key.now) }
{
    match std::str::from_utf8(key) {
        Ok(text) => {
            let mut lower = String::from_str(alloc, text)?;
            lower.make_ascii_lowercase();
            Ok(lower)
        }
        Err(_) => unreachable!(),
    }
}

/// A key in lower case, without `.fetch`.
fn key_from(alloc: Global, key: &[u8]) -> Result<Key, AllocError>
    requires { IsAscii key.now }
    ensures { IfOk result (λ found. found ≡ spec.key_from key.now) }
{
    if key.ends_with(FETCH) && FETCH.len() < key.len() {
        let (name, _) = key.split_at(key.len() - FETCH.len());
        Ok(Key {
            name: ascii_text(alloc, name)?,
            is_fetched: true,
        })
    } else {
        Ok(Key {
            name: ascii_text(alloc, key)?,
            is_fetched: false,
        })
    }
}

fn keyed(alloc: Global, key: &[u8], value: &[u8]) -> Result<LineKind, AllocError>
    requires { IsAscii key.now }
    ensures { IfOk result (λ kind. kind ≡ spec.keyed key.now (Some value.now)) }
{
    if key.is_empty() {
        return Ok(LineKind::Bad);
    }
    let lower = lowered(alloc, key)?;
    let key = key_from(alloc, lower.as_bytes())?;
    let value = Bytes::of(Vec::from_slice(alloc, value)?);
    Ok(LineKind::Key { key, value })
}

fn cut_key(alloc: Global, text: &[u8], at: usize) -> Result<LineKind, AllocError>
    requires { position (λ b. not (spec.is_key_byte b)) text.now ≡ Some at }
    ensures { IfOk result (λ kind. kind ≡ spec.key_at (Some at) text.now) }
{
    let (key, rest) = text.split_at(at);
    match behind_mark(rest) {
        Some(value) => keyed(alloc, key, value),
        None => Ok(LineKind::Bad),
    }
}

fn key_line(alloc: Global, text: &[u8]) -> Result<LineKind, AllocError>
    ensures { IfOk result (λ kind. kind ≡ spec.key_kind text.now) }
{
    match key_end(text) {
        Some(at) => cut_key(alloc, text, at),
        None => Ok(LineKind::Bad),
    }
}

fn visible_kind(alloc: Global, line: &[u8]) -> Result<LineKind, AllocError>
    ensures { IfOk result (λ kind. kind ≡ spec.visible_kind line.now) }
{
    match line {
        [] => Ok(LineKind::Passed),
        [first, rest @ ..] => {
            if is_blank(*first) {
                Ok(LineKind::Continued)
            } else if *first == b'[' {
                section_line(alloc, rest)
            } else {
                key_line(alloc, line)
            }
        }
    }
}

/// What a physical line is.
#[tactic(auto, unfolding(crate::specs::Lines::kind_of))]
pub(crate) fn kind_of(alloc: Global, line: &[u8]) -> Result<LineKind, AllocError>
    ensures { IfOk result (λ kind. kind ≡ spec.kind_of line.now) }
{
    if is_passed(line) {
        Ok(LineKind::Passed)
    } else {
        visible_kind(alloc, line)
    }
}
