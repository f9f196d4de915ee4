//! Line ends and references in text (XML 1.0, sections 2.11 and 4).

ghost use Rattle.std.specs.Prelude.{◌≡◌, ◌≤◌, length, option_map, true, false, IfOk, encode_utf8, codes};
ghost use Rattle.std.specs.Option.{option_and_then};
ghost use Rattle.std.specs.Char.{digit_value};
ghost use Rattle.multistatus.specs.Texts as spec;
ghost use Rattle.multistatus.specs.Steps.{Gives};

use crate::MultiError;
use crate::text::{cut, stripped};
use bumpalo::Bump;
use bumpalo::collections::into_bump_str;
use std::alloc::AllocError;

/// The greatest code of a character.
const LAST_CHAR: u32 = 0x10_FFFF;

/// The text with each CR LF and each CR as a LF. It stands in the arena where it has a CR.
#[tactic(auto, unfolding(crate::specs::Texts::line_ends))]
pub(crate) fn line_ends<'a>(arena: &'a Bump, text: &'a str) -> Result<&'a str, AllocError>
    ensures { IfOk result (λ made. made.now ≡ spec.line_ends text.now) }
{
    match cut(text, "\r") {
        None => Ok(text),
        Some(_) => line_ends_made(arena, text),
    }
}

/// The same, as a text of its own.
#[tactic(auto, unfolding(crate::specs::Texts::line_ends))]
fn line_ends_made<'a>(arena: &'a Bump, text: &str) -> Result<&'a str, AllocError>
    ensures { IfOk result (λ made. made.now ≡ spec.line_ends text.now) }
{
    let mut made = String::with_capacity(arena, text.len())?;
    let mut rest = text;
    'lines: loop {
        let Some((line, behind)) = cut(rest, "\r") else {
            made.push_str(rest)?;
            return Ok(into_bump_str(made));
        };
        made.push_str(line)?;
        made.push_str("\n")?;
        rest = past_line_feed(behind);
    }
}

/// The text behind a line feed at its front, if one stands there.
fn past_line_feed(text: &str) -> &str
    ensures rest { spec.line_ends_after true text.now ≡ spec.line_ends_after false result.now }
    ensures shorter { length result.now ≤ length text.now }
{
    match stripped(text, "\n") {
        Some(rest) => rest,
        None => text,
    }
}

/// Text with its line ends as LF and its references resolved.
pub(crate) fn char_data<'a>(arena: &'a Bump, piece: &'a str) -> Result<&'a str, MultiError>
    ensures { Gives (λ text. text.now) result (spec.char_data piece.now) }
{
    let lines = line_ends(arena, piece)?;
    resolved(arena, lines)
}

/// Text with its references resolved. It stands in the arena where it has any.
#[tactic(auto, unfolding(crate::specs::Texts::resolved_text))]
fn resolved<'a>(arena: &'a Bump, text: &'a str) -> Result<&'a str, MultiError>
    ensures { Gives (λ text. text.now) result (spec.resolved_text text.now) }
{
    match cut(text, "&") {
        None => Ok(text),
        Some(_) => resolved_made(arena, text),
    }
}

/// The same, as a text of its own.
#[tactic(auto, unfolding(crate::specs::Texts::resolved_text))]
fn resolved_made<'a>(arena: &'a Bump, text: &str) -> Result<&'a str, MultiError>
    ensures { Gives (λ text. text.now) result (spec.resolved_text text.now) }
{
    let mut made = String::with_capacity(arena, text.len())?;
    let mut rest = text;
    'references: loop {
        let Some((plain, behind)) = cut(rest, "&") else {
            made.push_str(rest)?;
            return Ok(into_bump_str(made));
        };
        let Some((name, after)) = cut(behind, ";") else {
            return Err(MultiError::Bad);
        };
        let Some(char) = character_of(name) else {
            return Err(MultiError::Bad);
        };
        made.push_str(plain)?;
        made.push(char)?;
        rest = after;
    }
}

/// The character that a reference stands for, by what stands between `&` and `;`.
#[tactic(auto, unfolding(crate::specs::Texts::character_of))]
fn character_of(name: &str) -> Option<char>
    ensures { option_map (λ c. encode_utf8 c) result ≡ spec.character_of name.now }
{
    match name {
        "amp" => Some('&'),
        "lt" => Some('<'),
        "gt" => Some('>'),
        "quot" => Some('"'),
        "apos" => Some('\''),
        _ => numbered(name),
    }
}

/// The character that a reference by number stands for.
fn numbered(name: &str) -> Option<char>
    ensures { option_map (λ c. encode_utf8 c) result ≡ spec.number_named name.now (spec.stripped (codes "#x") name.now) }
{
    if let Some(digits) = stripped(name, "#x") {
        return char_numbered(16, digits.as_bytes());
    }
    match stripped(name, "#") {
        Some(digits) => char_numbered(10, digits.as_bytes()),
        None => None,
    }
}

/// The character that digits in a base stand for.
fn char_numbered(base: u32, digits: &[u8]) -> Option<char>
    requires some { 2 ≤ base }
    requires most { base ≤ 16 }
    ensures { option_map (λ c. encode_utf8 c) result ≡ spec.numbered base digits.now }
{
    match number_of(base, digits) {
        Some(number) => char_of(number),
        None => None,
    }
}

/// The number that digits in a base stand for; `None` where there are none or the number is beyond all characters.
fn number_of(base: u32, digits: &[u8]) -> Option<u32>
    requires some { 2 ≤ base }
    requires most { base ≤ 16 }
    ensures { option_and_then spec.bytes_of_char result ≡ spec.numbered base digits.now }
{
    if digits.is_empty() {
        return None;
    }
    let mut number = 0;
    for digit in digits {
        let value = digit_value(*digit);
        if base <= value {
            return None;
        }
        number = number * base + value;
        if LAST_CHAR < number {
            return None;
        }
    }
    Some(number)
}

/// The value of a digit or letter in base 36; 36 for any other byte.
fn digit_value(byte: u8) -> u32
    ensures { result ≡ digit_value byte }
{
    match byte {
        b'0'..=b'9' => u32::from(byte - b'0'),
        b'A'..=b'Z' => u32::from(byte - b'A') + 10,
        b'a'..=b'z' => u32::from(byte - b'a') + 10,
        _ => 36,
    }
}

/// The character of a code, where XML allows it.
fn char_of(number: u32) -> Option<char>
    ensures { option_map (λ c. encode_utf8 c) result ≡ spec.bytes_of_char number }
{
    if !is_xml_char(number) {
        return None;
    }
    char::from_u32(number)
}

/// Whether XML allows a character.
fn is_xml_char(number: u32) -> bool
    ensures { result ≡ spec.is_xml_char number }
{
    matches!(number, 9 | 10 | 13 | 0x20..=0xD7FF | 0xE000..=0xFFFD | 0x1_0000..=0x10_FFFF)
}
