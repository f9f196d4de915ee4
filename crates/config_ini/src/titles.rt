//! Heads of sections.

ghost use Rattle.std.specs.Prelude.{◌≡◌, true, string_bytes, IfOk};
ghost use Rattle.std.specs.List.{list_all};
ghost use Rattle.config_ini.specs.Lines as spec;

use crate::kinds::{LineKind, SectionKind, Title};
use crate::lines::{are_blank, first_blank, first_bracket};
use std::alloc::{AllocError, Global};
use values::Text;

fn is_name_byte(byte: u8) -> bool
    ensures { result ≡ spec.is_name_byte byte }
{
    byte.is_ascii_alphanumeric() || (byte == b'_' || byte == b'-')
}

fn are_name_bytes(name: &[u8]) -> bool
    ensures { result ≡ list_all spec.is_name_byte name.now }
{
    name.iter().all(|b| is_name_byte(*b))
}

fn is_name(name: &[u8]) -> bool
    ensures { result ≡ spec.is_name name.now }
{
    0 < name.len() && are_name_bytes(name)
}

/// A name as a text: its bytes are ASCII.
fn name_text(alloc: Global, name: &[u8]) -> Result<Text, AllocError>
    requires { spec.is_name name.now ≡ true }
    ensures { IfOk result (λ text. text ≡ name.now) }
{
    match std::str::from_utf8(name) {
        Ok(text) => Text::copy_of(alloc, text),
        Err(_) => unreachable!(),
    }
}

fn titled(alloc: Global, kind: SectionKind, name: &[u8]) -> Result<Option<Title>, AllocError>
    ensures { IfOk result (λ title. title ≡ spec.titled kind name.now) }
{
    if is_name(name) {
        let name = name_text(alloc, name)?;
        Ok(Some(Title { kind, name }))
    } else {
        Ok(None)
    }
}

fn named(alloc: Global, word: &[u8], name: &[u8]) -> Result<Option<Title>, AllocError>
    ensures { IfOk result (λ title. title ≡ spec.named word.now name.now) }
{
    if word == b"pair".as_slice() {
        return titled(alloc, SectionKind::Pair, name);
    }
    if word == b"storage".as_slice() {
        return titled(alloc, SectionKind::Storage, name);
    }
    Ok(None)
}

fn behind_blank(alloc: Global, word: &[u8], rest: &[u8]) -> Result<Option<Title>, AllocError>
    ensures { IfOk result (λ title. title ≡ spec.behind_blank word.now rest.now) }
{
    match rest {
        [] => Ok(None),
        [_, name @ ..] => named(alloc, word, name),
    }
}

fn general(alloc: Global, inner: &[u8]) -> Option<Title>
    ensures { result ≡ spec.general inner.now }
{
    if inner == b"general".as_slice() {
        Some(Title {
            kind: SectionKind::General,
            name: Text::of(String::new(alloc)),
        })
    } else {
        None
    }
}

/// What stands between the brackets.
fn title_in(alloc: Global, inner: &[u8]) -> Result<Option<Title>, AllocError>
    ensures { IfOk result (λ title. title ≡ spec.title_in inner.now) }
{
    match first_blank(inner) {
        None => Ok(general(alloc, inner)),
        Some(at) => {
            let (word, rest) = inner.split_at(at);
            behind_blank(alloc, word, rest)
        }
    }
}

fn closed(alloc: Global, inner: &[u8], rest: &[u8]) -> Result<Option<Title>, AllocError>
    ensures { IfOk result (λ title. title ≡ spec.closed inner.now rest.now) }
{
    match rest {
        [] => Ok(None),
        [_, behind @ ..] => {
            if are_blank(behind) {
                title_in(alloc, inner)
            } else {
                Ok(None)
            }
        }
    }
}

/// The head of a section, behind its opening bracket.
fn title_of(alloc: Global, text: &[u8]) -> Result<Option<Title>, AllocError>
    ensures { IfOk result (λ title. title ≡ spec.title_of text.now) }
{
    match first_bracket(text) {
        None => Ok(None),
        Some(at) => {
            let (inner, rest) = text.split_at(at);
            closed(alloc, inner, rest)
        }
    }
}

pub(crate) fn section_line(alloc: Global, text: &[u8]) -> Result<LineKind, AllocError>
    ensures { IfOk result (λ kind. kind ≡ spec.section_kind (spec.title_of text.now)) }
{
    match title_of(alloc, text)? {
        Some(title) => Ok(LineKind::Section(title)),
        None => Ok(LineKind::Bad),
    }
}
