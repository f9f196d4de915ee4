//! What the values of keys mean.

ghost use Rattle.std.specs.Prelude.{◌≡◌, ◌==◌, [], option_map, IfOk};
ghost use Rattle.std.specs.List.{list_any};
ghost use Rattle.std.specs.Option.{option_copied};
ghost use Rattle.std.specs.Str.{bytes_eq};
ghost use Rattle.config_model.specs.Meanings as spec;

use crate::storage_kind::StorageKind;
use crate::wanted::Wanted;
use config_ini::{Part, Setting};
use std::alloc::{AllocError, Global};
use values::{Sequence, Text};

/// The longest name of a collection, in bytes.
const MAX_COLLECTION: usize = 200;

pub(crate) fn text_in(value: &Setting) -> Option<&str>
    ensures { option_copied result ≡ spec.text_in value.now }
{
    match value {
        Setting::Text(text) => Some(text.as_str()),
        Setting::Null => None,
        Setting::Truth(_) => None,
        Setting::List(_) => None,
        Setting::Other => None,
    }
}

pub(crate) fn truth_in(value: &Setting) -> Option<bool>
    ensures { result ≡ spec.truth_in value.now }
{
    match value {
        Setting::Truth(is_true) => Some(*is_true),
        Setting::Null => None,
        Setting::Text(_) => None,
        Setting::List(_) => None,
        Setting::Other => None,
    }
}

fn kind_named(name: &str) -> Option<StorageKind>
    ensures { result ≡ spec.kind_named name.now }
{
    if name == "filesystem" {
        return Some(StorageKind::Filesystem);
    }
    if name == "singlefile" {
        return Some(StorageKind::Singlefile);
    }
    if name == "caldav" {
        return Some(StorageKind::Caldav);
    }
    if name == "carddav" {
        return Some(StorageKind::Carddav);
    }
    None
}

pub(crate) fn kind_in(value: &Setting) -> Option<StorageKind>
    ensures { result ≡ spec.kind_in value.now }
{
    match text_in(value) {
        Some(name) => kind_named(name),
        None => None,
    }
}

fn begins_control(bytes: &[u8]) -> bool
    ensures { result ≡ spec.begins_control bytes.now }
{
    match bytes {
        [] => false,
        [first, ..] => 128 <= *first && *first <= 159,
    }
}

/// Whether a control character stands in a text.
#[tactic(auto, unfolding(crate::specs::Meanings::has_control))]
pub fn has_control(text: &str) -> bool
    ensures { result ≡ spec.has_control text.now }
{
    let mut left = text.as_bytes();
    while let [first, rest @ ..] = left {
        if *first < 32 || (*first == 127 || (*first == 194 && begins_control(rest))) {
            return true;
        }
        left = rest;
    }
    false
}

fn has_slash(name: &str) -> bool
    ensures { result ≡ list_any (λ b. b == 47) name.now }
{
    name.as_bytes().iter().any(|b| *b == b'/')
}

fn is_dots(name: &str) -> bool
    ensures { result ≡ spec.is_dots name.now }
{
    name == "." || name == ".."
}

/// Whether a collection may have this name.
fn is_collection(name: &str) -> bool
    ensures { result ≡ spec.is_collection name.now }
{
    0 < name.len()
        && (name.len() <= MAX_COLLECTION
            && (!has_slash(name) && (!has_control(name) && !is_dots(name))))
}

fn own_name(alloc: Global, name: &str) -> Result<Option<Wanted>, AllocError>
    ensures { IfOk result (λ wanted. wanted ≡ spec.own_name name.now) }
{
    if is_collection(name) {
        Ok(Some(Wanted::Named {
            name: Text::copy_of(alloc, name)?,
            a: Text::copy_of(alloc, name)?,
            b: Text::copy_of(alloc, name)?,
        }))
    } else {
        Ok(None)
    }
}

fn wanted_named(alloc: Global, text: &str) -> Result<Option<Wanted>, AllocError>
    ensures { IfOk result (λ wanted. wanted ≡ spec.wanted_named text.now) }
{
    if text == "from a" {
        return Ok(Some(Wanted::FromA));
    }
    if text == "from b" {
        return Ok(Some(Wanted::FromB));
    }
    own_name(alloc, text)
}

fn three_names(alloc: Global, name: &str, a: &str, b: &str) -> Result<Option<Wanted>, AllocError>
    ensures { IfOk result (λ wanted. wanted ≡ spec.three_names name.now a.now b.now) }
{
    if is_collection(name) && (is_collection(a) && is_collection(b)) {
        Ok(Some(Wanted::Named {
            name: Text::copy_of(alloc, name)?,
            a: Text::copy_of(alloc, a)?,
            b: Text::copy_of(alloc, b)?,
        }))
    } else {
        Ok(None)
    }
}

fn wanted_listed(alloc: Global, texts: &[Text]) -> Result<Option<Wanted>, AllocError>
    ensures { IfOk result (λ wanted. wanted ≡ spec.wanted_listed texts.now) }
{
    match texts {
        [name, a, b] => three_names(alloc, name.as_str(), a.as_str(), b.as_str()),
        _ => Ok(None),
    }
}

fn wanted_of(alloc: Global, part: &Part) -> Result<Option<Wanted>, AllocError>
    ensures { IfOk result (λ wanted. wanted ≡ spec.wanted_of part.now) }
{
    match part {
        Part::Text(text) => wanted_named(alloc, text.as_str()),
        Part::Texts(texts) => wanted_listed(alloc, texts.as_slice()),
    }
}

/// The collections that a pair wants.
fn wanted_in(alloc: Global, parts: &[Part]) -> Result<Option<Sequence<Wanted>>, AllocError>
    ensures { IfOk result (λ wanted. wanted ≡ spec.all_found spec.wanted_of parts.now) }
{
    let mut all = Sequence::new(alloc);
    for part in parts {
        match wanted_of(alloc, part)? {
            Some(wanted) => all.push(wanted)?,
            None => return Ok(None),
        }
    }
    Ok(Some(all))
}

pub(crate) fn collections_in(
    alloc: Global,
    value: &Setting,
) -> Result<Option<Option<Sequence<Wanted>>>, AllocError>
    ensures { IfOk result (λ wanted. wanted ≡ spec.collections_in value.now) }
{
    match value {
        Setting::Null => Ok(Some(None)),
        Setting::List(parts) => match wanted_in(alloc, parts.as_slice())? {
            Some(wanted) => Ok(Some(Some(wanted))),
            None => Ok(None),
        },
        Setting::Truth(_) => Ok(None),
        Setting::Text(_) => Ok(None),
        Setting::Other => Ok(None),
    }
}

fn plain_copy(alloc: Global, part: &Part) -> Result<Option<Text>, AllocError>
    ensures { IfOk result (λ text. text ≡ spec.plain part.now) }
{
    match part {
        Part::Text(text) => Ok(Some(Text::copy_of(alloc, text.as_str())?)),
        Part::Texts(_) => Ok(None),
    }
}

/// The parts, if all are texts.
pub(crate) fn plain_parts(
    alloc: Global,
    parts: &[Part],
) -> Result<Option<Sequence<Text>>, AllocError>
    ensures { IfOk result (λ texts. texts ≡ spec.all_found spec.plain parts.now) }
{
    let mut all = Sequence::new(alloc);
    for part in parts {
        match plain_copy(alloc, part)? {
            Some(text) => all.push(text)?,
            None => return Ok(None),
        }
    }
    Ok(Some(all))
}

fn is_word(text: &Text, word: &str) -> bool
    ensures { result ≡ bytes_eq text.now word.now }
{
    text.as_str() == word
}

/// Whether these words run a command.
fn is_command(words: &[Text]) -> bool
    ensures { result ≡ spec.is_command words.now }
{
    match words {
        [word, _, ..] => is_word(word, "command"),
        _ => false,
    }
}

/// Whether these words are a line of the shell or a question.
fn is_one_text(words: &[Text]) -> bool
    ensures { result ≡ spec.is_one_text words.now }
{
    match words {
        [word, _] => is_word(word, "shell") || is_word(word, "prompt"),
        _ => false,
    }
}

fn fetching(words: Sequence<Text>) -> Option<Sequence<Text>>
    ensures { result ≡ spec.fetching words }
{
    if is_command(words.as_slice()) || is_one_text(words.as_slice()) {
        Some(words)
    } else {
        None
    }
}

/// How a text is fetched.
pub(crate) fn fetch_in(alloc: Global, value: &Setting) -> Result<Option<Sequence<Text>>, AllocError>
    ensures { IfOk result (λ words. words ≡ spec.fetch_in value.now) }
{
    let Setting::List(parts) = value else {
        return Ok(None);
    };
    match plain_parts(alloc, parts.as_slice())? {
        Some(words) => Ok(fetching(words)),
        None => Ok(None),
    }
}
