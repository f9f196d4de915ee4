//! The values of keys: JSON, of which a configuration uses null, truth values, texts and lists.

ghost use Rattle.std.specs.Prelude.{◌≡◌, IfOk};
ghost use Rattle.serde_json.specs.View.{view, items_view};
ghost use Rattle.config_ini.specs.Answers.{Gives};
ghost use Rattle.config_ini.specs.Settings as spec;

use crate::error::ConfigError;
use crate::kinds::{Key, Written};
use serde_json::Value;
use std::alloc::{AllocError, Global};
use values::{Sequence, Text};

/// A value.
#[derive(Drop)]
pub enum Setting {
    Null,
    Truth(bool),
    Text(Text),
    List(Sequence<Part>),
    /// A number, an object, or a list with other parts than texts and lists of texts. No key has such a value.
    Other,
}

/// A part of a list.
#[derive(Drop)]
pub enum Part {
    Text(Text),
    Texts(Sequence<Text>),
}

/// A key with its value.
#[derive(Drop)]
pub struct Entry {
    pub number: u32,
    pub key: Key,
    pub value: Setting,
}

fn text_of(value: Value) -> Option<Text>
    ensures { result ≡ spec.text_of (view value) }
{
    match value {
        Value::String(text) => Some(Text::of(text)),
        Value::Null => None,
        Value::Bool(_) => None,
        Value::Number(_) => None,
        Value::Array(_) => None,
        Value::Object(_) => None,
    }
}

/// A list of texts.
fn texts_of(alloc: Global, values: Vec<Value>) -> Result<Option<Sequence<Text>>, AllocError>
    ensures { IfOk result (λ texts. texts ≡ spec.all_of spec.text_of (items_view values.items)) }
{
    let mut rest = values.into_iter();
    let mut texts = Vec::new(alloc);
    'texts: while let Some(value) = rest.next() {
        match text_of(value) {
            Some(text) => texts.push(text)?,
            None => return Ok(None),
        }
    }
    Ok(Some(Sequence::of(texts)))
}

fn inner_list(alloc: Global, values: Vec<Value>) -> Result<Option<Part>, AllocError>
    ensures { IfOk result (λ part. part ≡ spec.inner_list (items_view values.items)) }
{
    match texts_of(alloc, values)? {
        Some(texts) => Ok(Some(Part::Texts(texts))),
        None => Ok(None),
    }
}

fn part_of(alloc: Global, value: Value) -> Result<Option<Part>, AllocError>
    ensures { IfOk result (λ part. part ≡ spec.part_of (view value)) }
{
    match value {
        Value::String(text) => Ok(Some(Part::Text(Text::of(text)))),
        Value::Array(values) => inner_list(alloc, values),
        Value::Null => Ok(None),
        Value::Bool(_) => Ok(None),
        Value::Number(_) => Ok(None),
        Value::Object(_) => Ok(None),
    }
}

fn parts_of(alloc: Global, values: Vec<Value>) -> Result<Option<Sequence<Part>>, AllocError>
    ensures { IfOk result (λ parts. parts ≡ spec.all_of spec.part_of (items_view values.items)) }
{
    let mut rest = values.into_iter();
    let mut parts = Vec::new(alloc);
    'parts: while let Some(value) = rest.next() {
        match part_of(alloc, value)? {
            Some(part) => parts.push(part)?,
            None => return Ok(None),
        }
    }
    Ok(Some(Sequence::of(parts)))
}

fn list_of(alloc: Global, values: Vec<Value>) -> Result<Setting, AllocError>
    ensures { IfOk result (λ setting. setting ≡ spec.list_of (items_view values.items)) }
{
    match parts_of(alloc, values)? {
        Some(parts) => Ok(Setting::List(parts)),
        None => Ok(Setting::Other),
    }
}

fn setting_of(alloc: Global, value: Value) -> Result<Setting, AllocError>
    ensures { IfOk result (λ setting. setting ≡ spec.setting_of (view value)) }
{
    match value {
        Value::Null => Ok(Setting::Null),
        Value::Bool(is_true) => Ok(Setting::Truth(is_true)),
        Value::String(text) => Ok(Setting::Text(Text::of(text))),
        Value::Array(values) => list_of(alloc, values),
        Value::Number(_) => Ok(Setting::Other),
        Value::Object(_) => Ok(Setting::Other),
    }
}

/// The value that bytes are, if they are JSON.
fn read_value(alloc: Global, number: u32, bytes: &[u8]) -> Result<Setting, ConfigError>
    ensures { Gives (spec.value_of number bytes.now) result }
{
    match Value::from_slice(alloc, bytes) {
        Ok(value) => {
            let setting = setting_of(alloc, value)?;
            Ok(setting)
        }
        Err(error) => {
            if error.is_memory() {
                Err(ConfigError::NoMemory)
            } else {
                Err(ConfigError::BadValue(number))
            }
        }
    }
}

/// A key with its value read.
pub(crate) fn entry_of(alloc: Global, written: Written) -> Result<Entry, ConfigError>
    ensures { Gives (spec.entry_of written) result }
{
    let Written { number, key, value } = written;
    let value = read_value(alloc, number, value.as_slice())?;
    Ok(Entry { number, key, value })
}
