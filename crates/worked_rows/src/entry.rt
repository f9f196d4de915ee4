//! What stands under the keys of a file of rows, taken by its kind.

use crate::error::RowError;
use crate::json::Json;
use std::alloc::Global;

/// A value and the key under which it stands.
#[derive(Clone, Copy)]
pub struct Entry<'a> {
    alloc: Global,
    pub key: &'a str,
    pub value: &'a Json,
}

/// An object whose keys are all known.
#[derive(Clone, Copy)]
pub struct Object<'a> {
    alloc: Global,
    value: &'a Json,
}

impl<'a> Entry<'a> {
    pub fn of(alloc: Global, key: &'a str, value: &'a Json) -> Entry<'a> {
        Entry { alloc, key, value }
    }

    /// The error that the value is no such thing.
    pub fn is_no(self, wanted: &'static str) -> RowError {
        match String::from_str(self.alloc, self.key) {
            Ok(key) => RowError::WrongKind { key, wanted },
            Err(error) => RowError::from(error),
        }
    }

    pub fn text(self) -> Result<&'a str, RowError> {
        match self.value {
            Json::Text(text) => Ok(text.as_str()),
            _ => Err(self.is_no("text")),
        }
    }

    pub fn flag(self) -> Result<bool, RowError> {
        match self.value {
            Json::Flag(flag) => Ok(*flag),
            _ => Err(self.is_no("true or false")),
        }
    }

    pub fn number(self) -> Result<u64, RowError> {
        match self.value {
            Json::Number(number) => Ok(*number),
            _ => Err(self.is_no("number")),
        }
    }

    pub fn list(self) -> Result<&'a [Json], RowError> {
        match self.value {
            Json::List(list) => Ok(list.as_slice()),
            _ => Err(self.is_no("list")),
        }
    }

    /// A list of texts.
    pub fn texts(self) -> Result<Vec<String>, RowError> {
        let mut texts = Vec::new(self.alloc);
        for value in self.list()? {
            let text = Entry { value, ..self }.text()?;
            texts.push(String::from_str(self.alloc, text)?)?;
        }
        Ok(texts)
    }

    /// An object with no other keys than these.
    pub fn object(self, keys: &[&str]) -> Result<Object<'a>, RowError> {
        for (key, _) in self.members()? {
            if !keys.iter().any(|known| *known == key.as_str()) {
                return Err(RowError::UnknownKey(key.clone()?));
            }
        }
        Ok(Object {
            alloc: self.alloc,
            value: self.value,
        })
    }

    /// An object whose keys may be any.
    pub fn members(self) -> Result<&'a [(String, Json)], RowError> {
        match self.value {
            Json::Object(members) => Ok(members.as_slice()),
            _ => Err(self.is_no("object")),
        }
    }
}

impl<'a> Object<'a> {
    /// What stands under a key that may be left out.
    pub fn get(self, key: &'static str) -> Option<Entry<'a>> {
        Some(Entry::of(self.alloc, key, self.value.get(key)?))
    }

    /// What stands under a key that must be there.
    pub fn must(self, key: &'static str) -> Result<Entry<'a>, RowError> {
        match self.get(key) {
            Some(entry) => Ok(entry),
            None => Err(RowError::NoKey(key)),
        }
    }

    pub fn has(self, key: &'static str) -> bool {
        self.get(key).is_some()
    }

    /// The members of an object that may be left out.
    pub fn members(self, key: &'static str) -> Result<&'a [(String, Json)], RowError> {
        match self.get(key) {
            Some(entry) => entry.members(),
            None => Ok(&[]),
        }
    }

    /// The items of a list that may be left out.
    pub fn list(self, key: &'static str) -> Result<&'a [Json], RowError> {
        match self.get(key) {
            Some(entry) => entry.list(),
            None => Ok(&[]),
        }
    }
}
