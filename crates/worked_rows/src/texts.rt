//! The texts that rows name.

use crate::entry::{Entry, Object};
use crate::error::RowError;
use crate::json::Json;
use std::alloc::{AllocError, Global};
use std::collections::BTreeMap;

/// What stands in a text where the folder below which all places lie is to stand: nothing in memory.
const ROOT: &str = "<root>";

/// Texts by their names.
#[derive(Drop)]
pub struct Texts {
    alloc: Global,
    named: BTreeMap<String, Vec<u8>>,
}

/// A line, counted from 1, and what it becomes.
#[derive(Drop)]
struct Change {
    line: u64,
    becomes: Vec<String>,
}

/// Lines, each with this end.
fn ended(alloc: Global, lines: &[String], end: &str) -> Result<Vec<u8>, AllocError> {
    let mut text = Vec::new(alloc);
    for line in lines {
        text.extend_from_slice(line.as_str().as_bytes())?;
        text.extend_from_slice(end.as_bytes())?;
    }
    Ok(text)
}

/// How a line ends.
fn end_of(line: &[u8]) -> &'static str {
    if line.ends_with(b"\r\n") {
        "\r\n"
    } else {
        "\n"
    }
}

/// A text with one of its lines, or the one behind its last, become others.
fn changed(alloc: Global, text: &[u8], change: &Change) -> Result<Option<Vec<u8>>, AllocError> {
    let mut made = Vec::new(alloc);
    let mut number = 0u64;
    let mut found = false;
    for line in text.split_inclusive(|byte| *byte == b'\n') {
        number = number.saturating_add(1);
        if number == change.line {
            found = true;
            let lines = ended(alloc, change.becomes.as_slice(), end_of(line))?;
            made.extend_from_slice(lines.as_slice())?;
        } else {
            made.extend_from_slice(line)?;
        }
    }
    if number.saturating_add(1) == change.line {
        found = true;
        let lines = ended(alloc, change.becomes.as_slice(), "\n")?;
        made.extend_from_slice(lines.as_slice())?;
    }
    Ok(if found { Some(made) } else { None })
}

/// A text with the root in its place.
pub fn rooted(alloc: Global, text: &str, root: &str) -> Result<String, AllocError> {
    let mut made = String::new(alloc);
    let mut is_first = true;
    for piece in text.split(ROOT) {
        if !is_first {
            made.push_str(root)?;
        }
        made.push_str(piece)?;
        is_first = false;
    }
    Ok(made)
}

impl Texts {
    pub fn new(alloc: Global) -> Texts {
        Texts {
            alloc,
            named: BTreeMap::new(alloc),
        }
    }

    /// Adds a text. It may be made of one that was added before.
    pub fn add(&mut self, form: Entry<'_>) -> Result<(), RowError> {
        let name = String::from_str(self.alloc, form.key)?;
        if self.named.contains_key(name.as_str()) {
            return Err(RowError::TextTwice(name));
        }
        let text = self.made(form)?;
        self.named.insert(name, text)?;
        Ok(())
    }

    fn made(&self, form: Entry<'_>) -> Result<Vec<u8>, RowError> {
        let alloc = self.alloc;
        match form.value {
            Json::Text(text) => Ok(Vec::from_slice(alloc, text.as_str().as_bytes())?),
            Json::List(_) => Ok(ended(alloc, form.texts()?.as_slice(), "\r\n")?),
            _ => self.composed(form),
        }
    }

    /// A text that an object makes: its first key tells how.
    fn composed(&self, form: Entry<'_>) -> Result<Vec<u8>, RowError> {
        let alloc = self.alloc;
        let Some((first, _)) = form.members()?.first() else {
            return Err(form.is_no("text"));
        };
        match first.as_str() {
            "lf" => {
                let lines = form.object(&["lf"])?.must("lf")?.texts()?;
                Ok(ended(alloc, lines.as_slice(), "\n")?)
            }
            "texts" => self.joined(form.object(&["texts"])?.must("texts")?),
            "hex" => self.unhexed(form.object(&["hex"])?.must("hex")?),
            "text" | "times" => self.repeated(form.object(&["text", "times"])?),
            _ => self.changed(form.object(&["of", "line", "becomes"])?),
        }
    }

    fn changed(&self, form: Object<'_>) -> Result<Vec<u8>, RowError> {
        let name = form.must("of")?.text()?;
        let change = Change {
            line: form.must("line")?.number()?,
            becomes: form.must("becomes")?.texts()?,
        };
        match changed(self.alloc, self.get(name)?, &change)? {
            Some(made) => Ok(made),
            None => Err(RowError::NoLine(String::from_str(self.alloc, name)?)),
        }
    }

    fn repeated(&self, form: Object<'_>) -> Result<Vec<u8>, RowError> {
        let text = form.must("text")?.text()?;
        let times = form.must("times")?;
        match u32::try_from(times.number()?) {
            Ok(number) => Ok(text.repeat(self.alloc, number as usize)?.into_bytes()),
            Err(_) => Err(times.is_no("number below 2^32")),
        }
    }

    fn joined(&self, names: Entry<'_>) -> Result<Vec<u8>, RowError> {
        let mut made = Vec::new(self.alloc);
        for name in &names.texts()? {
            made.extend_from_slice(self.get(name.as_str())?)?;
        }
        Ok(made)
    }

    fn unhexed(&self, form: Entry<'_>) -> Result<Vec<u8>, RowError> {
        match hex::decode(self.alloc, form.text()?) {
            Ok(bytes) => Ok(bytes),
            Err(_) => Err(form.is_no("hex text")),
        }
    }

    fn get(&self, name: &str) -> Result<&[u8], RowError> {
        match self.named.get(name) {
            Some(text) => Ok(text.as_slice()),
            None => Err(RowError::NoText(String::from_str(self.alloc, name)?)),
        }
    }

    /// The bytes of a text, with the root in its place.
    pub fn bytes(&self, name: &str, root: &str) -> Result<Vec<u8>, RowError> {
        let bytes = self.get(name)?;
        match std::str::from_utf8(bytes) {
            Ok(text) => Ok(rooted(self.alloc, text, root)?.into_bytes()),
            Err(_) => Ok(Vec::from_slice(self.alloc, bytes)?),
        }
    }
}
