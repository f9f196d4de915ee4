//! What the folders of a row hold.

use crate::entry::Entry;
use crate::error::RowError;
use crate::json::Json;
use crate::texts::Texts;
use std::alloc::{AllocError, Global};
use std::collections::{BTreeMap, BTreeSet};

/// What a folder holds.
#[derive(Drop)]
pub struct Held {
    pub files: BTreeMap<String, Vec<u8>>,
    pub folders: BTreeSet<String>,
}

/// Folders by their paths: `None` for one that isn't there.
pub type Places = BTreeMap<String, Option<Held>>;

impl Held {
    pub fn nothing(alloc: Global) -> Held {
        Held {
            files: BTreeMap::new(alloc),
            folders: BTreeSet::new(alloc),
        }
    }
}

/// What a folder of a row holds: `null` is one that isn't there.
pub fn held_of(
    alloc: Global,
    form: Entry<'_>,
    texts: &Texts,
    root: &str,
) -> Result<Option<Held>, RowError> {
    if let Json::Null = form.value {
        return Ok(None);
    }
    let mut held = Held::nothing(alloc);
    for (name, value) in form.members()? {
        let entry = Entry::of(alloc, name.as_str(), value);
        match value {
            Json::Text(text) => {
                let bytes = texts.bytes(text.as_str(), root)?;
                held.files.insert(name.clone()?, bytes)?;
            }
            _ => {
                let _ = entry.object(&[])?;
                held.folders.insert(name.clone()?)?;
            }
        }
    }
    Ok(Some(held))
}

/// A path below the root.
pub fn below(alloc: Global, root: &str, path: &str) -> Result<String, AllocError> {
    let mut made = String::from_str(alloc, root)?;
    made.push_str(path)?;
    Ok(made)
}

/// The places of each row: the configuration, both sides there and empty, no status.
pub fn usual_places(alloc: Global, texts: &Texts, root: &str) -> Result<Places, RowError> {
    let mut settings = Held::nothing(alloc);
    settings.files.insert(
        String::from_str(alloc, "config")?,
        texts.bytes("CONFIG", root)?,
    )?;
    let mut places = BTreeMap::new(alloc);
    places.insert(below(alloc, root, "/a")?, Some(Held::nothing(alloc)))?;
    places.insert(below(alloc, root, "/b")?, Some(Held::nothing(alloc)))?;
    places.insert(below(alloc, root, "/c")?, Some(settings))?;
    places.insert(below(alloc, root, "/st/p/.null")?, None)?;
    Ok(places)
}
