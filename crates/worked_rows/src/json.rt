//! JSON values as files of rows have them: numbers are whole, and no key stands twice in an object.

use serde::{Deserialize, Deserializer, Format, Kind};
use std::alloc::Global;

/// How deep values may nest.
const DEEPEST: u8 = 16;

/// A JSON value. An object's members are in the order of the file.
#[derive(Drop)]
pub enum Json {
    Null,
    Flag(bool),
    Number(u64),
    Text(String),
    List(Vec<Json>),
    Object(Vec<(String, Json)>),
}

impl Json {
    /// What stands under this key of an object.
    pub fn get(&self, key: &str) -> Option<&Json> {
        match self {
            Json::Object(members) => {
                let (_, value) = members.iter().find(|(name, _)| name.as_str() == key)?;
                Some(value)
            }
            _ => None,
        }
    }
}

impl<'de> Deserialize<'de> for Json {
    fn deserialize<F: Format>(
        alloc: Global,
        from: &mut Deserializer<'de, '_, F>,
    ) -> Result<Json, F::Error> {
        read(alloc, from, DEEPEST)
    }
}

/// Reads a value that nests no deeper than this.
#[cycle(read)]
fn read<F: Format>(
    alloc: Global,
    from: &mut Deserializer<'_, '_, F>,
    depth: u8,
) -> Result<Json, F::Error> {
    let Some(inner) = depth.checked_sub(1) else {
        return Err(from.custom("it nests too deep"));
    };
    match from.peek()? {
        Kind::Unit => {
            let _ = from.take_unit()?;
            Ok(Json::Null)
        }
        Kind::Bool => Ok(Json::Flag(from.bool()?)),
        Kind::Str => Ok(Json::Text(from.string(alloc)?)),
        Kind::Seq => Ok(Json::List(read_list(alloc, from, inner)?)),
        Kind::Map => Ok(Json::Object(read_object(alloc, from, inner)?)),
        _ => Ok(Json::Number(from.u64()?)),
    }
}

#[cycle(read)]
fn read_list<F: Format>(
    alloc: Global,
    from: &mut Deserializer<'_, '_, F>,
    depth: u8,
) -> Result<Vec<Json>, F::Error> {
    from.begin_seq()?;
    let mut list = Vec::new(alloc);
    for _ in 0..u64::MAX {
        if !from.next_item()? {
            break;
        }
        let value = read(alloc, from, depth)?;
        if list.push(value).is_err() {
            return Err(from.no_memory());
        }
    }
    Ok(list)
}

#[cycle(read)]
fn read_object<F: Format>(
    alloc: Global,
    from: &mut Deserializer<'_, '_, F>,
    depth: u8,
) -> Result<Vec<(String, Json)>, F::Error> {
    from.begin_map()?;
    let mut members = Vec::new(alloc);
    for _ in 0..u64::MAX {
        if !from.next_entry()? {
            break;
        }
        let key = from.string(alloc)?;
        if has(members.as_slice(), key.as_str()) {
            return Err(from.custom("a key stands twice"));
        }
        let value = read(alloc, from, depth)?;
        if members.push((key, value)).is_err() {
            return Err(from.no_memory());
        }
    }
    Ok(members)
}

fn has(members: &[(String, Json)], key: &str) -> bool {
    members.iter().any(|(name, _)| name.as_str() == key)
}
