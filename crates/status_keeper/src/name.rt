//! The names of status folders.

ghost use Rattle.std.specs.Prelude.{◌≡◌, ◌<◌, ◌++◌, true, IfOk, OnOk, IsTrue, option_copied, string_bytes};
ghost use Rattle.status_keeper.specs.StatusName.{stays, escaped_byte, escaped_from, folder_name, name_of};

use outside::NoMemory;
use sha2::{Digest, Sha256};
use std::alloc::Global;
use values::Text;

/// The longest escaped name, in bytes.
const MAX_NAME: usize = 200;

fn is_kept(byte: u8, first: bool) -> bool
    ensures value { result ≡ stays first byte }
    ensures ascii { IsTrue result → byte < 128 }
{
    if byte.is_ascii_alphanumeric() {
        return true;
    }
    if byte == b'.' {
        return !first;
    }
    if byte == b'_' {
        return true;
    }
    if byte == b'-' {
        return true;
    }
    byte == b'@'
}

#[tactic(auto, using(std::proofs::lemmas::Str::encode_ascii))]
fn add_escaped(alloc: Global, text: &mut String, byte: u8, first: bool) -> Result<(), NoMemory>
    ensures { OnOk result (string_bytes text.new ≡ string_bytes text.old ++ escaped_byte first byte) }
{
    if is_kept(byte, first) {
        text.push(byte as char)?;
        return Ok(());
    }
    let digits = hex::encode_upper(alloc, [byte])?;
    text.push_str("%")?;
    text.push_str(digits.as_str())?;
    Ok(())
}

fn escape(alloc: Global, name: &[u8]) -> Result<String, NoMemory>
    ensures { IfOk result (λ text. string_bytes text ≡ escaped_from true name.now) }
{
    let mut text = String::new(alloc);
    let mut first = true;
    for byte in name {
        add_escaped(alloc, &mut text, *byte, first)?;
        first = false;
    }
    Ok(text)
}

fn folder_name(alloc: Global, name: &str) -> Result<Text, NoMemory>
    ensures { IfOk result (λ text. text ≡ folder_name name.now) }
{
    let escaped = escape(alloc, name.as_bytes())?;
    if escaped.len() <= MAX_NAME {
        return Ok(Text::of(escaped));
    }
    let digits = hex::encode(alloc, Sha256::digest(name))?;
    let mut text = String::from_str(alloc, "%")?;
    text.push_str(digits.as_str())?;
    Ok(Text::of(text))
}

/// The name of the folder that keeps a job's status: of its collection's name, escaped, or `.null`.
pub fn status_name(alloc: Global, collection: Option<&str>) -> Result<Text, NoMemory>
    ensures { IfOk result (λ name. name ≡ name_of (option_copied collection.entry)) }
{
    match collection {
        None => Ok(Text::copy_of(alloc, ".null")?),
        Some(name) => folder_name(alloc, name),
    }
}
