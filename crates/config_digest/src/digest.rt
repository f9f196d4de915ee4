//! The digest.

ghost use Rattle.std.specs.Prelude.{◌≡◌, ◌++◌, ◌∷◌, [], IfOk, OnOk};
ghost use Rattle.config_digest.specs.Written as spec;

use crate::writing::write_section;
use config_ini::Entry;
use json::Writer;
use sha2::{Digest, Sha256};
use std::alloc::{AllocError, Global};
use values::{Bytes, Text};

fn write_three(
    writer: &mut Writer,
    alloc: Global,
    pair: &[Entry],
    a: &[Entry],
    b: &[Entry],
) -> Result<(), AllocError>
    ensures tokens { OnOk result (writer.new.tokens ≡ writer.old.tokens ++ spec.three_tokens pair.now a.now b.now) }
    ensures before { writer.new.before ≡ writer.old.before }
{
    writer.begin_array()?;
    write_section(writer, alloc, pair)?;
    write_section(writer, alloc, a)?;
    write_section(writer, alloc, b)?;
    writer.end_array()?;
    Ok(())
}

fn written(alloc: Global, pair: &[Entry], a: &[Entry], b: &[Entry]) -> Result<Bytes, AllocError>
    ensures { IfOk result (λ text. text ≡ spec.written pair.now a.now b.now) }
{
    let mut writer = Writer::new(Vec::new(alloc));
    write_three(&mut writer, alloc, pair, a, b)?;
    Ok(Bytes::of(writer.into_inner()))
}

/// The SHA-256 in hex of a pair and its storages, as they are written.
#[tactic(auto, unfolding(crate::specs::Written::digest_of))]
pub fn digest_of(
    alloc: Global,
    pair: &[Entry],
    a: &[Entry],
    b: &[Entry],
) -> Result<Text, AllocError>
    ensures { IfOk result (λ digest. digest ≡ spec.digest_of pair.now a.now b.now) }
{
    let text = written(alloc, pair, a, b)?;
    let digits = hex::encode(alloc, Sha256::digest(text.as_slice()))?;
    Ok(Text::of(digits))
}
