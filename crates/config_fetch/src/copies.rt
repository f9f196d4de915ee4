//! Copies of parts of a configuration.

ghost use Rattle.std.specs.Prelude.{◌≡◌, IfOk};

use config_model::{Param, ParamValue, StorageConf};
use std::alloc::{AllocError, Global};
use values::{Sequence, Text};

fn copy_words(alloc: Global, words: &[Text]) -> Result<Sequence<Text>, AllocError>
    ensures { IfOk result (λ copy. copy ≡ words.now) }
{
    let mut copied = Vec::with_capacity(alloc, words.len())?;
    for word in words {
        copied.push(Text::copy_of(alloc, word.as_str())?)?;
    }
    Ok(Sequence::of(copied))
}

fn copy_value(alloc: Global, value: &ParamValue) -> Result<ParamValue, AllocError>
    ensures { IfOk result (λ copy. copy ≡ value.now) }
{
    match value {
        ParamValue::Text(text) => Ok(ParamValue::Text(Text::copy_of(alloc, text.as_str())?)),
        ParamValue::Fetch(words) => Ok(ParamValue::Fetch(copy_words(alloc, words.as_slice())?)),
    }
}

fn copy_param(alloc: Global, param: &Param) -> Result<Param, AllocError>
    ensures { IfOk result (λ copy. copy ≡ param.now) }
{
    Ok(Param {
        key: Text::copy_of(alloc, param.key.as_str())?,
        value: copy_value(alloc, &param.value)?,
    })
}

fn copy_params(alloc: Global, params: &[Param]) -> Result<Sequence<Param>, AllocError>
    ensures { IfOk result (λ copy. copy ≡ params.now) }
{
    let mut copied = Vec::with_capacity(alloc, params.len())?;
    for param in params {
        copied.push(copy_param(alloc, param)?)?;
    }
    Ok(Sequence::of(copied))
}

pub fn copy_storage(alloc: Global, storage: &StorageConf) -> Result<StorageConf, AllocError>
    ensures { IfOk result (λ copy. copy ≡ storage.now) }
{
    Ok(StorageConf {
        name: Text::copy_of(alloc, storage.name.as_str())?,
        kind: storage.kind,
        read_only: storage.read_only,
        params: copy_params(alloc, storage.params.as_slice())?,
    })
}
