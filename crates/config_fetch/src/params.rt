//! Fetches the texts of one storage.

ghost use Rattle.std.specs.Prelude.{◌≡◌, IfOk};
ghost use Rattle.config_fetch.specs.Fetches.{FetchedBy, ParamStep, WalkOrStarved, as_text, devices};

use crate::texts::fetch_by;
use children::Spawner;
use cli_jobs::Refusal;
use config_model::{Param, ParamValue};
use outside::{Sink, Source};
use std::alloc::{AllocError, Global};
use values::{Sequence, Text};

fn text_of(alloc: Global, key: &str, text: &str) -> Result<Param, AllocError>
    ensures { IfOk result (λ param. param ≡ as_text key.now text.now) }
{
    Ok(Param {
        key: Text::copy_of(alloc, key)?,
        value: ParamValue::Text(Text::copy_of(alloc, text)?),
    })
}

/// The text of a key: as it is, or fetched.
fn fetch_param<C: Spawner, I: Source, E: Sink>(
    alloc: Global,
    section: &str,
    param: &Param,
    child: &mut C,
    input: &mut I,
    err: &mut E,
) -> Result<Param, Refusal>
    ensures { ParamStep (FetchedBy C.count C.tells C.state I.count I.tells I.left E.count E.tells E.held) section.now (devices child.old input.old err.old) (devices child.new input.new err.new) param.now result }
{
    match &param.value {
        ParamValue::Text(text) => match text_of(alloc, param.key.as_str(), text.as_str()) {
            Ok(param) => Ok(param),
            Err(_) => Err(Refusal::NoMemory),
        },
        ParamValue::Fetch(words) => fetch_by(
            alloc,
            section,
            param.key.as_str(),
            words.as_slice(),
            child,
            input,
            err,
        ),
    }
}

/// The texts of a storage, in their order.
pub fn fetch_params<C: Spawner, I: Source, E: Sink>(
    alloc: Global,
    section: &str,
    params: &[Param],
    child: &mut C,
    input: &mut I,
    err: &mut E,
) -> Result<Sequence<Param>, Refusal>
    ensures { WalkOrStarved (ParamStep (FetchedBy C.count C.tells C.state I.count I.tells I.left E.count E.tells E.held) section.now) (devices child.old input.old err.old) (devices child.new input.new err.new) params.now result }
{
    let mut filled = match Vec::with_capacity(alloc, params.len()) {
        Ok(filled) => filled,
        Err(_) => return Err(Refusal::NoMemory),
    };
    for param in params {
        match fetch_param(alloc, section, param, child, input, err) {
            Ok(param) => filled.push(param).unwrap(),
            Err(refusal) => return Err(refusal),
        }
    }
    Ok(Sequence::of(filled))
}
