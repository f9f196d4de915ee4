//! What the values of a pair's rules mean.

ghost use Rattle.std.specs.Prelude.{◌≡◌, ◌==◌, [], option_map, IfOk};
ghost use Rattle.std.specs.List.{list_any};
ghost use Rattle.std.specs.Option.{option_copied};
ghost use Rattle.std.specs.Str.{bytes_eq};
ghost use Rattle.config_model.specs.Meanings as spec;

use crate::meanings::{plain_parts, text_in};
use crate::rules::{ConflictRule, MetaKey, Partial};
use config_ini::{Part, Setting};
use std::alloc::{AllocError, Global};
use values::{Sequence, Text};

/// Who wins a conflict, and the program with its arguments where a command decides.
#[derive(Drop)]
pub(crate) struct Conflict {
    pub rule: ConflictRule,
    pub command: Sequence<Text>,
}

fn partial_named(name: &str) -> Option<Partial>
    ensures { result ≡ spec.partial_named name.now }
{
    if name == "error" {
        return Some(Partial::Error);
    }
    if name == "ignore" {
        return Some(Partial::Ignore);
    }
    if name == "revert" {
        return Some(Partial::Revert);
    }
    None
}

pub(crate) fn partial_in(value: &Setting) -> Option<Partial>
    ensures { result ≡ spec.partial_in value.now }
{
    match text_in(value) {
        Some(name) => partial_named(name),
        None => None,
    }
}

fn meta_named(name: &str) -> Option<MetaKey>
    ensures { result ≡ spec.meta_named name.now }
{
    if name == "displayname" {
        return Some(MetaKey::Displayname);
    }
    if name == "color" {
        return Some(MetaKey::Color);
    }
    None
}

fn meta_of(part: &Part) -> Option<MetaKey>
    ensures { result ≡ spec.meta_of part.now }
{
    match part {
        Part::Text(text) => meta_named(text.as_str()),
        Part::Texts(_) => None,
    }
}

fn metadata_listed(alloc: Global, parts: &[Part]) -> Result<Option<Sequence<MetaKey>>, AllocError>
    ensures { IfOk result (λ keys. keys ≡ spec.all_found spec.meta_of parts.now) }
{
    let mut all = Sequence::new(alloc);
    for part in parts {
        match meta_of(part) {
            Some(key) => all.push(key)?,
            None => return Ok(None),
        }
    }
    Ok(Some(all))
}

pub(crate) fn metadata_in(
    alloc: Global,
    value: &Setting,
) -> Result<Option<Sequence<MetaKey>>, AllocError>
    ensures { IfOk result (λ keys. keys ≡ spec.metadata_in value.now) }
{
    match value {
        Setting::Null => Ok(Some(Sequence::new(alloc))),
        Setting::List(parts) => metadata_listed(alloc, parts.as_slice()),
        Setting::Truth(_) => Ok(None),
        Setting::Text(_) => Ok(None),
        Setting::Other => Ok(None),
    }
}

fn without_command(alloc: Global, rule: ConflictRule) -> Conflict
    ensures { result ≡ record { rule = rule; command = [] } }
{
    Conflict {
        rule,
        command: Sequence::new(alloc),
    }
}

/// A conflict is told, and nobody wins.
pub(crate) fn no_rule(alloc: Global) -> Conflict
    ensures { result ≡ spec.no_rule }
{
    without_command(alloc, ConflictRule::Null)
}

fn rule_named(alloc: Global, name: &str) -> Option<Conflict>
    ensures { result ≡ spec.rule_named name.now }
{
    if name == "a wins" {
        return Some(without_command(alloc, ConflictRule::AWins));
    }
    if name == "b wins" {
        return Some(without_command(alloc, ConflictRule::BWins));
    }
    None
}

fn is_part(part: &Part, word: &str) -> bool
    ensures { result ≡ spec.is_part word.now part.now }
{
    match part {
        Part::Text(text) => text.as_str() == word,
        Part::Texts(_) => false,
    }
}

fn ruled_by(alloc: Global, command: &[Part]) -> Result<Option<Conflict>, AllocError>
    ensures { IfOk result (λ conflict. conflict ≡ option_map spec.ruled_by (spec.all_found spec.plain command.now)) }
{
    match plain_parts(alloc, command)? {
        Some(command) => Ok(Some(Conflict {
            rule: ConflictRule::Command,
            command,
        })),
        None => Ok(None),
    }
}

/// A program and its arguments, behind `command`.
fn rule_listed(alloc: Global, parts: &[Part]) -> Result<Option<Conflict>, AllocError>
    ensures { IfOk result (λ conflict. conflict ≡ spec.rule_listed parts.now) }
{
    match parts {
        [] => Ok(None),
        [first, command @ ..] => {
            if is_part(first, "command") && 0 < command.len() {
                ruled_by(alloc, command)
            } else {
                Ok(None)
            }
        }
    }
}

pub(crate) fn conflict_in(alloc: Global, value: &Setting) -> Result<Option<Conflict>, AllocError>
    ensures { IfOk result (λ conflict. conflict ≡ spec.conflict_in value.now) }
{
    match value {
        Setting::Null => Ok(Some(no_rule(alloc))),
        Setting::Text(name) => Ok(rule_named(alloc, name.as_str())),
        Setting::List(parts) => rule_listed(alloc, parts.as_slice()),
        Setting::Truth(_) => Ok(None),
        Setting::Other => Ok(None),
    }
}
