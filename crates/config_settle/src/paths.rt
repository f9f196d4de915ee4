//! Paths of folders and files, and programs: the home, and the normal form.

ghost use Rattle.std.specs.Prelude.{◌≡◌, ◌<◌, ◌++◌, map, string_bytes, IfOk, OnOk};
ghost use Rattle.std.specs.List.{flat_map};
ghost use Rattle.std.specs.Option.{option_copied};
ghost use Rattle.config_ini.specs.Answers.{Gives};
ghost use Rattle.config_settle.specs.Paths as spec;

use crate::texts::bad_text;
use config_ini::ConfigError;
use config_model::has_control;
use std::alloc::{AllocError, Global};
use values::Text;

fn is_idle(segment: &str) -> bool
    ensures { result ≡ spec.is_idle segment.now }
{
    segment.is_empty() || segment == "."
}

#[tactic(auto, unfolding(crate::specs::Paths::kept_segment))]
fn push_segment(text: &mut String, segment: &str) -> Result<(), AllocError>
    ensures { OnOk result (string_bytes text.new ≡ string_bytes text.old ++ spec.kept_segment segment.now) }
{
    if is_idle(segment) {
        return Ok(());
    }
    text.push_str("/")?;
    text.push_str(segment)?;
    Ok(())
}

fn segments(alloc: Global, path: &str) -> Result<Vec<&str>, AllocError>
    ensures { IfOk result (λ parts. map (λ s. s.now) parts.items ≡ spec.segments_of path.now) }
{
    path.split('/').collect(alloc)
}

fn push_segments(text: &mut String, segments: &[&str]) -> Result<(), AllocError>
    ensures { OnOk result (string_bytes text.new ≡ string_bytes text.old ++ flat_map (λ s. spec.kept_segment s.now) segments.now) }
{
    for segment in segments {
        push_segment(text, segment)?;
    }
    Ok(())
}

fn joined(alloc: Global, segments: &[&str]) -> Result<String, AllocError>
    ensures { IfOk result (λ t. string_bytes t ≡ flat_map (λ s. spec.kept_segment s.now) segments.now) }
{
    let mut text = String::new(alloc);
    push_segments(&mut text, segments)?;
    Ok(text)
}

fn kept_path(alloc: Global, path: &str) -> Result<String, AllocError>
    ensures { IfOk result (λ t. string_bytes t ≡ flat_map spec.kept_segment (spec.segments_of path.now)) }
{
    let parts = segments(alloc, path)?;
    joined(alloc, parts.as_slice())
}

/// Where nothing is left, the root.
fn or_root(alloc: Global, kept: String) -> Result<Text, AllocError>
    ensures { IfOk result (λ text. text ≡ spec.or_root (string_bytes kept)) }
{
    if kept.is_empty() {
        Text::copy_of(alloc, "/")
    } else {
        Ok(Text::of(kept))
    }
}

/// What stands behind a mark that a text begins with.
fn behind(text: &str, mark: char) -> Option<&str>
    requires { mark < 128 }
    ensures { option_copied result ≡ spec.behind mark text.now }
{
    text.strip_prefix(mark)
}

/// Without the first slash; where nothing is left, the folder itself.
fn or_here(alloc: Global, kept: &str) -> Result<Text, AllocError>
    ensures { IfOk result (λ text. text ≡ spec.or_here kept.now) }
{
    match behind(kept, '/') {
        Some(rest) => Text::copy_of(alloc, rest),
        None => Text::copy_of(alloc, "."),
    }
}

/// Without repeated slashes, segments `.` and a final slash.
#[tactic(auto, unfolding(crate::specs::Paths::normalised))]
pub fn normalised(alloc: Global, path: &str) -> Result<Text, AllocError>
    ensures { IfOk result (λ text. text ≡ spec.normalised path.now) }
{
    let kept = kept_path(alloc, path)?;
    if path.as_bytes().starts_with(b"/".as_slice()) {
        or_root(alloc, kept)
    } else {
        or_here(alloc, kept.as_str())
    }
}

fn begins_s(bytes: &[u8]) -> bool
    ensures { result ≡ spec.begins_s bytes.now }
{
    match bytes {
        [] => false,
        [first, ..] => *first == b's',
    }
}

/// Whether `%s` stands in a text.
#[tactic(auto, unfolding(crate::specs::Paths::has_mark))]
fn has_mark(text: &str) -> bool
    ensures { result ≡ spec.has_mark text.now }
{
    let mut left = text.as_bytes();
    while let [first, rest @ ..] = left {
        if *first == b'%' && begins_s(rest) {
            return true;
        }
        left = rest;
    }
    false
}

/// Whether `%s` stands in the last of these segments, and in no other.
#[tactic(auto, unfolding(crate::specs::Paths::is_last_marked))]
fn is_last_marked(segments: &[&str]) -> bool
    ensures { result ≡ spec.is_last_marked (map (λ s. s.now) segments.now) }
{
    let mut left = segments;
    while let [first, rest @ ..] = left {
        if rest.is_empty() {
            return has_mark(first);
        }
        if has_mark(first) {
            return false;
        }
        left = rest;
    }
    false
}

fn is_marked(alloc: Global, path: &str) -> Result<bool, AllocError>
    ensures { IfOk result (λ marked. marked ≡ spec.is_marked path.now) }
{
    let parts = segments(alloc, path)?;
    Ok(is_last_marked(parts.as_slice()))
}

fn is_normal_marked(alloc: Global, text: &str) -> Result<bool, AllocError>
    ensures { IfOk result (λ marked. marked ≡ spec.is_marked (spec.normalised text.now)) }
{
    let path = normalised(alloc, text)?;
    is_marked(alloc, path.as_str())
}

#[tactic(auto, unfolding(crate::specs::Paths::is_placed))]
fn is_placed(alloc: Global, collected: bool, text: &str) -> Result<bool, AllocError>
    ensures { IfOk result (λ placed. placed ≡ spec.is_placed collected text.now) }
{
    if text.is_empty() {
        return Ok(false);
    }
    if collected {
        is_normal_marked(alloc, text)
    } else {
        Ok(true)
    }
}

#[tactic(auto, unfolding(crate::specs::Paths::placed))]
fn placed(
    alloc: Global,
    collected: bool,
    section: &str,
    key: &str,
    text: &str,
) -> Result<Text, ConfigError>
    ensures { Gives (spec.placed collected section.now key.now text.now) result }
{
    if is_placed(alloc, collected, text)? {
        Ok(Text::copy_of(alloc, text)?)
    } else {
        Err(bad_text(alloc, section, key)?)
    }
}

fn begins_path(rest: &str) -> bool
    ensures { result ≡ spec.begins_path rest.now }
{
    rest.is_empty() || rest.as_bytes().starts_with(b"/".as_slice())
}

/// What stands behind the home, where a path begins there.
fn home_rest(text: &str) -> Option<&str>
    ensures { option_copied result ≡ spec.home_rest text.now }
{
    match behind(text, '~') {
        Some(rest) => { if begins_path(rest) { Some(rest) } else { None } }
        None => None,
    }
}

fn no_home(alloc: Global, section: &str, key: &str) -> Result<ConfigError, AllocError>
    ensures { IfOk result (λ error. error ≡ spec.no_home section.now key.now) }
{
    let section = Text::copy_of(alloc, section)?;
    let key = Text::copy_of(alloc, key)?;
    Ok(ConfigError::NoHome { section, key })
}

fn at_home(
    alloc: Global,
    section: &str,
    key: &str,
    home: Option<&str>,
    rest: &str,
) -> Result<Text, ConfigError>
    ensures { Gives (spec.at_home section.now key.now (option_copied home.entry) rest.now) result }
{
    match home {
        Some(home) => {
            let mut whole = String::from_str(alloc, home)?;
            whole.push_str(rest)?;
            Ok(Text::of(whole))
        }
        None => Err(no_home(alloc, section, key)?),
    }
}

fn expanded(
    alloc: Global,
    section: &str,
    key: &str,
    home: Option<&str>,
    text: &str,
) -> Result<Text, ConfigError>
    ensures { Gives (spec.expanded section.now key.now (option_copied home.entry) text.now) result }
{
    match home_rest(text) {
        Some(rest) => at_home(alloc, section, key, home, rest),
        None => Ok(Text::copy_of(alloc, text)?),
    }
}

/// A text as it is written, with the home in the place of `~`.
#[tactic(auto, unfolding(crate::specs::Paths::whole_of))]
fn whole_of(
    alloc: Global,
    collected: bool,
    section: &str,
    key: &str,
    home: Option<&str>,
    text: &str,
) -> Result<Text, ConfigError>
    ensures { Gives (spec.whole_of collected section.now key.now (option_copied home.entry) text.now) result }
{
    if has_control(text) {
        return Err(bad_text(alloc, section, key)?);
    }
    let written = placed(alloc, collected, section, key, text)?;
    let whole = expanded(alloc, section, key, home, written.as_str())?;
    placed(alloc, collected, section, key, whole.as_str())
}

/// A path with the home in the place of `~`, normalised.
#[tactic(auto, unfolding(crate::specs::Paths::path_of))]
pub(crate) fn path_of(
    alloc: Global,
    collected: bool,
    section: &str,
    key: &str,
    home: Option<&str>,
    text: &str,
) -> Result<Text, ConfigError>
    ensures { Gives (spec.path_of collected section.now key.now (option_copied home.entry) text.now) result }
{
    let whole = whole_of(alloc, collected, section, key, home, text)?;
    Ok(normalised(alloc, whole.as_str())?)
}

/// A program, with the home in the place of `~`.
pub(crate) fn program_of(
    alloc: Global,
    section: &str,
    key: &str,
    home: Option<&str>,
    text: Option<&str>,
) -> Result<Option<Text>, ConfigError>
    ensures { Gives (spec.program_of section.now key.now (option_copied home.entry) (option_copied text.entry)) result }
{
    match text {
        Some(text) => {
            let whole = whole_of(alloc, false, section, key, home, text)?;
            Ok(Some(whole))
        }
        None => Ok(None),
    }
}
