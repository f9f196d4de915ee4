//! Each segment decoded, and escaped again.

ghost use Rattle.std.specs.Prelude.{◌≡◌, ◌++◌, ◌∷◌, map, codes, string_bytes, IfOk, OnOk};
ghost use Rattle.std.specs.List.{flat_map};
ghost use Rattle.url_paths.specs.Paths as spec;

use percent_encoding::{AsciiSet, NON_ALPHANUMERIC, ascii_set, percent_decode, percent_encode};
use std::alloc::{AllocError, Global};
use values::Text;

/// The bytes of a segment that are escaped: all but letters, digits and `-._~@:!$&'()*+,;=`.
pub const ESCAPED: AsciiSet = ascii_set!(
    NON_ALPHANUMERIC
        .remove(b'-')
        .remove(b'.')
        .remove(b'_')
        .remove(b'~')
        .remove(b'@')
        .remove(b':')
        .remove(b'!')
        .remove(b'$')
        .remove(b'&')
        .remove(b'\'')
        .remove(b'(')
        .remove(b')')
        .remove(b'*')
        .remove(b'+')
        .remove(b',')
        .remove(b';')
        .remove(b'=')
);

fn push_segment(text: &mut String, alloc: Global, segment: &str) -> Result<(), AllocError>
    ensures { OnOk result (string_bytes text.new ≡ string_bytes text.old ++ spec.behind_slash segment.now) }
{
    let mut bytes = Vec::new(alloc);
    percent_decode(segment.as_bytes()).append_to(&mut bytes)?;
    text.push_str("/")?;
    percent_encode(bytes.as_slice(), ESCAPED).append_to(text)?;
    Ok(())
}

fn push_segments(text: &mut String, alloc: Global, segments: &[&str]) -> Result<(), AllocError>
    ensures { OnOk result (string_bytes text.new ≡ string_bytes text.old ++ flat_map (λ s. spec.behind_slash s.now) segments.now) }
{
    for segment in segments {
        push_segment(text, alloc, segment)?;
    }
    Ok(())
}

fn segments(alloc: Global, path: &str) -> Result<Vec<&str>, AllocError>
    ensures { IfOk result (λ parts. map (λ s. s.now) parts.items ≡ spec.segments_of path.now) }
{
    path.split('/').collect(alloc)
}

fn joined(alloc: Global, segments: &[&str]) -> Result<Text, AllocError>
    ensures { IfOk result (λ text. text ≡ flat_map (λ s. spec.behind_slash s.now) segments.now) }
{
    let mut text = String::new(alloc);
    push_segments(&mut text, alloc, segments)?;
    Ok(Text::of(text))
}

fn behind_first(alloc: Global, segments: &[&str]) -> Result<Text, AllocError>
    ensures { IfOk result (λ text. text ≡ flat_map (λ s. spec.behind_slash s.now) (spec.behind_first segments.now)) }
{
    match segments {
        [] => joined(alloc, segments),
        [_, rest @ ..] => joined(alloc, rest),
    }
}

/// A path that begins with a slash, each of its segments decoded and escaped again.
#[tactic(auto, unfolding(crate::specs::Paths::rooted))]
pub fn rooted(alloc: Global, path: &str) -> Result<Text, AllocError>
    ensures { IfOk result (λ text. text ≡ spec.rooted path.now) }
{
    let parts = segments(alloc, path)?;
    behind_first(alloc, parts.as_slice())
}

fn with_slash(alloc: Global, path: &str) -> Result<String, AllocError>
    ensures { IfOk result (λ text. string_bytes text ≡ spec.with_slash path.now) }
{
    let mut text = String::from_str(alloc, path)?;
    if !path.as_bytes().ends_with(b"/".as_slice()) {
        text.push_str("/")?;
    }
    Ok(text)
}

/// The same of a folder's path, which ends with a slash.
#[tactic(auto, unfolding(crate::specs::Paths::folder_path))]
pub fn folder_path(alloc: Global, path: &str) -> Result<Text, AllocError>
    ensures { IfOk result (λ text. text ≡ spec.folder_path path.now) }
{
    let whole = with_slash(alloc, path)?;
    rooted(alloc, whole.as_str())
}
