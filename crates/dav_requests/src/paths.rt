//! The path that an href names.

ghost use Rattle.std.specs.Prelude.{◌≡◌, ◌<◌, None, Some, Ok, IfOk};
ghost use Rattle.std.specs.Option.{option_copied};
ghost use Rattle.url.specs.Parser.{IsOutOfRoom, parse_url};
ghost use Rattle.dav_requests.specs.Paths as spec;

use std::alloc::{AllocError, Global};
use url::{ParseError, Url};
use url_paths::rooted;
use values::Text;

/// What stands behind a mark that a text begins with.
fn behind(text: &str, mark: char) -> Option<&str>
    requires { mark < 128 }
    ensures { option_copied result ≡ spec.behind mark text.now }
{
    text.strip_prefix(mark)
}

/// A text without the slash at its front.
fn without_slash(alloc: Global, text: Text) -> Result<Text, AllocError>
    ensures { IfOk result (λ rest. rest ≡ spec.without_slash text) }
{
    match behind(text.as_str(), '/') {
        Some(rest) => Text::copy_of(alloc, rest),
        None => Ok(text),
    }
}

/// A path without a slash at its front, each of its segments decoded and escaped again.
fn unrooted(alloc: Global, path: &str) -> Result<Text, AllocError>
    ensures { IfOk result (λ text. text ≡ spec.unrooted path.now) }
{
    let whole = format!(in alloc; "/{path}")?;
    let text = rooted(alloc, whole.as_str())?;
    without_slash(alloc, text)
}

/// A path, each of its segments decoded and escaped again.
#[tactic(auto, unfolding(crate::specs::Paths::canonical))]
fn canonical(alloc: Global, path: &str) -> Result<Text, AllocError>
    ensures { IfOk result (λ text. text ≡ spec.canonical path.now) }
{
    if path.as_bytes().starts_with(b"/".as_slice()) {
        rooted(alloc, path)
    } else {
        unrooted(alloc, path)
    }
}

/// The path of a URL that has neither query nor fragment.
fn path_in(alloc: Global, url: &Url) -> Result<Option<Text>, AllocError>
    ensures { IfOk result (λ path. path ≡ spec.path_in (Ok url.now)) }
{
    if url.query().is_some() || url.fragment().is_some() {
        return Ok(None);
    }
    let path = canonical(alloc, url.path())?;
    Ok(Some(path))
}

/// No path, where it isn't for want of memory that there is no URL.
fn no_path(error: ParseError) -> Result<Option<Text>, AllocError>
    ensures { IfOk result (λ path. (path ≡ None) × (IsOutOfRoom error → ⊥)) }
{
    match error {
        ParseError::OutOfMemory => Err(AllocError),
        ParseError::Overflow => Err(AllocError),
        _ => Ok(None),
    }
}

/// The path of an href at a URL.
fn path_at(alloc: Global, base: &Url, href: &str) -> Result<Option<Text>, AllocError>
    ensures { IfOk result (λ path. path ≡ spec.path_in (parse_url (Some base.now) href.now)) }
{
    match base.join(href) {
        Ok(url) => path_in(alloc, &url),
        Err(error) => no_path(error),
    }
}

/// The path that an href names, read at a collection's path, with each of its segments decoded and
/// escaped again; `None` where the two aren't joined to a URL, or there is a query or a fragment
/// (RFC 4918, section 8.3). Scheme, host and port are passed over, since another server may stand
/// between (this project's own). The only error is want of memory.
#[tactic(auto, unfolding(crate::specs::Paths::path_of))]
pub fn path_of(alloc: Global, base: &str, href: &str) -> Result<Option<Text>, AllocError>
    ensures { IfOk result (λ path. path ≡ spec.path_of base.now href.now) }
{
    let address = format!(in alloc; "http://h{base}")?;
    match Url::parse(alloc, address.as_str()) {
        Ok(url) => path_at(alloc, &url, href),
        Err(error) => no_path(error),
    }
}
