//! Where a collection is, and how a request to it begins.

ghost use Rattle.std.specs.Prelude.{◌≡◌, ◌++◌, ◌∷◌, [], IfOk, OnOk};
ghost use Rattle.dav_requests.specs.Requests as spec;

use http_client::{Method, Request};
use std::alloc::{AllocError, Global};
use values::{Sequence, Text};

/// What a collection holds: events and tasks (RFC 4791), or contacts (RFC 6352).
#[derive(Debug, Clone, Copy, PartialEq, Eq)]
pub enum DavKind {
    Calendar,
    Addressbook,
}

/// A collection of a server, and how the client comes to it. Its texts are sent as they are:
/// whoever makes a site keeps line ends out of them.
#[derive(Debug, Drop)]
pub struct DavSite {
    pub kind: DavKind,
    pub host: Text,
    pub port: u16,
    /// The collection's path, percent-encoded.
    pub path: Text,
    pub username: Option<Text>,
    pub password: Option<Text>,
    /// What the client calls itself.
    pub agent: Text,
}

/// A copy of a text, or one without letters where there is none.
fn copy_or_empty(alloc: Global, text: &Option<Text>) -> Result<Text, AllocError>
    ensures { IfOk result (λ copy. copy ≡ spec.or_empty text.now) }
{
    match text {
        Some(text) => Text::copy_of(alloc, text.as_str()),
        None => Text::copy_of(alloc, ""),
    }
}

/// The user and the password that are sent, if either is known.
fn login_of(alloc: Global, site: &DavSite) -> Result<Option<(Text, Text)>, AllocError>
    ensures { IfOk result (λ login. login ≡ spec.login_of site.now.username site.now.password) }
{
    if site.username.is_none() && site.password.is_none() {
        return Ok(None);
    }
    let user = copy_or_empty(alloc, &site.username)?;
    let password = copy_or_empty(alloc, &site.password)?;
    Ok(Some((user, password)))
}

/// A request for a path of the site's server.
pub(crate) fn request_to(
    alloc: Global,
    site: &DavSite,
    path: &str,
    method: Method,
    extra: Sequence<(Text, Text)>,
) -> Result<Request, AllocError>
    ensures { IfOk result (λ request. request ≡ spec.request_to site.now path.now method extra) }
{
    let host = Text::copy_of(alloc, site.host.as_str())?;
    let path = Text::copy_of(alloc, path)?;
    let agent = Text::copy_of(alloc, site.agent.as_str())?;
    let login = login_of(alloc, site)?;
    Ok(Request {
        method,
        host,
        port: site.port,
        path,
        agent,
        login,
        extra,
    })
}

/// Adds a header field.
pub(crate) fn put_field(
    alloc: Global,
    fields: &mut Sequence<(Text, Text)>,
    name: &str,
    value: &str,
) -> Result<(), AllocError>
    ensures { OnOk result (fields.new ≡ fields.old ++ (name.now, value.now) ∷ []) }
{
    let name = Text::copy_of(alloc, name)?;
    let value = Text::copy_of(alloc, value)?;
    fields.push((name, value))
}
