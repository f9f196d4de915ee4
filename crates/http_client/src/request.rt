//! Requests and their bytes.

ghost use Rattle.std.specs.Prelude.{◌≡◌, ◌++◌, codes, string_bytes, option_map, IfOk, OnOk};
ghost use Rattle.http_client.specs.Request.{method_name, sent_body, body_bytes, start_line, field_line, host_of, base64_of, credentials, login_lines, extra_lines, length_lines, head_bytes, request_bytes};

use base64::engine::general_purpose::STANDARD;
use std::alloc::{AllocError, Global};
use values::{Bytes, Sequence, Text};

/// The port that a `Host` field leaves out (RFC 9110, section 4.2.1).
const DEFAULT_PORT: u16 = 80;

/// What a request asks the server to do (RFC 9110, section 9; RFC 4918, section 9; RFC 3253,
/// section 3.6), with the body that it sends. A DELETE has none (RFC 9110, section 9.3.5).
#[derive(Debug, Drop)]
pub enum Method {
    Propfind(Bytes),
    Proppatch(Bytes),
    Report(Bytes),
    Put(Bytes),
    Delete,
    Mkcol(Bytes),
}

/// A request to a server. Its texts are written as they are: whoever makes a request keeps line
/// ends out of them.
#[derive(Debug, Drop)]
pub struct Request {
    pub method: Method,
    pub host: Text,
    pub port: u16,
    /// The request target: an absolute path, percent-encoded.
    pub path: Text,
    /// The value of `User-Agent`.
    pub agent: Text,
    /// A user's name and password, sent as basic authentication (RFC 7617).
    pub login: Option<(Text, Text)>,
    /// Further header fields, names and values, in the order in which they are sent.
    pub extra: Sequence<(Text, Text)>,
}

impl Method {
    /// The method's name in a request line.
    pub fn name(&self) -> &'static str
        ensures { result.now ≡ method_name self.now }
    {
        match self {
            Method::Propfind(_) => "PROPFIND",
            Method::Proppatch(_) => "PROPPATCH",
            Method::Report(_) => "REPORT",
            Method::Put(_) => "PUT",
            Method::Delete => "DELETE",
            Method::Mkcol(_) => "MKCOL",
        }
    }

    /// The body that is sent, for a method that has one.
    pub fn body(&self) -> Option<&[u8]>
        ensures { option_map (λ body. body.now) result ≡ sent_body self.now }
    {
        match self {
            Method::Propfind(body) => Some(body.as_slice()),
            Method::Proppatch(body) => Some(body.as_slice()),
            Method::Report(body) => Some(body.as_slice()),
            Method::Put(body) => Some(body.as_slice()),
            Method::Delete => None,
            Method::Mkcol(body) => Some(body.as_slice()),
        }
    }
}

impl Request {
    /// The bytes that are sent (RFC 9112, sections 2 to 6). The only error is want of memory.
    pub fn bytes(&self, alloc: Global) -> Result<Vec<u8>, AllocError>
        ensures { IfOk result (λ bytes. bytes.items ≡ request_bytes self.now) }
    {
        let mut out = Vec::new(alloc);
        put_head(alloc, &mut out, self)?;
        out.extend_from_slice(b"\r\n")?;
        put_body(&mut out, &self.method)?;
        Ok(out)
    }
}

/// Writes the request line and the header fields.
fn put_head(alloc: Global, out: &mut Vec<u8>, request: &Request) -> Result<(), AllocError>
    ensures { OnOk result (out.new.items ≡ out.old.items ++ head_bytes request.now) }
{
    put_start(out, &request.method, &request.path)?;
    put_host(alloc, out, &request.host, request.port)?;
    put_agent(out, &request.agent)?;
    put_field(out, "Accept-Encoding", "identity")?;
    put_field(out, "Connection", "close")?;
    put_login(alloc, out, &request.login)?;
    put_extra(out, &request.extra)?;
    put_length(alloc, out, &request.method)
}

/// Writes one header field.
fn put_field(out: &mut Vec<u8>, name: &str, value: &str) -> Result<(), AllocError>
    ensures { OnOk result (out.new.items ≡ out.old.items ++ field_line name.now value.now) }
{
    out.extend_from_slice(name.as_bytes())?;
    out.extend_from_slice(b": ")?;
    out.extend_from_slice(value.as_bytes())?;
    out.extend_from_slice(b"\r\n")
}

/// Writes the request line.
fn put_start(out: &mut Vec<u8>, method: &Method, path: &Text) -> Result<(), AllocError>
    ensures { OnOk result (out.new.items ≡ out.old.items ++ start_line method.now path.now) }
{
    out.extend_from_slice(method.name().as_bytes())?;
    out.extend_from_slice(b" ")?;
    out.extend_from_slice(path.as_str().as_bytes())?;
    out.extend_from_slice(b" HTTP/1.1")?;
    out.extend_from_slice(b"\r\n")
}

/// Writes the host, with its port unless that is the default one.
fn put_host(alloc: Global, out: &mut Vec<u8>, host: &Text, port: u16) -> Result<(), AllocError>
    ensures { OnOk result (out.new.items ≡ out.old.items ++ field_line (codes "Host") (host_of host.now port)) }
{
    let host = host.as_str();
    if port == DEFAULT_PORT {
        return put_field(out, "Host", host);
    }
    let value = format!(in alloc; "{host}:{port}")?;
    put_field(out, "Host", value.as_str())
}

/// Writes what the client calls itself.
fn put_agent(out: &mut Vec<u8>, agent: &Text) -> Result<(), AllocError>
    ensures { OnOk result (out.new.items ≡ out.old.items ++ field_line (codes "User-Agent") agent.now) }
{
    put_field(out, "User-Agent", agent.as_str())
}

/// Writes the login, if there is one.
fn put_login(
    alloc: Global,
    out: &mut Vec<u8>,
    login: &Option<(Text, Text)>,
) -> Result<(), AllocError>
    ensures { OnOk result (out.new.items ≡ out.old.items ++ login_lines login.now) }
{
    match login {
        None => Ok(()),
        Some((user, password)) => {
            let value = credentials_of(alloc, user.as_str(), password.as_str())?;
            put_field(out, "Authorization", value.as_str())
        }
    }
}

/// A user and a password, as basic authentication sends them.
#[tactic(auto, unfolding(crate::specs::Request::credentials))]
fn credentials_of(alloc: Global, user: &str, password: &str) -> Result<String, AllocError>
    ensures { IfOk result (λ value. string_bytes value ≡ credentials user.now password.now) }
{
    let pair = format!(in alloc; "{user}:{password}")?;
    let encoded = in_base64(alloc, pair.as_str())?;
    format!(in alloc; "Basic {encoded}")
}

/// A text in base64.
#[tactic(auto, unfolding(crate::specs::Request::base64_of))]
fn in_base64(alloc: Global, text: &str) -> Result<String, AllocError>
    ensures { IfOk result (λ encoded. string_bytes encoded ≡ base64_of text.now) }
{
    STANDARD.encode(alloc, text.as_bytes())
}

/// Writes the further fields.
fn put_extra(out: &mut Vec<u8>, fields: &Sequence<(Text, Text)>) -> Result<(), AllocError>
    ensures { OnOk result (out.new.items ≡ out.old.items ++ extra_lines fields.now) }
{
    for (name, value) in fields.as_slice() {
        put_field(out, name.as_str(), value.as_str())?;
    }
    Ok(())
}

/// Writes the length of the body, for a method that has one.
fn put_length(alloc: Global, out: &mut Vec<u8>, method: &Method) -> Result<(), AllocError>
    ensures { OnOk result (out.new.items ≡ out.old.items ++ length_lines (sent_body method.now)) }
{
    let Some(body) = method.body() else {
        return Ok(());
    };
    let size = body.len();
    let value = format!(in alloc; "{size}")?;
    put_field(out, "Content-Length", value.as_str())
}

/// Writes the body, for a method that has one.
fn put_body(out: &mut Vec<u8>, method: &Method) -> Result<(), AllocError>
    ensures { OnOk result (out.new.items ≡ out.old.items ++ body_bytes (sent_body method.now)) }
{
    match method.body() {
        None => Ok(()),
        Some(body) => out.extend_from_slice(body),
    }
}
