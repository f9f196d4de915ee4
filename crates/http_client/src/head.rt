//! The head of a reply: its version, its code, its fields, and what they say of the body.

ghost use Rattle.std.specs.Prelude.{◌≡◌, ◌≤◌, ◌<◌, List, [], ◌∷◌, length, map, codes, All, IfOk};
ghost use Rattle.httparse.specs.Spans.{IsHeaderWithin, header_bytes};
ghost use Rattle.http_client.specs.Heads.{HeaderField, version_of, is_interim, length_framing, coded_framing, values_of, framing_of};
ghost use Rattle.http_client.specs.Parts.{PartIs, HasPart, FindsHead, head_parts, spans_parts, IsTextIn};

use crate::error::ReplyError;
use crate::fields::{
    Header, ValuesOf, are_equal, are_texts, is_length, is_same, length_in, values_of,
};
use crate::frames::empty_line_end;
use httparse::Status;
use httparse::spans::{HeaderSpan, ResponseSpans, parse_response};
use std::alloc::{AllocError, Global};

/// The most header fields of a reply.
pub(crate) const MAX_HEADERS: usize = 100;

/// The version of HTTP that a reply's head names (RFC 9112, section 2.3).
#[derive(Clone, Copy, Debug, PartialEq, Eq)]
pub enum Version {
    Http10,
    Http11,
}

/// The head of a reply.
#[derive(Drop)]
pub(crate) struct Head<'a> {
    pub(crate) version: Version,
    pub(crate) code: u16,
    pub(crate) headers: Vec<Header<'a>>,
}

/// How the end of a body is told (RFC 9112, section 6.3).
#[derive(Clone, Copy)]
pub(crate) enum Framing {
    Nothing,
    Chunked,
    Length(u64),
    ToEnd,
    Refused,
}

/// Where a head stands: the bytes up to and including their first empty line, and where the
/// head's parts are in them.
#[derive(Clone, Copy)]
pub(crate) struct Place<'b> {
    pub(crate) part: &'b [u8],
    pub(crate) spans: ResponseSpans,
}

/// Finds the head at the front of bytes, and writes where its fields are.
pub(crate) fn find_head<'b>(
    bytes: &'b [u8],
    fields: &mut [HeaderSpan],
) -> Result<Place<'b>, ReplyError>
    requires { length fields.old ≡ 100 }
    ensures found { FindsHead bytes.now fields.new result }
    ensures within { IfOk result (λ found. found.spans.len ≤ length bytes.now) }
    ensures some { IfOk result (λ found. 0 < found.spans.len) }
{
    let Some(end) = empty_line_end(bytes) else {
        return Err(ReplyError::Short);
    };
    let part = &bytes[..end];
    match parse_part(part, fields) {
        None => Err(ReplyError::Bad),
        Some(spans) => Ok(Place { part, spans }),
    }
}

/// The head that was found, its fields lent.
pub(crate) fn lend_head<'b>(
    alloc: Global,
    found: &Place<'b>,
    fields: &[HeaderSpan],
) -> Result<Head<'b>, AllocError>
    requires { HasPart found.now.part.now fields.now found.now.spans }
    ensures { IfOk result (λ head. head_parts head ≡ spans_parts found.now.part.now fields.now found.now.spans) }
{
    let headers = lend_fields(alloc, found.part, &fields[..found.spans.headers])?;
    Ok(Head {
        version: version_of(found.spans.version),
        code: found.spans.code,
        headers,
    })
}

/// Parses a head at the front of bytes that end at their first empty line.
fn parse_part(part: &[u8], spans: &mut [HeaderSpan]) -> Option<ResponseSpans>
    ensures { PartIs part.now (length spans.old) spans.new result }
{
    match parse_response(part, spans) {
        Err(_) => None,
        Ok(status) => match status {
            Status::Partial => None,
            Status::Complete(found) => Some(found),
        },
    }
}

/// The version by its minor number.
fn version_of(minor: u8) -> Version
    ensures { result ≡ version_of minor }
{
    if minor == 0 {
        return Version::Http10;
    }
    Version::Http11
}

/// The fields that spans of bytes cover.
fn lend_fields<'b>(
    alloc: Global,
    bytes: &'b [u8],
    spans: &[HeaderSpan],
) -> Result<Vec<Header<'b>>, AllocError>
    requires within { All (IsHeaderWithin (length bytes.now)) spans.now }
    requires texts { All (IsTextIn bytes.now) spans.now }
    ensures { IfOk result (λ fields. fields.items ≡ map (header_bytes bytes.now) spans.now) }
{
    let mut fields = Vec::with_capacity(alloc, spans.len())?;
    for span in spans {
        fields.push(lend_field(bytes, *span))?;
    }
    Ok(fields)
}

/// The field that spans of bytes cover.
fn lend_field(bytes: &[u8], span: HeaderSpan) -> Header<'_>
    requires within { IsHeaderWithin (length bytes.now) span }
    requires text { IsTextIn bytes.now span }
    ensures { result ≡ header_bytes bytes.now span }
{
    match std::str::from_utf8(span.name.of(bytes)) {
        Err(_) => unreachable!(),
        Ok(name) => Header::of(name, span.value.of(bytes)),
    }
}

/// Whether a code is that of an interim reply, which another one follows (RFC 9110, section 15.2).
pub(crate) fn is_interim(code: u16) -> bool
    ensures { result ≡ is_interim code }
{
    100 <= code && code < 200 && code != 101
}

/// How the head tells the end of the body.
pub(crate) fn framing_of(head: &Head) -> Framing
    ensures { result ≡ framing_of (head_parts head.now) }
{
    if head.code < 100 || head.code == 101 {
        return Framing::Refused;
    }
    let headers = head.headers.as_slice();
    if !are_texts(values_of(headers, "Content-Encoding")) {
        return Framing::Refused;
    }
    if head.code == 204 || head.code == 304 {
        return Framing::Nothing;
    }
    coded_framing(headers)
}

/// The framing by Transfer-Encoding, and by Content-Length without it.
fn coded_framing(headers: &[Header]) -> Framing
    ensures { result ≡ coded_framing (values_of (codes "Transfer-Encoding") headers.now) headers.now }
{
    let mut transfer = values_of(headers, "Transfer-Encoding");
    match transfer.next() {
        None => length_framing(values_of(headers, "Content-Length")),
        Some(coding) => match transfer.next() {
            Some(_) => Framing::Refused,
            None => transfer_framing(coding),
        },
    }
}

/// The framing by the one value of Transfer-Encoding.
fn transfer_framing(coding: &[u8]) -> Framing
    ensures { (headers : List HeaderField) → result ≡ coded_framing (coding.now ∷ []) headers }
{
    if is_same(coding, "chunked") {
        return Framing::Chunked;
    }
    Framing::Refused
}

/// The framing by the values of Content-Length.
fn length_framing(values: ValuesOf) -> Framing
    ensures { result ≡ length_framing values.entry }
{
    let mut others = values;
    match others.next() {
        None => Framing::ToEnd,
        Some(first) => {
            if are_equal(first, others) && is_length(first) {
                return Framing::Length(length_in(first));
            }
            Framing::Refused
        }
    }
}
