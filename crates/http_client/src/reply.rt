//! Replies: the one at the front of bytes, or why there is none.

ghost use Rattle.std.specs.Prelude.{◌≡◌, ◌≤◌, ◌++◌, ℕ, List, length, IfOk, IsUtf8};
ghost use Rattle.http_client.specs.Frames.{Found, got, short, bad};
ghost use Rattle.http_client.specs.Heads.{values_of, coding_of, framing_of};
ghost use Rattle.http_client.specs.Parts.{head_parts, ReadsLastHead, IsCoded};
ghost use Rattle.http_client.specs.Replies.{ReplyParts, parts_of, ReadsReply, ReadsBody, ReadsFinal, IsAnswer, Gives, Refuses, Finds};

use crate::body::Body;
use crate::chunks::chunked_body;
use crate::error::ReplyError;
use crate::fields::{Header, ValuesOf, first_coding, values_of};
use crate::head::{
    Framing, Head, MAX_HEADERS, Version, find_head, framing_of, is_interim, lend_head,
};
use httparse::spans::EMPTY_HEADER_SPAN;
use std::alloc::Global;
use values::Text;

/// A reply to a request. Its header fields are lent from the bytes that it was read from, and so
/// is its body where it stands there in one piece.
#[derive(Debug, Drop)]
pub struct Reply<'a> {
    pub version: Version,
    pub code: u16,
    /// The header fields in order.
    pub headers: Vec<Header<'a>>,
    pub body: Body<'a>,
    /// How many bytes the reply has, those of interim replies before it included.
    pub used: u64,
}

impl<'a> Reply<'a> {
    /// The values of the header fields of a name, in any ASCII case (RFC 9110, section 5.1), one
    /// for each field, in order.
    pub fn values_of<'r>(&'r self, name: &'r str) -> ValuesOf<'r, 'a>
        ensures { result ≡ values_of name.now self.now.headers.items }
    {
        values_of(self.headers.as_slice(), name)
    }
}

/// Reads the reply at the front of the bytes; further bytes behind it are left alone. Where several
/// errors hold, `Bad` comes before `Short`, and that before `Coded`.
pub fn read_reply<'a>(alloc: Global, bytes: &'a [u8]) -> Result<Reply<'a>, ReplyError>
    ensures answer { IsAnswer bytes.now result }
    ensures whole { (parts : ReplyParts) → ReadsReply bytes.now (got parts) → coding_of parts.headers ≡ None → Gives parts result }
    ensures coded { (parts : ReplyParts) (coding : List ℕ) → ReadsReply bytes.now (got parts) → coding_of parts.headers ≡ Some coding → Refuses (ReplyError.Coded coding) result }
    ensures cut { ReadsReply bytes.now short → Refuses ReplyError.Short result }
    ensures refused { ReadsReply bytes.now bad → Refuses ReplyError.Bad result }
{
    find_reply(alloc, bytes)
}

/// Reads the reply at the front of the bytes, and refuses it under a content coding.
fn find_reply(alloc: Global, bytes: &[u8]) -> Result<Reply<'_>, ReplyError>
    ensures { IsAnswer bytes.now result }
{
    match whole_reply(alloc, bytes) {
        Err(error) => Err(error),
        Ok(reply) => uncoded(alloc, bytes, reply),
    }
}

/// The reply, unless it is under a content coding.
fn uncoded<'a>(alloc: Global, bytes: &[u8], reply: Reply<'a>) -> Result<Reply<'a>, ReplyError>
    requires { ReadsReply bytes.now (got (parts_of reply)) }
    ensures { IsAnswer bytes.now result }
{
    match first_coding(reply.values_of("Content-Encoding")) {
        None => Ok(reply),
        Some(coding) => Err(coded(alloc, coding)),
    }
}

/// The refusal of a content coding.
fn coded(alloc: Global, coding: &[u8]) -> ReplyError
    requires { IsUtf8 coding.now }
    ensures { IsCoded coding.now result }
{
    match std::str::from_utf8(coding) {
        Err(_) => unreachable!(),
        Ok(text) => match Text::copy_of(alloc, text) {
            Err(_) => ReplyError::NoMemory,
            Ok(copy) => ReplyError::Coded(copy),
        },
    }
}

/// Reads the reply at the front of the bytes, whatever its content coding.
fn whole_reply(alloc: Global, bytes: &[u8]) -> Result<Reply<'_>, ReplyError>
    ensures { Finds (λ reply. parts_of reply) result (ReadsReply bytes.now) }
{
    match final_head(alloc, bytes) {
        Err(error) => Err(error),
        Ok(found) => reply_behind(alloc, bytes.len(), found.0, found.1),
    }
}

/// Reads the body behind the head of a reply, where the reply and what follows have `total` bytes.
fn reply_behind<'a>(
    alloc: Global,
    total: usize,
    head: Head<'a>,
    bytes: &'a [u8],
) -> Result<Reply<'a>, ReplyError>
    requires { length bytes.now ≤ total }
    ensures { Finds (λ reply. parts_of reply) result (ReadsFinal total (got (head_parts head.entry, bytes.now))) }
{
    match read_body(alloc, framing_of(&head), bytes) {
        Err(error) => Err(error),
        Ok(found) => {
            let (body, behind) = found;
            Ok(Reply {
                version: head.version,
                code: head.code,
                headers: head.headers,
                body,
                used: (total - behind.len()) as u64,
            })
        }
    }
}

/// Reads the head of the reply, behind those of interim replies, and answers the bytes behind it.
fn final_head(alloc: Global, bytes: &[u8]) -> Result<(Head<'_>, &[u8]), ReplyError>
    ensures found { Finds (λ found. (head_parts found.0, found.1.now)) result (ReadsLastHead bytes.now) }
    ensures shorter { IfOk result (λ found. length found.1.now ≤ length bytes.now) }
{
    let mut fields = [EMPTY_HEADER_SPAN; MAX_HEADERS];
    let mut rest = bytes;
    'heads: loop {
        match find_head(rest, &mut fields) {
            Err(error) => return Err(error),
            Ok(found) => {
                let behind = &rest[found.spans.len..];
                if !is_interim(found.spans.code) {
                    return match lend_head(alloc, &found, &fields) {
                        Err(_) => Err(ReplyError::NoMemory),
                        Ok(head) => Ok((head, behind)),
                    };
                }
                rest = behind;
            }
        }
    }
}

/// Reads the body by its framing, and answers the bytes behind it.
fn read_body(alloc: Global, framing: Framing, bytes: &[u8]) -> Result<(Body<'_>, &[u8]), ReplyError>
    ensures found { Finds (λ found. (found.0, found.1.now)) result (ReadsBody framing bytes.now) }
    ensures shorter { IfOk result (λ found. length found.1.now ≤ length bytes.now) }
{
    match framing {
        Framing::Nothing => Ok((Body::lent(&[]), bytes)),
        Framing::Chunked => chunked_body(alloc, bytes),
        Framing::Length(len) => body_of_length(len, bytes),
        Framing::ToEnd => Ok((Body::lent(bytes), &bytes[bytes.len()..])),
        Framing::Refused => Err(ReplyError::Bad),
    }
}

/// Takes a body of a length.
fn body_of_length(len: u64, bytes: &[u8]) -> Result<(Body<'_>, &[u8]), ReplyError>
    ensures found { Finds (λ found. (found.0, found.1.now)) result (ReadsBody (Framing.Length len) bytes.now) }
    ensures shorter { IfOk result (λ found. length found.1.now ≤ length bytes.now) }
{
    if (bytes.len() as u64) < len {
        return Err(ReplyError::Short);
    }
    let (body, behind) = bytes.split_at(len as usize);
    Ok((Body::lent(body), behind))
}

/// Law: bytes are one thing as a reply. They have at most one reply at their front, and none where
/// they are short or bad.
pub fn reply_is_unique()
    ensures { (bytes : List ℕ) (one other : Found ReplyParts) → ReadsReply bytes one → ReadsReply bytes other → one ≡ other }
{}

/// Law: bytes that are bad stay so whatever follows.
pub fn bad_stays_bad()
    ensures { (bytes more : List ℕ) → ReadsReply bytes bad → ReadsReply (bytes ++ more) bad }
{}
