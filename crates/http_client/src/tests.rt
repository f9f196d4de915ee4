//! Requests and replies by hand. The lengths, answers and JSON strings come from programs in
//! another language.

use crate::body::Body;
use crate::{Method, Reply, ReplyError, Request, read_reply};
use std::alloc::{AllocError, Global};
use std::borrow::CowSlice;
use std::test::Fail;
use values::{Bytes, Sequence, Text};

/// What is read of bytes: a code, a body that is lent or made, and a length, or why there is none.
#[derive(Clone, Copy)]
enum Told {
    Whole(u16, &'static [u8], u64),
    Made(u16, &'static [u8], u64),
    Short,
    Bad,
    Coded(&'static str),
}

const REPLIES: [(&[u8], Told); 44] = [
    // A chunked body.
    (
        b"HTTP/1.1 200 OK\r\nTransfer-Encoding: chunked\r\n\r\n3\r\nabc\r\n0\r\n\r\n",
        Told::Whole(200, b"abc", 60),
    ),
    (
        b"HTTP/1.1 200 OK\r\nTransfer-Encoding: chunked\r\n\r\n3\r\nabc\r\n0\r\n\r",
        Told::Short,
    ),
    (
        b"HTTP/1.1 200 OK\r\nTransfer-Encoding: chunked\r\n\r\n3\r\nabc\r\n1\r\nd\r\n2\r\nef\r\n0\r\n\r\n",
        Told::Made(200, b"abcdef", 73),
    ),
    (
        b"HTTP/1.1 200 OK\r\nTransfer-Encoding: chunked\r\n\r\n0\r\n\r\n",
        Told::Whole(200, b"", 52),
    ),
    // No head.
    (b"SMTP", Told::Short),
    (b"SMTP\r\n\r\n", Told::Bad),
    (b"", Told::Short),
    (b"\n\n", Told::Bad),
    // A content coding.
    (
        b"HTTP/1.1 200 OK\r\nContent-Encoding: gzip\r\nContent-Length: 0\r\n\r\n",
        Told::Coded("gzip"),
    ),
    (
        b"HTTP/1.1 204 No Content\r\nContent-Encoding: gzip\r\n\r\n",
        Told::Coded("gzip"),
    ),
    (
        b"HTTP/1.1 200 OK\r\nContent-Encoding: IDENTITY\r\nContent-Length: 1\r\n\r\na",
        Told::Whole(200, b"a", 67),
    ),
    (
        b"HTTP/1.1 200 OK\r\nContent-Encoding: identity\r\nContent-Encoding: br\r\nContent-Length: 0\r\n\r\n",
        Told::Coded("br"),
    ),
    (
        b"HTTP/1.1 200 OK\r\nContent-Encoding: gzip\r\nContent-Length: 2\r\n\r\na",
        Told::Short,
    ),
    (
        b"HTTP/1.1 200 OK\r\nContent-Encoding: \xff\r\nContent-Length: 2\r\n\r\na",
        Told::Bad,
    ),
    // A length.
    (
        b"HTTP/1.1 200 OK\r\nContent-Length: 3\r\n\r\nabcd",
        Told::Whole(200, b"abc", 41),
    ),
    (
        b"HTTP/1.1 200 OK\r\nContent-Length: 3\r\n\r\nab",
        Told::Short,
    ),
    (
        b"HTTP/1.1 200 OK\r\ncontent-length: 3\r\nContent-Length: 3 \r\n\r\nabc",
        Told::Whole(200, b"abc", 61),
    ),
    (
        b"HTTP/1.1 200 OK\r\nContent-Length: 3\r\nContent-Length: 4\r\n\r\nabcd",
        Told::Bad,
    ),
    (
        b"HTTP/1.1 200 OK\r\nContent-Length: +3\r\n\r\nabc",
        Told::Bad,
    ),
    (
        b"HTTP/1.1 200 OK\r\nContent-Length: -3\r\n\r\nabc",
        Told::Bad,
    ),
    (
        b"HTTP/1.1 200 OK\r\nContent-Length: 1 2\r\n\r\nabc",
        Told::Bad,
    ),
    (b"HTTP/1.1 200 OK\r\nContent-Length:\r\n\r\n", Told::Bad),
    (
        b"HTTP/1.1 200 OK\r\nContent-Length: 000000000000000003\r\n\r\nabc",
        Told::Whole(200, b"abc", 58),
    ),
    (
        b"HTTP/1.1 200 OK\r\nContent-Length: 999999999999999999\r\n\r\nabc",
        Told::Short,
    ),
    (
        b"HTTP/1.1 200 OK\r\nContent-Length: 0000000000000000003\r\n\r\nabc",
        Told::Bad,
    ),
    // Other transfer codings.
    (
        b"HTTP/1.1 200 OK\r\nTransfer-Encoding: gzip, chunked\r\n\r\n0\r\n\r\n",
        Told::Bad,
    ),
    (
        b"HTTP/1.1 200 OK\r\nTransfer-Encoding: gzip\r\n\r\n",
        Told::Bad,
    ),
    (
        b"HTTP/1.1 200 OK\r\nTransfer-Encoding: chunked\r\nTransfer-Encoding: chunked\r\n\r\n0\r\n\r\n",
        Told::Bad,
    ),
    (
        b"HTTP/1.1 200 OK\r\ntransfer-encoding: CHUNKED\r\nContent-Length: 99\r\nContent-Length: x\r\n\r\n1;a=b\r\nc\r\n00\r\n\n!",
        Told::Whole(200, b"c", 101),
    ),
    // Chunks.
    (
        b"HTTP/1.1 200 OK\r\nTransfer-Encoding: chunked\r\n\r\nxyz\r\n",
        Told::Bad,
    ),
    (
        b"HTTP/1.1 200 OK\r\nTransfer-Encoding: chunked\r\n\r\n00000000000000003\r\nabc\r\n0\r\n\r\n",
        Told::Bad,
    ),
    (
        b"HTTP/1.1 200 OK\r\nTransfer-Encoding: chunked\r\n\r\nffffffffffffffff\r\nabc",
        Told::Short,
    ),
    (
        b"HTTP/1.1 200 OK\r\nTransfer-Encoding: chunked\r\n\r\n3\r\nabcd\r\n0\r\n\r\n",
        Told::Bad,
    ),
    (
        b"HTTP/1.1 200 OK\r\nTransfer-Encoding: chunked\r\n\r\n3\r\nabc\rX",
        Told::Bad,
    ),
    (
        b"HTTP/1.1 200 OK\r\nTransfer-Encoding: chunked\r\n\r\n3\r\nabc\r",
        Told::Short,
    ),
    // Trailers.
    (
        b"HTTP/1.1 200 OK\r\nTransfer-Encoding: chunked\r\n\r\n0\r\nA: b\r\n\r\nmore",
        Told::Whole(200, b"", 58),
    ),
    (
        b"HTTP/1.1 200 OK\r\nTransfer-Encoding: chunked\r\n\r\n0\r\nA: b\r\n",
        Told::Short,
    ),
    // No body.
    (
        b"HTTP/1.1 204 No Content\r\nContent-Length: 3\r\n\r\nabc",
        Told::Whole(204, b"", 46),
    ),
    (
        b"HTTP/1.1 304 Not Modified\r\nTransfer-Encoding: gzip\r\n\r\nabc",
        Told::Whole(304, b"", 54),
    ),
    // Codes.
    (b"HTTP/1.1 099 Low\r\n\r\n", Told::Bad),
    (b"HTTP/1.1 101 Switching Protocols\r\n\r\n", Told::Bad),
    (
        b"HTTP/1.1 100 Continue\r\n\r\nHTTP/1.1 103 Early Hints\r\nA: b\r\n\r\n\r\nHTTP/1.1 201 Created\r\nContent-Length: 1\r\n\r\nab",
        Told::Whole(201, b"a", 105),
    ),
    (b"HTTP/1.1 100 Continue\r\n\r\nSMTP", Told::Short),
    // A body to the end.
    (
        b"HTTP/1.0 404 \xc3\xa9\nX: \xff\n\nabc",
        Told::Whole(404, b"abc", 25),
    ),
];

fn is_lent(body: &Body) -> bool {
    matches!(&body.content, CowSlice::Borrowed(_))
}

fn is_whole(reply: &Reply, code: u16, body: &[u8], used: u64) -> bool {
    reply.code == code && reply.body.as_slice() == body && reply.used == used
}

fn is_told(alloc: Global, bytes: &[u8], told: Told) -> bool {
    match read_reply(alloc, bytes) {
        Ok(reply) => match told {
            Told::Whole(code, body, used) => {
                is_lent(&reply.body) && is_whole(&reply, code, body, used)
            }
            Told::Made(code, body, used) => {
                !is_lent(&reply.body) && is_whole(&reply, code, body, used)
            }
            Told::Short | Told::Bad | Told::Coded(_) => false,
        },
        Err(ReplyError::Short) => matches!(told, Told::Short),
        Err(ReplyError::Bad) => matches!(told, Told::Bad),
        Err(ReplyError::Coded(coding)) => match told {
            Told::Coded(name) => coding.as_str() == name,
            Told::Whole(_, _, _) | Told::Made(_, _, _) | Told::Short | Told::Bad => false,
        },
        Err(ReplyError::NoMemory) => false,
    }
}

#[test]
fn replies_are_told(rt: HostRuntime) {
    for (at, row) in REPLIES.iter().enumerate() {
        assert!(rt; is_told(rt.alloc(), row.0, row.1), "row {at}");
    }
}

#[test]
fn values_of_a_name_in_any_case(rt: HostRuntime) -> Result<(), Fail> {
    let bytes =
        b"HTTP/1.1 204 Empty\r\nETag: \"1\"\r\nDate: x\r\netag:\r\nETAG:  \"2\" \r\nE-Tag: y\r\n\r\n";
    let reply = read_reply(rt.alloc(), bytes)?;
    let mut told = Vec::new(rt.alloc());
    for value in reply.values_of("eTag") {
        told.extend_from_slice(value)?;
        told.push(b'|')?;
    }
    assert_eq!(rt; told.as_slice(), b"\"1\"||\"2\"|".as_slice());
    Ok(())
}

/// Codings, and what the refusal of a reply under each displays.
const REFUSALS: [(&str, &str); 4] = [
    ("gzip", "reply is encoded as \"gzip\""),
    ("", "reply is encoded as \"\""),
    ("a\"b\\c/\t", "reply is encoded as \"a\\\"b\\\\c/\\t\""),
    (
        "\u{0}x\u{1f}\u{7f}\u{e9}\u{8}\u{c}\n\r",
        "reply is encoded as \"\\u0000x\\u001f\u{7f}\u{e9}\\b\\f\\n\\r\"",
    ),
];

#[test]
fn refusals_are_displayed(rt: HostRuntime) -> Result<(), Fail> {
    for (coding, text) in REFUSALS {
        let refusal = ReplyError::Coded(Text::copy_of(rt.alloc(), coding)?);
        let told = refusal.to_string(rt.alloc())?;
        assert_eq!(rt; told.as_str(), text);
    }
    Ok(())
}

fn request(alloc: Global, method: Method, port: u16) -> Result<Request, AllocError> {
    let mut extra = Sequence::new(alloc);
    extra.push((
        Text::copy_of(alloc, "Content-Type")?,
        Text::copy_of(alloc, "text/vcard; charset=utf-8")?,
    ))?;
    extra.push((
        Text::copy_of(alloc, "If-None-Match")?,
        Text::copy_of(alloc, "*")?,
    ))?;
    Ok(Request {
        method,
        host: Text::copy_of(alloc, "h.example")?,
        port,
        path: Text::copy_of(alloc, "/c/x.vcf")?,
        agent: Text::copy_of(alloc, "vdirsyncer")?,
        login: Some((Text::copy_of(alloc, "bob")?, Text::copy_of(alloc, "asdf")?)),
        extra,
    })
}

#[test]
fn requests_are_written(rt: HostRuntime) -> Result<(), Fail> {
    let card = Bytes::of(Vec::from_slice(rt.alloc(), b"BEGIN:VCARD\r\nEND:VCARD\r\n")?);
    let put = request(rt.alloc(), Method::Put(card), 8008)?;
    assert_eq!(rt;
        put.bytes(rt.alloc())?.as_slice(),
        b"PUT /c/x.vcf HTTP/1.1\r\nHost: h.example:8008\r\nUser-Agent: vdirsyncer\r\nAccept-Encoding: identity\r\nConnection: close\r\nAuthorization: Basic Ym9iOmFzZGY=\r\nContent-Type: text/vcard; charset=utf-8\r\nIf-None-Match: *\r\nContent-Length: 24\r\n\r\nBEGIN:VCARD\r\nEND:VCARD\r\n".as_slice()
    );
    let delete = Request {
        login: None,
        extra: Sequence::new(rt.alloc()),
        ..request(rt.alloc(), Method::Delete, 80)?
    };
    assert_eq!(rt;
        delete.bytes(rt.alloc())?.as_slice(),
        b"DELETE /c/x.vcf HTTP/1.1\r\nHost: h.example\r\nUser-Agent: vdirsyncer\r\nAccept-Encoding: identity\r\nConnection: close\r\n\r\n".as_slice()
    );
    Ok(())
}
