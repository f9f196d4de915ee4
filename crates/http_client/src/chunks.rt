//! The chunked body (RFC 9112, section 7.1).

ghost use Rattle.std.specs.Prelude.{◌≡◌, ◌<◌, ◌≤◌, ◌+◌, length, IfOk, IfSome};
ghost use Rattle.http_client.specs.Chunks.{ReadsSize, ChunkStep, chunk_of_size, step_after_data, trailer_len, ReadsChunked};
ghost use Rattle.http_client.specs.Parts.{StepIs, LeavesBelow};
ghost use Rattle.http_client.specs.Replies.{Finds};

use crate::body::Body;
use crate::error::ReplyError;
use crate::frames::{empty_line_end, line_end_len};
use httparse::{Status, parse_chunk_size};
use std::alloc::Global;

/// What stands at the front of the bytes of a chunked body.
enum Piece<'b> {
    /// The data of a chunk, and the bytes behind the chunk.
    Chunk(&'b [u8], &'b [u8]),
    /// The end of the body, and the bytes behind the reply.
    Last(&'b [u8]),
}

/// Reads a chunked body, and answers the data of its chunks and the bytes behind it. The data of a
/// lone chunk is lent; that of several is copied once, into memory for all bytes that are left.
pub(crate) fn chunked_body(alloc: Global, bytes: &[u8]) -> Result<(Body<'_>, &[u8]), ReplyError>
    ensures found { Finds (λ found. (found.0, found.1.now)) result (ReadsChunked bytes.now) }
    ensures shorter { IfOk result (λ found. length found.1.now ≤ length bytes.now) }
{
    let mut body = Body::lent(&[]);
    let mut rest = bytes;
    'chunks: loop {
        match piece_at(rest) {
            Err(error) => return Err(error),
            Ok(piece) => match piece {
                Piece::Last(behind) => return Ok((body, behind)),
                Piece::Chunk(data, behind) => {
                    let Ok(longer) = body.with_piece(alloc, data, bytes.len()) else {
                        return Err(ReplyError::NoMemory);
                    };
                    body = longer;
                    rest = behind;
                }
            },
        }
    }
}

/// Reads a chunk, or the end of the body.
fn piece_at(bytes: &[u8]) -> Result<Piece<'_>, ReplyError>
    ensures step { StepIs result (ChunkStep bytes.now) }
    ensures shorter { LeavesBelow (length bytes.now) result }
{
    match size_line(bytes) {
        Err(error) => Err(error),
        Ok(found) => piece_of_size(found.0, found.1),
    }
}

/// Reads a size line, and answers the size and the bytes behind the line.
fn size_line(bytes: &[u8]) -> Result<(u64, &[u8]), ReplyError>
    ensures found { Finds (λ found. (found.0, found.1.now)) result (ReadsSize bytes.now) }
    ensures shorter { IfOk result (λ found. length found.1.now < length bytes.now) }
{
    match parse_chunk_size(bytes) {
        Err(_) => Err(ReplyError::Bad),
        Ok(status) => match status {
            Status::Partial => Err(ReplyError::Short),
            Status::Complete(found) => Ok((found.1, &bytes[found.0..])),
        },
    }
}

/// Reads what stands behind the size line of a chunk.
fn piece_of_size(size: u64, bytes: &[u8]) -> Result<Piece<'_>, ReplyError>
    ensures step { StepIs result (λ step. step ≡ chunk_of_size size bytes.now) }
    ensures shorter { LeavesBelow (length bytes.now + 1) result }
{
    if size == 0 {
        return match trailer_len(bytes) {
            None => Err(ReplyError::Short),
            Some(len) => Ok(Piece::Last(&bytes[len..])),
        };
    }
    if (bytes.len() as u64) < size {
        return Err(ReplyError::Short);
    }
    let size = size as usize;
    data_end(&bytes[..size], &bytes[size..])
}

/// Reads the CR LF behind a chunk's data.
fn data_end<'b>(chunk: &'b [u8], bytes: &'b [u8]) -> Result<Piece<'b>, ReplyError>
    ensures step { StepIs result (λ step. step ≡ step_after_data chunk.now bytes.now) }
    ensures shorter { LeavesBelow (length bytes.now + 1) result }
{
    match bytes {
        [] | [b'\r'] => Err(ReplyError::Short),
        [b'\r', b'\n', behind @ ..] => Ok(Piece::Chunk(chunk, behind)),
        _ => Err(ReplyError::Bad),
    }
}

/// The length of what ends the reply behind the last chunk, trailers included.
fn trailer_len(bytes: &[u8]) -> Option<usize>
    ensures value { result ≡ trailer_len bytes.now }
    ensures within { IfSome result (λ len. len ≤ length bytes.now) }
{
    match line_end_len(bytes) {
        Some(len) => Some(len),
        None => empty_line_end(bytes),
    }
}
