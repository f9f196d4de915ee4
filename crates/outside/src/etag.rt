//! Etags of files.

ghost use Rattle.std.specs.Prelude.{◌≡◌, ◌<◌, IfOk, IfSome, length, vec_len};
ghost use Rattle.outside.specs.Etag.{etag};

use crate::folder::NoMemory;
use crate::std_streams::read_once;
use sha2::{Digest, Sha256};
use std::alloc::{AllocError, Global};
use std::io;
use std::io::{ErrorKind, Read};
use values::Text;

/// The etag of some bytes: their SHA-256 in lower-case hex digits.
pub fn etag_of(alloc: Global, bytes: &[u8]) -> Result<Text, NoMemory>
    ensures { IfOk result (λ text. text ≡ etag bytes.now) }
{
    let digest = Sha256::digest(bytes);
    Ok(Text::of(hex::encode(alloc, digest)?))
}

/// The etag of all that a stream still has, read piece by piece.
fn etag_of_stream<I: Read>(alloc: Global, stream: &mut I, piece: &mut [u8]) -> io::Result<Text>
    requires { 0 < length piece.old }
    ensures { IfOk result (λ text. IfSome (I.remaining stream.old) (λ rest. text ≡ etag rest)) }
{
    let mut hasher = Sha256::new();
    for _ in 0..u64::MAX {
        match read_once(stream, piece)? {
            0 => return Ok(Text::of(hex::encode(alloc, hasher.finalize())?)),
            read => hasher.update(&piece[..read]),
        }
    }
    Err(io::Error::from(ErrorKind::FileTooLarge))
}

/// Room for one piece of a file, so that a file of any length can be hashed.
#[derive(Drop)]
pub struct Piece {
    bytes: Vec<u8>,
    ghost has_room: { 0 < vec_len bytes },
}

const PIECE_LEN: usize = 65_536;

impl Piece {
    pub fn new(alloc: Global) -> Result<Piece, AllocError> {
        let mut bytes = Vec::new(alloc);
        bytes.resize(PIECE_LEN, 0)?;
        Ok(Piece { bytes })
    }

    /// The etag of all that a stream still has.
    pub fn etag_of_rest<I: Read>(&mut self, alloc: Global, stream: &mut I) -> io::Result<Text>
        ensures { IfOk result (λ text. IfSome (I.remaining stream.old) (λ rest. text ≡ etag rest)) }
    {
        etag_of_stream(alloc, stream, self.bytes.as_mut_slice())
    }
}
