//! A line of an input.

ghost use Rattle.std.specs.Prelude.{◌≡◌, ◌≤◌, IfErr};
ghost use Rattle.outside.specs.Causes.{Rose};
ghost use Rattle.child_cmd.specs.InputLines.{TakesNext, NextCause, TakesRaw, without_return, LineText, LineAnswer, LineCause};

use crate::utf8::text_in;
use outside::{Source, SourceFault};
use std::alloc::Global;
use thiserror::Error;
use values::Text;

/// The most bytes that a line may have before its line feed.
pub const MAX_LINE: usize = 4096;

/// What a line is read into: one byte more than it may have.
const ROOM: usize = MAX_LINE + 1;

/// Why a line can't be read.
#[derive(Debug, Drop, Error)]
pub enum LineError {
    /// The input failed, and its count of faults rose. Some first bytes of it may be lost.
    #[error("input fault")]
    Fault,
    /// More than 4,096 bytes stand before the line feed: the first 4,097 are gone.
    #[error("too long")]
    TooLong,
    /// The line isn't UTF-8. It is gone.
    #[error("not UTF-8")]
    NotUtf8,
    /// Memory ran out, and nothing was read.
    #[error("out of memory")]
    NoMemory,
}

/// What stands next in an input.
enum Next {
    Byte(u8),
    Feed,
    End,
    Fault,
}

/// A line's bytes before its line feed.
#[derive(Drop)]
struct RawLine {
    bytes: Vec<u8>,
    /// Whether a line feed ends it, and not the end of the input.
    is_ended: bool,
}

/// Takes the next byte.
fn take_next<I: Source>(input: &mut I) -> Next
    ensures later { I.count input.old ≤ I.count input.new }
    ensures cause { NextCause (Rose (I.count input.old) (I.count input.new)) result }
    ensures told { I.tells input.old → I.tells input.new × TakesNext (I.left input.old) (I.left input.new) result }
{
    let mut piece = [0u8; 1];
    match input.read(&mut piece) {
        Ok(0) => Next::End,
        Ok(_) if piece[0] == b'\n' => Next::Feed,
        Ok(_) => Next::Byte(piece[0]),
        Err(SourceFault) => Next::Fault,
    }
}

/// Takes the first line, byte by byte.
fn take_raw<I: Source>(alloc: Global, input: &mut I) -> Result<RawLine, LineError>
    ensures later { I.count input.old ≤ I.count input.new }
    ensures cause { IfErr result (LineCause (Rose (I.count input.old) (I.count input.new))) }
    ensures told { I.tells input.old → I.tells input.new × TakesRaw (I.left input.old) (I.left input.new) result }
{
    let Ok(mut bytes) = Vec::with_capacity(alloc, ROOM) else {
        return Err(LineError::NoMemory);
    };
    'bytes: while bytes.len() < ROOM {
        match take_next(input) {
            Next::Byte(byte) => bytes.push(byte).unwrap(),
            Next::Feed => return Ok(RawLine {
                bytes,
                is_ended: true,
            }),
            Next::End => return Ok(RawLine {
                bytes,
                is_ended: false,
            }),
            Next::Fault => return Err(LineError::Fault),
        }
    }
    Err(LineError::TooLong)
}

/// A line without one CR at its end.
fn without_return(mut bytes: Vec<u8>) -> Vec<u8>
    ensures { result.items ≡ without_return bytes.items }
{
    if bytes.as_slice().ends_with(b"\r") {
        bytes.truncate(bytes.len() - 1);
        return bytes;
    }
    bytes
}

/// The text of a line. None where the input ended before it.
fn text_of(raw: RawLine) -> Result<Option<Text>, LineError>
    ensures { LineText raw.bytes.items raw.is_ended result }
{
    if raw.bytes.is_empty() && !raw.is_ended {
        return Ok(None);
    }
    match text_in(without_return(raw.bytes)) {
        Some(line) => Ok(Some(line)),
        None => Err(LineError::NotUtf8),
    }
}

/// Reads the first line of an input, byte by byte, and gives it without its line feed and one CR before that. None at
/// the end of the input. What stands behind the line is left.
pub fn read_line<I: Source>(alloc: Global, input: &mut I) -> Result<Option<Text>, LineError>
    ensures later { I.count input.old ≤ I.count input.new }
    ensures cause { IfErr result (LineCause (Rose (I.count input.old) (I.count input.new))) }
    ensures told { I.tells input.old → I.tells input.new × LineAnswer (I.left input.old) (I.left input.new) result }
{
    match take_raw(alloc, input) {
        Ok(raw) => text_of(raw),
        Err(error) => Err(error),
    }
}
