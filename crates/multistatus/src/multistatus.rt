//! A multistatus, read from its bytes.

ghost use Rattle.multistatus.specs.Multistatus.{HasRows, IsAnswer};
ghost use Rattle.multistatus.specs.Reader.{RunsTo};
ghost use Rattle.std.specs.Prelude.{◌≡◌, ℕ, List, IsUtf8, Ok, Err};
ghost use Rattle.multistatus.specs.declared.rows.Response.{Response};

use crate::MultiError;
use crate::reader::Reader;
use crate::rows::Response;
use crate::tokens::{token_at, without_declaration, without_mark};
use bumpalo::Bump;
use std::alloc::Global;
use values::Sequence;

/// Reads the body of a multistatus reply: its rows, in order. A response of several hrefs gives a row for each. The rows
/// lend from the bytes; a text that doesn't stand there as it is (with references, CR or several pieces) stands in the arena.
pub fn read_multistatus<'a>(
    alloc: Global,
    bytes: &'a [u8],
    arena: &'a Bump,
) -> Result<Sequence<Response<'a>>, MultiError>
    ensures answer { IsAnswer (HasRows bytes.now) result }
    ensures exact { (rows : List Response) → HasRows bytes.now rows → IsAnswer (λ found. found ≡ rows) result }
{
    find_rows(alloc, bytes, arena)
}

fn find_rows<'a>(
    alloc: Global,
    bytes: &'a [u8],
    arena: &'a Bump,
) -> Result<Sequence<Response<'a>>, MultiError>
    ensures { IsAnswer (HasRows bytes.now) result }
{
    match std::str::from_utf8(bytes) {
        Err(_) => Err(MultiError::Bad),
        Ok(text) => rows_of_text(alloc, text, arena),
    }
}

/// The rows of a text, which may begin with a byte order mark and a declaration.
fn rows_of_text<'a>(
    alloc: Global,
    text: &'a str,
    arena: &'a Bump,
) -> Result<Sequence<Response<'a>>, MultiError>
    ensures { IsAnswer (HasRows text.now) result }
{
    match without_declaration(without_mark(text)) {
        Err(error) => Err(error),
        Ok(body) => rows_of_body(alloc, body, arena),
    }
}

/// The rows of a document behind its declaration.
fn rows_of_body<'a>(
    alloc: Global,
    body: &'a str,
    arena: &'a Bump,
) -> Result<Sequence<Response<'a>>, MultiError>
    ensures { IsAnswer (RunsTo body.now) result }
{
    let mut reader = Reader::new(alloc);
    let mut rest = body;
    'tokens: while !rest.is_empty() {
        match token_at(alloc, arena, rest) {
            Err(error) => return Err(error),
            Ok(found) => match reader.behind(alloc, arena, found.0) {
                Err(error) => return Err(error),
                Ok(next) => {
                    reader = next;
                    rest = found.1;
                }
            },
        }
    }
    reader.rows_at_end()
}
