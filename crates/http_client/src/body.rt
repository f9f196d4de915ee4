//! The body of a reply.

ghost use Rattle.std.specs.Prelude.{◌≡◌, ◌++◌, [], IfOk};

use std::alloc::{AllocError, Global};
use std::borrow::CowSlice;
use std::marker::Model;

/// The body of a reply: lent from the reply's bytes where it stands there in one piece, and made
/// of its pieces where there are several. Contracts see its bytes.
#[derive(Debug, Drop)]
pub struct Body<'a> {
    pub(crate) content: CowSlice<'a, u8>,
}

impl<'a> Model for Body<'a> {
    ghost use Rattle.std.specs.Prelude.{ℕ, List};
    ghost use Rattle.std.specs.Cow.{cow_slice_items};

    ghost Value = { List ℕ };

    ghost view = { λ b. cow_slice_items b.content };
}

impl<'a> Body<'a> {
    pub(crate) fn lent(bytes: &'a [u8]) -> Body<'a>
        ensures { result ≡ bytes.now }
    {
        Body {
            content: CowSlice::Borrowed(bytes),
        }
    }

    pub fn as_slice(&self) -> &[u8]
        ensures { result.now ≡ self.now }
    {
        self.content.as_slice()
    }

    /// The body with a further piece. Room for `room` bytes is made once, with the second piece.
    pub(crate) fn with_piece(
        self,
        alloc: Global,
        piece: &'a [u8],
        room: usize,
    ) -> Result<Body<'a>, AllocError>
        ensures { IfOk result (λ body. body ≡ self.entry ++ piece.now) }
    {
        match self.content {
            CowSlice::Owned(made) => grown(made, piece),
            CowSlice::Borrowed(first) => {
                if first.is_empty() {
                    return Ok(Body::lent(piece));
                }
                joined(alloc, first, piece, room)
            }
        }
    }
}

/// A made body with a further piece.
fn grown<'a>(made: Vec<u8>, piece: &[u8]) -> Result<Body<'a>, AllocError>
    ensures { IfOk result (λ body. body ≡ made.items ++ piece.now) }
{
    let mut all = made;
    all.extend_from_slice(piece)?;
    Ok(Body {
        content: CowSlice::Owned(all),
    })
}

/// A body of two pieces, with room for so many bytes.
fn joined<'a>(
    alloc: Global,
    first: &[u8],
    second: &[u8],
    room: usize,
) -> Result<Body<'a>, AllocError>
    ensures { IfOk result (λ body. body ≡ first.now ++ second.now) }
{
    let mut all = Vec::with_capacity(alloc, room)?;
    all.extend_from_slice(first)?;
    all.extend_from_slice(second)?;
    Ok(Body {
        content: CowSlice::Owned(all),
    })
}
