//! How a logical line is written: in physical lines of at most 75 bytes.

ghost use Rattle.std.specs.Prelude.{◌≡◌, ◌<◌, ◌≤◌, ◌++◌, ℕ, List, OnOk, length, string_bytes};
ghost use Rattle.std.specs.Str.{IsCharBoundary};
ghost use Rattle.file_text.specs.Folds as spec;
ghost use Rattle.file_text.specs.Folds.{IsFolded};

use std::alloc::AllocError;

/// The most bytes of a physical line, without its end.
const MAX_LINE: usize = 75;

/// The most bytes at the front of a text, no more than `most`, behind which no character is cut.
fn fitting(text: &str, most: usize) -> usize
    ensures count { result ≡ spec.fitting most text.now }
    ensures border { IsCharBoundary text.now result }
    ensures some { 4 ≤ most → most < length text.now → 0 < result }
{
    text.floor_char_boundary(most)
}

/// Puts a logical line behind what was there, folded. Where memory runs out, a part of it may stand there.
pub fn push_folded(out: &mut String, line: &str) -> Result<(), AllocError>
    ensures { (bytes : List ℕ) × (string_bytes out.new ≡ string_bytes out.old ++ bytes) × OnOk result (IsFolded line.now bytes) }
{
    let mut rest = line;
    let mut most = MAX_LINE;
    while rest.len() > most {
        let (piece, behind) = rest.split_at(fitting(rest, most));
        out.push_str(piece)?;
        out.push_str("\r\n ")?;
        rest = behind;
        most = MAX_LINE - 1;
    }
    out.push_str(rest)?;
    out.push_str("\r\n")
}
