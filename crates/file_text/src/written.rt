//! Lines and parts written folded.

ghost use Rattle.std.specs.Prelude.{◌≡◌, ◌++◌, OnOk, take, string_bytes};
ghost use Rattle.file_text.specs.Spans.{parts_at};
ghost use Rattle.file_text.specs.Written as spec;

use crate::folds::push_folded;
use crate::marks::Mark;
use crate::parts::{Span, part_at};
use std::alloc::AllocError;

/// Puts a line behind what was there, folded.
pub(crate) fn put_line(out: &mut String, line: &str) -> Result<(), AllocError>
    ensures { OnOk result (string_bytes out.new ≡ string_bytes out.old ++ spec.folded line.now) }
{
    push_folded(out, line)
}

/// Puts the lines of a part behind what was there.
pub(crate) fn put_part(out: &mut String, part: &[Mark<'_>]) -> Result<(), AllocError>
    ensures { OnOk result (string_bytes out.new ≡ string_bytes out.old ++ spec.written part.now) }
{
    for line in part {
        put_line(out, line.text.as_str())?;
    }
    Ok(())
}

/// Puts the lines of some parts behind what was there.
pub(crate) fn put_parts(
    out: &mut String,
    lines: &[Mark<'_>],
    spans: &[Span],
) -> Result<(), AllocError>
    ensures { OnOk result (string_bytes out.new ≡ string_bytes out.old ++ spec.all_written (parts_at lines.now spans.now)) }
{
    for span in spans {
        put_part(out, part_at(lines, *span))?;
    }
    Ok(())
}
