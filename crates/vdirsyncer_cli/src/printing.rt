//! Prints texts to sinks.

ghost use Rattle.std.specs.Prelude.{◌≡◌, ◌≢◌, codes};
ghost use Rattle.vdirsyncer_cli.specs.Printing.{Prints};

use outside::{Sink, SinkFault, write_all};

/// Whether a text was printed whole.
#[derive(Clone, Copy, Debug, PartialEq, Eq)]
pub enum Cut {
    Whole,
    /// The sink failed: a front of the text was written, and nothing more is.
    WriteFault,
    /// Memory ran out before all of the text was made.
    Starved,
}

/// Prints a text, whole or up to a fault of the sink.
pub fn print<S: Sink>(out: &mut S, text: &str) -> Cut
    ensures printed { Prints S.count S.tells S.held out.old out.new text.now result }
    ensures not_starved { result ≢ Cut.Starved }
{
    match write_all(out, text.as_bytes()) {
        Ok(()) => Cut::Whole,
        Err(SinkFault) => Cut::WriteFault,
    }
}
