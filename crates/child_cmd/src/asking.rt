//! Texts that are asked for.

ghost use Rattle.std.specs.Prelude.{◌≡◌, ◌≤◌, IfErr};
ghost use Rattle.outside.specs.Causes.{Rose};
ghost use Rattle.child_cmd.specs.Fetching.{AskedAnswer, PromptWritten, PromptCause, LineTo};

use crate::fetch_error::FetchError;
use crate::input_line::{LineError, read_line};
use crate::value_text::value_text;
use outside::{Sink, SinkFault, Source, write_all};
use std::alloc::Global;
use values::Text;

/// The value of a line that was read. The end of the input is no empty line.
fn line_value(line: Result<Option<Text>, LineError>) -> Result<Text, FetchError>
    ensures { LineTo line result }
{
    match line {
        Ok(None) => Err(FetchError::Ended),
        Ok(Some(text)) => value_text(text.into_string().into_bytes()),
        Err(LineError::Fault) => Err(FetchError::Input),
        Err(LineError::TooLong) => Err(FetchError::TooLong),
        Err(LineError::NotUtf8) => Err(FetchError::Text),
        Err(LineError::NoMemory) => Err(FetchError::NoMemory),
    }
}

/// Reads the answer to a prompt.
fn read_answer<I: Source>(alloc: Global, input: &mut I) -> Result<Text, FetchError>
    ensures later { I.count input.old ≤ I.count input.new }
    ensures cause { IfErr result (PromptCause (Rose (I.count input.old) (I.count input.new)) ⊥) }
    ensures told { I.tells input.old → I.tells input.new × AskedAnswer (I.left input.old) (I.left input.new) result }
{
    let line = read_line(alloc, input);
    line_value(line)
}

/// Writes a prompt, and reads the answer to it.
pub fn ask<I: Source, E: Sink>(
    alloc: Global,
    text: &str,
    input: &mut I,
    err: &mut E,
) -> Result<Text, FetchError>
    ensures read { I.count input.old ≤ I.count input.new }
    ensures wrote { E.count err.old ≤ E.count err.new }
    ensures cause { IfErr result (PromptCause (Rose (I.count input.old) (I.count input.new)) (Rose (E.count err.old) (E.count err.new))) }
    ensures asked { I.tells input.old → I.tells input.new × AskedAnswer (I.left input.old) (I.left input.new) result }
    ensures written { E.tells err.old → E.tells err.new × PromptWritten (E.held err.old) (E.held err.new) text.now result }
{
    match write_all(err, text.as_bytes()) {
        Err(SinkFault) => Err(FetchError::Output),
        Ok(()) => read_answer(alloc, input),
    }
}
