//! Fetching a text.

ghost use Rattle.std.specs.Prelude.{◌≡◌, ◌≤◌, IsTrue, IfErr};
ghost use Rattle.outside.specs.Causes.{Rose};
ghost use Rattle.child_cmd.specs.Ways.{is_command, is_one_text, is_fetch, way_of};
ghost use Rattle.child_cmd.specs.Fetching.{ChildAnswer, InputAnswer, ErrAnswer, FetchCause, Untouched};

use crate::asking::ask;
use crate::fetch_error::FetchError;
use crate::running::{run_program, run_shell};
use children::Spawner;
use outside::{Sink, Source};
use std::alloc::Global;
use values::Text;

/// Whether these words run a command.
fn is_command(words: &[Text]) -> bool
    ensures { result ≡ is_command words.now }
{
    match words {
        [kind, _, ..] => kind.as_str() == "command",
        _ => false,
    }
}

/// Whether these words are a line of the shell or a prompt.
fn is_one_text(words: &[Text]) -> bool
    ensures { result ≡ is_one_text words.now }
{
    match words {
        [kind, _] => kind.as_str() == "shell" || kind.as_str() == "prompt",
        _ => false,
    }
}

/// Whether these words say how a text is fetched: `command` with a program and what it is told, `shell` with a line,
/// or `prompt` with a text.
pub fn is_fetch(words: &[Text]) -> bool
    ensures { result ≡ is_fetch words.now }
{
    is_command(words) || is_one_text(words)
}

/// Fetches a text. `command` runs a program, `shell` runs `sh -c` with a line, and the value is what the program wrote
/// to its standard output; `prompt` writes a text to `err` and reads a line of the input. The value has no CR and LF at
/// its end. It stands in no error.
///
/// `Fault`: the spawner failed. `Status`: the program ended with this status, and not with 0. `TooLong`: it wrote more
/// than 1 MiB, or the line has more than 4,096 bytes. `Text`: the value isn't UTF-8. `Ended`: the input ended before
/// the line. `Input`, `Output`: the input or `err` failed. `NoMemory`: memory ran out, and the program ran or it didn't.
pub fn fetch_one<C: Spawner, I: Source, E: Sink>(
    alloc: Global,
    words: &[Text],
    child: &mut C,
    input: &mut I,
    err: &mut E,
) -> Result<Text, FetchError>
    requires { IsTrue (is_fetch words.now) }
    ensures ran { C.count child.old ≤ C.count child.new }
    ensures read { I.count input.old ≤ I.count input.new }
    ensures wrote { E.count err.old ≤ E.count err.new }
    ensures cause { IfErr result (FetchCause (way_of words.now) (Rose (C.count child.old) (C.count child.new)) (Rose (I.count input.old) (I.count input.new)) (Rose (E.count err.old) (E.count err.new))) }
    ensures others { Untouched (way_of words.now) child.old child.new input.old input.new err.old err.new }
    ensures program { C.tells child.old → C.tells child.new × ChildAnswer (way_of words.now) (C.state child.old) (C.state child.new) result }
    ensures answer { I.tells input.old → I.tells input.new × InputAnswer (way_of words.now) (I.left input.old) (I.left input.new) result }
    ensures prompt { E.tells err.old → E.tells err.new × ErrAnswer (way_of words.now) (E.held err.old) (E.held err.new) result }
{
    let kind = words[0].as_str();
    if kind == "prompt" {
        return ask(alloc, words[1].as_str(), input, err);
    }
    if kind == "shell" {
        return run_shell(alloc, child, &words[1..]);
    }
    run_program(child, &words[1..])
}
