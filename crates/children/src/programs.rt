//! The calls of the system that start programs.

mod files;

ghost use Rattle.std.specs.Prelude.{◌≡◌, ◌<◌, unwrap_or, length, negsuc};
ghost use Rattle.std.specs.Process.{exit_code};

use crate::spawner::{Edited, Ended};
use files::{Pair, read_file};
use std::alloc::Global;
use std::io;
use std::io::Read;
use std::process::{Child, Command, ExitStatus, OpenProcess, Processes, Stdio};
use std::rt::{Env, Files};
use values::{Bytes, Text};

/// The status of a program, -1 for one that a signal ended.
fn status_of(status: ExitStatus) -> i32
    ensures { result ≡ unwrap_or (exit_code status) (negsuc 0) }
{
    status.code().unwrap_or(-1)
}

/// A program by its words: its name, and what it is told.
fn command_of(alloc: Global, argv: &[Text]) -> io::Result<Command>
    requires { 0 < length argv.now }
{
    let mut command = Command::new(alloc, argv[0].as_str())?;
    for word in &argv[1..] {
        command.arg(word.as_str())?;
    }
    Ok(command)
}

/// What a program writes to its standard output, but no more than one byte above the limit.
fn output_of<P: OpenProcess>(
    alloc: Global,
    child: &mut Child<P>,
    limit: u64,
) -> io::Result<Vec<u8>> {
    let mut output = Vec::new(alloc);
    if let Some(stdout) = child.stdout.take() {
        stdout
            .take(limit.saturating_add(1))
            .read_to_end(&mut output)?;
    }
    Ok(output)
}

/// Whether a program is to be ended: its output can't be read, or is past the limit.
fn is_to_end(output: &io::Result<Vec<u8>>, limit: u64) -> bool {
    match output {
        Ok(bytes) => bytes.len() as u64 > limit,
        Err(_) => true,
    }
}

/// Runs a program without input to its end.
pub fn run_program<R: Processes + AllocGlobal>(
    rt: &R,
    argv: &[Text],
    limit: u64,
) -> io::Result<Ended>
    requires { 0 < length argv.now }
{
    let mut command = command_of(rt.alloc(), argv)?;
    command.stdin(Stdio::null());
    command.stdout(Stdio::piped());
    let mut child = command.spawn(rt)?;
    let output = output_of(rt.alloc(), &mut child, limit);
    if is_to_end(&output, limit) {
        let _ = child.kill();
    }
    let status = child.wait()?;
    Ok(Ended {
        status: status_of(status),
        output: Bytes::of(output?),
    })
}

/// Runs an editor over two files to its end.
fn edit_pair<R: Processes + Files + AllocGlobal>(
    rt: &R,
    argv: &[Text],
    pair: &Pair,
    limit: u64,
) -> io::Result<Edited>
    requires { 0 < length argv.now }
{
    let mut command = command_of(rt.alloc(), argv)?;
    command.arg(pair.a.as_str())?;
    command.arg(pair.b.as_str())?;
    let status = command.status(rt)?;
    Ok(Edited {
        status: status_of(status),
        a: read_file(rt, pair.a.as_str(), limit)?,
        b: read_file(rt, pair.b.as_str(), limit)?,
    })
}

/// Runs an editor over two texts, which stand in files of their own while it runs.
pub fn edit_files<R: Processes + Files + Env + AllocGlobal>(
    rt: &R,
    argv: &[Text],
    a: &[u8],
    b: &[u8],
    limit: u64,
) -> io::Result<Edited>
    requires { 0 < length argv.now }
{
    let pair = Pair::make(rt)?;
    let edited = match pair.fill(rt, a, b) {
        Ok(()) => edit_pair(rt, argv, &pair, limit),
        Err(error) => Err(error),
    };
    pair.remove(rt);
    edited
}
