//! The program `vdirsyncer`: it makes the real devices and calls `run_words`.
#![tactic(auto)]

use outfits::RealOutfit;
use outside::{NoMemory, StdSink, StdSource};
use std::alloc::Global;
use std::env::{self, VarError};
use std::io::ErrorKind;
use std::process::ExitCode;
use values::Text;
use vdirsyncer_cli::{Env, run_words};

/// The exit status of a want of memory.
const OUT_OF_MEMORY: u8 = 3;

/// The words behind the program's name. Where one of them isn't UTF-8 there are none, which are wrong words.
fn words_of(rt: &HostRuntime, alloc: Global) -> Result<Vec<Text>, NoMemory> {
    let mut words = Vec::new(alloc);
    let given = match env::args(rt) {
        Ok(given) => given,
        Err(error) if error.kind() == ErrorKind::OutOfMemory => return Err(NoMemory),
        Err(_) => return Ok(words),
    };
    for word in given.skip(1) {
        words.push(Text::of(word))?;
    }
    Ok(words)
}

/// A variable of the environment; none where it isn't set or isn't UTF-8.
fn variable(rt: &HostRuntime, name: &str) -> Result<Option<Text>, NoMemory> {
    match env::var(rt, name) {
        Ok(value) => Ok(Some(Text::of(value))),
        Err(VarError::OutOfMemory) => Err(NoMemory),
        Err(_) => Ok(None),
    }
}

/// What the environment says.
fn environment_of(rt: &HostRuntime) -> Result<Env, NoMemory> {
    Ok(Env {
        home: variable(rt, "HOME")?,
        xdg_config: variable(rt, "XDG_CONFIG_HOME")?,
        vdirsyncer_config: variable(rt, "VDIRSYNCER_CONFIG")?,
    })
}

fn main(rt: HostRuntime) -> ExitCode {
    let alloc = rt.alloc();
    let mut input = StdSource::new(rt.stdin());
    let mut out = StdSink::new(rt.stdout());
    let mut err = StdSink::new(rt.stderr());
    let words = match words_of(&rt, alloc) {
        Ok(words) => words,
        Err(NoMemory) => return ExitCode::from(OUT_OF_MEMORY),
    };
    let environment = match environment_of(&rt) {
        Ok(environment) => environment,
        Err(NoMemory) => return ExitCode::from(OUT_OF_MEMORY),
    };
    let mut outfit = match rt.clone() {
        Ok(runtime) => RealOutfit::new(alloc, runtime),
        Err(_) => return ExitCode::from(OUT_OF_MEMORY),
    };
    ExitCode::from(run_words(
        alloc,
        &words,
        &environment,
        &mut outfit,
        &mut input,
        &mut out,
        &mut err,
    ))
}
