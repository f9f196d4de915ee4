//! Reads the multistatus in a file so many times: for timing.
#![tactic(auto)]

use bumpalo::Bump;
use multistatus::{MultiError, read_multistatus};
use std::alloc::Global;
use std::process::ExitCode;
use std::{env, fs, io};

/// How many rows the bytes have, where they are read so many times.
fn count_of(alloc: Global, bytes: &[u8], times: u16) -> Result<usize, MultiError> {
    let mut count = 0;
    for _ in 0..times {
        let arena = Bump::new(alloc);
        let rows = read_multistatus(alloc, bytes, &arena)?;
        count = rows.len();
    }
    Ok(count)
}

fn main(rt: HostRuntime) -> io::Result<ExitCode> {
    let mut words = env::args(&rt)?;
    let Some(path) = words.nth(1) else {
        return Ok(ExitCode::SUCCESS);
    };
    let Some(times) = words.next() else {
        eprintln!(rt; "usage: multistatus_times FILE TIMES")?;
        return Ok(ExitCode::from(2));
    };
    let Ok(times) = times.as_str().parse::<u16>() else {
        eprintln!(rt; "usage: multistatus_times FILE TIMES")?;
        return Ok(ExitCode::from(2));
    };
    let bytes = fs::read(&rt, path.as_str())?;
    match count_of(rt.alloc(), bytes.as_slice(), times) {
        Ok(count) => {
            println!(rt; "{count} rows")?;
            Ok(ExitCode::SUCCESS)
        }
        Err(error) => {
            println!(rt; "{error}")?;
            Ok(ExitCode::FAILURE)
        }
    }
}
