//! Reads the reply that a file holds so many times: for timing.
#![tactic(auto)]

use http_client::read_reply;
use std::process::ExitCode;
use std::{env, fs, io};

fn main(rt: HostRuntime) -> io::Result<ExitCode> {
    let mut words = env::args(&rt)?;
    let Some(file) = words.nth(1) else {
        return Ok(ExitCode::SUCCESS);
    };
    let times = match words.next() {
        Some(word) => word.as_str().parse::<u32>().unwrap_or(1),
        None => 1,
    };
    let bytes = fs::read(&rt, file.as_str())?;
    let mut body = 0;
    for _ in 0..times {
        match read_reply(rt.alloc(), bytes.as_slice()) {
            Ok(reply) => body = reply.body.as_slice().len(),
            Err(error) => {
                println!(rt; "{} bytes: {error}", bytes.len())?;
                return Ok(ExitCode::FAILURE);
            }
        }
    }
    println!(rt; "{} bytes: body {body}", bytes.len())?;
    Ok(ExitCode::SUCCESS)
}
