//! Reads the configuration that a file holds so many times: for timing.
#![tactic(auto)]

use config_model::read_config;
use std::process::ExitCode;
use std::{env, fs, io};

fn main(rt: HostRuntime) -> io::Result<ExitCode> {
    let mut words = env::args(&rt)?;
    let Some(file) = words.nth(1) else {
        return Ok(ExitCode::SUCCESS);
    };
    let times = match words.next() {
        Some(word) => word.as_str().parse::<u32>().unwrap_or(1),
        None => 1,
    };
    let bytes = fs::read(&rt, file.as_str())?;
    let mut pairs = 0;
    let mut storages = 0;
    for _ in 0..times {
        match read_config(rt.alloc(), bytes.as_slice()) {
            Ok(config) => {
                pairs = config.pairs.len();
                storages = config.storages.len();
            }
            Err(error) => {
                eprintln!(rt; "{error}")?;
                return Ok(ExitCode::FAILURE);
            }
        }
    }
    println!(rt;
        "{times} times {} bytes: {pairs} pairs, {storages} storages",
        bytes.len()
    )?;
    Ok(ExitCode::SUCCESS)
}
