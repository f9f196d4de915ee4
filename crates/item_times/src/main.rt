//! Reads the item that a file holds so many times: for timing.
#![tactic(auto)]

use item_text::Item;
use std::process::ExitCode;
use std::{env, fs, io};

fn main(rt: HostRuntime) -> io::Result<ExitCode> {
    let mut words = env::args(&rt)?;
    let Some(file) = words.nth(1) else {
        return Ok(ExitCode::SUCCESS);
    };
    let times = match words.next() {
        Some(word) => word.as_str().parse::<u32>().unwrap_or(1),
        None => 1,
    };
    let bytes = fs::read(&rt, file.as_str())?;
    for _ in 0..times {
        if let Err(error) = Item::read(rt.alloc(), bytes.as_slice()) {
            eprintln!(rt; "{error}")?;
            return Ok(ExitCode::FAILURE);
        }
    }
    println!(rt; "{times} times {} bytes", bytes.len())?;
    Ok(ExitCode::SUCCESS)
}
