//! Runs the worked rows of the working folder: without words over devices in memory, with `real FOLDER` over real
//! folders below that one.
#![tactic(auto)]

mod compare;
mod entry;
mod error;
mod json;
mod memory;
mod places;
mod plans;
mod ran;
mod real;
mod rows;
mod running;
mod sheets;
mod texts;

use rows::name_of;
use running::{Outcome, Runner, World};
use sheets::{Located, Sheet, Verdict, read_sheets};
use std::process::ExitCode;
use std::{env, io};

/// How many rows came out how.
#[derive(Clone, Copy)]
struct Tally {
    rows: u64,
    failed: u64,
    skipped: u64,
}

/// Prints how a row came out, and counts it.
fn tell(
    rt: &HostRuntime,
    tally: &mut Tally,
    name: &str,
    verdict: Verdict,
    outcome: &Outcome,
) -> io::Result<()> {
    let is_wanted = match outcome {
        Outcome::Skipped => {
            tally.skipped = tally.skipped.saturating_add(1);
            return Ok(());
        }
        Outcome::AsExpected => {
            println!(rt; "ok {name}")?;
            matches!(verdict, Verdict::Ok)
        }
        Outcome::Differs { run, differences } => {
            println!(rt; "not ok {name}: run {run}: {differences}")?;
            matches!(verdict, Verdict::NotOk)
        }
    };
    tally.rows = tally.rows.saturating_add(1);
    if !is_wanted {
        tally.failed = tally.failed.saturating_add(1);
    }
    Ok(())
}

/// Runs the rows of a file.
fn run_sheet(runner: &Runner<'_>, sheet: &Sheet, tally: &mut Tally) -> Result<(), Located> {
    let alloc = runner.rt.alloc();
    for form in sheet.rows() {
        let (name, verdict) = (name_of(form), sheet.verdict);
        let number = tally.rows.saturating_add(tally.skipped);
        let done = match runner.run(form, verdict, number) {
            Ok(outcome) => {
                tell(runner.rt, tally, name, verdict, &outcome).map_err(|error| error.into())
            }
            Err(error) => Err(error),
        };
        if let Err(error) = done {
            return Err(Located::in_row(alloc, sheet.file.as_str(), name, error));
        }
    }
    Ok(())
}

/// Runs all rows.
fn run_all(rt: &HostRuntime, world: World<'_>) -> Result<Tally, Located> {
    let (sheets, texts) = read_sheets(rt)?;
    let runner = Runner {
        rt,
        world,
        texts: &texts,
    };
    let mut tally = Tally {
        rows: 0,
        failed: 0,
        skipped: 0,
    };
    for sheet in &sheets {
        run_sheet(&runner, sheet, &mut tally)?;
    }
    Ok(tally)
}

fn main(rt: HostRuntime) -> io::Result<ExitCode> {
    let mut words = env::args(&rt)?;
    let (first, second) = (words.nth(1), words.next());
    let world = match (&first, &second) {
        (None, None) => World::Memory,
        (Some(word), Some(folder)) if word.as_str() == "real" => World::Real(folder.as_str()),
        _ => {
            eprintln!(rt; "usage: worked_rows [real FOLDER]")?;
            return Ok(ExitCode::from(2));
        }
    };
    let tally = match run_all(&rt, world) {
        Ok(tally) => tally,
        Err(error) => {
            println!(rt; "{error}")?;
            return Ok(ExitCode::FAILURE);
        }
    };
    let Tally {
        rows,
        failed,
        skipped,
    } = tally;
    if skipped > 0 {
        println!(rt; "{skipped} rows need devices in memory")?;
    }
    println!(rt; "{rows} rows, {failed} failed")?;
    Ok(if failed == 0 {
        ExitCode::SUCCESS
    } else {
        ExitCode::FAILURE
    })
}
