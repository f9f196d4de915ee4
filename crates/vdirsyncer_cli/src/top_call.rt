//! The top call.

ghost use Rattle.std.specs.Prelude.{◌≡◌, IfOk};
ghost use Rattle.std.specs.List.{AllByRecursion};
ghost use Rattle.std.specs.Option.{option_copied};
ghost use Rattle.outfits.specs.Places.{IsSame, IsWhole, StayTold};
ghost use Rattle.outfits.specs.Children.{child_by};
ghost use Rattle.cli_jobs.specs.Texts.{refusal_text};
ghost use Rattle.cli_jobs.specs.declared.refusal.Refusal.TheVariants as refusal;
ghost use Rattle.cli_words.specs.Words.{meaning_of};
ghost use Rattle.config_fetch.specs.Fetches.{FetchedBy};
ghost use Rattle.config_fetch.specs.Filling.{Fills, IsStill, world};
ghost use Rattle.vdirsyncer_cli.specs.Asked.{asked_of};
ghost use Rattle.vdirsyncer_cli.specs.CleanRuns.{PromisedRun, SinkIsStill, SinkIsSilent};
ghost use Rattle.vdirsyncer_cli.specs.Files.{file_text};
ghost use Rattle.vdirsyncer_cli.specs.JobLists.{MayRun};
ghost use Rattle.vdirsyncer_cli.specs.Printing.{Prints, PrintsTo};
ghost use Rattle.vdirsyncer_cli.specs.Settling.{SettlesOrTries};
ghost use Rattle.vdirsyncer_cli.specs.Runs.{WordsRun, Refuses, FinishesBy, TellsStarved, cut_status};

use crate::asked::{Asked, Wanted, asked_of};
use crate::config_read::read_through;
use crate::env::Env;
use crate::file_error::{FileError, file_text};
use crate::jobs::{Progress, run_jobs};
use crate::printing::{Cut, print};
use cli_jobs::{Refusal, SyncJob, chosen_jobs, config_of, refusal_text};
use cli_text::exit_status;
use cli_words::usage;
use config_fetch::fill_texts;
use outfits::Outfit;
use outside::{NoMemory, Sink, Source};
use std::alloc::Global;
use values::{Bytes, Sequence, Text};

/// Tells a want of memory outside a job.
fn tell_starved<E: Sink>(err: &mut E) -> u8
    ensures { TellsStarved (Prints E.count E.tells E.held err.old err.new) result }
{
    let _ = print(err, "out of memory\n");
    3
}

/// The exit status by what became of a text.
fn status_of_cut(cut: Cut) -> u8
    ensures { result ≡ cut_status cut }
{
    match cut {
        Cut::Whole => 0,
        Cut::WriteFault => 1,
        Cut::Starved => 3,
    }
}

/// Tells why the file of the configuration can't be read.
fn refuse_file<E: Sink>(alloc: Global, file: &str, error: FileError, err: &mut E) -> u8
    ensures { Refuses (error ≡ FileError.NoMemory) (file_text file.now error) (Prints E.count E.tells E.held err.old err.new) result }
{
    match error {
        FileError::NoMemory => tell_starved(err),
        error => match file_text(alloc, file, &error) {
            Ok(text) => {
                let _ = print(err, text.as_str());
                1
            }
            Err(NoMemory) => tell_starved(err),
        },
    }
}

/// Tells why there are no jobs.
fn refuse<E: Sink>(alloc: Global, reason: Refusal, err: &mut E) -> u8
    ensures { Refuses (reason ≡ refusal.NoMemory) (refusal_text reason) (Prints E.count E.tells E.held err.old err.new) result }
{
    match reason {
        Refusal::NoMemory => tell_starved(err),
        reason => match refusal_text(alloc, &reason) {
            Ok(text) => {
                let _ = print(err, text.as_str());
                1
            }
            Err(NoMemory) => tell_starved(err),
        },
    }
}

/// The exit status behind the jobs. A want of memory outside a job is told.
fn finish<E: Sink>(progress: &Progress, err: &mut E) -> u8
    ensures { FinishesBy progress.now.is_starved progress.now (Prints E.count E.tells E.held err.old err.new) result }
{
    if progress.is_starved {
        return tell_starved(err);
    }
    let write_fault = matches!(progress.cut, Cut::WriteFault);
    exit_status(progress.reports.as_slice(), write_fault)
}

fn home_of(wanted: &Wanted) -> Option<&str>
    ensures { option_copied result ≡ wanted.now.home }
{
    match &wanted.home {
        Some(home) => Some(home.as_str()),
        None => None,
    }
}

/// The jobs that are wanted of a configuration, once its texts are fetched.
fn settle<O: Outfit, I: Source, E: Sink>(
    alloc: Global,
    wanted: &Wanted,
    bytes: &Bytes,
    outfit: &mut O,
    input: &mut I,
    err: &mut E,
) -> Result<Sequence<SyncJob>, Refusal>
    ensures settles { SettlesOrTries (IsStill O.children) (Fills O.children O.tells_child (child_by O.Child.count O.Child.state) O.Child.tells (FetchedBy O.Child.count O.Child.tells O.Child.state I.count I.tells I.left E.count E.tells E.held)) wanted.now bytes.now (world outfit.old input.old err.old) (world outfit.new input.new err.new) result }
    ensures may_run { IfOk result (AllByRecursion MayRun) }
    ensures same { IsSame (O.places outfit.old) (O.places outfit.new) }
    ensures stay_told { StayTold (O.tells outfit.old) (O.tells outfit.new) }
    ensures all_back { (O.children outfit.new).out ≡ (O.children outfit.old).out }
{
    let names = wanted.names.as_slice();
    let home = home_of(wanted);
    let config = match config_of(alloc, bytes.as_slice()) {
        Ok(config) => config,
        Err(refusal) => return Err(refusal),
    };
    match fill_texts(alloc, names, home, config, outfit, input, err) {
        Ok(config) => chosen_jobs(alloc, names, home, &config),
        Err(refusal) => Err(refusal),
    }
}

/// Reads the configuration and runs its jobs.
fn sync<O: Outfit, I: Source, S: Sink, E: Sink>(
    alloc: Global,
    wanted: &Wanted,
    outfit: &mut O,
    input: &mut I,
    out: &mut S,
    err: &mut E,
) -> u8
    requires { IsWhole (O.places outfit.old) }
    ensures whole { IsWhole (O.places outfit.new) }
    ensures all_back { (O.children outfit.new).out ≡ (O.children outfit.old).out }
    ensures run { WordsRun O.places O.tells O.children O.tells_child (Fills O.children O.tells_child (child_by O.Child.count O.Child.state) O.Child.tells (FetchedBy O.Child.count O.Child.tells O.Child.state I.count I.tells I.left E.count E.tells E.held)) (world outfit.old input.old err.old) outfit.new input.new (Asked.Run wanted.now)
        (Prints S.count S.tells S.held out.old out.new) (PrintsTo E.count E.tells E.held err.new) result }
{
    let file = wanted.file.as_str();
    let bytes = match read_through(file, outfit) {
        Ok(bytes) => bytes,
        Err(error) => return refuse_file(alloc, file, error, err),
    };
    let jobs = match settle(alloc, wanted, &bytes, outfit, input, err) {
        Ok(jobs) => jobs,
        Err(reason) => return refuse(alloc, reason, err),
    };
    let force_delete = wanted.force_delete;
    let progress = run_jobs(alloc, jobs.as_slice(), force_delete, outfit, out);
    finish(&progress, err)
}

/// Does what is asked.
fn obey<O: Outfit, I: Source, S: Sink, E: Sink>(
    alloc: Global,
    what: &Asked,
    outfit: &mut O,
    input: &mut I,
    out: &mut S,
    err: &mut E,
) -> u8
    requires { IsWhole (O.places outfit.old) }
    ensures whole { IsWhole (O.places outfit.new) }
    ensures all_back { (O.children outfit.new).out ≡ (O.children outfit.old).out }
    ensures run { WordsRun O.places O.tells O.children O.tells_child (Fills O.children O.tells_child (child_by O.Child.count O.Child.state) O.Child.tells (FetchedBy O.Child.count O.Child.tells O.Child.state I.count I.tells I.left E.count E.tells E.held)) (world outfit.old input.old err.old) outfit.new input.new what.now
        (Prints S.count S.tells S.held out.old out.new) (PrintsTo E.count E.tells E.held err.new) result }
{
    match what {
        Asked::Wrong => {
            let _ = print(err, usage());
            2
        }
        Asked::Help => status_of_cut(print(out, usage())),
        Asked::Refused(line) => {
            let _ = print(err, line.as_str());
            1
        }
        Asked::Run(wanted) => sync(alloc, wanted, outfit, input, out, err),
    }
}

/// What `run_words` does: the words and the configuration are read, the jobs are run, and their reports are printed.
fn do_words<O: Outfit, I: Source, S: Sink, E: Sink>(
    alloc: Global,
    words: &[Text],
    env: &Env,
    outfit: &mut O,
    input: &mut I,
    out: &mut S,
    err: &mut E,
) -> u8
    requires { IsWhole (O.places outfit.old) }
    ensures whole { IsWhole (O.places outfit.new) }
    ensures all_back { (O.children outfit.new).out ≡ (O.children outfit.old).out }
    ensures run { WordsRun O.places O.tells O.children O.tells_child (Fills O.children O.tells_child (child_by O.Child.count O.Child.state) O.Child.tells (FetchedBy O.Child.count O.Child.tells O.Child.state I.count I.tells I.left E.count E.tells E.held)) (world outfit.old input.old err.old) outfit.new input.new (asked_of env.now (meaning_of words.now))
        (Prints S.count S.tells S.held out.old out.new) (PrintsTo E.count E.tells E.held err.new) result }
{
    match asked_of(alloc, words, env) {
        Ok(what) => obey(alloc, &what, outfit, input, out, err),
        Err(NoMemory) => tell_starved(err),
    }
}

/// Runs the program: reads the words and the configuration, fetches the texts that the chosen pairs need, runs the jobs of
/// these pairs in the order of the configuration, prints the report of each behind it, and answers the exit status: 0 where each job is in sync without
/// lines, 1 where not, where something was refused, or where a write to `out` failed, 2 for wrong words, 3 for want of
/// memory. A job that is refused or ends by want of memory doesn't stop the others; a want of memory outside a job ends
/// the command. Prompts are written to `err`, and their answers are lines of the input; what is fetched is printed nowhere.
pub fn run_words<O: Outfit, I: Source, S: Sink, E: Sink>(
    alloc: Global,
    words: &[Text],
    env: &Env,
    outfit: &mut O,
    input: &mut I,
    out: &mut S,
    err: &mut E,
) -> u8
    requires { IsWhole (O.places outfit.old) }
    ensures whole { IsWhole (O.places outfit.new) }
    ensures all_back { (O.children outfit.new).out ≡ (O.children outfit.old).out }
    ensures promised { PromisedRun O.places O.tells O.children O.tells_child (Fills O.children O.tells_child (child_by O.Child.count O.Child.state) O.Child.tells (FetchedBy O.Child.count O.Child.tells O.Child.state I.count I.tells I.left E.count E.tells E.held)) (world outfit.old input.old err.old) outfit.new input.new (asked_of env.now (meaning_of words.now))
        (Prints S.count S.tells S.held out.old out.new) (PrintsTo E.count E.tells E.held err.new)
        (λ err_before. SinkIsStill S.count out.old out.new × SinkIsStill E.count err_before err.new)
        (λ err_before. SinkIsSilent S.tells S.held out.old out.new × SinkIsSilent E.tells E.held err_before err.new) result }
{
    do_words(alloc, words, env, outfit, input, out, err)
}
