//! The jobs of a run, one after another.

ghost use Rattle.std.specs.Prelude.{◌≡◌, ◌≢◌, ◌⊎◌, IfOk, OnOk, OnErr};
ghost use Rattle.std.specs.List.{AllByRecursion};
ghost use Rattle.outfits.specs.Places.{IsWhole, IsSame, StayTold};
ghost use Rattle.cli_text.specs.Texts.{report_text};
ghost use Rattle.vdirsyncer_cli.specs.Jobs.{JobAt};
ghost use Rattle.vdirsyncer_cli.specs.JobLists.{job_to_run, MayRun, PrintsOn, RunsNext, RunsNone, RanJobs};
ghost use Rattle.vdirsyncer_cli.specs.Printing.{Prints};

use crate::naming::job_to_run;
use crate::one_job::run_job;
use crate::printing::{Cut, print};
use cli_jobs::SyncJob;
use cli_text::report_text;
use outfits::Outfit;
use outside::{NoMemory, Sink};
use std::alloc::Global;
use sync_plan::Report;

/// How far the jobs of a run have come.
#[derive(Drop)]
pub struct Progress {
    /// The reports of the jobs that ran, in their order.
    pub reports: Vec<Report>,
    /// What became of the reports' texts.
    pub cut: Cut,
    /// Memory ran out outside a job: the jobs behind these aren't run.
    pub is_starved: bool,
}

fn run_one<O: Outfit>(
    alloc: Global,
    job: &SyncJob,
    force_delete: bool,
    outfit: &mut O,
) -> Result<Report, NoMemory>
    requires whole { IsWhole (O.places outfit.old) }
    requires may_run { MayRun job.now }
    ensures whole { IsWhole (O.places outfit.new) }
    ensures ran { IfOk result (JobAt (O.places outfit.old) (O.places outfit.new) (O.tells outfit.old) (O.tells outfit.new) (job_to_run force_delete job.now)) }
    ensures starved { OnErr result (IsSame (O.places outfit.old) (O.places outfit.new)) }
    ensures stay_told { OnErr result (StayTold (O.tells outfit.old) (O.tells outfit.new)) }
    ensures children { O.children outfit.new ≡ O.children outfit.old }
{
    match job_to_run(alloc, job, force_delete) {
        Ok(job) => run_job(alloc, job, outfit),
        Err(_) => Err(NoMemory),
    }
}

/// Prints a report behind others. Nothing more is printed after a write fault.
fn tell<S: Sink>(alloc: Global, name: &str, report: &Report, out: &mut S, cut: Cut) -> Cut
    ensures { PrintsOn S.count S.tells S.held out.old out.new (report_text name.now report.now) cut result }
{
    match cut {
        Cut::Whole => match report_text(alloc, name, report) {
            Ok(text) => print(out, text.as_str()),
            Err(NoMemory) => Cut::Starved,
        },
        Cut::WriteFault => Cut::WriteFault,
        Cut::Starved => Cut::Starved,
    }
}

/// Runs one more job, and prints its report.
fn run_next<O: Outfit, S: Sink>(
    alloc: Global,
    job: &SyncJob,
    force_delete: bool,
    outfit: &mut O,
    out: &mut S,
    progress: &mut Progress,
) -> Result<(), NoMemory>
    requires whole { IsWhole (O.places outfit.old) }
    requires may_run { MayRun job.now }
    ensures whole { IsWhole (O.places outfit.new) }
    ensures ran { OnOk result (RunsNext O.places O.tells force_delete outfit.old outfit.new job.now (PrintsOn S.count S.tells S.held out.old out.new) progress.old progress.new) }
    ensures children { O.children outfit.new ≡ O.children outfit.old }
    ensures spoke { OnOk result (progress.new.cut ≢ Cut.Starved) }
    ensures stopped { OnErr result (RunsNext O.places O.tells force_delete outfit.old outfit.new job.now (PrintsOn S.count S.tells S.held out.old out.new) progress.old progress.new ⊎ RunsNone O.places O.tells outfit.old outfit.new out.old out.new progress.old progress.new) }
{
    match progress.reports.reserve(1) {
        Ok(()) => {}
        Err(_) => return Err(NoMemory),
    }
    let report = match run_one(alloc, job, force_delete, outfit) {
        Ok(report) => report,
        Err(NoMemory) => return Err(NoMemory),
    };
    let cut = tell(alloc, job.pair.as_str(), &report, out, progress.cut);
    progress.cut = cut;
    progress.reports.push(report).unwrap();
    match cut {
        Cut::Whole => Ok(()),
        Cut::WriteFault => Ok(()),
        Cut::Starved => Err(NoMemory),
    }
}

/// Runs jobs one after another, and prints the report of each behind it. A want of memory outside a job ends them: those
/// behind it aren't run.
pub fn run_jobs<O: Outfit, S: Sink>(
    alloc: Global,
    jobs: &[SyncJob],
    force_delete: bool,
    outfit: &mut O,
    out: &mut S,
) -> Progress
    requires whole { IsWhole (O.places outfit.old) }
    requires may_run { AllByRecursion MayRun jobs.now }
    ensures whole { IsWhole (O.places outfit.new) }
    ensures ran { RanJobs O.places O.tells force_delete outfit.old outfit.new jobs.now (Prints S.count S.tells S.held out.old out.new) result }
    ensures children { O.children outfit.new ≡ O.children outfit.old }
{
    let mut progress = Progress {
        reports: Vec::new(alloc),
        cut: Cut::Whole,
        is_starved: false,
    };
    for job in jobs {
        match run_next(alloc, job, force_delete, outfit, out, &mut progress) {
            Ok(()) => {}
            Err(NoMemory) => {
                progress.is_starved = true;
                return progress;
            }
        }
    }
    progress
}
