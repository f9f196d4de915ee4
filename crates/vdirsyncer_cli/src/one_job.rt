//! One job over an outfit: its three places are opened, it runs, and all are given back.

ghost use Rattle.std.specs.Prelude.{◌≡◌, ◌≢◌, ◌↔◌, [], IsTrue, IfOk, OnErr, None};
ghost use Rattle.outfits.specs.Places.{IsWhole, IsSame, StayTold, place_by};
ghost use Rattle.vdir_store.specs.Names.{is_ending};
ghost use Rattle.sync_plan.specs.Verdicts.{IsWritable};
ghost use Rattle.vdirsyncer_cli.specs.SamePlace.{IsSamePlace};
ghost use Rattle.vdirsyncer_cli.specs.Jobs.{JobAt, OverFolders};

use crate::job::Job;
use crate::opened::{Opened, give_three, open_three};
use outfits::Outfit;
use outside::{Folder, NoMemory};
use status_keeper::FileKeeper;
use std::alloc::Global;
use sync_plan::{JobEnd, Refusal, Report};
use sync_run::{SyncOrder, sync_collection};
use values::Text;
use vdir_store::VdirStore;

/// Runs a job over its three folders, and hands them back.
pub fn run_over<D: Folder>(
    alloc: Global,
    ending_a: Text,
    ending_b: Text,
    order: &SyncOrder,
    dirs: Opened<D>,
) -> (Opened<D>, Report)
    requires ending_a { IsTrue (is_ending ending_a) }
    requires ending_b { IsTrue (is_ending ending_b) }
    requires writable { IsWritable order.now.rules }
    ensures { OverFolders order.now D.count D.tells D.state ending_a ending_b dirs result.0 result.1 }
{
    let Opened { a, b, status } = dirs;
    let mut store_a = VdirStore::new(alloc, a, ending_a);
    let mut store_b = VdirStore::new(alloc, b, ending_b);
    let mut keeper = FileKeeper::new(alloc, status);
    let report = sync_collection(alloc, &mut store_a, &mut store_b, &mut keeper, order);
    let dirs = Opened {
        a: store_a.into_parts(),
        b: store_b.into_parts(),
        status: keeper.into_folder(),
    };
    (dirs, report)
}

/// The report of a job that is refused since two of its places are the same.
fn refused_same(alloc: Global) -> Report
    ensures end { result.end ≡ JobEnd.Refused Refusal.SameLocation }
    ensures lines { result.lines.items ≡ [] }
{
    Report {
        end: JobEnd::Refused(Refusal::SameLocation),
        lines: Vec::new(alloc),
    }
}

/// Whether two of the three places of a job are the same.
fn is_same_place(job: &Job) -> bool
    ensures { IsTrue result ↔ IsSamePlace job.now.a job.now.b job.now.status }
{
    let a = job.a.as_str();
    let b = job.b.as_str();
    let status = job.status.as_str();
    a == b || a == status || b == status
}

/// Runs a job over an outfit. Two of its places that are the same refuse it before any is opened.
pub fn run_job<O: Outfit>(alloc: Global, job: Job, outfit: &mut O) -> Result<Report, NoMemory>
    requires whole { IsWhole (O.places outfit.old) }
    requires ending_a { IsTrue (is_ending job.ending_a) }
    requires ending_b { IsTrue (is_ending job.ending_b) }
    requires writable { IsWritable job.order.rules }
    ensures whole { IsWhole (O.places outfit.new) }
    ensures ran { IfOk result (JobAt (O.places outfit.old) (O.places outfit.new) (O.tells outfit.old) (O.tells outfit.new) job) }
    ensures starved { OnErr result (IsSame (O.places outfit.old) (O.places outfit.new)) }
    ensures stay_told { OnErr result (StayTold (O.tells outfit.old) (O.tells outfit.new)) }
    ensures children { O.children outfit.new ≡ O.children outfit.old }
{
    if is_same_place(&job) {
        return Ok(refused_same(alloc));
    }
    let Job {
        a: place_a,
        b: place_b,
        status: place_s,
        ending_a,
        ending_b,
        order,
    } = job;
    let a = place_a.as_str();
    let b = place_b.as_str();
    let status = place_s.as_str();
    let dirs = match open_three(a, b, status, outfit) {
        Ok(dirs) => dirs,
        Err(NoMemory) => return Err(NoMemory),
    };
    let (dirs, report) = run_over(alloc, ending_a, ending_b, &order, dirs);
    give_three(a, b, status, dirs, outfit);
    Ok(report)
}
