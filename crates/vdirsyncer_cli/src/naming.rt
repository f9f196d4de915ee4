//! The job that is run.

ghost use Rattle.std.specs.Prelude.{◌≡◌, IfOk};
ghost use Rattle.vdirsyncer_cli.specs.JobLists.{job_to_run};

use crate::job::Job;
use cli_jobs::SyncJob;
use std::alloc::{AllocError, Global};
use sync_run::SyncOrder;
use values::Text;

/// A job's places, with the order in which it is run.
pub fn job_to_run(alloc: Global, job: &SyncJob, force_delete: bool) -> Result<Job, AllocError>
    ensures { IfOk result (λ j. j ≡ job_to_run force_delete job.now) }
{
    Ok(Job {
        a: Text::copy_of(alloc, job.a.as_str())?,
        b: Text::copy_of(alloc, job.b.as_str())?,
        status: Text::copy_of(alloc, job.status.as_str())?,
        ending_a: Text::copy_of(alloc, job.ending_a.as_str())?,
        ending_b: Text::copy_of(alloc, job.ending_b.as_str())?,
        order: SyncOrder {
            rules: job.rules,
            force_delete,
        },
    })
}
