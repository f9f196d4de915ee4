//! The exit status.

ghost use Rattle.std.specs.Prelude.{◌≡◌};
ghost use Rattle.std.specs.List.{list_all, list_any};
ghost use Rattle.cli_text.specs.Exits.{is_starved, is_clean, exit_status};

use sync_plan::{JobEnd, Report};

fn is_starved(report: &Report) -> bool
    ensures { result ≡ is_starved report.now }
{
    matches!(report.end, JobEnd::NoMemory)
}

fn is_clean(report: &Report) -> bool
    ensures { result ≡ is_clean report.now }
{
    matches!(report.end, JobEnd::Synced) && report.lines.is_empty()
}

fn is_one_starved(reports: &[Report]) -> bool
    ensures { result ≡ list_any is_starved reports.now }
{
    reports.iter().any(is_starved)
}

fn are_clean(reports: &[Report]) -> bool
    ensures { result ≡ list_all is_clean reports.now }
{
    reports.iter().all(is_clean)
}

/// The exit status after jobs: 3 where want of memory ended one of them; else 0 where each is in
/// sync without lines and no write failed; else 1. It takes no memory.
pub fn exit_status(reports: &[Report], write_fault: bool) -> u8
    ensures { result ≡ exit_status reports.now write_fault }
{
    if is_one_starved(reports) {
        3
    } else if are_clean(reports) && !write_fault {
        0
    } else {
        1
    }
}
