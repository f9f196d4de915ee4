//! The printed text of a report.

ghost use Rattle.std.specs.Prelude.{◌≡◌, ◌++◌, codes, string_bytes, IfOk, OnOk};
ghost use Rattle.std.specs.List.{flat_map};
ghost use Rattle.cli_text.specs.Quoting.{in_quotes};
ghost use Rattle.cli_text.specs.Texts.{line_of, side_letter, item_error_text, store_error_text, keeper_error_text, what_text, ident_line, refusal_text, end_text, report_text};

use crate::quoting::in_quotes;
use item_text::ItemError;
use outside::NoMemory;
use status_keeper::KeeperError;
use std::alloc::{AllocError, Global};
use store_model::StoreError;
use sync_plan::{JobEnd, Line, Refusal, Report, Side, What};
use values::Text;

fn side_letter(side: Side) -> &'static str
    ensures { result.now ≡ side_letter side }
{
    match side {
        Side::A => "a",
        Side::B => "b",
    }
}

fn item_error_text(alloc: Global, error: &ItemError) -> Result<String, AllocError>
    ensures { IfOk result (λ t. string_bytes t ≡ item_error_text error.now) }
{
    match error {
        ItemError::TooLong => String::from_str(alloc, "too long"),
        ItemError::NotUtf8 { place } => format!(in alloc; "not UTF-8 at byte {place}"),
        ItemError::NoComponent { line } => format!(in alloc; "no component at line {line}"),
        ItemError::Unbalanced { line } => format!(in alloc; "unbalanced at line {line}"),
        ItemError::Extra { line } => format!(in alloc; "text outside the component at line {line}"),
        ItemError::LongUid { line } => format!(in alloc; "long UID at line {line}"),
        ItemError::TwoUids { line } => format!(in alloc; "several UIDs at line {line}"),
        ItemError::NoMemory => String::from_str(alloc, "out of memory"),
    }
}

fn bad_item_text(alloc: Global, href: &str, error: &ItemError) -> Result<String, AllocError>
    ensures { IfOk result (λ t. string_bytes t ≡ in_quotes href.now ++ codes ": " ++ item_error_text error.now) }
{
    let mut text = in_quotes(alloc, href)?;
    text.push_str(": ")?;
    text.push_str(item_error_text(alloc, error)?.as_str())?;
    Ok(text)
}

fn vanished_text(alloc: Global, href: &str) -> Result<String, AllocError>
    ensures { IfOk result (λ t. string_bytes t ≡ in_quotes href.now ++ codes " has vanished") }
{
    let name = in_quotes(alloc, href)?;
    format!(in alloc; "{name} has vanished")
}

fn store_error_text(alloc: Global, error: &StoreError) -> Result<String, AllocError>
    ensures { IfOk result (λ t. string_bytes t ≡ store_error_text error.now) }
{
    match error {
        StoreError::Fault => String::from_str(alloc, "fault"),
        StoreError::Moved => String::from_str(alloc, "moved"),
        StoreError::TooLong => String::from_str(alloc, "too long"),
        StoreError::TooMany => String::from_str(alloc, "too many items"),
        StoreError::NotThere => String::from_str(alloc, "not there"),
        StoreError::Vanished { href } => vanished_text(alloc, href.as_str()),
        StoreError::BadItem { href, error } => bad_item_text(alloc, href.as_str(), error),
        StoreError::NoMemory => String::from_str(alloc, "out of memory"),
    }
}

fn keeper_error_text(alloc: Global, error: &KeeperError) -> Result<String, AllocError>
    ensures { IfOk result (λ t. string_bytes t ≡ keeper_error_text error.now) }
{
    match error {
        KeeperError::Fault => String::from_str(alloc, "fault"),
        KeeperError::Moved => String::from_str(alloc, "moved"),
        KeeperError::Damaged(row) => format!(in alloc; "damaged {row}"),
        KeeperError::TooLong => String::from_str(alloc, "too long"),
        KeeperError::NoMemory => String::from_str(alloc, "out of memory"),
    }
}

fn not_written_text(alloc: Global, side: Side, error: &StoreError) -> Result<String, AllocError>
    ensures { IfOk result (λ t. string_bytes t ≡ what_text (What.NotWritten side error.now)) }
{
    let letter = side_letter(side);
    let reason = store_error_text(alloc, error)?;
    format!(in alloc; "not written to {letter}: {reason}")
}

fn not_removed_text(alloc: Global, side: Side, error: &StoreError) -> Result<String, AllocError>
    ensures { IfOk result (λ t. string_bytes t ≡ what_text (What.NotRemoved side error.now)) }
{
    let letter = side_letter(side);
    let reason = store_error_text(alloc, error)?;
    format!(in alloc; "not removed from {letter}: {reason}")
}

fn what_text(alloc: Global, what: &What) -> Result<String, AllocError>
    ensures { IfOk result (λ t. string_bytes t ≡ what_text what.now) }
{
    match what {
        What::Conflict => String::from_str(alloc, "conflict, both sides changed"),
        What::NotWritten { side, error } => not_written_text(alloc, *side, error),
        What::NotRemoved { side, error } => not_removed_text(alloc, *side, error),
        What::Skipped => String::from_str(alloc, "removal skipped after a failed write"),
    }
}

#[tactic(auto, unfolding(crate::specs::Texts::line_of))]
fn push_line(text: &mut String, job: &str, line: &str) -> Result<(), AllocError>
    ensures { OnOk result (string_bytes text.new ≡ string_bytes text.old ++ line_of job.now line.now) }
{
    text.push_str(job)?;
    text.push_str(": ")?;
    text.push_str(line)?;
    text.push_str("\n")?;
    Ok(())
}

#[tactic(auto, unfolding(crate::specs::Texts::ident_line))]
fn push_ident_line(
    alloc: Global,
    text: &mut String,
    job: &str,
    line: &Line,
) -> Result<(), AllocError>
    ensures { OnOk result (string_bytes text.new ≡ string_bytes text.old ++ ident_line job.now line.now) }
{
    let name = in_quotes(alloc, line.ident.as_str())?;
    let what = what_text(alloc, &line.what)?;
    let whole = format!(in alloc; "{name}: {what}")?;
    push_line(text, job, whole.as_str())
}

/// Adds a text and a name in quotes.
fn push_named(alloc: Global, text: &mut String, before: &str, name: &str) -> Result<(), AllocError>
    ensures { OnOk result (string_bytes text.new ≡ string_bytes text.old ++ before.now ++ in_quotes name.now) }
{
    let quoted = in_quotes(alloc, name)?;
    text.push_str(before)?;
    text.push_str(quoted.as_str())?;
    Ok(())
}

fn side_text(alloc: Global, side: Side) -> Result<String, AllocError>
    ensures { IfOk result (λ t. string_bytes t ≡ codes "storage " ++ side_letter side) }
{
    let mut text = String::from_str(alloc, "storage ")?;
    text.push_str(side_letter(side))?;
    Ok(text)
}

fn same_ident_text(
    alloc: Global,
    side: Side,
    ident: &str,
    first: &str,
    second: &str,
) -> Result<String, AllocError>
    ensures { IfOk result (λ t. string_bytes t ≡ codes "storage " ++ side_letter side ++ codes " has " ++ in_quotes ident.now
        ++ codes " twice, in " ++ in_quotes first.now ++ codes " and " ++ in_quotes second.now) }
{
    let mut text = side_text(alloc, side)?;
    push_named(alloc, &mut text, " has ", ident)?;
    push_named(alloc, &mut text, " twice, in ", first)?;
    push_named(alloc, &mut text, " and ", second)?;
    Ok(text)
}

fn refused_side_text(alloc: Global, side: Side, error: &StoreError) -> Result<String, AllocError>
    ensures { IfOk result (λ t. string_bytes t ≡ codes "storage " ++ side_letter side ++ codes ": " ++ store_error_text error.now) }
{
    let letter = side_letter(side);
    let reason = store_error_text(alloc, error)?;
    format!(in alloc; "storage {letter}: {reason}")
}

fn refused_status_text(alloc: Global, error: &KeeperError) -> Result<String, AllocError>
    ensures { IfOk result (λ t. string_bytes t ≡ codes "status: " ++ keeper_error_text error.now) }
{
    let reason = keeper_error_text(alloc, error)?;
    format!(in alloc; "status: {reason}")
}

fn empty_side_text(alloc: Global, side: Side) -> Result<String, AllocError>
    ensures { IfOk result (λ t. string_bytes t ≡ refusal_text (Refusal.StorageEmpty side)) }
{
    let letter = side_letter(side);
    format!(in alloc; "storage {letter} is empty, use --force-delete to go on")
}

fn refusal_text(alloc: Global, refusal: &Refusal) -> Result<String, AllocError>
    ensures { IfOk result (λ t. string_bytes t ≡ refusal_text refusal.now) }
{
    match refusal {
        Refusal::SameLocation => String::from_str(alloc, "two of its places are the same"),
        Refusal::Status(error) => refused_status_text(alloc, error),
        Refusal::Storage { side, error } => refused_side_text(alloc, *side, error),
        Refusal::SameIdent {
            side,
            ident,
            first,
            second,
        } => same_ident_text(
            alloc,
            *side,
            ident.as_str(),
            first.as_str(),
            second.as_str(),
        ),
        Refusal::StorageEmpty(side) => empty_side_text(alloc, *side),
    }
}

fn push_refusal(
    alloc: Global,
    text: &mut String,
    job: &str,
    refusal: &Refusal,
) -> Result<(), AllocError>
    ensures { OnOk result (string_bytes text.new ≡ string_bytes text.old ++ line_of job.now (codes "refused: " ++ refusal_text refusal.now)) }
{
    let reason = refusal_text(alloc, refusal)?;
    let whole = format!(in alloc; "refused: {reason}")?;
    push_line(text, job, whole.as_str())
}

fn push_not_committed(
    alloc: Global,
    text: &mut String,
    job: &str,
    error: &KeeperError,
) -> Result<(), AllocError>
    ensures { OnOk result (string_bytes text.new ≡ string_bytes text.old ++ line_of job.now (codes "status not written: " ++ keeper_error_text error.now)) }
{
    let reason = keeper_error_text(alloc, error)?;
    let whole = format!(in alloc; "status not written: {reason}")?;
    push_line(text, job, whole.as_str())
}

fn push_not_flushed(
    alloc: Global,
    text: &mut String,
    job: &str,
    side: Side,
    error: &StoreError,
) -> Result<(), AllocError>
    ensures { OnOk result (string_bytes text.new ≡ string_bytes text.old ++ end_text job.now (JobEnd.NotFlushed side error.now)) }
{
    let letter = side_letter(side);
    let reason = store_error_text(alloc, error)?;
    let whole = format!(in alloc; "storage {letter} not written: {reason}")?;
    push_line(text, job, whole.as_str())
}

fn push_end(alloc: Global, text: &mut String, job: &str, end: &JobEnd) -> Result<(), AllocError>
    ensures { OnOk result (string_bytes text.new ≡ string_bytes text.old ++ end_text job.now end.now) }
{
    match end {
        JobEnd::Synced => Ok(()),
        JobEnd::Refused(refusal) => push_refusal(alloc, text, job, refusal),
        JobEnd::NotFlushed { side, error } => push_not_flushed(alloc, text, job, *side, error),
        JobEnd::NotCommitted(error) => push_not_committed(alloc, text, job, error),
        JobEnd::NoMemory => push_line(text, job, "out of memory"),
    }
}

fn push_lines(alloc: Global, text: &mut String, job: &str, lines: &[Line]) -> Result<(), AllocError>
    ensures { OnOk result (string_bytes text.new ≡ string_bytes text.old ++ flat_map (ident_line job.now) lines.now) }
{
    for line in lines {
        push_ident_line(alloc, text, job, line)?;
    }
    Ok(())
}

#[tactic(auto, unfolding(crate::specs::Texts::report_text))]
fn push_report(
    alloc: Global,
    text: &mut String,
    job: &str,
    report: &Report,
) -> Result<(), AllocError>
    ensures { OnOk result (string_bytes text.new ≡ string_bytes text.old ++ report_text job.now report.now) }
{
    push_lines(alloc, text, job, report.lines.as_slice())?;
    push_end(alloc, text, job, &report.end)
}

/// What is printed of a job: a line for each ident that was not done, then a line for its end.
/// Nothing for a job that is in sync without lines.
pub fn report_text(alloc: Global, job: &str, report: &Report) -> Result<Text, NoMemory>
    ensures { IfOk result (λ t. t ≡ report_text job.now report.now) }
{
    let mut text = String::new(alloc);
    match push_report(alloc, &mut text, job, report) {
        Ok(()) => Ok(Text::of(text)),
        Err(_) => Err(NoMemory),
    }
}
