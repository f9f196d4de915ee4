//! The printed text of a text that can't be fetched.

ghost use Rattle.std.specs.Prelude.{◌≡◌, string_bytes, IfOk};
ghost use Rattle.cli_text.specs.Fetches.{fetch_line, fetch_text};

use child_cmd::FetchError;
use outside::NoMemory;
use std::alloc::{AllocError, Global};
use values::Text;

#[tactic(auto, unfolding(crate::specs::Fetches::fetch_line))]
fn fetch_line(alloc: Global, key: &str, section: &str, reason: &str) -> Result<String, AllocError>
    ensures { IfOk result (λ t. string_bytes t ≡ fetch_line key.now section.now reason.now) }
{
    let mut text = String::from_str(alloc, "fetch of ")?;
    text.push_str(key)?;
    text.push_str(" for ")?;
    text.push_str(section)?;
    text.push_str(": ")?;
    text.push_str(reason)?;
    text.push_str("\n")?;
    Ok(text)
}

fn status_line(alloc: Global, key: &str, section: &str, status: i32) -> Result<String, AllocError>
    ensures { IfOk result (λ t. string_bytes t ≡ fetch_text key.now section.now (FetchError.Status status)) }
{
    let reason = format!(in alloc; "status {status}")?;
    fetch_line(alloc, key, section, reason.as_str())
}

fn text_of(
    alloc: Global,
    key: &str,
    section: &str,
    error: &FetchError,
) -> Result<String, AllocError>
    ensures { IfOk result (λ t. string_bytes t ≡ fetch_text key.now section.now error.now) }
{
    match error {
        FetchError::Fault => fetch_line(alloc, key, section, "fault"),
        FetchError::Status(status) => status_line(alloc, key, section, *status),
        FetchError::TooLong => fetch_line(alloc, key, section, "too long"),
        FetchError::Text => fetch_line(alloc, key, section, "not UTF-8"),
        FetchError::Ended => fetch_line(alloc, key, section, "end of input"),
        FetchError::Input => fetch_line(alloc, key, section, "input fault"),
        FetchError::Output => fetch_line(alloc, key, section, "output fault"),
        FetchError::NoMemory => String::from_str(alloc, "out of memory\n"),
    }
}

/// What is printed where the text of a key of a section can't be fetched: one line. The section is
/// named with its kind, as `storage phone`.
pub fn fetch_text(
    alloc: Global,
    key: &str,
    section: &str,
    error: &FetchError,
) -> Result<Text, NoMemory>
    ensures { IfOk result (λ t. t ≡ fetch_text key.now section.now error.now) }
{
    match text_of(alloc, key, section, error) {
        Ok(text) => Ok(Text::of(text)),
        Err(_) => Err(NoMemory),
    }
}
