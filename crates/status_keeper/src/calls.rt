//! What a keeper's calls do with its folder.

ghost use Rattle.std.specs.Prelude.{◌≡◌, ◌≤◌, IfOk, IfErr, OnOk, OnErr};
ghost use Rattle.outside.specs.Causes.{Rose};
ghost use Rattle.outside.specs.Files.{Evolves, IsReadOf};
ghost use Rattle.outside.specs.FolderCalls as folder_calls;
ghost use Rattle.outside.specs.FolderCalls.{meets};
ghost use Rattle.status_keeper.specs.Idents.{IsRising};
ghost use Rattle.status_keeper.specs.KeeperCalls.{AfterEdits, KeeperCause, LoadAnswer, CommitAnswer, FoundAfter, found_at, IsOfLoad, IsOfCommit};
ghost use Rattle.status_keeper.specs.Rows.{row_idents};
ghost use Rattle.status_keeper.specs.Status.{text_of};
ghost use Rattle.status_keeper.specs.FileStatus.{status_file, state_of, PutAnswer, PutsTo, IsWithin, refusal_of, moved_of};

use crate::keeper::KeeperError;
use crate::reading::read_status;
use crate::row::Row;
use crate::writing::write_status;
use outside::{Change, Expect, Folder, FolderError, etag_of};
use std::alloc::Global;
use values::Text;

/// The name of the file that holds a status.
const STATUS_FILE: &str = "items";

/// The longest status file, in bytes: 2 GiB.
const MAX_STATUS: u64 = 2_147_483_648;

fn refusal(error: FolderError) -> KeeperError
    ensures { result ≡ refusal_of error }
{
    match error {
        FolderError::Fault => KeeperError::Fault,
        FolderError::TooLong => KeeperError::TooLong,
        FolderError::NoMemory => KeeperError::NoMemory,
    }
}

fn moved(change: Change) -> Result<(), KeeperError>
    ensures { result ≡ moved_of change }
{
    match change {
        Change::Done => Ok(()),
        Change::Moved => Err(KeeperError::Moved),
    }
}

/// Reads the status, and keeps the etag of its file, or its absence.
pub(crate) fn load_rows<F: Folder>(
    folder: &mut F,
    found: &mut Option<Text>,
    alloc: Global,
) -> Result<Vec<Row>, KeeperError>
    ensures later { F.count folder.old ≤ F.count folder.new }
    ensures told { F.tells folder.old → F.tells folder.new }
    ensures cause { IfErr result (KeeperCause (Rose (F.count folder.old) (F.count folder.new))) }
    ensures refusal { IfErr result IsOfLoad }
    ensures rising { IfOk result (λ rows. IsRising (row_idents rows.items)) }
    ensures answer { F.tells folder.old → AfterEdits (state_of (F.state folder.old)) (λ m. LoadAnswer m (state_of (F.state folder.new)) result) }
    ensures found { F.tells folder.old → OnOk result (found.new ≡ found_at (state_of (F.state folder.new)).stamp) }
    ensures kept { OnErr result (found.new ≡ found.old) }
    ensures reads { F.tells folder.old → Evolves (IsReadOf status_file) (F.state folder.old) (F.state folder.new) }
{
    let read = match folder.read(STATUS_FILE, MAX_STATUS) {
        Ok(read) => read,
        Err(error) => return Err(refusal(error)),
    };
    match read {
        None => {
            *found = None;
            Ok(Vec::new(alloc))
        }
        Some(bytes) => {
            let Ok(tag) = etag_of(alloc, bytes.as_slice()) else {
                return Err(KeeperError::NoMemory);
            };
            match read_status(alloc, bytes.as_slice()) {
                Ok(rows) => {
                    *found = Some(tag);
                    Ok(rows)
                }
                Err(error) => Err(error),
            }
        }
    }
}

fn replace_file<F: Folder>(folder: &mut F, expect: Expect, text: &[u8]) -> Result<(), KeeperError>
    ensures later { F.count folder.old ≤ F.count folder.new }
    ensures told { F.tells folder.old → F.tells folder.new }
    ensures cause { IfErr result (KeeperCause (Rose (F.count folder.old) (F.count folder.new))) }
    ensures refusal { IfErr result IsOfCommit }
    ensures answer { F.tells folder.old → folder_calls.AfterEdits (F.state folder.old) (λ m. PutAnswer m (F.state folder.new) (meets m status_file expect.entry) text.now result) }
{
    match folder.replace(STATUS_FILE, expect, text) {
        Ok(change) => moved(change),
        Err(error) => Err(refusal(error)),
    }
}

/// Writes the file, if it is as it was found. Where there was none its folder is made first.
fn put_file<F: Folder>(folder: &mut F, found: &Option<Text>, text: &[u8]) -> Result<(), KeeperError>
    ensures later { F.count folder.old ≤ F.count folder.new }
    ensures told { F.tells folder.old → F.tells folder.new }
    ensures cause { IfErr result (KeeperCause (Rose (F.count folder.old) (F.count folder.new))) }
    ensures refusal { IfErr result IsOfCommit }
    ensures answer { F.tells folder.old → PutsTo found.now (F.state folder.old) (F.state folder.new) text.now result }
{
    match found {
        Some(tag) => replace_file(folder, Expect::Etag(tag.as_str()), text),
        None => match folder.make() {
            Ok(()) => replace_file(folder, Expect::Absent, text),
            Err(error) => Err(refusal(error)),
        },
    }
}

/// Writes the status, if its file is as it was found, and keeps the etag of what it wrote.
pub(crate) fn commit_rows<F: Folder>(
    folder: &mut F,
    found: &mut Option<Text>,
    alloc: Global,
    rows: &[Row],
) -> Result<(), KeeperError>
    requires { IsRising (row_idents rows.now) }
    ensures later { F.count folder.old ≤ F.count folder.new }
    ensures told { F.tells folder.old → F.tells folder.new }
    ensures cause { IfErr result (KeeperCause (Rose (F.count folder.old) (F.count folder.new))) }
    ensures refusal { IfErr result IsOfCommit }
    ensures put { F.tells folder.old → PutsTo found.old (F.state folder.old) (F.state folder.new) (text_of rows.now) result }
    ensures answer { F.tells folder.old → CommitAnswer found.old (state_of (F.state folder.old)) (state_of (F.state folder.new)) rows.now result }
    ensures within { IsWithin rows.now result }
    ensures found { FoundAfter found.old found.new rows.now result }
{
    let Ok(text) = write_status(alloc, rows) else {
        return Err(KeeperError::NoMemory);
    };
    if text.len() as u64 > MAX_STATUS {
        return Err(KeeperError::TooLong);
    }
    let Ok(written) = etag_of(alloc, text.as_slice()) else {
        return Err(KeeperError::NoMemory);
    };
    match put_file(folder, found, text.as_slice()) {
        Ok(()) => {
            *found = Some(written);
            Ok(())
        }
        Err(error) => Err(error),
    }
}
