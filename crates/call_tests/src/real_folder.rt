//! Calls of a real folder, and the steps by which it carries a change to the disk.

mod recording;

use outside::{Change, DirFolder, Expect, Folder, FolderError};
use recording::{Record, Recorded};
use std::alloc::Global;
use std::cell::{Cell, RefCell};
use std::fs::Permissions;
use std::io::ErrorKind;
use std::os::unix::fs::PermissionsExt;
use std::process::Command;
use std::test::Fail;
use std::{env, fs, io, process};
use values::Text;

const ABC: &str = "ba7816bf8f01cfea414140de5dae2223b00361a396177a9cb410ff61f20015ad";

const NO_BYTES: &str = "e3b0c44298fc1c149afbf4c8996fb92427ae41e4649b934ca495991b7852b855";

/// A path of this process's own, under the folder for temporary files.
fn scratch(rt: &HostRuntime, name: &str) -> io::Result<Text> {
    let pid = process::id(rt.process());
    let path = format!(in rt.alloc(); "{}/outside-{pid}-{name}/deep", env::temp_dir(rt)?.as_str())?;
    Ok(Text::of(path))
}

fn opened(rt: &HostRuntime, path: &Text) -> Result<DirFolder<HostRuntime>, Fail> {
    let path = Text::copy_of(rt.alloc(), path.as_str())?;
    Ok(DirFolder::new(rt.clone()?, path))
}

/// Lets the shell work in a folder.
fn shell(rt: &HostRuntime, folder: &Text, script: &str) -> io::Result<bool> {
    let mut command = Command::new(rt.alloc(), "sh")?;
    command.arg("-c")?;
    command.arg(script)?;
    command.current_dir(folder.as_str())?;
    Ok(command.status(rt)?.success())
}

fn said(answer: &Result<Change, FolderError>) -> &'static str {
    match answer {
        Ok(Change::Done) => "done",
        Ok(Change::Moved) => "moved",
        Err(FolderError::Fault) => "fault",
        Err(FolderError::TooLong) => "too long",
        Err(FolderError::NoMemory) => "out of memory",
    }
}

#[test]
fn a_real_folder_is_made_written_and_read(rt: HostRuntime) -> Result<(), Fail> {
    let path = scratch(&rt, "calls")?;
    let mut folder = opened(&rt, &path)?;
    assert!(rt; folder.names("")?.is_none());
    assert!(rt; folder.folders()?.is_none());
    assert!(rt; folder.read("a", 9)?.is_none());
    assert_eq!(rt; folder.replace("a", Expect::Absent, b"")?, Change::Moved);
    assert_eq!(rt; folder.remove("a", ABC)?, Change::Moved);
    folder.make()?;
    folder.make()?;
    assert!(rt;
        shell(
            &rt,
            &path,
            "mkdir z Work; ln -s a y; ln -s nowhere x; ln -s a b.tmp"
        )?
    );
    assert_eq!(rt; folder.replace("a", Expect::Absent, b"abc")?, Change::Done);
    assert_eq!(rt; folder.replace("a", Expect::Absent, b"")?, Change::Moved);
    assert_eq!(rt; folder.replace("y", Expect::Absent, b"")?, Change::Moved);
    assert_eq!(rt; folder.replace("b", Expect::Absent, b"")?, Change::Done);
    let names = folder.names("")?.ok_or("absent")?;
    assert_eq!(rt; names.len(), 3);
    for (found, (name, etag)) in names.iter().zip([("a", ABC), ("b", NO_BYTES), ("y", ABC)]) {
        assert_eq!(rt; found.name.as_str(), name);
        assert_eq!(rt; found.etag.as_str(), etag);
    }
    let folders = folder.folders()?.ok_or("absent")?;
    assert_eq!(rt; folders.len(), 2);
    assert_eq!(rt; folders[0].as_str(), "Work");
    assert!(rt; matches!(folder.read("a", 2), Err(FolderError::TooLong)));
    let read = folder.read("a", 3)?.ok_or("no file")?;
    assert_eq!(rt; read.as_slice(), b"abc".as_slice());
    let file = format!(in rt.alloc(); "{}/a", path.as_str())?;
    fs::set_permissions(&rt, file.as_str(), Permissions::from_mode(0o600))?;
    assert_eq!(rt;
        folder.replace("a", Expect::Etag(NO_BYTES), b"")?,
        Change::Moved
    );
    assert_eq!(rt; folder.replace("a", Expect::Etag(ABC), b"")?, Change::Done);
    let mode = fs::metadata(&rt, file.as_str())?.permissions().mode();
    assert_eq!(rt; mode % 0o1000, 0o600);
    assert_eq!(rt; folder.remove("a", ABC)?, Change::Moved);
    assert_eq!(rt; folder.remove("a", NO_BYTES)?, Change::Done);
    assert_eq!(rt; folder.faults(), 0);
    assert!(rt; shell(&rt, &path, "rm -r ../deep")?);
    Ok(())
}

/// The system says of its own files that they have no bytes.
#[test]
fn a_file_is_read_beyond_the_length_it_is_said_to_have(rt: HostRuntime) -> Result<(), Fail> {
    let mut folder = opened(&rt, &Text::copy_of(rt.alloc(), "/proc")?)?;
    let read = folder.read("version", 9_999)?.ok_or("no file")?;
    assert!(rt; read.as_slice().starts_with(b"Linux"));
    assert!(rt; matches!(folder.read("version", 4), Err(FolderError::TooLong)));
    Ok(())
}

/// Whatever stands under the name of a new file stays.
#[test]
fn a_new_file_takes_the_place_of_nothing(rt: HostRuntime) -> Result<(), Fail> {
    let path = scratch(&rt, "taken")?;
    let mut folder = opened(&rt, &path)?;
    folder.make()?;
    assert!(rt;
        shell(
            &rt,
            &path,
            "mkdir d; mkfifo p; ln -s nowhere l; ln -s r r; ln -s . s; ln -s p q; ln -s /dev/null n"
        )?
    );
    for name in ["d", "p", "l", "r", "s", "q", "n"] {
        let answer = folder.replace(name, Expect::Absent, b"abc");
        assert_eq!(rt; said(&answer), "fault", "at {name}");
    }
    assert_eq!(rt; folder.faults(), 7);
    assert!(rt;
        shell(
            &rt,
            &path,
            "test -d d -a -p p -a -L l -a -L r -a -L s -a -L q -a -L n -a $(ls | wc -l) = 7"
        )?
    );
    assert!(rt; shell(&rt, &path, "rm -r ../deep")?);
    Ok(())
}

/// A step that fails and how, what is answered, and which steps were tried.
type Row = (&'static str, ErrorKind, &'static str, &'static str);

const WRITES: [Row; 9] = [
    (
        "",
        ErrorKind::Other,
        "done",
        "write sync rename sync-folder ",
    ),
    ("write", ErrorKind::StorageFull, "fault", "write unlink "),
    (
        "write",
        ErrorKind::OutOfMemory,
        "out of memory",
        "write unlink ",
    ),
    ("sync", ErrorKind::Other, "fault", "write sync unlink "),
    (
        "rename",
        ErrorKind::Other,
        "fault",
        "write sync rename unlink ",
    ),
    (
        "rename",
        ErrorKind::OutOfMemory,
        "fault",
        "write sync rename unlink ",
    ),
    (
        "sync-folder",
        ErrorKind::OutOfMemory,
        "fault",
        "write sync rename sync-folder ",
    ),
    (
        "sync-folder",
        ErrorKind::InvalidInput,
        "done",
        "write sync rename sync-folder ",
    ),
    (
        "sync-folder",
        ErrorKind::Unsupported,
        "done",
        "write sync rename sync-folder ",
    ),
];

const REMOVALS: [Row; 6] = [
    ("unlink", ErrorKind::Other, "fault", "unlink "),
    ("unlink", ErrorKind::OutOfMemory, "fault", "unlink "),
    ("", ErrorKind::Other, "done", "unlink sync-folder "),
    (
        "sync-folder",
        ErrorKind::Other,
        "fault",
        "unlink sync-folder ",
    ),
    (
        "sync-folder",
        ErrorKind::OutOfMemory,
        "fault",
        "unlink sync-folder ",
    ),
    (
        "sync-folder",
        ErrorKind::InvalidInput,
        "done",
        "unlink sync-folder ",
    ),
];

/// The steps that were tried since the last time.
fn steps_of(alloc: Global, record: &Record) -> io::Result<String> {
    let empty = String::new(alloc);
    let mut steps = record.steps.try_borrow_mut()?;
    Ok(std::mem::replace(&mut *steps, empty))
}

#[test]
fn a_change_is_carried_to_the_disk(rt: HostRuntime) -> Result<(), Fail> {
    let path = scratch(&rt, "disk")?;
    let record = Record {
        steps: RefCell::new(String::new(rt.alloc())),
        fails: Cell::new(("", ErrorKind::Other)),
    };
    let recorded = Recorded {
        rt: rt.clone()?,
        record: &record,
    };
    let mut folder = DirFolder::new(recorded, Text::copy_of(rt.alloc(), path.as_str())?);
    folder.make()?;
    assert_eq!(rt; folder.replace("a", Expect::Absent, b"abc")?, Change::Done);
    assert_eq!(rt; steps_of(rt.alloc(), &record)?.as_str(), WRITES[0].3);
    for (step, kind, answer, steps) in WRITES {
        record.fails.set((step, kind));
        let answered = folder.replace("a", Expect::Etag(ABC), b"abc");
        assert_eq!(rt; said(&answered), answer, "where {step} fails");
        assert_eq!(rt; steps_of(rt.alloc(), &record)?.as_str(), steps);
    }
    for (step, kind, answer, steps) in REMOVALS {
        record.fails.set(("", kind));
        let _ = folder.replace("a", Expect::Absent, b"abc");
        let _ = steps_of(rt.alloc(), &record)?;
        record.fails.set((step, kind));
        let answered = folder.remove("a", ABC);
        assert_eq!(rt; said(&answered), answer, "where {step} fails");
        assert_eq!(rt; steps_of(rt.alloc(), &record)?.as_str(), steps);
    }
    assert_eq!(rt; folder.faults(), 9);
    assert!(rt; shell(&rt, &path, "rm -r ../deep")?);
    Ok(())
}
