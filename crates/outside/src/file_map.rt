//! The files of a folder in memory.

ghost use Rattle.std.specs.BTreeMap.{btree_map_len};
ghost use Rattle.std.specs.Prelude.{◌+◌, ◌≤◌, vec_len, ◌≡◌, OnOk, OnErr, IfOk, option_copied};
ghost use Rattle.std.specs.FinMap as fin;
ghost use Rattle.outside.specs.FileMap.{files_of};
ghost use Rattle.outside.specs.Files.{put_file};
ghost use Rattle.outside.specs.FolderCalls.{entries_of};

use crate::etag::etag_of;
use crate::folder::{FileEntry, NoMemory};
use std::alloc::Global;
use std::collections::BTreeMap;
use values::{Bytes, Text};

/// The bytes of each file, by its name.
pub type FileMap = BTreeMap<String, Vec<u8>>;

/// A file's bytes.
pub fn lent<'f>(files: &'f FileMap, name: &str) -> Option<&'f [u8]>
    ensures { option_copied result ≡ fin.get (files_of files.now) name.now }
{
    match files.get(name) {
        None => None,
        Some(bytes) => Some(bytes.as_slice()),
    }
}

/// A copy of a file's bytes.
pub fn copy_of(alloc: Global, files: &FileMap, name: &str) -> Result<Option<Bytes>, NoMemory>
    ensures { IfOk result (λ old. old ≡ fin.get (files_of files.now) name.now) }
{
    match lent(files, name) {
        None => Ok(None),
        Some(bytes) => Ok(Some(Bytes::of(Vec::from_slice(alloc, bytes)?))),
    }
}

/// Puts a file under a name.
pub fn insert(files: &mut FileMap, name: Text, bytes: Bytes) -> Result<(), NoMemory>
    ensures ok { OnOk result (files_of files.new ≡ fin.insert (files_of files.old) name bytes) }
    ensures err { OnErr result (files_of files.new ≡ files_of files.old) }
    ensures len { OnOk result (btree_map_len files.new ≤ btree_map_len files.old + 1) }
{
    files.insert(name.into_string(), bytes.into_vec())?;
    Ok(())
}

/// Puts a copy of a file under a name.
pub fn put(alloc: Global, files: &mut FileMap, name: &str, new: &[u8]) -> Result<(), NoMemory>
    ensures ok { OnOk result (files_of files.new ≡ fin.insert (files_of files.old) name.now new.now) }
    ensures err { OnErr result (files_of files.new ≡ files_of files.old) }
{
    let name = Text::of(String::from_str(alloc, name)?);
    let bytes = Bytes::of(Vec::from_slice(alloc, new)?);
    insert(files, name, bytes)
}

/// Takes the file under a name away.
pub fn take(files: &mut FileMap, name: &str)
    ensures { files_of files.new ≡ fin.remove (files_of files.old) name.now }
{
    let _ = files.remove(name);
}

/// Makes these bytes the file under a name, or takes the file away.
pub fn set(
    alloc: Global,
    files: &mut FileMap,
    name: &str,
    new: Option<&[u8]>,
) -> Result<(), NoMemory>
    ensures ok { OnOk result (files_of files.new ≡ put_file (files_of files.old) name.now (option_copied new.entry)) }
    ensures err { OnErr result (files_of files.new ≡ files_of files.old) }
{
    match new {
        None => {
            take(files, name);
            Ok(())
        }
        Some(bytes) => put(alloc, files, name, bytes),
    }
}

/// The files whose name ends so, in byte order of names.
pub fn entries(alloc: Global, files: &FileMap, ending: &str) -> Result<Vec<FileEntry>, NoMemory>
    ensures { IfOk result (λ found. found.items ≡ entries_of ending.now (files_of files.now)) }
{
    let mut found = Vec::new(alloc);
    for (name, bytes) in files.iter() {
        if name.as_bytes().ends_with(ending.as_bytes()) {
            let etag = etag_of(alloc, bytes.as_slice())?;
            let name = Text::of(String::from_str(alloc, name.as_str())?);
            found.push(FileEntry { name, etag })?;
        }
    }
    Ok(found)
}

/// The files of a list. Of several under one name the first counts.
pub fn collect(alloc: Global, mut files: Vec<(Text, Bytes)>) -> Result<FileMap, NoMemory>
    ensures files { IfOk result (λ map. files_of map ≡ fin.from_entries files.items) }
    ensures len { IfOk result (λ map. btree_map_len map ≤ vec_len files) }
{
    let mut map = BTreeMap::new(alloc);
    while let Some((name, bytes)) = files.pop() {
        insert(&mut map, name, bytes)?;
    }
    Ok(map)
}
