//! What a run did beside what a row expects of it.

use crate::places::{Held, Places};
use crate::ran::{Ran, Trail};
use crate::rows::{Names, Wanted};
use std::alloc::{AllocError, Global};
use std::collections::BTreeMap;

/// Compares a run with what is expected of it.
#[derive(Drop)]
struct Comparison<'a> {
    alloc: Global,
    before: &'a Places,
    wanted: &'a Wanted,
    ran: &'a Ran,
    /// All that differs, on one line.
    found: String,
}

/// What happens to a file by the program.
#[derive(Clone, Copy)]
enum Kind {
    Writes,
    Reads,
}

impl Comparison<'_> {
    fn add(&mut self, difference: &str) -> Result<(), AllocError> {
        if !self.found.is_empty() {
            self.found.push_str("; ")?;
        }
        self.found.push_str(difference)
    }

    fn exit(&mut self) -> Result<(), AllocError> {
        let (got, wanted) = (self.ran.exit, self.wanted.exit);
        if got == wanted {
            return Ok(());
        }
        let difference = format!(in self.alloc; "exit {got}, not {wanted}")?;
        self.add(difference.as_str())
    }

    fn printed(&mut self, stream: &str, got: &[u8], wanted: &[u8]) -> Result<(), AllocError> {
        if got == wanted {
            return Ok(());
        }
        let got = String::from_utf8_lossy(self.alloc, got)?;
        let wanted = String::from_utf8_lossy(self.alloc, wanted)?;
        let difference = format!(in self.alloc; "{stream} {got:?}, not {wanted:?}")?;
        self.add(difference.as_str())
    }

    fn file(&mut self, path: &str, name: &str, fault: &str) -> Result<(), AllocError> {
        let difference = format!(in self.alloc; "{path}: {name:?} {fault}")?;
        self.add(difference.as_str())
    }

    fn files(&mut self, path: &str, got: &Held, wanted: &Held) -> Result<(), AllocError> {
        for (name, bytes) in wanted.files.iter() {
            match got.files.get(name.as_str()) {
                None => self.file(path, name.as_str(), "is not there")?,
                Some(found) => {
                    if found.as_slice() != bytes.as_slice() {
                        self.file(path, name.as_str(), "has other bytes")?;
                    }
                }
            }
        }
        for name in got.files.keys() {
            if !wanted.files.contains_key(name.as_str()) {
                self.file(path, name.as_str(), "is one too many")?;
            }
        }
        Ok(())
    }

    fn place(
        &mut self,
        path: &str,
        got: Option<&Held>,
        wanted: Option<&Held>,
    ) -> Result<(), AllocError> {
        let fault = match (got, wanted) {
            (None, None) => return Ok(()),
            (Some(got), Some(wanted)) => {
                self.files(path, got, wanted)?;
                if got.folders.iter().eq(wanted.folders.iter()) {
                    return Ok(());
                }
                "has other subfolders"
            }
            (Some(_), None) => "is there",
            (None, Some(_)) => "is not there",
        };
        let difference = format!(in self.alloc; "{path} {fault}")?;
        self.add(difference.as_str())
    }

    fn places(&mut self) -> Result<(), AllocError> {
        let (before, then, after) = (self.before, &self.wanted.then, &self.ran.places);
        for (path, held) in before.iter() {
            let wanted = match then.get(path.as_str()) {
                Some(wanted) => wanted,
                None => held,
            };
            let got = match after.get(path.as_str()) {
                Some(got) => got.as_ref(),
                None => None,
            };
            self.place(path.as_str(), got, wanted.as_ref())?;
        }
        Ok(())
    }

    fn happened(
        &mut self,
        path: &str,
        kind: &str,
        got: &[String],
        wanted: &[String],
    ) -> Result<(), AllocError> {
        if got == wanted {
            return Ok(());
        }
        let difference = format!(in self.alloc; "{path}: {kind} {got:?}, not {wanted:?}")?;
        self.add(difference.as_str())
    }

    fn names(
        &mut self,
        kind: Kind,
        trails: &BTreeMap<String, Trail>,
        wanted: &Names,
    ) -> Result<(), AllocError> {
        for (path, trail) in trails.iter() {
            let (word, got) = match kind {
                Kind::Writes => ("writes", trail.writes.as_slice()),
                Kind::Reads => ("reads", trail.reads.as_slice()),
            };
            let names = match wanted.get(path.as_str()) {
                Some(names) => names.as_slice(),
                None => &[],
            };
            self.happened(path.as_str(), word, got, names)?;
        }
        Ok(())
    }

    fn kept(&mut self, trails: &BTreeMap<String, Trail>) -> Result<(), AllocError> {
        let wanted = self.wanted;
        for path in &wanted.keeps {
            if let Some(trail) = trails.get(path.as_str()) {
                self.happened(path.as_str(), "writes", trail.writes.as_slice(), &[])?;
            }
        }
        Ok(())
    }

    fn trails(&mut self, trails: &BTreeMap<String, Trail>) -> Result<(), AllocError> {
        let wanted = self.wanted;
        if let Some(names) = &wanted.writes {
            self.names(Kind::Writes, trails, names)?;
        }
        if let Some(names) = &wanted.reads {
            self.names(Kind::Reads, trails, names)?;
        }
        self.kept(trails)
    }

    fn all(&mut self) -> Result<(), AllocError> {
        let (ran, wanted) = (self.ran, self.wanted);
        self.exit()?;
        self.printed("out", ran.out.as_slice(), wanted.out.as_slice())?;
        self.printed("err", ran.err.as_slice(), wanted.err.as_slice())?;
        self.places()?;
        self.programs()?;
        match &ran.trails {
            Some(trails) => self.trails(trails),
            None => Ok(()),
        }
    }

    fn programs(&mut self) -> Result<(), AllocError> {
        let (Some(got), Some(wanted)) = (&self.ran.programs, &self.wanted.ran) else {
            return Ok(());
        };
        if got.as_slice() == wanted.as_slice() {
            return Ok(());
        }
        let difference = format!(in self.alloc; "ran {got:?}, not {wanted:?}")?;
        self.add(difference.as_str())
    }
}

/// All that differs, on one line, in the order: exit status, what was printed, places, programs, own writes and reads.
pub fn differences<'a>(
    alloc: Global,
    before: &'a Places,
    wanted: &'a Wanted,
    ran: &'a Ran,
) -> Result<String, AllocError> {
    let mut comparison = Comparison {
        alloc,
        before,
        wanted,
        ran,
        found: String::new(alloc),
    };
    comparison.all()?;
    let Comparison { found, .. } = comparison;
    Ok(found)
}
