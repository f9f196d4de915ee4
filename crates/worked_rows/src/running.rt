//! Runs rows, in memory or on real folders.

use crate::compare::differences;
use crate::error::RowError;
use crate::json::Json;
use crate::memory::Devices;
use crate::places::Places;
use crate::ran::Ran;
use crate::rows::{Ground, Row, Run, Wanted};
use crate::sheets::Verdict;
use crate::texts::Texts;
use crate::{memory, real};

/// Where rows are run.
#[derive(Clone, Copy, Drop)]
pub enum World<'a> {
    /// In memory.
    Memory,
    /// Below this folder.
    Real(&'a str),
}

/// How a row came out.
#[derive(Drop)]
pub enum Outcome {
    AsExpected,
    /// What differs at the first run, counted from 1, at which something does.
    Differs { run: usize, differences: String },
    /// Only devices in memory could show what the row expects.
    Skipped,
}

/// Runs rows of a world, one after the other.
#[derive(Drop)]
pub struct Runner<'a> {
    pub rt: &'a HostRuntime,
    pub world: World<'a>,
    pub texts: &'a Texts,
}

/// Whether only devices in memory can run a row, or show that it comes out as it must.
fn wants_memory(row: &Row, verdict: Verdict) -> bool {
    row.runs.iter().any(|run| run.wants_memory()
        || (matches!(verdict, Verdict::NotOk) && run.wanted.is_of_trails()))
}

impl Runner<'_> {
    /// Runs a row, the one of this number.
    pub fn run(&self, form: &Json, verdict: Verdict, number: u64) -> Result<Outcome, RowError> {
        let alloc = self.rt.alloc();
        let root = match self.world {
            World::Memory => String::new(alloc),
            World::Real(folder) => format!(in alloc; "{folder}/{number}")?,
        };
        let ground = Ground {
            alloc,
            texts: self.texts,
            root: root.as_str(),
        };
        let row = ground.row(form)?;
        if self.is_real() {
            if wants_memory(&row, verdict) {
                return Ok(Outcome::Skipped);
            }
            real::make(self.rt, &row.places)?;
        }
        self.run_all(row)
    }

    fn is_real(&self) -> bool {
        matches!(self.world, World::Real(_))
    }

    /// Runs all runs of a row, up to the first at which something differs.
    fn run_all(&self, row: Row) -> Result<Outcome, RowError> {
        let Row { mut places, runs } = row;
        for (index, run) in runs.into_iter().enumerate() {
            let differences = self.run_next(&mut places, run)?;
            if !differences.is_empty() {
                return Ok(Outcome::Differs {
                    run: index.saturating_add(1),
                    differences,
                });
            }
        }
        Ok(Outcome::AsExpected)
    }

    /// Runs a run over what the one before left, and says what differs.
    fn run_next(&self, places: &mut Places, run: Run) -> Result<String, RowError> {
        let alloc = self.rt.alloc();
        memory::edit(alloc, places, run.edits.as_slice())?;
        let (ran, wanted) = self.run_once(places, run)?;
        let differences = differences(alloc, places, &wanted, &ran)?;
        *places = ran.places;
        Ok(differences)
    }

    fn run_once(&self, places: &Places, run: Run) -> Result<(Ran, Wanted), RowError> {
        let Run {
            edits,
            words,
            plans,
            programs,
            input,
            room,
            wanted,
        } = run;
        let ran = if self.is_real() {
            real::edit(self.rt, edits.as_slice())?;
            real::run(self.rt, places, words.as_slice(), input)?
        } else {
            let devices = Devices {
                plans,
                programs,
                input,
                room: room.unwrap_or(memory::ROOM),
            };
            memory::run(self.rt.alloc(), places, words.as_slice(), devices)?
        };
        Ok((ran, wanted))
    }
}
