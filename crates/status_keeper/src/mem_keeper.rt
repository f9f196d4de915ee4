//! A keeper in memory, with faults by a plan.

ghost use Rattle.std.specs.Prelude.{◌≡◌, ◌++◌, ◌∷◌, [], IfOk, OnOk, OnErr};
ghost use Rattle.status_keeper.specs.Idents.{IsRising, IsRising-prop};
ghost use Rattle.status_keeper.specs.Rows.{row_idents};

use crate::keeper::{Keeper, KeeperError};
use crate::row::Row;
use outside::{Fate, FaultPlan, NoMemory, Planned};
use std::alloc::{AllocError, Global};
use values::Text;

/// Keeps the rows of a job in memory. Nothing edits it from outside.
#[derive(Drop)]
pub struct MemKeeper {
    alloc: Global,
    rows: Vec<Row>,
    // What was committed, the first of it first.
    past: Vec<Vec<Row>>,
    planned: Planned,
    loaded: bool,
    ghost rising: { IsRising (row_idents rows.items) } by { IsRising-prop (row_idents rows.items) },
}

fn copy_text(alloc: Global, text: &Option<Text>) -> Result<Option<Text>, AllocError>
    ensures { IfOk result (λ copy. copy ≡ text.now) }
{
    match text {
        None => Ok(None),
        Some(text) => Ok(Some(Text::copy_of(alloc, text.as_str())?)),
    }
}

fn copy_row(alloc: Global, row: &Row) -> Result<Row, AllocError>
    ensures { IfOk result (λ copy. copy ≡ row.now) }
{
    Ok(Row {
        ident: Text::copy_of(alloc, row.ident.as_str())?,
        fp: row.fp,
        href_a: copy_text(alloc, &row.href_a)?,
        etag_a: copy_text(alloc, &row.etag_a)?,
        href_b: copy_text(alloc, &row.href_b)?,
        etag_b: copy_text(alloc, &row.etag_b)?,
    })
}

fn copy_rows(alloc: Global, rows: &[Row]) -> Result<Vec<Row>, NoMemory>
    ensures { IfOk result (λ copy. copy.items ≡ rows.now) }
{
    let mut copied = Vec::new(alloc);
    for row in rows {
        copied.push(copy_row(alloc, row)?)?;
    }
    Ok(copied)
}

impl MemKeeper {
    ghost use Rattle.std.specs.Prelude.{Ok, Some, false};
    ghost use Rattle.outside.specs.Plans.{begun};
    ghost use Rattle.status_keeper.specs.Kept.{Committed};
    ghost use Rattle.status_keeper.specs.MemStatus.{commits_of, state_with};

    /// A keeper of these rows. `plan` says which calls fail; its edits change nothing.
    pub fn new(alloc: Global, rows: Vec<Row>, plan: FaultPlan) -> Result<MemKeeper, NoMemory>
        requires { IsRising (row_idents rows.items) }
        ensures tells { IfOk result (λ k. ⟦<MemKeeper as Keeper>⟧.tells k) }
        ensures state { IfOk result (λ k. ⟦<MemKeeper as Keeper>⟧.state k ≡ state_with rows.items []) }
        ensures count { IfOk result (λ k. ⟦<MemKeeper as Keeper>⟧.count k ≡ 0) }
        ensures course { IfOk result (λ k. ⟦<MemKeeper as Keeper>⟧.course k ≡ Some (begun plan)) }
        ensures loaded { IfOk result (λ k. ⟦<MemKeeper as Keeper>⟧.is_loaded k ≡ false) }
    {
        Ok(MemKeeper {
            alloc,
            rows,
            past: Vec::new(alloc),
            planned: Planned::new(plan),
            loaded: false,
        })
    }

    /// The rows that it keeps.
    pub fn rows(&self) -> &[Row]
        ensures { (⟦<MemKeeper as Keeper>⟧.state self.now).kept ≡ Ok result.now }
    {
        self.rows.as_slice()
    }

    /// Keeps copies of these rows.
    fn keep(&mut self, rows: &[Row]) -> Result<(), NoMemory>
        requires { IsRising (row_idents rows.now) }
        ensures rows { OnOk result (self.new.rows.items ≡ rows.now) }
        ensures past { OnOk result (commits_of self.new.past.items ≡ commits_of self.old.past.items ++ Committed rows.now ∷ []) }
        ensures same_rows { OnErr result (self.new.rows.items ≡ self.old.rows.items) }
        ensures same_past { OnErr result (self.new.past.items ≡ self.old.past.items) }
        ensures planned { self.new.planned ≡ self.old.planned }
        ensures loaded { self.new.loaded ≡ self.old.loaded }
    {
        let kept = copy_rows(self.alloc, rows)?;
        let committed = copy_rows(self.alloc, rows)?;
        self.past.push(committed)?;
        self.rows = kept;
        Ok(())
    }
}

impl Keeper for MemKeeper {
    ghost use Rattle.std.specs.Prelude.{Some};
    ghost use Rattle.outside.specs.Planned.{course_of};
    ghost use Rattle.status_keeper.specs.MemStatus.{mem_state, found_of, GivesRows, KeepsRows};

    ghost count = { λ k. k.planned.faults.count };

    ghost course = { λ k. Some (course_of k.planned) };

    ghost tells = { λ _. Unit {0} };

    ghost state = { λ k. mem_state k };

    ghost is_loaded = { λ k. k.loaded };

    ghost found = { λ k. found_of k.rows.items };

    ghost loads = { λ old new result. GivesRows (mem_state old) (mem_state new) result };

    ghost commits = { λ old new rows result. KeepsRows (mem_state old) (mem_state new) rows result };

    fn faults(&self) -> u64 {
        self.planned.faults.count
    }

    fn load(&mut self) -> Result<Vec<Row>, KeeperError> {
        match self.planned.begin() {
            Fate::Acts => match copy_rows(self.alloc, self.rows.as_slice()) {
                Ok(rows) => {
                    self.loaded = true;
                    Ok(rows)
                }
                Err(_) => Err(KeeperError::NoMemory),
            },
            Fate::Fails => Err(KeeperError::Fault),
            Fate::ActsAndFails => Err(KeeperError::Fault),
        }
    }

    fn commit(&mut self, rows: &[Row]) -> Result<(), KeeperError> {
        match self.planned.begin() {
            Fate::Acts => match self.keep(rows) {
                Ok(()) => Ok(()),
                Err(_) => Err(KeeperError::NoMemory),
            },
            Fate::Fails => Err(KeeperError::Fault),
            Fate::ActsAndFails => match self.keep(rows) {
                Ok(()) => Err(KeeperError::Fault),
                Err(_) => Err(KeeperError::Fault),
            },
        }
    }
}
