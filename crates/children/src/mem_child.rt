//! Programs in memory: how each ends is given, and faults come by a plan.

ghost use Rattle.std.specs.Prelude.{◌≡◌, ◌≤◌, ◌<◌, IfOk, IfErr, IsErr, Some, length};
ghost use Rattle.outside.specs.Causes.{Rose};
ghost use Rattle.outside.specs.Plans.{begun, CountsFate, FailsBy, unless_stopped};
ghost use Rattle.outside.specs.Planned.{course_of};
ghost use Rattle.outside.specs.declared.plan.Fate.TheVariants.{Acts};
ghost use Rattle.children.specs.Children.{is_new, no_run_left, no_edit_left};
ghost use Rattle.children.specs.ChildCalls.{SpawnCause, RunAnswer, EditAnswer, longest};
ghost use Rattle.children.specs.Plays.{state_of, start_of, BeginsAlike};

use crate::copies::{copy_edits, copy_plan, copy_runs};
use crate::limits::{edited_within, ended_within};
use crate::play::Play;
use crate::spawner::{ChildEvent, Edited, Ended, SpawnError, Spawner};
use outside::{Fate, FaultPlan, NoMemory, Planned};
use std::alloc::Global;
use values::Text;

/// Programs in memory. A call that acts plays the next program of its kind; where there is none it fails, and that
/// counts as a fault.
#[derive(Drop)]
pub struct MemChild {
    play: Play,
    planned: Planned,
}

impl MemChild {
    /// Programs and editors that end so, the first of them first. `plan` says which calls fail; its edits mean
    /// nothing here.
    pub fn new(
        alloc: Global,
        runs: Vec<Ended>,
        edits: Vec<Edited>,
        plan: FaultPlan,
    ) -> Result<MemChild, NoMemory>
        ensures tells { IfOk result (λ m. ⟦<MemChild as Spawner>⟧.tells m × (⟦<MemChild as Spawner>⟧.state m ≡ is_new runs.items edits.items)) }
        ensures count { IfOk result (λ m. ⟦<MemChild as Spawner>⟧.count m ≡ 0) }
        ensures course { IfOk result (λ m. ⟦<MemChild as Spawner>⟧.course m ≡ Some (begun plan)) }
        ensures start { IfOk result (λ m. start_of m ≡ is_new runs.items edits.items) }
    {
        Ok(MemChild {
            play: Play::new(alloc, runs, edits),
            planned: Planned::new(plan),
        })
    }

    /// Programs and editors that end as those of this one do, from the first of them, by a plan of which the same
    /// calls fail.
    pub fn afresh(&self, alloc: Global) -> Result<MemChild, NoMemory>
        ensures state { IfOk result (λ m. ⟦<MemChild as Spawner>⟧.state m ≡ start_of self.now) }
        ensures count { IfOk result (λ m. ⟦<MemChild as Spawner>⟧.count m ≡ 0) }
        ensures course { IfOk result (λ m. BeginsAlike (⟦<MemChild as Spawner>⟧.course self.now) (⟦<MemChild as Spawner>⟧.course m)) }
    {
        let runs = copy_runs(alloc, self.play.runs.as_slice())?;
        let edits = copy_edits(alloc, self.play.edits.as_slice())?;
        let plan = copy_plan(alloc, &self.planned.plan)?;
        MemChild::new(alloc, runs, edits, plan)
    }

    /// The programs that were run, the first of them first. Takes no memory.
    pub fn calls(&self) -> &[ChildEvent]
        ensures { result.now ≡ (⟦<MemChild as Spawner>⟧.state self.now).calls }
    {
        self.play.calls.as_slice()
    }

    /// Runs the next program, which the plan lets act.
    fn play_run(&mut self, argv: &[Text], limit: u64) -> Result<Ended, SpawnError>
        ensures course { course_of self.new.planned ≡ course_of self.old.planned }
        ensures later { self.old.planned.faults.count ≤ self.new.planned.faults.count }
        ensures counted { CountsFate (unless_stopped (no_run_left (state_of self.old.play).ahead) Acts) self.old.planned.faults.count self.new.planned.faults.count }
        ensures fails { FailsBy (unless_stopped (no_run_left (state_of self.old.play).ahead) Acts) (IsErr result) }
        ensures cause { IfErr result (SpawnCause (Rose self.old.planned.faults.count self.new.planned.faults.count) limit) }
        ensures within { IfOk result (λ ended. length ended.output ≤ limit) }
        ensures answer { RunAnswer (state_of self.old.play) (state_of self.new.play) argv.now limit result }
    {
        match self.play.run(argv) {
            Err(NoMemory) => Err(SpawnError::NoMemory),
            Ok(None) => {
                self.planned.faults.raise();
                Err(SpawnError::Fault)
            }
            Ok(Some(ended)) => ended_within(ended, limit),
        }
    }

    /// Runs the next editor, which the plan lets act.
    fn play_edit(
        &mut self,
        argv: &[Text],
        a: &[u8],
        b: &[u8],
        limit: u64,
    ) -> Result<Edited, SpawnError>
        ensures course { course_of self.new.planned ≡ course_of self.old.planned }
        ensures later { self.old.planned.faults.count ≤ self.new.planned.faults.count }
        ensures counted { CountsFate (unless_stopped (no_edit_left (state_of self.old.play).ahead) Acts) self.old.planned.faults.count self.new.planned.faults.count }
        ensures fails { FailsBy (unless_stopped (no_edit_left (state_of self.old.play).ahead) Acts) (IsErr result) }
        ensures cause { IfErr result (SpawnCause (Rose self.old.planned.faults.count self.new.planned.faults.count) limit) }
        ensures within { IfOk result (λ edited. longest edited ≤ limit) }
        ensures answer { EditAnswer (state_of self.old.play) (state_of self.new.play) argv.now a.now b.now limit result }
    {
        match self.play.edit(argv, a, b) {
            Err(NoMemory) => Err(SpawnError::NoMemory),
            Ok(None) => {
                self.planned.faults.raise();
                Err(SpawnError::Fault)
            }
            Ok(Some(edited)) => edited_within(edited, limit),
        }
    }
}

impl Spawner for MemChild {
    ghost use Rattle.std.specs.Prelude.{Some};
    ghost use Rattle.outside.specs.Planned.{course_of};
    ghost use Rattle.children.specs.Plays.{state_of};

    ghost count = { λ m. m.planned.faults.count };

    ghost course = { λ m. Some (course_of m.planned) };

    ghost tells = { λ _. Unit {0} };

    ghost state = { λ m. state_of m.play };

    fn faults(&self) -> u64 {
        self.planned.faults.count
    }

    fn run(&mut self, argv: &[Text], limit: u64) -> Result<Ended, SpawnError> {
        match self.planned.begin() {
            Fate::Acts => self.play_run(argv, limit),
            Fate::Fails => Err(SpawnError::Fault),
            Fate::ActsAndFails => match self.play.run(argv) {
                Ok(_) => Err(SpawnError::Fault),
                Err(NoMemory) => Err(SpawnError::NoMemory),
            },
        }
    }

    fn edit(
        &mut self,
        argv: &[Text],
        a: &[u8],
        b: &[u8],
        limit: u64,
    ) -> Result<Edited, SpawnError> {
        match self.planned.begin() {
            Fate::Acts => self.play_edit(argv, a, b, limit),
            Fate::Fails => Err(SpawnError::Fault),
            Fate::ActsAndFails => match self.play.edit(argv, a, b) {
                Ok(_) => Err(SpawnError::Fault),
                Err(NoMemory) => Err(SpawnError::NoMemory),
            },
        }
    }
}
