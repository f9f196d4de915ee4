//! Programs that are only played: how each will end, and which were run.

ghost use Rattle.std.specs.Prelude.{◌≡◌};
ghost use Rattle.children.specs.Children.{is_new};
ghost use Rattle.children.specs.Plays.{state_of, RunPlayed, EditPlayed};

use crate::copies::{copy_bytes, copy_edited, copy_ended, copy_words};
use crate::spawner::{ChildEvent, Edited, Ended};
use outside::NoMemory;
use std::alloc::Global;
use values::Text;

/// How the programs and the editors end that are still to come, and all that were run.
#[derive(Drop)]
pub struct Play {
    alloc: Global,
    pub runs: Vec<Ended>,
    pub edits: Vec<Edited>,
    // How many of each have been played.
    pub ran: usize,
    pub edited: usize,
    pub calls: Vec<ChildEvent>,
}

impl Play {
    pub fn new(alloc: Global, runs: Vec<Ended>, edits: Vec<Edited>) -> Play
        ensures state { state_of result ≡ is_new runs.items edits.items }
        ensures start { (result.runs.items ≡ runs.items) × (result.edits.items ≡ edits.items) }
    {
        Play {
            alloc,
            runs,
            edits,
            ran: 0,
            edited: 0,
            calls: Vec::new(alloc),
        }
    }

    /// Plays the next program, where there is one.
    pub fn run(&mut self, argv: &[Text]) -> Result<Option<Ended>, NoMemory>
        ensures { RunPlayed (state_of self.old) (state_of self.new) argv.now result }
    {
        let Some(next) = self.runs.get(self.ran) else {
            return Ok(None);
        };
        let ended = copy_ended(self.alloc, next)?;
        let event = ChildEvent::Ran {
            argv: copy_words(self.alloc, argv)?,
            ended: copy_ended(self.alloc, next)?,
        };
        self.calls.push(event)?;
        self.ran += 1;
        Ok(Some(ended))
    }

    /// Plays the next editor, where there is one.
    pub fn edit(&mut self, argv: &[Text], a: &[u8], b: &[u8]) -> Result<Option<Edited>, NoMemory>
        ensures { EditPlayed (state_of self.old) (state_of self.new) argv.now a.now b.now result }
    {
        let Some(next) = self.edits.get(self.edited) else {
            return Ok(None);
        };
        let edited = copy_edited(self.alloc, next)?;
        let event = ChildEvent::RanEditor {
            argv: copy_words(self.alloc, argv)?,
            a: copy_bytes(self.alloc, a)?,
            b: copy_bytes(self.alloc, b)?,
            edited: copy_edited(self.alloc, next)?,
        };
        self.calls.push(event)?;
        self.edited += 1;
        Ok(Some(edited))
    }
}
