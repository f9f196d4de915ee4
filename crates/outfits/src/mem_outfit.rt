//! An outfit of folders and programs in memory.

ghost use Rattle.std.specs.Prelude.{◌≡◌, ◌≢◌, ℕ, List, IfOk, AllPairs, map};
ghost use Rattle.outfits.specs.Places.{place_by, blank_place, StandAs, IsWhole};
ghost use Rattle.outfits.specs.Slots.{slot_of};
ghost use Rattle.outfits.specs.Children.{child_by, none_out};
ghost use Rattle.children.specs.Plays.{start_of};

use crate::outfit::Outfit;
use crate::returns::Returns;
use crate::slots::{Blank, Slot, SlotOutfit};
use children::{MemChild, Spawner};
use outside::{FaultPlan, Folder, MemFolder, NoMemory};
use std::alloc::{AllocError, Global};
use values::Text;

/// Makes folders in memory that aren't there.
#[derive(Drop)]
struct AbsentFolders;

impl Blank<MemFolder> for AbsentFolders {
    ghost blank_place = { blank_place };

    ghost blank_tells = { Unit {0} };

    fn blank(&self, alloc: Global, _path: &str) -> Result<MemFolder, NoMemory> {
        let plan = FaultPlan {
            places: Vec::new(alloc),
            stop_at: None,
            edits: Vec::new(alloc),
        };
        MemFolder::new(alloc, false, Vec::new(alloc), Vec::new(alloc), plan)
    }
}

fn slots_of(alloc: Global, dirs: Vec<(Text, MemFolder)>) -> Result<Vec<Slot<MemFolder>>, AllocError>
    ensures { IfOk result (λ slots. slots.items ≡ map slot_of dirs.items) }
{
    dirs.into_iter()
        .map(|(path, dir)| Slot {
            path,
            held: Some(dir),
        })
        .collect(alloc)
}

/// Folders in memory, and programs in memory. A location that no folder was put at is a folder that isn't there. Each
/// child that is handed out plays its programs from their start.
#[derive(Drop)]
pub struct MemOutfit {
    alloc: Global,
    slots: SlotOutfit<MemFolder, AbsentFolders>,
    child: MemChild,
    returns: Returns<MemChild>,
}

impl MemOutfit {
    /// An outfit of these folders, none of which is out, and of children that play as this one.
    pub fn new(
        alloc: Global,
        dirs: Vec<(Text, MemFolder)>,
        child: MemChild,
    ) -> Result<MemOutfit, NoMemory>
        requires { AllPairs (λ d e. d.0 ≢ e.0) dirs.items }
        ensures places { IfOk result (λ o. StandAs (place_by ⟦<MemFolder as Folder>⟧.count ⟦<MemFolder as Folder>⟧.state) blank_place dirs.items (⟦<MemOutfit as Outfit>⟧.places o)) }
        ensures whole { IfOk result (λ o. IsWhole (⟦<MemOutfit as Outfit>⟧.places o)) }
        ensures tells { IfOk result (λ o. (q : List ℕ) → ⟦<MemOutfit as Outfit>⟧.tells o q) }
        ensures children { IfOk result (λ o. ⟦<MemOutfit as Outfit>⟧.children o ≡ none_out (record { faults = 0; state = start_of child })) }
        ensures tells_child { IfOk result (λ o. ⟦<MemOutfit as Outfit>⟧.tells_child o) }
    {
        let slots = slots_of(alloc, dirs)?;
        Ok(MemOutfit {
            alloc,
            slots: SlotOutfit::of(alloc, AbsentFolders, slots),
            child,
            returns: Returns::new(alloc),
        })
    }

    /// The children that came back, in this order. Takes no memory.
    pub fn children(&self) -> &[MemChild]
        ensures { map (child_by ⟦<MemChild as Spawner>⟧.count ⟦<MemChild as Spawner>⟧.state) result.now ≡ (⟦<MemOutfit as Outfit>⟧.children self.now).back }
    {
        self.returns.back.as_slice()
    }
}

impl Outfit for MemOutfit {
    ghost use Rattle.outfits.specs.Places.{blank_place};
    ghost use Rattle.outfits.specs.Children.{child_by};
    ghost use Rattle.outfits.specs.Slots.{places_in, tells_in};
    ghost use Rattle.children.specs.Plays.{start_of};

    type Dir = MemFolder;

    type Child = MemChild;

    ghost places = { λ o. places_in ⟦<MemFolder as Folder>⟧.count ⟦<MemFolder as Folder>⟧.state blank_place o.slots };

    ghost tells = { λ o. tells_in ⟦<MemFolder as Folder>⟧.tells (Unit {0}) o.slots };

    ghost children = { λ o. record {
      kind = record { faults = 0; state = start_of o.child };
      out = o.returns.out;
      back = map (child_by ⟦<MemChild as Spawner>⟧.count ⟦<MemChild as Spawner>⟧.state) o.returns.back.items;
    } };

    ghost tells_child = { λ _. Unit {0} };

    fn open_dir(&mut self, path: &str) -> Result<Option<MemFolder>, NoMemory> {
        self.slots.open_dir(path)
    }

    fn give_dir(&mut self, path: &str, dir: MemFolder) {
        self.slots.give_dir(path, dir)
    }

    fn open_child(&mut self) -> Result<MemChild, NoMemory> {
        let child = match self.child.afresh(self.alloc) {
            Ok(child) => child,
            Err(NoMemory) => return Err(NoMemory),
        };
        match self.returns.open() {
            Ok(()) => Ok(child),
            Err(NoMemory) => Err(NoMemory),
        }
    }

    fn give_child(&mut self, child: MemChild) {
        self.returns.give(child)
    }
}
