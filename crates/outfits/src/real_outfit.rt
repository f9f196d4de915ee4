//! The outfit of the real machine.

ghost use Rattle.std.specs.Prelude.{◌≡◌, Some, List, ℕ, map};
ghost use Rattle.outfits.specs.Places.{blank_place};
ghost use Rattle.outfits.specs.Children.{child_by, none_out, silent_child};

use crate::outfit::Outfit;
use crate::returns::Returns;
use crate::slots::{Blank, SlotOutfit};
use children::{ProcChild, Spawner};
use outside::{DirFolder, Folder, NoMemory};
use std::alloc::Global;
use std::process::Processes;
use std::rt::{Env, Files};
use values::Text;

/// Makes folders of the real files.
#[derive(Drop)]
struct RealFolders<R: Files + AllocGlobal + Clone + Drop> {
    rt: R,
}

impl<R: Files + AllocGlobal + Clone + Drop> Blank<DirFolder<R>> for RealFolders<R> {
    ghost blank_place = { blank_place };

    ghost blank_tells = { ⊥ };

    fn blank(&self, alloc: Global, path: &str) -> Result<DirFolder<R>, NoMemory> {
        let path = Text::copy_of(alloc, path)?;
        let rt = match self.rt.clone() {
            Ok(rt) => rt,
            Err(_) => return Err(NoMemory),
        };
        Ok(DirFolder::new(rt, path))
    }
}

/// Folders of the real files, by their paths, and the real programs.
#[derive(Drop)]
pub struct RealOutfit<R: Files + Processes + Env + AllocGlobal + Clone + Drop> {
    slots: SlotOutfit<DirFolder<R>, RealFolders<R>>,
    returns: Returns<ProcChild<R>>,
}

impl<R: Files + Processes + Env + AllocGlobal + Clone + Drop + Send> RealOutfit<R> {
    /// An outfit of which no place and no child is out. It takes memory only as places and children are opened.
    pub fn new(alloc: Global, rt: R) -> RealOutfit<R>
        ensures places { (q : List ℕ) → ⟦<RealOutfit<R> as Outfit>⟧.places result q ≡ Some blank_place }
        ensures children { ⟦<RealOutfit<R> as Outfit>⟧.children result ≡ none_out silent_child }
    {
        RealOutfit {
            slots: SlotOutfit::of(alloc, RealFolders { rt }, Vec::new(alloc)),
            returns: Returns::new(alloc),
        }
    }
}

impl<R: Files + Processes + Env + AllocGlobal + Clone + Drop + Send> Outfit for RealOutfit<R> {
    ghost use Rattle.outfits.specs.Places.{blank_place};
    ghost use Rattle.outfits.specs.Children.{child_by, silent_child};
    ghost use Rattle.outfits.specs.Slots.{places_in, tells_in};

    type Dir = DirFolder<R>;

    type Child = ProcChild<R>;

    ghost places = { λ o. places_in ⟦<DirFolder<R> as Folder>⟧.count ⟦<DirFolder<R> as Folder>⟧.state blank_place o.slots };

    ghost tells = { λ o. tells_in ⟦<DirFolder<R> as Folder>⟧.tells ⊥ o.slots };

    ghost children = { λ o. record {
      kind = silent_child;
      out = o.returns.out;
      back = map (child_by ⟦<ProcChild<R> as Spawner>⟧.count ⟦<ProcChild<R> as Spawner>⟧.state) o.returns.back.items;
    } };

    ghost tells_child = { λ _. ⊥ };

    fn open_dir(&mut self, path: &str) -> Result<Option<DirFolder<R>>, NoMemory> {
        self.slots.open_dir(path)
    }

    fn give_dir(&mut self, path: &str, dir: DirFolder<R>) {
        self.slots.give_dir(path, dir)
    }

    fn open_child(&mut self) -> Result<ProcChild<R>, NoMemory> {
        let rt = match self.slots.maker.rt.clone() {
            Ok(rt) => rt,
            Err(_) => return Err(NoMemory),
        };
        match self.returns.open() {
            Ok(()) => Ok(ProcChild::new(rt)),
            Err(NoMemory) => Err(NoMemory),
        }
    }

    fn give_child(&mut self, child: ProcChild<R>) {
        self.returns.give(child)
    }
}
