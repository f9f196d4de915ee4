//! Slots under locations: where each outfit keeps its folders.

ghost use Rattle.std.specs.Prelude.{◌≡◌, ◌<◌, length, ℕ, Some, None, IfOk, IfSome, IfNone};
ghost use Rattle.outfits.specs.Places.{place_by, ChangesOnly, OpenAnswer, OpenTold, GiveTold};
ghost use Rattle.outfits.specs.Slots.{IsAbsent, IsAt, places_in, tells_in};

use outside::{Folder, NoMemory};
use std::alloc::Global;
use values::Text;

/// Makes the folder of a location that nothing was put at.
pub trait Blank<D: Folder> {
    ghost use Rattle.outfits.specs.Places.{Place, place_by};

    /// What such a folder is.
    ghost blank_place: { Place };

    /// Whether contracts can see its state.
    ghost blank_tells: { Type 0 };

    fn blank(&self, alloc: Global, path: &str) -> Result<D, NoMemory>
        ensures place { IfOk result (λ dir. place_by D.count D.state dir ≡ blank_place) }
        ensures told { IfOk result (λ dir. blank_tells → D.tells dir) };
}

/// What stands at a location: nothing where it is out.
#[derive(Drop)]
pub struct Slot<D> {
    pub path: Text,
    pub held: Option<D>,
}

/// Folders under their locations. One that is opened first is made by the maker, and its slot stays
/// for its return.
#[derive(Drop)]
pub struct SlotOutfit<D, M> {
    alloc: Global,
    pub maker: M,
    slots: Vec<Slot<D>>,
}

/// Where the slot of a location is.
fn find<D>(slots: &[Slot<D>], path: &str) -> Option<usize>
    ensures inside { IfSome result (λ i. i < length slots.now) }
    ensures found { IfSome result (IsAt slots.now path.now) }
    ensures absent { IfNone result (IsAbsent slots.now path.now) }
{
    for (i, slot) in slots.iter().enumerate() {
        if slot.path.as_str() == path {
            return Some(i);
        }
    }
    None
}

impl<D, M> SlotOutfit<D, M> {
    pub fn of(alloc: Global, maker: M, slots: Vec<Slot<D>>) -> SlotOutfit<D, M>
        ensures maker { result.maker ≡ maker }
        ensures slots { result.slots.items ≡ slots.items }
    {
        SlotOutfit {
            alloc,
            maker,
            slots,
        }
    }
}

impl<D: Folder + Drop, M: Blank<D>> SlotOutfit<D, M> {
    /// Opens the folder at a location.
    pub fn open_dir(&mut self, path: &str) -> Result<Option<D>, NoMemory>
        ensures opened { OpenAnswer (place_by D.count D.state) (places_in D.count D.state M.blank_place self.old) (places_in D.count D.state M.blank_place self.new) path.now result }
        ensures told { OpenTold D.tells (tells_in D.tells M.blank_tells self.old) (tells_in D.tells M.blank_tells self.new) path.now result }
    {
        match find(&self.slots, path) {
            Some(i) => {
                let slot = &mut self.slots[i];
                match slot.held.take() {
                    Some(dir) => Ok(Some(dir)),
                    None => Ok(None),
                }
            }
            None => {
                let dir = match self.maker.blank(self.alloc, path) {
                    Ok(dir) => dir,
                    Err(NoMemory) => return Err(NoMemory),
                };
                let name = match Text::copy_of(self.alloc, path) {
                    Ok(name) => name,
                    Err(_) => return Err(NoMemory),
                };
                let slot = Slot {
                    path: name,
                    held: None,
                };
                match self.slots.push(slot) {
                    Ok(()) => Ok(Some(dir)),
                    Err(_) => Err(NoMemory),
                }
            }
        }
    }

    /// Puts a folder back.
    pub fn give_dir(&mut self, path: &str, dir: D)
        requires { places_in D.count D.state M.blank_place self.old path.now ≡ None }
        ensures given { ChangesOnly (places_in D.count D.state M.blank_place self.old) (places_in D.count D.state M.blank_place self.new) path.now (Some (place_by D.count D.state dir)) }
        ensures told { GiveTold (tells_in D.tells M.blank_tells self.old) (tells_in D.tells M.blank_tells self.new) path.now (D.tells dir) }
    {
        match find(&self.slots, path) {
            Some(i) => {
                let slot = &mut self.slots[i];
                slot.held = Some(dir);
            }
            None => unreachable!(),
        }
    }
}
