//! An outfit: what a program can open.

ghost use Rattle.std.specs.Prelude.{◌≡◌, ◌<◌, ℕ, List, Option, None, Some, Ok, IfOk};

use children::Spawner;
use outside::{Folder, NoMemory};

/// Hands out folders by their location, each to one holder at a time, and children, each of which is like the others
/// when it is handed out.
pub trait Outfit {
    ghost use Rattle.outfits.specs.Places.{Place, place_by, ChangesOnly, IsSame, StayTold, OpenAnswer, OpenTold, GiveTold};
    ghost use Rattle.outfits.specs.Children.{Children, child_by, ChildOpened, ChildGiven};

    type Dir: Folder + Drop + Send;

    type Child: Spawner + Drop + Send;

    /// What stands at each location: nothing where the place is out.
    ghost places: { Self → List ℕ → Option Place };

    /// Whether contracts can see the state of what stands at a location.
    ghost tells: { Self → List ℕ → Type 0 };

    /// What the children are, how many are out, and which came back.
    ghost children: { Self → Children };

    /// Whether contracts can see the state of a child that is handed out.
    ghost tells_child: { Self → Type 0 };

    /// Opens the folder at a location. `None` where it is out already.
    fn open_dir(&mut self, path: &str) -> Result<Option<Self::Dir>, NoMemory>
        ensures opened { OpenAnswer (place_by Self.Dir.count Self.Dir.state) (places self.old) (places self.new) path.now result }
        ensures told { OpenTold Self.Dir.tells (tells self.old) (tells self.new) path.now result }
        ensures children { children self.new ≡ children self.old }
        ensures child_told { tells_child self.old → tells_child self.new };

    /// Puts a folder back. Takes no memory: the call that opened the place made the room.
    fn give_dir(&mut self, path: &str, dir: Self::Dir)
        requires { places self.old path.now ≡ None }
        ensures given { ChangesOnly (places self.old) (places self.new) path.now (Some (place_by Self.Dir.count Self.Dir.state dir)) }
        ensures told { GiveTold (tells self.old) (tells self.new) path.now (Self.Dir.tells dir) }
        ensures children { children self.new ≡ children self.old }
        ensures child_told { tells_child self.old → tells_child self.new };

    /// Hands out a child.
    fn open_child(&mut self) -> Result<Self::Child, NoMemory>
        ensures opened { ChildOpened (child_by Self.Child.count Self.Child.state) (children self.old) (children self.new) result }
        ensures told { tells_child self.old → IfOk result Self.Child.tells }
        ensures child_told { tells_child self.old → tells_child self.new }
        ensures same { IsSame (places self.old) (places self.new) }
        ensures stay_told { StayTold (tells self.old) (tells self.new) };

    /// Takes a child back, and keeps it behind those that came before. Takes no memory: the call that handed it out made
    /// the room.
    fn give_child(&mut self, child: Self::Child)
        requires { 0 < (children self.old).out }
        ensures given { ChildGiven (children self.old) (children self.new) (child_by Self.Child.count Self.Child.state child) }
        ensures child_told { tells_child self.old → tells_child self.new }
        ensures same { IsSame (places self.old) (places self.new) }
        ensures stay_told { StayTold (tells self.old) (tells self.new) };
}
