//! The three places of a job: opened all or none, and given back.

ghost use Rattle.std.specs.Prelude.{◌≡◌, IfOk, OnErr, None};
ghost use Rattle.outfits.specs.Places.{IsWhole, IsSame, StayTold, place_by};
ghost use Rattle.vdirsyncer_cli.specs.SamePlace.{IsSamePlace};
ghost use Rattle.vdirsyncer_cli.specs.Opened.{HandsOut, TakesBack};

use outfits::Outfit;
use outside::NoMemory;

/// The three places of a job.
#[derive(Drop)]
pub struct Opened<D> {
    pub a: D,
    pub b: D,
    pub status: D,
}

/// Opens the three places of a job, all or none.
pub fn open_three<O: Outfit>(
    a: &str,
    b: &str,
    status: &str,
    outfit: &mut O,
) -> Result<Opened<O::Dir>, NoMemory>
    requires whole { IsWhole (O.places outfit.old) }
    requires apart { IsSamePlace a.now b.now status.now → ⊥ }
    ensures opened { IfOk result (HandsOut (place_by O.Dir.count O.Dir.state) O.Dir.tells (O.places outfit.old) (O.places outfit.new) (O.tells outfit.old) (O.tells outfit.new) a.now b.now status.now) }
    ensures starved { OnErr result (IsSame (O.places outfit.old) (O.places outfit.new)) }
    ensures stay_told { OnErr result (StayTold (O.tells outfit.old) (O.tells outfit.new)) }
    ensures children { O.children outfit.new ≡ O.children outfit.old }
{
    let dir_a = match outfit.open_dir(a) {
        Ok(Some(dir)) => dir,
        Ok(None) => unreachable!(),
        Err(NoMemory) => return Err(NoMemory),
    };
    let dir_b = match outfit.open_dir(b) {
        Ok(Some(dir)) => dir,
        Ok(None) => unreachable!(),
        Err(NoMemory) => {
            outfit.give_dir(a, dir_a);
            return Err(NoMemory);
        }
    };
    match outfit.open_dir(status) {
        Ok(Some(dir_s)) => Ok(Opened {
            a: dir_a,
            b: dir_b,
            status: dir_s,
        }),
        Ok(None) => unreachable!(),
        Err(NoMemory) => {
            outfit.give_dir(a, dir_a);
            outfit.give_dir(b, dir_b);
            Err(NoMemory)
        }
    }
}

/// Gives the three places of a job back.
pub fn give_three<O: Outfit>(a: &str, b: &str, status: &str, dirs: Opened<O::Dir>, outfit: &mut O)
    requires apart { IsSamePlace a.now b.now status.now → ⊥ }
    requires out_a { O.places outfit.old a.now ≡ None }
    requires out_b { O.places outfit.old b.now ≡ None }
    requires out_s { O.places outfit.old status.now ≡ None }
    ensures given { TakesBack (place_by O.Dir.count O.Dir.state) O.Dir.tells (O.places outfit.old) (O.places outfit.new) (O.tells outfit.old) (O.tells outfit.new) a.now b.now status.now dirs }
    ensures children { O.children outfit.new ≡ O.children outfit.old }
{
    let Opened {
        a: dir_a,
        b: dir_b,
        status: dir_s,
    } = dirs;
    outfit.give_dir(a, dir_a);
    outfit.give_dir(b, dir_b);
    outfit.give_dir(status, dir_s);
}
