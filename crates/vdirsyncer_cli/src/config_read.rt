//! Reads the file of the configuration through the outfit.

ghost use Rattle.std.specs.Prelude.{◌≡◌};
ghost use Rattle.outfits.specs.Places.{IsWhole, StayTold, place_by};
ghost use Rattle.vdirsyncer_cli.specs.ConfigRead.{FileStep, FileRead};
ghost use Rattle.vdirsyncer_cli.specs.Files.{folder_of, name_of};

use crate::file_error::FileError;
use crate::files::{folder_of, name_of};
use outfits::Outfit;
use outside::{Folder, FolderError, NoMemory};
use values::Bytes;

/// The longest configuration, in bytes.
pub const CONFIG_LIMIT: u64 = 1_048_576;

/// Reads the file in its folder.
fn read_file<F: Folder>(folder: &mut F, name: &str) -> Result<Bytes, FileError>
    ensures step { FileStep (place_by F.count F.state folder.old) (place_by F.count F.state folder.new) (F.tells folder.old) name.now result }
    ensures told { F.tells folder.old → F.tells folder.new }
{
    match folder.read(name, CONFIG_LIMIT) {
        Ok(Some(bytes)) => Ok(Bytes::of(bytes)),
        Ok(None) => Err(FileError::IsNotThere),
        Err(FolderError::Fault) => Err(FileError::Fault),
        Err(FolderError::TooLong) => Err(FileError::TooLong),
        Err(FolderError::NoMemory) => Err(FileError::NoMemory),
    }
}

/// Reads the file of the configuration.
pub fn read_through<O: Outfit>(file: &str, outfit: &mut O) -> Result<Bytes, FileError>
    requires { IsWhole (O.places outfit.old) }
    ensures whole { IsWhole (O.places outfit.new) }
    ensures read { FileRead (O.places outfit.old) (O.places outfit.new) (O.tells outfit.old) (folder_of file.now) (name_of file.now) result }
    ensures stay_told { StayTold (O.tells outfit.old) (O.tells outfit.new) }
    ensures children { O.children outfit.new ≡ O.children outfit.old }
    ensures child_told { O.tells_child outfit.old → O.tells_child outfit.new }
{
    let folder = folder_of(file);
    let mut dir = match outfit.open_dir(folder) {
        Ok(Some(dir)) => dir,
        Ok(None) => unreachable!(),
        Err(NoMemory) => return Err(FileError::NoMemory),
    };
    let bytes = read_file(&mut dir, name_of(file));
    outfit.give_dir(folder, dir);
    bytes
}
