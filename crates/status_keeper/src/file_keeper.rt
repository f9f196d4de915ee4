//! The keeper over a folder.

ghost use Rattle.std.specs.Prelude.{◌≡◌, ℕ, false};

use crate::calls::{commit_rows, load_rows};
use crate::keeper::{Keeper, KeeperError};
use crate::row::Row;
use outside::Folder;
use std::alloc::Global;
use values::Text;

/// Keeps the rows of a job in the file `items` of a folder.
#[derive(Drop)]
pub struct FileKeeper<F> {
    alloc: Global,
    folder: F,
    // The etag of the file as it was loaded or last committed; None where there was none.
    found: Option<Text>,
    loaded: bool,
}

impl<F: Folder> FileKeeper<F> {
    ghost use Rattle.status_keeper.specs.FileStatus.{state_of};

    /// A keeper over a folder. It reads nothing before `load`, and makes the folder at the first commit where no file was found.
    pub fn new(alloc: Global, folder: F) -> FileKeeper<F>
        ensures tells { F.tells folder → ⟦<FileKeeper<F> as Keeper>⟧.tells result }
        ensures state { ⟦<FileKeeper<F> as Keeper>⟧.state result ≡ state_of (F.state folder) }
        ensures count { ⟦<FileKeeper<F> as Keeper>⟧.count result ≡ F.count folder }
        ensures loaded { ⟦<FileKeeper<F> as Keeper>⟧.is_loaded result ≡ false }
    {
        FileKeeper {
            alloc,
            folder,
            found: None,
            loaded: false,
        }
    }

    /// The folder, as the keeper leaves it.
    pub fn into_folder(self) -> F
        ensures tells { ⟦<FileKeeper<F> as Keeper>⟧.tells self → F.tells result }
        ensures state { state_of (F.state result) ≡ ⟦<FileKeeper<F> as Keeper>⟧.state self }
        ensures count { F.count result ≡ ⟦<FileKeeper<F> as Keeper>⟧.count self }
    {
        let FileKeeper {
            alloc: _,
            folder,
            found: _,
            loaded: _,
        } = self;
        folder
    }
}

impl<F: Folder> Keeper for FileKeeper<F> {
    ghost use Rattle.std.specs.Prelude.{None};
    ghost use Rattle.outside.specs.Files.{Evolves, IsReadOf};
    ghost use Rattle.status_keeper.specs.FileStatus.{status_file, state_of, CommitsTo};

    ghost count = { λ k. F.count k.folder };

    ghost course = { λ _. None };

    ghost tells = { λ k. F.tells k.folder };

    ghost state = { λ k. state_of (F.state k.folder) };

    ghost is_loaded = { λ k. k.loaded };

    ghost found = { λ k. k.found };

    ghost loads = { λ old new result. F.tells old.folder → Evolves (IsReadOf status_file) (F.state old.folder) (F.state new.folder) };

    ghost commits = { λ old new rows result. CommitsTo (F.tells old.folder) (F.state old.folder) (F.state new.folder) old.found rows result };

    fn faults(&self) -> u64 {
        self.folder.faults()
    }

    fn load(&mut self) -> Result<Vec<Row>, KeeperError> {
        match load_rows(&mut self.folder, &mut self.found, self.alloc) {
            Ok(rows) => {
                self.loaded = true;
                Ok(rows)
            }
            Err(error) => Err(error),
        }
    }

    fn commit(&mut self, rows: &[Row]) -> Result<(), KeeperError> {
        commit_rows(&mut self.folder, &mut self.found, self.alloc, rows)
    }
}
