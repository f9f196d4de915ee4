//! What a test sees of a folder in memory.

ghost use Rattle.std.specs.Prelude.{◌≡◌};
ghost use Rattle.outside.specs.FileMap.{files_of};
ghost use Rattle.outside.specs.Shelf.{state_of};

use crate::file_map::FileMap;
use crate::folder::{Folder, FolderEvent};
use crate::mem_folder::MemFolder;
use values::Text;

impl MemFolder {
    /// Whether the folder is there.
    pub fn is_there(&self) -> bool
        ensures { result ≡ (⟦<MemFolder as Folder>⟧.state self.now).is_there }
    {
        self.shelf.is_there()
    }

    /// The bytes of each file, by its name.
    pub fn files(&self) -> &FileMap
        ensures { files_of result.now ≡ (⟦<MemFolder as Folder>⟧.state self.now).files }
    {
        self.shelf.files()
    }

    /// The names of the subfolders, in byte order.
    pub fn subfolders(&self) -> &[Text]
        ensures { result.now ≡ (⟦<MemFolder as Folder>⟧.state self.now).folders }
    {
        self.shelf.subfolders()
    }

    /// All that has happened to the folder, the first of it first.
    pub fn trail(&self) -> &[FolderEvent]
        ensures { result.now ≡ (⟦<MemFolder as Folder>⟧.state self.now).trail }
    {
        self.shelf.trail()
    }
}
