//! What a folder's own writes are to its status.

ghost use Rattle.std.specs.Prelude.{◌≡◌, ◌++◌, ◌∷◌, [], ℕ, List, Option, Some, false};
ghost use Rattle.std.specs.Str.{bytes_eq};
ghost use Rattle.outside.specs.Files.{FolderState};
ghost use Rattle.outside.specs.FolderCalls.{wrote};
ghost use Rattle.status_keeper.specs.Kept.{KeeperEvent, IsEdit, happens};
ghost use Rattle.status_keeper.specs.FileStatus.{status_file, state_of};

/// No own write of the status file is an edit from outside, and one of another file shows beside the status.
pub fn own_writes_are_seen()
    ensures no_edit { (s : FolderState) (text : List ℕ) (e : KeeperEvent) → state_of (wrote s status_file (Some text)) ≡ happens (state_of s) e → IsEdit e → ⊥ }
    ensures beside { (s : FolderState) (name : List ℕ) (new : Option (List ℕ)) → bytes_eq name status_file ≡ false →
        (state_of (wrote s name new)).beside ≡ (state_of s).beside ++ name ∷ [] }
{}
