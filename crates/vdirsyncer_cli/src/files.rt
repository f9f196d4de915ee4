//! The folder and the name of a file.

ghost use Rattle.std.specs.Prelude.{◌≡◌, true, false, IfSome, IfNone};
ghost use Rattle.std.specs.List.{list_any, before_last, after_last};
ghost use Rattle.vdirsyncer_cli.specs.Files.{is_slash, folder_of, name_of};

/// The part of a path before its last `/` and the part behind it, if it has one.
fn cut_path(file: &str) -> Option<(&str, &str)>
    ensures some { IfSome result (λ parts. (list_any is_slash file.now ≡ true)
        × (parts.0.now ≡ before_last is_slash file.now) × (parts.1.now ≡ after_last is_slash file.now)) }
    ensures none { IfNone result ((list_any is_slash file.now ≡ false) × (after_last is_slash file.now ≡ file.now)) }
{
    match file.rsplit_once('/') {
        Some((folder, name)) => Some((folder, name)),
        None => None,
    }
}

/// The folder of a file's path.
#[tactic(auto, unfolding(crate::specs::Files::folder_of))]
pub fn folder_of(file: &str) -> &str
    ensures { result.now ≡ folder_of file.now }
{
    match cut_path(file) {
        Some((folder, _)) => if folder.is_empty() { "/" } else { folder },
        None => ".",
    }
}

/// The name of a file in its folder.
#[tactic(auto, unfolding(crate::specs::Files::name_of))]
pub fn name_of(file: &str) -> &str
    ensures { result.now ≡ name_of file.now }
{
    match cut_path(file) {
        Some((_, name)) => name,
        None => file,
    }
}
