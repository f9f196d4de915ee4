//! The usage text.

ghost use Rattle.std.specs.Prelude.{◌≡◌};
ghost use Rattle.cli_words.specs.Usage.{usage};

const USAGE: &str =
    "usage: vdirsyncer [-c FILE] [-v LEVEL] COMMAND\n  sync [--force-delete] [--max-workers N] [PAIR[/COLLECTION]]...\n  metasync [PAIR[/COLLECTION]]...\n  discover [--no-list] [PAIR]...\n  repair [--repair-unsafe-uid] STORAGE[/COLLECTION]\n";

/// The usage text, five lines.
pub fn usage() -> &'static str
    ensures { result.now ≡ usage }
{
    USAGE
}
