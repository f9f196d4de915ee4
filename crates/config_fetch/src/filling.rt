//! Fetches the texts of a configuration by a child of an outfit.

ghost use Rattle.std.specs.Prelude.{◌≡◌};
ghost use Rattle.std.specs.Option.{option_copied};
ghost use Rattle.outfits.specs.Places.{IsSame, StayTold};
ghost use Rattle.outfits.specs.Children.{child_by};
ghost use Rattle.config_fetch.specs.Fetches.{FetchedBy};
ghost use Rattle.config_fetch.specs.Filling.{FetchedIn, FetchedOrNot, FillsOrStarves, IsStill, world};

use crate::storages::fetch_texts;
use cli_jobs::{Refusal, check_unfetched, has_fetches};
use cli_words::Name;
use config_model::Config;
use outfits::Outfit;
use outside::{NoMemory, Sink, Source};
use std::alloc::Global;

/// Fetches the texts of a configuration by a child of the outfit, which is given back.
fn fetch_in<O: Outfit, I: Source, E: Sink>(
    alloc: Global,
    names: &[Name],
    config: Config,
    outfit: &mut O,
    input: &mut I,
    err: &mut E,
) -> Result<Config, Refusal>
    ensures fetched { FetchedOrNot (IsStill O.children) (FetchedIn O.children O.tells_child (child_by O.Child.count O.Child.state) O.Child.tells (FetchedBy O.Child.count O.Child.tells O.Child.state I.count I.tells I.left E.count E.tells E.held) names.now) (world outfit.old input.old err.old) (world outfit.new input.new err.new) config result }
    ensures same { IsSame (O.places outfit.old) (O.places outfit.new) }
    ensures stay_told { StayTold (O.tells outfit.old) (O.tells outfit.new) }
    ensures child_told { O.tells_child outfit.old → O.tells_child outfit.new }
    ensures all_back { (O.children outfit.new).out ≡ (O.children outfit.old).out }
{
    let mut child = match outfit.open_child() {
        Ok(child) => child,
        Err(NoMemory) => return Err(Refusal::NoMemory),
    };
    let filled = fetch_texts(alloc, names, config, &mut child, input, err);
    outfit.give_child(child);
    filled
}

/// The configuration with all its texts: those of the storages that the chosen pairs are of are fetched, by one child of
/// the outfit, which is handed out only where there are texts to fetch, and is given back. What can be refused before is
/// refused before any is fetched.
pub fn fill_texts<O: Outfit, I: Source, E: Sink>(
    alloc: Global,
    names: &[Name],
    home: Option<&str>,
    config: Config,
    outfit: &mut O,
    input: &mut I,
    err: &mut E,
) -> Result<Config, Refusal>
    ensures fills { FillsOrStarves O.children O.tells_child (child_by O.Child.count O.Child.state) O.Child.tells (FetchedBy O.Child.count O.Child.tells O.Child.state I.count I.tells I.left E.count E.tells E.held) names.now (option_copied home.entry) (world outfit.old input.old err.old) (world outfit.new input.new err.new) config result }
    ensures same { IsSame (O.places outfit.old) (O.places outfit.new) }
    ensures stay_told { StayTold (O.tells outfit.old) (O.tells outfit.new) }
    ensures child_told { O.tells_child outfit.old → O.tells_child outfit.new }
    ensures all_back { (O.children outfit.new).out ≡ (O.children outfit.old).out }
{
    if !has_fetches(names, &config) {
        return Ok(config);
    }
    match check_unfetched(alloc, names, home, &config) {
        Ok(()) => fetch_in(alloc, names, config, outfit, input, err),
        Err(refusal) => Err(refusal),
    }
}
