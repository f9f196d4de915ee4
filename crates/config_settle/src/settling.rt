//! What a storage's parameters and the status path come to.

ghost use Rattle.std.specs.Prelude.{◌≡◌, ◌++◌, true, codes, unwrap_or, IfOk};
ghost use Rattle.std.specs.Option.{option_copied};
ghost use Rattle.config_ini.specs.Answers.{Gives};
ghost use Rattle.config_settle.specs.Texts.{are_texts};
ghost use Rattle.config_settle.specs.Settling as spec;

use crate::links::link_of;
use crate::paths::{path_of, program_of};
use crate::settled::Settled;
use crate::texts::{check_only, ending, plain_at, text_at, text_or_none};
use config_ini::ConfigError;
use config_model::{Param, StorageConf, StorageKind};
use std::alloc::{AllocError, Global};
use values::Text;

/// The name that the program gives itself where the configuration gives none.
const OWN_AGENT: &str = "vdirsyncer";

#[tactic(auto, unfolding(crate::specs::Settling::hooks_of))]
fn hooks_of(
    alloc: Global,
    path: Text,
    ending: Text,
    section: &str,
    home: Option<&str>,
    params: &[Param],
) -> Result<Settled, ConfigError>
    ensures { Gives (spec.hooks_of path ending section.now (option_copied home.entry) params.now) result }
{
    let post = text_at("post_hook", params);
    let hooks_post = program_of(alloc, section, "post_hook", home, post)?;
    let pre = text_at("pre_deletion_hook", params);
    let hooks_pre = program_of(alloc, section, "pre_deletion_hook", home, pre)?;
    Ok(Settled::Vdir {
        path,
        ending,
        hooks_post,
        hooks_pre,
    })
}

#[tactic(auto, unfolding(crate::specs::Settling::vdir_of))]
fn vdir_of(
    alloc: Global,
    section: &str,
    home: Option<&str>,
    params: &[Param],
) -> Result<Settled, ConfigError>
    ensures { Gives (spec.vdir_of section.now (option_copied home.entry) params.now) result }
{
    let text = text_or_none("path", params);
    let path = path_of(alloc, false, section, "path", home, text)?;
    let ends = text_or_none("fileext", params);
    let ending = ending(alloc, section, "fileext", ends)?;
    match check_only(alloc, section, "encoding", "utf-8", params) {
        Ok(()) => hooks_of(alloc, path, ending, section, home, params),
        Err(error) => Err(error),
    }
}

#[tactic(auto, unfolding(crate::specs::Settling::single_of))]
fn single_of(
    alloc: Global,
    collected: bool,
    section: &str,
    home: Option<&str>,
    params: &[Param],
) -> Result<Settled, ConfigError>
    ensures { Gives (spec.single_of collected section.now (option_copied home.entry) params.now) result }
{
    let text = text_or_none("path", params);
    let path = path_of(alloc, collected, section, "path", home, text)?;
    match check_only(alloc, section, "encoding", "utf-8", params) {
        Ok(()) => Ok(Settled::Single { path }),
        Err(error) => Err(error),
    }
}

fn agent_or_own(alloc: Global, agent: Option<Text>) -> Result<Text, AllocError>
    ensures { IfOk result (λ name. name ≡ unwrap_or agent spec.own_agent) }
{
    match agent {
        Some(agent) => Ok(agent),
        None => Text::copy_of(alloc, OWN_AGENT),
    }
}

#[tactic(auto, unfolding(crate::specs::Settling::dav_of))]
fn dav_of(
    alloc: Global,
    kind: StorageKind,
    section: &str,
    params: &[Param],
) -> Result<Settled, ConfigError>
    ensures { Gives (spec.dav_of kind section.now params.now) result }
{
    let link = link_of(alloc, section, text_or_none("url", params))?;
    let username = plain_at(alloc, section, "username", params)?;
    let password = plain_at(alloc, section, "password", params)?;
    let agent = plain_at(alloc, section, "useragent", params)?;
    let agent = agent_or_own(alloc, agent)?;
    match check_only(alloc, section, "auth", "basic", params) {
        Ok(()) => Ok(Settled::Dav {
            kind,
            host: link.host,
            port: link.port,
            path: link.path,
            username,
            password,
            agent,
        }),
        Err(error) => Err(error),
    }
}

fn settled_by(
    alloc: Global,
    kind: StorageKind,
    collected: bool,
    section: &str,
    home: Option<&str>,
    params: &[Param],
) -> Result<Settled, ConfigError>
    ensures { Gives (spec.settled_by kind collected section.now (option_copied home.entry) params.now) result }
{
    match kind {
        StorageKind::Filesystem => vdir_of(alloc, section, home, params),
        StorageKind::Singlefile => single_of(alloc, collected, section, home, params),
        StorageKind::Caldav => dav_of(alloc, kind, section, params),
        StorageKind::Carddav => dav_of(alloc, kind, section, params),
    }
}

fn section_of(alloc: Global, storage: &StorageConf) -> Result<Text, AllocError>
    ensures { IfOk result (λ section. section ≡ codes "storage " ++ storage.now.name) }
{
    let mut section = String::from_str(alloc, "storage ")?;
    section.push_str(storage.name.as_str())?;
    Ok(Text::of(section))
}

/// What a storage comes to, where nothing is left to fetch. With `collected` its path names each
/// collection by `%s`.
#[tactic(auto, unfolding(crate::specs::Settling::settled_of))]
pub fn settle(
    alloc: Global,
    storage: &StorageConf,
    home: Option<&str>,
    collected: bool,
) -> Result<Settled, ConfigError>
    requires { are_texts storage.now.params ≡ true }
    ensures { Gives (spec.settled_of storage.now (option_copied home.entry) collected) result }
{
    let section = section_of(alloc, storage)?;
    settled_by(
        alloc,
        storage.kind,
        collected,
        section.as_str(),
        home,
        storage.params.as_slice(),
    )
}

/// Where the status is kept.
#[tactic(auto, unfolding(crate::specs::Settling::status_of))]
pub fn settle_status(alloc: Global, path: &str, home: Option<&str>) -> Result<Text, ConfigError>
    ensures { Gives (spec.status_of path.now (option_copied home.entry)) result }
{
    path_of(alloc, false, "general", "status_path", home, path)
}
