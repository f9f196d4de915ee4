//! The URL of a storage.

ghost use Rattle.std.specs.Prelude.{◌≡◌, ◌≢◌, IfOk};
ghost use Rattle.std.specs.Result.{IsErrAnd};
ghost use Rattle.config_ini.specs.declared.error.ConfigError.TheVariants.{NoMemory, BadUrl};
ghost use Rattle.url.specs.Parser.{IsOutOfRoom, parse_url};
ghost use Rattle.config_ini.specs.Answers.{Gives};
ghost use Rattle.config_settle.specs.Links as spec;

use crate::texts::bad_text;
use config_ini::ConfigError;
use config_model::has_control;
use std::alloc::{AllocError, Global};
use url::{ParseError, Url};
use url_paths::folder_path;
use values::Text;

/// The port of a URL that names none.
const HTTP_PORT: u16 = 80;

/// Where a server is, and a path there.
#[derive(Drop)]
pub(crate) struct Link {
    pub host: Text,
    pub port: u16,
    pub path: Text,
}

/// Neither user, password, query nor fragment.
fn is_bare(url: &Url) -> bool
    ensures { result ≡ spec.is_bare url.now }
{
    url.username().is_empty()
        && (url.password().is_none() && (url.query().is_none() && url.fragment().is_none()))
}

fn port_of(url: &Url) -> u16
    ensures { result ≡ spec.port_of url.now }
{
    match url.port() {
        Some(port) => port,
        None => HTTP_PORT,
    }
}

fn host_of(url: &Url) -> &str
    ensures { result.now ≡ spec.host_of url.now }
{
    match url.host_str() {
        Some(host) => host,
        None => "",
    }
}

fn link_to(alloc: Global, url: &Url) -> Result<Link, AllocError>
    ensures { IfOk result (λ link. link ≡ spec.link_to url.now) }
{
    let host = Text::copy_of(alloc, host_of(url))?;
    let path = folder_path(alloc, url.path())?;
    Ok(Link {
        host,
        port: port_of(url),
        path,
    })
}

fn link_by(alloc: Global, section: &str, url: &Url) -> Result<Link, ConfigError>
    ensures { Gives (spec.link_by section.now url.now) result }
{
    if url.scheme() == "https" {
        let section = Text::copy_of(alloc, section)?;
        return Err(ConfigError::NeedsTls { section });
    }
    if url.scheme() == "http" && is_bare(url) {
        return Ok(link_to(alloc, url)?);
    }
    let section = Text::copy_of(alloc, section)?;
    Err(ConfigError::BadUrl { section })
}

fn unparsed(alloc: Global, section: &str, error: ParseError) -> Result<Link, ConfigError>
    ensures { IsErrAnd result (λ e. e ≢ NoMemory → (e ≡ BadUrl section.now) × (IsOutOfRoom error → ⊥)) }
{
    match error {
        ParseError::OutOfMemory => Err(ConfigError::NoMemory),
        ParseError::Overflow => Err(ConfigError::NoMemory),
        _ => {
            let section = Text::copy_of(alloc, section)?;
            Err(ConfigError::BadUrl { section })
        }
    }
}

/// Where the URL of a storage leads.
#[tactic(auto, unfolding(crate::specs::Links::link_of))]
pub(crate) fn link_of(alloc: Global, section: &str, text: &str) -> Result<Link, ConfigError>
    ensures { Gives (spec.link_of section.now text.now) result }
{
    if has_control(text) {
        return Err(bad_text(alloc, section, "url")?);
    }
    match Url::parse(alloc, text) {
        Ok(url) => link_by(alloc, section, &url),
        Err(error) => unparsed(alloc, section, error),
    }
}
