//! The keys of each section.

ghost use Rattle.std.specs.Prelude.{◌≡◌, ◌≢◌, Some, None};
ghost use Rattle.config_model.specs.Fields as spec;

use crate::storage_kind::StorageKind;
use config_ini::Key;

/// A section by the keys that it may have.
#[derive(Clone, Copy)]
pub(crate) enum Place {
    General,
    Pair,
    Storage(StorageKind),
}

/// A key that some section may have.
#[derive(Clone, Copy)]
pub(crate) enum Field {
    StatusPath,
    A,
    B,
    Collections,
    ConflictResolution,
    PartialSync,
    Metadata,
    Type,
    ReadOnly,
    Path,
    Fileext,
    Encoding,
    PostHook,
    PreDeletionHook,
    Url,
    Username,
    Password,
    Useragent,
    Auth,
}

fn general_field(name: &str) -> Option<Field>
    ensures { result ≡ spec.general_field name.now }
{
    if name == "status_path" {
        Some(Field::StatusPath)
    } else {
        None
    }
}

fn pair_field(name: &str) -> Option<Field>
    ensures { result ≡ spec.pair_field name.now }
{
    if name == "a" {
        return Some(Field::A);
    }
    if name == "b" {
        return Some(Field::B);
    }
    if name == "collections" {
        return Some(Field::Collections);
    }
    if name == "conflict_resolution" {
        return Some(Field::ConflictResolution);
    }
    if name == "partial_sync" {
        return Some(Field::PartialSync);
    }
    if name == "metadata" {
        return Some(Field::Metadata);
    }
    None
}

fn single_field(name: &str) -> Option<Field>
    ensures { result ≡ spec.single_field name.now }
{
    if name == "path" {
        return Some(Field::Path);
    }
    if name == "encoding" {
        return Some(Field::Encoding);
    }
    None
}

fn vdir_field(name: &str) -> Option<Field>
    ensures { result ≡ spec.vdir_field name.now }
{
    if name == "path" {
        return Some(Field::Path);
    }
    if name == "fileext" {
        return Some(Field::Fileext);
    }
    if name == "encoding" {
        return Some(Field::Encoding);
    }
    if name == "post_hook" {
        return Some(Field::PostHook);
    }
    if name == "pre_deletion_hook" {
        return Some(Field::PreDeletionHook);
    }
    None
}

fn dav_field(name: &str) -> Option<Field>
    ensures { result ≡ spec.dav_field name.now }
{
    if name == "url" {
        return Some(Field::Url);
    }
    if name == "username" {
        return Some(Field::Username);
    }
    if name == "password" {
        return Some(Field::Password);
    }
    if name == "useragent" {
        return Some(Field::Useragent);
    }
    if name == "auth" {
        return Some(Field::Auth);
    }
    None
}

fn own_field(kind: StorageKind, name: &str) -> Option<Field>
    ensures { result ≡ spec.own_field kind name.now }
{
    match kind {
        StorageKind::Filesystem => vdir_field(name),
        StorageKind::Singlefile => single_field(name),
        StorageKind::Caldav => dav_field(name),
        StorageKind::Carddav => dav_field(name),
    }
}

fn storage_field(kind: StorageKind, name: &str) -> Option<Field>
    ensures { result ≡ spec.storage_field kind name.now }
{
    if name == "type" {
        return Some(Field::Type);
    }
    if name == "read_only" {
        return Some(Field::ReadOnly);
    }
    own_field(kind, name)
}

fn field_in(place: Place, name: &str) -> Option<Field>
    ensures { result ≡ spec.field_in place name.now }
{
    match place {
        Place::General => general_field(name),
        Place::Pair => pair_field(name),
        Place::Storage(kind) => storage_field(kind, name),
    }
}

fn may_be_fetched(field: Field) -> bool
    ensures { result ≡ spec.may_be_fetched field }
{
    match field {
        Field::Path => true,
        Field::Fileext => true,
        Field::Encoding => true,
        Field::PostHook => true,
        Field::PreDeletionHook => true,
        Field::Url => true,
        Field::Username => true,
        Field::Password => true,
        Field::Useragent => true,
        Field::Auth => true,
        Field::StatusPath => false,
        Field::A => false,
        Field::B => false,
        Field::Collections => false,
        Field::ConflictResolution => false,
        Field::PartialSync => false,
        Field::Metadata => false,
        Field::Type => false,
        Field::ReadOnly => false,
    }
}

/// What a key means in a section, if the section may have it.
#[tactic(auto, unfolding(crate::specs::Fields::field_of))]
pub(crate) fn field_of(place: Place, key: &Key) -> Option<Field>
    ensures { result ≡ spec.field_of place key.now }
{
    match field_in(place, key.name.as_str()) {
        None => None,
        Some(field) => {
            if key.is_fetched && !may_be_fetched(field) {
                None
            } else {
                Some(field)
            }
        }
    }
}
