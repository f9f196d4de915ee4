//! The kinds of storages.

/// The kind of a storage.
#[derive(Clone, Copy, Debug, PartialEq, Eq)]
pub enum StorageKind {
    /// A folder of one file per item.
    Filesystem,
    /// One file of many items.
    Singlefile,
    /// A calendar over CalDAV (RFC 4791).
    Caldav,
    /// An address book over CardDAV (RFC 6352).
    Carddav,
}
