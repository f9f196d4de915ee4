//! A storage, ready to be opened.

use config_model::StorageKind;
use values::Text;

/// A storage with its texts looked at.
#[derive(Debug, Drop)]
pub enum Settled {
    /// A folder of one file per item.
    Vdir {
        /// Normalised.
        path: Text,
        /// How the names of its files end.
        ending: Text,
        hooks_post: Option<Text>,
        hooks_pre: Option<Text>,
    },
    /// One file.
    Single {
        path: Text,
    },
    /// A calendar or an address book of a server.
    Dav {
        kind: StorageKind,
        host: Text,
        port: u16,
        /// With a final slash, each segment escaped in one way.
        path: Text,
        username: Option<Text>,
        password: Option<Text>,
        agent: Text,
    },
}
