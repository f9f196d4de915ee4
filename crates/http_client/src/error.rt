//! Why bytes have no reply at their front.

use crate::quoted::Quoted;
use std::error::Error;
use std::fmt;
use values::Text;

/// Why bytes have no reply at their front. It displays as it is printed of a storage.
#[derive(Debug, Drop)]
pub enum ReplyError {
    /// The bytes end before the reply does.
    Short,
    /// No bytes that follow make these a reply.
    Bad,
    /// The reply is whole, under a content coding other than `identity`: its name.
    Coded(Text),
    NoMemory,
}

impl fmt::Display for ReplyError {
    ghost use Rattle.http_client.specs.Texts.{error_text};

    ghost output = { error_text };

    fn fmt<W: fmt::Write>(&self, f: &mut fmt::Formatter<W>) -> fmt::Result {
        match self {
            ReplyError::Short => f.write_str("reply is cut"),
            ReplyError::Bad => f.write_str("bad reply"),
            ReplyError::Coded(coding) => {
                let coding = Quoted(coding.as_str());
                write!(f, "reply is encoded as {coding}")
            }
            ReplyError::NoMemory => f.write_str("out of memory"),
        }
    }
}

impl Error for ReplyError {}
