//! HTTP/1.1 as a client speaks it: the bytes of a request, and what the bytes of a reply are.
#![tactic(auto)]

mod body;
mod chunks;
mod error;
mod fields;
mod frames;
mod head;
mod quoted;
mod reply;
mod request;

pub use body::Body;
pub use error::ReplyError;
pub use fields::{Header, ValuesOf};
pub use head::Version;
pub use reply::{Reply, bad_stays_bad, read_reply, reply_is_unique};
pub use request::{Method, Request};

#[cfg(test)]
mod tests;
