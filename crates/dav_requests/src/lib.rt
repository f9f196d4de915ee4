//! What is sent to a CalDAV or CardDAV server, and the paths that it answers.
#![tactic(auto)]

mod bodies;
mod laws;
mod makers;
mod paths;
mod site;
#[cfg(test)]
mod tests;

pub use laws::escaped_texts_are_read_back;
pub use makers::{
    delete_request, list_request, meta_request, mkcol_request, multiget_request, prop_request,
    put_request,
};
pub use paths::path_of;
pub use site::{DavKind, DavSite};
