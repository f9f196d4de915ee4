//! The rows of a multistatus (RFC 4918, section 14).

use crate::gathered::Gathered;
use crate::lists::{Growing, LentList};
use crate::namespace::Namespace;
use crate::props::Props;
use values::Lent;

/// One row: what the server says of one href.
#[derive(Debug, Drop)]
pub struct Response<'a> {
    /// The href as it stands in the reply, without white space around it. It may be a path or a URL, with escapes.
    pub href: Lent<'a>,
    /// The status of the resource itself, where the row has no properties.
    pub code: Option<u16>,
    pub props: Props<'a>,
}

/// A property of a row.
#[derive(Debug, Drop)]
pub struct Prop<'a> {
    /// The namespace, empty where the name is in none.
    pub space: Namespace<'a>,
    pub name: Lent<'a>,
    /// The status that the server gives this property; a code of 404 says that there is none.
    pub code: u16,
    /// Its own character data, joined, as it stands.
    pub text: Lent<'a>,
    /// The namespace and the name of each of its child elements, in order.
    pub children: LentList<'a, (Namespace<'a>, Lent<'a>)>,
    /// The text of each child `href` of `DAV:`, without white space around it.
    pub hrefs: LentList<'a, Lent<'a>>,
}

/// A property whose element is open.
#[derive(Debug, Drop)]
pub(crate) struct Property<'a> {
    pub space: Namespace<'a>,
    pub name: Lent<'a>,
    pub text: Gathered<'a>,
    pub children: Growing<(Namespace<'a>, Lent<'a>)>,
    pub hrefs: Growing<Lent<'a>>,
}
