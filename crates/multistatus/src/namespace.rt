//! The names of namespaces.

ghost use Rattle.std.specs.Prelude.{◌≡◌, [], IfOk};
ghost use Rattle.multistatus.specs.Marks.{mark_of};
ghost use Rattle.multistatus.specs.Namespaces.{xml_space, xmlns_space};

use bumpalo::Bump;
use sha2::{Digest, Sha256};
use std::alloc::AllocError;
use std::cmp::Ordering;
use std::marker::Model;

pub(crate) const XML_SPACE: &str = "http://www.w3.org/XML/1998/namespace";

pub(crate) const XMLNS_SPACE: &str = "http://www.w3.org/2000/xmlns/";

/// The most bytes of a name that is compared as it stands.
const MOST_SHORT: usize = 64;

/// The name of a namespace, which contracts see as its bytes. It stands once for each declaration, and all that is in
/// the namespace points there.
#[derive(Debug, Drop)]
pub struct Namespace<'a> {
    place: &'a Named<'a>,
}

/// A name, and the digest of a long one, by which names that differ late are told apart at once.
#[derive(Debug, Drop)]
pub(crate) struct Named<'a> {
    name: &'a str,
    mark: &'a [u8],
}

static NO_PLACE: Named<'static> = Named {
    name: "",
    mark: &[],
};

static XML_PLACE: Named<'static> = Named {
    name: XML_SPACE,
    mark: &[],
};

static XMLNS_PLACE: Named<'static> = Named {
    name: XMLNS_SPACE,
    mark: &[],
};

impl<'a> Model for Namespace<'a> {
    ghost use Rattle.std.specs.Prelude.{◌≡◌, ℕ, List};
    ghost use Rattle.multistatus.specs.Marks.{mark_of};

    ghost Value = { List ℕ };

    ghost view = { λ n. n.place.now.name.now };

    ghost invariant = { λ n. n.place.now.mark.now ≡ mark_of n.place.now.name.now };
}

impl<'a> Namespace<'a> {
    /// A namespace whose name has a place of its own.
    pub(crate) fn new(arena: &'a Bump, name: &'a str) -> Result<Namespace<'a>, AllocError>
        ensures { IfOk result (λ space. space ≡ name.now) }
    {
        let mark = mark_of(arena, name)?;
        let place = arena.try_alloc(Named { name, mark })?;
        Ok(Namespace { place })
    }

    /// No namespace.
    #[tactic(auto, unfolding(crate::specs::Marks::mark_of))]
    pub(crate) fn none() -> Namespace<'a>
        ensures { result ≡ [] }
    {
        Namespace { place: &NO_PLACE }
    }

    /// The namespace of the prefix `xml`.
    #[tactic(auto, unfolding(crate::specs::Marks::mark_of))]
    pub(crate) fn xml() -> Namespace<'a>
        ensures { result ≡ xml_space }
    {
        Namespace { place: &XML_PLACE }
    }

    /// The namespace of the prefix `xmlns`.
    #[tactic(auto, unfolding(crate::specs::Marks::mark_of))]
    pub(crate) fn xmlns() -> Namespace<'a>
        ensures { result ≡ xmlns_space }
    {
        Namespace {
            place: &XMLNS_PLACE,
        }
    }

    /// The same namespace, at the same place.
    pub fn again(&self) -> Namespace<'a>
        ensures { result ≡ self.now }
    {
        Namespace { place: self.place }
    }

    pub fn as_str(&self) -> &'a str
        ensures { result.now ≡ self.now }
    {
        self.place.name
    }
}

/// The digest of a long name, and nothing for a short one.
#[tactic(auto, unfolding(crate::specs::Marks::mark_of))]
fn mark_of<'a>(arena: &'a Bump, name: &str) -> Result<&'a [u8], AllocError>
    ensures { IfOk result (λ mark. mark.now ≡ mark_of name.now) }
{
    if MOST_SHORT < name.len() {
        let digest = Sha256::digest(name.as_bytes());
        let mark = arena.try_alloc_slice_copy(&digest)?;
        return Ok(mark);
    }
    Ok(&[])
}

impl<'a> PartialEq for Namespace<'a> {
    ghost use Rattle.std.proofs.Common.{rules};
    ghost use Rattle.std.specs.Ordering.{eq_by_cmp};
    ghost use Rattle.std.specs.Cmp.Rules.{comparing};
    ghost use Rattle.multistatus.specs.Marks.{space_cmp};

    ghost eq = { eq_by_cmp space_cmp };

    ghost laws = { Prim.search (comparing, rules) };

    fn eq(&self, other: &Namespace<'a>) -> bool {
        matches!(self.cmp(other), Ordering::Equal)
    }
}

impl<'a> Eq for Namespace<'a> {
    ghost use Rattle.std.proofs.Common.{rules};
    ghost use Rattle.std.specs.Cmp.Rules.{comparing};

    ghost laws = { Prim.search (comparing, rules) };
}

impl<'a> Ord for Namespace<'a> {
    ghost use Rattle.std.proofs.Common.{rules};
    ghost use Rattle.std.specs.Cmp.Rules.{comparing};
    ghost use Rattle.multistatus.specs.Marks.{space_cmp};

    ghost cmp = { space_cmp };

    ghost total = { Prim.search (comparing, rules) };

    ghost matches_partial_cmp = { Prim.search (comparing, rules) };

    ghost matches_eq = { Prim.search (comparing, rules) };

    fn cmp(&self, other: &Namespace<'a>) -> Ordering {
        match self.place.mark.cmp(other.place.mark) {
            Ordering::Equal => self.place.name.cmp(other.place.name),
            Ordering::Less => Ordering::Less,
            Ordering::Greater => Ordering::Greater,
        }
    }
}

impl<'a> PartialOrd for Namespace<'a> {
    ghost use Rattle.std.proofs.Common.{rules};
    ghost use Rattle.std.specs.Ordering.{as_partial_cmp};
    ghost use Rattle.std.specs.Cmp.{partial_order_from_own_ties};
    ghost use Rattle.std.specs.Cmp.Rules.{comparing};
    ghost use Rattle.multistatus.specs.Marks.{space_cmp};

    ghost partial_cmp = { as_partial_cmp space_cmp };

    ghost laws = { Prim.search (comparing, rules) };

    fn partial_cmp(&self, other: &Namespace<'a>) -> Option<Ordering> {
        Some(self.cmp(other))
    }
}
