//! The properties of a row, as they are kept: by propstat, what is empty in no memory of its own.

ghost use Rattle.std.specs.Prelude.{◌≡◌, ◌++◌, [], map, IfOk, OnOk};
ghost use Rattle.std.specs.Iterator.{YieldsFirst};
ghost use Rattle.multistatus.specs.Props.{with_code, props_of, left_of};

use crate::lists::LentList;
use crate::namespace::Namespace;
use crate::rows::{Prop, Property};
use bumpalo::Bump;
use std::alloc::{AllocError, Global};
use std::marker::Model;
use values::{Lent, Sequence};

/// What a property holds.
#[derive(Debug, Drop)]
pub(crate) struct Inside<'a> {
    pub text: &'a str,
    pub children: &'a [(Namespace<'a>, Lent<'a>)],
    pub hrefs: &'a [Lent<'a>],
}

/// What a property holds, by how much memory it takes beside the property.
#[derive(Debug, Drop)]
pub(crate) enum Holds<'a> {
    Nothing,
    Text(&'a &'a str),
    All(&'a Inside<'a>),
}

/// A property whose element has ended.
#[derive(Debug, Drop)]
pub(crate) struct Kept<'a> {
    space: Namespace<'a>,
    name: Lent<'a>,
    holds: Holds<'a>,
}

impl<'a> Model for Kept<'a> {
    ghost use Rattle.multistatus.specs.declared.rows.Property.{Property};
    ghost use Rattle.multistatus.specs.Kept.{kept};

    ghost Value = { Property };

    ghost view = { λ k. kept k.space k.name k.holds };
}

impl<'a> Kept<'a> {
    /// Keeps a property.
    pub(crate) fn of(arena: &'a Bump, property: Property<'a>) -> Result<Kept<'a>, AllocError>
        ensures { IfOk result (λ kept. kept ≡ property.entry) }
    {
        let Property {
            space,
            name,
            text,
            children,
            hrefs,
        } = property;
        let whole = text.text(arena)?;
        if !children.is_empty() || !hrefs.is_empty() {
            let inside = arena.try_alloc(Inside {
                text: whole,
                children: children.moved(arena)?,
                hrefs: hrefs.moved(arena)?,
            })?;
            return Ok(Kept {
                space,
                name,
                holds: Holds::All(inside),
            });
        }
        if whole.is_empty() {
            return Ok(Kept {
                space,
                name,
                holds: Holds::Nothing,
            });
        }
        let place = arena.try_alloc(whole)?;
        Ok(Kept {
            space,
            name,
            holds: Holds::Text(place),
        })
    }
}

impl<'a> Kept<'a> {
    /// The property with the code of its propstat.
    fn with_code(&self, code: u16) -> Prop<'a>
        ensures { result ≡ with_code code self.now }
    {
        let space = self.space.again();
        let name = Lent::of(self.name.as_str());
        match self.holds {
            Holds::Nothing => Prop {
                space,
                name,
                code,
                text: Lent::of(""),
                children: LentList::of(&[]),
                hrefs: LentList::of(&[]),
            },
            Holds::Text(text) => Prop {
                space,
                name,
                code,
                text: Lent::of(*text),
                children: LentList::of(&[]),
                hrefs: LentList::of(&[]),
            },
            Holds::All(inside) => Prop {
                space,
                name,
                code,
                text: Lent::of(inside.text),
                children: LentList::of(inside.children),
                hrefs: LentList::of(inside.hrefs),
            },
        }
    }
}

/// The properties of a propstat and their code.
#[derive(Debug, Drop)]
pub(crate) struct Propstat<'a> {
    pub code: u16,
    pub listed: Sequence<Kept<'a>>,
}

/// The properties of a row, which contracts see as their list. They stand as they are listed in the reply, and each is put
/// together as it is asked for.
#[derive(Debug, Drop)]
pub struct Props<'a> {
    propstats: Sequence<Propstat<'a>>,
}

impl<'a> Model for Props<'a> {
    ghost use Rattle.std.specs.Prelude.{List};
    ghost use Rattle.multistatus.specs.declared.rows.Prop.{Prop};
    ghost use Rattle.multistatus.specs.Props.{props_of};

    ghost Value = { List Prop };

    ghost view = { λ p. props_of p.propstats };
}

impl<'a> Props<'a> {
    pub(crate) fn new(alloc: Global) -> Props<'a>
        ensures { result ≡ [] }
    {
        Props {
            propstats: Sequence::new(alloc),
        }
    }

    /// Puts the properties of a propstat behind these.
    #[tactic(auto, using(crate::proofs::Propstats::props_more))]
    pub(crate) fn push(&mut self, propstat: Propstat<'a>) -> Result<(), AllocError>
        ensures { OnOk result (self.new ≡ self.old ++ map (with_code propstat.entry.code) propstat.entry.listed) }
    {
        self.propstats.push(propstat)
    }
    /// The properties in order.
    pub fn iter<'r>(&'r self) -> PropsLeft<'r, 'a>
        ensures { result ≡ self.now }
    {
        all_left(self.propstats.as_slice())
    }
}

/// All properties of propstats.
fn all_left<'r, 'a>(propstats: &'r [Propstat<'a>]) -> PropsLeft<'r, 'a>
    ensures { result ≡ props_of propstats.now }
{
    PropsLeft {
        code: 0,
        listed: &[],
        propstats,
    }
}

/// The properties that are left to be handed out.
#[derive(Drop)]
pub struct PropsLeft<'r, 'a> {
    code: u16,
    listed: &'r [Kept<'a>],
    propstats: &'r [Propstat<'a>],
}

impl<'r, 'a> Model for PropsLeft<'r, 'a> {
    ghost use Rattle.std.specs.Prelude.{List};
    ghost use Rattle.multistatus.specs.declared.rows.Prop.{Prop};
    ghost use Rattle.multistatus.specs.Props.{left_of};

    ghost Value = { List Prop };

    ghost view = { λ p. left_of p.code p.listed.now p.propstats.now };
}

impl<'r, 'a> Iterator for PropsLeft<'r, 'a> {
    ghost use Rattle.std.specs.Iterator.{YieldsFirst, item_count};

    type Item = Prop<'a>;

    ghost next_gives = { YieldsFirst (λ left. left) };

    ghost remaining = { item_count (λ left. left) };

    fn next(&mut self) -> Option<Prop<'a>> {
        let (found, left) = first_left(self.code, self.listed, self.propstats);
        *self = left;
        found
    }
}

/// The first of the properties that are left, and those behind it.
fn first_left<'r, 'a>(
    code: u16,
    listed: &'r [Kept<'a>],
    propstats: &'r [Propstat<'a>],
) -> (Option<Prop<'a>>, PropsLeft<'r, 'a>)
    ensures { YieldsFirst (λ left. left) (left_of code listed.now propstats.now) result.0 result.1 }
{
    let mut code = code;
    let mut listed = listed;
    let mut propstats = propstats;
    'propstats: loop {
        match listed {
            [first, more @ ..] => {
                let prop = first.with_code(code);
                let left = PropsLeft {
                    code,
                    listed: more,
                    propstats,
                };
                return (Some(prop), left);
            }
            [] => match propstats {
                [] => {
                    let left = PropsLeft {
                        code,
                        listed,
                        propstats,
                    };
                    return (None, left);
                }
                [next, more @ ..] => {
                    code = next.code;
                    listed = next.listed.as_slice();
                    propstats = more;
                }
            },
        }
    }
}
