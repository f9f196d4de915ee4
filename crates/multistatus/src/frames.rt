//! What the elements that are open have given so far, as they begin (RFC 4918, section 14).

ghost use Rattle.multistatus.specs.Reader as spec;
ghost use Rattle.multistatus.specs.Rows.{is_dav};
ghost use Rattle.multistatus.specs.Steps.{Gives};
ghost use Rattle.std.specs.Prelude.{◌≡◌, ◌++◌, [], ◌∷◌, Some, IfOk};

use crate::MultiError;
use crate::gathered::Gathered;
use crate::lists::Growing;
use crate::props::{Kept, Props};
use crate::rows::{Property, Response};
use crate::scopes::Expanded;
use std::alloc::{AllocError, Global};
use values::{Lent, Sequence};

/// What an open element has given so far.
#[derive(Debug, Drop)]
pub(crate) enum Frame<'a> {
    InMultistatus(Sequence<Response<'a>>),
    InResponse(ResponseParts<'a>),
    InPropstat(PropstatParts<'a>),
    InProp(Sequence<Kept<'a>>),
    InProperty(Property<'a>),
    InHref(Gathered<'a>),
    InStatus(Gathered<'a>),
    Ignored,
}

/// The children of a response.
#[derive(Debug, Drop)]
pub(crate) struct ResponseParts<'a> {
    pub hrefs: Sequence<Lent<'a>>,
    pub codes: Sequence<u16>,
    pub has_propstat: bool,
    pub props: Props<'a>,
}

/// The children of a propstat.
#[derive(Debug, Drop)]
pub(crate) struct PropstatParts<'a> {
    pub codes: Sequence<u16>,
    pub lists: Sequence<Sequence<Kept<'a>>>,
}

/// Whether a name is this one of `DAV:`.
pub(crate) fn is_dav(name: &Expanded<'_>, local: &str) -> bool
    ensures { result ≡ is_dav local.now name.now }
{
    name.local.as_str() == local && name.space.as_str() == "DAV:"
}

/// The parent and the child where an element of the name begins.
pub(crate) fn begun<'a>(
    alloc: Global,
    parent: Frame<'a>,
    name: Expanded<'a>,
) -> Result<(Frame<'a>, Frame<'a>), MultiError>
    ensures { Gives (λ both. both) result (Some (spec.noted parent.entry name.entry, spec.begun parent.entry name.entry)) }
{
    match parent {
        Frame::InMultistatus(rows) => {
            let child = begun_in_multistatus(alloc, &name);
            Ok((Frame::InMultistatus(rows), child))
        }
        Frame::InResponse(parts) => {
            let child = begun_in_response(alloc, &name);
            Ok((Frame::InResponse(parts), child))
        }
        Frame::InPropstat(parts) => {
            let child = begun_in_propstat(alloc, &name);
            Ok((Frame::InPropstat(parts), child))
        }
        Frame::InProp(properties) => {
            let child = new_property(alloc, name);
            Ok((Frame::InProp(properties), child))
        }
        Frame::InProperty(property) => {
            let child = begun_in_property(alloc, &name);
            let property = noted(property, name)?;
            Ok((Frame::InProperty(property), child))
        }
        Frame::InHref(text) => Ok((Frame::InHref(text), Frame::Ignored)),
        Frame::InStatus(text) => Ok((Frame::InStatus(text), Frame::Ignored)),
        Frame::Ignored => Ok((Frame::Ignored, Frame::Ignored)),
    }
}

fn begun_in_multistatus<'a>(alloc: Global, name: &Expanded<'a>) -> Frame<'a>
    ensures { result ≡ spec.begun_in_multistatus name.now }
{
    if !is_dav(name, "response") {
        return Frame::Ignored;
    }
    Frame::InResponse(ResponseParts {
        hrefs: Sequence::new(alloc),
        codes: Sequence::new(alloc),
        has_propstat: false,
        props: Props::new(alloc),
    })
}

fn begun_in_response<'a>(alloc: Global, name: &Expanded<'a>) -> Frame<'a>
    ensures { result ≡ spec.begun_in_response name.now }
{
    if is_dav(name, "href") {
        return Frame::InHref(Gathered::new(alloc));
    }
    if is_dav(name, "status") {
        return Frame::InStatus(Gathered::new(alloc));
    }
    if !is_dav(name, "propstat") {
        return Frame::Ignored;
    }
    Frame::InPropstat(PropstatParts {
        codes: Sequence::new(alloc),
        lists: Sequence::new(alloc),
    })
}

fn begun_in_propstat<'a>(alloc: Global, name: &Expanded<'a>) -> Frame<'a>
    ensures { result ≡ spec.begun_in_propstat name.now }
{
    if is_dav(name, "prop") {
        return Frame::InProp(Sequence::new(alloc));
    }
    if is_dav(name, "status") {
        return Frame::InStatus(Gathered::new(alloc));
    }
    Frame::Ignored
}

fn begun_in_property<'a>(alloc: Global, name: &Expanded<'a>) -> Frame<'a>
    ensures { result ≡ spec.begun_in_property name.now }
{
    if is_dav(name, "href") {
        return Frame::InHref(Gathered::new(alloc));
    }
    Frame::Ignored
}

fn new_property<'a>(alloc: Global, name: Expanded<'a>) -> Frame<'a>
    ensures { result ≡ spec.new_property name.entry }
{
    let Expanded { space, local } = name;
    Frame::InProperty(Property {
        space,
        name: local,
        text: Gathered::new(alloc),
        children: Growing::new(alloc),
        hrefs: Growing::new(alloc),
    })
}

/// The property with one more child.
fn noted<'a>(property: Property<'a>, name: Expanded<'a>) -> Result<Property<'a>, AllocError>
    ensures { IfOk result (λ more. more ≡ record property.entry { children = property.entry.children ++ (name.entry.space, name.entry.local) ∷ [] }) }
{
    let mut property = property;
    property.children.push((name.space, name.local))?;
    Ok(property)
}

/// The frame with more character data.
pub(crate) fn with_text<'a>(frame: Frame<'a>, more: Lent<'a>) -> Result<Frame<'a>, MultiError>
    ensures { Gives (λ f. f) result (Some (spec.with_text frame.entry more.entry)) }
{
    match frame {
        Frame::InProperty(property) => {
            let property = property_with_text(property, more)?;
            Ok(Frame::InProperty(property))
        }
        Frame::InHref(text) => {
            let text = text.with(more)?;
            Ok(Frame::InHref(text))
        }
        Frame::InStatus(text) => {
            let text = text.with(more)?;
            Ok(Frame::InStatus(text))
        }
        frame => Ok(frame),
    }
}

fn property_with_text<'a>(
    property: Property<'a>,
    more: Lent<'a>,
) -> Result<Property<'a>, AllocError>
    ensures { IfOk result (λ longer. longer ≡ record property.entry { text = property.entry.text ++ more.entry }) }
{
    let Property {
        space,
        name,
        text,
        children,
        hrefs,
    } = property;
    let text = text.with(more)?;
    Ok(Property {
        space,
        name,
        text,
        children,
        hrefs,
    })
}
