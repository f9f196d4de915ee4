//! The bodies of requests, in XML.

ghost use Rattle.std.specs.Prelude.{◌≡◌, ◌++◌, IfOk, OnOk};
ghost use Rattle.std.specs.List.{flat_map};
ghost use Rattle.std.specs.Option.{option_copied};
ghost use Rattle.dav_requests.specs.Bodies as spec;

use crate::site::DavKind;
use std::alloc::{AllocError, Global};
use values::{Bytes, Text};

fn put(out: &mut Vec<u8>, text: &str) -> Result<(), AllocError>
    ensures { OnOk result (out.new.items ≡ out.old.items ++ text.now) }
{
    out.extend_from_slice(text.as_bytes())
}

/// Writes a byte of a text, as XML's character data has it.
fn put_byte(out: &mut Vec<u8>, byte: u8) -> Result<(), AllocError>
    ensures { OnOk result (out.new.items ≡ out.old.items ++ spec.escaped_byte byte) }
{
    match byte {
        b'&' => put(out, "&amp;"),
        b'<' => put(out, "&lt;"),
        b'>' => put(out, "&gt;"),
        b'\r' => put(out, "&#13;"),
        _ => {
            out.push(byte)?;
            Ok(())
        }
    }
}

/// Writes a text, as XML's character data has it.
fn put_escaped(out: &mut Vec<u8>, text: &str) -> Result<(), AllocError>
    ensures { OnOk result (out.new.items ≡ out.old.items ++ spec.escaped text.now) }
{
    for byte in text.as_bytes() {
        put_byte(out, *byte)?;
    }
    Ok(())
}

/// A body so far: the declaration alone.
fn declared(alloc: Global) -> Result<Vec<u8>, AllocError>
    ensures { IfOk result (λ out. out.items ≡ spec.declaration) }
{
    let mut out = Vec::new(alloc);
    put(&mut out, "<?xml version=\"1.0\" encoding=\"utf-8\"?>")?;
    Ok(out)
}

/// What asks for the etag and the type of each resource.
#[tactic(auto, unfolding(crate::specs::Bodies::listing_body))]
pub(crate) fn listing_body(alloc: Global) -> Result<Bytes, AllocError>
    ensures { IfOk result (λ body. body ≡ spec.listing_body) }
{
    let mut out = declared(alloc)?;
    put(
        &mut out,
        "<d:propfind xmlns:d=\"DAV:\"><d:prop><d:getetag/><d:resourcetype/></d:prop></d:propfind>",
    )?;
    Ok(Bytes::of(out))
}

fn multiget_open(kind: DavKind) -> &'static str
    ensures { result.now ≡ spec.multiget_open kind }
{
    match kind {
        DavKind::Calendar => {
            "<c:calendar-multiget xmlns:d=\"DAV:\" xmlns:c=\"urn:ietf:params:xml:ns:caldav\"><d:prop><d:getetag/><c:calendar-data/></d:prop>"
        }
        DavKind::Addressbook => {
            "<c:addressbook-multiget xmlns:d=\"DAV:\" xmlns:c=\"urn:ietf:params:xml:ns:carddav\"><d:prop><d:getetag/><c:address-data/></d:prop>"
        }
    }
}

fn multiget_close(kind: DavKind) -> &'static str
    ensures { result.now ≡ spec.multiget_close kind }
{
    match kind {
        DavKind::Calendar => "</c:calendar-multiget>",
        DavKind::Addressbook => "</c:addressbook-multiget>",
    }
}

fn put_href(out: &mut Vec<u8>, href: &str) -> Result<(), AllocError>
    ensures { OnOk result (out.new.items ≡ out.old.items ++ spec.href_element href.now) }
{
    put(out, "<d:href>")?;
    put_escaped(out, href)?;
    put(out, "</d:href>")
}

fn put_hrefs(out: &mut Vec<u8>, hrefs: &[Text]) -> Result<(), AllocError>
    ensures { OnOk result (out.new.items ≡ out.old.items ++ flat_map spec.href_element hrefs.now) }
{
    for href in hrefs {
        put_href(out, href.as_str())?;
    }
    Ok(())
}

/// What asks for the etags and texts of the resources at these hrefs.
#[tactic(auto, unfolding(crate::specs::Bodies::multiget_body))]
pub(crate) fn multiget_body(
    alloc: Global,
    kind: DavKind,
    hrefs: &[Text],
) -> Result<Bytes, AllocError>
    ensures { IfOk result (λ body. body ≡ spec.multiget_body kind hrefs.now) }
{
    let mut out = declared(alloc)?;
    put(&mut out, multiget_open(kind))?;
    put_hrefs(&mut out, hrefs)?;
    put(&mut out, multiget_close(kind))?;
    Ok(Bytes::of(out))
}

/// Writes an element without content.
fn put_empty(out: &mut Vec<u8>, name: &str) -> Result<(), AllocError>
    ensures { OnOk result (out.new.items ≡ out.old.items ++ spec.empty_element name.now) }
{
    put(out, "<x:")?;
    put_escaped(out, name)?;
    put(out, "/>")
}

/// Writes the beginning or the end of an element with content, begun by these characters.
fn put_tag(out: &mut Vec<u8>, front: &str, name: &str) -> Result<(), AllocError>
    ensures { OnOk result (out.new.items ≡ out.old.items ++ spec.tag front.now name.now) }
{
    put(out, front)?;
    put_escaped(out, name)?;
    put(out, ">")
}

/// Writes an element with a text.
fn put_element(out: &mut Vec<u8>, name: &str, value: &str) -> Result<(), AllocError>
    ensures { OnOk result (out.new.items ≡ out.old.items ++ spec.text_element name.now value.now) }
{
    put_tag(out, "<x:", name)?;
    put_escaped(out, value)?;
    put_tag(out, "</x:", name)
}

/// Writes the namespaces of a beginning, and ends it.
fn put_namespaces(out: &mut Vec<u8>, space: &str) -> Result<(), AllocError>
    ensures { OnOk result (out.new.items ≡ out.old.items ++ spec.namespaces space.now) }
{
    put(out, " xmlns:d=\"DAV:\" xmlns:x=\"")?;
    put_escaped(out, space)?;
    put(out, "\">")
}

/// Writes the beginning of the outermost element, begun by these characters.
fn put_outer(out: &mut Vec<u8>, front: &str, space: &str) -> Result<(), AllocError>
    ensures { OnOk result (out.new.items ≡ out.old.items ++ spec.outer_tag front.now space.now) }
{
    put(out, front)?;
    put_namespaces(out, space)
}

/// What asks for one property.
#[tactic(auto, unfolding(crate::specs::Bodies::prop_body))]
pub(crate) fn prop_body(alloc: Global, space: &str, name: &str) -> Result<Bytes, AllocError>
    ensures { IfOk result (λ body. body ≡ spec.prop_body space.now name.now) }
{
    let mut out = declared(alloc)?;
    put_outer(&mut out, "<d:propfind", space)?;
    put(&mut out, "<d:prop>")?;
    put_empty(&mut out, name)?;
    put(&mut out, "</d:prop></d:propfind>")?;
    Ok(Bytes::of(out))
}

fn put_set(out: &mut Vec<u8>, name: &str, value: &str) -> Result<(), AllocError>
    ensures { OnOk result (out.new.items ≡ out.old.items ++ spec.set_element name.now value.now) }
{
    put(out, "<d:set><d:prop>")?;
    put_element(out, name, value)?;
    put(out, "</d:prop></d:set>")
}

fn put_remove(out: &mut Vec<u8>, name: &str) -> Result<(), AllocError>
    ensures { OnOk result (out.new.items ≡ out.old.items ++ spec.remove_element name.now) }
{
    put(out, "<d:remove><d:prop>")?;
    put_empty(out, name)?;
    put(out, "</d:prop></d:remove>")
}

fn put_change(out: &mut Vec<u8>, name: &str, value: Option<&str>) -> Result<(), AllocError>
    ensures { OnOk result (out.new.items ≡ out.old.items ++ spec.change_element name.now (option_copied value.entry)) }
{
    match value {
        Some(value) => put_set(out, name, value),
        None => put_remove(out, name),
    }
}

/// What sets one property, or removes it.
#[tactic(auto, unfolding(crate::specs::Bodies::update_body))]
pub(crate) fn update_body(
    alloc: Global,
    space: &str,
    name: &str,
    value: Option<&str>,
) -> Result<Bytes, AllocError>
    ensures { IfOk result (λ body. body ≡ spec.update_body space.now name.now (option_copied value.entry)) }
{
    let mut out = declared(alloc)?;
    put_outer(&mut out, "<d:propertyupdate", space)?;
    put_change(&mut out, name, value)?;
    put(&mut out, "</d:propertyupdate>")?;
    Ok(Bytes::of(out))
}

fn mkcol_element(kind: DavKind) -> &'static str
    ensures { result.now ≡ spec.mkcol_element kind }
{
    match kind {
        DavKind::Calendar => {
            "<d:mkcol xmlns:d=\"DAV:\" xmlns:c=\"urn:ietf:params:xml:ns:caldav\"><d:set><d:prop><d:resourcetype><d:collection/><c:calendar/></d:resourcetype></d:prop></d:set></d:mkcol>"
        }
        DavKind::Addressbook => {
            "<d:mkcol xmlns:d=\"DAV:\" xmlns:c=\"urn:ietf:params:xml:ns:carddav\"><d:set><d:prop><d:resourcetype><d:collection/><c:addressbook/></d:resourcetype></d:prop></d:set></d:mkcol>"
        }
    }
}

/// What makes a collection of this kind.
#[tactic(auto, unfolding(crate::specs::Bodies::mkcol_body))]
pub(crate) fn mkcol_body(alloc: Global, kind: DavKind) -> Result<Bytes, AllocError>
    ensures { IfOk result (λ body. body ≡ spec.mkcol_body kind) }
{
    let mut out = declared(alloc)?;
    put(&mut out, mkcol_element(kind))?;
    Ok(Bytes::of(out))
}
