//! The requests to a collection. The only error of each is want of memory.

ghost use Rattle.std.specs.Prelude.{◌≡◌, ◌++◌, ◌∷◌, [], IfOk, OnOk};
ghost use Rattle.std.specs.Option.{option_copied};
ghost use Rattle.dav_requests.specs.Requests as spec;

use crate::bodies::{listing_body, mkcol_body, multiget_body, prop_body, update_body};
use crate::site::{DavKind, DavSite, put_field, request_to};
use http_client::{Method, Request};
use std::alloc::{AllocError, Global};
use values::{Bytes, Sequence, Text};

/// The header fields of a body in XML.
fn xml_fields(alloc: Global) -> Result<Sequence<(Text, Text)>, AllocError>
    ensures { IfOk result (λ fields. fields ≡ spec.xml_fields) }
{
    let mut fields = Sequence::new(alloc);
    put_field(
        alloc,
        &mut fields,
        "Content-Type",
        "application/xml; charset=utf-8",
    )?;
    Ok(fields)
}

/// The same, with how far below a resource the server is to look.
fn depth_fields(alloc: Global, depth: &str) -> Result<Sequence<(Text, Text)>, AllocError>
    ensures { IfOk result (λ fields. fields ≡ spec.depth_fields depth.now) }
{
    let mut fields = xml_fields(alloc)?;
    put_field(alloc, &mut fields, "Depth", depth)?;
    Ok(fields)
}

/// Asks for the etag and the type of each resource of a collection: a PROPFIND of depth 1 (RFC
/// 4918, section 9.1).
#[tactic(auto, unfolding(crate::specs::Requests::list_request))]
pub fn list_request(alloc: Global, site: &DavSite) -> Result<Request, AllocError>
    ensures { IfOk result (λ request. request ≡ spec.list_request site.now) }
{
    let body = listing_body(alloc)?;
    let fields = depth_fields(alloc, "1")?;
    request_to(
        alloc,
        site,
        site.path.as_str(),
        Method::Propfind(body),
        fields,
    )
}

/// The header fields of a multiget.
fn multiget_fields(alloc: Global, kind: DavKind) -> Result<Sequence<(Text, Text)>, AllocError>
    ensures { IfOk result (λ fields. fields ≡ spec.multiget_fields kind) }
{
    match kind {
        DavKind::Calendar => xml_fields(alloc),
        DavKind::Addressbook => depth_fields(alloc, "0"),
    }
}

/// Asks for the etags and texts of the resources at these hrefs: a REPORT (RFC 4791, section 7.9;
/// RFC 6352, section 8.7).
#[tactic(auto, unfolding(crate::specs::Requests::multiget_request))]
pub fn multiget_request(
    alloc: Global,
    site: &DavSite,
    hrefs: &[Text],
) -> Result<Request, AllocError>
    ensures { IfOk result (λ request. request ≡ spec.multiget_request site.now hrefs.now) }
{
    let body = multiget_body(alloc, site.kind, hrefs)?;
    let fields = multiget_fields(alloc, site.kind)?;
    request_to(
        alloc,
        site,
        site.path.as_str(),
        Method::Report(body),
        fields,
    )
}

/// The media type of an item's text.
fn media_type(kind: DavKind) -> &'static str
    ensures { result.now ≡ spec.media_type kind }
{
    match kind {
        DavKind::Calendar => "text/calendar; charset=utf-8",
        DavKind::Addressbook => "text/vcard; charset=utf-8",
    }
}

/// Adds what a write needs to be so: that this etag stands there, or that nothing does.
fn put_condition(
    alloc: Global,
    fields: &mut Sequence<(Text, Text)>,
    etag: Option<&str>,
) -> Result<(), AllocError>
    ensures { OnOk result (fields.new ≡ fields.old ++ spec.condition (option_copied etag.entry) ∷ []) }
{
    match etag {
        Some(etag) => put_field(alloc, fields, "If-Match", etag),
        None => put_field(alloc, fields, "If-None-Match", "*"),
    }
}

/// The header fields of a PUT.
fn put_fields(
    alloc: Global,
    kind: DavKind,
    etag: Option<&str>,
) -> Result<Sequence<(Text, Text)>, AllocError>
    ensures { IfOk result (λ fields. fields ≡ spec.put_fields kind (option_copied etag.entry)) }
{
    let mut fields = Sequence::new(alloc);
    put_field(alloc, &mut fields, "Content-Type", media_type(kind))?;
    put_condition(alloc, &mut fields, etag)?;
    Ok(fields)
}

/// Writes a text at an href, where this etag stands there, or, without one, where nothing does: a
/// PUT (RFC 9110, sections 9.3.4, 13.1.1 and 13.1.2).
#[tactic(auto, unfolding(crate::specs::Requests::put_request))]
pub fn put_request(
    alloc: Global,
    site: &DavSite,
    href: &str,
    etag: Option<&str>,
    text: &str,
) -> Result<Request, AllocError>
    ensures { IfOk result (λ request. request ≡ spec.put_request site.now href.now (option_copied etag.entry) text.now) }
{
    let body = Bytes::of(Vec::from_slice(alloc, text.as_bytes())?);
    let fields = put_fields(alloc, site.kind, etag)?;
    request_to(alloc, site, href, Method::Put(body), fields)
}

/// Removes what stands at an href, where this etag does: a DELETE (RFC 9110, sections 9.3.5 and
/// 13.1.1).
#[tactic(auto, unfolding(crate::specs::Requests::delete_request))]
pub fn delete_request(
    alloc: Global,
    site: &DavSite,
    href: &str,
    etag: &str,
) -> Result<Request, AllocError>
    ensures { IfOk result (λ request. request ≡ spec.delete_request site.now href.now etag.now) }
{
    let mut fields = Sequence::new(alloc);
    put_condition(alloc, &mut fields, Some(etag))?;
    request_to(alloc, site, href, Method::Delete, fields)
}

/// Asks for one property of a resource, by its namespace and its name in it: a PROPFIND of depth 0
/// (RFC 4918, section 9.1). The namespace has no quotes, and the name is one of XML.
#[tactic(auto, unfolding(crate::specs::Requests::prop_request))]
pub fn prop_request(
    alloc: Global,
    site: &DavSite,
    path: &str,
    space: &str,
    name: &str,
) -> Result<Request, AllocError>
    ensures { IfOk result (λ request. request ≡ spec.prop_request site.now path.now space.now name.now) }
{
    let body = prop_body(alloc, space, name)?;
    let fields = depth_fields(alloc, "0")?;
    request_to(alloc, site, path, Method::Propfind(body), fields)
}

/// Sets one property of the collection, or, without a value, removes it: a PROPPATCH (RFC 4918,
/// section 9.2). The namespace has no quotes, and the name is one of XML.
#[tactic(auto, unfolding(crate::specs::Requests::meta_request))]
pub fn meta_request(
    alloc: Global,
    site: &DavSite,
    space: &str,
    name: &str,
    value: Option<&str>,
) -> Result<Request, AllocError>
    ensures { IfOk result (λ request. request ≡ spec.meta_request site.now space.now name.now (option_copied value.entry)) }
{
    let body = update_body(alloc, space, name, value)?;
    let fields = xml_fields(alloc)?;
    request_to(
        alloc,
        site,
        site.path.as_str(),
        Method::Proppatch(body),
        fields,
    )
}

/// Makes the collection, of the site's kind: an extended MKCOL (RFC 5689, section 3).
#[tactic(auto, unfolding(crate::specs::Requests::mkcol_request))]
pub fn mkcol_request(alloc: Global, site: &DavSite) -> Result<Request, AllocError>
    ensures { IfOk result (λ request. request ≡ spec.mkcol_request site.now) }
{
    let body = mkcol_body(alloc, site.kind)?;
    let fields = xml_fields(alloc)?;
    request_to(alloc, site, site.path.as_str(), Method::Mkcol(body), fields)
}
