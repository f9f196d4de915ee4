//! What elements give as they end (RFC 4918, section 14).

ghost use Rattle.multistatus.specs.Reader as spec;
ghost use Rattle.multistatus.specs.Props.{with_code};
ghost use Rattle.multistatus.specs.Rows.{propstat_from, of_status, status_code};
ghost use Rattle.multistatus.specs.Steps.{Gives};
ghost use Rattle.multistatus.specs.Texts.{trimmed};
ghost use Rattle.std.specs.Prelude.{◌≡◌, ◌++◌, map, Some, true, IfOk};

use crate::MultiError;
use crate::frames::{Frame, PropstatParts, ResponseParts};
use crate::props::{Kept, Props, Propstat};
use crate::rows::{Property, Response};
use crate::status::status_code;
use crate::text::trimmed;
use bumpalo::Bump;
use std::alloc::{AllocError, Global};
use values::{Lent, Sequence};

/// The parent where the child has ended.
pub(crate) fn ended<'a>(
    alloc: Global,
    arena: &'a Bump,
    parent: Frame<'a>,
    child: Frame<'a>,
) -> Result<Frame<'a>, MultiError>
    ensures { Gives (λ f. f) result (spec.joined parent.entry child.entry) }
{
    match parent {
        Frame::InMultistatus(rows) => ended_in_multistatus(alloc, rows, child),
        Frame::InResponse(parts) => ended_in_response(arena, parts, child),
        Frame::InPropstat(parts) => ended_in_propstat(arena, parts, child),
        Frame::InProp(properties) => ended_in_prop(arena, properties, child),
        Frame::InProperty(property) => ended_in_property(arena, property, child),
        Frame::InHref(text) => Ok(Frame::InHref(text)),
        Frame::InStatus(text) => Ok(Frame::InStatus(text)),
        Frame::Ignored => Ok(Frame::Ignored),
    }
}

fn ended_in_multistatus<'a>(
    alloc: Global,
    rows: Sequence<Response<'a>>,
    child: Frame<'a>,
) -> Result<Frame<'a>, MultiError>
    ensures { Gives (λ f. f) result (spec.joined_multistatus rows.entry child.entry) }
{
    let Frame::InResponse(parts) = child else {
        return Ok(Frame::InMultistatus(rows));
    };
    let rows = with_rows(alloc, rows, parts)?;
    Ok(Frame::InMultistatus(rows))
}

fn ended_in_response<'a>(
    arena: &'a Bump,
    parts: ResponseParts<'a>,
    child: Frame<'a>,
) -> Result<Frame<'a>, MultiError>
    ensures { Gives (λ f. f) result (spec.joined_response parts.entry child.entry) }
{
    let mut parts = parts;
    match child {
        Frame::InHref(text) => {
            let whole = text.text(arena)?;
            let href = Lent::of(trimmed(whole));
            parts.hrefs.push(href)?;
            Ok(Frame::InResponse(parts))
        }
        Frame::InStatus(text) => {
            let line = text.text(arena)?;
            let code = code_of(line)?;
            parts.codes.push(code)?;
            Ok(Frame::InResponse(parts))
        }
        Frame::InPropstat(of_propstat) => {
            let propstat = propstat_of(of_propstat)?;
            parts.props.push(propstat)?;
            parts.has_propstat = true;
            Ok(Frame::InResponse(parts))
        }
        _ => Ok(Frame::InResponse(parts)),
    }
}

fn ended_in_propstat<'a>(
    arena: &'a Bump,
    parts: PropstatParts<'a>,
    child: Frame<'a>,
) -> Result<Frame<'a>, MultiError>
    ensures { Gives (λ f. f) result (spec.joined_propstat parts.entry child.entry) }
{
    let mut parts = parts;
    match child {
        Frame::InProp(properties) => {
            parts.lists.push(properties)?;
            Ok(Frame::InPropstat(parts))
        }
        Frame::InStatus(text) => {
            let line = text.text(arena)?;
            let code = code_of(line)?;
            parts.codes.push(code)?;
            Ok(Frame::InPropstat(parts))
        }
        _ => Ok(Frame::InPropstat(parts)),
    }
}

fn ended_in_prop<'a>(
    arena: &'a Bump,
    properties: Sequence<Kept<'a>>,
    child: Frame<'a>,
) -> Result<Frame<'a>, MultiError>
    ensures { Gives (λ f. f) result (Some (spec.joined_prop properties.entry child.entry)) }
{
    let Frame::InProperty(property) = child else {
        return Ok(Frame::InProp(properties));
    };
    let kept = Kept::of(arena, property)?;
    let mut properties = properties;
    properties.push(kept)?;
    Ok(Frame::InProp(properties))
}

fn ended_in_property<'a>(
    arena: &'a Bump,
    property: Property<'a>,
    child: Frame<'a>,
) -> Result<Frame<'a>, MultiError>
    ensures { Gives (λ f. f) result (Some (spec.joined_property property.entry child.entry)) }
{
    let Frame::InHref(text) = child else {
        return Ok(Frame::InProperty(property));
    };
    let whole = text.text(arena)?;
    let inner = Lent::of(trimmed(whole));
    let mut property = property;
    property.hrefs.push(inner)?;
    Ok(Frame::InProperty(property))
}

/// The code of a status line, which may have white space around it.
fn code_of(text: &str) -> Result<u16, MultiError>
    ensures { Gives (λ code. code) result (status_code (trimmed text.now)) }
{
    status_code(trimmed(text))
}

/// The properties of a propstat and their code.
fn propstat_of<'a>(parts: PropstatParts<'a>) -> Result<Propstat<'a>, MultiError>
    ensures { Gives (λ p. map (with_code p.code) p.listed) result (propstat_from parts.entry.codes parts.entry.lists) }
{
    let PropstatParts { codes, lists } = parts;
    let code = only_code(codes.as_slice())?;
    let listed = only_list(lists)?;
    Ok(Propstat { code, listed })
}

/// The rows so far and those of a response.
fn with_rows<'a>(
    alloc: Global,
    rows: Sequence<Response<'a>>,
    parts: ResponseParts<'a>,
) -> Result<Sequence<Response<'a>>, MultiError>
    ensures { Gives (λ all. Frame.InMultistatus all) result (spec.joined_rows rows.entry (spec.rows_of_parts parts.entry)) }
{
    let ResponseParts {
        hrefs,
        codes,
        has_propstat,
        props,
    } = parts;
    if has_propstat {
        return with_row_of_props(rows, hrefs, codes, props);
    }
    let code = only_code(codes.as_slice())?;
    if hrefs.is_empty() {
        return Err(MultiError::Bad);
    }
    let rows = with_rows_of_status(alloc, rows, code, hrefs.as_slice())?;
    Ok(rows)
}

/// The rows so far and that of a response with propstats.
fn with_row_of_props<'a>(
    rows: Sequence<Response<'a>>,
    hrefs: Sequence<Lent<'a>>,
    codes: Sequence<u16>,
    props: Props<'a>,
) -> Result<Sequence<Response<'a>>, MultiError>
    ensures { Gives (λ all. Frame.InMultistatus all) result (spec.joined_rows rows.entry (spec.ended_response hrefs.entry codes true props.entry)) }
{
    let href = only_href(hrefs)?;
    if !codes.is_empty() {
        return Err(MultiError::Bad);
    }
    let mut rows = rows;
    rows.push(Response {
        href,
        code: None,
        props,
    })?;
    Ok(rows)
}

/// The rows so far and a row of the status for each href.
fn with_rows_of_status<'a>(
    alloc: Global,
    rows: Sequence<Response<'a>>,
    code: u16,
    hrefs: &[Lent<'a>],
) -> Result<Sequence<Response<'a>>, AllocError>
    ensures { IfOk result (λ all. all ≡ rows.entry ++ map (of_status code) hrefs.now) }
{
    let mut rows = rows;
    for href in hrefs {
        let row = row_of_status(alloc, code, href);
        rows.push(row)?;
    }
    Ok(rows)
}

fn row_of_status<'a>(alloc: Global, code: u16, href: &Lent<'a>) -> Response<'a>
    ensures { result ≡ of_status code href.now }
{
    Response {
        href: Lent::of(href.as_str()),
        code: Some(code),
        props: Props::new(alloc),
    }
}

/// The only code.
fn only_code(codes: &[u16]) -> Result<u16, MultiError>
    ensures { Gives (λ code. code) result (spec.only codes.now) }
{
    match codes {
        [code] => Ok(*code),
        _ => Err(MultiError::Bad),
    }
}

/// The only list.
fn only_list<'a>(lists: Sequence<Sequence<Kept<'a>>>) -> Result<Sequence<Kept<'a>>, MultiError>
    ensures { Gives (λ listed. listed) result (spec.only lists.entry) }
{
    let mut lists = lists;
    let Some(listed) = lists.pop() else {
        return Err(MultiError::Bad);
    };
    if !lists.is_empty() {
        return Err(MultiError::Bad);
    }
    Ok(listed)
}

/// The only href.
fn only_href<'a>(hrefs: Sequence<Lent<'a>>) -> Result<Lent<'a>, MultiError>
    ensures { Gives (λ href. href) result (spec.only hrefs.entry) }
{
    let mut hrefs = hrefs;
    let Some(href) = hrefs.pop() else {
        return Err(MultiError::Bad);
    };
    if !hrefs.is_empty() {
        return Err(MultiError::Bad);
    }
    Ok(href)
}
