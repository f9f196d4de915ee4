//! What is sent to a server, and the paths that it answers. The bytes come from a program in another language.

use crate::{
    DavKind, DavSite, delete_request, list_request, meta_request, mkcol_request, multiget_request,
    path_of, prop_request, put_request,
};
use http_client::Request;
use std::alloc::{AllocError, Global};
use std::test::Fail;
use values::Text;

const LISTING: &str =
    "PROPFIND /c/ HTTP/1.1\r\nHost: h.example\r\nUser-Agent: vdirsyncer\r\nAccept-Encoding: identity\r\nConnection: close\r\nContent-Type: application/xml; charset=utf-8\r\nDepth: 1\r\nContent-Length: 124\r\n\r\n<?xml version=\"1.0\" encoding=\"utf-8\"?><d:propfind xmlns:d=\"DAV:\"><d:prop><d:getetag/><d:resourcetype/></d:prop></d:propfind>";

const CALENDAR_MULTIGET: &str =
    "REPORT /c/ HTTP/1.1\r\nHost: h.example\r\nUser-Agent: vdirsyncer\r\nAccept-Encoding: identity\r\nConnection: close\r\nContent-Type: application/xml; charset=utf-8\r\nContent-Length: 239\r\n\r\n<?xml version=\"1.0\" encoding=\"utf-8\"?><c:calendar-multiget xmlns:d=\"DAV:\" xmlns:c=\"urn:ietf:params:xml:ns:caldav\"><d:prop><d:getetag/><c:calendar-data/></d:prop><d:href>/c/x.ics</d:href><d:href>/c/a&amp;b.ics</d:href></c:calendar-multiget>";

const CARD_MULTIGET: &str =
    "REPORT /c/ HTTP/1.1\r\nHost: h.example\r\nUser-Agent: vdirsyncer\r\nAccept-Encoding: identity\r\nConnection: close\r\nContent-Type: application/xml; charset=utf-8\r\nDepth: 0\r\nContent-Length: 189\r\n\r\n<?xml version=\"1.0\" encoding=\"utf-8\"?><c:addressbook-multiget xmlns:d=\"DAV:\" xmlns:c=\"urn:ietf:params:xml:ns:carddav\"><d:prop><d:getetag/><c:address-data/></d:prop></c:addressbook-multiget>";

const NEW_CARD: &str =
    "PUT /c/x.vcf HTTP/1.1\r\nHost: h.example:8008\r\nUser-Agent: vdirsyncer\r\nAccept-Encoding: identity\r\nConnection: close\r\nAuthorization: Basic Ym9iOmFzZGY=\r\nContent-Type: text/vcard; charset=utf-8\r\nIf-None-Match: *\r\nContent-Length: 52\r\n\r\nBEGIN:VCARD\r\nVERSION:3.0\r\nUID:x\r\nFN:Ann\r\nEND:VCARD\r\n";

const CHANGED_EVENT: &str =
    "PUT /c/x.ics HTTP/1.1\r\nHost: h.example\r\nUser-Agent: vdirsyncer\r\nAccept-Encoding: identity\r\nConnection: close\r\nContent-Type: text/calendar; charset=utf-8\r\nIf-Match: \"1\"\r\nContent-Length: 5\r\n\r\na&b\r\n";

const REMOVAL: &str =
    "DELETE /c/x.vcf HTTP/1.1\r\nHost: h.example\r\nUser-Agent: vdirsyncer\r\nAccept-Encoding: identity\r\nConnection: close\r\nIf-Match: \"1\"\r\n\r\n";

const PROPERTY: &str =
    "PROPFIND / HTTP/1.1\r\nHost: h.example\r\nUser-Agent: vdirsyncer\r\nAccept-Encoding: identity\r\nConnection: close\r\nContent-Type: application/xml; charset=utf-8\r\nDepth: 0\r\nContent-Length: 137\r\n\r\n<?xml version=\"1.0\" encoding=\"utf-8\"?><d:propfind xmlns:d=\"DAV:\" xmlns:x=\"DAV:\"><d:prop><x:current-user-principal/></d:prop></d:propfind>";

const NAMED: &str =
    "PROPPATCH /c/ HTTP/1.1\r\nHost: h.example\r\nUser-Agent: vdirsyncer\r\nAccept-Encoding: identity\r\nConnection: close\r\nContent-Type: application/xml; charset=utf-8\r\nContent-Length: 191\r\n\r\n<?xml version=\"1.0\" encoding=\"utf-8\"?><d:propertyupdate xmlns:d=\"DAV:\" xmlns:x=\"DAV:\"><d:set><d:prop><x:displayname>R&amp;D &lt;1&gt;&#13;\n</x:displayname></d:prop></d:set></d:propertyupdate>";

const UNNAMED: &str =
    "PROPPATCH /c/ HTTP/1.1\r\nHost: h.example\r\nUser-Agent: vdirsyncer\r\nAccept-Encoding: identity\r\nConnection: close\r\nContent-Type: application/xml; charset=utf-8\r\nContent-Length: 159\r\n\r\n<?xml version=\"1.0\" encoding=\"utf-8\"?><d:propertyupdate xmlns:d=\"DAV:\" xmlns:x=\"DAV:\"><d:remove><d:prop><x:displayname/></d:prop></d:remove></d:propertyupdate>";

const NEW_CALENDAR: &str =
    "MKCOL /c/ HTTP/1.1\r\nHost: h.example\r\nUser-Agent: vdirsyncer\r\nAccept-Encoding: identity\r\nConnection: close\r\nContent-Type: application/xml; charset=utf-8\r\nContent-Length: 205\r\n\r\n<?xml version=\"1.0\" encoding=\"utf-8\"?><d:mkcol xmlns:d=\"DAV:\" xmlns:c=\"urn:ietf:params:xml:ns:caldav\"><d:set><d:prop><d:resourcetype><d:collection/><c:calendar/></d:resourcetype></d:prop></d:set></d:mkcol>";

const NEW_BOOK: &str =
    "MKCOL /c/ HTTP/1.1\r\nHost: h.example\r\nUser-Agent: vdirsyncer\r\nAccept-Encoding: identity\r\nConnection: close\r\nContent-Type: application/xml; charset=utf-8\r\nContent-Length: 209\r\n\r\n<?xml version=\"1.0\" encoding=\"utf-8\"?><d:mkcol xmlns:d=\"DAV:\" xmlns:c=\"urn:ietf:params:xml:ns:carddav\"><d:set><d:prop><d:resourcetype><d:collection/><c:addressbook/></d:resourcetype></d:prop></d:set></d:mkcol>";

const CARD: &str = "BEGIN:VCARD\r\nVERSION:3.0\r\nUID:x\r\nFN:Ann\r\nEND:VCARD\r\n";

fn site(alloc: Global, kind: DavKind) -> Result<DavSite, AllocError> {
    Ok(DavSite {
        kind,
        host: Text::copy_of(alloc, "h.example")?,
        port: 80,
        path: Text::copy_of(alloc, "/c/")?,
        username: None,
        password: None,
        agent: Text::copy_of(alloc, "vdirsyncer")?,
    })
}

fn is_sent(alloc: Global, request: Request, bytes: &str) -> Result<bool, AllocError> {
    let sent = request.bytes(alloc)?;
    Ok(sent.as_slice() == bytes.as_bytes())
}

fn two_hrefs(alloc: Global) -> Result<Vec<Text>, AllocError> {
    let mut hrefs = Vec::new(alloc);
    for href in ["/c/x.ics", "/c/a&b.ics"] {
        hrefs.push(Text::copy_of(alloc, href)?)?;
    }
    Ok(hrefs)
}

#[test]
fn a_collection_is_asked(rt: HostRuntime) -> Result<(), Fail> {
    let alloc = rt.alloc();
    let calendar = site(alloc, DavKind::Calendar)?;
    let listed = is_sent(alloc, list_request(alloc, &calendar)?, LISTING)?;
    assert!(rt; listed);
    let hrefs = two_hrefs(alloc)?;
    let events = multiget_request(alloc, &calendar, hrefs.as_slice())?;
    let fetched = is_sent(alloc, events, CALENDAR_MULTIGET)?;
    assert!(rt; fetched);
    let book = site(alloc, DavKind::Addressbook)?;
    let fetched = is_sent(alloc, multiget_request(alloc, &book, &[])?, CARD_MULTIGET)?;
    assert!(rt; fetched);
    let property = prop_request(alloc, &book, "/", "DAV:", "current-user-principal")?;
    let asked = is_sent(alloc, property, PROPERTY)?;
    assert!(rt; asked);
    Ok(())
}

#[test]
fn items_are_put_and_removed(rt: HostRuntime) -> Result<(), Fail> {
    let alloc = rt.alloc();
    let book = DavSite {
        port: 8008,
        username: Some(Text::copy_of(alloc, "bob")?),
        password: Some(Text::copy_of(alloc, "asdf")?),
        ..site(alloc, DavKind::Addressbook)?
    };
    let card = put_request(alloc, &book, "/c/x.vcf", None, CARD)?;
    let put = is_sent(alloc, card, NEW_CARD)?;
    assert!(rt; put);
    let calendar = site(alloc, DavKind::Calendar)?;
    let event = put_request(alloc, &calendar, "/c/x.ics", Some("\"1\""), "a&b\r\n")?;
    let put = is_sent(alloc, event, CHANGED_EVENT)?;
    assert!(rt; put);
    let removal = delete_request(alloc, &calendar, "/c/x.vcf", "\"1\"")?;
    let removed = is_sent(alloc, removal, REMOVAL)?;
    assert!(rt; removed);
    Ok(())
}

#[test]
fn a_collection_is_made_and_named(rt: HostRuntime) -> Result<(), Fail> {
    let alloc = rt.alloc();
    let book = site(alloc, DavKind::Addressbook)?;
    let made = is_sent(alloc, mkcol_request(alloc, &book)?, NEW_BOOK)?;
    assert!(rt; made);
    let name = meta_request(alloc, &book, "DAV:", "displayname", Some("R&D <1>\r\n"))?;
    let named = is_sent(alloc, name, NAMED)?;
    assert!(rt; named);
    let no_name = meta_request(alloc, &book, "DAV:", "displayname", None)?;
    let unnamed = is_sent(alloc, no_name, UNNAMED)?;
    assert!(rt; unnamed);
    let calendar = site(alloc, DavKind::Calendar)?;
    let made = is_sent(alloc, mkcol_request(alloc, &calendar)?, NEW_CALENDAR)?;
    assert!(rt; made);
    Ok(())
}

#[test]
fn hrefs_name_paths(rt: HostRuntime) -> Result<(), Fail> {
    let alloc = rt.alloc();
    for (href, path) in [
        ("https://o.example/c/a%40b.ics", "/c/a@b.ics"),
        ("x.ics", "/c/x.ics"),
        ("/c/%c3%a9%2Fb+c d.ics", "/c/%C3%A9%2Fb+c%20d.ics"),
        ("../d/./x", "/d/x"),
        ("mailto:a%40b/c", "a@b/c"),
    ] {
        match path_of(alloc, "/c/", href)? {
            Some(found) => assert_eq!(rt; found.as_str(), path),
            None => assert!(rt; false, "{href}"),
        }
    }
    for href in ["x.ics?q", "x.ics#f", "http://[/x"] {
        let found = path_of(alloc, "/c/", href)?;
        assert!(rt; found.is_none(), "{href}");
    }
    Ok(())
}
