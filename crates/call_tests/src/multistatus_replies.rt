//! Replies in the style of real servers, the rules of the standards one by one, and how each is read.

use bumpalo::Bump;
use multistatus::{Prop, Response, read_multistatus};
use std::alloc::{AllocError, Global};
use std::test::Fail;

const BAD: &str = "bad reply";

const CARD_ROWS: &str = "/c/x.vcf [DAV: getetag 200 \"1\"][DAV: displayname 404 ]";

const DAV: &str = "<multistatus xmlns='DAV:'>";

const IN_RESPONSE: &str = "<multistatus xmlns='DAV:'><response>";

const IN_PROPERTY: &str = "<multistatus xmlns='DAV:'><response><href>/a</href><propstat><prop><p>";

const BEHIND_PROPERTY: &str =
    "</p></prop><status>HTTP/1.1 200 OK</status></propstat></response></multistatus>";

/// Replies, each in three pieces, and what each is read as.
static REPLIES: [([&str; 3], &str); 81] = [
    (
        [
            "<?xml version=\"1.0\" encoding=\"utf-8\"?>\r\n<multistatus xmlns=\"DAV:\"><response><href> /c/x.vcf\n</href><propstat><prop><getetag>\"1\"</getetag></prop><status>HTTP/1.1 200 OK</status></propstat><propstat><prop><displayname/></prop><status>HTTP/1.1 404 Not Found</status></propstat></response></multistatus>",
            "",
            "",
        ],
        CARD_ROWS,
    ),
    (
        [
            "<D:multistatus xmlns:D=\"DAV:\"><D:response><D:href>/c/x.vcf</D:href><D:propstat><D:prop><D:getetag>\"1\"</D:getetag></D:prop><D:status>HTTP/1.1 200 OK</D:status></D:propstat><D:propstat><D:prop><D:displayname></D:displayname></D:prop><D:status>HTTP/1.1 404 Not Found</D:status></D:propstat></D:response></D:multistatus>\n",
            "",
            "",
        ],
        CARD_ROWS,
    ),
    (
        [
            "\u{feff}<?xml version='1.0'?><!-- one --><ns0:multistatus xmlns:ns0='DAV:'>\n <ns0:response>\n  <ns0:href>/c/x.vcf</ns0:href>\n  <ns0:propstat>\n   <ns0:status>HTTP/1.1 200</ns0:status>\n   <ns0:prop>\n <ns0:getetag>&quot;1&#34;</ns0:getetag>\n </ns0:prop>\n </ns0:propstat><ns0:propstat><ns0:prop><ns0:displayname/></ns0:prop><ns0:status>HTTP/1.0 404 </ns0:status></ns0:propstat>\n <ns0:error/></ns0:response>\n</ns0:multistatus >\n<?end of it?>",
            "",
            "",
        ],
        CARD_ROWS,
    ),
    (
        [
            "<multistatus xmlns='DAV:'><D:response xmlns:D='DAV:' D:a='1' a='>'><href xmlns='DAV:'>/c/x.vcf</href><D:propstat><prop><D:getetag><![CDATA[\"1\"]]></D:getetag></prop><status>HTTP/1.1 200 OK</status></D:propstat><e:propstat xmlns:e='DAV:'><e:prop><displayname\txml:lang='en' /></e:prop><e:status>HTTP/2.0 404 gone</e:status></e:propstat></D:response><sync-token>7</sync-token></multistatus>",
            "",
            "",
        ],
        CARD_ROWS,
    ),
    (
        [
            "<a:multistatus xmlns:a='DAV:' xmlns:b='urn:b'><b:response/><a:response><b:href>/no</b:href><a:href>/c<!-- - -->/x&#x2e;vcf</a:href><a:propstat><a:prop>text<a:getetag>&#x22;1\"</a:getetag></a:prop><a:status> HTTP/1.1 200 OK </a:status></a:propstat><a:propstat><a:status>HTTP/1.1 404 Not Found</a:status><a:prop><a:displayname/></a:prop></a:propstat></a:response></a:multistatus>",
            "",
            "",
        ],
        CARD_ROWS,
    ),
    (
        [
            "<x:multistatus xmlns:x='DAV:' xmlns='urn:a' xmlns:y='urn:y'><x:response><x:href>/a</x:href><x:propstat><x:prop><p xmlns='' xmlns:y='urn:z'><q/><y:r/><x:href> /b </x:href><y:href>/c</y:href></p><y:s/></x:prop><x:status>HTTP/1.1 200 OK</x:status></x:propstat></x:response></x:multistatus>",
            "",
            "",
        ],
        "/a [ p 200 ( q)(urn:z r)(DAV: href)(urn:z href)</b>][urn:y s 200 ]",
    ),
    (
        [
            "<multistatus xmlns='DAV:'><response><href>/a%20b</href><href>\t/c </href><status>HTTP/1.1 404 Not Found</status></response></multistatus>",
            "",
            "",
        ],
        "/a%20b 404 /c 404 ",
    ),
    (
        [IN_PROPERTY, "a\r\nb\rc\n", BEHIND_PROPERTY],
        "/a [DAV: p 200 a\nb\nc\n]",
    ),
    (
        [IN_PROPERTY, "a&#13;&#10;b", BEHIND_PROPERTY],
        "/a [DAV: p 200 a\r\nb]",
    ),
    (
        [IN_PROPERTY, "&amp;lt;&lt;&gt;&quot;&apos;", BEHIND_PROPERTY],
        "/a [DAV: p 200 &lt;<>\"']",
    ),
    (
        [
            IN_PROPERTY,
            "&#228;&#x20AC;&#x1F600;&#0065;",
            BEHIND_PROPERTY,
        ],
        "/a [DAV: p 200 \u{e4}\u{20ac}\u{1f600}A]",
    ),
    (
        [
            IN_PROPERTY,
            "<![CDATA[<&amp;]]]]><![CDATA[>\r\n]]>",
            BEHIND_PROPERTY,
        ],
        "/a [DAV: p 200 <&amp;]]>\n]",
    ),
    (
        [IN_PROPERTY, "a<b>c</b>d<e/>f", BEHIND_PROPERTY],
        "/a [DAV: p 200 adf(DAV: b)(DAV: e)]",
    ),
    (
        [IN_PROPERTY, "a<!-- b --><?c d?>e", BEHIND_PROPERTY],
        "/a [DAV: p 200 ae]",
    ),
    ([IN_PROPERTY, " ", BEHIND_PROPERTY], "/a [DAV: p 200  ]"),
    (
        [
            IN_PROPERTY,
            "<a xmlns:p='u' xmlns:q=' u' p:b='1' q:b='2'/>",
            BEHIND_PROPERTY,
        ],
        "/a [DAV: p 200 (DAV: a)]",
    ),
    (
        [
            DAV,
            "<a><a><a><a><a><a><a><a><a><a><a><a><a><a><a><a><a><a><a><a><a><a><a><a><a><a><a><a><a><a><a>",
            "</a></a></a></a></a></a></a></a></a></a></a></a></a></a></a></a></a></a></a></a></a></a></a></a></a></a></a></a></a></a></a></multistatus>",
        ],
        "",
    ),
    (
        [
            DAV,
            "<a><a><a><a><a><a><a><a><a><a><a><a><a><a><a><a><a><a><a><a><a><a><a><a><a><a><a><a><a><a><a><a>",
            "</a></a></a></a></a></a></a></a></a></a></a></a></a></a></a></a></a></a></a></a></a></a></a></a></a></a></a></a></a></a></a></a></multistatus>",
        ],
        BAD,
    ),
    (["", "", ""], BAD),
    ([" ", "", ""], BAD),
    (["a", "", ""], BAD),
    (["<a xmlns='DAV:'/>", "", ""], BAD),
    (["<multistatus/>", "", ""], BAD),
    (["<multistatus xmlns='DAV'/>", "", ""], BAD),
    (
        [
            "<multistatus xmlns='DAV:'/><multistatus xmlns='DAV:'/>",
            "",
            "",
        ],
        BAD,
    ),
    (["<multistatus xmlns='DAV:'/>a", "", ""], BAD),
    (["<multistatus xmlns='DAV:'/>&#32;", "", ""], BAD),
    (
        ["<!DOCTYPE multistatus><multistatus xmlns='DAV:'/>", "", ""],
        BAD,
    ),
    (
        [" <?xml version='1.0'?><multistatus xmlns='DAV:'/>", "", ""],
        BAD,
    ),
    (["<?xml?><multistatus xmlns='DAV:'/>", "", ""], BAD),
    ([DAV, "&nbsp;", "</multistatus>"], BAD),
    ([DAV, "&amp", "</multistatus>"], BAD),
    ([DAV, "&;", "</multistatus>"], BAD),
    ([DAV, "&#;", "</multistatus>"], BAD),
    ([DAV, "&#x;", "</multistatus>"], BAD),
    ([DAV, "&#0;", "</multistatus>"], BAD),
    ([DAV, "&#xD800;", "</multistatus>"], BAD),
    ([DAV, "&#xFFFE;", "</multistatus>"], BAD),
    ([DAV, "&#x110000;", "</multistatus>"], BAD),
    ([DAV, "&#99999999999999999999;", "</multistatus>"], BAD),
    ([DAV, "&#X41;", "</multistatus>"], BAD),
    ([DAV, "&#a;", "</multistatus>"], BAD),
    ([DAV, "<!DOCTYPE a>", "</multistatus>"], BAD),
    ([DAV, "<!-- a -- b -->", "</multistatus>"], BAD),
    ([DAV, "<![CDATA[a", "</multistatus>"], BAD),
    ([DAV, "<?xml a?>", "</multistatus>"], BAD),
    ([DAV, "<?XmL?>", "</multistatus>"], BAD),
    ([DAV, "<? a?>", "</multistatus>"], BAD),
    ([DAV, "<a>", "</multistatus>"], BAD),
    ([DAV, "</a>", "</multistatus>"], BAD),
    ([DAV, "<a></b>", "</multistatus>"], BAD),
    ([DAV, "<1a/>", "</multistatus>"], BAD),
    ([DAV, "<a:b:c/>", "</multistatus>"], BAD),
    ([DAV, "<:a/>", "</multistatus>"], BAD),
    ([DAV, "<a: />", "</multistatus>"], BAD),
    ([DAV, "<a b/>", "</multistatus>"], BAD),
    ([DAV, "<a b=c/>", "</multistatus>"], BAD),
    ([DAV, "<a b='<'/>", "</multistatus>"], BAD),
    ([DAV, "<a b='&x;'/>", "</multistatus>"], BAD),
    ([DAV, "<a b='1'c='2'/>", "</multistatus>"], BAD),
    ([DAV, "<a b='1' b='2'/>", "</multistatus>"], BAD),
    (
        [
            DAV,
            "<a xmlns:p='u' xmlns:q='u' p:b='1' q:b='2'/>",
            "</multistatus>",
        ],
        BAD,
    ),
    ([DAV, "<p:a/>", "</multistatus>"], BAD),
    ([DAV, "<a p:b='1'/>", "</multistatus>"], BAD),
    ([DAV, "<a xmlns:p=''/>", "</multistatus>"], BAD),
    ([DAV, "<a xmlns:xmlns='u'/>", "</multistatus>"], BAD),
    ([DAV, "<?a:b?>", "</multistatus>"], BAD),
    ([IN_RESPONSE, "", "</response></multistatus>"], BAD),
    (
        [IN_RESPONSE, "<href>/a</href>", "</response></multistatus>"],
        BAD,
    ),
    (
        [
            IN_RESPONSE,
            "<status>HTTP/1.1 200 OK</status>",
            "</response></multistatus>",
        ],
        BAD,
    ),
    (
        [
            IN_RESPONSE,
            "<href>/a</href><status>HTTP/1.1 200 OK</status><status>HTTP/1.1 200 OK</status>",
            "</response></multistatus>",
        ],
        BAD,
    ),
    (
        [
            IN_RESPONSE,
            "<href>/a</href><status>HTTP/1.1 200 OK</status><propstat><prop/><status>HTTP/1.1 200 OK</status></propstat>",
            "</response></multistatus>",
        ],
        BAD,
    ),
    (
        [
            IN_RESPONSE,
            "<href>/a</href><href>/b</href><propstat><prop/><status>HTTP/1.1 200 OK</status></propstat>",
            "</response></multistatus>",
        ],
        BAD,
    ),
    (
        [
            IN_RESPONSE,
            "<propstat><prop/><status>HTTP/1.1 200 OK</status></propstat>",
            "</response></multistatus>",
        ],
        BAD,
    ),
    (
        [
            IN_RESPONSE,
            "<href>/a</href><propstat><status>HTTP/1.1 200 OK</status></propstat>",
            "</response></multistatus>",
        ],
        BAD,
    ),
    (
        [
            IN_RESPONSE,
            "<href>/a</href><propstat><prop/></propstat>",
            "</response></multistatus>",
        ],
        BAD,
    ),
    (
        [
            IN_RESPONSE,
            "<href>/a</href><propstat><prop/><prop/><status>HTTP/1.1 200 OK</status></propstat>",
            "</response></multistatus>",
        ],
        BAD,
    ),
    (
        [
            IN_RESPONSE,
            "<href>/a</href><status>HTTP/1.1 2000</status>",
            "</response></multistatus>",
        ],
        BAD,
    ),
    (
        [
            IN_RESPONSE,
            "<href>/a</href><status>HTTP/1.1 20</status>",
            "</response></multistatus>",
        ],
        BAD,
    ),
    (
        [
            IN_RESPONSE,
            "<href>/a</href><status>HTTP/1. 200</status>",
            "</response></multistatus>",
        ],
        BAD,
    ),
    (
        [
            IN_RESPONSE,
            "<href>/a</href><status>http/1.1 200 OK</status>",
            "</response></multistatus>",
        ],
        BAD,
    ),
];

/// A property as a text.
fn shown_prop(alloc: Global, prop: &Prop<'_>) -> Result<String, AllocError> {
    let space = prop.space.as_str();
    let name = prop.name.as_str();
    let inside = prop.text.as_str();
    let mut text = format!(in alloc; "[{space} {name} {} {inside}", prop.code)?;
    for child in prop.children.as_slice() {
        let more = format!(in alloc; "({} {})", child.0.as_str(), child.1.as_str())?;
        text.push_str(more.as_str())?;
    }
    for href in prop.hrefs.as_slice() {
        let more = format!(in alloc; "<{}>", href.as_str())?;
        text.push_str(more.as_str())?;
    }
    text.push_str("]")?;
    Ok(text)
}

/// A row as a text.
fn shown_row(alloc: Global, row: &Response<'_>) -> Result<String, AllocError> {
    let mut text = format!(in alloc; "{} ", row.href.as_str())?;
    if let Some(code) = row.code {
        let more = format!(in alloc; "{code} ")?;
        text.push_str(more.as_str())?;
    }
    for prop in row.props.iter() {
        let more = shown_prop(alloc, &prop)?;
        text.push_str(more.as_str())?;
    }
    Ok(text)
}

/// What a reply is read as: its rows or the error, as a text.
fn answer(alloc: Global, bytes: &[u8]) -> Result<String, AllocError> {
    let arena = Bump::new(alloc);
    let mut text = String::new(alloc);
    match read_multistatus(alloc, bytes, &arena) {
        Err(error) => format!(in alloc; "{error}"),
        Ok(rows) => {
            for row in rows.as_slice() {
                let more = shown_row(alloc, row)?;
                text.push_str(more.as_str())?;
            }
            Ok(text)
        }
    }
}

/// Whether a reply, in three pieces, is read as this.
fn is_read_as(alloc: Global, pieces: &[&str; 3], wanted: &str) -> Result<bool, AllocError> {
    let (before, part, after) = (pieces[0], pieces[1], pieces[2]);
    let reply = format!(in alloc; "{before}{part}{after}")?;
    let found = answer(alloc, reply.as_str().as_bytes())?;
    Ok(found.as_str() == wanted)
}

#[test]
fn replies_are_read_as_the_standards_say(rt: HostRuntime) -> Result<(), Fail> {
    for (at, row) in REPLIES.iter().enumerate() {
        let met = is_read_as(rt.alloc(), &row.0, row.1)?;
        assert!(rt; met, "row {at}");
    }
    let no_text = answer(rt.alloc(), b"<multistatus xmlns='DAV:'>\xFF</multistatus>")?;
    assert_eq!(rt; no_text.as_str(), BAD);
    Ok(())
}
