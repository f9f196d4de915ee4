//! Files that are split and joined, by outside vectors.

use crate::{join_file, split_file};
use item_text::Item;
use std::test::Fail;

const BOTH: &str =
    "BEGIN:VCALENDAR\r\nVERSION:2.0\r\nBEGIN:VEVENT\r\nUID:m1\r\nEND:VEVENT\r\nBEGIN:VEVENT\r\nUID:m2\r\nEND:VEVENT\r\nEND:VCALENDAR\r\n";

#[test]
fn splits_a_calendar_by_uid_and_joins_it_again(rt: HostRuntime) -> Result<(), Fail> {
    let items = split_file(rt.alloc(), BOTH.as_bytes())?;
    let texts: Vec<&str> = items.iter().map(|item| item.text()).collect(rt.alloc())?;
    assert_eq!(rt;
        texts.as_slice(),
        [
            "BEGIN:VCALENDAR\r\nVERSION:2.0\r\nBEGIN:VEVENT\r\nUID:m1\r\nEND:VEVENT\r\nEND:VCALENDAR\r\n",
            "BEGIN:VCALENDAR\r\nVERSION:2.0\r\nBEGIN:VEVENT\r\nUID:m2\r\nEND:VEVENT\r\nEND:VCALENDAR\r\n",
        ]
        .as_slice()
    );
    let file = join_file(rt.alloc(), &items)?;
    assert_eq!(rt; file.as_slice(), BOTH.as_bytes());
    Ok(())
}

#[test]
fn folds_a_line_as_late_as_a_character_allows(rt: HostRuntime) -> Result<(), Fail> {
    let card =
        "BEGIN:VCARD\r\nNOTE:aaaaaaaaaaaaaaaaaaaaaaaaaaaaaaaaaaaaaaaaaaaaaaaaaaaaaaaaaaaaaaaaaaaaa\u{e9}b\r\nEND:VCARD\r\n";
    let items = vec![in rt.alloc(); Item::read(rt.alloc(), card.as_bytes())?]?;
    let file = join_file(rt.alloc(), &items)?;
    let folded =
        "BEGIN:VCARD\r\nNOTE:aaaaaaaaaaaaaaaaaaaaaaaaaaaaaaaaaaaaaaaaaaaaaaaaaaaaaaaaaaaaaaaaaaaaa\r\n \u{e9}b\r\nEND:VCARD\r\n";
    assert_eq!(rt; file.as_slice(), folded.as_bytes());
    Ok(())
}

#[test]
fn reads_a_calendar_that_opens_in_lower_case(rt: HostRuntime) -> Result<(), Fail> {
    let text =
        "begin: vcalendar\r\nVERSION:2.0\r\nBEGIN:VEVENT\r\nUID:m1\r\nSUMMARY:Long\r\n  er\r\nEND:VEVENT\r\nEND:VCALENDAR\r\n";
    let items = vec![in rt.alloc(); Item::read(rt.alloc(), text.as_bytes())?]?;
    let file = join_file(rt.alloc(), &items)?;
    let again = split_file(rt.alloc(), &file)?;
    let idents: Vec<&str> = again.iter().map(|item| item.ident()).collect(rt.alloc())?;
    assert_eq!(rt; idents.as_slice(), ["m1"].as_slice());
    let versions = [
        items
            .iter()
            .all(|item| again.iter().all(|other| item.fp() == other.fp())),
    ];
    assert_eq!(rt; versions.as_slice(), [true].as_slice());
    Ok(())
}

#[test]
fn tells_where_a_file_is_none(rt: HostRuntime) -> Result<(), Fail> {
    assert_eq!(rt; split_file(rt.alloc(), b"hello").is_err(), true);
    assert_eq!(rt; split_file(rt.alloc(), b"")?.len(), 0);
    assert_eq!(rt; join_file(rt.alloc(), &[])?.len(), 0);
    Ok(())
}
