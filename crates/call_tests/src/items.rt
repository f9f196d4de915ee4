//! Items with another UID.

use item_text::Item;
use std::alloc::Global;
use std::test::Fail;

/// Whether the item of a text, with the UID `n1`, is that of the other text, of the same version.
fn gets_uid(alloc: Global, text: &str, edited: &str) -> Result<bool, Fail> {
    let item = Item::read(alloc, text.as_bytes())?;
    let other = item.with_uid(alloc, "n1")?;
    Ok(
        other.text() == edited
            && other.ident() == "n1"
            && other.has_uid()
            && other.fp() == item.fp(),
    )
}

#[test]
fn gives_another_uid(rt: HostRuntime) -> Result<(), Fail> {
    for (text, edited) in [
        (
            "BEGIN:VCARD\r\nVERSION:3.0\r\nUID:x\r\nFN:Ann\r\nEND:VCARD\r\n",
            "BEGIN:VCARD\r\nVERSION:3.0\r\nUID:n1\r\nFN:Ann\r\nEND:VCARD\r\n",
        ),
        (
            "BEGIN:VC\r\n ARD\r\nFN:A\r\nEND:VCARD",
            "BEGIN:VC\r\n ARD\r\nUID:n1\r\nFN:A\r\nEND:VCARD",
        ),
        (
            "\u{feff}BEGIN:VCARD\nuid;X=1:ab\n c\n\td\nUID:second\nEND:VCARD\n",
            "\u{feff}BEGIN:VCARD\nUID:n1\r\nUID:second\nEND:VCARD\n",
        ),
        (
            "BEGIN:VCALENDAR\r\nUID:c\r\nBEGIN:VTIMEZONE\r\nUID:z\r\nEND:VTIMEZONE\r\nBEGIN:VEVENT\r\nBEGIN:VALARM\r\nUID:a\r\nEND:VALARM\r\nEND:VEVENT\r\nEND:VCALENDAR\r\n",
            "BEGIN:VCALENDAR\r\nUID:c\r\nBEGIN:VTIMEZONE\r\nUID:z\r\nEND:VTIMEZONE\r\nBEGIN:VEVENT\r\nUID:n1\r\nBEGIN:VALARM\r\nUID:a\r\nEND:VALARM\r\nEND:VEVENT\r\nEND:VCALENDAR\r\n",
        ),
        (
            "BEGIN:VCALENDAR\r\nBEGIN:VEVENT\r\nUID:\r\nUID:u\r\nEND:VEVENT\r\nBEGIN:VTODO\r\nBEGIN:X\r\nUID:q\r\nEND:X\r\nUID:u\r\nEND:VTODO\r\nEND:VCALENDAR\r\n",
            "BEGIN:VCALENDAR\r\nBEGIN:VEVENT\r\nUID:\r\nUID:n1\r\nEND:VEVENT\r\nBEGIN:VTODO\r\nBEGIN:X\r\nUID:q\r\nEND:X\r\nUID:n1\r\nEND:VTODO\r\nEND:VCALENDAR\r\n",
        ),
    ] {
        let met = gets_uid(rt.alloc(), text, edited)?;
        assert!(rt; met, "{text}");
    }
    Ok(())
}
