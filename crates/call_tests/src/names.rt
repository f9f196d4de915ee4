//! Names of status folders and of files.

use item_text::is_plain;
use status_keeper::status_name;
use std::alloc::Global;
use std::test::Fail;
use store_model::file_stem;

/// The SHA-256 of `a/b`.
const HASHED: &str = "c14cddc033f64b9dea80ea675cf280a015e672516090a5626781153dc68fea11";

/// `%` and the SHA-256 of 201 letters `a`.
const LONG: &str = "%a92efd82109373e58f9a2056dee01e807e216ce6075f7051207c0a9f7d666e50";

fn is_named(alloc: Global, collection: &str, name: &str) -> Result<bool, Fail> {
    Ok(status_name(alloc, Some(collection))?.as_str() == name)
}

#[test]
fn status_folders_and_stems(rt: HostRuntime) -> Result<(), Fail> {
    let alloc = rt.alloc();
    let long = "a".repeat(alloc, 201)?;
    for (collection, name) in [
        ("my cal", "my%20cal"),
        (".a.b@c_d-9\u{e9}", "%2Ea.b@c_d-9%C3%A9"),
        (long.as_str(), LONG),
    ] {
        let named = is_named(alloc, collection, name)?;
        assert!(rt; named, "{name}");
    }
    assert_eq!(rt; status_name(alloc, None)?.as_str(), ".null");
    assert_eq!(rt; file_stem(alloc, "a/b")?.as_str(), HASHED);
    assert_eq!(rt; file_stem(alloc, "x")?.as_str(), "x");
    assert!(rt; is_plain("x"));
    assert!(rt; !is_plain("a/b"));
    Ok(())
}
