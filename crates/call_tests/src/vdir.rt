//! A store over a folder in memory. The etags were computed by sha256sum.

use item_text::Item;
use outside::{FaultPlan, MemFolder};
use std::alloc::Global;
use std::test::Fail;
use store_model::{Store, StoreError};
use values::{Bytes, Text};
use vdir_store::VdirStore;

const ANN: &str = "BEGIN:VCARD\r\nVERSION:3.0\r\nUID:x\r\nFN:Ann\r\nEND:VCARD\r\n";

const ANN_ETAG: &str = "1c4901c7467b5fae859172addc859cbde9f731a1602fb2f90007a57724e78156";

const BOB: &str = "BEGIN:VCARD\r\nVERSION:3.0\r\nUID:x\r\nFN:Bob\r\nEND:VCARD\r\n";

const BOB_ETAG: &str = "8e0c98b6c5289d2dcc1ca9231ab90cae82d720285be40bfcf9fc57365b89feb0";

/// A folder with ANN as `x.vcf`, and two files that are no items.
fn folder(alloc: Global) -> Result<MemFolder, Fail> {
    let mut files = Vec::new(alloc);
    for name in ["x.vcf", "y.vcf.tmp", "readme"] {
        let bytes = Vec::from_slice(alloc, ANN.as_bytes())?;
        files.push((Text::copy_of(alloc, name)?, Bytes::of(bytes)))?;
    }
    let plan = FaultPlan {
        places: Vec::new(alloc),
        stop_at: None,
        edits: Vec::new(alloc),
    };
    Ok(MemFolder::new(alloc, true, files, Vec::new(alloc), plan)?)
}

#[test]
fn items_are_listed_and_got(rt: HostRuntime) -> Result<(), Fail> {
    let alloc = rt.alloc();
    let mut store = VdirStore::new(alloc, folder(alloc)?, Text::copy_of(alloc, ".vcf")?);
    let entries = store.list()?;
    assert_eq!(rt; entries.len(), 1);
    for entry in &entries {
        assert_eq!(rt; entry.href.as_str(), "x.vcf");
        assert_eq!(rt; entry.etag.as_str(), ANN_ETAG);
    }
    let hrefs = vec![in alloc; Text::copy_of(alloc, "x.vcf")?]?;
    let found = store.get(&hrefs)?;
    assert_eq!(rt; found.len(), 1);
    for ann in &found {
        assert_eq!(rt; ann.item.text(), ANN);
    }
    Ok(())
}

#[test]
fn items_are_written_over_and_dropped(rt: HostRuntime) -> Result<(), Fail> {
    let alloc = rt.alloc();
    let mut store = VdirStore::new(alloc, folder(alloc)?, Text::copy_of(alloc, ".vcf")?);
    let _ = store.list()?;
    let bob = Item::read(alloc, BOB.as_bytes())?;
    let etag = store.put_over("x.vcf", ANN_ETAG, &bob)?;
    assert!(rt; matches!(&etag, Some(tag) if tag.as_str() == BOB_ETAG));
    let again = store.put_over("x.vcf", ANN_ETAG, &bob);
    assert!(rt; matches!(&again, Err(StoreError::Moved)));
    store.drop_item("x.vcf", BOB_ETAG)?;
    store.flush()?;
    let left = store.list()?;
    assert!(rt; left.is_empty());
    Ok(())
}
