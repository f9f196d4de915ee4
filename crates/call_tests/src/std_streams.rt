//! Streams over readers and writers of std.

use outside::{Sink, Source, StdSink, StdSource, write_all};
use std::io::Cursor;
use std::test::Fail;

#[test]
fn streams_of_std_give_and_take_all(rt: HostRuntime) -> Result<(), Fail> {
    let bytes = Vec::from_slice(rt.alloc(), b"hello")?;
    let mut source = StdSource::new(Cursor::new(bytes));
    let mut piece = [0u8; 4];
    assert_eq!(rt; source.read(&mut piece), Ok(4));
    assert_eq!(rt; source.read(&mut piece), Ok(1));
    assert_eq!(rt; source.read(&mut piece), Ok(0));
    let mut held = Vec::new(rt.alloc());
    let mut sink = StdSink::new(&mut held);
    assert_eq!(rt; write_all(&mut sink, b"hello"), Ok(()));
    assert_eq!(rt; write_all(&mut sink, b" you"), Ok(()));
    assert_eq!(rt; source.faults(), 0);
    assert_eq!(rt; sink.faults(), 0);
    drop(sink);
    assert_eq!(rt; held.as_slice(), b"hello you".as_slice());
    Ok(())
}
