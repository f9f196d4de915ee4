//! Streams in memory, and their plans.

use outside::{
    FaultPlace, FaultPlan, MemSink, MemSource, Sink, SinkFault, Source, SourceFault, write_all,
};
use std::alloc::Global;
use std::test::Fail;
use values::Bytes;

fn fails_second(alloc: Global) -> Result<FaultPlan, Fail> {
    let mut places = Vec::new(alloc);
    places.push(FaultPlace {
        call: 2,
        acted: false,
    })?;
    Ok(FaultPlan {
        places,
        stop_at: None,
        edits: Vec::new(alloc),
    })
}

#[test]
fn streams_in_memory_follow_their_plans(rt: HostRuntime) -> Result<(), Fail> {
    let alloc = rt.alloc();
    let bytes = Bytes::of(Vec::from_slice(alloc, b"hello")?);
    let mut source = MemSource::new(alloc, bytes, fails_second(alloc)?)?;
    let mut piece = [0u8; 3];
    assert_eq!(rt; source.read(&mut piece), Ok(3));
    assert_eq!(rt; source.read(&mut piece), Err(SourceFault));
    assert_eq!(rt; source.read(&mut piece), Ok(2));
    assert_eq!(rt; piece.as_slice(), b"lol".as_slice());
    assert_eq!(rt; source.faults(), 1);
    let mut sink = MemSink::new(alloc, 7, fails_second(alloc)?)?;
    assert_eq!(rt; write_all(&mut sink, b"one "), Ok(()));
    assert_eq!(rt; write_all(&mut sink, b"two "), Err(SinkFault));
    assert_eq!(rt; write_all(&mut sink, b"three"), Err(SinkFault));
    assert_eq!(rt; sink.bytes(), b"one thr".as_slice());
    assert_eq!(rt; sink.faults(), 2);
    Ok(())
}
