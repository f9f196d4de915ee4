//! A real server on this machine, and a wire in memory.

use super::*;
use outside::FaultPlan;
use std::alloc::{AllocError, Global};
use std::io;
use std::io::{Read, Write};
use std::net::TcpListener;
use std::test::Fail;
use std::thread::join;
use values::Bytes;

#[test]
fn replies_are_played(rt: HostRuntime) -> Result<(), Fail> {
    let alloc = rt.alloc();
    let plan = FaultPlan {
        places: Vec::new(alloc),
        stop_at: None,
        edits: Vec::new(alloc),
    };
    let replies = vec![in alloc;
        Bytes::of(Vec::from_slice(alloc, b"one")?),
        Bytes::of(Vec::from_slice(alloc, b"two")?),
    ]?;
    let mut wire = MemWire::new(alloc, replies, plan)?;
    let reply = wire.exchange("a", 80, b"GET", 3).map_err(|_| "one")?;
    assert_eq!(rt; reply.as_slice(), b"one".as_slice());
    assert!(rt; matches!(wire.exchange("a", 80, b"GET", 2), Err(WireError::TooLong)));
    assert!(rt; matches!(wire.exchange("a", 80, b"GET", 2), Err(WireError::Fault)));
    assert_eq!(rt; wire.faults(), 1);
    assert_eq!(rt; wire.exchanges().len(), 2);
    Ok(())
}

#[test]
fn nobody_listens(rt: HostRuntime) -> Result<(), Fail> {
    let closed = TcpListener::bind(&rt, "127.0.0.1:0")?;
    let port = closed.local_addr()?.port();
    drop(closed);
    let mut wire = TcpWire::new(rt.clone()?);
    assert!(rt;
        matches!(
            wire.exchange("127.0.0.1", port, b"GET", 9),
            Err(WireError::Fault)
        )
    );
    assert_eq!(rt; wire.faults(), 1);
    Ok(())
}

/// Answers one connection, once three bytes have come.
fn serve(listener: &TcpListener, reply: &[u8]) -> io::Result<()> {
    let (mut stream, _) = listener.accept()?;
    let mut asked = [0; 3];
    stream.read_exact(&mut asked)?;
    stream.write_all(reply)
}

#[test]
fn a_server_answers(rt: HostRuntime) -> Result<(), Fail> {
    let listener = TcpListener::bind(&rt, "127.0.0.1:0")?;
    let port = listener.local_addr()?.port();
    let mut wire = TcpWire::new(rt.clone()?);
    let reply = Vec::from_elem(rt.alloc(), 7, 300_000)?;
    let (served, answer) = join(
        &rt,
        || serve(&listener, &reply),
        || wire.exchange("localhost", port, b"GET", 300_000),
    );
    served?;
    assert_eq!(rt;
        answer.map_err(|_| "no answer")?.as_slice(),
        reply.as_slice()
    );
    let (_, answer) = join(
        &rt,
        || serve(&listener, &reply),
        || wire.exchange("localhost", port, b"GET", 299_999),
    );
    assert!(rt; matches!(answer, Err(WireError::TooLong)));
    assert_eq!(rt; wire.faults(), 0);
    Ok(())
}
