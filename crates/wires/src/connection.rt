//! The calls of the system that reach a server, and the limit of a reply.

ghost use Rattle.std.specs.Prelude.{◌≡◌, nat_lt, IfErr, length};
ghost use Rattle.wires.specs.WireCalls.{WireCause};
ghost use Rattle.wires.specs.Plays.{IsWithin};

use crate::tcp_wire::PATIENCE;
use crate::wire::WireError;
use mio::net::TcpStream;
use mio::{Events, Interest, Poll, Token};
use std::io;
use std::io::{ErrorKind, Read, Write};
use std::net::{Net, SocketAddr, ToSocketAddrs};
use std::time::{Clock, Duration, Instant};

/// How many bytes of a reply are asked for at once.
const PIECE: usize = 65_536;

/// Whether a reply has more bytes than the limit.
fn is_past(reply: &[u8], limit: u64) -> bool
    ensures { result ≡ nat_lt limit (length reply.now) }
{
    reply.len() as u64 > limit
}

/// A reply, where it is within the limit.
pub fn reply_within(reply: Vec<u8>, limit: u64) -> Result<Vec<u8>, WireError>
    ensures within { IsWithin reply.items limit result }
    ensures cause { IfErr result (WireCause ⊥ limit) }
{
    if is_past(&reply, limit) {
        return Err(WireError::TooLong);
    }
    Ok(reply)
}

/// A connection to a server, and what waits for it.
#[derive(Drop)]
struct Connection {
    poll: Poll,
    events: Events,
    stream: TcpStream,
}

impl Connection {
    /// Begins to connect.
    fn begin<R: Net + AllocGlobal>(rt: &R, address: SocketAddr) -> io::Result<Connection> {
        let poll = Poll::new(rt)?;
        let mut stream = TcpStream::connect(rt, address)?;
        let interests = Interest::READABLE | Interest::WRITABLE;
        poll.registry().register(&mut stream, Token(0), interests)?;
        let events = Events::with_capacity(rt.alloc(), 1)?;
        Ok(Connection {
            poll,
            events,
            stream,
        })
    }

    /// Waits until the server has done something, but no longer than the limit. A signal only makes it look again.
    fn wait<R: Clock>(&mut self, rt: &R) -> io::Result<()> {
        let patience = Duration::from_secs(PATIENCE);
        let start = Instant::now(rt)?;
        for _ in 0..u64::MAX {
            self.poll.poll(&mut self.events, Some(patience))?;
            if !self.events.is_empty() {
                return Ok(());
            }
            if start.elapsed(rt)? >= patience {
                break;
            }
        }
        Err(io::Error::from(ErrorKind::TimedOut))
    }

    /// Connects to an address.
    fn open<R: Net + Clock + AllocGlobal>(rt: &R, address: SocketAddr) -> io::Result<Connection> {
        let mut connection = Connection::begin(rt, address)?;
        connection.wait(rt)?;
        if let Some(error) = connection.stream.take_error()? {
            return Err(error);
        }
        connection.stream.peer_addr()?;
        Ok(connection)
    }

    /// Sends all of a request.
    fn send<R: Clock>(&mut self, rt: &R, request: &[u8]) -> io::Result<()> {
        let mut rest = request;
        for _ in 0..u64::MAX {
            if rest.is_empty() {
                return Ok(());
            }
            match self.stream.write(rest) {
                Ok(0) => break,
                Ok(taken) => rest = &rest[taken..],
                Err(error) => self.go_on(rt, error)?,
            }
        }
        Err(io::Error::from(ErrorKind::WriteZero))
    }

    /// Takes all that the server sends, but no more than one piece past the limit.
    fn receive<R: Clock + AllocGlobal>(&mut self, rt: &R, limit: u64) -> io::Result<Vec<u8>> {
        let mut reply = Vec::new(rt.alloc());
        let mut piece = Vec::from_elem(rt.alloc(), 0, PIECE)?;
        for _ in 0..u64::MAX {
            if is_past(&reply, limit) {
                break;
            }
            match self.stream.read(&mut piece) {
                Ok(0) => break,
                Ok(count) => reply.extend_from_slice(&piece[..count])?,
                Err(error) => self.go_on(rt, error)?,
            }
        }
        Ok(reply)
    }

    /// Waits where a call answered that it would wait. Any other error is the connection's end.
    fn go_on<R: Clock>(&mut self, rt: &R, error: io::Error) -> io::Result<()> {
        match error.kind() {
            ErrorKind::WouldBlock => self.wait(rt),
            ErrorKind::Interrupted => Ok(()),
            _ => Err(error),
        }
    }
}

/// Connects to the first address of a server that takes the connection; the last one's error where none does.
fn connect<R: Net + Clock + AllocGlobal>(rt: &R, host: &str, port: u16) -> io::Result<Connection> {
    let mut last = io::Error::from(ErrorKind::AddrNotAvailable);
    for address in (host, port).to_socket_addrs(rt)? {
        match Connection::open(rt, address) {
            Ok(connection) => return Ok(connection),
            Err(error) => last = error,
        }
    }
    Err(last)
}

/// Sends a request to a server, and takes what it sends back up to the end of the connection, or to somewhat past the limit.
pub fn talk<R: Net + Clock + AllocGlobal>(
    rt: &R,
    host: &str,
    port: u16,
    request: &[u8],
    limit: u64,
) -> io::Result<Vec<u8>> {
    let mut connection = connect(rt, host, port)?;
    connection.send(rt, request)?;
    connection.receive(rt, limit)
}
