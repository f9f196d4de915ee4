//! The real wire, over TCP without encryption. It tells nothing of what it does, so of the contract of `Wire` only the count of
//! faults and the limit speak here.

ghost use Rattle.std.specs.Prelude.{◌≡◌, ◌≤◌, ◌↔◌, ℕ, IfErr, IfOk, Ok, Err};
ghost use Rattle.std.specs.IoError.{error_kind};
ghost use Rattle.outside.specs.Causes.{Rose};
ghost use Rattle.wires.specs.WireCalls.{WireCause};

use crate::connection::{reply_within, talk};
use crate::wire::{Wire, WireError};
use std::io;
use std::io::ErrorKind;
use std::net::Net;
use std::time::Clock;

/// How long a server may take to answer a connection, and how long it may then be silent, in seconds (this project's own limit).
pub const PATIENCE: u64 = 30;

/// What the system answered. A failure is counted, unless memory ran out.
fn counted(count: &mut u64, found: io::Result<Vec<u8>>) -> Result<Vec<u8>, WireError>
    ensures later { count.old ≤ count.new }
    ensures cause { (limit : ℕ) → IfErr result (WireCause (Rose count.old count.new) limit) }
    ensures found { IfOk result (λ reply. found ≡ Ok reply) }
    ensures answered { IfOk found (λ reply. result ≡ Ok reply) }
    ensures memory { IfErr found (λ error. result ≡ Err WireError.NoMemory ↔ (error_kind error ≡ ErrorKind.OutOfMemory)) }
{
    match found {
        Ok(reply) => Ok(reply),
        Err(error) => {
            if error.kind() == ErrorKind::OutOfMemory {
                return Err(WireError::NoMemory);
            }
            *count = count.saturating_add(1);
            Err(WireError::Fault)
        }
    }
}

/// Talks to real servers. A server that doesn't answer a connection within `PATIENCE` seconds, or is then silent for as long, or
/// takes no more bytes, counts as a fault; how long the system looks for the address of a name is the system's own.
#[derive(Drop)]
pub struct TcpWire<R: Net + Clock + AllocGlobal + Drop> {
    rt: R,
    count: u64,
}

impl<R: Net + Clock + AllocGlobal + Drop> TcpWire<R> {
    /// Opens nothing and takes no memory.
    pub fn new(rt: R) -> TcpWire<R>
        ensures { ⟦<TcpWire<R> as Wire>⟧.count result ≡ 0 }
    {
        TcpWire { rt, count: 0 }
    }
}

impl<R: Net + Clock + AllocGlobal + Drop> Wire for TcpWire<R> {
    ghost use Rattle.std.specs.Prelude.{None};
    ghost use Rattle.wires.specs.Exchanges.{nothing_told};
    ghost use Rattle.wires.specs.Sites.{no_site};

    ghost count = { λ w. w.count };

    ghost course = { λ _. None };

    ghost lists = { λ _. ⊥ };

    ghost state = { λ _. nothing_told };

    ghost tells = { λ _. ⊥ };

    ghost site = { λ _. no_site };

    ghost answers = { λ before request reply now. ⊥ };

    fn faults(&self) -> u64 {
        self.count
    }

    fn exchange(
        &mut self,
        host: &str,
        port: u16,
        request: &[u8],
        limit: u64,
    ) -> Result<Vec<u8>, WireError> {
        let found = talk(&self.rt, host, port, request, limit);
        match counted(&mut self.count, found) {
            Ok(reply) => reply_within(reply, limit),
            Err(error) => Err(error),
        }
    }
}
