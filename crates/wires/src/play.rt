//! Replies that are only played: those still to come, and the requests that had theirs.

ghost use Rattle.std.specs.Prelude.{◌≡◌};
ghost use Rattle.wires.specs.Exchanges.{is_new};
ghost use Rattle.wires.specs.Plays.{state_of, Played};

use crate::wire::Exchange;
use outside::NoMemory;
use std::alloc::Global;
use values::{Bytes, Text};

#[derive(Drop)]
pub struct Play {
    alloc: Global,
    pub replies: Vec<Bytes>,
    // How many of them have been played.
    pub played: usize,
    pub exchanges: Vec<Exchange>,
}

impl Play {
    pub fn new(alloc: Global, replies: Vec<Bytes>) -> Play
        ensures { state_of result ≡ is_new replies.items }
    {
        Play {
            alloc,
            replies,
            played: 0,
            exchanges: Vec::new(alloc),
        }
    }

    /// Plays the next reply, where there is one.
    pub fn play(
        &mut self,
        host: &str,
        port: u16,
        request: &[u8],
    ) -> Result<Option<Vec<u8>>, NoMemory>
        ensures { Played (state_of self.old) (state_of self.new) host.now port request.now result }
    {
        let Some(next) = self.replies.get(self.played) else {
            return Ok(None);
        };
        let reply = Vec::from_slice(self.alloc, next.as_slice())?;
        let exchange = Exchange {
            host: Text::copy_of(self.alloc, host)?,
            port,
            request: Bytes::of(Vec::from_slice(self.alloc, request)?),
            reply: Bytes::of(Vec::from_slice(self.alloc, next.as_slice())?),
        };
        self.exchanges.push(exchange)?;
        self.played += 1;
        Ok(Some(reply))
    }
}
