//! A wire to servers.

ghost use Rattle.std.specs.Prelude.{◌≡◌, ◌≤◌, ℕ, IfErr, IfOk, length};
ghost use Rattle.outside.specs.Causes.{Rose};
ghost use Rattle.wires.specs.declared.wire.WireError.TheVariants.{NoMemory as out_of_memory};

use outside::NoMemory;
use thiserror::Error;
use values::{Bytes, Text};

/// Why a reply can't be had. The request has acted whole or not at all.
#[derive(Debug, Drop, Error)]
pub enum WireError {
    /// The device failed, and its count of faults rose.
    #[error("fault")]
    Fault,
    /// The reply has more bytes than the limit of the call.
    #[error("too long")]
    TooLong,
    /// Memory ran out.
    #[error("out of memory")]
    NoMemory,
}

impl From<NoMemory> for WireError {
    ghost from_gives = { λ _ e. e ≡ out_of_memory };

    fn from(_e: NoMemory) -> WireError {
        WireError::NoMemory
    }
}

/// A request that a server was sent, and all bytes of its reply, whether they could be taken or not.
#[derive(Debug, Drop)]
pub struct Exchange {
    /// The server's name or address, and its port.
    pub host: Text,
    pub port: u16,
    pub request: Bytes,
    pub reply: Bytes,
}

/// Sends requests to servers, each over a connection of its own, and takes their replies.
///
/// A wire has two meanings, and may have either, both or none: its exchanges, and the site behind it, with how that site answers.
pub trait Wire {
    ghost use Rattle.std.specs.Prelude.{List, Option, IsErr};
    ghost use Rattle.outside.specs.Plans.{Course, GoesBeside};
    ghost use Rattle.wires.specs.Exchanges.{WireState, Changes, IsExchangeOf, no_reply_left};
    ghost use Rattle.wires.specs.Sites.{SiteState};
    ghost use Rattle.wires.specs.WireCalls.{WireCause, ExchangeAnswer, reply_of};

    /// The count of faults.
    ghost count: { Self → ℕ };

    /// The plan by which its calls fail, and how many calls have begun, where that is told. A call that has no reply to play
    /// fails besides.
    ghost course: { Self → Option Course };

    /// Whether contracts can see the exchanges.
    ghost lists: { Self → Type 0 };

    /// The exchanges so far, and the replies still to come, where they are told.
    ghost state: { Self → WireState };

    /// Whether contracts can see the site behind the wire.
    ghost tells: { Self → Type 0 };

    /// The site behind the wire, where it is told.
    ghost site: { Self → SiteState };

    /// How that site answers: the site, the bytes of a request, those of the reply or none where it is lost, and the site then.
    ghost answers: { SiteState → List ℕ → Option (List ℕ) → SiteState → Type 0 };

    /// How often a call has failed. The count stays at the last value of a `u64`.
    fn faults(&self) -> u64
        ensures { result ≡ count self.now };

    /// Sends a request to a server, and gives all bytes that it sends back up to the end of the connection. `TooLong` where these
    /// are more than `limit`.
    fn exchange(
        &mut self,
        host: &str,
        port: u16,
        request: &[u8],
        limit: u64,
    ) -> Result<Vec<u8>, WireError>
        ensures changes { Changes count lists state (IsExchangeOf host.now port request.now) self.old self.new }
        ensures cause { IfErr result (WireCause (Rose (count self.old) (count self.new)) limit) }
        ensures goes { GoesBeside (no_reply_left (state self.old).ahead) (course self.old) (course self.new) (count self.old) (count self.new) (IsErr result) }
        ensures within { IfOk result (λ reply. length reply.items ≤ limit) }
        ensures listed { lists self.old → ExchangeAnswer (state self.old) (state self.new) host.now port request.now limit result }
        ensures answered { tells self.old → tells self.new × answers (site self.old) request.now (reply_of result) (site self.new) };
}
