//! A wire in memory: its replies are given, and faults come by a plan.

ghost use Rattle.std.specs.Prelude.{◌≡◌, ◌≤◌, IfOk, IfErr, IsErr, Some, length};
ghost use Rattle.outside.specs.Causes.{Rose};
ghost use Rattle.outside.specs.Plans.{begun, CountsFate, FailsBy, unless_stopped};
ghost use Rattle.outside.specs.Planned.{course_of};
ghost use Rattle.outside.specs.declared.plan.Fate.TheVariants.{Acts};
ghost use Rattle.wires.specs.Exchanges.{is_new, no_reply_left};
ghost use Rattle.wires.specs.WireCalls.{WireCause, ExchangeAnswer};
ghost use Rattle.wires.specs.Plays.{state_of};

use crate::connection::reply_within;
use crate::play::Play;
use crate::wire::{Exchange, Wire, WireError};
use outside::{Fate, FaultPlan, NoMemory, Planned};
use std::alloc::Global;
use values::Bytes;

/// A wire in memory. A call that acts plays the next reply; where there is none it fails, and that counts as a fault.
#[derive(Drop)]
pub struct MemWire {
    play: Play,
    planned: Planned,
}

impl MemWire {
    /// A wire with these replies, the first of them first, to whatever is asked. `plan` says which calls fail; its edits mean
    /// nothing here.
    pub fn new(alloc: Global, replies: Vec<Bytes>, plan: FaultPlan) -> Result<MemWire, NoMemory>
        ensures lists { IfOk result (λ m. ⟦<MemWire as Wire>⟧.lists m × (⟦<MemWire as Wire>⟧.state m ≡ is_new replies.items)) }
        ensures count { IfOk result (λ m. ⟦<MemWire as Wire>⟧.count m ≡ 0) }
        ensures course { IfOk result (λ m. ⟦<MemWire as Wire>⟧.course m ≡ Some (begun plan)) }
    {
        Ok(MemWire {
            play: Play::new(alloc, replies),
            planned: Planned::new(plan),
        })
    }

    /// The requests that were sent, with their replies, the first of them first. Takes no memory.
    pub fn exchanges(&self) -> &[Exchange]
        ensures { result.now ≡ (⟦<MemWire as Wire>⟧.state self.now).exchanges }
    {
        self.play.exchanges.as_slice()
    }

    /// Plays the next reply, which the plan lets come.
    fn play_next(
        &mut self,
        host: &str,
        port: u16,
        request: &[u8],
        limit: u64,
    ) -> Result<Vec<u8>, WireError>
        ensures course { course_of self.new.planned ≡ course_of self.old.planned }
        ensures later { self.old.planned.faults.count ≤ self.new.planned.faults.count }
        ensures counted { CountsFate (unless_stopped (no_reply_left (state_of self.old.play).ahead) Acts) self.old.planned.faults.count self.new.planned.faults.count }
        ensures fails { FailsBy (unless_stopped (no_reply_left (state_of self.old.play).ahead) Acts) (IsErr result) }
        ensures cause { IfErr result (WireCause (Rose self.old.planned.faults.count self.new.planned.faults.count) limit) }
        ensures within { IfOk result (λ reply. length reply.items ≤ limit) }
        ensures answer { ExchangeAnswer (state_of self.old.play) (state_of self.new.play) host.now port request.now limit result }
    {
        match self.play.play(host, port, request) {
            Err(NoMemory) => Err(WireError::NoMemory),
            Ok(None) => {
                self.planned.faults.raise();
                Err(WireError::Fault)
            }
            Ok(Some(reply)) => reply_within(reply, limit),
        }
    }
}

impl Wire for MemWire {
    ghost use Rattle.std.specs.Prelude.{Some};
    ghost use Rattle.outside.specs.Planned.{course_of};
    ghost use Rattle.wires.specs.Sites.{no_site};
    ghost use Rattle.wires.specs.Plays.{state_of};

    ghost count = { λ m. m.planned.faults.count };

    ghost course = { λ m. Some (course_of m.planned) };

    ghost lists = { λ _. Unit {0} };

    ghost state = { λ m. state_of m.play };

    ghost tells = { λ _. ⊥ };

    ghost site = { λ _. no_site };

    ghost answers = { λ before request reply now. ⊥ };

    fn faults(&self) -> u64 {
        self.planned.faults.count
    }

    fn exchange(
        &mut self,
        host: &str,
        port: u16,
        request: &[u8],
        limit: u64,
    ) -> Result<Vec<u8>, WireError> {
        match self.planned.begin() {
            Fate::Acts => self.play_next(host, port, request, limit),
            Fate::Fails => Err(WireError::Fault),
            Fate::ActsAndFails => match self.play.play(host, port, request) {
                Ok(_) => Err(WireError::Fault),
                Err(NoMemory) => Err(WireError::NoMemory),
            },
        }
    }
}
