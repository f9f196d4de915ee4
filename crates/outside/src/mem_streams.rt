//! A source and a sink in memory, with faults by a plan.

ghost use Rattle.std.specs.Prelude.{◌≡◌, ◌≤◌, ◌+◌, ◌-◌, ◌++◌, [], IfOk, Some, length, min, take, drop, vec_len, vec_capacity};
ghost use Rattle.outside.specs.Plans.{begun};
ghost use Rattle.outside.specs.StreamCalls.{is_full};

use crate::folder::NoMemory;
use crate::plan::{Fate, FaultPlan};
use crate::planned::Planned;
use crate::streams::{Sink, SinkFault, Source, SourceFault};
use std::alloc::Global;
use values::Bytes;

/// A source in memory.
#[derive(Drop)]
pub struct MemSource {
    bytes: Vec<u8>,
    done: usize,
    planned: Planned,
    ghost within: { done ≤ vec_len bytes },
}

impl MemSource {
    /// A source of these bytes. The edits of the plan mean nothing to it.
    pub fn new(_alloc: Global, bytes: Bytes, plan: FaultPlan) -> Result<MemSource, NoMemory>
        ensures tells { IfOk result (λ s. ⟦<MemSource as Source>⟧.tells s × (⟦<MemSource as Source>⟧.left s ≡ bytes)) }
        ensures count { IfOk result (λ s. ⟦<MemSource as Source>⟧.count s ≡ 0) }
        ensures course { IfOk result (λ s. ⟦<MemSource as Source>⟧.course s ≡ Some (begun plan)) }
    {
        Ok(MemSource {
            bytes: bytes.into_vec(),
            done: 0,
            planned: Planned::new(plan),
        })
    }

    /// Moves as many bytes as fit into a piece.
    fn take_into(&mut self, piece: &mut [u8]) -> usize
        ensures taken { result ≡ min (length piece.old) (vec_len self.old.bytes - self.old.done) }
        ensures given { drop self.old.done self.old.bytes.items ≡ take result piece.new ++ drop self.new.done self.new.bytes.items }
        ensures planned { self.new.planned ≡ self.old.planned }
    {
        let left = &self.bytes[self.done..];
        let taken = left.len().min(piece.len());
        piece[..taken].copy_from_slice(&left[..taken]);
        self.done += taken;
        taken
    }
}

impl Source for MemSource {
    ghost use Rattle.std.specs.Prelude.{drop, Some};
    ghost use Rattle.outside.specs.Planned.{course_of};

    ghost count = { λ s. s.planned.faults.count };

    ghost course = { λ s. Some (course_of s.planned) };

    ghost tells = { λ _. Unit {0} };

    ghost left = { λ s. drop s.done s.bytes.items };

    fn faults(&self) -> u64 {
        self.planned.faults.count
    }

    fn read(&mut self, piece: &mut [u8]) -> Result<usize, SourceFault> {
        match self.planned.begin() {
            Fate::Acts => Ok(self.take_into(piece)),
            Fate::Fails => Err(SourceFault),
            Fate::ActsAndFails => {
                self.take_into(piece);
                Err(SourceFault)
            }
        }
    }
}

/// A sink in memory with room for so many bytes.
#[derive(Drop)]
pub struct MemSink {
    bytes: Vec<u8>,
    room: usize,
    planned: Planned,
    ghost within: { vec_len bytes ≤ room },
    ghost made: { room ≤ vec_capacity bytes },
}

impl MemSink {
    /// An empty sink with room for so many bytes. The edits of the plan mean nothing to it.
    pub fn new(alloc: Global, room: u64, plan: FaultPlan) -> Result<MemSink, NoMemory>
        ensures tells { IfOk result (λ s. ⟦<MemSink as Sink>⟧.tells s × (⟦<MemSink as Sink>⟧.held s ≡ [])) }
        ensures count { IfOk result (λ s. ⟦<MemSink as Sink>⟧.count s ≡ 0) }
        ensures course { IfOk result (λ s. ⟦<MemSink as Sink>⟧.course s ≡ Some (begun plan)) }
        ensures room { IfOk result (λ s. ⟦<MemSink as Sink>⟧.room s ≡ Some room) }
    {
        let room = room as usize;
        Ok(MemSink {
            bytes: Vec::with_capacity(alloc, room)?,
            room,
            planned: Planned::new(plan),
        })
    }

    /// All that was written. Takes no memory.
    pub fn bytes(&self) -> &[u8]
        ensures { result.now ≡ ⟦<MemSink as Sink>⟧.held self.now }
    {
        self.bytes.as_slice()
    }

    /// Whether no byte of a piece fits.
    fn is_full(&self, piece: &[u8]) -> bool
        ensures { result ≡ is_full (Some self.now.room) self.now.bytes.items piece.now }
    {
        self.bytes.len() >= self.room && !piece.is_empty()
    }

    /// Adds as many bytes of a piece as still fit, and gives how many.
    fn add(&mut self, piece: &[u8]) -> usize
        ensures taken { result ≡ min (length piece.now) (self.old.room - vec_len self.old.bytes) }
        ensures added { self.new.bytes.items ≡ self.old.bytes.items ++ take result piece.now }
        ensures planned { self.new.planned ≡ self.old.planned }
        ensures room { self.new.room ≡ self.old.room }
    {
        let taken = piece.len().min(self.room - self.bytes.len());
        self.bytes.extend_from_slice(&piece[..taken]).unwrap();
        taken
    }
}

impl Sink for MemSink {
    ghost use Rattle.std.specs.Prelude.{Some};
    ghost use Rattle.outside.specs.Planned.{course_of};

    ghost count = { λ s. s.planned.faults.count };

    ghost course = { λ s. Some (course_of s.planned) };

    ghost room = { λ s. Some s.room };

    ghost tells = { λ _. Unit {0} };

    ghost held = { λ s. s.bytes.items };

    fn faults(&self) -> u64 {
        self.planned.faults.count
    }

    fn write(&mut self, piece: &[u8]) -> Result<usize, SinkFault> {
        match self.planned.begin() {
            Fate::Acts => {
                if self.is_full(piece) {
                    self.planned.faults.raise();
                    return Err(SinkFault);
                }
                Ok(self.add(piece))
            }
            Fate::Fails => Err(SinkFault),
            Fate::ActsAndFails => {
                self.add(piece);
                Err(SinkFault)
            }
        }
    }
}
