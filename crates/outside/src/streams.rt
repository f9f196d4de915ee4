//! Sources and sinks of bytes.

ghost use Rattle.std.specs.Prelude.{◌≡◌, ◌≤◌, ◌<◌, ◌-◌, ◌^◌, ℕ, List, IsErr, IfOk, length};
ghost use Rattle.outside.specs.Causes.{Rose};
ghost use Rattle.outside.specs.Plans.{IsQuiet};
ghost use Rattle.outside.specs.StreamCalls.{WriteAllAnswer, HasRoom, GoesWell};

/// A source failed.
#[derive(Clone, Copy, Debug, PartialEq, Eq)]
pub struct SourceFault;

/// A sink failed.
#[derive(Clone, Copy, Debug, PartialEq, Eq)]
pub struct SinkFault;

/// Bytes that come in, once each, from the first to the last.
pub trait Source {
    ghost use Rattle.std.specs.Prelude.{Option};
    ghost use Rattle.outside.specs.Plans.{Course, GoesBy};
    ghost use Rattle.outside.specs.StreamCalls.{ReadAnswer};

    /// The count of faults.
    ghost count: { Self → ℕ };

    /// The plan by which its calls fail, and how many calls have begun, where that is told.
    ghost course: { Self → Option Course };

    /// Whether contracts can see the bytes that are left.
    ghost tells: { Self → Type 0 };

    /// The bytes that are left, where they are told.
    ghost left: { Self → List ℕ };

    fn faults(&self) -> u64
        ensures { result ≡ count self.now };

    /// Reads into the front of `piece`, and gives how many bytes: 0 for a piece with room only at
    /// the end. What stands behind them in `piece` is free. After a fault a front of what was left
    /// may be lost.
    fn read(&mut self, piece: &mut [u8]) -> Result<usize, SourceFault>
        ensures later { count self.old ≤ count self.new }
        ensures cause { IsErr result → Rose (count self.old) (count self.new) }
        ensures goes { GoesBy (course self.old) (course self.new) (count self.old) (count self.new) (IsErr result) }
        ensures fits { IfOk result (λ n. n ≤ length piece.old) }
        ensures told { tells self.old → tells self.new × ReadAnswer (left self.old) (left self.new) piece.old piece.new result };
}

/// Where bytes go.
pub trait Sink {
    ghost use Rattle.std.specs.Prelude.{Option};
    ghost use Rattle.outside.specs.Plans.{Course, GoesBeside};
    ghost use Rattle.outside.specs.StreamCalls.{WriteAnswer, is_full, TakesFitting};

    /// The count of faults.
    ghost count: { Self → ℕ };

    /// The plan by which its calls fail, and how many calls have begun, where that is told. A call that finds the
    /// sink full fails besides.
    ghost course: { Self → Option Course };

    /// How many bytes it can hold in all, where that is told.
    ghost room: { Self → Option ℕ };

    /// Whether contracts can see the bytes that it holds.
    ghost tells: { Self → Type 0 };

    /// The bytes that it holds, where they are told.
    ghost held: { Self → List ℕ };

    fn faults(&self) -> u64
        ensures { result ≡ count self.now };

    /// Writes a front of `piece`, and gives its length: at least 1 unless `piece` is empty. After a
    /// fault some front of `piece`, or nothing, is written.
    fn write(&mut self, piece: &[u8]) -> Result<usize, SinkFault>
        ensures later { count self.old ≤ count self.new }
        ensures cause { IsErr result → Rose (count self.old) (count self.new) }
        ensures goes { GoesBeside (is_full (room self.old) (held self.old) piece.now) (course self.old) (course self.new) (count self.old) (count self.new) (IsErr result) }
        ensures room { room self.new ≡ room self.old }
        ensures takes { TakesFitting (room self.old) (held self.old) piece.now result }
        ensures fits { IfOk result (λ n. n ≤ length piece.now) }
        ensures some { IfOk result (λ n. 0 < length piece.now → 0 < n) }
        ensures told { tells self.old → tells self.new × WriteAnswer (held self.old) (held self.new) piece.now result };
}

/// Writes all bytes. After a fault a front of them is written. It goes well where no fault is planned and there is
/// room. Takes no memory.
pub fn write_all<S: Sink>(out: &mut S, bytes: &[u8]) -> Result<(), SinkFault>
    ensures later { S.count out.old ≤ S.count out.new }
    ensures cause { IsErr result → Rose (S.count out.old) (S.count out.new) }
    ensures told { S.tells out.old → S.tells out.new × WriteAllAnswer (S.held out.old) (S.held out.new) bytes.now result }
    ensures room { S.room out.new ≡ S.room out.old }
    ensures well { S.tells out.old → IsQuiet (S.course out.old) → HasRoom (S.room out.old) (S.held out.old) bytes.now → S.count out.old < 2 ^ 64 - 1 → GoesWell (S.count out.old) (S.count out.new) (S.course out.new) result }
{
    let mut done = 0;
    while done < bytes.len() {
        let rest = &bytes[done..];
        match out.write(rest) {
            Ok(taken) => done += taken,
            Err(SinkFault) => return Err(SinkFault),
        }
    }
    Ok(())
}
