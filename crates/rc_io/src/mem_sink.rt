ghost use Rattle.std.specs.Prelude.{◌≡◌, ◌<◌, ◌≤◌, [], Some, None, Option, length, take, IfOk, OnErr, IsErr, is_err, true};
ghost use Rattle.std.specs.Io.KnownBytes.{append_known};
ghost use Rattle.rc_base.specs.Counts.{Counted};
ghost use Rattle.rc_io.specs.Calls.{is_listed, counted_up};
ghost use Rattle.rc_io.specs.Memory as fits;

use crate::calls::Calls;
use crate::failed::Failed;
use crate::sink::Sink;
use std::alloc::Global;
use std::marker::Model;

/// A sink in memory. It takes bytes up to a number, of a piece that passes it only a part, and each call past it
/// fails; chosen calls fail too, and so does one that finds no memory.
#[derive(Drop)]
pub struct MemSink {
    bytes: Vec<u8>,
    room: Option<u64>,
    calls: Calls,
}

impl Model for MemSink {
    ghost use Rattle.rc_io.specs.Memory.{Tank};

    ghost Value = { Tank };

    ghost view = { λ s. record { holds = s.bytes.items; room = s.room; calls = s.calls } };
}

impl MemSink {
    /// An empty sink that takes bytes up to this number, or with no bound, and of which the calls with these rising
    /// numbers fail, counted from 1. It takes no memory.
    pub fn new(alloc: Global, room: Option<u64>, fails: Vec<u64>) -> MemSink
        ensures { result ≡ record { holds = []; room = room; calls = record { made = 0; fails = fails.items; faults = 0 } } }
    {
        MemSink {
            bytes: Vec::new(alloc),
            room,
            calls: Calls::new(fails),
        }
    }

    /// What was written.
    pub fn bytes(&self) -> &[u8]
        ensures { result.now ≡ self.now.holds }
    {
        &self.bytes
    }
}

impl Sink for MemSink {
    ghost holds = { λ s. Some s.holds };

    ghost faults = { λ s. s.calls.faults };

    fn write(&mut self, piece: &[u8]) -> Result<usize, Failed>
        ensures within { IfOk result (λ n. n ≤ length piece.now) }
        ensures progress { IfOk result (λ n. 0 < length piece.now → 0 < n) }
        ensures added { IfOk result (λ n. Some self.new.holds ≡ append_known (Some self.old.holds) (take n piece.now)) }
        ensures failed { OnErr result (Some self.new.holds ≡ Some self.old.holds) }
        ensures cause { Counted self.old.calls.faults self.new.calls.faults (IsErr result) }

        // It fails at the chosen calls, and else takes all that fits.
        ensures listed { is_listed self.old.calls ≡ true → IsErr result }
        ensures all { IfOk result (λ n. n ≡ fits.fitting self.old.room (length self.old.holds) (length piece.now)) }
        ensures stays { (self.new.room ≡ self.old.room) × (self.new.calls.fails ≡ self.old.calls.fails) × (self.new.calls.made ≡ counted_up self.old.calls.made) }
    {
        self.calls.turn()?;
        let count = fitting(self.room, self.bytes.len(), piece.len());
        if count == 0 && !piece.is_empty() {
            return Err(self.calls.fault());
        }
        match self.bytes.extend_from_slice(&piece[..count]) {
            Ok(()) => Ok(count),
            Err(_) => Err(self.calls.fault()),
        }
    }
}

// How many of so many bytes fit, where `held` are held.
fn fitting(room: Option<u64>, held: usize, count: usize) -> usize
    ensures { result ≡ fits.fitting room held count }
{
    match room {
        None => count,
        Some(room) => count.min((room as usize).saturating_sub(held)),
    }
}
