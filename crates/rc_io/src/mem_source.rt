ghost use Rattle.std.specs.Prelude.{◌≡◌, ◌<◌, ◌≤◌, [], Some, length, take, drop, min, IfOk, OnErr, IsErr, is_err};
ghost use Rattle.std.specs.Option.{ForSome, option_map};
ghost use Rattle.rc_base.specs.Counts.{Counted};
ghost use Rattle.rc_io.specs.Calls.{is_listed, after_turn};

use crate::calls::Calls;
use crate::failed::Failed;
use crate::source::Source;
use std::marker::Model;

/// Bytes in memory as a source. Each read gives as many as both sides have, and chosen calls fail.
#[derive(Drop)]
pub struct MemSource {
    bytes: Vec<u8>,
    at: usize,
    calls: Calls,
}

impl Model for MemSource {
    ghost use Rattle.std.specs.Prelude.{◌≤◌, length, drop};
    ghost use Rattle.rc_io.specs.Memory.{Feed};

    ghost Value = { Feed };

    ghost view = { λ s. record { left = drop s.at s.bytes.items; calls = s.calls } };

    ghost invariant = { λ s. s.at ≤ length s.bytes.items };
}

impl MemSource {
    /// A source of these bytes, of which the calls with these rising numbers fail, counted from 1. It takes no memory.
    pub fn new(bytes: Vec<u8>, fails: Vec<u64>) -> MemSource
        ensures { result ≡ record { left = bytes.items; calls = record { made = 0; fails = fails.items; faults = 0 } } }
    {
        MemSource {
            bytes,
            at: 0,
            calls: Calls::new(fails),
        }
    }
}

impl Source for MemSource {
    ghost left = { λ s. Some s.left };

    ghost faults = { λ s. s.calls.faults };

    fn read(&mut self, buf: &mut [u8]) -> Result<usize, Failed>
        requires { 0 < length buf.old }
        ensures within { IfOk result (λ n. n ≤ length buf.old) }
        ensures taken { IfOk result (λ n. ForSome (Some self.old.left) (λ bytes. (n ≤ length bytes) × (take n buf.new ≡ take n bytes))) }
        ensures left { IfOk result (λ n. Some self.new.left ≡ option_map (drop n) (Some self.old.left)) }
        ensures end { IfOk result (λ n. n ≡ 0 → ForSome (Some self.old.left) (λ bytes. bytes ≡ [])) }
        ensures failed { OnErr result (Some self.new.left ≡ Some self.old.left) }
        ensures cause { Counted self.old.calls.faults self.new.calls.faults (IsErr result) }

        // It fails exactly at the chosen calls, and else gives all that it can.
        ensures listed { is_err result ≡ is_listed self.old.calls }
        ensures counted { self.new.calls ≡ after_turn self.old.calls }
        ensures all { IfOk result (λ n. n ≡ min (length buf.old) (length self.old.left)) }
    {
        self.calls.turn()?;
        let count = copy_front(&self.bytes[self.at..], buf);
        self.at += count;
        Ok(count)
    }
}

// Copies from the front of the bytes as many as the buffer takes.
fn copy_front(bytes: &[u8], buf: &mut [u8]) -> usize
    ensures count { result ≡ min (length buf.old) (length bytes.now) }
    ensures copied { take result buf.new ≡ take result bytes.now }
{
    let count = buf.len().min(bytes.len());
    buf[..count].copy_from_slice(&bytes[..count]);
    count
}
