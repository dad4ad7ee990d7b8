// The bytes that a reader took from its source and hasn't used.
ghost use Rattle.std.specs.Prelude.{◌≡◌, ◌+◌, ◌-◌, ◌<◌, ◌≤◌, [], List, ℕ, length, take, drop, IfOk, OnErr, IsErr};
ghost use Rattle.std.specs.Option.{ForSome};
ghost use Rattle.rc_base.specs.Counts.{Counted};
ghost use Rattle.rc_io.specs.Window.{Takes};

use crate::failed::Failed;
use crate::source::Source;
use rc_base::NoMemory;
use std::alloc::Global;
use std::marker::Model;

// How many bytes it asks its source for at most, when it holds none.
const SIZE: usize = 65_536;

// The part of a buffer from `at` to `end`.
#[derive(Drop)]
pub(crate) struct Window {
    bytes: Vec<u8>,
    at: usize,
    end: usize,
}

impl Model for Window {
    ghost use Rattle.std.specs.Prelude.{◌≡◌, ◌≤◌, List, ℕ, length, take, drop};

    ghost Value = { List ℕ };

    ghost view = { λ w. drop w.at (take w.end w.bytes.items) };

    ghost invariant = { λ w. (w.at ≤ w.end) × (w.end ≤ length w.bytes.items) × (length w.bytes.items ≡ 65536) };
}

impl Window {
    pub(crate) fn new(alloc: Global) -> Result<Window, NoMemory>
        ensures { IfOk result (λ w. w ≡ []) }
    {
        Ok(Window {
            bytes: vec![in alloc; 0; SIZE]?,
            at: 0,
            end: 0,
        })
    }

    pub(crate) fn as_slice(&self) -> &[u8]
        ensures value { result.now ≡ self.now }
        ensures fits { length self.now ≤ 65536 }
    {
        &self.bytes[self.at..self.end]
    }

    // Drops bytes from its front.
    pub(crate) fn skip(&mut self, count: usize)
        requires { count ≤ length self.old }
        ensures { self.new ≡ drop count self.old }
    {
        self.at += count;
    }

    // Takes a piece from the source to its end, and answers how many bytes these are: none only where the input ends.
    pub(crate) fn fill<S: Source>(&mut self, source: &mut S) -> Result<usize, Failed>
        requires { length self.old < 65536 }
        ensures grows { IfOk result (λ n. length self.new ≡ length self.old + n) }
        ensures front { take (length self.old) self.new ≡ self.old }
        ensures told { IfOk result (λ n. ForSome (S.left source.old) (λ bytes. Takes n bytes (S.left source.new) self.old self.new)) }
        ensures failed { OnErr result ((self.new ≡ self.old) × (S.left source.new ≡ S.left source.old)) }
        ensures cause { Counted (S.faults source.old) (S.faults source.new) (IsErr result) }
    {
        if self.end == self.bytes.len() {
            move_to_front(&mut self.bytes, self.at, self.end);
            self.end -= self.at;
            self.at = 0;
        }
        let n = read_behind(source, &mut self.bytes, self.end)?;
        self.end += n;
        Ok(n)
    }
}

// Moves the part of a buffer from `at` to `end` to its front.
fn move_to_front(bytes: &mut [u8], at: usize, end: usize)
    requires order { at ≤ end }
    requires within { end ≤ length bytes.old }
    ensures { take (end - at) bytes.new ≡ drop at (take end bytes.old) }
{
    bytes.copy_within(at..end, 0);
}

// Reads a piece into a buffer, behind its first `end` bytes.
fn read_behind<S: Source>(source: &mut S, bytes: &mut [u8], end: usize) -> Result<usize, Failed>
    requires { end < length bytes.old }
    ensures within { IfOk result (λ n. end + n ≤ length bytes.old) }
    ensures front { take end bytes.new ≡ take end bytes.old }
    ensures told { IfOk result (λ n. ForSome (S.left source.old) (λ xs. Takes n xs (S.left source.new) (take end bytes.old) (take (end + n) bytes.new))) }
    ensures failed { OnErr result (S.left source.new ≡ S.left source.old) }
    ensures cause { Counted (S.faults source.old) (S.faults source.new) (IsErr result) }
{
    source.read(&mut bytes[end..])
}
