ghost use Rattle.std.specs.Prelude.{◌≡◌, ◌+◌, ◌<◌, ◌≤◌, ◌++◌, [], Some, List, ℕ, length, drop, IfOk, OnOk, OnErr, IsErr, MatchOption};
ghost use Rattle.rc_base.specs.Counts.{Counted};
ghost use Rattle.std.specs.Str.Lines.{strip_carriage_return};
ghost use Rattle.rc_io.specs.Lines.{line_text};
ghost use Rattle.rc_io.specs.Limits.{before_end};
ghost use Rattle.rc_io.specs.Ready as ready;

use crate::failed::Failed;
use crate::look::{Ready, look};
use crate::source::Source;
use crate::window::Window;
use rc_base::{Bytes, LimitName, NoMemory};
use std::alloc::Global;
use std::marker::Model;

/// Cuts what a source gives into lines. An LF ends a line, and a CR right before it is dropped; the last line may lack
/// its LF, and a CR at its end stays then.
#[derive(Drop)]
pub struct LineReader {
    alloc: Global,
    window: Window,
    lines: u64,
    given: u64,
}

impl Model for LineReader {
    ghost use Rattle.std.specs.Prelude.{ℕ, ◌≤◌};
    ghost use Rattle.rc_io.specs.Reader.{Reading};

    ghost Value = { Reading };

    ghost view = { λ r. record { ahead = r.window; lines = r.lines; given = r.given } };

    ghost invariant = { λ r. (r.lines ≤ 1000000) × (r.given ≤ 16777216) };
}

/// What a reader of lines answers.
#[derive(Drop)]
pub enum Next {
    /// The next line, by its number from 1 on, without its end.
    Line { number: u64, bytes: Bytes },
    /// The input was read to its end.
    End,
    /// A limit is reached in the line of this number: `Lines` at the first byte of line 1,000,001, `Line` at byte 4,097
    /// of a line before its LF, `Bytes` at byte 16,777,217 of the input; where one byte reaches two, in this order.
    Limit { which: LimitName, number: u64 },
    /// The source failed.
    Failed,
    /// Want of memory.
    NoMemory,
}

impl LineReader {
    ghost use Rattle.std.specs.Prelude.{◌≡◌, ◌+◌, ◌<◌, ◌≤◌, ◌++◌, [], Some, None, List, ℕ, length, take, drop, IfOk, OnOk, OnErr, IsErr, MatchOption};
    ghost use Rattle.std.specs.Option.{ForSome};
    ghost use Rattle.rc_base.specs.Counts.{Counted};
    ghost use Rattle.rc_io.specs.Limits.{before_end};
    ghost use Rattle.rc_io.specs.Ready.{Found, IsOpen, Holds, HoldsLine, Is};
    ghost use Rattle.rc_io.specs.Window.{Takes};
    ghost use Rattle.rc_io.specs.Reading.{Answers, Numbers, Gives};
    ghost use Rattle.rc_io.specs.declared.line_reader.Next.TheVariants.{Failed as FailedNext};

    /// A reader at the beginning of an input.
    ///
    /// # Errors
    /// `NoMemory` for want of memory alone.
    pub fn new(alloc: Global) -> Result<LineReader, NoMemory>
        ensures { IfOk result (λ r. r ≡ record { ahead = []; lines = 0; given = 0 }) }
    {
        Ok(LineReader {
            alloc,
            window: Window::new(alloc)?,
            lines: 0,
            given: 0,
        })
    }

    /// The next line of the source, which is read in pieces of up to 65,536 bytes, no more of them than are needed.
    ///
    /// After `Limit`, `Failed` or `NoMemory` the owner drops the reader.
    pub fn next<S: Source>(&mut self, source: &mut S) -> Next
        ensures told { (rest : List ℕ) → S.left source.old ≡ Some rest → (rest' : List ℕ) × (S.left source.new ≡ Some rest') × Answers self.old (self.old.ahead ++ rest) self.new (self.new.ahead ++ rest') result }
        ensures numbers { Numbers self.old self.new result }
        ensures cause { Counted (S.faults source.old) (S.faults source.new) (result ≡ FailedNext) }
    {
        match self.seek(source) {
            Ok(Ready::Line(count)) => self.give(count),
            Ok(Ready::Limit(which)) => Next::Limit {
                which,
                number: self.lines() + 1,
            },
            Ok(Ready::End) => Next::End,
            Err(Failed) => Next::Failed,
        }
    }

    // Reads on until the next line stands in the window, or a limit or the end is reached.
    fn seek<S: Source>(&mut self, source: &mut S) -> Result<Ready, Failed>
        ensures told { (rest : List ℕ) → S.left source.old ≡ Some rest → (rest' : List ℕ) × (S.left source.new ≡ Some rest') × (self.new.ahead ++ rest' ≡ self.old.ahead ++ rest) × IfOk result (Is self.old.lines self.old.given self.new.ahead rest') }
        ensures holds { IfOk result (Holds self.old.lines self.old.given self.new.ahead) }
        ensures no_end { OnErr result (before_end self.new.ahead ≡ length self.new.ahead) }
        ensures lines { self.new.lines ≡ self.old.lines }
        ensures given { self.new.given ≡ self.old.given }
        ensures cause { Counted (S.faults source.old) (S.faults source.new) (IsErr result) }
    {
        let mut seen = 0;
        'reading: loop {
            if let Some(ready) = self.look(seen) {
                return Ok(ready);
            }
            seen = self.held();
            let count = self.fill(source)?;
            if count == 0 {
                return Ok(at_end(seen));
            }
        }
    }

    // What is seen in the window, where its first `seen` bytes have no LF.
    fn look(&self, seen: usize) -> Option<Ready>
        requires { seen ≤ before_end self.now.ahead }
        ensures { MatchOption result (IsOpen self.now.lines self.now.given self.now.ahead) (Found self.now.lines self.now.given self.now.ahead) }
    {
        look(self.lines, self.given, self.window.as_slice(), seen)
    }

    // How many bytes it holds.
    fn held(&self) -> usize
        ensures { result ≡ length self.now.ahead }
    {
        self.window.as_slice().len()
    }

    // How many lines it gave.
    fn lines(&self) -> u64
        ensures lines { result ≡ self.now.lines }
        ensures within { result ≤ 1000000 }
    {
        self.lines
    }

    // Takes a piece from the source, and answers how many bytes these are: none only where the input ends.
    fn fill<S: Source>(&mut self, source: &mut S) -> Result<usize, Failed>
        requires { length self.old.ahead < 65536 }
        ensures grows { IfOk result (λ n. length self.new.ahead ≡ length self.old.ahead + n) }
        ensures front { take (length self.old.ahead) self.new.ahead ≡ self.old.ahead }
        ensures told { IfOk result (λ n. ForSome (S.left source.old) (λ bytes. Takes n bytes (S.left source.new) self.old.ahead self.new.ahead)) }
        ensures failed { OnErr result ((self.new.ahead ≡ self.old.ahead) × (S.left source.new ≡ S.left source.old)) }
        ensures lines { self.new.lines ≡ self.old.lines }
        ensures given { self.new.given ≡ self.old.given }
        ensures cause { Counted (S.faults source.old) (S.faults source.new) (IsErr result) }
    {
        self.window.fill(source)
    }

    // Gives the line that stands in the window.
    fn give(&mut self, count: usize) -> Next
        requires { HoldsLine self.old.lines self.old.given self.old.ahead count }
        ensures { Gives self.old count self.new result }
    {
        let raw = &self.window.as_slice()[..count];
        let Ok(bytes) = Bytes::from_slice(self.alloc, text_of(raw)) else {
            return Next::NoMemory;
        };
        self.window.skip(count);
        self.lines += 1;
        self.given += count as u64;
        Next::Line {
            number: self.lines,
            bytes,
        }
    }
}

// What is found at the end of the input, where so many bytes are held and no LF is among them.
fn at_end(held: usize) -> Ready
    ensures { result ≡ ready.at_end held }
{
    if held == 0 {
        Ready::End
    } else {
        Ready::Line(held)
    }
}

// The line without its end.
#[tactic(auto, unfolding(crate::specs::Lines::line_text))]
fn text_of(raw: &[u8]) -> &[u8]
    ensures { result.now ≡ line_text raw.now }
{
    match raw.split_last() {
        Some((b'\n', line)) => without_cr(line),
        _ => raw,
    }
}

// The bytes without a CR at their end.
fn without_cr(line: &[u8]) -> &[u8]
    ensures { result.now ≡ strip_carriage_return line.now }
{
    match line.split_last() {
        Some((b'\r', text)) => text,
        _ => line,
    }
}
