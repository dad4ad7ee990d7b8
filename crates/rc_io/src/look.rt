// What the bytes that are to be read say of the next line.
ghost use Rattle.std.specs.Prelude.{◌≡◌, ◌+◌, ◌<◌, ◌≤◌, ◌==◌, length, position, MatchOption};
ghost use Rattle.rc_io.specs.Limits as limits;
ghost use Rattle.rc_io.specs.Limits.{before_end};
ghost use Rattle.rc_io.specs.Ready.{Found, IsOpen};

use rc_base::LimitName;

// The most lines of an input, bytes of a line before its LF, and bytes of an input.
const LINES: u64 = 1_000_000;

const LINE: usize = 4_096;

const BYTES: u64 = 16_777_216;

#[derive(Clone, Copy)]
pub(crate) enum Ready {
    // The line with its LF has this many bytes.
    Line(usize),
    Limit(LimitName),
    // The input has ended.
    End,
}

// Looks at the bytes that come, of which the first `seen` have no LF. `lines` lines of `given` bytes stand before them.
// None where more bytes have to be seen.
pub(crate) fn look(lines: u64, given: u64, ahead: &[u8], seen: usize) -> Option<Ready>
    requires lines { lines ≤ 1000000 }
    requires given { given ≤ 16777216 }
    requires seen { seen ≤ before_end ahead.now }
    ensures { MatchOption result (IsOpen lines given ahead.now) (Found lines given ahead.now) }
{
    if ahead.is_empty() {
        return None;
    }
    let end = find_end(ahead, seen);
    let is_whole = end < ahead.len();
    let count = if is_whole { end + 1 } else { end };
    match limit_at(lines, given, end, count) {
        Some(which) => Some(Ready::Limit(which)),
        None if is_whole => Some(Ready::Line(count)),
        None => None,
    }
}

// The limit that is reached in a line, of which so many bytes are in sight before its LF and with it.
fn limit_at(lines: u64, given: u64, before: usize, count: usize) -> Option<LimitName>
    requires lines { lines ≤ 1000000 }
    requires given { given ≤ 16777216 }
    ensures { result ≡ limits.limit_at lines given before count }
{
    if lines == LINES {
        Some(LimitName::Lines)
    } else if before > LINE && given + LINE as u64 <= BYTES {
        Some(LimitName::Line)
    } else if count as u64 > BYTES - given {
        Some(LimitName::Bytes)
    } else {
        None
    }
}

// How many bytes stand before the first LF, or all where there is none. The first `seen` of them are known.
fn find_end(bytes: &[u8], seen: usize) -> usize
    requires { seen ≤ before_end bytes.now }
    ensures { result ≡ before_end bytes.now }
{
    match place_of_end(&bytes[seen..]) {
        Some(place) => seen + place,
        None => bytes.len(),
    }
}

// The place of the first LF.
fn place_of_end(bytes: &[u8]) -> Option<usize>
    ensures { result ≡ position (λ byte. byte == 10) bytes.now }
{
    bytes.iter().position(|byte| *byte == b'\n')
}
