ghost use Rattle.std.specs.Prelude.{◌≡◌, ◌≢◌, ◌↔◌, ◌++◌, ◌∷◌, [], ◌<◌, ◌≤◌, ◌⊎◌, ℕ, List, All, map, codes, string_bytes, vec_len, Some, None, IsTrue, IfNone, IfSome, length, sum_by, ◌+◌};
ghost use Rattle.rc_base.specs.Counts.{Counted, Rose};
ghost use Rattle.order_machine.specs.Machine.{Machine};
ghost use Rattle.world.specs.Fleet.{images_of};
ghost use Rattle.world.specs.World.{StandsFor};
ghost use Rattle.shell.specs.Text as text;
ghost use Rattle.shell.specs.Fleet.{IsFresh, Keeps};
ghost use Rattle.shell.specs.Ran.{Ran, Begins, IsClean, IsRead};
ghost use Rattle.rc_io.specs.Lines.{line_text};
ghost use Rattle.rc_io.specs.Limits.{limit_in};
ghost use Rattle.script_text.specs.Sentence.{Spells, IsBuilt};
ghost use Rattle.shell.specs.Reached.{Done, RunEnded, GoesOn, status_of};

use crate::kit::Kit;
use crate::lines::{
    WriteError, write_bad_line, write_limit, write_limited, write_lines, write_unbuilt, write_usage,
};
use disk_model::CrashDisk;
use events::Event;
use rc_io::{Host, LineReader, Next, Sink, Source};
use script_text::{ScriptError, read_event};
use std::alloc::Global;
use world::{World, WorldError};

/// Runs the command that the words name, over a source of its input, a sink for its output, nine disks in memory that were
/// never called and a host of disks in folders, and answers the status with which the program ends.
///
/// `world` reads a script from the source and writes its transcript: for every list of bytes that the source gives, the
/// transcript is one run of the order machine. Its events are done on the disks of the fleet, the first of which is that
/// of replica 0. However the run ends, each of these is promised:
///
/// | Of the disks | Promised |
/// |---|---|
/// | what they hold | once the world was booted, a write quorum of its configuration holds the order as far as it is acknowledged, each transaction in its place and with its operations, whatever a stop would leave of these disks then |
/// | how they failed | each disk has failed at least as often as the lines say `fault` of its replica |
/// | how they were called | each disk was armed and stopped as often, and the last time with that number, as the `arm` and `crash` that were answered `ok` say; where it is out of memory, that of the next line may count too |
///
/// Words that are no command leave the disks as they are.
///
/// | Status | Comes |
/// |---|---|
/// | 0 | the input was read to its end |
/// | 2 | the words are no command; the usage line is written |
/// | 3 | a bad line that reaches no limit, after the events of the lines before it, or an event that is not built, after its lines so far; `N stop 3` is written |
/// | 4 | the source failed; what was read of it is the lines that were done, and a part of the next one |
/// | 5 | the sink failed, which holds the first bytes of what was to be written: all lines of the events before the last one |
/// | 8 | out of memory |
/// | 9 | a limit is reached, in the line itself or by its event at the machine; `N stop 9 LIMIT` is written |
pub fn run<S: Source, K: Sink, M: CrashDisk, H: Host>(
    alloc: Global,
    words: &[String],
    source: &mut S,
    sink: &mut K,
    fleet: &mut Vec<M>,
    host: &mut H,
    kit: Kit,
) -> u8
    requires nine { vec_len fleet.old ≡ 9 }
    requires fresh { All (IsFresh M.images M.faults M.marks M.calls_left) fleet.old.items }

    // The words of a command: `world` alone.
    ensures words { result ≡ 2 → map string_bytes words.now ≢ codes "world" ∷ [] }
    ensures usage { map string_bytes words.now ≢ codes "world" ∷ [] → (result ≡ 2) ⊎ (result ≡ 5) }
    ensures usage_text { (held : List ℕ) → map string_bytes words.now ≢ codes "world" ∷ [] → K.holds sink.old ≡ Some held →
        (written : List ℕ) × (K.holds sink.new ≡ Some (held ++ written)) × Begins written text.usage × (result ≡ 2 → written ≡ text.usage) }

    // The transcript is one run of the order machine, whose events were done on the disks of the fleet.
    ensures ran { (input held : List ℕ) → map string_bytes words.now ≡ codes "world" ∷ [] → S.left source.old ≡ Some input → K.holds sink.old ≡ Some held →
        (unread written : List ℕ) × (S.left source.new ≡ Some unread) × (K.holds sink.new ≡ Some (held ++ written)) × (ran : Ran input result written)
        × Keeps M.images M.faults M.marks fleet.old.items fleet.new.items ran.steps ran.last ran.left result × IsRead result input ran.before unread }

    // An input without a bad line, within the limits and with no event that isn't built is done to its end, where neither the
    // source nor the sink fails.
    ensures complete { (input held : List ℕ) → map string_bytes words.now ≡ codes "world" ∷ [] → S.left source.old ≡ Some input → K.holds sink.old ≡ Some held →
        IsClean input → (Rose (S.faults source.old) (S.faults source.new) → ⊥) → (Rose (K.faults sink.old) (K.faults sink.new) → ⊥) → (result ≡ 0) ⊎ (result ≡ 8) }

    // A fault is answered only where one came.
    ensures source_fault { Counted (S.faults source.old) (S.faults source.new) (result ≡ 4) }
    ensures sink_fault { Counted (K.faults sink.old) (K.faults sink.new) (result ≡ 5) }

    // No other words call a disk.
    ensures idle { map string_bytes words.now ≢ codes "world" ∷ [] → fleet.new.items ≡ fleet.old.items }
    ensures folders { host.new ≡ host.old }
{
    let _ = host;
    let Kit {} = kit;
    if is_world(words) {
        run_world(alloc, source, sink, fleet)
    } else {
        match write_usage(sink) {
            Ok(()) => 2,
            Err(_) => 5,
        }
    }
}

// Whether the words are the command `world`.
fn is_world(words: &[String]) -> bool
    ensures { IsTrue result ↔ (map string_bytes words.now ≡ codes "world" ∷ []) }
{
    match words {
        [word] => word.as_str() == "world",
        _ => false,
    }
}

// Reads lines, does their events and prints them, one after the other.
fn run_world<S: Source, K: Sink, M: CrashDisk>(
    alloc: Global,
    source: &mut S,
    sink: &mut K,
    fleet: &mut Vec<M>,
) -> u8
    requires nine { vec_len fleet.old ≡ 9 }
    requires fresh { All (IsFresh M.images M.faults M.marks M.calls_left) fleet.old.items }
    ensures status { result ≢ 2 }
    ensures ran { (input held : List ℕ) → S.left source.old ≡ Some input → K.holds sink.old ≡ Some held →
        (unread : List ℕ) × (S.left source.new ≡ Some unread) × RunEnded M.images M.faults M.marks input held unread fleet.old.items fleet.new.items result (K.holds sink.new) }
    ensures source_fault { Counted (S.faults source.old) (S.faults source.new) (result ≡ 4) }
    ensures sink_fault { Counted (K.faults sink.old) (K.faults sink.new) (result ≡ 5) }
{
    let Ok(mut reader) = LineReader::new(alloc) else {
        return 8;
    };
    let Ok(mut world) = World::new(alloc) else {
        return 8;
    };
    loop {
        match reader.next(source) {
            Next::Line { number, bytes } => {
                if let Some(status) = do_line(
                    alloc,
                    &mut world,
                    sink,
                    fleet,
                    number,
                    bytes.as_slice(),
                ) {
                    return status;
                }
            }
            Next::End => return 0,
            Next::Limit { which, number } => {
                return ended(write_limit(alloc, sink, number, which), 9);
            }
            Next::Failed => return 4,
            Next::NoMemory => return 8,
        }
    }
}

// The status of a run whose last line was to be written: this one, but where the sink failed or it is out of memory.
fn ended(written: Result<(), WriteError>, status: u8) -> u8
    ensures { result ≡ status_of written status }
{
    match written {
        Ok(()) => status,
        Err(WriteError::Failed) => 5,
        Err(WriteError::NoMemory) => 8,
    }
}

// Does a line: its event, if it has one, and what that prints. Answers the status where the run ends with it.
fn do_line<K: Sink, M: CrashDisk>(
    alloc: Global,
    world: &mut World,
    sink: &mut K,
    fleet: &mut Vec<M>,
    number: u64,
    line: &[u8],
) -> Option<u8>
    requires nine { vec_len fleet.old ≡ 9 }
    requires rising { world.old.last < number }
    requires within { number ≤ 1000000 }
    requires stands { (m : Machine) × StandsFor world.old (images_of M.images fleet.old.items 0) m }
    ensures done { (input held holds : List ℕ) (before left : List (List ℕ)) (raw : List ℕ) (first : List M) → line.now ≡ line_text raw → number ≡ length before + 1 →
        limit_in (length before) (sum_by length before) raw ≡ None → Done M.images M.faults M.marks input held before (raw ∷ left) first fleet.old.items world.old holds → K.holds sink.old ≡ Some holds →
        GoesOn M.images M.faults M.marks input held (before ++ raw ∷ []) left first fleet.new.items world.new (K.holds sink.new) result }
    ensures last { IfNone result (world.new.last ≤ number) }
    ensures status { IfSome result (λ status. (status ≢ 0) × (status ≢ 2) × (status ≢ 4)) }
    ensures sink_fault { Counted (K.faults sink.old) (K.faults sink.new) (result ≡ Some 5) }
    ensures nine { vec_len fleet.new ≡ 9 }
    ensures stands { IfNone result ((m : Machine) × StandsFor world.new (images_of M.images fleet.new.items 0) m) }
{
    match read_event(alloc, line) {
        Ok(None) => None,
        Ok(Some(event)) => do_event(alloc, world, sink, fleet, number, &event),
        Err(ScriptError::BadLine) => Some(ended(write_bad_line(alloc, sink, number), 3)),
        Err(ScriptError::NoMemory) => Some(8),
    }
}

// Does an event and prints its lines. Answers the status where the run ends with it.
fn do_event<K: Sink, M: CrashDisk>(
    alloc: Global,
    world: &mut World,
    sink: &mut K,
    fleet: &mut Vec<M>,
    number: u64,
    event: &Event,
) -> Option<u8>
    requires nine { vec_len fleet.old ≡ 9 }
    requires built { IsBuilt event.now }
    requires rising { world.old.last < number }
    requires within { number ≤ 1000000 }
    requires stands { (m : Machine) × StandsFor world.old (images_of M.images fleet.old.items 0) m }
    ensures done { (input held holds : List ℕ) (before left : List (List ℕ)) (raw : List ℕ) (first : List M) → Spells (line_text raw) event.now → number ≡ length before + 1 →
        limit_in (length before) (sum_by length before) raw ≡ None → Done M.images M.faults M.marks input held before (raw ∷ left) first fleet.old.items world.old holds → K.holds sink.old ≡ Some holds →
        GoesOn M.images M.faults M.marks input held (before ++ raw ∷ []) left first fleet.new.items world.new (K.holds sink.new) result }
    ensures last { IfNone result (world.new.last ≡ number) }
    ensures status { IfSome result (λ status. (status ≢ 0) × (status ≢ 2) × (status ≢ 4)) }
    ensures sink_fault { Counted (K.faults sink.old) (K.faults sink.new) (result ≡ Some 5) }
    ensures nine { vec_len fleet.new ≡ 9 }
    ensures stands { IfNone result ((m : Machine) × StandsFor world.new (images_of M.images fleet.new.items 0) m) }
{
    let lines = match world.event(fleet, number, event) {
        Ok(lines) => lines,
        Err(WorldError::Limit { which, lines }) => {
            let written = write_limited(alloc, sink, number, lines.as_slice(), which);
            return Some(ended(written, 9));
        }
        Err(WorldError::Unbuilt { lines }) => {
            let written = write_unbuilt(alloc, sink, number, lines.as_slice());
            return Some(ended(written, 3));
        }
        Err(WorldError::NoMemory) => return Some(8),
    };
    match write_lines(alloc, sink, number, lines.as_slice()) {
        Ok(()) => None,
        Err(WriteError::Failed) => Some(5),
        Err(WriteError::NoMemory) => Some(8),
    }
}
