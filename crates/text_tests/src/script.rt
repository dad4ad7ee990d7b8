use coll_model::Kind;
use events::{Call, Event, KeyCall};
use script_text::words::epoch;
use script_text::{ScriptError, read_event};
use std::alloc::Global;
use std::process::Abort;
use std::test::*;

// The words of each sentence are its event's fields, in order. What the other sentences do is told by the cases.
#[test]
fn words_are_fields(rt: HostRuntime) -> Result<(), Fail> {
    let set = read_event(rt.alloc(), b"set 0 0.4294967295.7 a_z-0 aZ/09_.- Az.1")?;
    assert!(rt;
        matches!(&set, Some(Event::Client(r, Call::OnKey(t, name, key, KeyCall::Set(value)))) if r.number() == 0
        && (t.epoch.loss, t.epoch.number, t.n) == (0, 4294967295, 7) && name.as_slice() == b"a_z-0".as_slice()
        && key.as_slice() == b"aZ/09_.-".as_slice() && value.as_slice() == b"Az.1".as_slice())
    );
    Ok(())
}

#[test]
fn kinds_are_read(rt: HostRuntime) -> Result<(), Fail> {
    let make = read_event(rt.alloc(), b"make 0 0.1.1 d dict")?;
    assert!(rt; matches!(&make, Some(Event::Client(_, Call::Make(_, _, Kind::Dict)))));
    Ok(())
}

// Whether the word is this epoch.
fn is_epoch(alloc: Global, word: &str, loss: u32, number: u32) -> Result<bool, Fail> {
    let read = epoch(alloc, word.as_bytes())?;
    Ok(matches!(&read, Some(e) if e.loss == loss && e.number == number))
}

#[test]
fn epochs_of_any_loss(rt: HostRuntime) -> Result<(), Fail> {
    for (word, loss, number) in [("0.0", 0, 0), ("4294967295.20", 4294967295, 20)] {
        assert!(rt; is_epoch(rt.alloc(), word, loss, number)?, "{word}");
    }
    Ok(())
}

fn is_bad(rt: &impl Abort, alloc: Global, line: &str) {
    let read = read_event(alloc, line.as_bytes());
    assert!(rt; matches!(read, Err(ScriptError::BadLine)), "{line}");
}

// A CR or a NUL within a line, as no script's line can end.
#[test]
fn ends_within_a_line(rt: HostRuntime) {
    for line in ["begin 0\r", "begin 0\0", "begin 0\n", "begin 0\nbegin 0"] {
        is_bad(&rt, rt.alloc(), line);
    }
}
