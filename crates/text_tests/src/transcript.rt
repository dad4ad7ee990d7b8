use log_records::CodecError;
use order_machine::{Observation, Observations};
use rc_base::ReplicaId;
use std::alloc::Global;
use std::process::Abort;
use std::test::*;
use transcript_text::{print, read_obs};

// The variant of a line.
fn variant(observation: &Observation) -> &'static str {
    match observation {
        Observation::Up(_) => "Up",
        Observation::Order(..) => "Order",
        Observation::View(..) => "View",
        Observation::Active(_) => "Active",
        Observation::Committed(_) => "Committed",
        Observation::Txn(_) => "Txn",
        Observation::Done => "Done",
        Observation::Refused(_) => "Refused",
        Observation::Down(_) => "Down",
        Observation::NotActive(_) => "NotActive",
        Observation::Ended(_) => "Ended",
        Observation::Locked(_) => "Locked",
        Observation::True => "True",
        Observation::False => "False",
        Observation::Value(_) => "Value",
        Observation::Missing => "Missing",
        Observation::Absent => "Absent",
        Observation::WrongKind => "WrongKind",
        Observation::Fault(_) => "Fault",
        Observation::IgnoredUp => "IgnoredUp",
        Observation::IgnoredOldEpoch(..) => "IgnoredOldEpoch",
        Observation::Progress(..) => "Progress",
        Observation::State(..) => "State",
        Observation::Rows(_) => "Rows",
    }
}

// The line is read as this variant, and printed so again.
fn is_line(rt: &impl Abort, alloc: Global, line: &str, wanted: &str) -> Result<(), Fail> {
    let (number, read) = read_obs(alloc, line.as_bytes())?;
    assert_eq!(rt; variant(&read), wanted, "{line}");
    let mut again = Vec::new(alloc);
    print(number, &read, &mut again)?;
    assert_eq!(rt; again.as_slice(), line.as_bytes(), "{line}");
    Ok(())
}

#[test]
fn each_form(rt: HostRuntime) -> Result<(), Fail> {
    let forms = [
        ("1 up 8", "Up"),
        ("1000000 view 0 12", "View"),
        ("1 active 0", "Active"),
        ("1 committed 0.1.10", "Committed"),
        ("1 txn 0.1.2", "Txn"),
        ("1 ok", "Done"),
        ("1 refused 9", "Refused"),
        ("1 down 1", "Down"),
        ("1 notactive 1", "NotActive"),
        ("1 ended 0.1.2", "Ended"),
        ("1 locked 0.1.3", "Locked"),
        ("1 true", "True"),
        ("1 false", "False"),
        ("1 value v", "Value"),
        ("1 none", "Missing"),
        ("1 absent", "Absent"),
        ("1 wrongkind", "WrongKind"),
        ("1 fault 3", "Fault"),
        ("1 ignored up", "IgnoredUp"),
        ("1 ignored oldepoch 1.0 0.10", "IgnoredOldEpoch"),
        ("1 progress 2 0.4294967295 18446744073709551615", "Progress"),
        ("1 state 0 1", "State"),
        ("1 rows d dict k=v", "Rows"),
        ("1 rows q queue v w", "Rows"),
        ("18446744073709551615 order 0.1.1", "Order"),
        (
            "1 order 0.1.1 make:d:dict make:d:queue put:d:k:v del:d:k push:d:v pop:d drop:d",
            "Order",
        ),
    ];
    for (line, form) in forms {
        is_line(&rt, rt.alloc(), line, form)?;
    }
    Ok(())
}

fn printed(alloc: Global, observations: &[Observation]) -> Result<Vec<u8>, Fail> {
    let mut out = Vec::new(alloc);
    for observation in observations {
        print(1, observation, &mut out)?;
        out.push(b'\n')?;
    }
    Ok(out)
}

// A line comes after what was printed before.
#[test]
fn a_line_after_another(rt: HostRuntime) -> Result<(), Fail> {
    let zero = ReplicaId::new(0).ok_or("a replica is below 9")?;
    let mut observations = Observations::new(rt.alloc());
    observations.push(Observation::Active(zero))?;
    observations.push(Observation::Done)?;
    let out = printed(rt.alloc(), observations.as_slice())?;
    assert_eq!(rt; out.as_slice(), b"1 active 0\n1 ok\n".as_slice());
    Ok(())
}

// No proper beginning of the line is a line.
fn has_no_beginning(rt: &impl Abort, alloc: Global, line: &str) {
    for end in 0..line.len() {
        let read = read_obs(alloc, &line.as_bytes()[..end]);
        assert!(rt; matches!(read, Err(CodecError::Bad { .. })), "{line}");
    }
}

#[test]
fn beginnings_of_lines(rt: HostRuntime) {
    let lines = [
        "1000000 committed 0.1.1",
        "10 state 8 1",
        "2 ignored up",
        "2 ignored oldepoch 0.2 0.1",
        "2 progress 0 0.1 9",
        "3 wrongkind",
    ];
    for line in lines {
        has_no_beginning(&rt, rt.alloc(), line);
    }
}

// The line isn't one, and its first wrong word begins at this place.
fn is_bad_at(rt: &impl Abort, alloc: Global, line: &str, place: u64) {
    let read = read_obs(alloc, line.as_bytes());
    assert!(rt;
        matches!(read, Err(CodecError::Bad { at }) if at == place),
        "{line}"
    );
}

#[test]
fn places_of_wrong_words(rt: HostRuntime) {
    let lines = [
        ("", 0),
        ("ok", 0),
        ("01 ok", 0),
        ("18446744073709551616 ok", 0),
        ("7", 1),
        ("7 ", 2),
        ("7  ok", 2),
        ("7 Ok", 2),
        ("7 ok\n", 2),
        ("7 ok ", 5),
        ("7 ok 7", 5),
        ("7 up", 4),
        ("7 up 9", 5),
        ("7 up 00", 5),
        ("7 up 0 0", 7),
        ("7 view 0 +1", 9),
        ("7 refused 256", 10),
        ("7 committed 0.1", 12),
        ("7 committed 4294967296.1.1", 12),
        ("7 value", 7),
        ("7 value k=v", 8),
        ("7 rows d k=v=w", 9),
        ("7 ignored", 9),
        ("7 ignored down", 10),
        ("7 ignored up 0.1", 13),
        ("7 ignored oldepoch", 18),
        ("1 ignored oldepoch 0.2", 22),
        ("1 ignored oldepoch 0.02 0.1", 19),
        ("1 ignored oldepoch 0.2 0.1.1", 23),
        ("1 ignored oldepoch 0.2 0.1 0.1", 27),
        ("1 progress 0 0.1", 16),
        ("1 progress 0 0 1", 13),
        ("1 progress 9 0.1 1", 11),
        ("1 progress 0 0.1 01", 17),
        ("1 progress 0 0.1 1 1", 19),
        ("1 locked 0.1", 9),
        ("1 locked 0.1.1 0", 15),
        ("7 order 0.1.1 push:d:v pop:D", 23),
        ("7 order 0.1.1 make:d:list", 14),
    ];
    for (line, place) in lines {
        is_bad_at(&rt, rt.alloc(), line, place);
    }
}
