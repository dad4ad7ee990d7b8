use config_rule::{Appointment, Broken, Rule, RuleError};
use rc_base::{Epoch, Lsn, Members, ReplicaId};
use std::alloc::Global;
use std::process::Abort;
use std::test::*;

// Numbers of replicas.
type Numbers = &'static [u8];

const TRIO: Numbers = &[0, 1, 2];

// An epoch is 0 and the number, and a part is 0 where none is broken.
#[derive(Clone, Copy)]
enum Step {
    // Whether a survey of the epoch may be asked.
    Survey(u32, bool),
    // A replica answers a survey of the epoch, with the epoch and the place of its last record.
    Answer(u32, u8, u32, u64),
    // The primary is up, and with these members its appointment to the epoch breaks this part.
    Appoint(u32, u8, Numbers, u8),
    // The same, of a primary that is down.
    AppointDown(u32, u8, Numbers, u8),
    // The appointment is lawful, and this is its previous configuration.
    Replace(u32, u8, Numbers, Numbers),
    // The primary of the epoch is active.
    Active(u32),
    // The activation of the epoch breaks this part.
    Activate(u32, u8),
}

fn epoch(number: u32) -> Epoch {
    Epoch { loss: 0, number }
}

fn replica(number: u8) -> Result<ReplicaId, Fail> {
    Ok(ReplicaId::new(number).ok_or("a replica is below 9")?)
}

fn replicas(alloc: Global, numbers: &[u8]) -> Result<Vec<ReplicaId>, Fail> {
    let mut ids = Vec::new(alloc);
    for number in numbers {
        ids.push(replica(*number)?)?;
    }
    Ok(ids)
}

fn has_numbers(members: &Members, numbers: &[u8]) -> bool {
    let ids = members.as_slice();
    ids.len() == numbers.len()
        && ids
            .iter()
            .zip(numbers)
            .all(|(id, number)| id.number() == *number)
}

fn rule_of(alloc: Global, first: &[u8]) -> Result<Rule, Fail> {
    let ids = replicas(alloc, first)?;
    let members = Members::from_slice(alloc, &ids)?;
    if members.is_empty() {
        return Err("a configuration has members")?;
    }
    Ok(Rule::new(alloc, &members)?)
}

// The part that a call breaks, or 0.
fn part_of(answer: Result<Appointment, RuleError>) -> u8 {
    match answer {
        Ok(_) => 0,
        Err(RuleError::Broken(broken)) => broken.part,
        Err(RuleError::NoMemory) => 99,
    }
}

fn appoint(
    alloc: Global,
    rule: &mut Rule,
    number: u32,
    primary: u8,
    members: &[u8],
    up: bool,
) -> Result<u8, Fail> {
    let primary = replica(primary)?;
    let members = replicas(alloc, members)?;
    Ok(part_of(rule.appoint(epoch(number), primary, &members, up)))
}

// Whether the appointment is lawful and tells both configurations.
fn replace(
    alloc: Global,
    rule: &mut Rule,
    number: u32,
    primary: u8,
    members: &[u8],
    previous: &[u8],
) -> Result<bool, Fail> {
    let primary = replica(primary)?;
    let ids = replicas(alloc, members)?;
    let told = rule.appoint(epoch(number), primary, &ids, true)?;
    Ok(
        told.epoch == epoch(number)
            && told.primary == primary
            && has_numbers(&told.pc, previous)
            && has_numbers(&told.cc, members),
    )
}

fn activate(rule: &mut Rule, number: u32) -> u8 {
    match rule.activate(epoch(number)) {
        Ok(()) => 0,
        Err(broken) => broken.part,
    }
}

fn play(rt: &impl Abort, alloc: Global, rule: &mut Rule, step: Step) -> Result<(), Fail> {
    match step {
        Step::Survey(number, ok) => assert_eq!(rt; rule.survey_ok(epoch(number)), ok),
        Step::Answer(number, from, last_epoch, last) => {
            rule.note_answer(epoch(number), replica(from)?, epoch(last_epoch), Lsn(last))?;
        }
        Step::Appoint(number, primary, members, part) => {
            assert_eq!(rt; appoint(alloc, rule, number, primary, members, true)?, part);
        }
        Step::AppointDown(number, primary, members, part) => {
            assert_eq!(rt;
                appoint(alloc, rule, number, primary, members, false)?,
                part
            );
        }
        Step::Replace(number, primary, members, previous) => {
            assert!(rt; replace(alloc, rule, number, primary, members, previous)?);
        }
        Step::Active(number) => rule.note_active(epoch(number)),
        Step::Activate(number, part) => assert_eq!(rt; activate(rule, number), part),
    }
    Ok(())
}

// What happens after a boot with these members.
fn run(rt: &impl Abort, alloc: Global, first: &[u8], steps: &[Step]) -> Result<(), Fail> {
    let mut rule = rule_of(alloc, first)?;
    for step in steps {
        play(rt, alloc, &mut rule, *step)?;
    }
    Ok(())
}

const REFUSED_APPOINTMENTS: &[Step] = &[
    Step::Survey(2, true),
    Step::Survey(1, false),
    Step::Answer(2, 1, 1, 7),
    Step::Appoint(2, 1, TRIO, 3),
    Step::Answer(2, 0, 1, 10),
    Step::Appoint(2, 1, TRIO, 5),
    Step::Appoint(1, 0, TRIO, 1),
    Step::Appoint(2, 0, &[1, 2], 2),
    Step::Appoint(2, 2, TRIO, 4),
    Step::Activate(2, 7),
];

const A_PRIMARY_THAT_IS_DOWN: &[Step] = &[
    Step::Answer(2, 0, 1, 7),
    Step::Answer(2, 1, 1, 7),
    Step::AppointDown(2, 0, TRIO, 6),
];

const THE_LEAST_PART_IS_NAMED: &[Step] = &[
    Step::Appoint(1, 2, &[0, 1, 0], 1),
    Step::Appoint(2, 0, &[0, 1, 0], 2),
    Step::Appoint(2, 0, &[], 2),
    Step::Appoint(2, 0, TRIO, 3),
];

const A_LATER_SURVEY_WAS_ANSWERED: &[Step] = &[
    Step::Answer(2, 0, 1, 7),
    Step::Answer(2, 1, 1, 7),
    Step::Answer(3, 0, 1, 7),
    Step::Appoint(2, 0, TRIO, 4),
    Step::Appoint(2, 1, TRIO, 0),
];

const A_LATER_ANSWER_REPLACES: &[Step] = &[
    Step::Answer(2, 0, 1, 10),
    Step::Answer(2, 1, 1, 7),
    Step::Appoint(2, 1, TRIO, 5),
    Step::Answer(2, 1, 1, 10),
    Step::Appoint(2, 1, TRIO, 0),
];

const EPOCHS_GO_BEFORE_PLACES: &[Step] = &[
    Step::Answer(3, 0, 1, 10),
    Step::Answer(3, 1, 2, 4),
    Step::Appoint(3, 0, TRIO, 5),
    Step::Appoint(3, 1, TRIO, 0),
];

const ACTIVATIONS: &[Step] = &[
    Step::Answer(2, 0, 1, 7),
    Step::Answer(2, 1, 1, 7),
    Step::Appoint(2, 0, TRIO, 0),
    Step::Activate(1, 7),
    Step::Activate(2, 8),
    Step::Active(2),
    Step::Activate(2, 0),
    Step::Activate(2, 0),
];

const THE_BOOT_IS_ACTIVATED_AGAIN: &[Step] = &[
    Step::Activate(1, 8),
    Step::Active(1),
    Step::Activate(1, 0),
];

const NOT_ACTIVATED: &[Step] = &[
    Step::Answer(2, 0, 1, 7),
    Step::Answer(2, 1, 1, 7),
    Step::Replace(2, 0, &[0, 1], TRIO),
    Step::Answer(3, 0, 1, 7),
    Step::Answer(3, 1, 1, 7),
    Step::Replace(3, 0, TRIO, TRIO),
];

const ACTIVATED: &[Step] = &[
    Step::Answer(2, 0, 1, 7),
    Step::Answer(2, 1, 1, 7),
    Step::Replace(2, 0, &[0, 1], TRIO),
    Step::Active(2),
    Step::Activate(2, 0),
    Step::Answer(3, 0, 1, 7),
    Step::Answer(3, 1, 1, 7),
    Step::Replace(3, 0, TRIO, &[0, 1]),
];

#[test]
fn what_a_rule_allows(rt: HostRuntime) -> Result<(), Fail> {
    for steps in [
        REFUSED_APPOINTMENTS,
        A_PRIMARY_THAT_IS_DOWN,
        THE_LEAST_PART_IS_NAMED,
        A_LATER_SURVEY_WAS_ANSWERED,
        A_LATER_ANSWER_REPLACES,
        EPOCHS_GO_BEFORE_PLACES,
        ACTIVATIONS,
        THE_BOOT_IS_ACTIVATED_AGAIN,
        NOT_ACTIVATED,
        ACTIVATED,
    ] {
        run(&rt, rt.alloc(), TRIO, steps)?;
    }
    Ok(())
}

// The members of a boot, and what happens: as many answers as the first needs for its appointment.
const READ_QUORUMS: [(Numbers, &[Step]); 5] = [
    (
        &[0],
        &[
            Step::Appoint(2, 0, &[0], 3),
            Step::Answer(2, 0, 1, 7),
            Step::Appoint(2, 0, &[0], 0),
        ],
    ),
    (
        &[0, 1],
        &[
            Step::Appoint(2, 0, &[0], 3),
            Step::Answer(2, 0, 1, 7),
            Step::Appoint(2, 0, &[0], 0),
        ],
    ),
    (
        &[0, 1, 2],
        &[
            Step::Answer(2, 0, 1, 7),
            Step::Appoint(2, 0, &[0], 3),
            Step::Answer(2, 1, 1, 7),
            Step::Appoint(2, 0, &[0], 0),
        ],
    ),
    (
        &[0, 1, 2, 3],
        &[
            Step::Answer(2, 0, 1, 7),
            Step::Appoint(2, 0, &[0], 3),
            Step::Answer(2, 1, 1, 7),
            Step::Appoint(2, 0, &[0], 0),
        ],
    ),
    (
        &[0, 1, 2, 3, 4],
        &[
            Step::Answer(2, 0, 1, 7),
            Step::Answer(2, 1, 1, 7),
            Step::Appoint(2, 0, &[0], 3),
            Step::Answer(2, 2, 1, 7),
            Step::Appoint(2, 0, &[0], 0),
        ],
    ),
];

#[test]
fn read_quorums(rt: HostRuntime) -> Result<(), Fail> {
    for (members, steps) in READ_QUORUMS {
        run(&rt, rt.alloc(), members, steps)?;
    }
    Ok(())
}
