use crate::playing::{Act, Step, played};
use coll_model::Kind;
use std::test::*;

// A put, an undo and a put again. What is seen below stays.
const PUTS_OVER_AN_UNDO: [Step; 16] = [
    (Act::Put, 1, "k", "a"),
    (Act::Put, 2, "j", "b"),
    (Act::Put, 3, "k", "c"),
    (Act::List, 1, "", "k=a"),
    (Act::List, 2, "", "j=b k=a"),
    (Act::List, 3, "", "j=b k=c"),
    (Act::List, 9, "", "j=b k=c"),
    (Act::Undo, 2, "", ""),
    (Act::List, 2, "", "j=b k=a"),
    (Act::List, 3, "", "j=b k=a"),
    (Act::Put, 3, "k", "d"),
    (Act::Del, 4, "j", ""),
    (Act::List, 2, "", "j=b k=a"),
    (Act::List, 3, "", "j=b k=d"),
    (Act::List, 4, "", "k=d"),
    (Act::Get, 4, "j", "-"),
];

// Several operations at one version are undone together, or not at all.
const ONE_VERSION: [Step; 11] = [
    (Act::Put, 5, "k", "a"),
    (Act::Put, 5, "k", "b"),
    (Act::Put, 5, "j", "c"),
    (Act::Undo, 5, "", ""),
    (Act::List, 5, "", "j=c k=b"),
    (Act::List, 4, "", ""),
    (Act::Count, 5, "", "2"),
    (Act::Count, 4, "", "0"),
    (Act::Undo, 4, "", ""),
    (Act::List, 5, "", ""),
    (Act::Count, 5, "", "0"),
];

// A merge keeps what is seen from its version on; an undo to it takes back the rest.
const PUTS_OVER_A_MERGE: [Step; 17] = [
    (Act::Put, 1, "k", "a"),
    (Act::Put, 2, "k", "b"),
    (Act::Del, 3, "k", ""),
    (Act::Put, 4, "j", "c"),
    (Act::Merge, 2, "", ""),
    (Act::List, 1, "", "below the floor"),
    (Act::List, 2, "", "k=b"),
    (Act::List, 3, "", ""),
    (Act::List, 4, "", "j=c"),
    (Act::Undo, 2, "", ""),
    (Act::List, 4, "", "k=b"),
    (Act::Put, 3, "i", "d"),
    (Act::Del, 4, "k", ""),
    (Act::Merge, 4, "", ""),
    (Act::List, 4, "", "i=d"),
    (Act::Count, 4, "", "1"),
    (Act::Get, 7, "i", "d"),
];

// Many values of one key, and none of another.
const ONE_KEY: [Step; 14] = [
    (Act::Put, 6, "k", "a"),
    (Act::Put, 9, "k", "b"),
    (Act::Put, 12, "k", "c"),
    (Act::Get, 5, "k", "-"),
    (Act::Get, 6, "k", "a"),
    (Act::Get, 8, "k", "a"),
    (Act::Get, 9, "k", "b"),
    (Act::Get, 12, "k", "c"),
    (Act::Undo, 9, "", ""),
    (Act::Get, 12, "k", "b"),
    (Act::Merge, 9, "", ""),
    (Act::Get, 9, "k", "b"),
    (Act::Get, 9, "kk", "-"),
    (Act::Count, 9, "", "1"),
];

// What is saved at a version is all that is loaded.
const DICT_LOADED: [Step; 10] = [
    (Act::Put, 1, "k", "a"),
    (Act::Put, 2, "j", "b"),
    (Act::Put, 3, "k", "c"),
    (Act::Reload, 2, "", ""),
    (Act::List, 1, "", "below the floor"),
    (Act::List, 2, "", "j=b k=a"),
    (Act::List, 3, "", "j=b k=a"),
    (Act::Batch, 3, "x", "y"),
    (Act::List, 3, "", "j=b k=a x=y y=x"),
    (Act::List, 2, "", "j=b k=a"),
];

// Operations of a queue change nothing of a dictionary.
const DICT_OF_QUEUE: [Step; 6] = [
    (Act::Put, 1, "k", "a"),
    (Act::Push, 2, "", "b"),
    (Act::Pop, 3, "", ""),
    (Act::List, 3, "", "k=a"),
    (Act::Item(0), 3, "", "-"),
    (Act::Put, 2, "k", "refused"),
];

// A pop that is undone gives the head back, and a push that is undone is gone from the tail.
const PUSHES_AND_POPS_OVER_AN_UNDO: [Step; 17] = [
    (Act::Push, 1, "", "a"),
    (Act::Push, 2, "", "b"),
    (Act::Pop, 3, "", ""),
    (Act::Push, 4, "", "c"),
    (Act::List, 1, "", "a"),
    (Act::List, 2, "", "a b"),
    (Act::List, 3, "", "b"),
    (Act::List, 4, "", "b c"),
    (Act::Undo, 2, "", ""),
    (Act::List, 4, "", "a b"),
    (Act::Pop, 3, "", ""),
    (Act::Pop, 4, "", ""),
    (Act::Pop, 5, "", ""),
    (Act::List, 3, "", "b"),
    (Act::List, 5, "", ""),
    (Act::Push, 6, "", "d"),
    (Act::List, 6, "", "d"),
];

const QUEUE_OVER_A_MERGE: [Step; 13] = [
    (Act::Push, 1, "", "a"),
    (Act::Push, 2, "", "b"),
    (Act::Pop, 3, "", ""),
    (Act::Merge, 3, "", ""),
    (Act::List, 2, "", "below the floor"),
    (Act::List, 3, "", "b"),
    (Act::Push, 4, "", "c"),
    (Act::Item(0), 4, "", "b"),
    (Act::Item(1), 4, "", "c"),
    (Act::Item(2), 4, "", "-"),
    (Act::Undo, 3, "", ""),
    (Act::Item(1), 4, "", "-"),
    (Act::Count, 4, "", "1"),
];

const QUEUE_LOADED: [Step; 10] = [
    (Act::Push, 1, "", "a"),
    (Act::Push, 2, "", "b"),
    (Act::Push, 3, "", "c"),
    (Act::Reload, 2, "", ""),
    (Act::List, 2, "", "a b"),
    (Act::Pop, 3, "", ""),
    (Act::List, 3, "", "b"),
    (Act::Undo, 2, "", ""),
    (Act::List, 3, "", "a b"),
    (Act::Get, 3, "a", "-"),
];

const CASES: [(Kind, &[Step]); 9] = [
    (Kind::Dict, &PUTS_OVER_AN_UNDO),
    (Kind::Dict, &ONE_VERSION),
    (Kind::Dict, &PUTS_OVER_A_MERGE),
    (Kind::Dict, &ONE_KEY),
    (Kind::Dict, &DICT_LOADED),
    (Kind::Dict, &DICT_OF_QUEUE),
    (Kind::Queue, &PUSHES_AND_POPS_OVER_AN_UNDO),
    (Kind::Queue, &QUEUE_OVER_A_MERGE),
    (Kind::Queue, &QUEUE_LOADED),
];

#[test]
fn views_are_as_written(rt: HostRuntime) -> Result<(), Fail> {
    let told = played(rt.alloc(), &CASES)?;
    assert_eq!(rt; told.got.as_slice(), told.wanted.as_slice());
    Ok(())
}
