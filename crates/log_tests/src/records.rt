use coll_model::{Kind, Op};
use log_records::{
    CodecError, Physical, Record, decode, decode_op, decode_record, encode, encode_op,
    encode_record, op_fits, physical_fits, record_fits,
};
use rc_base::{Bytes, Epoch, Lsn, Name, NoMemory, TxnId};
use std::alloc::{AllocError, Global};
use std::test::*;

const MAKE: [u8; 4] = [1, 1, b'd', 1];

const PUT: [u8; 13] = [3, 1, b'd', 0, 0, 0, 1, b'k', 0, 0, 0, 1, b'v'];

const END: [u8; 26] = [
    18, 0, 0, 0, 0, 0, 0, 0, 1, 0, 0, 0, 0, 0, 0, 0, 1, 0, 0, 0, 0, 0, 0, 0, 5, 1,
];

const BARRIER: [u8; 26] = [
    1, 0, 0, 0, 0, 0, 0, 0, 7, 0, 0, 0, 0, 0, 0, 0, 1, 19, 0, 0, 0, 0, 0, 0, 0, 6,
];

const FENCE: [u8; 9] = [2, 0, 0, 0, 0, 0, 0, 0, 2];

fn make(alloc: Global) -> Result<Op, NoMemory> {
    Ok(Op::Make(Name::from_slice(alloc, b"d")?, Kind::Dict))
}

fn put(alloc: Global) -> Result<Op, NoMemory> {
    let name = Name::from_slice(alloc, b"d")?;
    let key = Bytes::from_slice(alloc, b"k")?;
    let value = Bytes::from_slice(alloc, b"v")?;
    Ok(Op::Put(name, key, value))
}

fn end() -> Record {
    let epoch = Epoch { loss: 0, number: 1 };
    Record::End {
        txn: TxnId { epoch, n: 1 },
        prev: Lsn(5),
        committed: true,
    }
}

fn barrier() -> Physical {
    Physical::Logical {
        lsn: Lsn(7),
        epoch: Epoch { loss: 0, number: 1 },
        body: Record::Barrier { stable: Lsn(6) },
    }
}

fn fence() -> Physical {
    Physical::Fence {
        epoch: Epoch { loss: 0, number: 2 },
    }
}

// Whether the text is the spelling of the operation.
fn spells_op(alloc: Global, item: &Op, text: &[u8]) -> Result<bool, NoMemory> {
    let mut out = Vec::new(alloc);
    if op_fits(item) {
        encode_op(item, &mut out)?;
    }
    Ok(out.as_slice() == text)
}

fn spells_record(alloc: Global, body: &Record, text: &[u8]) -> Result<bool, NoMemory> {
    let mut out = Vec::new(alloc);
    if record_fits(body) {
        encode_record(body, &mut out)?;
    }
    Ok(out.as_slice() == text)
}

fn spells_physical(alloc: Global, item: &Physical, text: &[u8]) -> Result<bool, NoMemory> {
    let mut out = Vec::new(alloc);
    if physical_fits(item) {
        encode(item, &mut out)?;
    }
    Ok(out.as_slice() == text)
}

// Whether the operation is read from all of the text.
fn reads_op(alloc: Global, text: &[u8], item: &Op) -> bool {
    match decode_op(alloc, text) {
        Ok((read, count)) => read == *item && count == text.len(),
        Err(_) => false,
    }
}

fn reads_record(alloc: Global, text: &[u8], body: &Record) -> bool {
    match decode_record(alloc, text) {
        Ok((read, count)) => read == *body && count == text.len(),
        Err(_) => false,
    }
}

fn reads_physical(alloc: Global, text: &[u8], item: &Physical) -> bool {
    match decode(alloc, text) {
        Ok((read, count)) => read == *item && count == text.len(),
        Err(_) => false,
    }
}

// The place at which the bytes are no operation, or 99.
fn wrong_op(alloc: Global, text: &[u8]) -> u64 {
    match decode_op(alloc, text) {
        Err(CodecError::Bad { at }) => at,
        _ => 99,
    }
}

fn wrong_record(alloc: Global, text: &[u8]) -> u64 {
    match decode_record(alloc, text) {
        Err(CodecError::Bad { at }) => at,
        _ => 99,
    }
}

fn wrong_physical(alloc: Global, text: &[u8]) -> u64 {
    match decode(alloc, text) {
        Err(CodecError::Bad { at }) => at,
        _ => 99,
    }
}

// The place at which `front` with `count` letters after it is no operation, or 99.
fn wrong_with_letters(alloc: Global, front: &[u8], count: usize) -> Result<u64, AllocError> {
    let mut text = Vec::from_slice(alloc, front)?;
    for _ in 0..count {
        text.push(b'a')?;
    }
    Ok(wrong_op(alloc, &text))
}

// Whether the operation is written as the text, and read from it.
fn is_op(alloc: Global, item: Op, text: &[u8]) -> Result<bool, NoMemory> {
    Ok(spells_op(alloc, &item, text)? && reads_op(alloc, text, &item))
}

fn is_record(alloc: Global, body: Record, text: &[u8]) -> Result<bool, NoMemory> {
    Ok(spells_record(alloc, &body, text)? && reads_record(alloc, text, &body))
}

fn is_physical(alloc: Global, item: Physical, text: &[u8]) -> Result<bool, NoMemory> {
    Ok(spells_physical(alloc, &item, text)? && reads_physical(alloc, text, &item))
}

#[test]
fn operations(rt: HostRuntime) -> Result<(), Fail> {
    assert!(rt; is_op(rt.alloc(), make(rt.alloc())?, &MAKE)?);
    assert!(rt; is_op(rt.alloc(), put(rt.alloc())?, &PUT)?);
    Ok(())
}

#[test]
fn records(rt: HostRuntime) -> Result<(), Fail> {
    assert!(rt; is_record(rt.alloc(), end(), &END)?);
    Ok(())
}

#[test]
fn physical_records(rt: HostRuntime) -> Result<(), Fail> {
    assert!(rt; is_physical(rt.alloc(), barrier(), &BARRIER)?);
    assert!(rt; is_physical(rt.alloc(), fence(), &FENCE)?);
    Ok(())
}

#[test]
fn prefixes(rt: HostRuntime) {
    for text in [MAKE.as_slice(), &PUT] {
        for count in 0..text.len() {
            assert!(rt; wrong_op(rt.alloc(), &text[..count]) < 99);
        }
    }
    for text in [BARRIER.as_slice(), &FENCE] {
        for count in 0..text.len() {
            assert!(rt; wrong_physical(rt.alloc(), &text[..count]) < 99);
        }
    }
}

// Bytes that are no operation, and the place where that is seen: an unknown form, an unknown kind, a name of no letters, a
// letter that no name has, a key of no bytes.
const WRONG_OPS: [(&[u8], u64); 5] = [
    (&[7], 0),
    (&[1, 1, b'd', 3], 3),
    (&[2, 0, b'd'], 1),
    (&[2, 1, b'D'], 1),
    (&[4, 1, b'd', 0, 0, 0, 0], 3),
];

#[test]
fn malformed(rt: HostRuntime) {
    for (text, place) in WRONG_OPS {
        assert_eq!(rt; wrong_op(rt.alloc(), text), place);
    }
    // a slot of 2, a log of format 2, an end that is neither
    assert_eq!(rt; wrong_physical(rt.alloc(), &[4, 2, 0, 0]), 1);
    assert_eq!(rt; wrong_physical(rt.alloc(), &[6, 2, 0, 0]), 1);
    let mut text = END;
    text[25] = 2;
    assert_eq!(rt; wrong_record(rt.alloc(), &text), 25);
}

// The front of an operation and how many letters follow: a name of 65 letters, a key of 129 bytes, a value of 1,025 bytes.
const TOO_LONG: [(&[u8], usize, u64); 3] = [
    (&[2, 65], 65, 1),
    (&[4, 1, b'd', 0, 0, 0, 129], 129, 3),
    (&[5, 1, b'd', 0, 0, 4, 1], 1025, 3),
];

#[test]
fn too_long(rt: HostRuntime) -> Result<(), Fail> {
    for (front, count, place) in TOO_LONG {
        assert_eq!(rt; wrong_with_letters(rt.alloc(), front, count)?, place);
    }
    Ok(())
}
