use super::*;
use std::alloc::Global;
use std::test::*;

fn replicas(alloc: Global, numbers: &[u8]) -> Result<Vec<ReplicaId>, Fail> {
    let mut ids = Vec::new(alloc);
    for number in numbers {
        ids.push(ReplicaId::new(*number).ok_or("a replica is below 9")?)?;
    }
    Ok(ids)
}

fn has_numbers(members: &Members, numbers: &[u8]) -> bool {
    let ids = members.as_slice();
    members.len() == numbers.len()
        && ids
            .iter()
            .zip(numbers)
            .all(|(id, number)| id.number() == *number)
}

// Whether the members of the list, and a copy of them, are these.
fn are_members(alloc: Global, given: &[u8], wanted: &[u8]) -> Result<bool, Fail> {
    let members = Members::from_slice(alloc, &replicas(alloc, given)?)?;
    Ok(has_numbers(&members, wanted) && has_numbers(&members.clone()?, wanted))
}

// The replica that stands twice by the error, or 9.
fn number_in(error: MembersError) -> u8 {
    match error {
        MembersError::Twice { id } => id.number(),
        MembersError::NoMemory => 9,
    }
}

fn told_twice(alloc: Global, given: &[u8]) -> Result<Option<u8>, Fail> {
    let ids = replicas(alloc, given)?;
    Ok(Members::from_slice(alloc, &ids).err().map(number_in))
}

#[test]
fn members_rise(rt: HostRuntime) -> Result<(), Fail> {
    for (given, wanted) in [([4, 1, 8], [1, 4, 8]), ([0, 1, 2], [0, 1, 2])] {
        assert!(rt; are_members(rt.alloc(), &given, &wanted)?);
    }
    Ok(())
}

#[test]
fn the_first_that_stands_twice(rt: HostRuntime) -> Result<(), Fail> {
    for (given, wanted) in [
        ([4, 1, 1, 4], Some(4)),
        ([0, 3, 3, 1], Some(3)),
        ([0, 1, 2, 3], None),
    ] {
        assert_eq!(rt; told_twice(rt.alloc(), &given)?, wanted);
    }
    Ok(())
}

#[test]
fn quorums_meet(rt: HostRuntime) {
    for n in 1..10u64 {
        assert_eq!(rt; write_quorum(n) + read_quorum(n), n + 1);
    }
}

#[test]
fn bytes_in_order(rt: HostRuntime) -> Result<(), Fail> {
    let low = Bytes::from_slice(rt.alloc(), b"ab")?;
    let high = Bytes::from_slice(rt.alloc(), b"b")?;
    assert!(rt; low < high);
    Ok(())
}

#[test]
fn a_copy_of_a_name(rt: HostRuntime) -> Result<(), Fail> {
    let name = Name::from_slice(rt.alloc(), b"d")?;
    assert_eq!(rt; name.clone()?.into_vec().as_slice(), b"d".as_slice());
    Ok(())
}

fn listed(alloc: Global, numbers: &[u64]) -> Result<Seq<u64>, NoMemory> {
    let mut list = Seq::new(alloc);
    for number in numbers {
        list.push(*number)?;
    }
    Ok(list.clone()?)
}

#[test]
fn items_in_order(rt: HostRuntime) -> Result<(), Fail> {
    assert_eq!(rt;
        listed(rt.alloc(), &[7, 3, 7])?.as_slice(),
        [7, 3, 7].as_slice()
    );
    Ok(())
}

// One field of each sort, the numbers with their highest byte first.
const FIELDS: [u8; 37] = [
    7, 0, 0, 1, 2, 0, 0, 0, 0, 0, 0, 0, 1, 0, 0, 0, 0, 0, 0, 0, 0, 0, 0, 0, 0, 0, 0, 0, 2, 0, 0, 0,
    2, b'k', b'v', 1, b'd',
];

fn written(alloc: Global) -> Result<Vec<u8>, NoMemory> {
    let mut out = Vec::new(alloc);
    put_u8(&mut out, 7)?;
    put_u32(&mut out, 258)?;
    put_u64(&mut out, 1)?;
    put_u128(&mut out, 2)?;
    put_bytes(&mut out, b"kv")?;
    put_short(&mut out, b"d")?;
    Ok(out)
}

#[test]
fn fields_written(rt: HostRuntime) -> Result<(), Fail> {
    assert_eq!(rt; written(rt.alloc())?.as_slice(), FIELDS.as_slice());
    Ok(())
}

#[test]
fn fields_read(rt: HostRuntime) {
    let mut fields = Fields::new(&FIELDS);
    assert_eq!(rt; fields.take_u8(), Ok(7));
    assert_eq!(rt; fields.take_u32(), Ok(258));
    assert_eq!(rt; fields.take_u64(), Ok(1));
    assert_eq!(rt; fields.take_u128(), Ok(2));
    assert_eq!(rt; fields.take_bytes(1), Err(Bad { at: 29 }));
    assert_eq!(rt; fields.take_bytes(2), Ok(b"kv".as_slice()));
    assert_eq!(rt; fields.take_short(255), Ok(b"d".as_slice()));
    assert_eq!(rt; fields.take_u8(), Err(Bad { at: 37 }));
}

#[test]
fn names_of_collections(rt: HostRuntime) {
    for text in ["d", "a-z_09", "_", "-", "0"] {
        assert!(rt; is_name(text.as_bytes()), "{text}");
    }
    for text in ["", "D", "aZ", "a b", "a.b", "a/b", "é"] {
        assert!(rt; !is_name(text.as_bytes()), "{text}");
    }
    assert!(rt; is_name(&[b'n'; 64]));
    assert!(rt; !is_name(&[b'n'; 65]));
}

#[test]
fn limits_print_their_words(rt: HostRuntime) -> Result<(), Fail> {
    let text = format!(in rt.alloc(); "{} {}", LimitName::Names, LimitName::Lsn)?;
    assert_eq!(rt; text.as_str(), "names lsn");
    Ok(())
}
