// The changes of a disk in memory since its last sync, and what they do to its areas.
ghost use Rattle.std.specs.Prelude.{◌≡◌, ◌++◌, ◌-◌, ◌+◌, ◌^◌, ◌≤◌, ◌<◌, ℕ, length, replicate, OnOk, vec_capacity};
ghost use Rattle.disk_model.specs.Disk.{written, with_area};
ghost use Rattle.disk_model.specs.Changes.{held, room, padded, left_of, left_by, done, end_of, reach};

use crate::Area;
use rc_base::Bytes;
use std::alloc::AllocError;

// What a stop leaves where nothing was written, and in a write's place where something else came.
const FILL: u8 = 165;

#[derive(Drop)]
pub(crate) struct Change {
    pub(crate) area: Area,
    pub(crate) edit: Edit,
}

#[derive(Drop)]
pub(crate) enum Edit {
    Write { at: u64, bytes: Bytes },
    Shorten { len: u64 },
}

impl Edit {
    // The place behind its bytes.
    pub(crate) fn end(&self) -> usize
        requires { end_of self.now < 2 ^ 63 }
        ensures { result ≡ end_of self.now }
    {
        match self {
            Edit::Write { at, bytes } => *at as usize + bytes.len(),
            Edit::Shorten { .. } => 0,
        }
    }

    // Does of the change what the digit tells.
    fn apply(&self, bytes: &mut Vec<u8>, digit: u64)
        requires { end_of self.now ≤ vec_capacity bytes.old }
        ensures items { bytes.new.items ≡ left_of self.now digit bytes.old.items }
        ensures room { vec_capacity bytes.old ≤ vec_capacity bytes.new }
    {
        match self {
            Edit::Write { at, bytes: piece } => {
                let at = *at as usize;
                match digit {
                    0 => {}
                    1 => overwrite(bytes, at, piece.as_slice()),
                    _ => scribble(bytes, at, piece.len()),
                }
            }
            Edit::Shorten { len } => {
                if digit != 0 {
                    bytes.truncate(*len as usize);
                }
            }
        }
    }
}

// Makes the bytes reach a place.
fn fill_up(bytes: &mut Vec<u8>, end: usize)
    requires { end ≤ vec_capacity bytes.old }
    ensures items { bytes.new.items ≡ bytes.old.items ++ replicate (end - length bytes.old.items) 165 }
    ensures room { vec_capacity bytes.old ≤ vec_capacity bytes.new }
{
    if bytes.len() < end {
        let _ = bytes.resize(end, FILL);
    }
}

// Writes, where the bytes may end before the place.
fn overwrite(bytes: &mut Vec<u8>, at: usize, piece: &[u8])
    requires { at + length piece.now ≤ vec_capacity bytes.old }
    ensures items { bytes.new.items ≡ written at piece.now (padded at bytes.old.items) }
    ensures room { vec_capacity bytes.old ≤ vec_capacity bytes.new }
{
    let end = at + piece.len();
    fill_up(bytes, end);
    bytes[at..end].copy_from_slice(piece);
}

// The same with other bytes than were asked.
fn scribble(bytes: &mut Vec<u8>, at: usize, count: usize)
    requires { at + count ≤ vec_capacity bytes.old }
    ensures items { bytes.new.items ≡ written at (replicate count 165) (padded at bytes.old.items) }
    ensures room { vec_capacity bytes.old ≤ vec_capacity bytes.new }
{
    let end = at + count;
    fill_up(bytes, end);
    bytes[at..end].fill(FILL);
}

// Does of a change what the digit tells, to its area.
pub(crate) fn apply_to(areas: &mut [Vec<u8>], change: &Change, digit: u64)
    requires four { length areas.old ≡ 4 }
    requires fits { end_of change.now.edit ≤ room areas.old change.now.area }
    ensures held { held areas.new ≡ with_area change.now.area (left_of change.now.edit digit) (held areas.old) }
    ensures room { (a : ℕ) → room areas.old a ≤ room areas.new a }
{
    let index = change.area.number() as usize;
    change.edit.apply(&mut areas[index], digit);
}

// Does all the changes as they were asked.
pub(crate) fn settle(areas: &mut [Vec<u8>], changes: &[Change])
    requires four { length areas.old ≡ 4 }
    requires fits { (a : ℕ) → reach a changes.now ≤ room areas.old a }
    ensures held { held areas.new ≡ done changes.now (held areas.old) }
    ensures room { (a : ℕ) → room areas.old a ≤ room areas.new a }
{
    for change in changes {
        apply_to(areas, change, 1);
    }
}

// Does of each change what its digit of the pick tells.
pub(crate) fn leave(areas: &mut [Vec<u8>], changes: &[Change], pick: u64)
    requires four { length areas.old ≡ 4 }
    requires fits { (a : ℕ) → reach a changes.now ≤ room areas.old a }
    ensures held { held areas.new ≡ left_by pick changes.now (held areas.old) }
    ensures room { (a : ℕ) → room areas.old a ≤ room areas.new a }
{
    let mut digits = pick;
    for change in changes {
        apply_to(areas, change, digits % 3);
        digits /= 3;
    }
}

// Takes room for the bytes of an area up to a place.
pub(crate) fn reserve(areas: &mut [Vec<u8>], area: Area, end: usize) -> Result<(), AllocError>
    requires { length areas.old ≡ 4 }
    ensures held { held areas.new ≡ held areas.old }
    ensures room { (a : ℕ) → room areas.old a ≤ room areas.new a }
    ensures enough { OnOk result (end ≤ room areas.new area) }
{
    let bytes = &mut areas[area.number() as usize];
    let more = end.saturating_sub(bytes.len());
    bytes.reserve(more)
}

// Makes the areas the same as others, for which there is room.
pub(crate) fn copy_all(from: &[Vec<u8>], to: &mut [Vec<u8>])
    requires four { (length from.now ≡ 4) × (length to.old ≡ 4) }
    requires fits { (a : ℕ) → length (held from.now a) ≤ room to.old a }
    ensures held { held to.new ≡ held from.now }
    ensures room { (a : ℕ) → room to.old a ≤ room to.new a }
{
    for i in 0..4 {
        let bytes = &mut to[i];
        bytes.clear();
        let _ = bytes.extend_from_slice(&from[i]);
    }
}
