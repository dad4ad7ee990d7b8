ghost use Rattle.std.specs.Prelude.{◌≡◌, ◌+◌, ◌<◌, ◌≤◌, ◌^◌, ◌++◌, length, OnOk, OnErr, OnSome, IfSome, IfNone};
ghost use Rattle.std.specs.Int.{w8, w32, w64, w128, to_be_bytes};
ghost use Rattle.rc_base.specs.Fields.{IsReader, with_length, front_at, number_at, part_at, bytes_at, seen, Takes, Reads};

use crate::no_memory::NoMemory;
use std::marker::Model;
use thiserror::Error;

/// The bytes at a place are no such field: they are too few, or a length exceeds its bound.
#[derive(Clone, Copy, Debug, PartialEq, Eq, Error)]
#[error("wrong field at {at}")]
pub struct Bad {
    /// The place where the field begins, counted in bytes from the first.
    pub at: u64,
}

/// A reader of fields, from the front of the bytes to their end. Numbers are big-endian and of fixed width. Contracts see
/// the place where it stands and the bytes from there on. None of its calls takes memory.
#[derive(Drop)]
pub struct Fields<'a> {
    rest: &'a [u8],
    place: u64,
}

impl<'a> Model for Fields<'a> {
    ghost use Rattle.rc_base.specs.Fields.{Reader, IsReader};

    ghost Value = { Reader };

    ghost view = { λ f. record { place = f.place; rest = f.rest.now } };

    ghost invariant = { λ f. IsReader (record { place = f.place; rest = f.rest.now }) };
}

impl<'a> Fields<'a> {
    /// A reader at the first of the bytes.
    pub fn new(bytes: &'a [u8]) -> Fields<'a>
        ensures start { result.place ≡ 0 }
        ensures all { result.rest ≡ bytes.now }
    {
        Fields {
            rest: bytes,
            place: 0,
        }
    }

    /// Where the next field begins.
    pub fn place(&self) -> u64
        ensures { result ≡ self.now.place }
    {
        self.place
    }

    /// The bytes that are left.
    pub fn rest(&self) -> &'a [u8]
        ensures { result.now ≡ self.now.rest }
    {
        self.rest
    }

    /// A byte.
    ///
    /// # Errors
    /// `Bad` exactly where no byte is left.
    pub fn take_u8(&mut self) -> Result<u8, Bad>
        ensures exact { Takes result self.old self.new (number_at w8 self.old.rest) }
        ensures reads { Reads (to_be_bytes w8) (λ n. n < 2 ^ 8) result self.old self.new }
    {
        match self.front::<1>() {
            Ok(number) => Ok(u8::from_be_bytes(number)),
            Err(bad) => Err(bad),
        }
    }

    /// A number of four bytes.
    ///
    /// # Errors
    /// `Bad` exactly where fewer than four bytes are left.
    pub fn take_u32(&mut self) -> Result<u32, Bad>
        ensures exact { Takes result self.old self.new (number_at w32 self.old.rest) }
        ensures reads { Reads (to_be_bytes w32) (λ n. n < 2 ^ 32) result self.old self.new }
    {
        match self.front::<4>() {
            Ok(number) => Ok(u32::from_be_bytes(number)),
            Err(bad) => Err(bad),
        }
    }

    /// A number of eight bytes.
    ///
    /// # Errors
    /// `Bad` exactly where fewer than eight bytes are left.
    pub fn take_u64(&mut self) -> Result<u64, Bad>
        ensures exact { Takes result self.old self.new (number_at w64 self.old.rest) }
        ensures reads { Reads (to_be_bytes w64) (λ n. n < 2 ^ 64) result self.old self.new }
    {
        match self.front::<8>() {
            Ok(number) => Ok(u64::from_be_bytes(number)),
            Err(bad) => Err(bad),
        }
    }

    /// A number of sixteen bytes.
    ///
    /// # Errors
    /// `Bad` exactly where fewer than sixteen bytes are left.
    pub fn take_u128(&mut self) -> Result<u128, Bad>
        ensures exact { Takes result self.old self.new (number_at w128 self.old.rest) }
        ensures reads { Reads (to_be_bytes w128) (λ n. n < 2 ^ 128) result self.old self.new }
    {
        match self.front::<16>() {
            Ok(number) => Ok(u128::from_be_bytes(number)),
            Err(bad) => Err(bad),
        }
    }

    /// Bytes behind their length, a number of four bytes.
    ///
    /// # Errors
    /// `Bad` exactly where the length exceeds `max` or fewer bytes are left.
    pub fn take_bytes(&mut self, max: u32) -> Result<&'a [u8], Bad>
        ensures exact { Takes (seen result) self.old self.new (bytes_at w32 max self.old.rest) }
        ensures reads { Reads (with_length w32) (λ bytes. length bytes ≤ max) (seen result) self.old self.new }
    {
        let mut ahead = self.ahead();
        let len = match ahead.take_u32() {
            Ok(len) => len,
            Err(bad) => return Err(bad),
        };
        match ahead.part(max as usize, len as usize) {
            Some(bytes) => {
                *self = ahead;
                Ok(bytes)
            }
            None => Err(Bad { at: self.place() }),
        }
    }

    /// Bytes behind their length, a single byte.
    ///
    /// # Errors
    /// `Bad` exactly where the length exceeds `max` or fewer bytes are left.
    pub fn take_short(&mut self, max: u8) -> Result<&'a [u8], Bad>
        ensures exact { Takes (seen result) self.old self.new (bytes_at w8 max self.old.rest) }
        ensures reads { Reads (with_length w8) (λ bytes. length bytes ≤ max) (seen result) self.old self.new }
    {
        let mut ahead = self.ahead();
        let len = match ahead.take_u8() {
            Ok(len) => len,
            Err(bad) => return Err(bad),
        };
        match ahead.part(max as usize, len as usize) {
            Some(bytes) => {
                *self = ahead;
                Ok(bytes)
            }
            None => Err(Bad { at: self.place() }),
        }
    }

    // A second reader at the same place.
    fn ahead(&self) -> Fields<'a>
        ensures same { result ≡ self.now }
        ensures small { IsReader self.now }
    {
        Fields {
            rest: self.rest,
            place: self.place,
        }
    }

    // The next bytes, as many as the array has.
    fn front<const N: usize>(&mut self) -> Result<[u8; N], Bad>
        ensures exact { Takes result self.old self.new (front_at N self.old.rest) }
        ensures small { IsReader self.old }
    {
        let Some((front, rest)) = self.rest.split_first_chunk::<N>() else {
            return Err(Bad { at: self.place });
        };
        self.place += N as u64;
        self.rest = rest;
        Ok(*front)
    }

    // The next `len` bytes, where that is at most `max`.
    fn part(&mut self, max: usize, len: usize) -> Option<&'a [u8]>
        ensures some { IfSome result (λ bytes. part_at max len self.old.rest ≡ Some (bytes.now, self.new.rest)) }
        ensures behind { OnSome result (self.new.place + length self.new.rest ≡ self.old.place + length self.old.rest) }
        ensures none { IfNone result (part_at max len self.old.rest ≡ None) }
    {
        let rest = self.rest;
        if max < len || rest.len() < len {
            return None;
        }
        let (part, rest) = rest.split_at(len);
        self.place += len as u64;
        self.rest = rest;
        Some(part)
    }
}

/// Writes a byte.
///
/// # Errors
/// `NoMemory`, and then `out` is as before.
pub fn put_u8(out: &mut Vec<u8>, value: u8) -> Result<(), NoMemory>
    ensures ok { OnOk result (out.new.items ≡ out.old.items ++ to_be_bytes w8 value) }
    ensures err { OnErr result (out.new.items ≡ out.old.items) }
{
    out.extend_from_slice(&value.to_be_bytes())?;
    Ok(())
}

/// Writes a number, four bytes.
///
/// # Errors
/// `NoMemory`, and then `out` is as before.
pub fn put_u32(out: &mut Vec<u8>, value: u32) -> Result<(), NoMemory>
    ensures ok { OnOk result (out.new.items ≡ out.old.items ++ to_be_bytes w32 value) }
    ensures err { OnErr result (out.new.items ≡ out.old.items) }
{
    out.extend_from_slice(&value.to_be_bytes())?;
    Ok(())
}

/// Writes a number, eight bytes.
///
/// # Errors
/// `NoMemory`, and then `out` is as before.
pub fn put_u64(out: &mut Vec<u8>, value: u64) -> Result<(), NoMemory>
    ensures ok { OnOk result (out.new.items ≡ out.old.items ++ to_be_bytes w64 value) }
    ensures err { OnErr result (out.new.items ≡ out.old.items) }
{
    out.extend_from_slice(&value.to_be_bytes())?;
    Ok(())
}

/// Writes a number, sixteen bytes.
///
/// # Errors
/// `NoMemory`, and then `out` is as before.
pub fn put_u128(out: &mut Vec<u8>, value: u128) -> Result<(), NoMemory>
    ensures ok { OnOk result (out.new.items ≡ out.old.items ++ to_be_bytes w128 value) }
    ensures err { OnErr result (out.new.items ≡ out.old.items) }
{
    out.extend_from_slice(&value.to_be_bytes())?;
    Ok(())
}

/// Writes bytes behind their length, a number of four bytes. There are fewer than 2^32.
///
/// # Errors
/// `NoMemory`, and then `out` is as before.
pub fn put_bytes(out: &mut Vec<u8>, value: &[u8]) -> Result<(), NoMemory>
    requires { length value.now < 2 ^ 32 }
    ensures ok { OnOk result (out.new.items ≡ out.old.items ++ with_length w32 value.now) }
    ensures err { OnErr result (out.new.items ≡ out.old.items) }
{
    let before = out.len();
    put_u32(out, value.len() as u32)?;
    if out.extend_from_slice(value).is_err() {
        out.truncate(before);
        return Err(NoMemory);
    }
    Ok(())
}

/// Writes bytes behind their length, a single byte. There are fewer than 256.
///
/// # Errors
/// `NoMemory`, and then `out` is as before.
pub fn put_short(out: &mut Vec<u8>, value: &[u8]) -> Result<(), NoMemory>
    requires { length value.now < 2 ^ 8 }
    ensures ok { OnOk result (out.new.items ≡ out.old.items ++ with_length w8 value.now) }
    ensures err { OnErr result (out.new.items ≡ out.old.items) }
{
    let before = out.len();
    put_u8(out, value.len() as u8)?;
    if out.extend_from_slice(value).is_err() {
        out.truncate(before);
        return Err(NoMemory);
    }
    Ok(())
}
