ghost use Rattle.std.specs.Prelude.{◌≡◌, ℕ, List, ◌++◌, IfOk, IsErrOf, OnOk, OnErr, Err};
ghost use Rattle.log_records.specs.declared.error.CodecError.TheVariants as errors;
ghost use Rattle.coll_model.specs.declared.op.Op.{Op as OpValue};
ghost use Rattle.log_records.specs.declared.record.Record.{Record as RecordValue};
ghost use Rattle.log_records.specs.declared.record.Physical.{Physical as PhysicalValue};
ghost use Rattle.log_records.specs.Spelling.{op, logical, physical, joined, OpFits, LogicalFits, PhysicalFits, IsLogical, IsPhysical, IsSpelled, IsReadAs};
ghost use Rattle.log_records.specs.Reading.{GivesFront, start, read_op, read_logical, read_physical};

use crate::error::CodecError;
use crate::reading::{logical_of, op_of, physical_of};
use crate::record::{Physical, Record};
use crate::writing::{put_op, put_physical, put_record};
use coll_model::Op;
use rc_base::{Fields, NoMemory};
use std::alloc::Global;

/// Writes the spelling of a physical record behind what stands in `out`. It has one: `physical_fits` tests it.
///
/// # Errors
/// `NoMemory`, and then `out` is as before.
pub fn encode(item: &Physical, out: &mut Vec<u8>) -> Result<(), NoMemory>
    requires { PhysicalFits item.now }
    ensures ok { OnOk result (out.new.items ≡ out.old.items ++ joined (physical item.now)) }
    ensures err { OnErr result (out.new.items ≡ out.old.items) }
{
    // The spelling is made apart, so that `out` is as before where memory runs out on the way.
    let mut text = Vec::new(*out.allocator());
    put_physical(&mut text, item)?;
    out.extend_from_slice(&text)?;
    Ok(())
}

/// Writes the spelling of a logical record behind what stands in `out`. It has one: `record_fits` tests it.
///
/// # Errors
/// `NoMemory`, and then `out` is as before.
pub fn encode_record(body: &Record, out: &mut Vec<u8>) -> Result<(), NoMemory>
    requires { LogicalFits body.now }
    ensures ok { OnOk result (out.new.items ≡ out.old.items ++ joined (logical body.now)) }
    ensures err { OnErr result (out.new.items ≡ out.old.items) }
{
    let mut text = Vec::new(*out.allocator());
    put_record(&mut text, body)?;
    out.extend_from_slice(&text)?;
    Ok(())
}

/// Writes the spelling of an operation behind what stands in `out`. It has one: `op_fits` tests it.
///
/// # Errors
/// `NoMemory`, and then `out` is as before.
pub fn encode_op(item: &Op, out: &mut Vec<u8>) -> Result<(), NoMemory>
    requires { OpFits item.now }
    ensures ok { OnOk result (out.new.items ≡ out.old.items ++ joined (op item.now)) }
    ensures err { OnErr result (out.new.items ≡ out.old.items) }
{
    let mut text = Vec::new(*out.allocator());
    put_op(&mut text, item)?;
    out.extend_from_slice(&text)?;
    Ok(())
}

/// The physical record at the front of the bytes, and how many bytes its spelling has.
///
/// # Errors
/// `Bad` exactly where no prefix of the bytes is a spelling, with the place where the first wrong field begins;
/// `NoMemory`.
pub fn decode(alloc: Global, bytes: &[u8]) -> Result<(Physical, usize), CodecError>
    // What is read is spelled so, each byte of it.
    ensures found { IfOk result (IsSpelled physical IsPhysical bytes.now) }
    // What is spelled so is read, whatever follows it.
    ensures only { (x : PhysicalValue) (rest : List ℕ) → IsPhysical x → bytes.now ≡ joined (physical x) ++ rest → IsReadAs x result }
    // The place is the one at which reading from the left fails.
    ensures place { (at : ℕ) → IsErrOf result (errors.Bad at) → read_physical (start bytes.now) ≡ Err at }
{
    front_physical(alloc, bytes)
}

fn front_physical(alloc: Global, bytes: &[u8]) -> Result<(Physical, usize), CodecError>
    ensures { GivesFront result (read_physical (start bytes.now)) }
{
    let mut fields = Fields::new(bytes);
    let item = physical_of(alloc, &mut fields)?;
    Ok((item, fields.place() as usize))
}

/// The logical record at the front of the bytes, and how many bytes its spelling has.
///
/// # Errors
/// `Bad` exactly where no prefix of the bytes is a spelling, with the place where the first wrong field begins;
/// `NoMemory`.
pub fn decode_record(alloc: Global, bytes: &[u8]) -> Result<(Record, usize), CodecError>
    ensures found { IfOk result (IsSpelled logical IsLogical bytes.now) }
    ensures only { (x : RecordValue) (rest : List ℕ) → IsLogical x → bytes.now ≡ joined (logical x) ++ rest → IsReadAs x result }
    ensures place { (at : ℕ) → IsErrOf result (errors.Bad at) → read_logical (start bytes.now) ≡ Err at }
{
    front_record(alloc, bytes)
}

fn front_record(alloc: Global, bytes: &[u8]) -> Result<(Record, usize), CodecError>
    ensures { GivesFront result (read_logical (start bytes.now)) }
{
    let mut fields = Fields::new(bytes);
    let record = logical_of(alloc, &mut fields)?;
    Ok((record, fields.place() as usize))
}

/// The operation at the front of the bytes, and how many bytes its spelling has.
///
/// # Errors
/// `Bad` exactly where no prefix of the bytes is a spelling, with the place where the first wrong field begins;
/// `NoMemory`.
pub fn decode_op(alloc: Global, bytes: &[u8]) -> Result<(Op, usize), CodecError>
    ensures found { IfOk result (IsSpelled op OpFits bytes.now) }
    ensures only { (x : OpValue) (rest : List ℕ) → OpFits x → bytes.now ≡ joined (op x) ++ rest → IsReadAs x result }
    ensures place { (at : ℕ) → IsErrOf result (errors.Bad at) → read_op (start bytes.now) ≡ Err at }
{
    front_op(alloc, bytes)
}

fn front_op(alloc: Global, bytes: &[u8]) -> Result<(Op, usize), CodecError>
    ensures { GivesFront result (read_op (start bytes.now)) }
{
    let mut fields = Fields::new(bytes);
    let op = op_of(alloc, &mut fields)?;
    Ok((op, fields.place() as usize))
}
