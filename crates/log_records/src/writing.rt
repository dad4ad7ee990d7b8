ghost use Rattle.std.specs.Prelude.{◌≡◌, ◌↔◌, ◌++◌, OnOk, IsTrue};
ghost use Rattle.rc_base.specs.Names as names;
ghost use Rattle.log_records.specs.Spelling as words;
ghost use Rattle.log_records.specs.Spelling.{name, string, kind, epoch, txn, op, logical, physical, joined, OpFits, LogicalFits, PhysicalFits};

use crate::record::{Physical, Record};
use crate::words::{is_key, is_value};
use coll_model::{Kind, Op};
use rc_base::{
    Bytes, Epoch, Name, NoMemory, TxnId, is_name, put_bytes, put_short, put_u8, put_u32, put_u64,
    put_u128,
};

/// Whether the operation has a spelling: its name, key and value are such words.
pub fn op_fits(item: &Op) -> bool
    ensures { IsTrue result ↔ OpFits item.now }
{
    match item {
        Op::Make(name, _) | Op::Unmake(name) | Op::Pop(name) => is_name(name.as_slice()),
        Op::Put(name, key, value) => is_name(name.as_slice())
            && is_key(key.as_slice())
            && is_value(value.as_slice()),
        Op::Del(name, key) => is_name(name.as_slice()) && is_key(key.as_slice()),
        Op::Push(name, value) => is_name(name.as_slice()) && is_value(value.as_slice()),
    }
}

/// Whether the logical record has a spelling: its operation has one.
pub fn record_fits(body: &Record) -> bool
    ensures { IsTrue result ↔ LogicalFits body.now }
{
    match body {
        Record::Operation { op, .. } => op_fits(op),
        _ => true,
    }
}

/// Whether the physical record has a spelling: its logical record has one, and its slot is 0 or 1.
pub fn physical_fits(item: &Physical) -> bool
    ensures { IsTrue result ↔ PhysicalFits item.now }
{
    match item {
        Physical::Logical { body, .. } => record_fits(body),
        Physical::CheckpointDone { slot, .. } | Physical::Reset { slot, .. } => *slot < 2,
        _ => true,
    }
}

#[tactic(auto, using(crate::proofs::FieldCodec::name_bound))]
fn put_name(out: &mut Vec<u8>, text: &Name) -> Result<(), NoMemory>
    requires { IsTrue (names.is_name text.now) }
    ensures { OnOk result (out.new.items ≡ out.old.items ++ name text.now) }
{
    put_short(out, text.as_slice())
}

#[tactic(auto, using(crate::proofs::FieldCodec::key_bound))]
fn put_key(out: &mut Vec<u8>, text: &Bytes) -> Result<(), NoMemory>
    requires { IsTrue (words.is_key text.now) }
    ensures { OnOk result (out.new.items ≡ out.old.items ++ string text.now) }
{
    put_bytes(out, text.as_slice())
}

#[tactic(auto, using(crate::proofs::FieldCodec::value_bound))]
fn put_value(out: &mut Vec<u8>, text: &Bytes) -> Result<(), NoMemory>
    requires { IsTrue (words.is_value text.now) }
    ensures { OnOk result (out.new.items ≡ out.old.items ++ string text.now) }
{
    put_bytes(out, text.as_slice())
}

fn put_kind(out: &mut Vec<u8>, value: Kind) -> Result<(), NoMemory>
    ensures { OnOk result (out.new.items ≡ out.old.items ++ kind value) }
{
    match value {
        Kind::Dict => put_u8(out, 1),
        Kind::Queue => put_u8(out, 2),
    }
}

fn put_flag(out: &mut Vec<u8>, value: bool) -> Result<(), NoMemory>
    ensures { OnOk result (out.new.items ≡ out.old.items ++ words.flag value) }
{
    put_u8(out, if value { 1 } else { 0 })
}

fn put_epoch(out: &mut Vec<u8>, value: Epoch) -> Result<(), NoMemory>
    ensures { OnOk result (out.new.items ≡ out.old.items ++ joined (epoch value)) }
{
    put_u32(out, value.loss)?;
    put_u32(out, value.number)
}

fn put_txn(out: &mut Vec<u8>, value: TxnId) -> Result<(), NoMemory>
    ensures { OnOk result (out.new.items ≡ out.old.items ++ joined (txn value)) }
{
    put_epoch(out, value.epoch)?;
    put_u64(out, value.n)
}

pub(crate) fn put_op(out: &mut Vec<u8>, item: &Op) -> Result<(), NoMemory>
    requires { OpFits item.now }
    ensures { OnOk result (out.new.items ≡ out.old.items ++ joined (op item.now)) }
{
    match item {
        Op::Make(name, kind) => {
            put_u8(out, 1)?;
            put_name(out, name)?;
            put_kind(out, *kind)
        }
        Op::Unmake(name) => {
            put_u8(out, 2)?;
            put_name(out, name)
        }
        Op::Put(name, key, value) => {
            put_u8(out, 3)?;
            put_name(out, name)?;
            put_key(out, key)?;
            put_value(out, value)
        }
        Op::Del(name, key) => {
            put_u8(out, 4)?;
            put_name(out, name)?;
            put_key(out, key)
        }
        Op::Push(name, value) => {
            put_u8(out, 5)?;
            put_name(out, name)?;
            put_value(out, value)
        }
        Op::Pop(name) => {
            put_u8(out, 6)?;
            put_name(out, name)
        }
    }
}

pub(crate) fn put_record(out: &mut Vec<u8>, body: &Record) -> Result<(), NoMemory>
    requires { LogicalFits body.now }
    ensures { OnOk result (out.new.items ≡ out.old.items ++ joined (logical body.now)) }
{
    match body {
        Record::Begin { txn } => {
            put_u8(out, 16)?;
            put_txn(out, *txn)
        }
        Record::Operation { txn, prev, op } => {
            put_u8(out, 17)?;
            put_txn(out, *txn)?;
            put_u64(out, prev.0)?;
            put_op(out, op)
        }
        Record::End {
            txn,
            prev,
            committed,
        } => {
            put_u8(out, 18)?;
            put_txn(out, *txn)?;
            put_u64(out, prev.0)?;
            put_flag(out, *committed)
        }
        Record::Barrier { stable } => {
            put_u8(out, 19)?;
            put_u64(out, stable.0)
        }
        Record::EpochStart { epoch } => {
            put_u8(out, 20)?;
            put_epoch(out, *epoch)
        }
    }
}

pub(crate) fn put_physical(out: &mut Vec<u8>, item: &Physical) -> Result<(), NoMemory>
    requires { PhysicalFits item.now }
    ensures { OnOk result (out.new.items ≡ out.old.items ++ joined (physical item.now)) }
{
    match item {
        Physical::Logical { lsn, epoch, body } => {
            put_u8(out, 1)?;
            put_u64(out, lsn.0)?;
            put_epoch(out, *epoch)?;
            put_record(out, body)
        }
        Physical::Fence { epoch } => {
            put_u8(out, 2)?;
            put_epoch(out, *epoch)
        }
        Physical::TruncateTail { lsn } => {
            put_u8(out, 3)?;
            put_u64(out, lsn.0)
        }
        Physical::CheckpointDone { slot, at, len } => {
            put_u8(out, 4)?;
            put_u8(out, *slot)?;
            put_u64(out, at.0)?;
            put_u64(out, *len)
        }
        Physical::Reset { slot, at, len } => {
            put_u8(out, 5)?;
            put_u8(out, *slot)?;
            put_u64(out, at.0)?;
            put_u64(out, *len)
        }
        Physical::Head {
            generation,
            partition,
        } => {
            put_u8(out, 6)?;
            put_u8(out, 1)?;
            put_u64(out, *generation)?;
            put_u128(out, *partition)
        }
    }
}
