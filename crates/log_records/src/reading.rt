ghost use Rattle.std.specs.Prelude.{◌≡◌};
ghost use Rattle.std.specs.Int.{w8, w32, w64, w128};
ghost use Rattle.log_records.specs.Reading.{Gives, read_number, read_name, read_key, read_value, read_kind, read_flag, read_slot, read_format, read_epoch, read_txn, read_make, read_unmake, read_put, read_del, read_push, read_pop, read_op, read_begin, read_operation, read_end, read_barrier, read_epoch_start, read_logical, read_logged, read_fence, read_truncate_tail, read_checkpoint_done, read_reset, read_head, read_physical};

use crate::error::CodecError;
use crate::record::{Physical, Record};
use crate::words::{is_key, is_value};
use coll_model::{Kind, Op};
use rc_base::{Bytes, Epoch, Fields, Lsn, Name, TxnId, is_name};
use std::alloc::Global;

#[tactic(auto, unfolding(crate::specs::Reading::read_number))]
fn byte_of(fields: &mut Fields<'_>) -> Result<u8, CodecError>
    ensures { Gives result fields.new (read_number w8 fields.old) }
{
    Ok(fields.take_u8()?)
}

#[tactic(auto, unfolding(crate::specs::Reading::read_number))]
fn short_of(fields: &mut Fields<'_>) -> Result<u32, CodecError>
    ensures { Gives result fields.new (read_number w32 fields.old) }
{
    Ok(fields.take_u32()?)
}

#[tactic(auto, unfolding(crate::specs::Reading::read_number))]
fn long_of(fields: &mut Fields<'_>) -> Result<u64, CodecError>
    ensures { Gives result fields.new (read_number w64 fields.old) }
{
    Ok(fields.take_u64()?)
}

#[tactic(auto, unfolding(crate::specs::Reading::read_number))]
fn wide_of(fields: &mut Fields<'_>) -> Result<u128, CodecError>
    ensures { Gives result fields.new (read_number w128 fields.old) }
{
    Ok(fields.take_u128()?)
}

#[tactic(auto, unfolding(crate::specs::Reading::read_word))]
fn name_of(alloc: Global, fields: &mut Fields<'_>) -> Result<Name, CodecError>
    ensures { Gives result fields.new (read_name fields.old) }
{
    let at = fields.place();
    let text = fields.take_short(64)?;
    if !is_name(text) {
        return Err(CodecError::Bad { at });
    }
    Ok(Name::from_slice(alloc, text)?)
}

#[tactic(auto, unfolding(crate::specs::Reading::read_word))]
fn key_of(alloc: Global, fields: &mut Fields<'_>) -> Result<Bytes, CodecError>
    ensures { Gives result fields.new (read_key fields.old) }
{
    let at = fields.place();
    let text = fields.take_bytes(128)?;
    if !is_key(text) {
        return Err(CodecError::Bad { at });
    }
    Ok(Bytes::from_slice(alloc, text)?)
}

#[tactic(auto, unfolding(crate::specs::Reading::read_word))]
fn value_of(alloc: Global, fields: &mut Fields<'_>) -> Result<Bytes, CodecError>
    ensures { Gives result fields.new (read_value fields.old) }
{
    let at = fields.place();
    let text = fields.take_bytes(1024)?;
    if !is_value(text) {
        return Err(CodecError::Bad { at });
    }
    Ok(Bytes::from_slice(alloc, text)?)
}

#[tactic(auto, unfolding(crate::specs::Reading::read_kind))]
fn kind_of(fields: &mut Fields<'_>) -> Result<Kind, CodecError>
    ensures { Gives result fields.new (read_kind fields.old) }
{
    let at = fields.place();
    match byte_of(fields)? {
        1 => Ok(Kind::Dict),
        2 => Ok(Kind::Queue),
        _ => Err(CodecError::Bad { at }),
    }
}

#[tactic(auto, unfolding(crate::specs::Reading::read_flag))]
fn flag_of(fields: &mut Fields<'_>) -> Result<bool, CodecError>
    ensures { Gives result fields.new (read_flag fields.old) }
{
    let at = fields.place();
    match byte_of(fields)? {
        0 => Ok(false),
        1 => Ok(true),
        _ => Err(CodecError::Bad { at }),
    }
}

#[tactic(auto, unfolding(crate::specs::Reading::read_slot))]
fn slot_of(fields: &mut Fields<'_>) -> Result<u8, CodecError>
    ensures { Gives result fields.new (read_slot fields.old) }
{
    let at = fields.place();
    match byte_of(fields)? {
        0 => Ok(0),
        1 => Ok(1),
        _ => Err(CodecError::Bad { at }),
    }
}

#[tactic(auto, unfolding(crate::specs::Reading::read_format))]
fn format_of(fields: &mut Fields<'_>) -> Result<u8, CodecError>
    ensures { Gives result fields.new (read_format fields.old) }
{
    let at = fields.place();
    match byte_of(fields)? {
        1 => Ok(1),
        _ => Err(CodecError::Bad { at }),
    }
}

#[tactic(auto, unfolding(crate::specs::Reading::read_epoch))]
fn epoch_of(fields: &mut Fields<'_>) -> Result<Epoch, CodecError>
    ensures { Gives result fields.new (read_epoch fields.old) }
{
    let loss = short_of(fields)?;
    let number = short_of(fields)?;
    Ok(Epoch { loss, number })
}

#[tactic(auto, unfolding(crate::specs::Reading::read_txn))]
fn txn_of(fields: &mut Fields<'_>) -> Result<TxnId, CodecError>
    ensures { Gives result fields.new (read_txn fields.old) }
{
    let epoch = epoch_of(fields)?;
    let n = long_of(fields)?;
    Ok(TxnId { epoch, n })
}

#[tactic(auto, unfolding(crate::specs::Reading::read_make))]
fn make_of(alloc: Global, fields: &mut Fields<'_>) -> Result<Op, CodecError>
    ensures { Gives result fields.new (read_make fields.old) }
{
    let name = name_of(alloc, fields)?;
    let kind = kind_of(fields)?;
    Ok(Op::Make(name, kind))
}

#[tactic(auto, unfolding(crate::specs::Reading::read_unmake))]
fn unmake_of(alloc: Global, fields: &mut Fields<'_>) -> Result<Op, CodecError>
    ensures { Gives result fields.new (read_unmake fields.old) }
{
    let name = name_of(alloc, fields)?;
    Ok(Op::Unmake(name))
}

#[tactic(auto, unfolding(crate::specs::Reading::read_put))]
fn put_of(alloc: Global, fields: &mut Fields<'_>) -> Result<Op, CodecError>
    ensures { Gives result fields.new (read_put fields.old) }
{
    let name = name_of(alloc, fields)?;
    let key = key_of(alloc, fields)?;
    let value = value_of(alloc, fields)?;
    Ok(Op::Put(name, key, value))
}

#[tactic(auto, unfolding(crate::specs::Reading::read_del))]
fn del_of(alloc: Global, fields: &mut Fields<'_>) -> Result<Op, CodecError>
    ensures { Gives result fields.new (read_del fields.old) }
{
    let name = name_of(alloc, fields)?;
    let key = key_of(alloc, fields)?;
    Ok(Op::Del(name, key))
}

#[tactic(auto, unfolding(crate::specs::Reading::read_push))]
fn push_of(alloc: Global, fields: &mut Fields<'_>) -> Result<Op, CodecError>
    ensures { Gives result fields.new (read_push fields.old) }
{
    let name = name_of(alloc, fields)?;
    let value = value_of(alloc, fields)?;
    Ok(Op::Push(name, value))
}

#[tactic(auto, unfolding(crate::specs::Reading::read_pop))]
fn pop_of(alloc: Global, fields: &mut Fields<'_>) -> Result<Op, CodecError>
    ensures { Gives result fields.new (read_pop fields.old) }
{
    let name = name_of(alloc, fields)?;
    Ok(Op::Pop(name))
}

#[tactic(auto, unfolding(crate::specs::Reading::read_op))]
pub(crate) fn op_of(alloc: Global, fields: &mut Fields<'_>) -> Result<Op, CodecError>
    ensures { Gives result fields.new (read_op fields.old) }
{
    let at = fields.place();
    match byte_of(fields)? {
        1 => make_of(alloc, fields),
        2 => unmake_of(alloc, fields),
        3 => put_of(alloc, fields),
        4 => del_of(alloc, fields),
        5 => push_of(alloc, fields),
        6 => pop_of(alloc, fields),
        _ => Err(CodecError::Bad { at }),
    }
}

#[tactic(auto, unfolding(crate::specs::Reading::read_begin))]
fn begin_of(fields: &mut Fields<'_>) -> Result<Record, CodecError>
    ensures { Gives result fields.new (read_begin fields.old) }
{
    let txn = txn_of(fields)?;
    Ok(Record::Begin { txn })
}

#[tactic(auto, unfolding(crate::specs::Reading::read_operation))]
fn operation_of(alloc: Global, fields: &mut Fields<'_>) -> Result<Record, CodecError>
    ensures { Gives result fields.new (read_operation fields.old) }
{
    let txn = txn_of(fields)?;
    let prev = Lsn(long_of(fields)?);
    let op = op_of(alloc, fields)?;
    Ok(Record::Operation { txn, prev, op })
}

#[tactic(auto, unfolding(crate::specs::Reading::read_end))]
fn end_of(fields: &mut Fields<'_>) -> Result<Record, CodecError>
    ensures { Gives result fields.new (read_end fields.old) }
{
    let txn = txn_of(fields)?;
    let prev = Lsn(long_of(fields)?);
    let committed = flag_of(fields)?;
    Ok(Record::End {
        txn,
        prev,
        committed,
    })
}

#[tactic(auto, unfolding(crate::specs::Reading::read_barrier))]
fn barrier_of(fields: &mut Fields<'_>) -> Result<Record, CodecError>
    ensures { Gives result fields.new (read_barrier fields.old) }
{
    let stable = Lsn(long_of(fields)?);
    Ok(Record::Barrier { stable })
}

#[tactic(auto, unfolding(crate::specs::Reading::read_epoch_start))]
fn epoch_start_of(fields: &mut Fields<'_>) -> Result<Record, CodecError>
    ensures { Gives result fields.new (read_epoch_start fields.old) }
{
    let epoch = epoch_of(fields)?;
    Ok(Record::EpochStart { epoch })
}

#[tactic(auto, unfolding(crate::specs::Reading::read_logical))]
pub(crate) fn logical_of(alloc: Global, fields: &mut Fields<'_>) -> Result<Record, CodecError>
    ensures { Gives result fields.new (read_logical fields.old) }
{
    let at = fields.place();
    match byte_of(fields)? {
        16 => begin_of(fields),
        17 => operation_of(alloc, fields),
        18 => end_of(fields),
        19 => barrier_of(fields),
        20 => epoch_start_of(fields),
        _ => Err(CodecError::Bad { at }),
    }
}

#[tactic(auto, unfolding(crate::specs::Reading::read_logged))]
fn logged_of(alloc: Global, fields: &mut Fields<'_>) -> Result<Physical, CodecError>
    ensures { Gives result fields.new (read_logged fields.old) }
{
    let lsn = Lsn(long_of(fields)?);
    let epoch = epoch_of(fields)?;
    let body = logical_of(alloc, fields)?;
    Ok(Physical::Logical { lsn, epoch, body })
}

#[tactic(auto, unfolding(crate::specs::Reading::read_fence))]
fn fence_of(fields: &mut Fields<'_>) -> Result<Physical, CodecError>
    ensures { Gives result fields.new (read_fence fields.old) }
{
    let epoch = epoch_of(fields)?;
    Ok(Physical::Fence { epoch })
}

#[tactic(auto, unfolding(crate::specs::Reading::read_truncate_tail))]
fn truncate_tail_of(fields: &mut Fields<'_>) -> Result<Physical, CodecError>
    ensures { Gives result fields.new (read_truncate_tail fields.old) }
{
    let lsn = Lsn(long_of(fields)?);
    Ok(Physical::TruncateTail { lsn })
}

#[tactic(auto, unfolding(crate::specs::Reading::read_checkpoint_done))]
fn checkpoint_done_of(fields: &mut Fields<'_>) -> Result<Physical, CodecError>
    ensures { Gives result fields.new (read_checkpoint_done fields.old) }
{
    let slot = slot_of(fields)?;
    let at = Lsn(long_of(fields)?);
    let len = long_of(fields)?;
    Ok(Physical::CheckpointDone { slot, at, len })
}

#[tactic(auto, unfolding(crate::specs::Reading::read_reset))]
fn reset_of(fields: &mut Fields<'_>) -> Result<Physical, CodecError>
    ensures { Gives result fields.new (read_reset fields.old) }
{
    let slot = slot_of(fields)?;
    let at = Lsn(long_of(fields)?);
    let len = long_of(fields)?;
    Ok(Physical::Reset { slot, at, len })
}

#[tactic(auto, unfolding(crate::specs::Reading::read_head))]
fn head_of(fields: &mut Fields<'_>) -> Result<Physical, CodecError>
    ensures { Gives result fields.new (read_head fields.old) }
{
    format_of(fields)?;
    let generation = long_of(fields)?;
    let partition = wide_of(fields)?;
    Ok(Physical::Head {
        generation,
        partition,
    })
}

#[tactic(auto, unfolding(crate::specs::Reading::read_physical))]
pub(crate) fn physical_of(alloc: Global, fields: &mut Fields<'_>) -> Result<Physical, CodecError>
    ensures { Gives result fields.new (read_physical fields.old) }
{
    let at = fields.place();
    match byte_of(fields)? {
        1 => logged_of(alloc, fields),
        2 => fence_of(fields),
        3 => truncate_tail_of(fields),
        4 => checkpoint_done_of(fields),
        5 => reset_of(fields),
        6 => head_of(fields),
        _ => Err(CodecError::Bad { at }),
    }
}
