// What the payloads of blocks spell.
ghost use Rattle.std.specs.Prelude.{◌≡◌, [], ◌∷◌, length, IfOk, OnErr, IsErrOf, Err, Some, None, Option, List};
ghost use Rattle.std.specs.Result.{result_map_both};
ghost use Rattle.log_records.specs.declared.error.CodecError.TheVariants as codec_errors;
ghost use Rattle.log_store.specs.Answers.{Finds};
ghost use Rattle.log_store.specs.Durable as spec;
ghost use Rattle.log_store.specs.Fold.{told};
ghost use Rattle.log_store.specs.Payload as payload_spec;
ghost use Rattle.log_store.specs.Payload.{records_of, generation_of};

use crate::error::RecoverError;
use disk_model::Area;
use gated_log::Block;
use log_records::{CodecError, Physical, decode};
use rc_base::NoMemory;
use std::alloc::Global;

// The records of a payload.
fn records(alloc: Global, payload: &[u8]) -> Result<Vec<Physical>, CodecError>
    ensures ok { IfOk result (λ v. records_of payload.now ≡ Some v.items) }
    ensures bad { (at : _) → IsErrOf result (codec_errors.Bad at) → records_of payload.now ≡ None }
{
    let mut items = Vec::new(alloc);
    let mut at = 0usize;
    while at < payload.len() {
        let (item, count) = decode(alloc, &payload[at..])?;
        items.push(item)?;
        at += count;
    }
    Ok(items)
}

// The records of a block's payload.
pub(crate) fn records_at(
    alloc: Global,
    area: Area,
    block: &Block,
) -> Result<Vec<Physical>, RecoverError>
    ensures { Finds (result_map_both (λ v. v.items) (λ e. e) result) (told area block.now.place (records_of block.now.payload)) }
{
    match records(alloc, block.payload.as_slice()) {
        Ok(items) => Ok(items),
        Err(CodecError::Bad { .. }) => Err(RecoverError::Corrupt {
            area,
            at: block.place,
        }),
        Err(CodecError::NoMemory) => Err(RecoverError::NoMemory),
    }
}

// The generation of an area with these blocks.
fn generation(alloc: Global, blocks: &[Block]) -> Result<u64, NoMemory>
    ensures { IfOk result (λ n. n ≡ spec.generation blocks.now) }
{
    match blocks {
        [] => Ok(0),
        [first, ..] => generation_at(alloc, first.payload.as_slice()),
    }
}

fn generation_at(alloc: Global, payload: &[u8]) -> Result<u64, NoMemory>
    ensures { IfOk result (λ n. n ≡ generation_of payload.now) }
{
    match decode(alloc, payload) {
        Ok((item, _)) => Ok(generation_named(&item)),
        Err(CodecError::Bad { .. }) => Ok(0),
        Err(CodecError::NoMemory) => Err(NoMemory),
    }
}

// The generation that a head names, 0 of any other record.
fn generation_named(item: &Physical) -> u64
    ensures { result ≡ payload_spec.generation_named item.now }
{
    match item {
        Physical::Head { generation, .. } => *generation,
        _ => 0,
    }
}

// Whether the second log area is taken.
pub(crate) fn second_holds(alloc: Global, zero: &[Block], one: &[Block]) -> Result<bool, NoMemory>
    ensures { IfOk result (λ b. b ≡ spec.second_holds zero.now one.now) }
{
    if one.is_empty() {
        return Ok(false);
    }
    if zero.is_empty() {
        return Ok(true);
    }
    Ok(generation(alloc, zero)? < generation(alloc, one)?)
}
