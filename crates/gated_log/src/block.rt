// Blocks, and their bytes.
ghost use Rattle.std.specs.Prelude.{◌≡◌, ◌+◌, ◌^◌, ◌≤◌, ◌<◌, ℕ, List, [], ◌∷◌, ◌++◌, length, take, drop, IfOk, OnOk, MatchOption};
ghost use Rattle.std.specs.Int.{w32, to_be_bytes};
ghost use Rattle.gated_log.specs.Blocks.{IsPayload, AllPayloads, OpensWith, open_blocks, block, behind_gate, spelling};
ghost use Rattle.gated_log.specs.Log.{placed_from};

use rc_base::{Bytes, NoMemory, Seq};
use std::alloc::Global;

// The greatest length of a payload in bytes.
const MAX_PAYLOAD: usize = 1_048_576;

/// An open block: the place of its gate in the area, and what it holds.
#[derive(Drop)]
pub struct Block {
    pub place: u64,
    pub payload: Bytes,
}

/// The open blocks of an area, in their order.
pub type Blocks = Seq<Block>;

// The length of the payload of the block at the front, if it is open.
fn open_at(bytes: &[u8]) -> Option<usize>
    ensures { MatchOption result (open_blocks bytes.now ≡ []) (λ n. OpensWith bytes.now n) }
{
    let [gate, a, b, c, d, ..] = bytes else {
        return None;
    };
    if *gate != 1 {
        return None;
    }
    let count = u32::from_be_bytes([*a, *b, *c, *d]) as usize;
    if count == 0 {
        return None;
    }
    if count > MAX_PAYLOAD {
        return None;
    }
    if bytes.len() <= 5 + count {
        return None;
    }
    Some(count)
}

// The open blocks of an area, and the place behind the last of them.
pub(crate) fn walk(alloc: Global, bytes: &[u8]) -> Result<(Blocks, u64), NoMemory>
    requires { length bytes.now < 2 ^ 63 }
    ensures blocks { IfOk result (λ r. r.0 ≡ placed_from 0 (open_blocks bytes.now)) }
    ensures end { IfOk result (λ r. r.1 ≡ length (spelling (open_blocks bytes.now))) }
    ensures within { IfOk result (λ r. r.1 ≤ length bytes.now) }
{
    let mut blocks = Vec::new(alloc);
    let mut at = 0usize;
    while let Some(count) = open_at(&bytes[at..]) {
        let start = at + 5;
        let end = start + count;
        let payload = Bytes::from_slice(alloc, &bytes[start..end])?;
        blocks.push(Block {
            place: at as u64,
            payload,
        })?;
        at = end;
    }
    Ok((Blocks::from_vec(blocks), at as u64))
}

// Adds an open block at the end of the bytes.
fn spell(out: &mut Vec<u8>, payload: &[u8]) -> Result<(), NoMemory>
    requires { IsPayload payload.now }
    ensures { OnOk result (out.new.items ≡ out.old.items ++ block payload.now) }
{
    out.push(1)?;
    out.extend_from_slice(&(payload.len() as u32).to_be_bytes())?;
    out.extend_from_slice(payload)?;
    Ok(())
}

// Open blocks of these payloads, and a closed gate.
pub(crate) fn spell_all(alloc: Global, payloads: &[Bytes]) -> Result<Vec<u8>, NoMemory>
    requires { AllPayloads payloads.now }
    ensures { IfOk result (λ v. v.items ≡ spelling payloads.now ++ 0 ∷ []) }
{
    let mut out = Vec::new(alloc);
    for payload in payloads {
        spell(&mut out, payload.as_slice())?;
    }
    out.push(0)?;
    Ok(out)
}

// What stands behind the gate of a block that is to be the last, and the closed gate behind it.
pub(crate) fn body_of(alloc: Global, payload: &[u8]) -> Result<Vec<u8>, NoMemory>
    requires { IsPayload payload.now }
    ensures { IfOk result (λ v. v.items ≡ behind_gate payload.now) }
{
    let mut out = Vec::new(alloc);
    out.extend_from_slice(&(payload.len() as u32).to_be_bytes())?;
    out.extend_from_slice(payload)?;
    out.push(0)?;
    Ok(out)
}
