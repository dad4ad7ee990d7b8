//! An example of a program that uses the crates: it plays a script from memory by the call `run`, and asks for locks.
#![tactic(auto)]

mod locking;
mod playing;

use anyhow::Result;

fn main(rt: HostRuntime) -> Result<()> {
    let alloc = rt.alloc();
    let mut out = rt.stdout();
    playing::play(alloc, &mut out)?;
    locking::take_turns(alloc, &mut out)
}
