//! What collections at versions cost: makes one of a size, does rounds of a form on it, and prints counts alone. Time and memory
//! are measured from outside.
#![tactic(auto)]

mod command;
mod forms;
mod rounds;

use anyhow::Result;
use std::env;

fn main(rt: HostRuntime) -> Result<()> {
    let alloc = rt.alloc();
    let mut words = Vec::new(alloc);
    for word in env::args(&rt)?.skip(1) {
        words.push(word)?;
    }
    command::run(alloc, &words, &mut rt.stdout())
}
