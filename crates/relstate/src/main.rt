//! The program: a script of events from standard input, its transcript to standard output.
#![tactic(auto)]

use rc_io::{MemHost, ReadSource, WriteSink};
use shell::{Kit, nine_disks, run};
use std::env;
use std::process::ExitCode;

// The status of a run for which memory is wanted before it begins.
const NO_MEMORY: u8 = 8;

fn main(rt: HostRuntime) -> ExitCode {
    let alloc = rt.alloc();
    let Ok(mut fleet) = nine_disks(alloc) else {
        return ExitCode::from(NO_MEMORY);
    };
    let Ok(arguments) = env::args(&rt) else {
        return ExitCode::from(NO_MEMORY);
    };
    let mut words = Vec::new(alloc);
    for word in arguments.skip(1) {
        if words.push(word).is_err() {
            return ExitCode::from(NO_MEMORY);
        }
    }
    let mut source = ReadSource::new(rt.stdin());
    let mut sink = WriteSink::new(rt.stdout());
    let mut host = MemHost::new(alloc, Vec::new(alloc));
    ExitCode::from(run(
        alloc,
        &words,
        &mut source,
        &mut sink,
        &mut fleet,
        &mut host,
        Kit {},
    ))
}
