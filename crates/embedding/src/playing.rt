// How `run` of the crate `shell` is called.
use anyhow::Result;
use rc_io::{MemHost, MemSink, MemSource};
use shell::{Kit, nine_disks, run};
use std::alloc::{AllocError, Global};
use std::io::Write;

// A dictionary gets a key, which a second transaction reads.
const SCRIPT: &[u8] = b"\
boot 0 0
begin 0
make 0 0.1.1 stock dict
set 0 0.1.1 stock apples 12
commit 0 0.1.1
begin 0
get 0 0.1.2 stock apples
";

// The word of the command that plays a script.
fn words(alloc: Global) -> Result<Vec<String>, AllocError> {
    let mut words = Vec::new(alloc);
    words.push(String::from_str(alloc, "world")?)?;
    Ok(words)
}

// Plays the source's script into the sink over nine empty disks, and answers the status of the run.
fn play_into(alloc: Global, source: &mut MemSource, sink: &mut MemSink) -> Result<u8, AllocError> {
    let words = words(alloc)?;
    let mut fleet = nine_disks(alloc)?;
    let mut host = MemHost::new(alloc, Vec::new(alloc));
    Ok(run(alloc, &words, source, sink, &mut fleet, &mut host, Kit {}))
}

/// Plays the script, and writes its transcript and the status of the run.
pub fn play<W: Write>(alloc: Global, out: &mut W) -> Result<()> {
    let mut source = MemSource::new(Vec::from_slice(alloc, SCRIPT)?, Vec::new(alloc));
    let mut sink = MemSink::new(alloc, None, Vec::new(alloc));
    let status = play_into(alloc, &mut source, &mut sink)?;
    out.write_all(sink.bytes())?;
    writeln!(out, "status {status}")?;
    Ok(())
}
