//! Tests of a run that no script can be: over sources and sinks that fail, and of what it leaves on a disk.
#![tactic(auto)]

#[cfg(test)]
mod runs;
