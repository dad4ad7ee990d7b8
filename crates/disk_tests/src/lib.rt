//! Tests of the disks: what calls and stops leave in memory, and the blocks and slots over them.
#![tactic(auto)]

#[cfg(test)]
mod blocks;
#[cfg(test)]
mod disk;
#[cfg(test)]
mod slots;
