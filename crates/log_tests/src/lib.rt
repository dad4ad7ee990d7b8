//! Tests of the log: the bytes of its records, its transactions as they come, and what is recovered from a disk.
#![tactic(auto)]

#[cfg(test)]
mod records;
#[cfg(test)]
mod store;
#[cfg(test)]
mod transactions;
