//! Tests of the models: what operations leave of collections, which locks stand against a request, and what breaks the rule of
//! reconfiguration.
#![tactic(auto)]

#[cfg(test)]
mod collections;
#[cfg(test)]
mod locks;
#[cfg(test)]
mod rule;
