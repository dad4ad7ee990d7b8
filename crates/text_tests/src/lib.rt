//! Tests of the texts: the bytes of each form of line, and the places of wrong words.
#![tactic(auto)]

#[cfg(test)]
mod script;
#[cfg(test)]
mod transcript;
