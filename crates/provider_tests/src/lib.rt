//! Tests of collections at versions: what applies, undoes and merges leave to be seen at each version.
#![tactic(auto)]

#[cfg(test)]
mod cases;
#[cfg(test)]
mod loading;
#[cfg(test)]
mod managing;
#[cfg(test)]
mod playing;
