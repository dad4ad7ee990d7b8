//! What locks protect: a live transaction has read and written under its own locks, so the commits of others leave its
//! answers as they are. The definitions stand in `specs/`, and the lemmas in `proofs/`, for the crates above.
#![tactic(auto)]
