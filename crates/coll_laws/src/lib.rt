//! What stands under a name or a key after an operation, and that names and keys stay in order. The definitions stand in
//! `specs/`, and the lemmas in `proofs/`, for the crates above.
#![tactic(auto)]
