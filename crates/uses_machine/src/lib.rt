//! Tests of what programs stand on: words, regions, faults, and certificates as bytes; and the verifier's domain by rows,
//! from tristate numbers to finished states.
//!
//! It depends on `bpf_prune`, `bpf_rules` and `bpf_cert_format`. The tests are here and not in those crates, since a crate
//! with tests is proved twice. They show what no clause says: that calls succeed, and outside values. `sweeps` has the
//! rows of instructions, code, text, programs and certificates.
#![tactic(auto)]

#[cfg(test)]
mod tests;
