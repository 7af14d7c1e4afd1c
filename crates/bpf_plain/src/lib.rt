//! Laws about walks through a program, plain programs and clear ones, for all values.
//!
//! Main call: `laws::plain_law`: a plain program is clear with 2^22, each successor is one step of a
//! walk, and states are at instructions. The law's function does nothing. It depends on
//! `bpf_rules`. `specs/Walks.antt` defines plain programs.
#![tactic(auto)]

pub mod laws;
