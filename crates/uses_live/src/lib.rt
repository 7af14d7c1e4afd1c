//! What callers make of tables that threads share (`live::load_both`: two threads load one word); and tests of the
//! tables of maps that workers share, of programs over them, and of program sets that are published while programs run.
//! It depends on `shared_maps`, its tests on `bpf_helpers` and `versions_checked`. No call of `sharing` locks.
#![tactic(auto)]

pub mod live;
#[cfg(test)]
mod tests;
