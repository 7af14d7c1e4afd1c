//! Tests of an access point that several threads serve: frames that are held while operators act, stopped workers, full
//! queues, failing allocations, and a soak; and of what it is made of: the workers' queues, the tables of their maps and
//! the books of a shard.
#![tactic(auto)]

#[cfg(test)]
mod tests;
