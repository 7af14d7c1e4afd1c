//! What callers of the link may conclude, as contracts of functions that only call `ap_core` and the laws; and tests of
//! what frames and commands lead to, also under programs.
//!
//! It depends on `ap_core` and `ap_laws`, its tests on `uses_policies`. Its functions promise the link's half of the main
//! theorem. Its tests compare frames, stations and verdicts with outside rows: independently spelled frames, cut and
//! changed; stations that come and go; the tables of verdicts and the bytes of contexts; configurations, windows and
//! agreements; transcripts of an access point.
#![tactic(auto)]

mod headline;

pub use headline::{compare, decide, go_on, serve};

#[cfg(test)]
mod agreements;
#[cfg(test)]
mod configurations;
#[cfg(test)]
mod digits;
#[cfg(test)]
mod fields;
#[cfg(test)]
mod frames;
#[cfg(test)]
mod same;
#[cfg(test)]
mod stations;
#[cfg(test)]
mod tests;
#[cfg(test)]
mod verdicts;
#[cfg(test)]
mod windows;
