//! Publishes programs by their certificates.
//!
//! Main calls: `publish_checked`, which checks a certificate and then publishes the program for its hook, and
//! `publish_checked_within`, which does so within a limit of work. The crate depends on `versions` and `bpf_cert`. A
//! program whose certificate shows a budget is refused only for other map shapes (60), lack of memory (40), or more work
//! than is allowed (36). A refusal leaves the published set unchanged.
#![tactic(auto)]

mod fault;
mod offer;

pub use fault::CheckedFault;
pub use offer::{Offer, publish_checked, publish_checked_within};
