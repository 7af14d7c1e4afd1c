//! Certificates: a program that was verified elsewhere is admitted if its certificate shows that it is safe.
//!
//! Main calls: `check`, which admits a program by a certificate's bytes, also within a limit of work, and
//! `certificate`, which makes the bytes. The crate depends on `bpf_cert_format`, `bpf_checks` and `bpf_verifier`.
//! `check` accepts exactly the bytes that `Covered` describes, unless memory is lacking. An accepted program is safe
//! within the returned budget. What `certificate` returns is covered.
#![tactic(auto)]

pub mod certificates;
pub mod checker;
pub mod claim;
pub mod claims;
pub mod coverage;
mod cuts;
mod description;
pub mod entry_claim;
pub mod fault;
pub mod held;
pub mod laws;
pub mod limit;
mod sieve;
mod source;
mod states;

pub use bpf_prune::Work;
pub use certificates::{certificate, certificate_counted, certificate_within};
pub use checker::{check, check_counted, check_within};
pub use claim::Claim;
pub use claims::Claims;
pub use fault::CertFault;
pub use limit::{Meter, Unlimited, WithinFault};
