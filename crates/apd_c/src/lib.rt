//! The exports for C programs, which `include/apd.h` declares.
//!
//! Main calls: `apd_c_verify`, `apd_c_run`, `apd_c_certify`, `apd_c_check` and `apd_c_link_frame`. It depends on
//! `bpf_verifier`, `bpf_cert`, `bpf_machine`, `ap_tables`, `ap_single` and, for `apd_c_why`, `apd_text`. Each export
//! calls a function of those and restates its clauses. C keeps values in a `Handle`, which is empty or owns one value. A
//! call that finds a value of another kind in it leaves it unchanged and returns 91; `apd_c_budget`, `apd_c_read` and
//! the calls that read outputs or lists return 0 or zeros.
#![tactic(auto)]

mod answer;
mod atomics;
mod call_port;
mod certificates;
mod code;
mod events;
mod handle;
mod handle_contents;
mod laws;
mod link;
mod loads;
mod loose;
mod maps;
mod outs;
mod rows;
mod runs;
mod sentences;
mod shapes;
mod why;
mod words;

pub use answer::Answer;
pub use atomics::{
    apd_c_compare_exchange, apd_c_exchange, apd_c_fetch_add, apd_c_fetch_and, apd_c_fetch_or,
    apd_c_fetch_xor,
};
pub use certificates::{apd_c_certify, apd_c_check, apd_c_check_within, apd_c_read};
pub use code::{apd_c_budget, apd_c_verify, apd_c_verify_limited, apd_c_verify_within};
pub use events::{
    Station, apd_c_link_close, apd_c_link_frame, apd_c_link_frame_into, apd_c_link_kick,
    apd_c_link_tick,
};
pub use handle::Handle;
pub use handle_contents::apd_c_free;
pub use laws::handles_law;
pub use link::{Network, apd_c_link};
pub use loads::{apd_c_link_load, apd_c_link_unload};
pub use outs::{OutHead, apd_c_out, apd_c_out_bytes, apd_c_outs};
pub use rows::{
    AgreementRow, StationRow, apd_c_agreement, apd_c_agreements, apd_c_link_agreements,
    apd_c_link_stations, apd_c_station, apd_c_stations,
};
pub use runs::{Given, Report, apd_c_run};
pub use sentences::apd_c_explain;
pub use shapes::MapShape;
pub use why::apd_c_why;
pub use words::{Loaded, apd_c_load, apd_c_maps, apd_c_store};
