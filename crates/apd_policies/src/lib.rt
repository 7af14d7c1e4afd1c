//! Policies before they are in force: the control-flow graph of a program, and captures as scripts.
//!
//! Main calls: `graph_text`, and `script_text`, `ScriptRest` and `access_points` for a capture that `capture` reads. It depends on `bpf_decode`,
//! `bpf_line` and `capture`.
#![tactic(auto)]

mod frames;
mod graph;

pub use frames::{Bssid, Manner, Named, ScriptRest, access_points, first_time, script_text, unit};
pub use graph::{Overlay, graph_text};
