//! A run of an admitted program step by step, as text.
//!
//! Main call: `trace_text`. It depends on `bpf_machine`, `bpf_helpers` and `bpf_line`. Its text is that of the
//! program's run on the frame, with zeros in the maps: a line for each step with its slot, its instruction and its
//! note, and a last one with R0 and the number of steps. It fails only for lack of memory.
mod lines;
mod plain_run;

pub use plain_run::trace_text;
