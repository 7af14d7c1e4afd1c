//! Reading a line of assembler text as an instruction, and writing an instruction as text.
//!
//! Main calls: `read_line`, and displaying an `InsnText`. The crate depends on `bpf_insn`. A line
//! is read exactly as the grammar in `specs/` says: as an instruction, as nothing, or with fault 20
//! (not in the grammar) or 21 (a number out of range). `text_law`: the text of each instruction is
//! read as that instruction. No call allocates.
#![tactic(auto)]

mod fault;
mod laws;
mod lines;
mod names;
mod numbers;
mod operands;
mod read;
mod words;
mod write;

pub use fault::LineFault;
pub use laws::text_law;
pub use read::read_line;
pub use write::InsnText;
