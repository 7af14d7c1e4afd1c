//! Assembler text: programs from text, and the text of programs.
//!
//! Main calls: `assemble` and `disassemble`. The crate depends on `bpf_line` and `bpf_decode`.
//! `assemble` returns the code of a text, or its first faulty line with that line's fault.
//! `disassemble` writes a line for each instruction; assembling these lines gives the bytes that
//! the program was decoded from.
#![tactic(auto)]

mod assembler;
mod disassembler;
mod fault;

pub use assembler::assemble;
pub use disassembler::disassemble;
pub use fault::AsmFault;
