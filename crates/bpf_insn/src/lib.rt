//! The instructions of RFC 9669 (groups base32, base64, divmul32, divmul64, atomic32 and atomic64),
//! and the slots of eight bytes that spell them.
//!
//! Main calls: `Insn::from_slots` reads a slot with the next one; `to_slots` writes it. The crate
//! depends on `byteorder`. Slots are read as an instruction if and only if they spell it, by the
//! table of fields in `specs/`; otherwise the fault with the lowest number is returned.
//! `laws::slots_law`: the two directions are inverse.
#![tactic(auto)]

pub mod fault;
mod fields;
pub mod insn;
mod kind;
pub mod laws;
mod read;
mod write;

pub use fault::FieldFault;
pub use insn::{
    AluOp, AtomicOp, ByteOrder, Compare, Extension, Insn, OrderWidth, Reg, Size, Source, Wide,
};
