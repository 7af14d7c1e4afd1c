//! A program's instructions with their slots, which `refused N at PC` names.
//!
//! Main call: `listing_text`. It depends on `bpf_decode` and `bpf_line`. Each instruction has a line that begins with
//! its slot, with a mark if it is a target: slot 0, where a jump or a local call goes, and where a local call returns
//! to. The text is exactly that of the definition in `specs/`.
mod lines;

pub use lines::listing_text;
