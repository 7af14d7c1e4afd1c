//! A program's control-flow graph, as graphviz reads it.
//!
//! Main call: `graph_text`, with an `Overlay` that tells more of each block. A block is a run of instructions that control enters only at the first, and leaves only
//! after the last. Each instruction is in one block; the edges are where control may go after a block's last
//! instruction. The text is exactly that of the definition in `specs/`.
mod blocks;
mod nodes;
mod overlay;

pub use nodes::graph_text;
pub use overlay::Overlay;
