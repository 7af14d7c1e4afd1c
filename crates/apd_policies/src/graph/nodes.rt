//! The text of a graph.

ghost use Rattle.std.specs.Prelude.{◌≡◌, ◌++◌, ◌≤◌, IfOk, slice_get, true};
ghost use Rattle.std.specs.String.{string_bytes};
ghost use Rattle.apd_policies.specs.Overlays.{overlay_of};
ghost use Rattle.apd_policies.specs.Graph.{label_of, edge_line, opening, insn_line, Appends, IsJumpEdge, AreTwoEdges, AreEdges, IsEnding, IsDrawn, IsDrawnAt, IsGraph};

use crate::graph::blocks::{is_first, is_last, slot_after};
use crate::graph::overlay::{Overlay, append_fill, append_note};
use bpf_decode::{Program, jump_target};
use bpf_insn::Insn;
use bpf_line::InsnText;
use std::alloc::{AllocError, Global};
use std::fmt::Write;

/// How control goes on from the last instruction of a block.
#[derive(Clone, Copy, Debug, PartialEq, Eq)]
pub(crate) enum Way {
    /// The only way: to the next instruction, by a jump, or on from a local call.
    Next,
    /// A branch whose condition holds.
    Taken,
    /// A branch whose condition doesn't hold.
    NotTaken,
    /// Into a local function.
    Called,
}

/// A slot, and the first slot of its block.
#[derive(Clone, Copy)]
pub(crate) struct Place {
    pub head: usize,
    pub slot: usize,
}

fn label(way: Way) -> &'static str
    ensures is { result.now ≡ label_of way }
{
    match way {
        Way::Next => "",
        Way::Taken => "taken",
        Way::NotTaken => "not taken",
        Way::Called => "call",
    }
}

fn append_edge(text: &mut String, head: usize, to: usize, way: Way) -> Result<(), AllocError>
    ensures ok { IfOk result
        (λ _. string_bytes text.new ≡ string_bytes text.old ++ edge_line head to way) }
{
    writeln!(text, "  b{head} -> b{to} [label=\"{}\"];", label(way))?;
    Ok(())
}

/// Appends the edge of a jump.
fn append_jump(text: &mut String, from: Place, by: i32, way: Way) -> Result<(), AllocError>
    requires small { from.slot ≤ 16384 }
    ensures ok { IfOk result (λ _. Appends (IsJumpEdge from.head from.slot by way)
        (string_bytes text.old) (string_bytes text.new)) }
{
    match jump_target(from.slot, by) {
        Some(to) => append_edge(text, from.head, to, way),
        None => Ok(()),
    }
}

/// Appends the edge of a branch or a local call, and that to the next slot.
fn append_two(
    text: &mut String,
    from: Place,
    by: i32,
    way: Way,
    other: Way,
) -> Result<(), AllocError>
    requires small { from.slot ≤ 16384 }
    ensures ok { IfOk result (λ _. Appends (AreTwoEdges from.head from.slot by way other)
        (string_bytes text.old) (string_bytes text.new)) }
{
    append_jump(text, from, by, way)?;
    append_edge(text, from.head, from.slot + 1, other)
}

/// Appends the edges from an instruction, the last of its block.
fn append_edges(text: &mut String, from: Place, insn: &Insn) -> Result<(), AllocError>
    requires small { from.slot ≤ 16384 }
    ensures ok { IfOk result (λ _. Appends (AreEdges from.head from.slot insn.now)
        (string_bytes text.old) (string_bytes text.new)) }
{
    match insn {
        Insn::Jump { offset } => append_jump(text, from, i32::from(*offset), Way::Next),
        Insn::JumpLong { offset } => append_jump(text, from, *offset, Way::Next),
        Insn::Branch { offset, .. } => {
            append_two(text, from, i32::from(*offset), Way::Taken, Way::NotTaken)
        }
        Insn::CallLocal { offset } => append_two(text, from, *offset, Way::Called, Way::Next),
        Insn::Exit => Ok(()),
        _ => append_edge(text, from.head, slot_after(from.slot, insn), Way::Next),
    }
}

/// A program, and what its graph tells of the blocks.
#[derive(Clone, Copy)]
struct Sketch<'a> {
    program: &'a Program,
    overlay: Overlay<'a>,
}

/// Appends the beginning of a node.
fn append_node(text: &mut String, overlay: Overlay<'_>, slot: usize) -> Result<(), AllocError>
    ensures ok { IfOk result (λ _. string_bytes text.new
        ≡ string_bytes text.old ++ opening (overlay_of overlay.entry) true slot) }
{
    write!(text, "  b{slot} [")?;
    append_fill(text, overlay, slot)?;
    text.push_str("label=\"")?;
    append_note(text, overlay, slot)
}

/// Appends the beginning of a node, if a block begins.
fn append_opening(
    text: &mut String,
    overlay: Overlay<'_>,
    first: bool,
    slot: usize,
) -> Result<(), AllocError>
    ensures ok { IfOk result (λ _. string_bytes text.new
        ≡ string_bytes text.old ++ opening (overlay_of overlay.entry) first slot) }
{
    if first {
        return append_node(text, overlay, slot);
    }
    Ok(())
}

fn append_insn(text: &mut String, slot: usize, insn: Insn) -> Result<(), AllocError>
    ensures ok { IfOk result
        (λ _. string_bytes text.new ≡ string_bytes text.old ++ insn_line slot insn) }
{
    write!(text, "{slot} {}\\l", InsnText(insn))?;
    Ok(())
}

/// Appends the end of a node and the edges from it, if a block ends.
fn append_ending(text: &mut String, last: bool, from: Place, insn: &Insn) -> Result<(), AllocError>
    requires small { from.slot ≤ 16384 }
    ensures ok { IfOk result (λ _. Appends (IsEnding last from.head from.slot insn.now)
        (string_bytes text.old) (string_bytes text.new)) }
{
    if last {
        text.push_str("\"];\n")?;
        return append_edges(text, from, insn);
    }
    Ok(())
}

/// Appends an instruction; returns where its block begins, which is where the preceding one's does if not there.
fn append_insn_at(
    text: &mut String,
    sketch: Sketch<'_>,
    before: usize,
    slot: usize,
    insn: Insn,
) -> Result<usize, AllocError>
    requires small { slot ≤ 16384 }
    ensures ok { IfOk result (λ head. Appends
        (IsDrawn (overlay_of sketch.entry.overlay) sketch.entry.program.now.slots slot before head insn)
        (string_bytes text.old) (string_bytes text.new)) }
{
    let first = is_first(sketch.program, slot);
    let last = is_last(sketch.program, slot, &insn);
    let head = if first { slot } else { before };
    append_opening(text, sketch.overlay, first, slot)?;
    append_insn(text, slot, insn)?;
    append_ending(text, last, Place { head, slot }, &insn)?;
    Ok(head)
}

/// Appends what a slot holds; returns where the block of the last instruction begins.
fn append_slot(
    text: &mut String,
    sketch: Sketch<'_>,
    before: usize,
    slot: usize,
) -> Result<usize, AllocError>
    requires small { slot ≤ 16384 }
    ensures ok { IfOk result (λ head. Appends
        (IsDrawnAt (overlay_of sketch.entry.overlay) sketch.entry.program.now.slots slot before head
        (slice_get sketch.entry.program.now.slots slot))
        (string_bytes text.old) (string_bytes text.new)) }
{
    match sketch.program.insn_at(slot) {
        Some(Some(insn)) => append_insn_at(text, sketch, before, slot, insn),
        Some(None) => Ok(before),
        None => Ok(before),
    }
}

/// A program's control-flow graph, as graphviz reads it: a node for each block, with the instructions and their slots,
/// and the edges from its last instruction. An overlay tells more of each block.
pub fn graph_text(
    alloc: Global,
    program: &Program,
    overlay: Overlay<'_>,
) -> Result<String, AllocError>
    ensures is { IfOk result (λ text.
        IsGraph (overlay_of overlay.entry) program.now.slots (string_bytes text)) }
{
    let sketch = Sketch { program, overlay };
    let mut text = String::from_str(
        alloc,
        "digraph program {\n  node [shape=box, fontname=monospace];\n",
    )?;
    let mut head = 0;
    for slot in 0..program.len() {
        head = append_slot(&mut text, sketch, head, slot)?;
    }
    text.push_str("}\n")?;
    Ok(text)
}
